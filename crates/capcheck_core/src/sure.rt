ghost use Rattle.capcheck_core.specs.Completeness.{NoFault};
ghost use Rattle.capcheck_core.specs.Report.{seen};

use cap_files::{Folder, Sink, SureFolder, SureSink};

/// States that the forms in memory that never fail raise no count, whatever a command does to them.
/// So over them a command whose needs are there does its work, unless there is no memory for it.
pub fn sure_forms_never_fail(
    before: &SureFolder,
    after: &SureFolder,
    sink: &SureSink,
    put: &SureSink,
)
    ensures { NoFault
        (⟦<SureFolder as Folder>⟧.folders before.now) (⟦<SureFolder as Folder>⟧.folders after.now)
        (seen (⟦<SureSink as Sink>⟧.received sink.now) (⟦<SureSink as Sink>⟧.faults sink.now))
        (seen (⟦<SureSink as Sink>⟧.received put.now) (⟦<SureSink as Sink>⟧.faults put.now)) }
{}
