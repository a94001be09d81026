ghost use Rattle.vm_store.specs.Cells.{tagged, words};
ghost use Rattle.vm_step.specs.Leaving.{EndingsLeave, RunsLeave};
ghost use Rattle.vm_step.specs.Laws.{StepsAreOne, StepsExist, RunsAreOne, RunsExist, RunsGoOn};

use jc_base::World;
use jc_ops::operations_are_sound;

/// Of a machine of tagged cells, and of one of bare words: a step has one outcome, and with tagged cells there is
/// one wherever a method runs; a run of so many steps has one outcome, and a run of m steps and then of n is a run
/// of m + n, also after an ending.
pub fn runs_are_runs_of_steps(world: &World<'_>)
    ensures tagged_steps { StepsAreOne tagged world.now }
    ensures tagged_exist { StepsExist world.now }
    ensures tagged_runs { RunsAreOne tagged world.now }
    ensures tagged_on { RunsGoOn tagged world.now }
    ensures word_steps { StepsAreOne words world.now }
    ensures word_runs { RunsAreOne words world.now }
    ensures word_on { RunsGoOn words world.now }
{
    operations_are_sound(world);
}

/// With tagged cells there is a run of each number of steps from a state in which a method runs.
pub fn runs_exist(world: &World<'_>)
    ensures { RunsExist world.now }
{
    operations_are_sound(world);
}

/// Where a run ends, no frame is left. The static fields and the objects are those from before the last step, and one object
/// more where this step raised an exception.
pub fn endings_leave(world: &World<'_>)
    ensures tagged { EndingsLeave tagged world.now }
    ensures tagged_runs { RunsLeave tagged world.now }
    ensures words { EndingsLeave words world.now }
    ensures word_runs { RunsLeave words world.now }
{
    let _ = world.classes();
}
