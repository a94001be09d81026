ghost use Rattle.std.specs.Prelude.{◌≡◌, IfOk, map};
ghost use Rattle.cap_text.specs.Run.{run_request};
ghost use Rattle.cap_text.specs.Word.{argument_read};
ghost use Rattle.capcheck_core.specs.Defend.{method_entered, RunsOrRefuses};

use crate::carding::Card;
use crate::verdict::Verdict;
use crate::world::LastStep;
use cap_files::Folder;
use cap_package::Packages;
use cap_text::{Entry, OwnedArg, Run, not_started};
use jc_base::World;
use std::alloc::{AllocError, Global};
use vm_defend::{StartEnd, start};
use vm_step::{Args, StartFault};
use vm_text::{room, write_run};

/// The last step of `defend`: it runs an entry of the last package on the machine that tests what it does.
#[derive(Clone, Copy)]
pub(crate) struct DefendStep<'a> {
    pub run: &'a Run<'a>,
}

impl LastStep for DefendStep<'_> {
    ghost use Rattle.cap_text.specs.Run.{run_request};
    ghost use Rattle.capcheck_core.specs.Defend.{DefendsWorld};
    ghost use Rattle.capcheck_core.specs.World.{of_world};

    ghost own = { λ s. of_world (DefendsWorld (run_request s.run.now)) };

    fn take<F: Folder>(
        &self,
        alloc: Global,
        _packages: &Packages<'_, '_>,
        _roles: [u8; 8],
        world: &World<'_>,
        _folder: &mut F,
        _card: &mut Card<'_>,
    ) -> Verdict {
        match defended(alloc, world, self.run) {
            Ok(text) => Verdict::Done(text),
            Err(StartEnd::Fault(fault)) => Verdict::malformed(not_started(alloc, fault)),
            Err(StartEnd::Memory) => Verdict::Memory,
        }
    }
}

/// The text of what comes of a run of an entry of the last package of a world, on the machine that tests what it does; or
/// why it does not begin.
pub(crate) fn defended(alloc: Global, world: &World<'_>, run: &Run<'_>) -> Result<String, StartEnd>
    ensures { RunsOrRefuses world.now (run_request run.now) result }
{
    let Some(number) = method_entered(world, run.entry) else {
        return Err(StartEnd::Fault(StartFault::NoEntry));
    };
    let Ok(args) = lent(alloc, &run.args) else {
        return Err(StartEnd::Memory);
    };
    let mut state = start(alloc, world, number, &args)?;
    let Ok(mut text) = room(alloc, world) else {
        return Err(StartEnd::Memory);
    };
    let ending = vm_defend::run(world, &mut state, u64::from(run.budget));
    write_run(&mut text, world, &state, ending);
    Ok(text.into_text())
}

/// The number of the entry in the world.
pub(crate) fn method_entered(world: &World<'_>, entry: Entry) -> Option<u16>
    ensures { result ≡ method_entered world.now entry }
{
    let last = world.package_count().saturating_sub(1);
    world.method_at(last, entry.class_no, entry.method_no)
}

/// The arguments as a machine takes them.
pub(crate) fn lent(alloc: Global, args: &Vec<OwnedArg>) -> Result<Args<'_>, AllocError>
    ensures { IfOk result (λ lent. lent ≡ map argument_read args.now.items) }
{
    let mut lent = Args::new(alloc);
    'each: for arg in args {
        lent.push(arg.lend())?;
    }
    Ok(lent)
}
