ghost use Rattle.vm_offend.specs.Sized.{AreSized};
ghost use Rattle.vm_offend.specs.Held.{IsRunOf};

use crate::chained_package::{CHAINED, CHAINED_ROLES};
use crate::run_tests::memory;
use cap_package::{OwnedParts, Packages, package};
use cap_tests::changed;
use card_verify::{Accepted, CardRoom, accept};
use jc_base::World;
use jc_link::link;
use std::alloc::{AllocError, Global};
use vm_bound::{Bound, bound};
use vm_offend::{Machine, sizes, start};
use vm_step::{Arg, Args, Plain};

/// A run: its entry, its two arguments, the most words that its live frames take, and those of the deepest chain of calls
/// of its entry, both counted by hand.
type Run = (u16, [i32; 2], u32, u32);

/// Each frame has three words of its own and two argument words. Then there are 1, 2, 2, 3 and 2 cells of the operand
/// stack, and two locals in the third method and one in the last: 6, 7, 9, 8 and 8 words.
static RUNS: [Run; 20] = [
    (0, [0, 0], 6, 6),
    (0, [0, 1], 6, 6),
    (0, [1, 0], 6, 6),
    (0, [1, 1], 6, 6),
    (1, [0, 0], 13, 13),
    (1, [0, 1], 13, 13),
    (1, [1, 0], 13, 13),
    (1, [1, 1], 13, 13),
    (2, [0, 0], 15, 22),
    (2, [0, 1], 22, 22),
    (2, [1, 0], 15, 22),
    (2, [1, 1], 22, 22),
    (3, [0, 0], 23, 30),
    (3, [0, 1], 30, 30),
    (3, [1, 0], 23, 30),
    (3, [1, 1], 30, 30),
    (4, [0, 0], 23, 38),
    (4, [0, 1], 30, 38),
    (4, [1, 0], 31, 38),
    (4, [1, 1], 38, 38),
];

/// The most words that the live frames take before and after each step of a run; none where it goes on after 100 steps.
fn most_words(
    accepted: &Accepted<'_>,
    machine: Machine,
    ram: &mut [u16],
    heap: &mut [u16],
    statics: &mut [u16],
) -> Option<u32>
    requires { IsRunOf accepted.now machine ram.old heap.old statics.old }
{
    let mut machine = machine;
    let mut most = machine.live_words(accepted, ram);
    'steps: for _ in 0..100 {
        if !matches!(machine.run(accepted, ram, heap, statics, 1), Plain::Spent) {
            return Some(most);
        }
        most = most.max(machine.live_words(accepted, ram));
    }
    None
}

/// The same of a run, in memory that is lent.
fn most_words_in(
    accepted: &Accepted<'_>,
    entry: u16,
    args: &Args<'_>,
    ram: &mut [u16],
    heap: &mut [u16],
    statics: &mut [u16],
) -> Option<u32>
    requires { AreSized accepted.now ram.old heap.old statics.old }
{
    match start(accepted, entry, args, ram, heap, statics) {
        Err(_) => None,
        Ok(machine) => most_words(accepted, machine, ram, heap, statics),
    }
}

/// The most words that the live frames of a run take.
fn words_of(alloc: Global, accepted: &Accepted<'_>, run: &Run) -> Result<Option<u32>, AllocError> {
    let sizes = sizes(accepted.world());
    let mut ram = memory(alloc, sizes.ram)?;
    let mut heap = memory(alloc, sizes.heap)?;
    let mut statics = memory(alloc, sizes.statics)?;
    let mut args = Args::new(alloc);
    args.push(Arg::Number(run.1[0]))?;
    args.push(Arg::Number(run.1[1]))?;
    Ok(most_words_in(
        accepted,
        run.0,
        &args,
        ram.as_mut_slice(),
        heap.as_mut_slice(),
        statics.as_mut_slice(),
    ))
}

/// The words of the bound of an entry; none of a cycle.
fn bound_of(alloc: Global, accepted: &Accepted<'_>, entry: u16) -> Option<u32> {
    match bound(alloc, accepted, entry) {
        Ok(Bound::Words { words, .. }) => Some(words),
        _ => None,
    }
}

/// Whether a run takes as many words as is told, and `bound` says as many for its entry, which are no fewer.
fn is_as_told(alloc: Global, accepted: &Accepted<'_>, run: &Run) -> Result<bool, AllocError> {
    let bound = bound_of(alloc, accepted, run.0);
    let seen = words_of(alloc, accepted, run)?;
    Ok(bound == Some(run.3) && seen == Some(run.2) && run.2 <= run.3)
}

/// The number of the first run that is not as it is told, or the number of all.
fn first_wrong(alloc: Global, accepted: &Accepted<'_>) -> Result<usize, AllocError> {
    for (n, run) in RUNS.iter().enumerate() {
        if !is_as_told(alloc, accepted, run)? {
            return Ok(n);
        }
    }
    Ok(RUNS.len())
}

/// The same in a world; none where it has no card typing.
fn first_wrong_in(alloc: Global, world: &World<'_>) -> Result<Option<usize>, AllocError> {
    let mut room = CardRoom::new();
    match accept(world, &mut room) {
        Err(_) => Ok(None),
        Ok(accepted) => Ok(Some(first_wrong(alloc, &accepted)?)),
    }
}

/// The same in the world of these packages.
fn first_wrong_of(alloc: Global, packages: &Packages<'_, '_>) -> Result<Option<usize>, AllocError> {
    match link(alloc, packages, CHAINED_ROLES) {
        Err(_) => Ok(None),
        Ok(world) => first_wrong_in(alloc, &world),
    }
}

/// The same of a package of these parts.
fn first_wrong_over(alloc: Global, owned: &OwnedParts) -> Result<Option<usize>, AllocError> {
    let parts = owned.lend(alloc)?;
    let mut packages = Packages::new(alloc);
    if let Ok(package) = package(&parts) {
        packages.push(package)?;
    }
    first_wrong_of(alloc, &packages)
}

#[test]
fn live_words_come_up_to_the_bound_and_never_above_it(rt: HostRuntime) -> Result<(), AllocError> {
    let owned = changed(rt.alloc(), &CHAINED, &[])?;
    assert_eq!(rt; first_wrong_over(rt.alloc(), &owned)?, Some(RUNS.len()));
    Ok(())
}
