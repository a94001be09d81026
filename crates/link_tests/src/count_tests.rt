ghost use Rattle.std.specs.Prelude.{◌≡◌, [], ◌∷◌};

use crate::counting::{takes_40_to_1431, takes_three_passes};
use crate::indexed_package::with_index;
use crate::lending::lent;
use crate::reading::read;
use cap_package::Packages;
use cap_tests::{CARD_INDEX, PLAIN, PLAIN_ROLES, changed};
use jc_base::{Steps, TargetIndex, Ty, World};
use jc_link::link;
use jc_tests::{Shape, world};
use std::alloc::{AllocError, Global};
use std::marker::Brand;
use std::sync::ledger::{Blank, Ledger};
use std::test::Fail;

/// Whether `pick` is verified over this index in 40 to 1,431 steps.
fn is_counted<L: Ledger>(world: &World<'_>, index: &TargetIndex<'_>, blank: Blank) -> bool
    requires name { blank.name ≡ L.name }
    requires parts { blank.parts ≡ L.parts }
    requires one { blank.parts ≡ 1 }
{
    if world.method_count() != 2 || world.method(1).code_len == 0 {
        return false;
    }
    let rec = world.method(1);
    let registers = usize::from(rec.nargs + rec.max_locals);
    let cells = usize::from(rec.max_stack);
    let mut regs = [Ty::Bottom; 255];
    let mut stack = [Ty::Bottom; 255];
    let mut steps = Steps::<L>::none(blank);
    takes_40_to_1431(
        world,
        1,
        index,
        &mut regs[..registers],
        &mut stack[..cells],
        &mut steps,
    )
}

/// The same over the index that `pick` has.
fn is_pick_counted(world: &World<'_>) -> bool {
    if world.method_count() != 2 {
        return false;
    }
    match world.index(1) {
        Some(index) => is_counted::<Brand>(world, &index, Blank::new(1)),
        None => false,
    }
}

/// The same in the world that the packages make.
fn is_counted_in(alloc: Global, packages: &Packages<'_, '_>) -> bool {
    match link(alloc, packages, PLAIN_ROLES) {
        Ok(world) => is_pick_counted(&world),
        Err(_) => false,
    }
}

/// The same in package T as it is transformed, with its index.
fn is_counted_in_t(alloc: Global) -> Result<bool, AllocError> {
    let plain = [changed(alloc, &PLAIN, &with_index(&CARD_INDEX, 10))?];
    let parts = lent(alloc, &plain)?;
    let packages = read(alloc, &parts)?;
    Ok(is_counted_in(alloc, &packages))
}

#[test]
fn pick_takes_40_to_1431_steps(rt: HostRuntime) -> Result<(), Fail> {
    assert!(rt; is_counted_in_t(rt.alloc())?);
    Ok(())
}

/// `aload_2`, `astore_1`, `aload_0`, `astore_2`, `goto` to the first. In the first pass the local gets the type of the one
/// argument, in the second the other argument gets what is above both, and in the third no register rises.
const THREE_PASSES: &[u8] = &[26, 44, 24, 45, 112, 252];

/// The place 0 alone.
const LOOP: &[u8] = &[0, 0];

/// Whether the only method of a world is verified in three passes at the least.
fn is_counted_thrice<L: Ledger>(world: &World<'_>, index: &TargetIndex<'_>, blank: Blank) -> bool
    requires name { blank.name ≡ L.name }
    requires parts { blank.parts ≡ L.parts }
    requires one { blank.parts ≡ 1 }
    requires alone { index.now ≡ 0 ∷ [] }
{
    if world.method_count() != 1 || world.method(0).code_len == 0 {
        return false;
    }
    let rec = world.method(0);
    let registers = usize::from(rec.nargs + rec.max_locals);
    let cells = usize::from(rec.max_stack);
    let mut first = [Ty::Bottom; 255];
    let mut regs = [Ty::Bottom; 255];
    let mut stack = [Ty::Bottom; 255];
    let mut steps = Steps::<L>::none(blank);
    takes_three_passes(
        world,
        0,
        index,
        &mut first[..registers],
        &mut regs[..registers],
        &mut stack[..cells],
        &mut steps,
    )
}

/// The same over the index of the loop's first place.
fn is_loop_counted(world: &World<'_>) -> bool {
    is_counted_thrice::<Brand>(world, &TargetIndex::of(LOOP), Blank::new(1))
}

fn is_loop_counted_in(alloc: Global) -> Result<bool, AllocError> {
    let world = world(alloc, Shape::Thrown, THREE_PASSES, &[])?;
    Ok(is_loop_counted(&world))
}

#[test]
fn three_passes_take_a_step_at_each_visit(rt: HostRuntime) -> Result<(), Fail> {
    assert!(rt; is_loop_counted_in(rt.alloc())?);
    Ok(())
}
