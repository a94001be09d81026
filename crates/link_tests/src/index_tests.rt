ghost use Rattle.std.specs.Prelude.{◌≡◌};

use crate::indexed_package::{with_index, without_index};
use crate::lending::lent;
use crate::reading::read;
use cap_package::Packages;
use cap_tests::{CARD_INDEX, Change, PLAIN, PLAIN_ROLES, changed};
use card_verify::{CardFault, CardKind, CardRoom, accept, verify_indexed};
use jc_base::{Steps, TargetIndex, Ty, World, same_type};
use jc_link::link;
use std::alloc::{AllocError, Global};
use std::marker::Brand;
use std::sync::ledger::{Blank, Ledger};
use std::test::Fail;

/// What the verifier over an index answers: nothing, or the place, the name of the fault and its number.
type Answer = Option<(u16, &'static str, u32)>;

/// An index of `pick`: the file of the component, the size of its info, the answer over it, and for how many of the two
/// methods their index suffices.
type Row = (&'static [u8], u8, Answer, u16);

static ROWS: [Row; 5] = [
    // The targets, 13 and 17.
    (&CARD_INDEX, 10, None, 2),
    // 13 alone.
    (
        &[
            0x80, 0x00, 0x08, 0x00, 0x02, 0x00, 0x00, 0x00, 0x01, 0x00, 0x0D,
        ],
        8,
        Some((11, "NotIndexed", 17)),
        1,
    ),
    // 13, 14 and 17, where 14 is fallen into with a cell on the stack.
    (
        &[
            0x80, 0x00, 0x0C, 0x00, 0x02, 0x00, 0x00, 0x00, 0x03, 0x00, 0x0D, 0x00, 0x0E, 0x00,
            0x11,
        ],
        12,
        Some((14, "StackAtTarget", 0)),
        1,
    ),
    // 13, 12 and 17.
    (
        &[
            0x80, 0x00, 0x0C, 0x00, 0x02, 0x00, 0x00, 0x00, 0x03, 0x00, 0x0D, 0x00, 0x0C, 0x00,
            0x11,
        ],
        12,
        Some((0, "BadIndex", 1)),
        1,
    ),
    // A byte too many: no method has an index.
    (
        &[
            0x80, 0x00, 0x0B, 0x00, 0x02, 0x00, 0x00, 0x00, 0x02, 0x00, 0x0D, 0x00, 0x11, 0x00,
        ],
        11,
        None,
        0,
    ),
];

fn named(fault: CardFault) -> (u16, &'static str, u32) {
    match fault.kind {
        CardKind::NotIndexed(target) => (fault.place, "NotIndexed", u32::from(target)),
        CardKind::BadIndex(entry) => (fault.place, "BadIndex", entry),
        CardKind::StackAtTarget => (fault.place, "StackAtTarget", 0),
        _ => (fault.place, "another", 0),
    }
}

/// The answer for `pick` over an index.
fn answer<L: Ledger>(world: &World<'_>, index: &TargetIndex<'_>, blank: Blank) -> Answer
    requires name { blank.name ≡ L.name }
    requires parts { blank.parts ≡ L.parts }
    requires one { blank.parts ≡ 1 }
{
    if world.method_count() != 2 || world.method(1).code_len == 0 {
        return Some((0, "no method", 0));
    }
    let rec = world.method(1);
    let registers = usize::from(rec.nargs + rec.max_locals);
    let cells = usize::from(rec.max_stack);
    let mut regs = [Ty::Bottom; 255];
    let mut stack = [Ty::Bottom; 255];
    let mut steps = Steps::<L>::none(blank);
    match verify_indexed(
        world,
        1,
        index,
        &mut regs[..registers],
        &mut stack[..cells],
        &mut steps,
    ) {
        Ok(()) if is_raised(&regs[usize::from(rec.nargs)..registers]) => None,
        Ok(()) => Some((0, "no register rose", 0)),
        Err(fault) => Some(named(fault)),
    }
}

/// Whether a register that is no argument has risen. Then the verifier has counted at least two steps for each of the 19
/// instructions of `pick`, 38 in all.
fn is_raised(locals: &[Ty]) -> bool {
    locals.iter().any(|ty| !same_type(*ty, Ty::Bottom))
}

/// For how many methods of the world their index suffices.
fn by_index(world: &World<'_>) -> Option<u16> {
    let mut room = CardRoom::new();
    match accept(world, &mut room) {
        Ok(accepted) => Some(accepted.by_index()),
        Err(_) => None,
    }
}

fn is_same(answer: Answer, want: Answer) -> bool {
    match (answer, want) {
        (None, None) => true,
        (Some(answer), Some(want)) => answer == want,
        _ => false,
    }
}

/// The answer over the index of `pick` is that of the row, and so is the number of methods whose index suffices.
fn holds(world: &World<'_>, row: &Row) -> bool {
    let told = match index_of_pick(world) {
        Some(index) => is_same(answer::<Brand>(world, &index, Blank::new(1)), row.2),
        None => row.3 == 0,
    };
    told && by_index(world) == Some(row.3)
}

fn index_of_pick<'a>(world: &World<'a>) -> Option<TargetIndex<'a>> {
    if world.method_count() != 2 {
        return None;
    }
    world.index(1)
}

/// The packages are linked, and this holds of their world.
fn holds_of(alloc: Global, packages: &Packages<'_, '_>, row: &Row) -> bool {
    match link(alloc, packages, PLAIN_ROLES) {
        Ok(world) => holds(&world, row),
        Err(_) => false,
    }
}

/// Package T after changes is linked, and this holds of its world.
fn linked(alloc: Global, changes: &[Change<'_>], row: &Row) -> Result<bool, AllocError> {
    let plain = [changed(alloc, &PLAIN, changes)?];
    let parts = lent(alloc, &plain)?;
    let packages = read(alloc, &parts)?;
    Ok(holds_of(alloc, &packages, row))
}

fn row_holds(alloc: Global, row: &Row) -> Result<bool, AllocError> {
    linked(alloc, &with_index(row.0, row.1), row)
}

/// The number of the first row that is wrong, and that of the rows where none is.
fn first_wrong(alloc: Global) -> Result<usize, AllocError> {
    for (number, row) in ROWS.iter().enumerate() {
        if !row_holds(alloc, row)? {
            return Ok(number);
        }
    }
    Ok(ROWS.len())
}

#[test]
fn an_index_serves_where_it_lists_the_targets(rt: HostRuntime) -> Result<(), Fail> {
    assert_eq!(rt; first_wrong(rt.alloc())?, 5);
    Ok(())
}

#[test]
fn without_the_component_no_method_has_an_index(rt: HostRuntime) -> Result<(), Fail> {
    assert!(rt; linked(rt.alloc(), &without_index(), &ROWS[4])?);
    Ok(())
}
