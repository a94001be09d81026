ghost use Rattle.std.specs.Prelude.{◌<◌, IsSomeAnd, slice_get};

use jc_base::World;
use jc_decode::{Item, Symbols};
use jc_flow::infer;
use jc_tests::{Range, Shape, world};
use std::alloc::{AllocError, Global};
use std::test::*;
use xf_code::rewrite;
use xf_homes::homes;

/// An instruction by its opcode and its first operand, a branch by its opcode and its label, a switch by its opcode and
/// the label of its last case, or a label by 255 and its number.
type Row = (u8, i32);

const LABEL: u8 = 255;

/// The room on the stack of each rewritten method: one cell more than the methods have.
const ROOM: u8 = 3;

/// The items of a rewritten method, the labels of its ranges, and its registers after the arguments.
#[derive(Clone, Copy)]
struct Expected {
    items: &'static [Row],
    ranges: &'static [(u16, u16, u16)],
    max_locals: u8,
}

fn is_row(item: &Item, row: Row) -> bool {
    match item {
        Item::Plain(insn) => insn.op == row.0 && insn.x == row.1,
        Item::Branch { op, label } => *op == row.0 && i32::from(*label) == row.1,
        Item::Switch { insn, labels, .. } => match labels.as_slice().last() {
            Some(label) => insn.op == row.0 && i32::from(*label) == row.1,
            None => false,
        },
        Item::Label(label) => row.0 == LABEL && i32::from(*label) == row.1,
    }
}

fn are_rows(items: &[Item], rows: &[Row]) -> bool {
    items.len() == rows.len()
        && items
            .iter()
            .zip(rows.iter())
            .all(|(item, row)| is_row(item, *row))
}

fn are_ranges(symbols: &Symbols, expected: &[(u16, u16, u16)]) -> bool {
    let ranges = symbols.ranges.as_slice();
    ranges.len() == expected.len()
        && ranges.iter().zip(expected.iter()).all(|(range, labels)| {
            range.from == labels.0 && range.to == labels.1 && range.entry == labels.2
        })
}

fn is_expected(symbols: &Symbols, expected: Expected) -> bool {
    are_rows(symbols.items.as_slice(), expected.items)
        && are_ranges(symbols, expected.ranges)
        && symbols.max_stack == ROOM
        && symbols.max_locals == expected.max_locals
}

/// Whether the only method of the world is rewritten so.
fn rewrites(alloc: Global, world: &World<'_>, expected: Expected) -> bool
    requires { IsSomeAnd (slice_get world.now.methods 0) (λ m. 0 < m.code_len) }
{
    let Ok(typing) = infer(alloc, world, 0) else {
        return false;
    };
    let Ok(homes) = homes(alloc, world, 0, &typing) else {
        return false;
    };
    match rewrite(alloc, world, 0, &typing, &homes) {
        Ok(symbols) => is_expected(&symbols, expected),
        Err(_) => false,
    }
}

/// `sload_0`, `sload_1`, `ifeq` to 7 over a short, `sconst_1`, `goto` 8; at 7 `sconst_2`; at 8 `sadd`, `sreturn`.
static PICK: [u8; 10] = [0x1C, 0x1D, 0x60, 0x05, 0x04, 0x70, 0x03, 0x05, 0x41, 0x78];

static PICKED: [Row; 28] = [
    (LABEL, 0),
    (22, 0),
    (LABEL, 1),
    (22, 1),
    (LABEL, 2),
    (41, 3),
    (41, 2),
    (22, 3),
    (152, 7),
    (22, 2),
    (LABEL, 4),
    (4, 0),
    (LABEL, 5),
    (41, 3),
    (41, 2),
    (168, 8),
    (LABEL, 7),
    (22, 2),
    (5, 0),
    (41, 3),
    (41, 2),
    (LABEL, 8),
    (22, 2),
    (22, 3),
    (65, 0),
    (LABEL, 9),
    (120, 0),
    (LABEL, 10),
];

fn pick(alloc: Global) -> Result<bool, AllocError> {
    let world = world(alloc, Shape::Shorts, &PICK, &[])?;
    let expected = Expected {
        items: &PICKED,
        ranges: &[],
        max_locals: 2,
    };
    Ok(rewrites(alloc, &world, expected))
}

#[test]
fn a_stack_is_kept_over_a_branch(rt: HostRuntime) -> Result<(), AllocError> {
    assert!(rt; pick(rt.alloc())?);
    Ok(())
}

/// A register with a short and then an object: `sconst_1`, `sstore_1`, `sload_1`, `pop`, `aload_0`, `astore_1`,
/// `aload_1`, `pop`, `sconst_0`, `sreturn`.
static TWO_TYPES: [u8; 10] = [0x04, 0x30, 0x1D, 0x3B, 0x18, 0x2C, 0x19, 0x3B, 0x03, 0x78];

static PARTED: [Row; 21] = [
    (LABEL, 0),
    (4, 0),
    (LABEL, 1),
    (41, 1),
    (LABEL, 2),
    (22, 1),
    (LABEL, 3),
    (59, 0),
    (LABEL, 4),
    (21, 0),
    (LABEL, 5),
    (40, 2),
    (LABEL, 6),
    (21, 2),
    (LABEL, 7),
    (59, 0),
    (LABEL, 8),
    (3, 0),
    (LABEL, 9),
    (120, 0),
    (LABEL, 10),
];

fn two_types(alloc: Global) -> Result<bool, AllocError> {
    let world = world(alloc, Shape::Object, &TWO_TYPES, &[])?;
    let expected = Expected {
        items: &PARTED,
        ranges: &[],
        max_locals: 2,
    };
    Ok(rewrites(alloc, &world, expected))
}

#[test]
fn each_type_has_a_register(rt: HostRuntime) -> Result<(), AllocError> {
    assert!(rt; two_types(rt.alloc())?);
    Ok(())
}

/// The code of a method that takes an object of each of the two classes that are thrown, its handlers, and what it
/// becomes.
type Caught = (&'static [u8], &'static [Range], Expected);

static CAUGHT: [Caught; 5] = [
    // `aload_0`, `ifnull` to 5, `aload_0`, `astore_2`; at 5 `aload_0`, `areturn`. Where both ways meet the register may hold
    // anything, so what is stored is not needed and is popped.
    (
        &[0x18, 0x66, 0x04, 0x18, 0x2D, 0x18, 0x77],
        &[],
        Expected {
            items: &[
                (LABEL, 0),
                (21, 0),
                (LABEL, 1),
                (158, 5),
                (LABEL, 3),
                (21, 0),
                (LABEL, 4),
                (59, 0),
                (LABEL, 5),
                (21, 0),
                (LABEL, 6),
                (119, 0),
                (LABEL, 7),
            ],
            ranges: &[],
            max_locals: 0,
        },
    ),
    // `aload_0`, `astore_2`, `aload_1`, `ifnull` to 8, `aload_1`, `astore_2`, `nop`; at 8 `aload_2`, `areturn`. The register
    // has a wider type where both ways meet: it is copied in a stub on the branch, and before the leader is fallen into.
    (
        &[0x18, 0x2D, 0x19, 0x66, 0x05, 0x19, 0x2D, 0x00, 0x1A, 0x77],
        &[],
        Expected {
            items: &[
                (LABEL, 0),
                (21, 0),
                (LABEL, 1),
                (40, 2),
                (LABEL, 2),
                (21, 1),
                (LABEL, 3),
                (158, 32769),
                (LABEL, 5),
                (21, 1),
                (LABEL, 6),
                (40, 3),
                (LABEL, 7),
                (0, 0),
                (21, 3),
                (40, 4),
                (LABEL, 8),
                (21, 4),
                (LABEL, 9),
                (119, 0),
                (LABEL, 10),
                (LABEL, 32769),
                (21, 2),
                (40, 4),
                (168, 8),
            ],
            ranges: &[],
            max_locals: 3,
        },
    ),
    // `aload_0`, `astore_2`, `aload_1`, `astore_2`, `aload_2`, `athrow`, and the handler of places 2 to 5 at 6: `pop`,
    // `aload_2`, `areturn`. What is stored has to stand in the home that the handler asks for too.
    (
        &[0x18, 0x2D, 0x19, 0x2D, 0x1A, 0x93, 0x3B, 0x1A, 0x77],
        &[(2, 6, 6)],
        Expected {
            items: &[
                (LABEL, 0),
                (21, 0),
                (LABEL, 1),
                (40, 2),
                (21, 2),
                (40, 3),
                (LABEL, 2),
                (21, 1),
                (LABEL, 3),
                (40, 4),
                (21, 4),
                (40, 3),
                (LABEL, 4),
                (21, 4),
                (LABEL, 5),
                (147, 0),
                (LABEL, 6),
                (21, 5),
                (59, 0),
                (LABEL, 7),
                (21, 3),
                (LABEL, 8),
                (119, 0),
                (LABEL, 9),
                (LABEL, 49152),
                (40, 5),
                (168, 6),
            ],
            ranges: &[(2, 6, 49152)],
            max_locals: 4,
        },
    ),
    // `aload_0`, `areturn`, and after it dead code with a handler: both are left out
    (
        &[0x18, 0x77, 0x19, 0x77, 0x77],
        &[(2, 4, 4)],
        Expected {
            items: &[(LABEL, 0), (21, 0), (LABEL, 1), (119, 0), (LABEL, 5)],
            ranges: &[],
            max_locals: 0,
        },
    ),
    // `aload_0`, `athrow`, `areturn`: a handler of the second place, and after it one of both; each keeps its place
    (
        &[0x18, 0x93, 0x77],
        &[(1, 2, 2), (0, 2, 2)],
        Expected {
            items: &[
                (LABEL, 0),
                (21, 0),
                (LABEL, 1),
                (147, 0),
                (LABEL, 2),
                (21, 2),
                (119, 0),
                (LABEL, 3),
                (LABEL, 49152),
                (40, 2),
                (168, 2),
                (LABEL, 49153),
                (40, 2),
                (168, 2),
            ],
            ranges: &[(1, 2, 49152), (0, 2, 49153)],
            max_locals: 1,
        },
    ),
];

fn catches(alloc: Global, row: Caught) -> Result<bool, AllocError> {
    if row.0.is_empty() || row.0.len() > 32767 || row.1.len() > 255 {
        return Ok(false);
    }
    let world = world(alloc, Shape::Thrown, row.0, row.1)?;
    Ok(rewrites(alloc, &world, row.2))
}

/// The number of the first row that is wrong, or 99.
fn first_wrong(alloc: Global) -> Result<usize, AllocError> {
    for (n, row) in CAUGHT.iter().enumerate() {
        match catches(alloc, *row) {
            Ok(true) => {}
            Ok(false) => return Ok(n),
            Err(error) => return Err(error),
        }
    }
    Ok(99)
}

#[test]
fn handlers_and_ways_that_meet_are_served(rt: HostRuntime) -> Result<(), AllocError> {
    assert_eq!(rt; first_wrong(rt.alloc())?, 99);
    Ok(())
}

/// `sload_0`, `sload_1`, a `stableswitch` from 0 to 0 over a short, its default at 11 and its case at 12; there `sreturn`
/// each.
static CHOICE: [u8; 13] = [
    0x1C, 0x1D, 0x73, 0x00, 0x09, 0x00, 0x00, 0x00, 0x00, 0x00, 0x0A, 0x78, 0x78,
];

static CHOSEN: [Row; 16] = [
    (LABEL, 0),
    (22, 0),
    (LABEL, 1),
    (22, 1),
    (LABEL, 2),
    (41, 3),
    (41, 2),
    (22, 3),
    (115, 12),
    (LABEL, 11),
    (22, 2),
    (120, 0),
    (LABEL, 12),
    (22, 2),
    (120, 0),
    (LABEL, 13),
];

fn choice(alloc: Global) -> Result<bool, AllocError> {
    let world = world(alloc, Shape::Shorts, &CHOICE, &[])?;
    let expected = Expected {
        items: &CHOSEN,
        ranges: &[],
        max_locals: 2,
    };
    Ok(rewrites(alloc, &world, expected))
}

#[test]
fn a_stack_is_kept_over_a_switch(rt: HostRuntime) -> Result<(), AllocError> {
    assert!(rt; choice(rt.alloc())?);
    Ok(())
}

/// A register with an object and then a short that is increased: `aload_0`, `astore_1`, `sconst_0`, `sstore_1`, `sinc` 1
/// by 2, `sload_1`, `sreturn`.
static INCREASED: [u8; 9] = [0x18, 0x2C, 0x03, 0x30, 0x59, 0x01, 0x02, 0x1D, 0x78];

static RENAMED: [Row; 15] = [
    (LABEL, 0),
    (21, 0),
    (LABEL, 1),
    (40, 1),
    (LABEL, 2),
    (3, 0),
    (LABEL, 3),
    (41, 2),
    (LABEL, 4),
    (89, 2),
    (LABEL, 7),
    (22, 2),
    (LABEL, 8),
    (120, 0),
    (LABEL, 9),
];

fn increased(alloc: Global) -> Result<bool, AllocError> {
    let world = world(alloc, Shape::Object, &INCREASED, &[])?;
    let expected = Expected {
        items: &RENAMED,
        ranges: &[],
        max_locals: 2,
    };
    Ok(rewrites(alloc, &world, expected))
}

#[test]
fn an_increment_names_the_home(rt: HostRuntime) -> Result<(), AllocError> {
    assert!(rt; increased(rt.alloc())?);
    Ok(())
}

/// `iload_0`, `istore_2`, `iload_2`, `ireturn`.
static INTS: [u8; 4] = [0x20, 0x35, 0x22, 0x79];

static TWO_REGISTERS: [Row; 9] = [
    (LABEL, 0),
    (23, 0),
    (LABEL, 1),
    (42, 2),
    (LABEL, 2),
    (23, 2),
    (LABEL, 3),
    (121, 0),
    (LABEL, 4),
];

fn ints(alloc: Global) -> Result<bool, AllocError> {
    let world = world(alloc, Shape::Ints, &INTS, &[])?;
    let expected = Expected {
        items: &TWO_REGISTERS,
        ranges: &[],
        max_locals: 2,
    };
    Ok(rewrites(alloc, &world, expected))
}

#[test]
fn an_int_takes_two_registers(rt: HostRuntime) -> Result<(), AllocError> {
    assert!(rt; ints(rt.alloc())?);
    Ok(())
}
