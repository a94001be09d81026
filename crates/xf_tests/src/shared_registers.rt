ghost use Rattle.std.specs.Prelude.{◌≡◌, ◌+◌, ◌<◌, length, IsSomeAnd, slice_get};

use card_verify::verify_method;
use jc_base::{Ty, World};
use jc_tests::{Range, Shape, world};
use std::alloc::{AllocError, Global};
use xf_allot::{Sharing, share_registers};

/// A method that takes an int in registers 0 and 1 and gives one; 2 and 3 are its locals.
struct Case {
    code: &'static [u8],
    ranges: &'static [Range],
    /// The new numbers of the locals, and how many registers there are beyond the arguments; none where all are kept.
    wanted: Option<(u8, u8, u8)>,
}

static CASES: [Case; 8] = [
    // The one is read before the other is written.
    Case {
        code: &[0x03, 0x31, 0x1E, 0x32, 0x20, 0x79],
        ranges: &[],
        wanted: Some((2, 2, 1)),
    },
    // The other is written first.
    Case {
        code: &[0x03, 0x31, 0x03, 0x32, 0x1E, 0x32, 0x20, 0x79],
        ranges: &[],
        wanted: Some((2, 3, 2)),
    },
    // An increment reads what it writes.
    Case {
        code: &[0x03, 0x31, 0x03, 0x32, 0x59, 0x02, 0x01, 0x20, 0x79],
        ranges: &[],
        wanted: Some((2, 3, 2)),
    },
    // Both are read before either is written.
    Case {
        code: &[0x1E, 0x3B, 0x1F, 0x3B, 0x03, 0x31, 0x03, 0x32, 0x20, 0x79],
        ranges: &[],
        wanted: Some((2, 3, 2)),
    },
    // The one is read where a handler begins that covers the place after the other is written.
    Case {
        code: &[
            0x03, 0x31, 0x04, 0x32, 0x20, 0x79, 0x3B, 0x1E, 0x3B, 0x20, 0x79,
        ],
        ranges: &[(2, 5, 6)],
        wanted: Some((2, 3, 2)),
    },
    // The same, where the handler covers the start alone.
    Case {
        code: &[
            0x03, 0x31, 0x04, 0x32, 0x20, 0x79, 0x3B, 0x1E, 0x3B, 0x20, 0x79,
        ],
        ranges: &[(0, 1, 6)],
        wanted: Some((2, 2, 1)),
    },
    // An int has both.
    Case {
        code: &[0x20, 0x35, 0x22, 0x79],
        ranges: &[],
        wanted: Some((2, 3, 2)),
    },
    // Neither is written, so they are of no value's type.
    Case {
        code: &[0x20, 0x79],
        ranges: &[],
        wanted: None,
    },
];

/// What the locals of a world's method are given, if it has a card typing.
fn given(
    alloc: Global,
    world: &World<'_>,
    types: &mut [Ty],
    stack: &mut [Ty],
) -> Result<Option<Option<Sharing>>, AllocError>
    requires code { IsSomeAnd (slice_get world.now.methods 0) (λ m. 0 < m.code_len) }
    requires registers { IsSomeAnd (slice_get world.now.methods 0) (λ m. length types.old ≡ m.nargs + m.max_locals) }
    requires cells { IsSomeAnd (slice_get world.now.methods 0) (λ m. length stack.old ≡ m.max_stack) }
{
    match verify_method(world, 0, types, stack) {
        Ok(()) => Ok(Some(share_registers(alloc, world, 0, types)?)),
        Err(_) => Ok(None),
    }
}

/// Whether a method's locals are given what is wanted.
fn is_wanted(found: Option<Option<Sharing>>, wanted: Option<(u8, u8, u8)>) -> bool {
    match found {
        None => false,
        Some(None) => wanted.is_none(),
        Some(Some(sharing)) => match wanted {
            None => false,
            Some((first, second, locals)) => {
                are_numbers(sharing.numbers.as_slice(), &[0, 1, first, second])
                    && sharing.locals == locals
            }
        },
    }
}

fn are_numbers(numbers: &[u8], wanted: &[u8]) -> bool {
    if numbers.len() != wanted.len() {
        return false;
    }
    for (number, other) in numbers.iter().zip(wanted.iter()) {
        if number != other {
            return false;
        }
    }
    true
}

fn holds(alloc: Global, case: &Case) -> Result<bool, AllocError> {
    let code = case.code;
    let ranges = case.ranges;
    if code.is_empty() || code.len() > 32767 || ranges.len() > 255 {
        return Ok(false);
    }
    let world = world(alloc, Shape::Ints, code, ranges)?;
    of_world(alloc, &world, case.wanted)
}

fn of_world(
    alloc: Global,
    world: &World<'_>,
    wanted: Option<(u8, u8, u8)>,
) -> Result<bool, AllocError>
    requires { IsSomeAnd (slice_get world.now.methods 0) (λ m. 0 < m.code_len) }
{
    let mut types = [Ty::Bottom; 4];
    let mut stack = [Ty::Bottom; 2];
    if world.method_count() == 0 {
        return Ok(false);
    }
    let rec = world.method(0);
    if rec.nargs + rec.max_locals != 4 || rec.max_stack != 2 {
        return Ok(false);
    }
    let found = given(alloc, world, &mut types, &mut stack)?;
    Ok(is_wanted(found, wanted))
}

/// The number of the first case that fails, and past the last where none does.
fn first_wrong(alloc: Global) -> Result<usize, AllocError> {
    for (number, case) in CASES.iter().enumerate() {
        if !holds(alloc, case)? {
            return Ok(number);
        }
    }
    Ok(CASES.len())
}

#[test]
fn what_is_shared(rt: HostRuntime) -> Result<(), AllocError> {
    assert_eq!(rt; first_wrong(rt.alloc())?, 8);
    Ok(())
}
