ghost use Rattle.std.specs.Prelude.{◌<◌, IsSomeAnd, slice_get};

use crate::caught::Range;
use crate::one_method::world;
use crate::shape::Shape;
use jc_base::{Ty, World};
use jc_flow::infer;
use std::alloc::{AllocError, Global};
use std::test::*;
use xf_homes::{HomeEnd, Homes, homes};

const SHORT: Ty = Ty::Short;

/// The class that the two thrown ones extend.
const ABOVE: Ty = Ty::Class(1);

const FIRST: Ty = Ty::Class(2);

const SECOND: Ty = Ty::Class(3);

/// A slot, a type, and the first register of this home; none where it is no home.
type Row = (u16, Ty, Option<u8>);

/// A method, the number of the registers of its homes, and its homes.
type Housed = (Shape, &'static [u8], &'static [Range], u8, &'static [Row]);

static HOUSED: [Housed; 5] = [
    // `sload_0`, `sload_1`, `ifeq` to 7, `sconst_1`, `goto` to 8, `sconst_2`, `sadd`, `sreturn`: the stack is deeper
    // than the operand of the branch, and its cells have homes after those of the arguments
    (
        Shape::Shorts,
        &[28, 29, 96, 5, 4, 112, 3, 5, 65, 120],
        &[],
        4,
        &[
            (0, SHORT, Some(0)),
            (1, SHORT, Some(1)),
            (2, SHORT, Some(2)),
            (3, SHORT, Some(3)),
            (4, SHORT, None),
        ],
    ),
    // `sconst_1`, `sstore_1`, `sload_1`, `pop`, `aload_0`, `astore_1`, `aload_1`, `pop`, `sconst_0`, `sreturn`: a
    // local of two types
    (
        Shape::Object,
        &[4, 48, 29, 59, 24, 44, 25, 59, 3, 120],
        &[],
        3,
        &[
            (0, Ty::Class(0), Some(0)),
            (1, SHORT, Some(1)),
            (1, Ty::Class(0), Some(2)),
            (0, SHORT, None),
            (2, SHORT, None),
        ],
    ),
    // `aload_0`, `astore_2`, `aload_1`, `astore_2`, `aload_2`, `athrow`, and the handler of places 2 to 5 at 6:
    // `pop`, `aload_2`, `areturn`. At place 2 the local is needed as it is there, and then as at the handler.
    (
        Shape::Thrown,
        &[24, 45, 25, 45, 26, 147, 59, 26, 119],
        &[(2, 6, 6)],
        6,
        &[
            (0, FIRST, Some(0)),
            (1, SECOND, Some(1)),
            (2, FIRST, Some(2)),
            (2, ABOVE, Some(3)),
            (2, SECOND, Some(4)),
            (3, ABOVE, Some(5)),
            (2, Ty::Top, None),
        ],
    ),
    // `iconst_0`, `istore_1`, `sconst_1`, `sstore_3`, `iload_1`, `pop2`, `sload_0`, `sreturn`: an int has two registers
    (
        Shape::Wide,
        &[10, 52, 4, 50, 33, 60, 28, 120],
        &[],
        4,
        &[
            (0, SHORT, Some(0)),
            (1, Ty::IntHigh, Some(1)),
            (3, SHORT, Some(3)),
            (2, Ty::IntLow, None),
        ],
    ),
    // `goto` to 4, where a dead `sstore_1` is left out, `sload_0`, `sreturn`
    (
        Shape::Object,
        &[112, 4, 4, 48, 3, 120],
        &[],
        1,
        &[(1, SHORT, None)],
    ),
];

fn is_home(homes: &Homes, (slot, ty, expected): Row) -> bool {
    match homes.register(slot, ty) {
        Some(register) => expected.is_some_and(|first| first == register),
        None => expected.is_none(),
    }
}

fn are_homes(homes: &Homes, count: u8, rows: &[Row]) -> bool {
    homes.count() == count && rows.iter().all(|row| is_home(homes, *row))
}

/// The homes of the one method of a world, if it has a typing.
fn found(alloc: Global, world: &World<'_>) -> Option<Result<Homes, HomeEnd>>
    requires { IsSomeAnd (slice_get world.now.methods 0) (λ m. 0 < m.code_len) }
{
    match infer(alloc, world, 0) {
        Ok(typing) => Some(homes(alloc, world, 0, &typing)),
        Err(_) => None,
    }
}

fn has_homes(alloc: Global, world: &World<'_>, count: u8, rows: &[Row]) -> bool
    requires { IsSomeAnd (slice_get world.now.methods 0) (λ m. 0 < m.code_len) }
{
    match found(alloc, world) {
        Some(Ok(homes)) => are_homes(&homes, count, rows),
        _ => false,
    }
}

fn is_housed(alloc: Global, (shape, code, ranges, count, rows): Housed) -> bool {
    if code.is_empty() || code.len() > 100 || ranges.len() > 10 {
        return false;
    }
    match world(alloc, shape, code, ranges) {
        Ok(world) => has_homes(alloc, &world, count, rows),
        Err(_) => false,
    }
}

fn are_housed(alloc: Global) -> bool {
    for example in HOUSED.iter() {
        if !is_housed(alloc, *example) {
            return false;
        }
    }
    true
}

#[test]
fn which_homes_a_method_has(rt: HostRuntime) {
    assert!(rt; are_housed(rt.alloc()));
}

/// `sload_0`, `sstore x`, `sload x` and `pop` for each of the 254 locals, and then other instructions.
fn stores(alloc: Global, last: &[u8]) -> Result<Vec<u8>, AllocError> {
    let mut code = Vec::new(alloc);
    for x in 1..=254 {
        code.extend_from_slice(&[28, 41, x, 22, x, 59])?;
    }
    code.extend_from_slice(last)?;
    Ok(code)
}

/// Whether so many registers are too many for the one method of a world.
fn has_too_many(alloc: Global, world: &World<'_>, registers: u32) -> bool
    requires { IsSomeAnd (slice_get world.now.methods 0) (λ m. 0 < m.code_len) }
{
    match found(alloc, world) {
        Some(Err(HomeEnd::Registers(count))) => count == registers,
        _ => false,
    }
}

/// Some homes of a method whose 255 registers are all stored.
static FULL: [Row; 3] = [
    (0, SHORT, Some(0)),
    (1, SHORT, Some(1)),
    (254, SHORT, Some(254)),
];

/// Whether a method of this code has 255 homes.
fn is_full(alloc: Global, code: &[u8]) -> bool {
    if code.is_empty() || code.len() > 2000 {
        return false;
    }
    match world(alloc, Shape::Wide, code, &[]) {
        Ok(world) => has_homes(alloc, &world, 255, &FULL),
        Err(_) => false,
    }
}

/// Whether a method of this code has 256.
fn is_past_full(alloc: Global, code: &[u8]) -> bool {
    if code.is_empty() || code.len() > 2000 {
        return false;
    }
    match world(alloc, Shape::Wide, code, &[]) {
        Ok(world) => has_too_many(alloc, &world, 256),
        Err(_) => false,
    }
}

/// Whether a method that stores all registers has as many homes.
fn fills_registers(alloc: Global) -> Result<bool, AllocError> {
    let code = stores(alloc, &[28, 120])?;
    Ok(is_full(alloc, code.as_slice()))
}

/// Whether it has one too many where one of them has another type too.
fn passes_registers(alloc: Global) -> Result<bool, AllocError> {
    let code = stores(alloc, &[1, 44, 25, 59, 28, 120])?;
    Ok(is_past_full(alloc, code.as_slice()))
}

#[test]
fn homes_take_255_registers_at_most(rt: HostRuntime) -> Result<(), AllocError> {
    assert!(rt; fills_registers(rt.alloc())? && passes_registers(rt.alloc())?);
    Ok(())
}
