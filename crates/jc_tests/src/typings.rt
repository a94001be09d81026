ghost use Rattle.std.specs.Prelude.{◌<◌, IsSomeAnd, slice_get};

use crate::caught::Range;
use crate::one_method::world;
use crate::shape::Shape;
use jc_base::{Ty, World};
use jc_flow::{FlowEnd, infer};
use jc_ops::RuleFault;
use jc_rules::Typing;
use std::alloc::Global;
use std::test::*;

const SHORT: Ty = Ty::Short;

const TOP: Ty = Ty::Top;

/// The class that the other two extend.
const ABOVE: Ty = Ty::Class(1);

const FIRST: Ty = Ty::Class(2);

const SECOND: Ty = Ty::Class(3);

/// A place; the third register there, and the stack with its top last, where control reaches it.
type Expected = (u16, Option<(Ty, &'static [Ty])>);

/// The code of a method and its handlers, and its typing at some places.
type Typed = (&'static [u8], &'static [Range], &'static [Expected]);

static TYPED: [Typed; 3] = [
    // `aload_0`, `astore_2`, then a loop that stores the second argument: `aload_2`, `ifnull` to 9, `aload_1`,
    // `astore_2`, `goto` 2; at 9 `aload_2`, `areturn`. The two classes join to the one that both extend.
    (
        &[24, 45, 26, 102, 6, 25, 45, 112, 251, 26, 119],
        &[],
        &[
            (0, Some((TOP, &[]))),
            (1, Some((TOP, &[FIRST]))),
            (2, Some((ABOVE, &[]))),
            (4, None),
            (7, Some((SECOND, &[]))),
            (10, Some((ABOVE, &[ABOVE]))),
            (11, None),
        ],
    ),
    // `aload_0`, `astore_2`, `aload_1`, `astore_2`, `aload_2`, `athrow`, and the handler of places 2 to 5 at 6:
    // `pop`, `aload_2`, `areturn`.
    (
        &[24, 45, 25, 45, 26, 147, 59, 26, 119],
        &[(2, 6, 6)],
        &[
            (2, Some((FIRST, &[]))),
            (5, Some((SECOND, &[SECOND]))),
            (6, Some((ABOVE, &[ABOVE]))),
            (7, Some((ABOVE, &[]))),
        ],
    ),
    // `sconst_1`, `sstore_2`, `sload_2`, `pop`, `aload_0`, `astore_2`, `aload_2`, `pop`, `aload_0`, `areturn`: a
    // register has a short first and then an object.
    (
        &[4, 49, 30, 59, 24, 45, 26, 59, 24, 119],
        &[],
        &[
            (1, Some((TOP, &[SHORT]))),
            (3, Some((SHORT, &[SHORT]))),
            (6, Some((FIRST, &[]))),
        ],
    ),
];

/// The code of a method without handlers, and why it has no typing.
type Untyped = (&'static [u8], FlowEnd);

static UNTYPED: [Untyped; 5] = [
    // `aload_2`, `ifnull` to 5, `aload_2`, `athrow`; at 5 `aload_0`, `astore_2`, `goto` 0: the register is unset
    // at first
    (
        &[26, 102, 4, 26, 147, 24, 45, 112, 249],
        FlowEnd::NoTyping(
            0,
            RuleFault::Mismatch {
                found: TOP,
                wanted: Ty::Class(0),
            },
        ),
    ),
    // `new`, `sconst_0`, `ifeq` to 6, `pop`, `aload_0`, `areturn`
    (
        &[143, 0, 0, 3, 96, 2, 59, 24, 119],
        FlowEnd::NoTyping(4, RuleFault::FreshKept),
    ),
    // `aload_0`, `ifnull` to 4, `aload_0`; at 4 `aload_0`, `areturn`
    (
        &[24, 102, 3, 24, 24, 119],
        FlowEnd::NoTyping(3, RuleFault::StackMerge),
    ),
    // `aload_0`, `pop`
    (&[24, 59], FlowEnd::FallsOff(1)),
    // `goto` into its own operand
    (&[112, 1], FlowEnd::BadTarget(0, 1)),
];

/// Whether two types that occur here are the same.
fn is_same(a: Ty, b: Ty) -> bool {
    match a {
        Ty::Class(c) => matches!(b, Ty::Class(other) if c == other),
        Ty::Short => matches!(b, Ty::Short),
        Ty::Top => matches!(b, Ty::Top),
        _ => false,
    }
}

/// Whether two faults that occur here are the same.
fn is_same_fault(a: RuleFault, b: RuleFault) -> bool {
    match a {
        RuleFault::Mismatch { found, wanted } => matches!(
            b,
            RuleFault::Mismatch { found: other, wanted: asked } if is_same(found, other) && is_same(wanted, asked)
        ),
        RuleFault::FreshKept => matches!(b, RuleFault::FreshKept),
        RuleFault::StackMerge => matches!(b, RuleFault::StackMerge),
        _ => false,
    }
}

/// Whether the typing has the third register and the stack that are expected at a place.
fn is_state(typing: &Typing, (place, expected): Expected) -> bool {
    match typing.state(place) {
        Some(state) => match expected {
            Some((third, stack)) => {
                state.regs().get(2).is_some_and(|ty| is_same(*ty, third))
                    && state.stack().len() == stack.len()
                    && state
                        .stack()
                        .iter()
                        .zip(stack)
                        .all(|(ty, other)| is_same(*ty, *other))
            }
            None => false,
        },
        None => expected.is_none() && !typing.reached(place),
    }
}

/// Whether the method of a world has these states.
fn has_typing(alloc: Global, world: &World<'_>, states: &[Expected]) -> bool
    requires { IsSomeAnd (slice_get world.now.methods 0) (λ m. 0 < m.code_len) }
{
    match infer(alloc, world, 0) {
        Ok(typing) => states.iter().all(|expected| is_state(&typing, *expected)),
        Err(_) => false,
    }
}

fn is_typed(alloc: Global, (code, ranges, states): Typed) -> bool {
    if code.is_empty() || code.len() > 100 || ranges.len() > 10 {
        return false;
    }
    match world(alloc, Shape::Thrown, code, ranges) {
        Ok(world) => has_typing(alloc, &world, states),
        Err(_) => false,
    }
}

/// Whether two ends that occur here are the same.
fn is_same_end(end: FlowEnd, expected: FlowEnd) -> bool {
    match expected {
        FlowEnd::NoTyping(place, fault) => {
            matches!(end, FlowEnd::NoTyping(at, why) if at == place && is_same_fault(why, fault))
        }
        FlowEnd::BadTarget(place, target) => {
            matches!(end, FlowEnd::BadTarget(at, to) if at == place && to == target)
        }
        FlowEnd::FallsOff(place) => matches!(end, FlowEnd::FallsOff(at) if at == place),
        _ => false,
    }
}

/// Whether the method of a world has no typing, for this reason.
fn ends(alloc: Global, world: &World<'_>, expected: FlowEnd) -> bool
    requires { IsSomeAnd (slice_get world.now.methods 0) (λ m. 0 < m.code_len) }
{
    match infer(alloc, world, 0) {
        Ok(_) => false,
        Err(end) => is_same_end(end, expected),
    }
}

fn is_untyped(alloc: Global, (code, expected): Untyped) -> bool {
    if code.is_empty() || code.len() > 100 {
        return false;
    }
    match world(alloc, Shape::Thrown, code, &[]) {
        Ok(world) => ends(alloc, &world, expected),
        Err(_) => false,
    }
}

/// Whether each example is inferred as expected.
fn are_inferred(alloc: Global) -> bool {
    for example in TYPED.iter() {
        if !is_typed(alloc, *example) {
            return false;
        }
    }
    for example in UNTYPED.iter() {
        if !is_untyped(alloc, *example) {
            return false;
        }
    }
    true
}

#[test]
fn what_is_inferred(rt: HostRuntime) {
    assert!(rt; are_inferred(rt.alloc()));
}
