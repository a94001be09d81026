ghost use Rattle.std.specs.Prelude.{◌<◌, IsSomeAnd, slice_get};

use crate::caught::{Range, handler};
use crate::one_method::world;
use crate::shape::Shape;
use jc_base::World;
use jc_control::{ControlEnd, Flaw, control_flow};
use jc_decode::CodeEnd;
use std::alloc::Global;
use std::test::*;

/// The code of a method and its handlers; the places that control reaches, and the leaders among them.
type Controlled = (
    &'static [u8],
    &'static [Range],
    &'static [u16],
    &'static [u16],
);

static CONTROLLED: [Controlled; 5] = [
    // `sconst_0`, `sreturn`
    (&[3, 120], &[], &[0, 1], &[]),
    // `sconst_0` alone: control falls past the end
    (&[3], &[], &[0, 1], &[]),
    // `sconst_0`, `ifeq` to 4, `return`, `goto` to 3; place 6 is dead
    (&[3, 96, 3, 122, 112, 255, 122], &[], &[0, 1, 3, 4], &[3, 4]),
    // `sconst_0`, a `slookupswitch` of one pair with its default at 12 and its case at 11, three `return`
    (
        &[3, 117, 0, 11, 0, 1, 0, 7, 0, 10, 122, 122, 122],
        &[],
        &[0, 1, 11, 12],
        &[11, 12],
    ),
    // `goto` to 4, two dead `nop`, `return`, and handlers: at 5 one of dead code, at 6 one of place 4, at 7 one of place 6
    (
        &[112, 4, 0, 0, 122, 59, 59, 122],
        &[(2, 4, 5), (4, 5, 6), (6, 7, 7)],
        &[0, 4, 6, 7],
        &[4, 6, 7],
    ),
];

/// The code of a method and its handlers, and its first flaw.
type Flawed = (&'static [u8], &'static [Range], Flaw);

static FLAWED: [Flawed; 8] = [
    (&[3, 185], &[], Flaw::Code(1, CodeEnd::NoOpcode(185))),
    (&[17, 0], &[], Flaw::Code(0, CodeEnd::Cut)),
    (&[17, 0, 0, 112, 254, 185], &[], Flaw::BadTarget(3, 1)),
    (&[112, 255], &[], Flaw::BadTarget(0, -1)),
    (
        &[17, 0, 0, 122],
        &[(0, 3, 3), (1, 3, 0)],
        Flaw::BadHandler(0, 1),
    ),
    (&[17, 0, 0, 122], &[(0, 2, 3)], Flaw::BadHandler(3, 0)),
    (&[17, 0, 0, 122], &[(3, 3, 3)], Flaw::BadHandler(3, 0)),
    (&[17, 0, 0, 122], &[(0, 4, 1)], Flaw::BadHandler(1, 0)),
];

/// Whether these are the places that control reaches and the leaders among them, and the handlers live whose entries
/// are leaders.
fn has_control(alloc: Global, world: &World<'_>, len: u16, example: Controlled) -> bool
    requires code { IsSomeAnd (slice_get world.now.methods 0) (λ m. 0 < m.code_len) }
    requires filled { 0 < len }
{
    let (_, ranges, reached, leaders) = example;
    match control_flow(alloc, world, 0) {
        Ok(control) => (0..=100).all(|place| {
            control.is_reached(place) == reached.contains(&place)
                && control.is_leader(place) == leaders.contains(&place)
        }) && ranges.iter().all(|range| {
            control.is_live(handler(*range, len)) == leaders.contains(&range.2)
        }),
        Err(_) => false,
    }
}

/// Whether this is what is told of the method.
fn finds(alloc: Global, example: Controlled) -> bool {
    let (code, ranges, _, _) = example;
    if code.is_empty() || code.len() > 100 || ranges.len() > 10 {
        return false;
    }
    match world(alloc, Shape::Thrown, code, ranges) {
        Ok(world) => has_control(alloc, &world, code.len() as u16, example),
        Err(_) => false,
    }
}

fn is_same_end(a: CodeEnd, b: CodeEnd) -> bool {
    match a {
        CodeEnd::NoOpcode(op) => matches!(b, CodeEnd::NoOpcode(other) if op == other),
        CodeEnd::Cut => matches!(b, CodeEnd::Cut),
        _ => false,
    }
}

fn is_same_flaw(a: Flaw, b: Flaw) -> bool {
    match a {
        Flaw::Code(place, end) => {
            matches!(b, Flaw::Code(other, why) if place == other && is_same_end(end, why))
        }
        Flaw::BadTarget(place, target) => {
            matches!(b, Flaw::BadTarget(other, to) if place == other && target == to)
        }
        Flaw::BadHandler(entry, number) => {
            matches!(b, Flaw::BadHandler(other, n) if entry == other && number == n)
        }
    }
}

/// Whether this is the first flaw of the method of a world.
fn has_flaw(alloc: Global, world: &World<'_>, expected: Flaw) -> bool
    requires { IsSomeAnd (slice_get world.now.methods 0) (λ m. 0 < m.code_len) }
{
    match control_flow(alloc, world, 0) {
        Err(ControlEnd::Flawed(flaw)) => is_same_flaw(flaw, expected),
        _ => false,
    }
}

/// Whether this is the first flaw.
fn is_flawed(alloc: Global, (code, ranges, expected): Flawed) -> bool {
    if code.is_empty() || code.len() > 100 || ranges.len() > 10 {
        return false;
    }
    match world(alloc, Shape::Thrown, code, ranges) {
        Ok(world) => has_flaw(alloc, &world, expected),
        Err(_) => false,
    }
}

/// Whether each example is told as expected.
fn are_told(alloc: Global) -> bool {
    for example in CONTROLLED.iter() {
        if !finds(alloc, *example) {
            return false;
        }
    }
    for example in FLAWED.iter() {
        if !is_flawed(alloc, *example) {
            return false;
        }
    }
    true
}

#[test]
fn where_control_goes(rt: HostRuntime) {
    assert!(rt; are_told(rt.alloc()));
}
