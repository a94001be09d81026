ghost use Rattle.std.specs.Prelude.{All, IsTrue};
ghost use Rattle.jc_base.specs.Order.{IsKnown};

use self::Gives::{Fault, Frame, Mismatch};
use self::Regs::{Int, Lifted, Plain, Raised, Shorts, Stored, Unset};
use crate::compared::{is_known, is_same, is_same_fault, number_of};
use crate::two_packages::world;
use jc_base::{Classes, Ty, World};
use jc_decode::Insn;
use jc_ops::RuleFault;
use jc_rules::{Mode, Outcome, Site, apply};
use std::alloc::{AllocError, Global};
use std::test::*;

const S: Ty = Ty::Short;

const HIGH: Ty = Ty::IntHigh;

const LOW: Ty = Ty::IntLow;

const NULL: Ty = Ty::Null;
/// No cell on the stack, or a register that holds anything.
const NO: Ty = Ty::Top;

const NONE: Ty = Ty::Bottom;

const CLASS: Ty = Ty::Class(4);

const BASE: Ty = Ty::Class(3);

const OBJECT: Ty = Ty::Class(0);

const THROWN: Ty = Ty::Class(1);

const FRESH: Ty = Ty::Fresh { place: 7, class: 4 };

const BOOLEANS: Ty = Ty::ArrBool;

const BYTES: Ty = Ty::ArrByte;

const SHORTS: Ty = Ty::ArrShort;

const INTS: Ty = Ty::ArrInt;

const CLASSES: Ty = Ty::ArrRef(4);

const OBJECTS: Ty = Ty::ArrRef(0);

/// The registers of the method: `this` and two others.
#[derive(Clone, Copy)]
enum Regs {
    /// A short, and a local that holds anything.
    Plain,
    /// An int.
    Int,
    /// A short, and a local that no path has written yet.
    Unset,
    /// A class, and a local that holds anything.
    Stored,
    /// Two shorts.
    Shorts,
    /// Anything in place of `this`.
    Raised,
    /// The superclass in place of `this`.
    Lifted,
}

fn types_of(regs: Regs) -> [Ty; 3] {
    match regs {
        Regs::Plain => [CLASS, S, NO],
        Regs::Int => [CLASS, HIGH, LOW],
        Regs::Unset => [CLASS, S, NONE],
        Regs::Stored => [CLASS, BASE, NO],
        Regs::Shorts => [CLASS, S, S],
        Regs::Raised => [NO, S, NO],
        Regs::Lifted => [BASE, S, NO],
    }
}

/// What a rule gives: registers and stack, or the first fault.
#[derive(Clone, Copy)]
enum Gives {
    Frame(Regs, Ty, Ty),
    Mismatch(Ty, Ty),
    Fault(RuleFault),
}

/// Opcode and operand; the registers, and the stack of two cells with the top last; what the rule gives.
type Case = (u8, i32, Regs, Ty, Ty, Gives);

static CASES: [Case; 108] = [
    (0, 0, Plain, S, NO, Frame(Plain, S, NO)),
    (1, 0, Plain, NO, NO, Frame(Plain, NULL, NO)),
    (3, 0, Plain, NO, NO, Frame(Plain, S, NO)),
    (3, 0, Plain, S, S, Fault(RuleFault::Overflow)),
    (10, 0, Plain, NO, NO, Frame(Plain, HIGH, LOW)),
    (10, 0, Plain, S, NO, Fault(RuleFault::Overflow)),
    (16, 5, Plain, S, NO, Frame(Plain, S, S)),
    (20, 5, Plain, NO, NO, Frame(Plain, HIGH, LOW)),
    (24, 0, Plain, NO, NO, Frame(Plain, CLASS, NO)),
    (26, 0, Plain, NO, NO, Mismatch(NO, OBJECT)),
    (26, 0, Unset, NO, NO, Frame(Unset, NULL, NO)),
    (21, 9, Plain, NO, NO, Fault(RuleFault::NoLocal(9))),
    (22, 1, Plain, NO, NO, Frame(Plain, S, NO)),
    (28, 0, Plain, NO, NO, Mismatch(CLASS, S)),
    (33, 0, Int, NO, NO, Frame(Int, HIGH, LOW)),
    (34, 0, Int, NO, NO, Fault(RuleFault::NoLocal(2))),
    (44, 0, Plain, BASE, NO, Frame(Stored, NO, NO)),
    (44, 0, Plain, FRESH, NO, Fault(RuleFault::FreshKept)),
    (44, 0, Plain, S, NO, Mismatch(S, OBJECT)),
    (44, 0, Plain, NO, NO, Fault(RuleFault::Underflow)),
    (49, 0, Plain, S, NO, Frame(Shorts, NO, NO)),
    (52, 0, Plain, HIGH, LOW, Frame(Int, NO, NO)),
    (53, 0, Plain, HIGH, LOW, Fault(RuleFault::NoLocal(2))),
    (52, 0, Plain, S, S, Mismatch(S, LOW)),
    (52, 0, Plain, LOW, NO, Fault(RuleFault::Underflow)),
    (36, 0, Plain, CLASSES, S, Frame(Plain, CLASS, NO)),
    (36, 0, Plain, NULL, S, Frame(Plain, NULL, NO)),
    (36, 0, Plain, BYTES, S, Mismatch(BYTES, OBJECTS)),
    (36, 0, Plain, S, NO, Fault(RuleFault::Underflow)),
    (37, 0, Plain, BOOLEANS, S, Frame(Plain, S, NO)),
    (37, 0, Plain, SHORTS, S, Mismatch(SHORTS, BYTES)),
    (38, 0, Plain, SHORTS, S, Frame(Plain, S, NO)),
    (39, 0, Plain, INTS, S, Frame(Plain, HIGH, LOW)),
    (55, 0, Plain, S, CLASS, Fault(RuleFault::Underflow)),
    (56, 0, Plain, S, S, Fault(RuleFault::Underflow)),
    (57, 0, Plain, S, CLASS, Mismatch(CLASS, S)),
    (58, 0, Plain, HIGH, LOW, Fault(RuleFault::Underflow)),
    (59, 0, Plain, FRESH, NO, Frame(Plain, NO, NO)),
    (59, 0, Plain, HIGH, LOW, Fault(RuleFault::SplitInt)),
    (60, 0, Plain, HIGH, LOW, Frame(Plain, NO, NO)),
    (60, 0, Plain, S, NO, Fault(RuleFault::Underflow)),
    (61, 0, Plain, CLASS, NO, Frame(Plain, CLASS, CLASS)),
    (61, 0, Plain, HIGH, LOW, Fault(RuleFault::SplitInt)),
    (61, 0, Plain, S, S, Fault(RuleFault::Overflow)),
    (62, 0, Plain, S, S, Fault(RuleFault::Overflow)),
    (62, 0, Plain, S, NO, Fault(RuleFault::Underflow)),
    (63, 16, Plain, S, NO, Frame(Plain, S, S)),
    (63, 17, Plain, HIGH, LOW, Fault(RuleFault::SplitInt)),
    (63, 18, Plain, S, NO, Fault(RuleFault::Underflow)),
    (63, 18, Plain, S, S, Fault(RuleFault::Overflow)),
    (64, 17, Plain, S, CLASS, Frame(Plain, CLASS, S)),
    (64, 17, Plain, HIGH, LOW, Fault(RuleFault::SplitInt)),
    (64, 18, Plain, S, S, Fault(RuleFault::Underflow)),
    (65, 0, Plain, S, S, Frame(Plain, S, NO)),
    (65, 0, Plain, S, NO, Fault(RuleFault::Underflow)),
    (65, 0, Plain, BASE, S, Mismatch(BASE, S)),
    (66, 0, Plain, HIGH, LOW, Fault(RuleFault::Underflow)),
    (75, 0, Plain, S, NO, Frame(Plain, S, NO)),
    (76, 0, Plain, HIGH, LOW, Frame(Plain, HIGH, LOW)),
    (89, 1, Plain, NO, NO, Frame(Plain, NO, NO)),
    (89, 0, Plain, NO, NO, Mismatch(CLASS, S)),
    (90, 1, Int, NO, NO, Frame(Int, NO, NO)),
    (91, 0, Plain, S, NO, Frame(Plain, S, NO)),
    (92, 0, Plain, S, NO, Frame(Plain, HIGH, LOW)),
    (94, 0, Plain, HIGH, LOW, Frame(Plain, S, NO)),
    (95, 0, Plain, HIGH, LOW, Fault(RuleFault::Underflow)),
    (96, 0, Plain, S, NO, Frame(Plain, NO, NO)),
    (102, 0, Plain, NULL, NO, Frame(Plain, NO, NO)),
    (102, 0, Plain, FRESH, NO, Mismatch(FRESH, OBJECT)),
    (104, 0, Plain, CLASS, NULL, Frame(Plain, NO, NO)),
    (111, 0, Plain, S, S, Frame(Plain, NO, NO)),
    (112, 0, Plain, NO, NO, Frame(Plain, NO, NO)),
    (115, 0, Plain, S, NO, Frame(Plain, NO, NO)),
    (118, 0, Plain, HIGH, LOW, Frame(Plain, NO, NO)),
    (116, 0, Plain, S, S, Mismatch(S, LOW)),
    (120, 0, Plain, S, NO, Frame(Plain, NO, NO)),
    (119, 0, Plain, CLASS, NO, Mismatch(OBJECT, S)),
    (121, 0, Plain, HIGH, LOW, Mismatch(HIGH, S)),
    (122, 0, Plain, NO, NO, Mismatch(NONE, S)),
    (124, 2, Plain, NO, NO, Frame(Plain, S, NO)),
    (125, 2, Plain, NO, NO, Fault(RuleFault::BadMember(2))),
    (123, 9, Plain, NO, NO, Fault(RuleFault::BadMember(9))),
    (128, 2, Plain, S, NO, Frame(Plain, NO, NO)),
    (134, 1, Plain, CLASS, NO, Frame(Plain, HIGH, LOW)),
    (134, 1, Plain, BASE, NO, Mismatch(BASE, CLASS)),
    (133, 1, Plain, CLASS, NO, Fault(RuleFault::BadMember(1))),
    (138, 1, Plain, HIGH, LOW, Fault(RuleFault::Underflow)),
    (176, 1, Plain, NO, NO, Frame(Plain, HIGH, LOW)),
    (184, 1, Plain, HIGH, LOW, Frame(Plain, NO, NO)),
    (139, 3, Plain, CLASS, S, Frame(Plain, S, NO)),
    (139, 3, Plain, BASE, S, Mismatch(BASE, CLASS)),
    (139, 6, Plain, S, NO, Fault(RuleFault::BadMember(6))),
    (140, 5, Plain, CLASS, S, Frame(Plain, S, NO)),
    (141, 6, Plain, S, NO, Frame(Plain, S, NO)),
    (141, 3, Plain, S, NO, Fault(RuleFault::BadMember(3))),
    (142, 2, Plain, CLASS, S, Fault(RuleFault::BadMember(0))),
    (143, 0, Plain, NO, NO, Frame(Plain, FRESH, NO)),
    (143, 1, Plain, NO, NO, Fault(RuleFault::BadMember(1))),
    (144, 12, Plain, S, NO, Frame(Plain, SHORTS, NO)),
    (145, 0, Plain, S, NO, Frame(Plain, CLASSES, NO)),
    (146, 0, Plain, INTS, NO, Frame(Plain, S, NO)),
    (146, 0, Plain, S, NO, Mismatch(S, BYTES)),
    (147, 0, Plain, THROWN, NO, Frame(Plain, NO, NO)),
    (147, 0, Plain, BASE, NO, Mismatch(BASE, THROWN)),
    (148, 0, Plain, OBJECT, NO, Frame(Plain, CLASS, NO)),
    (148, 14, Plain, OBJECT, NO, Frame(Plain, CLASSES, NO)),
    (149, 10, Plain, OBJECT, NO, Frame(Plain, S, NO)),
    (168, 0, Plain, NO, NO, Frame(Plain, NO, NO)),
];

/// On the card a short stored over a class raises the register to Top, and a class over its superclass to
/// that.
static CARD_CASES: [Case; 2] = [
    (47, 0, Plain, S, NO, Frame(Raised, NO, NO)),
    (43, 0, Plain, BASE, NO, Frame(Lifted, NO, NO)),
];

fn all_known(classes: &Classes, types: &[Ty]) -> bool
    ensures { IsTrue result → All (IsKnown classes.now) types.now }
{
    'types: for ty in types {
        if !is_known(classes, *ty) {
            return false;
        }
    }
    true
}

/// Applies the rule, if the method, the slices and the types are such that it may be called.
fn tried(
    world: &World<'_>,
    site: Site,
    insn: Insn,
    regs: &mut [Ty],
    stack: &mut [Ty],
    depth: u8,
    mode: Mode,
) -> Option<Result<Outcome, RuleFault>> {
    let classes = world.classes();
    if site.method >= world.method_count() {
        return None;
    }
    let method = world.method(site.method);
    if regs.len() != method.nargs as usize + method.max_locals as usize
        || stack.len() != method.max_stack as usize
        || depth > method.max_stack
    {
        return None;
    }
    if !all_known(classes, regs) {
        return None;
    }
    if !all_known(classes, &stack[..depth as usize]) {
        return None;
    }
    Some(apply(world, site, insn, regs, stack, depth, mode))
}

/// The number of cells before the first that is none.
fn depth_of(low: Ty, high: Ty) -> u8 {
    if number_of(low) == number_of(NO) {
        0
    } else if number_of(high) == number_of(NO) {
        1
    } else {
        2
    }
}

/// Whether the rule gives what the case says, in the method 4 of the sample world at place 7.
fn holds(world: &World<'_>, case: Case, mode: Mode) -> bool {
    let (op, x, before, low, high, gives) = case;
    let site = Site {
        method: 4,
        place: 7,
    };
    let insn = Insn {
        op,
        x,
        y: 0,
        z: 0,
        len: 1,
    };
    let mut regs = types_of(before);
    let mut stack = [low, high];
    let depth = depth_of(low, high);
    match tried(world, site, insn, &mut regs, &mut stack, depth, mode) {
        None => false,
        Some(Ok(outcome)) => is_frame(gives, &regs, &stack, outcome.depth),
        Some(Err(fault)) => {
            is_fault(gives, fault)
                && is_same(&regs, &types_of(before))
                && is_same(&stack, &[low, high])
        }
    }
}

fn is_frame(gives: Gives, regs: &[Ty], stack: &[Ty], depth: u8) -> bool {
    match gives {
        Frame(after, low, high) => {
            depth_of(low, high) == depth
                && is_same(regs, &types_of(after))
                && is_same(first(stack, depth), first(&[low, high], depth))
        }
        _ => false,
    }
}

/// The first `depth` cells.
fn first(stack: &[Ty], depth: u8) -> &[Ty] {
    stack.get(..depth as usize).unwrap_or(stack)
}

fn is_fault(gives: Gives, fault: RuleFault) -> bool {
    match gives {
        Frame(_, _, _) => false,
        Mismatch(found, wanted) => is_same_fault(fault, RuleFault::Mismatch { found, wanted }),
        Fault(wanted) => is_same_fault(fault, wanted),
    }
}

/// The first case that does not hold, and the number of cases where all do.
fn first_wrong(world: &World<'_>, cases: &[Case], mode: Mode) -> usize {
    cases
        .iter()
        .position(|case| !holds(world, *case, mode))
        .unwrap_or(cases.len())
}

fn wrong(alloc: Global) -> Result<(usize, usize), AllocError> {
    let world = world(alloc)?;
    Ok((
        first_wrong(&world, &CASES, Mode::Flow),
        first_wrong(&world, &CARD_CASES, Mode::Card),
    ))
}

#[test]
fn each_instruction_by_the_table(rt: HostRuntime) -> Result<(), AllocError> {
    assert_eq!(rt; wrong(rt.alloc())?, (108, 2));
    Ok(())
}
