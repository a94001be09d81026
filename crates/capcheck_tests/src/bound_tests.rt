use crate::checked_tests::{CALLER, EXPORTED};
use crate::filling::{Constant, Held, Kept, Second, UNCHANGED};
use crate::rows::{Answer, Row, Story, rows_hold, stories_go_so};
use cap_tests::{CONSTANT_POOL, Change, DESCRIPTOR, METHOD, PLAIN};
use std::alloc::AllocError;

/// `sload_0`, `invokestatic` of the constant, `sreturn`: a short in, a short out.
const CALLING: Second = (b"\x02\x44", b"\x01\x10", b"\x1C\x8D\x00\x00\x78");

/// The first method of T.
const FIRST: Constant = (b"\x00\x01\x06\x00\x00\x01", b"\x00\x01\x00\x04");

/// The second one, which calls.
const ITSELF: Constant = (b"\x00\x01\x06\x00\x00\x07", b"\x00\x01\x00\x06");

/// What makes package T export its first method, which calls the second, and that one itself.
const LOOPING: [Change<'static>; 7] = [
    Change::Splice(CONSTANT_POOL, 3, 5, b"\x00\x01\x06\x00\x00\x08"),
    Change::Splice(
        METHOD,
        4,
        22,
        b"\x01\x10\x1C\x8D\x00\x00\x78\x01\x10\x1C\x8D\x00\x00\x78",
    ),
    Change::Splice(DESCRIPTOR, 107, 109, b"\x00\x01\x00\x04"),
    Change::Splice(DESCRIPTOR, 34, 40, b"\x00\x08\x00\x04\x00\x05"),
    Change::Byte(DESCRIPTOR, 27, 5),
    Change::Byte(DESCRIPTOR, 25, 4),
    EXPORTED,
];

static BOUNDS: [Row; 13] = [
    // three words of each frame's own, an argument word, and one and two cells of the operand stack
    (
        "bound 0.1 T",
        Held::Naming(CALLING, FIRST),
        "bound 11 words 2 frames\n",
        0,
    ),
    (
        "bound 0.0 T",
        Held::Naming(CALLING, FIRST),
        "bound 6 words 1 frames\n",
        0,
    ),
    (
        "run 7 0.1 T -- 41",
        Held::Naming(CALLING, FIRST),
        "returned short 42\nstatic 0 short 7\n",
        0,
    ),
    (
        "bound 0.1 T",
        Held::Naming(CALLING, ITSELF),
        "cycle method 0.1\n",
        0,
    ),
    (
        "run 1000 0.1 T -- 41",
        Held::Naming(CALLING, ITSELF),
        "too deep\nstatic 0 short 7\n",
        0,
    ),
    (
        "bound 0.2 T",
        Held::Naming(CALLING, FIRST),
        "not started NoEntry\n",
        7,
    ),
    (
        "bound 0.1 T",
        UNCHANGED,
        "refused package 0 method 0.1 place 2 StackAtBranch\n",
        1,
    ),
    // the methods are verified before the entry is looked for
    (
        "bound 9.9 T",
        UNCHANGED,
        "refused package 0 method 0.1 place 2 StackAtBranch\n",
        1,
    ),
    // a method of objects, and one without code
    ("bound 1.0 I", Held::Calls, "not started NotStatic\n", 7),
    ("bound 0.0 I", Held::Calls, "not started NotStatic\n", 7),
    // by the numbers of its own package, which is not the entry's
    (
        "bound 0.0 T W",
        Held::Both(&PLAIN, &LOOPING, &CALLER),
        "cycle method 0.1\n",
        0,
    ),
    ("bound 0.1", UNCHANGED, "usage\n", 2),
    ("bound T T", UNCHANGED, "usage\n", 2),
];

#[test]
fn bound_tells_the_greatest_sums_or_a_method_that_comes_again(
    rt: HostRuntime,
) -> Result<(), AllocError> {
    rows_hold(&rt, rt.alloc(), &BOUNDS)
}

/// Each frame has three words of its own, the receiver of a method of an object, and a cell of the operand stack in a method
/// that loads something. There are 0, 1 and 2 locals in the methods of throwable, 0, 4 and 6 below it, 13, 14 and 15 in the
/// class that is not below it, and 7 and 15 in that of the second package.
static DISPATCHED: [Row; 6] = [
    // 4 words, 5 of the overriding method, and 4 of the one that it overrides and calls
    (
        "bound 1.0 T",
        Held::Overridden,
        "bound 13 words 3 frames\n",
        0,
    ),
    // 4 words, and 10 of the overriding method
    (
        "bound 1.1 T",
        Held::Overridden,
        "bound 14 words 2 frames\n",
        0,
    ),
    // 4 words, and 8 of the method below the class that implements the interface
    (
        "bound 1.2 T",
        Held::Overridden,
        "bound 12 words 2 frames\n",
        0,
    ),
    // 3 words, 4, and 11 of the second package's method; the four frames are those of another chain, with 3, 4, 5 and 4 words
    (
        "bound 0.2 T W",
        Held::Overridden,
        "bound 18 words 4 frames\n",
        0,
    ),
    // 3 words, 4 and 10: a class of another package does not override a package-visible method
    (
        "bound 0.3 T W",
        Held::Overridden,
        "bound 17 words 3 frames\n",
        0,
    ),
    // 3 words, 4 and 8
    (
        "bound 0.4 T W",
        Held::Overridden,
        "bound 15 words 3 frames\n",
        0,
    ),
];

#[test]
fn bound_counts_the_methods_that_may_be_called_on_an_object(
    rt: HostRuntime,
) -> Result<(), AllocError> {
    rows_hold(&rt, rt.alloc(), &DISPATCHED)
}

/// Of what `transform` stores.
const TRANSFORMED: [Answer; 2] = [
    ("transform U T", "transformed 2 methods\n", 0),
    ("bound 0.1 U", "bound 10 words 1 frames\n", 0),
];

static STORIES: [Story; 1] = [(Kept::WithRoles, 0, 0, &TRANSFORMED)];

#[test]
fn bound_measures_what_transform_stores(rt: HostRuntime) -> Result<(), AllocError> {
    stories_go_so(&rt, rt.alloc(), &STORIES)
}
