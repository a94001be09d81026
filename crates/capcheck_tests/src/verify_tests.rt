use crate::filling::{Held, UNCHANGED};
use crate::rows::{Row, rows_hold};
use cap_tests::{Change, DESCRIPTOR, METHOD};
use std::alloc::AllocError;

/// What gives the second method of package T a handler of all that is thrown, and a stack without room for it: `nop`
/// under the handler, `return`, and where the handler begins another `return`.
const WITHOUT_ROOM: [Change<'static>; 8] = [
    Change::Splice(METHOD, 12, 22, b"\x00\x7A\x7A"),
    Change::Splice(METHOD, 10, 12, b"\x00\x00"),
    Change::Splice(METHOD, 3, 4, b"\x01\x00\x11\x80\x01\x00\x13\x00\x00"),
    Change::Splice(DESCRIPTOR, 111, 114, b"\x01\x10"),
    Change::Byte(DESCRIPTOR, 41, 1),
    Change::Byte(DESCRIPTOR, 39, 3),
    Change::Byte(DESCRIPTOR, 35, 15),
    Change::Byte(DESCRIPTOR, 23, 9),
];

static VERIFIED: [Row; 9] = [
    // the stack is not empty at a branch
    (
        "verify T",
        UNCHANGED,
        "refused package 0 method 0.1 place 2 StackAtBranch\n",
        1,
    ),
    ("verify T U", UNCHANGED, "not linked NoSuper 8\n", 7),
    ("verify", UNCHANGED, "usage\n", 2),
    ("verify T --", UNCHANGED, "usage\n", 2),
    (
        "verify E",
        UNCHANGED,
        "malformed package 0 MissingPart 1\n",
        7,
    ),
    (
        "verify U",
        UNCHANGED,
        "malformed package 0 MissingPart 0\n",
        7,
    ),
    (
        "verify T T T T T T T T T T T T T T T T T",
        UNCHANGED,
        "not linked TooManyPackages 17\n",
        7,
    ),
    // no room for what a handler catches: the card verifier names the handler's entry, and the dataflow a place under it
    (
        "verify T",
        Held::Changed(&WITHOUT_ROOM),
        "refused package 0 method 0.1 place 2 Overflow\n",
        1,
    ),
    (
        "check T",
        Held::Changed(&WITHOUT_ROOM),
        "refused package 0 method 0.1 place 0 Overflow\n",
        1,
    ),
];

#[test]
fn verify_answers_for_all_packages(rt: HostRuntime) -> Result<(), AllocError> {
    rows_hold(&rt, rt.alloc(), &VERIFIED)
}

static METHODS: [Row; 6] = [
    // nothing but `return`
    (
        "verify T",
        Held::Second((b"\x01\x10", b"\x06\x00", b"\x7A"), false),
        "accepted 2 methods\n",
        0,
    ),
    // the first pass raises register 1 to the type of the argument, class 0, at the last store; the second finds it
    // at the `athrow`, which wants a throwable
    (
        "verify T",
        Held::Second(
            (
                b"\x06\x60\x00\x21",
                b"\x01\x11",
                b"\x19\x66\x04\x19\x93\x18\x2C\x70\xF9",
            ),
            false,
        ),
        "refused package 0 method 0.1 place 4 Mismatch found class 0 wanted class 1\n",
        1,
    ),
    // the same with an argument of class 3, a throwable
    (
        "verify T",
        Held::Second(
            (
                b"\x06\x60\x02\x01",
                b"\x01\x11",
                b"\x19\x66\x04\x19\x93\x18\x2C\x70\xF9",
            ),
            false,
        ),
        "accepted 2 methods\n",
        0,
    ),
    // a local that holds a short and then a reference
    (
        "verify T",
        Held::Second(
            (
                b"\x06\x60\x00\x23",
                b"\x01\x11",
                b"\x04\x30\x1D\x3B\x18\x2C\x19\x3B\x03\x78",
            ),
            false,
        ),
        "refused package 0 method 0.1 place 6 Mismatch found top wanted class 0\n",
        1,
    ),
    // new, dup, a condition, and only then the constructor
    (
        "verify T",
        Held::Second(
            (
                b"\x02\x41",
                b"\x03\x10",
                b"\x8F\x00\x00\x3D\x1C\x60\x05\x04\x70\x03\x03\x8C\x00\x00\x3B\x7A",
            ),
            true,
        ),
        "refused package 0 method 0.1 place 5 StackAtBranch\n",
        1,
    ),
    // code that ends in the middle of an instruction, after the last branch
    (
        "verify T",
        Held::Second((b"\x01\x10", b"\x06\x00", b"\x7A\x11\x00"), false),
        "refused package 0 method 0.1 place 1 Cut\n",
        1,
    ),
];

#[test]
fn verify_names_the_method_without_a_card_typing(rt: HostRuntime) -> Result<(), AllocError> {
    rows_hold(&rt, rt.alloc(), &METHODS)
}
