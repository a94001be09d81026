use crate::filling::{Held, Kept};
use crate::rows::{FailingRow, Row, failures_are_told, rows_hold};
use cap_tests::METHOD;
use std::alloc::AllocError;

/// Gives its argument and one: `sload_0`, `sconst_1`, `sadd`, `sreturn`.
const NEXT: &[u8] = b"\x07\x00\x07\x00\x02\x10\x1c\x04\x41\x78";

static PROBED: [Row; 11] = [
    (
        "probe P 10 41",
        Held::Method(NEXT),
        "returned short 42\n",
        0,
    ),
    (
        "probe P 10 32767",
        Held::Method(NEXT),
        "returned short -32768\n",
        0,
    ),
    ("probe P 3 41", Held::Method(NEXT), "spent\n", 0),
    ("probe P 4 41", Held::Method(NEXT), "returned short 42\n", 0),
    ("probe P 0 41", Held::Method(NEXT), "spent\n", 0),
    (
        "probe P 4",
        Held::Method(NEXT),
        "not started ArgCount 0 1\n",
        7,
    ),
    (
        "probe P 10 41 41",
        Held::Method(NEXT),
        "not started ArgCount 2 1\n",
        7,
    ),
    (
        "probe P 4 32768",
        Held::Method(NEXT),
        "not started ArgKind 0\n",
        7,
    ),
    (
        "probe P 4 null",
        Held::Method(NEXT),
        "not started ArgKind 0\n",
        7,
    ),
    (
        "probe P 4 #2a",
        Held::Method(NEXT),
        "not started ArgKind 0\n",
        7,
    ),
    (
        "probe Q 4 41",
        Held::Method(NEXT),
        "malformed package 0 MissingPart 7\n",
        7,
    ),
];

#[test]
fn probe_runs_an_accepted_method(rt: HostRuntime) -> Result<(), AllocError> {
    rows_hold(&rt, rt.alloc(), &PROBED)
}

static OUTSIDE: [Row; 16] = [
    ("probe P 04 41", Held::Method(NEXT), "usage\n", 2),
    ("probe P 4 -0", Held::Method(NEXT), "usage\n", 2),
    ("probe P 4 +1", Held::Method(NEXT), "usage\n", 2),
    ("probe P 4294967296 41", Held::Method(NEXT), "usage\n", 2),
    ("probe P 4 2147483648", Held::Method(NEXT), "usage\n", 2),
    ("probe P 4 #2", Held::Method(NEXT), "usage\n", 2),
    ("probe -- 4 41", Held::Method(NEXT), "usage\n", 2),
    ("probe  4 41", Held::Method(NEXT), "usage\n", 2),
    ("probe P", Held::Method(NEXT), "usage\n", 2),
    ("probe", Held::Method(NEXT), "usage\n", 2),
    ("probes P 4 41", Held::Method(NEXT), "usage\n", 2),
    ("show", Held::Method(NEXT), "usage\n", 2),
    ("show --", Held::Method(NEXT), "usage\n", 2),
    ("show ", Held::Method(NEXT), "usage\n", 2),
    ("show P 4", Held::Method(NEXT), "usage\n", 2),
    ("shows P", Held::Method(NEXT), "usage\n", 2),
];

#[test]
fn words_outside_the_grammar_are_answered_by_usage(rt: HostRuntime) -> Result<(), AllocError> {
    rows_hold(&rt, rt.alloc(), &OUTSIDE)
}

/// Method components, with what `probe` prints of them and its status.
static METHODS: [Row; 14] = [
    // a goto into the middle of sspush
    (
        "probe P 9",
        Held::Method(b"\x07\x00\x09\x00\x02\x00\x11\x00\x05\x70\xfe\x78"),
        "refused place 3 BadTarget 1\n",
        1,
    ),
    (
        "probe P 9",
        Held::Method(b"\x07\x00\x06\x00\x02\x00\x04\x04\x41"),
        "refused place 2 FallsOff\n",
        1,
    ),
    // a target that a later branch has, fallen into with one cell
    (
        "probe P 9",
        Held::Method(b"\x07\x00\x09\x00\x02\x00\x04\x04\x41\x3b\x70\xfd"),
        "refused place 1 StackAtTarget\n",
        1,
    ),
    (
        "probe P 9",
        Held::Method(b"\x07\x00\x05\x00\x02\x00\xb9\x78"),
        "refused place 0 OutOfScope 185\n",
        1,
    ),
    // a handler, a flag, no header and no code
    (
        "probe P 9",
        Held::Method(b"\x07\x00\x07\x01\x02\x10\x1c\x04\x41\x78"),
        "malformed package 0 Form 7 3 BadValue\n",
        7,
    ),
    (
        "probe P 9",
        Held::Method(b"\x07\x00\x07\x00\x12\x10\x1c\x04\x41\x78"),
        "malformed package 0 Form 7 4 BadValue\n",
        7,
    ),
    (
        "probe P 9",
        Held::Method(b"\x07\x00\x01\x00"),
        "malformed package 0 Form 7 4 Cut\n",
        7,
    ),
    (
        "probe P 9",
        Held::Method(b"\x07\x00\x03\x00\x02\x10"),
        "malformed package 0 MethodLength 1 0\n",
        7,
    ),
    // an empty file, an archive, another component, and files that end early and late
    (
        "probe P 9",
        Held::Method(b""),
        "malformed package 0 Form 7 0 Cut\n",
        7,
    ),
    (
        "probe P 9",
        Held::Method(b"PK\x03\x04 an archive"),
        "malformed package 0 Form 7 0 WrongTag\n",
        7,
    ),
    (
        "probe P 9",
        Held::Method(b"\x06\x00\x07\x00\x02\x10\x1c\x04\x41\x78"),
        "malformed package 0 Form 7 0 WrongTag\n",
        7,
    ),
    (
        "probe P 9",
        Held::Method(b"\x07\x00\x08\x00\x02\x10\x1c\x04\x41\x78"),
        "malformed package 0 Form 7 10 Cut\n",
        7,
    ),
    (
        "probe P 9",
        Held::Method(b"\x07\x00\x06\x00\x02\x10\x1c\x04\x41\x78"),
        "malformed package 0 Form 7 9 Trailing\n",
        7,
    ),
    // a Method component that is longer than any part
    (
        "probe T 9",
        Held::TooLong(&[], METHOD),
        "malformed package 0 PartTooLong 7\n",
        7,
    ),
];

#[test]
fn probe_names_what_is_wrong_with_the_method(rt: HostRuntime) -> Result<(), AllocError> {
    rows_hold(&rt, rt.alloc(), &METHODS)
}

static FAILING: [FailingRow; 5] = [
    (
        Kept::Method(NEXT),
        ("probe P 10 41", 1, 0, 0, "read fault\n", 3),
    ),
    (
        Kept::Method(NEXT),
        ("probe P 10 41", 2, 0, 0, "returned short 42\n", 0),
    ),
    (Kept::Method(NEXT), ("probe P 10 41", 0, 1, 0, "", 8)),
    (
        Kept::Method(NEXT),
        ("probe P 10 41", 0, 1, 8, "returned", 8),
    ),
    (Kept::Method(NEXT), ("probe P 10 41", 1, 1, 4, "read", 8)),
];

#[test]
fn probe_names_the_device_that_fails(rt: HostRuntime) -> Result<(), AllocError> {
    failures_are_told(&rt, rt.alloc(), &FAILING)
}
