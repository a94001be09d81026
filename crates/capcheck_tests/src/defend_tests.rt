use crate::filling::{Held, Second, UNCHANGED};
use crate::rows::{Row, rows_hold};
use std::alloc::AllocError;

static RUN: [Row; 8] = [
    // the condition, then either of two constants, the sum and the return: six steps
    (
        "defend 6 0.1 T -- 5 0",
        UNCHANGED,
        "returned short 7\nstatic 0 short 7\n",
        0,
    ),
    (
        "defend 5 0.1 T -- 5 0",
        UNCHANGED,
        "spent\nstatic 0 short 7\n",
        0,
    ),
    (
        "defend 0 0.0 T -- 41",
        UNCHANGED,
        "spent\nstatic 0 short 7\n",
        0,
    ),
    // an entry that no Descriptor has
    (
        "defend 6 0.2 T -- 5 0",
        UNCHANGED,
        "not started NoEntry\n",
        7,
    ),
    ("defend 6 8.0 T", UNCHANGED, "not started NoEntry\n", 7),
    ("defend 6 0.1 T", UNCHANGED, "not started ArgCount 0 2\n", 7),
    (
        "defend 6 0.1 T -- 5 null",
        UNCHANGED,
        "not started ArgKind 1\n",
        7,
    ),
    (
        "defend 6 0.1 E -- 5 0",
        UNCHANGED,
        "malformed package 0 MissingPart 1\n",
        7,
    ),
];

#[test]
fn defend_runs_an_entry_of_the_last_package(rt: HostRuntime) -> Result<(), AllocError> {
    rows_hold(&rt, rt.alloc(), &RUN)
}

/// Takes an array of bytes, puts 5 in its first element, and gives it.
pub(crate) const FIRST_FIVE: Second = (b"\x02\xBB", b"\x03\x10", b"\x18\x03\x08\x38\x18\x77");

static RUNS: [Row; 11] = [
    // one number on the stack, and a sum
    (
        "defend 9 0.1 T -- 5 0",
        Held::Second((b"\x03\x44\x40", b"\x02\x20", b"\x04\x41\x78"), false),
        "fault stack\nstatic 0 short 7\n",
        0,
    ),
    (
        "defend 6 0.1 T -- #0102ff",
        Held::Second(FIRST_FIVE, false),
        "returned reference 1\narray 1 byte 3 5 2 -1\nstatic 0 short 7\n",
        0,
    ),
    // no element: the machine's own exception
    (
        "defend 6 0.1 T -- #",
        Held::Second(FIRST_FIVE, false),
        "threw class 4 reference 2\nstatic 0 short 7\n",
        0,
    ),
    (
        "defend 6 0.1 T -- null",
        Held::Second(FIRST_FIVE, false),
        "threw class 2 reference 1\nstatic 0 short 7\n",
        0,
    ),
    (
        "defend 6 0.1 T -- #0",
        Held::Second(FIRST_FIVE, false),
        "usage\n",
        2,
    ),
    (
        "defend 6 0.1 T -- #0A",
        Held::Second(FIRST_FIVE, false),
        "usage\n",
        2,
    ),
    (
        "defend 6 0.1 T -- 5",
        Held::Second(FIRST_FIVE, false),
        "not started ArgKind 0\n",
        7,
    ),
    // a register that the method lacks, a place in the middle of an instruction, and a reference that is added
    (
        "defend 9 0.1 T",
        Held::Second((b"\x01\x40", b"\x01\x00", b"\x1C\x78"), false),
        "fault local\nstatic 0 short 7\n",
        0,
    ),
    (
        "defend 9 0.1 T",
        Held::Second((b"\x01\x10", b"\x01\x00", b"\x11\x00\x05\x70\xFE"), false),
        "fault jump\nstatic 0 short 7\n",
        0,
    ),
    (
        "defend 9 0.1 T -- null",
        Held::Second((b"\x02\xBB", b"\x02\x10", b"\x18\x04\x41\x78"), false),
        "fault type\nstatic 0 short 7\n",
        0,
    ),
    // the initial arrays leave no room for the array of the argument
    (
        "defend 6 0.1 T -- #00",
        Held::Crowded(FIRST_FIVE),
        "not started ArgRoom 0\n",
        7,
    ),
];

#[test]
fn defend_tells_arrays_and_faults(rt: HostRuntime) -> Result<(), AllocError> {
    rows_hold(&rt, rt.alloc(), &RUNS)
}

/// Words that ask for no run of an entry.
static OUTSIDE: [Row; 14] = [
    ("defend", Held::Nothing, "usage\n", 2),
    ("defend 6", Held::Nothing, "usage\n", 2),
    ("defend 6 0.1", Held::Nothing, "usage\n", 2),
    ("defend 6 0.1 -- 5 0", Held::Nothing, "usage\n", 2),
    ("defend 06 0.1 T -- 5 0", Held::Nothing, "usage\n", 2),
    (
        "defend 4294967296 0.1 T -- 5 0",
        Held::Nothing,
        "usage\n",
        2,
    ),
    ("defend 6 0 T -- 5 0", Held::Nothing, "usage\n", 2),
    ("defend 6 0.01 T -- 5 0", Held::Nothing, "usage\n", 2),
    ("defend 6 0.65536 T -- 5 0", Held::Nothing, "usage\n", 2),
    ("defend 6 0.1.1 T -- 5 0", Held::Nothing, "usage\n", 2),
    ("defend 6 -1.0 T -- 5 0", Held::Nothing, "usage\n", 2),
    ("defend 6 0.1 T  -- 5 0", Held::Nothing, "usage\n", 2),
    ("defend 6 0.1 T -- 5 0 --", Held::Nothing, "usage\n", 2),
    (
        "defend 6 0.1 T -- 2147483648 0",
        Held::Nothing,
        "usage\n",
        2,
    ),
];

#[test]
fn words_of_no_entry_are_answered_by_usage(rt: HostRuntime) -> Result<(), AllocError> {
    rows_hold(&rt, rt.alloc(), &OUTSIDE)
}

/// Runs of the package of calls, and what they print.
static CALLS: [Row; 4] = [
    (
        "defend 9 1.1 I -- #00",
        Held::Calls,
        "interface missing class 1\n",
        0,
    ),
    (
        "defend 9 1.2 I -- #00",
        Held::Calls,
        "returned short 5\n",
        0,
    ),
    ("defend 4 1.2 I -- #00", Held::Calls, "spent\n", 0),
    (
        "defend 9 1.3 I",
        Held::Calls,
        "interface missing class 2\n",
        0,
    ),
];

#[test]
fn defend_finds_methods_of_interfaces_and_of_object(rt: HostRuntime) -> Result<(), AllocError> {
    rows_hold(&rt, rt.alloc(), &CALLS)
}
