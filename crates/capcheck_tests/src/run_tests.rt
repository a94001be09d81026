use crate::defend_tests::FIRST_FIVE;
use crate::filling::{Held, UNCHANGED};
use crate::rows::{Leaving, Row, rows_hold, words_are_left};
use cap_bytes::Part;
use cap_tests::{Change, DESCRIPTOR, DIRECTORY, METHOD};
use std::alloc::AllocError;

/// The component of the target index.
const INDEX: Part = Part(128);

/// What makes package T one that a card accepts: both methods keep their stack empty at branches, since `pick` holds in
/// registers what it had on the stack, and an index tells the targets of `pick`, places 13 and 17.
pub(crate) const REWRITTEN: [Change<'static>; 6] = [
    Change::Splice(
        METHOD,
        12,
        22,
        b"\x1C\x1D\x32\x31\x1F\x60\x08\x1E\x04\x32\x31\x70\x06\x1E\x05\x32\x31\x1E\x1F\x41\x78",
    ),
    Change::Splice(METHOD, 10, 12, b"\x03\x22"),
    Change::Splice(METHOD, 4, 6, b"\x03\x10"),
    Change::Byte(DESCRIPTOR, 39, 21),
    Change::Sized(
        INDEX,
        b"\x80\x00\x0A\x00\x02\x00\x00\x00\x02\x00\x0D\x00\x11",
    ),
    Change::Splice(
        DIRECTORY,
        35,
        36,
        b"\x01\x80\x00\x0A\x06\xF0\x6C\x65\x72\x6F\x79",
    ),
];

static ANSWERS: [Row; 11] = [
    (
        "verify T",
        Held::Changed(&REWRITTEN),
        "accepted 2 methods\n",
        0,
    ),
    // fourteen steps, the last of them the return
    (
        "run 14 0.1 T -- 5 0",
        Held::Changed(&REWRITTEN),
        "returned short 7\nstatic 0 short 7\n",
        0,
    ),
    (
        "run 13 0.1 T -- 5 0",
        Held::Changed(&REWRITTEN),
        "spent\nstatic 0 short 7\n",
        0,
    ),
    (
        "run 0 0.0 T -- 41",
        Held::Changed(&REWRITTEN),
        "spent\nstatic 0 short 7\n",
        0,
    ),
    // what a card does not accept is refused before the entry is looked for
    (
        "run 6 0.1 T -- 5 0",
        UNCHANGED,
        "refused package 0 method 0.1 place 2 StackAtBranch\n",
        1,
    ),
    (
        "run 6 0.2 T -- 5 0",
        UNCHANGED,
        "refused package 0 method 0.1 place 2 StackAtBranch\n",
        1,
    ),
    (
        "run 6 0.2 T -- 5 0",
        Held::Changed(&REWRITTEN),
        "not started NoEntry\n",
        7,
    ),
    (
        "run 6 0.1 T",
        Held::Changed(&REWRITTEN),
        "not started ArgCount 0 2\n",
        7,
    ),
    (
        "run 6 0.1 T -- 5 null",
        Held::Changed(&REWRITTEN),
        "not started ArgKind 1\n",
        7,
    ),
    (
        "run 6 0.1 E -- 5 0",
        UNCHANGED,
        "malformed package 0 MissingPart 1\n",
        7,
    ),
    ("run 6 0.1", UNCHANGED, "usage\n", 2),
];

#[test]
fn run_runs_an_entry_of_accepted_packages(rt: HostRuntime) -> Result<(), AllocError> {
    rows_hold(&rt, rt.alloc(), &ANSWERS)
}

/// Takes an array of bytes, puts 5 in its first element, and gives it.
const FIVE: [Change<'static>; 4] = [
    Change::Splice(METHOD, 12, 22, b"\x18\x03\x08\x38\x18\x77"),
    Change::Splice(METHOD, 10, 12, b"\x03\x10"),
    Change::Splice(DESCRIPTOR, 111, 114, b"\x02\xBB"),
    Change::Byte(DESCRIPTOR, 39, 6),
];

static LEAVING: [Leaving; 3] = [
    // before the return: method 1 at place 20, with one cell on its stack; its registers; that cell, in word 258
    (
        "run 13 0.1 T -- 5 0",
        Held::Changed(&REWRITTEN),
        (
            "spent\nstatic 0 short 7\n",
            0,
            (
                (0, &[1, 20, 1, 5, 0, 5, 2]),
                (0, &[0xA55A]),
                (0, &[7, 0xA55A]),
            ),
        ),
    ),
    (
        "run 13 0.1 T -- 5 0",
        Held::Changed(&REWRITTEN),
        (
            "spent\nstatic 0 short 7\n",
            0,
            ((258, &[7]), (12_288, &[0xA55A]), (0, &[7])),
        ),
    ),
    (
        "run 14 0.1 T -- 5 0",
        Held::Changed(&REWRITTEN),
        (
            "returned short 7\nstatic 0 short 7\n",
            0,
            ((0, &[]), (0, &[0xA55A]), (0, &[7])),
        ),
    ),
];

#[test]
fn run_leaves_the_words_of_frames_and_static_fields(rt: HostRuntime) -> Result<(), AllocError> {
    words_are_left(&rt, rt.alloc(), &LEAVING)
}

/// What a run leaves of the array that it was handed: the words of bytes, no cell before it, three elements; and the cells.
static ARRAYS: [Leaving; 2] = [
    (
        "run 6 0.1 T -- #0102ff",
        Held::Changed(&FIVE),
        (
            "returned reference 1\narray 1 byte 3 5 2 -1\nstatic 0 short 7\n",
            0,
            ((0, &[]), (0, &[0xF001, 0, 3]), (0, &[7])),
        ),
    ),
    (
        "run 6 0.1 T -- #0102ff",
        Held::Changed(&FIVE),
        (
            "returned reference 1\narray 1 byte 3 5 2 -1\nstatic 0 short 7\n",
            0,
            ((0, &[]), (12_288, &[5, 2, 65_535]), (0, &[7])),
        ),
    ),
];

#[test]
fn run_leaves_the_words_of_objects(rt: HostRuntime) -> Result<(), AllocError> {
    words_are_left(&rt, rt.alloc(), &ARRAYS)
}

/// Runs of package T with another second method. The first method of the package is accepted as it is.
static RUNS: [Row; 7] = [
    (
        "run 6 0.1 T -- #0102ff",
        Held::Second(FIRST_FIVE, false),
        "returned reference 1\narray 1 byte 3 5 2 -1\nstatic 0 short 7\n",
        0,
    ),
    // no element: the machine's own exception
    (
        "run 6 0.1 T -- #",
        Held::Second(FIRST_FIVE, false),
        "threw class 4 reference 2\nstatic 0 short 7\n",
        0,
    ),
    (
        "run 6 0.1 T -- null",
        Held::Second(FIRST_FIVE, false),
        "threw class 2 reference 1\nstatic 0 short 7\n",
        0,
    ),
    (
        "run 6 0.1 T -- #0",
        Held::Second(FIRST_FIVE, false),
        "usage\n",
        2,
    ),
    (
        "run 6 0.1 T -- 5",
        Held::Second(FIRST_FIVE, false),
        "not started ArgKind 0\n",
        7,
    ),
    // one number on the stack, and a sum: no fault is met, since the method is refused
    (
        "run 9 0.1 T -- 5 0",
        Held::Second((b"\x03\x44\x40", b"\x02\x20", b"\x04\x41\x78"), false),
        "refused package 0 method 0.1 place 1 Underflow\n",
        1,
    ),
    // the initial arrays leave no room for the array of the argument
    (
        "run 6 0.1 T -- #00",
        Held::Crowded(FIRST_FIVE),
        "not started ArgRoom 0\n",
        7,
    ),
];

#[test]
fn run_tells_arrays_and_exceptions(rt: HostRuntime) -> Result<(), AllocError> {
    rows_hold(&rt, rt.alloc(), &RUNS)
}

/// Runs of the package of calls, and what they print.
static CALLS: [Row; 4] = [
    (
        "run 9 1.1 I -- #00",
        Held::Calls,
        "interface missing class 1\n",
        0,
    ),
    ("run 9 1.2 I -- #00", Held::Calls, "returned short 5\n", 0),
    ("run 4 1.2 I -- #00", Held::Calls, "spent\n", 0),
    ("run 9 1.3 I", Held::Calls, "interface missing class 2\n", 0),
];

#[test]
fn run_finds_methods_of_interfaces_and_of_object(rt: HostRuntime) -> Result<(), AllocError> {
    rows_hold(&rt, rt.alloc(), &CALLS)
}
