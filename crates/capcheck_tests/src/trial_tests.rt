use crate::filling::{Held, UNCHANGED};
use crate::rows::{Leaving, Row, rows_hold, words_are_left};
use crate::run_tests::REWRITTEN;
use cap_tests::HANDLED;
use std::alloc::AllocError;

static ANSWERS: [Row; 10] = [
    (
        "trial 10 0.1 T -- 5 1",
        UNCHANGED,
        "source\nreturned short 6\nstatic 0 short 7\ntarget\nreturned short 6\nstatic 0 short 7\n",
        0,
    ),
    (
        "trial 10 0.1 T -- 5 0",
        UNCHANGED,
        "source\nreturned short 7\nstatic 0 short 7\ntarget\nreturned short 7\nstatic 0 short 7\n",
        0,
    ),
    // the second run has 2,000 steps for each of the first
    (
        "trial 1 0.1 T -- 5 1",
        UNCHANGED,
        "source\nspent\nstatic 0 short 7\ntarget\nreturned short 6\nstatic 0 short 7\n",
        0,
    ),
    (
        "trial 0 0.1 T -- 5 1",
        UNCHANGED,
        "source\nspent\nstatic 0 short 7\ntarget\nspent\nstatic 0 short 7\n",
        0,
    ),
    // a package that a card accepts as it is
    (
        "trial 14 0.1 T -- 5 0",
        Held::Changed(&REWRITTEN),
        "source\nreturned short 7\nstatic 0 short 7\ntarget\nreturned short 7\nstatic 0 short 7\n",
        0,
    ),
    // an argument of null is copied into the local, and thrown: the machine's own exception is caught
    (
        "trial 100 0.1 T -- null null",
        Held::Changed(&HANDLED),
        "source\nreturned null\nstatic 0 short 7\ntarget\nreturned null\nstatic 0 short 7\n",
        0,
    ),
    ("trial 10 0.2 T", UNCHANGED, "not started NoEntry\n", 7),
    (
        "trial 10 0.1 T -- 5 null",
        UNCHANGED,
        "not started ArgKind 1\n",
        7,
    ),
    (
        "trial 10 0.1 E -- 5 0",
        UNCHANGED,
        "malformed package 0 MissingPart 1\n",
        7,
    ),
    ("trial 10 0.1", UNCHANGED, "usage\n", 2),
];

#[test]
fn trial_tells_both_runs(rt: HostRuntime) -> Result<(), AllocError> {
    rows_hold(&rt, rt.alloc(), &ANSWERS)
}

/// The memory of the card has what the second run leaves: its frame is popped, and the static field stands in its word.
static LEAVING: [Leaving; 2] = [
    (
        "trial 10 0.1 T -- 5 0",
        UNCHANGED,
        (
            "source\nreturned short 7\nstatic 0 short 7\ntarget\nreturned short 7\nstatic 0 short 7\n",
            0,
            ((0, &[]), (0, &[0xA55A]), (0, &[7, 0xA55A])),
        ),
    ),
    // method 1 waits at its first place with its two arguments
    (
        "trial 0 0.1 T -- 5 0",
        UNCHANGED,
        (
            "source\nspent\nstatic 0 short 7\ntarget\nspent\nstatic 0 short 7\n",
            0,
            ((0, &[1, 0, 0, 5, 0]), (0, &[0xA55A]), (0, &[7])),
        ),
    ),
];

#[test]
fn trial_leaves_the_words_of_the_second_run(rt: HostRuntime) -> Result<(), AllocError> {
    words_are_left(&rt, rt.alloc(), &LEAVING)
}
