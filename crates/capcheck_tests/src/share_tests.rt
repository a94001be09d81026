use crate::filling::{Held, Kept, UNCHANGED};
use crate::rows::{Answer, FailingRow, Row, Story, failures_are_told, rows_hold, stories_go_so};
use std::alloc::AllocError;

/// Package T whose second method moves its first argument from one local to another.
const MOVING: &str =
    "method 0.0 stack 2 args 1 locals 0\n0 sload_0\n1 sconst_1\n2 sadd\n3 sreturn\nend\n\
     method 0.1 stack 1 args 2 locals 2\n0 sload_0\n1 sstore_2\n2 sload_2\n3 sstore_3\n4 sload_3\n\
     5 sreturn\nend\n";

/// The same, where both locals share a register.
const MOVED: &str =
    "method 0.0 stack 2 args 1 locals 0\n0 sload_0\n1 sconst_1\n2 sadd\n3 sreturn\nend\n\
     method 0.1 stack 1 args 2 locals 1\n0 sload_0\n1 sstore_2\n2 sload_2\n3 sstore_2\n4 sload_2\n\
     5 sreturn\nend\n";

/// A second method that needs two locals at once.
const BOTH: &str =
    "method 0.0 stack 2 args 1 locals 0\n0 sload_0\n1 sconst_1\n2 sadd\n3 sreturn\nend\n\
     method 0.1 stack 2 args 2 locals 2\n0 sload_0\n1 sstore_2\n2 sload_1\n3 sstore_3\n4 sload_2\n\
     5 sload_3\n6 sadd\n7 sreturn\nend\n";

/// One with a local that is needed only where a handler begins.
const CAUGHT: &str =
    "method 0.0 stack 2 args 1 locals 0\n0 sload_0\n1 sconst_1\n2 sadd\n3 sreturn\nend\n\
     method 0.1 stack 2 args 2 locals 2\n0 sload_0\n1 sstore_2\n2 sload_1\n3 sstore_3\n4 sload_3\n\
     5 sload_0\n6 sdiv\n7 sreturn\n8 pop\n9 sload_2\n10 sreturn\nhandler 2 7 8 0\nend\n";

const OF_MOVING: [Answer; 8] = [
    ("asm A T", "assembled 2 methods\n", 0),
    ("share U A", "shared 2 methods 2 to 1 registers\n", 0),
    ("list U", MOVED, 0),
    ("verify U", "accepted 2 methods\n", 0),
    (
        "run 6 0.1 A -- 5 1",
        "returned short 5\nstatic 0 short 7\n",
        0,
    ),
    (
        "run 6 0.1 U -- 5 1",
        "returned short 5\nstatic 0 short 7\n",
        0,
    ),
    ("share A U", "shared 2 methods 1 to 1 registers\n", 0),
    ("list A", MOVED, 0),
];

const OF_BOTH: [Answer; 3] = [
    ("asm A T", "assembled 2 methods\n", 0),
    ("share U A", "shared 2 methods 2 to 2 registers\n", 0),
    ("list U", BOTH, 0),
];

const OF_CAUGHT: [Answer; 4] = [
    ("asm A T", "assembled 2 methods\n", 0),
    ("share U A", "shared 2 methods 2 to 2 registers\n", 0),
    ("list U", CAUGHT, 0),
    (
        "run 20 0.1 U -- 0 1",
        "returned short 0\nstatic 0 short 7\n",
        0,
    ),
];

/// Package T in the form for a card has two registers that are needed at once.
const OF_TRANSFORMED: [Answer; 4] = [
    ("transform U T", "transformed 2 methods\n", 0),
    ("share A U", "shared 2 methods 2 to 2 registers\n", 0),
    ("verify A", "accepted 2 methods\n", 0),
    (
        "share A T",
        "refused package 0 method 0.1 place 2 StackAtBranch\n",
        1,
    ),
];

static SHARED: [Story; 4] = [
    (Kept::Listing(MOVING), 0, 0, &OF_MOVING),
    (Kept::Listing(BOTH), 0, 0, &OF_BOTH),
    (Kept::Listing(CAUGHT), 0, 0, &OF_CAUGHT),
    (Kept::WithRoles, 0, 0, &OF_TRANSFORMED),
];

#[test]
fn locals_that_are_never_needed_together_share_registers(
    rt: HostRuntime,
) -> Result<(), AllocError> {
    stories_go_so(&rt, rt.alloc(), &SHARED)
}

static REFUSED: [Row; 8] = [
    ("share", UNCHANGED, "usage\n", 2),
    ("share U", UNCHANGED, "usage\n", 2),
    ("share -- T", UNCHANGED, "usage\n", 2),
    ("share U T --", UNCHANGED, "usage\n", 2),
    (
        "share X E",
        UNCHANGED,
        "malformed package 0 MissingPart 1\n",
        7,
    ),
    ("share X T T", UNCHANGED, "not linked NoSuper 8\n", 7),
    (
        "share X T",
        UNCHANGED,
        "refused package 0 method 0.1 place 2 StackAtBranch\n",
        1,
    ),
    (
        "share X T",
        Held::Nothing,
        "malformed package 0 MissingPart 1\n",
        7,
    ),
];

#[test]
fn share_names_what_is_wrong_with_words_and_packages(rt: HostRuntime) -> Result<(), AllocError> {
    rows_hold(&rt, rt.alloc(), &REFUSED)
}

/// Nine parts are loaded, and then the roles.
static FAILING: [FailingRow; 3] = [
    (Kept::WithRoles, ("share U T", 1, 0, 0, "read fault\n", 3)),
    (Kept::WithRoles, ("share U T", 9, 0, 0, "read fault\n", 3)),
    (Kept::WithRoles, ("share U T", 10, 0, 0, "read fault\n", 3)),
];

#[test]
fn share_names_the_load_that_fails(rt: HostRuntime) -> Result<(), AllocError> {
    failures_are_told(&rt, rt.alloc(), &FAILING)
}

/// Where a store of `share` fails, the Header is the last.
const BROKEN: [Answer; 4] = [
    ("asm A T", "assembled 2 methods\n", 0),
    ("share U A", "store fault\n", 4),
    ("show U", "malformed package 0 MissingPart 1\n", 7),
    ("share U A", "shared 2 methods 2 to 1 registers\n", 0),
];

/// The stores of `share`, which come after the eleven of `asm`: the first, one in the middle, and the last before the Header's.
static STORES: [Story; 3] = [
    (Kept::Listing(MOVING), 12, 0, &BROKEN),
    (Kept::Listing(MOVING), 16, 1, &BROKEN),
    (Kept::Listing(MOVING), 21, 0, &BROKEN),
];

#[test]
fn share_stores_the_header_last(rt: HostRuntime) -> Result<(), AllocError> {
    stories_go_so(&rt, rt.alloc(), &STORES)
}
