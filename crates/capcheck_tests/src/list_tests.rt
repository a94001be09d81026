use crate::filling::{Held, Kept, UNCHANGED};
use crate::rows::{FailingRow, Row, failures_are_told, rows_hold};
use crate::small_packages::CUT_METHOD;
use cap_tests::{CLASS, Change, DIRECTORY, HANDLED, METHOD};
use std::alloc::AllocError;

/// The listing of package T.
pub(crate) const LISTING: &str =
    "method 0.0 stack 2 args 1 locals 0\n0 sload_0\n1 sconst_1\n2 sadd\n3 sreturn\nend\n\
     method 0.1 stack 2 args 2 locals 0\n0 sload_0\n1 sload_1\n2 ifeq 7\n4 sconst_1\n5 goto 8\n\
     7 sconst_2\n8 sadd\n9 sreturn\nend\n";

/// The same, where the second method ends with a byte that is no opcode.
const WITH_BYTES: &str =
    "method 0.0 stack 2 args 1 locals 0\n0 sload_0\n1 sconst_1\n2 sadd\n3 sreturn\nend\n\
     method 0.1 stack 2 args 2 locals 0\n0 sload_0\n1 sload_1\n2 ifeq 7\n4 sconst_1\n5 goto 8\n\
     7 sconst_2\n8 sadd\nbytes 9 ff\nend\n";

/// The same, where the second method has a handler.
pub(crate) const WITH_HANDLER: &str =
    "method 0.0 stack 2 args 1 locals 0\n0 sload_0\n1 sconst_1\n2 sadd\n3 sreturn\nend\n\
     method 0.1 stack 1 args 2 locals 1\n0 aload_0\n1 astore_2\n2 aload_1\n3 astore_2\n4 aload_2\n\
     5 athrow\n6 pop\n7 aload_2\n8 areturn\nhandler 2 6 6 0\nend\n";

static LISTINGS: [Row; 3] = [
    ("list T", UNCHANGED, LISTING, 0),
    (
        "list T",
        Held::Changed(&[Change::Byte(METHOD, 21, 0xFF)]),
        WITH_BYTES,
        0,
    ),
    ("list T", Held::Changed(&HANDLED), WITH_HANDLER, 0),
];

#[test]
fn list_prints_the_methods_of_a_package(rt: HostRuntime) -> Result<(), AllocError> {
    rows_hold(&rt, rt.alloc(), &LISTINGS)
}

static REFUSED: [Row; 6] = [
    ("list", UNCHANGED, "usage\n", 2),
    ("list --", UNCHANGED, "usage\n", 2),
    ("list T T", UNCHANGED, "usage\n", 2),
    (
        "list E",
        Held::Nothing,
        "malformed package 0 MissingPart 1\n",
        7,
    ),
    (
        "list T",
        Held::Changed(&[Change::File(METHOD, &CUT_METHOD)]),
        "malformed package 0 Form 7 21 Cut\n",
        7,
    ),
    (
        "list T",
        Held::TooLong(&[Change::File(DIRECTORY, b"")], CLASS),
        "malformed package 0 PartTooLong 6\n",
        7,
    ),
];

#[test]
fn list_names_what_is_wrong_with_words_and_package(rt: HostRuntime) -> Result<(), AllocError> {
    rows_hold(&rt, rt.alloc(), &REFUSED)
}

/// Nine parts are loaded.
static FAILING: [FailingRow; 5] = [
    (Kept::Plain, ("list T", 1, 0, 0, "read fault\n", 3)),
    (Kept::Plain, ("list T", 9, 0, 0, "read fault\n", 3)),
    (Kept::Plain, ("list T", 10, 0, 0, LISTING, 0)),
    (Kept::Plain, ("list T", 0, 1, 0, "", 8)),
    (Kept::Plain, ("list T", 0, 1, 6, "method", 8)),
];

#[test]
fn list_names_the_device_that_fails(rt: HostRuntime) -> Result<(), AllocError> {
    failures_are_told(&rt, rt.alloc(), &FAILING)
}
