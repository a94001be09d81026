use crate::filling::{Held, Kept, ROLES, UNCHANGED};
use crate::rows::{FailingRow, Row, failures_are_told, rows_hold};
use crate::small_packages::{BELOW, CUT_METHOD, OLDER_BELOW};
use cap_tests::{
    Change, DESCRIPTOR, DIRECTORY, EXPORT, HEADER, IMPORT, METHOD, OLDER, PLAIN, PLAIN_ROLES,
};
use std::alloc::AllocError;

/// What makes package T export its first class.
pub(crate) const EXPORTING: [Change<'static>; 1] = [Change::Sized(
    EXPORT,
    b"\x0A\x00\x05\x01\x00\x02\x00\x00",
)];

/// What makes package T import package A0:00:00:00:62:00:01, version 1.0.
const IMPORTING: [Change<'static>; 2] = [
    Change::Byte(DIRECTORY, 33, 1),
    Change::Sized(
        IMPORT,
        b"\x04\x00\x0B\x01\x00\x01\x07\xA0\x00\x00\x00\x62\x00\x01",
    ),
];

static TYPED: [Row; 11] = [
    ("check T", UNCHANGED, "typed 2 methods\n", 0),
    // a class of a second package has a superclass
    ("check T U", UNCHANGED, "not linked NoSuper 8\n", 7),
    ("check", UNCHANGED, "usage\n", 2),
    ("check T --", UNCHANGED, "usage\n", 2),
    ("check V", UNCHANGED, "not linked OverrideType 1 1\n", 7),
    (
        "check E",
        UNCHANGED,
        "malformed package 0 MissingPart 1\n",
        7,
    ),
    (
        "check T E",
        UNCHANGED,
        "malformed package 1 MissingPart 1\n",
        7,
    ),
    (
        "check U",
        UNCHANGED,
        "malformed package 0 MissingPart 0\n",
        7,
    ),
    // the roles come before the second package
    (
        "check U E",
        UNCHANGED,
        "malformed package 0 MissingPart 0\n",
        7,
    ),
    (
        "check T T T T T T T T T T T T T T T T T",
        UNCHANGED,
        "not linked TooManyPackages 17\n",
        7,
    ),
    (
        "check T W",
        Held::Changed(&EXPORTING),
        "typed 1 methods\n",
        0,
    ),
];

#[test]
fn check_types_the_last_package(rt: HostRuntime) -> Result<(), AllocError> {
    rows_hold(&rt, rt.alloc(), &TYPED)
}

/// What makes package T in format 2.1 export its first class.
const OLDER_EXPORTING: [Change<'static>; 1] = [Change::Sized(
    EXPORT,
    b"\x0A\x00\x05\x01\x00\x00\x00\x00",
)];

static BOTH: [Row; 3] = [
    (
        "check T W",
        Held::Both(&OLDER, &OLDER_EXPORTING, &BELOW),
        "typed 1 methods\n",
        0,
    ),
    (
        "check T W",
        Held::Both(&PLAIN, &EXPORTING, &OLDER_BELOW),
        "typed 1 methods\n",
        0,
    ),
    (
        "check T W",
        Held::Both(&OLDER, &OLDER_EXPORTING, &OLDER_BELOW),
        "typed 1 methods\n",
        0,
    ),
];

#[test]
fn packages_of_both_formats_stand_in_one_world(rt: HostRuntime) -> Result<(), AllocError> {
    rows_hold(&rt, rt.alloc(), &BOTH)
}

static WRONG: [Row; 12] = [
    (
        "check T U",
        Held::Changed(&[Change::File(METHOD, &CUT_METHOD)]),
        "malformed package 0 Form 7 21 Cut\n",
        7,
    ),
    (
        "check T U",
        Held::Changed(&[Change::File(HEADER, b"")]),
        "malformed package 0 Form 1 0 Cut\n",
        7,
    ),
    (
        "check T U",
        Held::Packages(&PLAIN_ROLES, &[], &[Change::File(METHOD, &CUT_METHOD)]),
        "malformed package 1 Form 7 21 Cut\n",
        7,
    ),
    (
        "check T U",
        Held::Packages(&PLAIN_ROLES, &[], &IMPORTING),
        "not linked NoPackage 1 0\n",
        7,
    ),
    (
        "check T",
        Held::Changed(&[Change::Size(METHOD, 20)]),
        "malformed package 0 SizeDisagrees 7 20 19\n",
        7,
    ),
    // the bytecode_count of the first method, and of the second
    (
        "check T",
        Held::Changed(&[Change::Byte(DESCRIPTOR, 27, 5)]),
        "malformed package 0 MethodOverlaps 1 7\n",
        7,
    ),
    (
        "check T",
        Held::Changed(&[Change::Byte(DESCRIPTOR, 39, 11)]),
        "malformed package 0 MethodOutside 7\n",
        7,
    ),
    // the roles cut, too long, and with one that is no class
    (
        "check T U",
        Held::Packages(b"\x00\x01\x02\x03\x04\x05\x06", &[], &[]),
        "malformed package 0 Form 0 7 Cut\n",
        7,
    ),
    (
        "check T U",
        Held::Packages(b"\x00\x01\x02\x03\x04\x05\x06\x07\x08", &[], &[]),
        "malformed package 0 Form 0 8 Trailing\n",
        7,
    ),
    (
        "check T U",
        Held::Packages(b"\x08\x01\x02\x03\x04\x05\x06\x07", &[], &[]),
        "not linked NoRole 0\n",
        7,
    ),
    // roles and a Method component that are longer than any part
    (
        "check T U",
        Held::TooLong(&[], ROLES),
        "malformed package 0 PartTooLong 0\n",
        7,
    ),
    (
        "check T U",
        Held::TooLong(&[], METHOD),
        "malformed package 0 PartTooLong 7\n",
        7,
    ),
];

#[test]
fn check_names_what_is_wrong_with_the_packages(rt: HostRuntime) -> Result<(), AllocError> {
    rows_hold(&rt, rt.alloc(), &WRONG)
}

/// A check loads nine parts of each package, and the roles after those of the first.
static FAILING: [FailingRow; 8] = [
    (Kept::WithRoles, ("check T", 1, 0, 0, "read fault\n", 3)),
    (Kept::WithRoles, ("check T", 10, 0, 0, "read fault\n", 3)),
    (
        Kept::WithRoles,
        ("check T", 11, 0, 0, "typed 2 methods\n", 0),
    ),
    (Kept::WithRoles, ("check T T", 11, 0, 0, "read fault\n", 3)),
    (Kept::WithRoles, ("check T", 0, 1, 0, "", 8)),
    (
        Kept::WithRoles,
        ("run 6 0.1 T -- 5 0", 10, 0, 0, "read fault\n", 3),
    ),
    (Kept::WithRoles, ("run 6 0.1 T -- 5 0", 0, 1, 0, "", 8)),
    (
        Kept::WithRoles,
        (
            "check T T T T T T T T T T T T T T T T T",
            1,
            0,
            0,
            "not linked TooManyPackages 17\n",
            7,
        ),
    ),
];

#[test]
fn check_and_run_name_the_device_that_fails(rt: HostRuntime) -> Result<(), AllocError> {
    failures_are_told(&rt, rt.alloc(), &FAILING)
}
