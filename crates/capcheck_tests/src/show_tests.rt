use crate::filling::{Held, Kept, UNCHANGED};
use crate::rows::{FailingRow, Row, failures_are_told, rows_hold};
use crate::small_packages::{BELOW, CUT_METHOD};
use cap_bytes::Part;
use cap_tests::{
    APPLET, CLASS, CONSTANT_POOL, Change, DEBUG, DIRECTORY, EXPORT, HEADER, METHOD, OLDER,
};
use std::alloc::AllocError;

/// The component table of package T.
const TABLE: &str =
    "package f001020304 1.0 format 2.2\nHeader 1 16\nDirectory 2 33\nApplet 3 absent\nImport 4 1\nConstantPool 5 2\n\
     Class 6 82\nMethod 7 19\nStaticField 8 12\n\
     RefLocation 9 4\nExport 10 absent\nDescriptor 11 111\nDebug 12 absent\n";

/// That of package T with every component and two custom ones.
const WHOLE_TABLE: &str =
    "package f001020304 1.0 format 2.2\nHeader 1 16\nDirectory 2 51\nApplet 3 9\nImport 4 1\nConstantPool 5 2\n\
     Class 6 82\nMethod 7 19\nStaticField 8 12\n\
     RefLocation 9 4\nExport 10 9\nDescriptor 11 111\nDebug 12 4\nCustom130 130 2\nCustom129 129 3\n";

/// The component table of package T in format 2.1.
const OLDER_TABLE: &str =
    "package f001020304 1.0 format 2.1\nHeader 1 15\nDirectory 2 31\nApplet 3 absent\nImport 4 1\nConstantPool 5 2\n\
     Class 6 80\nMethod 7 19\nStaticField 8 12\n\
     RefLocation 9 4\nExport 10 absent\nDescriptor 11 111\nDebug 12 absent\n";

/// Parts that the Directory gives no size, and Debug, which are not read.
const UNREAD: [Change<'static>; 4] = [
    Change::File(APPLET, b"?"),
    Change::File(EXPORT, b"?"),
    Change::File(DEBUG, b"?"),
    Change::File(Part(128), b"?"),
];

/// What gives package T every component, Debug with a size alone, and two custom ones.
const EVERY: [Change<'static>; 7] = [
    Change::Splice(
        DIRECTORY,
        35,
        36,
        b"\x02\x82\x00\x02\x05\xF0\x01\x02\x03\x04\x81\x00\x03\x05\xF0\x01\x02\x03\x04",
    ),
    Change::Byte(DIRECTORY, 34, 1),
    Change::Byte(DIRECTORY, 26, 4),
    Change::Sized(APPLET, b"\x03\x00\x09\x01\x05\xF0\x01\x02\x03\x04\x00\x01"),
    Change::Sized(EXPORT, b"\x0A\x00\x09\x01\x00\x02\x01\x01\x00\x00\x00\x01"),
    Change::File(Part(130), b"\x82\x00\x02\x07\x09"),
    Change::File(Part(129), b"\x81\x00\x03\x01\x02\x03"),
];

static TABLES: [Row; 4] = [
    ("show T", UNCHANGED, TABLE, 0),
    ("show T", Held::Both(&OLDER, &[], &BELOW), OLDER_TABLE, 0),
    ("show T", Held::Changed(&UNREAD), TABLE, 0),
    ("show T", Held::Changed(&EVERY), WHOLE_TABLE, 0),
];

#[test]
fn show_prints_the_table_of_a_package(rt: HostRuntime) -> Result<(), AllocError> {
    rows_hold(&rt, rt.alloc(), &TABLES)
}

static MALFORMED: [Row; 10] = [
    // there is no format 2.3; with no format no size is asked, and no part that may be absent is loaded
    (
        "show T",
        Held::Changed(&[Change::Byte(HEADER, 7, 3)]),
        "malformed package 0 Form 1 7 BadVersion\n",
        7,
    ),
    (
        "show T",
        Held::Changed(&[
            Change::Byte(HEADER, 7, 3),
            Change::Size(APPLET, 9),
            Change::File(APPLET, b"?"),
        ]),
        "malformed package 0 Form 1 7 BadVersion\n",
        7,
    ),
    (
        "show T",
        Held::Changed(&[Change::File(HEADER, b"")]),
        "malformed package 0 Form 1 0 Cut\n",
        7,
    ),
    (
        "show T",
        Held::Changed(&[Change::Size(APPLET, 9), Change::Byte(DIRECTORY, 34, 1)]),
        "malformed package 0 MissingPart 3\n",
        7,
    ),
    (
        "show T",
        Held::Changed(&[Change::File(DIRECTORY, b"\x02\x00\x01\x00")]),
        "malformed package 0 Form 2 4 Cut\n",
        7,
    ),
    (
        "show T",
        Held::Changed(&[Change::File(CONSTANT_POOL, b"\x05\x00\x06\x00\x01\x01\x00\x00\x00")]),
        "malformed package 0 SizeDisagrees 5 2 6\n",
        7,
    ),
    (
        "show T",
        Held::Changed(&[Change::File(METHOD, &CUT_METHOD)]),
        "malformed package 0 Form 7 21 Cut\n",
        7,
    ),
    // the first of two parts that only the Directory tells of, and an empty folder
    (
        "show T",
        Held::Changed(&[Change::Size(APPLET, 9), Change::Size(EXPORT, 9)]),
        "malformed package 0 MissingPart 3\n",
        7,
    ),
    (
        "show E",
        Held::Nothing,
        "malformed package 0 MissingPart 1\n",
        7,
    ),
    // a Class component that is longer than any part
    (
        "show T",
        Held::TooLong(&[Change::File(DIRECTORY, b"")], CLASS),
        "malformed package 0 PartTooLong 6\n",
        7,
    ),
];

#[test]
fn show_names_what_is_wrong_with_the_package(rt: HostRuntime) -> Result<(), AllocError> {
    rows_hold(&rt, rt.alloc(), &MALFORMED)
}

/// Nine parts are loaded.
static FAILING: [FailingRow; 5] = [
    (Kept::Plain, ("show T", 1, 0, 0, "read fault\n", 3)),
    (Kept::Plain, ("show T", 9, 0, 0, "read fault\n", 3)),
    (Kept::Plain, ("show T", 10, 0, 0, TABLE, 0)),
    (Kept::Plain, ("show T", 0, 1, 0, "", 8)),
    (Kept::Plain, ("show T", 0, 1, 7, "package", 8)),
];

#[test]
fn show_names_the_device_that_fails(rt: HostRuntime) -> Result<(), AllocError> {
    failures_are_told(&rt, rt.alloc(), &FAILING)
}
