use crate::filling::Held;
use crate::rows::{Row, rows_hold};
use cap_tests::{
    CLASS, CONSTANT_POOL, Change, DESCRIPTOR, DIRECTORY, EXPORT, File, HEADER, IMPORT, METHOD,
    PLAIN, REF_LOCATION, STATIC_FIELD,
};
use std::alloc::AllocError;

/// A package of one class, whose static method hands its short to the static method that package T exports.
pub(crate) const CALLER: [File<'static>; 9] = [
    (
        HEADER,
        b"\x01\x00\x10\xDE\xCA\xFF\xED\x02\x02\x00\x00\x01\x05\xF0\x01\x02\x03\x05\x00",
    ),
    (
        DIRECTORY,
        b"\x02\x00\x21\x00\x10\x00\x21\x00\x00\x00\x09\x00\x06\x00\x0C\x00\x08\x00\x0A\x00\x04\
          \x00\x00\x00\x1C\x00\x00\x00\x00\x00\x00\x00\x00\x01\x00\x00",
    ),
    (IMPORT, b"\x04\x00\x09\x01\x00\x01\x05\xF0\x01\x02\x03\x04"),
    (CONSTANT_POOL, b"\x05\x00\x06\x00\x01\x06\x80\x00\x00"),
    (
        CLASS,
        b"\x06\x00\x0C\x00\x00\x00\x80\x00\x00\xFF\x00\x00\x00\x00\x00",
    ),
    (METHOD, b"\x07\x00\x08\x00\x01\x10\x1C\x8D\x00\x00\x78"),
    (
        STATIC_FIELD,
        b"\x08\x00\x0A\x00\x00\x00\x00\x00\x00\x00\x00\x00\x00",
    ),
    (REF_LOCATION, b"\x09\x00\x04\x00\x00\x00\x00"),
    (
        DESCRIPTOR,
        b"\x0B\x00\x1C\x01\x00\x00\x00\x02\x00\x00\x00\x00\x01\x00\x08\x00\x01\x00\x04\x00\x05\
          \x00\x00\x00\x00\x00\x01\x00\x04\x02\x44",
    ),
];

/// What makes package T export its first class with its first method.
pub(crate) const EXPORTED: Change<'static> = Change::Sized(
    EXPORT,
    b"\x0A\x00\x07\x01\x00\x02\x00\x01\x00\x01",
);

/// The method that is called adds null to its short, and not one.
const UNTYPED: Held = Held::Both(&PLAIN, &[EXPORTED, Change::Byte(METHOD, 7, 0x01)], &CALLER);

const MENDED: Held = Held::Both(&PLAIN, &[EXPORTED], &CALLER);

/// A method that nobody checked faults below one that is typed; where each package is checked with those before it, none does.
static CHECKED: [Row; 6] = [
    ("check T W", UNTYPED, "typed 1 methods\n", 0),
    (
        "check T",
        UNTYPED,
        "refused package 0 method 0.0 place 2 Mismatch found null wanted short\n",
        1,
    ),
    (
        "defend 9 0.0 T W -- 41",
        UNTYPED,
        "fault type\nstatic 0 short 7\n",
        0,
    ),
    ("check T W", MENDED, "typed 1 methods\n", 0),
    ("check T", MENDED, "typed 2 methods\n", 0),
    (
        "defend 9 0.0 T W -- 41",
        MENDED,
        "returned short 42\nstatic 0 short 7\n",
        0,
    ),
];

#[test]
fn each_package_is_checked_with_those_before(rt: HostRuntime) -> Result<(), AllocError> {
    rows_hold(&rt, rt.alloc(), &CHECKED)
}
