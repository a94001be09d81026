use crate::check_tests::EXPORTING;
use crate::filling::{Held, Kept, ROLES, keep};
use crate::rows::{Answer, Row, Story, rows_hold, stories_go_so};
use crate::run::{Failing, gives_failing};
use crate::run_tests::REWRITTEN;
use cap_bytes::Part;
use cap_files::{Folder, MemFolder};
use cap_package::OwnedParts;
use cap_tests::{Change, DESCRIPTOR, METHOD, PLAIN, PLAIN_ROLES, changed};
use std::alloc::{AllocError, Global};
use std::process::Abort;

/// Whether bytes that were loaded, where they were, are this file, or absent where there is none.
fn is_same(loaded: bool, found: &[u8], file: Option<&[u8]>) -> bool {
    match file {
        Some(file) => loaded && found == file,
        None => !loaded,
    }
}

/// Whether the part of folder `U` is this file, or absent where there is none.
pub(crate) fn is_file(
    alloc: Global,
    folder: &mut MemFolder,
    part: Part,
    file: Option<&[u8]>,
) -> Result<bool, AllocError> {
    let mut found = Vec::new(alloc);
    match folder.load(alloc, "U", part, &mut found) {
        Ok(loaded) => Ok(is_same(loaded, &found, file)),
        Err(_) => Ok(false),
    }
}

/// Whether folder `U` holds these parts and roles, and no others.
fn holds(
    alloc: Global,
    folder: &mut MemFolder,
    parts: &OwnedParts,
    roles: Option<&[u8]>,
) -> Result<bool, AllocError> {
    let mut same = is_file(alloc, folder, ROLES, roles)?;
    for tag in 1..=255u8 {
        same = is_file(alloc, folder, Part(tag), parts.get(Part(tag)))? && same;
    }
    Ok(same)
}

fn holds_nothing(alloc: Global, folder: &mut MemFolder) -> Result<bool, AllocError> {
    let nothing = OwnedParts::new(alloc);
    holds(alloc, folder, &nothing, None)
}

/// Whether folder `U` holds package T in the form that a card accepts.
fn holds_all(alloc: Global, folder: &mut MemFolder) -> Result<bool, AllocError> {
    let expected = changed(alloc, &PLAIN, &REWRITTEN)?;
    holds(alloc, folder, &expected, Some(&PLAIN_ROLES))
}

/// What a command over package T in `T` gives where devices fail, and whether it stores the package, or else nothing, in `U`.
type Storing = (Failing, bool);

fn stores_in(alloc: Global, folder: &mut MemFolder, storing: &Storing) -> Result<bool, AllocError> {
    let (failing, all) = storing;
    if !(keep(folder, &Kept::WithRoles) && gives_failing(alloc, folder, failing)?) {
        return Ok(false);
    }
    if *all {
        holds_all(alloc, folder)
    } else {
        holds_nothing(alloc, folder)
    }
}

fn stores_so(alloc: Global, storing: &Storing) -> Result<bool, AllocError> {
    let mut folder = MemFolder::new(alloc, 24, 2000)?;
    stores_in(alloc, &mut folder, storing)
}

/// The number of the first row whose command gives or stores something else.
fn first_not_stored(alloc: Global, rows: &'static [Storing]) -> Result<Option<usize>, AllocError> {
    for (n, storing) in rows.iter().enumerate() {
        if !stores_so(alloc, storing)? {
            return Ok(Some(n));
        }
    }
    Ok(None)
}

/// Asserts that each command gives and stores what its row says.
fn stores_are_made(
    rt: &impl Abort,
    alloc: Global,
    rows: &'static [Storing],
) -> Result<(), AllocError> {
    assert_eq!(rt; first_not_stored(alloc, rows)?, None);
    Ok(())
}

/// Words that are outside the grammar, packages that are refused, and each of the ten loads that fails.
static REFUSED: [Storing; 16] = [
    (("transform", 0, 0, 0, "usage\n", 2), false),
    (("transform U", 0, 0, 0, "usage\n", 2), false),
    (("transform -- T", 0, 0, 0, "usage\n", 2), false),
    (("transform U T --", 0, 0, 0, "usage\n", 2), false),
    (
        (
            "transform U U",
            0,
            0,
            0,
            "malformed package 0 MissingPart 1\n",
            7,
        ),
        false,
    ),
    (
        ("transform U T T", 0, 0, 0, "not linked NoSuper 8\n", 7),
        false,
    ),
    (("transform U T", 1, 0, 0, "read fault\n", 3), false),
    (("transform U T", 2, 0, 0, "read fault\n", 3), false),
    (("transform U T", 3, 0, 0, "read fault\n", 3), false),
    (("transform U T", 4, 0, 0, "read fault\n", 3), false),
    (("transform U T", 5, 0, 0, "read fault\n", 3), false),
    (("transform U T", 6, 0, 0, "read fault\n", 3), false),
    (("transform U T", 7, 0, 0, "read fault\n", 3), false),
    (("transform U T", 8, 0, 0, "read fault\n", 3), false),
    (("transform U T", 9, 0, 0, "read fault\n", 3), false),
    (("transform U T", 10, 0, 0, "read fault\n", 3), false),
];

#[test]
fn transform_stores_nothing_where_it_refuses(rt: HostRuntime) -> Result<(), AllocError> {
    stores_are_made(&rt, rt.alloc(), &REFUSED)
}

/// What is received where the one put of the text fails after so many bytes; a second put does not come.
static STORED: [Storing; 5] = [
    (
        ("transform U T", 0, 0, 0, "transformed 2 methods\n", 0),
        true,
    ),
    (("transform U T", 0, 1, 0, "", 8), true),
    (("transform U T", 0, 1, 5, "trans", 8), true),
    (
        ("transform U T", 0, 1, 21, "transformed 2 methods", 8),
        true,
    ),
    (
        ("transform U T", 0, 2, 0, "transformed 2 methods\n", 0),
        true,
    ),
];

#[test]
fn transform_stores_the_package_and_then_puts_the_text(rt: HostRuntime) -> Result<(), AllocError> {
    stores_are_made(&rt, rt.alloc(), &STORED)
}

/// A header that gives the first method of package T a stack of 255 cells.
const FULL_HEADER: Change<'static> = Change::Splice(METHOD, 4, 6, b"\x80\xFF\x01\x00");

/// The place of the second method after it.
const SECOND_AT: Change<'static> = Change::Byte(DESCRIPTOR, 35, 9);

/// What gives the first method such a stack.
const FULL: [Change<'static>; 2] = [FULL_HEADER, SECOND_AT];

/// The same, where the second method takes two cells of a stack of one.
const FULL_AND_UNTYPED: [Change<'static>; 4] = [
    Change::Splice(METHOD, 12, 22, b"\x04\x41\x78"),
    Change::Byte(DESCRIPTOR, 39, 3),
    FULL_HEADER,
    SECOND_AT,
];

/// The libraries are asked first, then all typings, and only then the limits.
static STOPPED: [Row; 3] = [
    (
        "transform X T W",
        Held::Changed(&EXPORTING),
        "refused package 0 method 0.1 place 2 StackAtBranch\n",
        1,
    ),
    (
        "transform X T",
        Held::Changed(&FULL_AND_UNTYPED),
        "refused package 0 method 0.1 place 1 Underflow\n",
        1,
    ),
    (
        "transform X T",
        Held::Changed(&FULL),
        "limit method 0.0 StackLimit\n",
        5,
    ),
];

#[test]
fn transform_tells_what_stops_it(rt: HostRuntime) -> Result<(), AllocError> {
    rows_hold(&rt, rt.alloc(), &STOPPED)
}

/// Where no store fails.
const ACCEPTED: [Answer; 2] = [
    ("transform U T", "transformed 2 methods\n", 0),
    ("verify U", "accepted 2 methods\n", 0),
];

/// Where a store fails before that of the Header, and then at once again.
const WITHOUT_HEADER: [Answer; 4] = [
    ("transform U T", "store fault\n", 4),
    ("verify U", "malformed package 0 MissingPart 1\n", 7),
    ("transform U T", "transformed 2 methods\n", 0),
    ("verify U", "accepted 2 methods\n", 0),
];

/// Where the store of the Header fails and keeps no byte.
const EMPTY_HEADER: [Answer; 4] = [
    ("transform U T", "store fault\n", 4),
    ("verify U", "malformed package 0 Form 1 0 Cut\n", 7),
    ("transform U T", "transformed 2 methods\n", 0),
    ("verify U", "accepted 2 methods\n", 0),
];

/// Where it keeps one byte.
const CUT_HEADER: [Answer; 4] = [
    ("transform U T", "store fault\n", 4),
    ("verify U", "malformed package 0 Form 1 1 Cut\n", 7),
    ("transform U T", "transformed 2 methods\n", 0),
    ("verify U", "accepted 2 methods\n", 0),
];

/// No store fails, or each of the eleven, with no byte and with one byte kept; the last is that of the Header.
static STORES: [Story; 23] = [
    (Kept::WithRoles, 0, 0, &ACCEPTED),
    (Kept::WithRoles, 1, 0, &WITHOUT_HEADER),
    (Kept::WithRoles, 1, 1, &WITHOUT_HEADER),
    (Kept::WithRoles, 2, 0, &WITHOUT_HEADER),
    (Kept::WithRoles, 2, 1, &WITHOUT_HEADER),
    (Kept::WithRoles, 3, 0, &WITHOUT_HEADER),
    (Kept::WithRoles, 3, 1, &WITHOUT_HEADER),
    (Kept::WithRoles, 4, 0, &WITHOUT_HEADER),
    (Kept::WithRoles, 4, 1, &WITHOUT_HEADER),
    (Kept::WithRoles, 5, 0, &WITHOUT_HEADER),
    (Kept::WithRoles, 5, 1, &WITHOUT_HEADER),
    (Kept::WithRoles, 6, 0, &WITHOUT_HEADER),
    (Kept::WithRoles, 6, 1, &WITHOUT_HEADER),
    (Kept::WithRoles, 7, 0, &WITHOUT_HEADER),
    (Kept::WithRoles, 7, 1, &WITHOUT_HEADER),
    (Kept::WithRoles, 8, 0, &WITHOUT_HEADER),
    (Kept::WithRoles, 8, 1, &WITHOUT_HEADER),
    (Kept::WithRoles, 9, 0, &WITHOUT_HEADER),
    (Kept::WithRoles, 9, 1, &WITHOUT_HEADER),
    (Kept::WithRoles, 10, 0, &WITHOUT_HEADER),
    (Kept::WithRoles, 10, 1, &WITHOUT_HEADER),
    (Kept::WithRoles, 11, 0, &EMPTY_HEADER),
    (Kept::WithRoles, 11, 1, &CUT_HEADER),
];

#[test]
fn a_card_accepts_what_is_stored_unless_a_store_fails(rt: HostRuntime) -> Result<(), AllocError> {
    stories_go_so(&rt, rt.alloc(), &STORES)
}
