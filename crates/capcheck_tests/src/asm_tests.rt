use crate::filling::{Kept, LISTED, ROLES, UNCHANGED, put_package, put_with_roles};
use crate::list_tests::{LISTING, WITH_HANDLER};
use crate::rows::{Answer, FailingRow, Row, Story, failures_are_told, rows_hold, stories_go_so};
use crate::run::gives;
use cap_bytes::Part;
use cap_files::{Folder, SureFolder};
use cap_tests::{
    CLASS, Change, DEBUG, DESCRIPTOR, HANDLED, HEADER, METHOD, PLAIN, PLAIN_METHOD, PLAIN_ROLES,
};
use std::alloc::{AllocError, Global};

/// Package T with its roles in `T`.
fn put_plain(alloc: Global, folder: &mut SureFolder) -> Result<bool, AllocError> {
    put_with_roles(alloc, folder, "T", &PLAIN, &[], &PLAIN_ROLES)
}

/// Whether `asm` gives this text and this status over package T with a listing.
fn is_judged(
    alloc: Global,
    folder: &mut SureFolder,
    listing: &[u8],
    text: &str,
    status: u8,
) -> Result<bool, AllocError> {
    Ok(folder.set("T", LISTED, listing) && gives(alloc, "asm X T", folder, text, status)?)
}

/// The first line of the first method of package T.
const HEAD: &[u8] = b"method 0.0 stack 2 args 1 locals 0\n";

/// A listing, and the line with which it begins none.
type Broken = (&'static [u8], u32);

/// Texts that are no listings.
static TEXTS: [Broken; 29] = [
    (b"\n", 1),
    (b" ", 1),
    (b"\xFF\n", 1),
    (b"end\n", 1),
    (b"0 nop\n", 1),
    (b"bytes 0 ff\n", 1),
    (b"handler 0 0 0 0\n", 1),
    (b"method 0.0 stack 2 args 1 locals 0", 1),
    (b"method 0.0 stack 2 args 1 locals 0\r\nend\r\n", 1),
    (b"method 0.0 stack  2 args 1 locals 0\nend\n", 1),
    (b" method 0.0 stack 2 args 1 locals 0\nend\n", 1),
    (b"method 0.0 stack 2 args 1 locals 0 \nend\n", 1),
    (b"method\t0.0 stack 2 args 1 locals 0\nend\n", 1),
    (b"Method 0.0 stack 2 args 1 locals 0\nend\n", 1),
    (b"method 0.00 stack 2 args 1 locals 0\nend\n", 1),
    (b"method 00.0 stack 2 args 1 locals 0\nend\n", 1),
    (b"method 0.0 stack +2 args 1 locals 0\nend\n", 1),
    (b"method 0.0 stack -2 args 1 locals 0\nend\n", 1),
    (b"method 0.0 stack 256 args 1 locals 0\nend\n", 1),
    (b"method 0.0 stack 2 args 256 locals 0\nend\n", 1),
    (b"method 0.0 stack 2 args 1 locals 256\nend\n", 1),
    (b"method 65536.0 stack 2 args 1 locals 0\nend\n", 1),
    (b"method 0.65536 stack 2 args 1 locals 0\nend\n", 1),
    (b"method 0 stack 2 args 1 locals 0\nend\n", 1),
    (b"method 0.0.0 stack 2 args 1 locals 0\nend\n", 1),
    (b"method 0.0 args 1 stack 2 locals 0\nend\n", 1),
    (b"method 0.0 stack 2 args 1\nend\n", 1),
    (b"method 0.0 stack 2 args 1 locals 0 0\nend\n", 1),
    // package T's, with a constant in its second method that no instruction pushes
    (
        b"method 0.0 stack 2 args 1 locals 0\n0 sload_0\n1 sconst_1\n2 sadd\n3 sreturn\nend\n\
          method 0.1 stack 2 args 2 locals 0\n0 sload_0\n1 sload_1\n2 ifeq 7\n4 sconst_9\n5 goto 8\n\
          7 sconst_2\n8 sadd\n9 sreturn\nend\n",
        11,
    ),
];

/// The same after the first line of a method.
static BODIES: [Broken; 64] = [
    (b"", 2),
    (b"end", 2),
    (b"End\n", 2),
    (b"end \n", 2),
    (b" end\n", 2),
    (b"end\n\n", 3),
    (b"end\nend\n", 3),
    (b"end\nhandler 0 0 0 0\n", 3),
    (b"end\n0 nop\nend\n", 3),
    (b"\nend\n", 2),
    (b"method 0.1 stack 2 args 2 locals 0\nend\n", 2),
    (b"0 nop", 2),
    (b"0 nop\n1 nop\n", 4),
    (b"1 nop\nend\n", 2),
    (b"0 nop\n2 nop\nend\n", 3),
    (b"0 nop\n0 nop\nend\n", 3),
    (b"00 nop\nend\n", 2),
    (b"+0 nop\nend\n", 2),
    (b"-0 nop\nend\n", 2),
    (b"0  nop\nend\n", 2),
    (b" 0 nop\nend\n", 2),
    (b"0 nop \nend\n", 2),
    (b"0 nop\r\nend\n", 2),
    (b"0 NOP\nend\n", 2),
    (b"0 no\nend\n", 2),
    (b"0 jsr 3\nend\n", 2),
    (b"0 sconst_9\nend\n", 2),
    (b"0 nop 0\nend\n", 2),
    (b"0 bspush\nend\n", 2),
    (b"0 bspush 1 1\nend\n", 2),
    (b"0 bspush 01\nend\n", 2),
    (b"0 bspush -0\nend\n", 2),
    (b"0 bspush 128\nend\n", 2),
    (b"0 bspush -129\nend\n", 2),
    (b"0 sspush 32768\nend\n", 2),
    (b"0 iipush 2147483648\nend\n", 2),
    (b"0 sload 256\nend\n", 2),
    (b"0 sload -1\nend\n", 2),
    (b"0 goto 128\nend\n", 2),
    (b"0 goto -129\nend\n", 2),
    (b"0 goto_w 32768\nend\n", 2),
    (b"0 stableswitch 0 0 1 5\nend\n", 2),
    (b"0 stableswitch 0 0 1 5 6 7\nend\n", 2),
    (b"0 stableswitch 0 1 0\nend\n", 2),
    (b"0 slookupswitch 0 2 1 5\nend\n", 2),
    (b"0 slookupswitch 0 2 1 5 0 5\nend\n", 2),
    (b"0 slookupswitch 0 2 1 5 1 5\nend\n", 2),
    (b"bytes 0 FF\nend\n", 2),
    (b"bytes 0 f\nend\n", 2),
    (b"bytes 0 fg\nend\n", 2),
    (b"bytes 0 \nend\n", 2),
    (b"bytes 0\nend\n", 2),
    (b"bytes 1 ff\nend\n", 2),
    (b"bytes 0 00\nend\n", 2),
    (b"bytes 0 ff ff\nend\n", 2),
    (b"bytes 0 ff\n1 nop\nend\n", 3),
    (b"bytes 0 ff\nbytes 1 ff\nend\n", 3),
    (b"0 nop\nbytes 0 ff\nend\n", 3),
    (b"handler 0 0 0\nend\n", 2),
    (b"handler 0 0 0 0 0\nend\n", 2),
    (b"handler 1 0 0 0\nend\n", 2),
    (b"handler 0 65536 0 0\nend\n", 2),
    (b"handler 0 0 0 65536\nend\n", 2),
    (b"handler 0 0 0 0\n0 nop\nend\n", 3),
];

/// A text after some first bytes.
fn with_head(alloc: Global, head: &[u8], text: &[u8]) -> Result<Vec<u8>, AllocError> {
    let mut whole = Vec::from_slice(alloc, head)?;
    whole.extend_from_slice(text)?;
    Ok(whole)
}

/// Whether a text is told to be no listing from this line on.
fn is_broken(
    alloc: Global,
    folder: &mut SureFolder,
    listing: &[u8],
    line: u32,
) -> Result<bool, AllocError> {
    let text = format!(in alloc; "malformed package 0 NotListing {line}\n")?;
    is_judged(alloc, folder, listing, &text, 7)
}

/// The number of the first row that, after some first bytes, is told otherwise.
fn first_unbroken_in(
    alloc: Global,
    folder: &mut SureFolder,
    head: &[u8],
    rows: &'static [Broken],
) -> Result<Option<usize>, AllocError> {
    for (n, (text, line)) in rows.iter().enumerate() {
        let listing = with_head(alloc, head, text)?;
        if !is_broken(alloc, folder, &listing, *line)? {
            return Ok(Some(n));
        }
    }
    Ok(None)
}

fn first_unbroken(
    alloc: Global,
    head: &[u8],
    rows: &'static [Broken],
) -> Result<Option<usize>, AllocError> {
    let mut folder = SureFolder::new(alloc, 12, 3000)?;
    if !put_plain(alloc, &mut folder)? {
        return Ok(Some(rows.len()));
    }
    first_unbroken_in(alloc, &mut folder, head, rows)
}

#[test]
fn asm_names_the_first_line_of_a_text_that_begins_no_listing(
    rt: HostRuntime,
) -> Result<(), AllocError> {
    assert_eq!(rt; first_unbroken(rt.alloc(), b"", &TEXTS)?, None);
    Ok(())
}

#[test]
fn asm_names_the_first_line_of_a_method_that_begins_no_listing(
    rt: HostRuntime,
) -> Result<(), AllocError> {
    assert_eq!(rt; first_unbroken(rt.alloc(), HEAD, &BODIES)?, None);
    Ok(())
}

/// Listings of other methods than those of package T, or of such that may not stand in their place.
static MISFITS: [(&[u8], &str); 15] = [
    (b"", "OtherMethod 0"),
    (
        b"method 0.1 stack 2 args 2 locals 0\nend\n",
        "OtherMethod 0",
    ),
    (
        b"method 1.0 stack 2 args 1 locals 0\nend\n",
        "OtherMethod 0",
    ),
    (
        b"method 0.0 stack 2 args 2 locals 0\nend\n",
        "OtherMethod 0",
    ),
    (
        b"method 0.0 stack 2 args 1 locals 0\nend\n",
        "OtherMethod 1",
    ),
    // what is odd, but a listing
    (
        b"method 0.0 stack 255 args 1 locals 255\n0 bspush -128\n2 goto 129\n4 goto -124\nbytes 6 ff\n\
          handler 65535 65535 65535 65535\nend\n",
        "OtherMethod 1",
    ),
    // one method twice
    (
        b"method 0.0 stack 2 args 1 locals 0\nend\nmethod 0.0 stack 2 args 1 locals 0\nend\n",
        "OtherMethod 1",
    ),
    (
        b"method 0.0 stack 2 args 1 locals 0\nend\nmethod 0.1 stack 2 args 2 locals 0\nend\n\
          method 0.2 stack 2 args 2 locals 0\nend\n",
        "OtherMethod 2",
    ),
    (
        b"method 0.0 stack 2 args 1 locals 0\nend\nmethod 0.1 stack 2 args 2 locals 254\nend\n",
        "Registers 1 256",
    ),
    // the handler of a later method before the code of an earlier one
    (
        b"method 0.0 stack 2 args 1 locals 0\nend\n\
          method 0.1 stack 2 args 2 locals 0\n0 nop\nhandler 0 1 0 0\nhandler 0 2 0 0\nend\n",
        "HandlerRange 1 1",
    ),
    (
        b"method 0.0 stack 2 args 1 locals 0\n0 nop\nend\n\
          method 0.1 stack 2 args 2 locals 0\n0 nop\nhandler 0 1 0 0\nhandler 0 2 0 0\nend\n",
        "HandlerRange 1 1",
    ),
    (
        b"method 0.0 stack 2 args 1 locals 0\n0 nop\nend\n\
          method 0.1 stack 2 args 2 locals 0\n0 nop\nhandler 0 1 1 0\nend\n",
        "HandlerRange 1 0",
    ),
    (
        b"method 0.0 stack 2 args 1 locals 0\nend\nmethod 0.1 stack 2 args 2 locals 0\nend\n",
        "CodeLength 0 0",
    ),
    (
        b"method 0.0 stack 2 args 1 locals 0\n0 nop\nend\nmethod 0.1 stack 2 args 2 locals 0\nend\n",
        "CodeLength 1 0",
    ),
    (
        b"method 0.0 stack 2 args 1 locals 255\n0 nop\nend\nmethod 0.1 stack 2 args 2 locals 0\nend\n",
        "Registers 0 256",
    ),
];

/// Whether a listing is told to be wrong in place of the methods of package T.
fn is_misfit(
    alloc: Global,
    folder: &mut SureFolder,
    listing: &[u8],
    fault: &str,
) -> Result<bool, AllocError> {
    let text = format!(in alloc; "malformed package 0 {fault}\n")?;
    is_judged(alloc, folder, listing, &text, 7)
}

fn first_fitting_in(alloc: Global, folder: &mut SureFolder) -> Result<Option<usize>, AllocError> {
    for (n, (listing, fault)) in MISFITS.iter().enumerate() {
        if !is_misfit(alloc, folder, listing, fault)? {
            return Ok(Some(n));
        }
    }
    Ok(None)
}

/// The number of the first listing that is told otherwise.
fn first_fitting(alloc: Global) -> Result<Option<usize>, AllocError> {
    let mut folder = SureFolder::new(alloc, 12, 3000)?;
    if !put_plain(alloc, &mut folder)? {
        return Ok(Some(MISFITS.len()));
    }
    first_fitting_in(alloc, &mut folder)
}

#[test]
fn asm_names_the_first_method_that_does_not_fit(rt: HostRuntime) -> Result<(), AllocError> {
    assert_eq!(rt; first_fitting(rt.alloc())?, None);
    Ok(())
}

/// How many of the bytes are line feeds.
fn feeds_in(text: &[u8]) -> u32 {
    let mut feeds = 0u32;
    for byte in text {
        if *byte == b'\n' {
            feeds = feeds.wrapping_add(1);
        }
    }
    feeds
}

/// Whether the first bytes of the listing of package T are told to be no listing from their last line on, or, where they
/// are that of its first method or none, to lack a method.
fn cut_is_told(alloc: Global, folder: &mut SureFolder, cut: &[u8]) -> Result<bool, AllocError> {
    match feeds_in(cut) {
        0 if cut.is_empty() => is_misfit(alloc, folder, cut, "OtherMethod 0"),
        6 if cut.ends_with(b"\n") => is_misfit(alloc, folder, cut, "OtherMethod 1"),
        feeds => is_broken(alloc, folder, cut, feeds.wrapping_add(1)),
    }
}

fn first_untold_in(alloc: Global, folder: &mut SureFolder) -> Result<Option<usize>, AllocError> {
    let whole = LISTING.as_bytes();
    for length in 0..whole.len() {
        if !cut_is_told(alloc, folder, &whole[..length])? {
            return Ok(Some(length));
        }
    }
    Ok(None)
}

/// The length of the first beginning of the listing that is told otherwise.
fn first_untold(alloc: Global) -> Result<Option<usize>, AllocError> {
    let mut folder = SureFolder::new(alloc, 12, 3000)?;
    if !put_plain(alloc, &mut folder)? {
        return Ok(Some(LISTING.len()));
    }
    first_untold_in(alloc, &mut folder)
}

#[test]
fn asm_takes_no_shorter_beginning_of_a_listing(rt: HostRuntime) -> Result<(), AllocError> {
    assert_eq!(rt; first_untold(rt.alloc())?, None);
    Ok(())
}

/// Whether the part of folder `X` is this file, or absent where there is none.
fn is_stored(
    alloc: Global,
    folder: &mut SureFolder,
    part: Part,
    file: Option<&[u8]>,
) -> Result<bool, AllocError> {
    let mut found = Vec::new(alloc);
    match folder.load(alloc, "X", part, &mut found) {
        Ok(loaded) => Ok(match file {
            Some(file) => loaded && found.as_slice() == file,
            None => !loaded,
        }),
        Err(_) => Ok(false),
    }
}

/// Whether a package, with the listing of its methods beside it, is assembled, and what is stored is listed so too.
fn comes_back_in(
    alloc: Global,
    folder: &mut SureFolder,
    listing: &str,
) -> Result<bool, AllocError> {
    Ok(
        gives(alloc, "list T", folder, listing, 0)?
            && is_judged(
                alloc,
                folder,
                listing.as_bytes(),
                "assembled 2 methods\n",
                0,
            )?
            && gives(alloc, "list X", folder, listing, 0)?
            && is_stored(alloc, folder, ROLES, Some(&PLAIN_ROLES))?
            && is_stored(alloc, folder, LISTED, None)?
            && is_stored(alloc, folder, DEBUG, None)?,
    )
}

fn comes_back(alloc: Global, changes: &[Change<'_>], listing: &str) -> Result<bool, AllocError> {
    let mut folder = SureFolder::new(alloc, 24, 6000)?;
    Ok(
        put_with_roles(alloc, &mut folder, "T", &PLAIN, changes, &PLAIN_ROLES)?
            && comes_back_in(alloc, &mut folder, listing)?,
    )
}

#[test]
fn asm_stores_the_methods_that_were_listed(rt: HostRuntime) -> Result<(), AllocError> {
    assert!(rt; comes_back(rt.alloc(), &[], LISTING)?);
    Ok(())
}

#[test]
fn asm_stores_handlers_too(rt: HostRuntime) -> Result<(), AllocError> {
    assert!(rt; comes_back(rt.alloc(), &HANDLED, WITH_HANDLER)?);
    Ok(())
}

/// Whether package T comes back byte for byte.
fn is_same_in(alloc: Global, folder: &mut SureFolder) -> Result<bool, AllocError> {
    let assembled = is_judged(
        alloc,
        folder,
        LISTING.as_bytes(),
        "assembled 2 methods\n",
        0,
    )?;
    let mut same = assembled;
    for (part, file) in PLAIN.iter() {
        if part.0 == METHOD.0 {
            same = is_stored(alloc, folder, METHOD, Some(&PLAIN_METHOD))? & same;
        }
        if part.0 == HEADER.0 || part.0 == CLASS.0 || part.0 == DESCRIPTOR.0 {
            same = is_stored(alloc, folder, *part, Some(*file))? & same;
        }
    }
    Ok(same)
}

fn is_same(alloc: Global) -> Result<bool, AllocError> {
    let mut folder = SureFolder::new(alloc, 24, 6000)?;
    Ok(put_plain(alloc, &mut folder)? && is_same_in(alloc, &mut folder)?)
}

#[test]
fn asm_of_a_listing_gives_the_same_package(rt: HostRuntime) -> Result<(), AllocError> {
    assert!(rt; is_same(rt.alloc())?);
    Ok(())
}

/// The roles and the listing beside package T, where they are there, and what `asm` gives, with its status.
type Beside = (
    Option<&'static [u8]>,
    Option<&'static str>,
    &'static str,
    u8,
);

/// The listing is loaded first, and judged last.
static BESIDE: [Beside; 8] = [
    (None, None, "malformed package 0 MissingPart 14\n", 7),
    (
        Some(b"\x00"),
        None,
        "malformed package 0 MissingPart 14\n",
        7,
    ),
    (
        Some(b""),
        Some("?"),
        "malformed package 0 Form 0 0 Cut\n",
        7,
    ),
    (
        Some(b"\x00\x01\x02\x03\x04\x05\x06"),
        Some("?"),
        "malformed package 0 Form 0 7 Cut\n",
        7,
    ),
    (
        Some(b"\x00\x01\x02\x03\x04\x05\x06\x07\x08"),
        Some(LISTING),
        "malformed package 0 Form 0 8 Trailing\n",
        7,
    ),
    (None, Some("?"), "malformed package 0 NotListing 1\n", 7),
    (None, Some(LISTING), "assembled 2 methods\n", 0),
    (
        Some(&PLAIN_ROLES),
        Some(LISTING),
        "assembled 2 methods\n",
        0,
    ),
];

/// Puts a file into `T`, where there is one, and tells whether there was room for it.
fn put_file(folder: &mut SureFolder, part: Part, file: Option<&[u8]>) -> bool {
    match file {
        Some(file) => folder.set("T", part, file),
        None => true,
    }
}

fn is_beside(alloc: Global, beside: &Beside) -> Result<bool, AllocError> {
    let mut folder = SureFolder::new(alloc, 24, 6000)?;
    is_beside_in(alloc, &mut folder, beside)
}

/// Whether `asm` gives what it is to give, and where it stores, stores the roles that there are.
fn is_beside_in(
    alloc: Global,
    folder: &mut SureFolder,
    beside: &Beside,
) -> Result<bool, AllocError> {
    let (roles, listing, text, status) = beside;
    let stored = if *status == 0 { *roles } else { None };
    Ok(
        put_package(alloc, folder, "T", &PLAIN, &[])?
            && put_file(folder, ROLES, *roles)
            && put_file(folder, LISTED, listing.map(str::as_bytes))
            && gives(alloc, "asm X T", folder, text, *status)?
            && is_stored(alloc, folder, ROLES, stored)?,
    )
}

/// The number of the first row that is told otherwise.
fn first_not_beside(alloc: Global) -> Result<Option<usize>, AllocError> {
    for (n, beside) in BESIDE.iter().enumerate() {
        if !is_beside(alloc, beside)? {
            return Ok(Some(n));
        }
    }
    Ok(None)
}

#[test]
fn asm_asks_for_a_listing_and_takes_roles_that_are_there(
    rt: HostRuntime,
) -> Result<(), AllocError> {
    assert_eq!(rt; first_not_beside(rt.alloc())?, None);
    Ok(())
}

/// Whether a listing that is longer than any part is told.
fn long_is_told(alloc: Global) -> Result<bool, AllocError> {
    let mut folder = SureFolder::new(alloc, 12, 70_000)?;
    let long = vec![in alloc; b' '; 65_539]?;
    Ok(
        put_plain(alloc, &mut folder)?
            && is_judged(
                alloc,
                &mut folder,
                &long,
                "malformed package 0 PartTooLong 14\n",
                7,
            )?,
    )
}

#[test]
fn asm_takes_no_listing_that_is_too_long(rt: HostRuntime) -> Result<(), AllocError> {
    assert!(rt; long_is_told(rt.alloc())?);
    Ok(())
}

static REFUSED: [Row; 5] = [
    ("asm", UNCHANGED, "usage\n", 2),
    ("asm X", UNCHANGED, "usage\n", 2),
    ("asm X T T", UNCHANGED, "usage\n", 2),
    ("asm X --", UNCHANGED, "usage\n", 2),
    (
        "asm X E",
        UNCHANGED,
        "malformed package 0 MissingPart 1\n",
        7,
    ),
];

#[test]
fn asm_names_what_is_wrong_with_words_and_package(rt: HostRuntime) -> Result<(), AllocError> {
    rows_hold(&rt, rt.alloc(), &REFUSED)
}

/// Nine parts are loaded, then the listing, and then the roles.
static FAILING: [FailingRow; 4] = [
    (Kept::Listed, ("asm U T", 1, 0, 0, "read fault\n", 3)),
    (Kept::Listed, ("asm U T", 9, 0, 0, "read fault\n", 3)),
    (Kept::Listed, ("asm U T", 10, 0, 0, "read fault\n", 3)),
    (Kept::Listed, ("asm U T", 11, 0, 0, "read fault\n", 3)),
];

#[test]
fn asm_names_the_load_that_fails(rt: HostRuntime) -> Result<(), AllocError> {
    failures_are_told(&rt, rt.alloc(), &FAILING)
}

/// Where no store fails.
const STORED: [Answer; 2] = [
    ("asm U T", "assembled 2 methods\n", 0),
    ("list U", LISTING, 0),
];

/// Where a store fails before that of the Header, and then none.
const WITHOUT_HEADER: [Answer; 4] = [
    ("asm U T", "store fault\n", 4),
    ("list U", "malformed package 0 MissingPart 1\n", 7),
    ("asm U T", "assembled 2 methods\n", 0),
    ("list U", LISTING, 0),
];

/// The Header is the last of ten files.
static STORES: [Story; 4] = [
    (Kept::Listed, 0, 0, &STORED),
    (Kept::Listed, 1, 0, &WITHOUT_HEADER),
    (Kept::Listed, 5, 1, &WITHOUT_HEADER),
    (Kept::Listed, 10, 0, &WITHOUT_HEADER),
];

#[test]
fn asm_stores_the_header_last(rt: HostRuntime) -> Result<(), AllocError> {
    stories_go_so(&rt, rt.alloc(), &STORES)
}
