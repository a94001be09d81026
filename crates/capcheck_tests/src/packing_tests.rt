use crate::filling::{Kept, UNCHANGED, keep, put_with_roles};
use crate::rows::{Answer, FailingRow, Row, Story, failures_are_told, rows_hold, stories_go_so};
use crate::run::{Failing, gives, gives_failing, said};
use cap_bytes::Part;
use cap_components::Parts;
use cap_files::{Folder, MemFolder, SureFolder};
use cap_load::Loader;
use cap_tests::{Change, DIRECTORY, PLAIN, PLAIN_ROLES};
use std::alloc::{AllocError, Global};

/// The Load file.
const LOAD: Part = Part(13);

/// A custom component.
const CUSTOM: Part = Part(129);

/// Package T as it is: the verifier refuses it, also from its Load file.
const AS_IT_IS: [Answer; 3] = [
    ("pack L T", "packed 2 blocks 310 bytes\n", 0),
    (
        "install L",
        "refused package 0 method 0.1 place 2 StackAtBranch\n",
        1,
    ),
    ("show L", "malformed package 0 MissingPart 1\n", 7),
];

/// Package T in the form that the verifier accepts.
const FOR_THE_CARD: [Answer; 4] = [
    ("transform U T", "transformed 2 methods\n", 0),
    ("pack L U", "packed 2 blocks 344 bytes\n", 0),
    ("install L", "accepted 2 methods\n", 0),
    ("install U", "malformed package 0 MissingPart 13\n", 7),
];

/// Without roles beside it.
const WITHOUT_ROLES: [Answer; 2] = [
    ("pack L T", "packed 2 blocks 310 bytes\n", 0),
    ("install L", "malformed package 0 MissingPart 0\n", 7),
];

/// The counter has 1,631 bytes in all components but Debug, 15 of which are its custom component.
const OF_TWO: [Answer; 6] = [
    ("pack L C", "packed 7 blocks 1639 bytes\n", 0),
    (
        "install R L",
        "refused package 1 method 0.1 place 6 StackAtBranch\n",
        1,
    ),
    ("transform U R C", "transformed 20 methods\n", 0),
    ("pack L U", "packed 8 blocks 1876 bytes\n", 0),
    ("install R L", "accepted 37 methods\n", 0),
    ("install L R", "malformed package 0 MissingPart 1\n", 7),
];

static ANSWERS: [Story; 4] = [
    (Kept::WithRoles, 0, 0, &AS_IT_IS),
    (Kept::WithRoles, 0, 0, &FOR_THE_CARD),
    (Kept::Plain, 0, 0, &WITHOUT_ROLES),
    (Kept::Counter, 0, 0, &OF_TWO),
];

#[test]
fn a_packed_package_is_installed_as_it_is_verified(rt: HostRuntime) -> Result<(), AllocError> {
    stories_go_so(&rt, rt.alloc(), &ANSWERS)
}

static REFUSED: [Row; 11] = [
    ("pack", UNCHANGED, "usage\n", 2),
    ("pack L", UNCHANGED, "usage\n", 2),
    ("pack L T T", UNCHANGED, "usage\n", 2),
    ("pack L --", UNCHANGED, "usage\n", 2),
    ("install", UNCHANGED, "usage\n", 2),
    ("install T --", UNCHANGED, "usage\n", 2),
    (
        "pack L E",
        UNCHANGED,
        "malformed package 0 MissingPart 1\n",
        7,
    ),
    (
        "install T",
        UNCHANGED,
        "malformed package 0 MissingPart 13\n",
        7,
    ),
    (
        "install U T",
        UNCHANGED,
        "malformed package 0 MissingPart 0\n",
        7,
    ),
    (
        "install T U",
        UNCHANGED,
        "malformed package 1 MissingPart 13\n",
        7,
    ),
    (
        "install T T T T T T T T T T T T T T T T T",
        UNCHANGED,
        "not linked TooManyPackages 17\n",
        7,
    ),
];

#[test]
fn pack_and_install_name_what_is_wrong_with_words_and_packages(
    rt: HostRuntime,
) -> Result<(), AllocError> {
    rows_hold(&rt, rt.alloc(), &REFUSED)
}

/// Nine parts are loaded, and then the roles.
static FAILING: [FailingRow; 5] = [
    (Kept::WithRoles, ("pack L T", 1, 0, 0, "read fault\n", 3)),
    (Kept::WithRoles, ("pack L T", 9, 0, 0, "read fault\n", 3)),
    (Kept::WithRoles, ("pack L T", 10, 0, 0, "read fault\n", 3)),
    (
        Kept::WithRoles,
        ("pack L T", 11, 0, 0, "packed 2 blocks 310 bytes\n", 0),
    ),
    (Kept::WithRoles, ("pack L T", 0, 1, 6, "packed", 8)),
];

#[test]
fn pack_names_the_device_that_fails(rt: HostRuntime) -> Result<(), AllocError> {
    failures_are_told(&rt, rt.alloc(), &FAILING)
}

/// What `install` gives over the Load file that was packed, where its loads fail: that of the file, and that of the roles. All
/// loads count, and `pack` made ten.
static LOADS: [Failing; 4] = [
    ("pack L T", 0, 0, 0, "packed 2 blocks 310 bytes\n", 0),
    ("install L", 11, 0, 0, "read fault\n", 3),
    ("install L", 13, 0, 0, "read fault\n", 3),
    (
        "install L",
        16,
        0,
        0,
        "refused package 0 method 0.1 place 2 StackAtBranch\n",
        1,
    ),
];

fn first_load_missed_in(
    alloc: Global,
    folder: &mut MemFolder,
) -> Result<Option<usize>, AllocError> {
    for (n, failing) in LOADS.iter().enumerate() {
        if !gives_failing(alloc, folder, failing)? {
            return Ok(Some(n));
        }
    }
    Ok(None)
}

/// The number of the first row that is answered otherwise.
fn first_load_missed(alloc: Global) -> Result<Option<usize>, AllocError> {
    let mut folder = MemFolder::new(alloc, 12, 2000)?;
    if !keep(&mut folder, &Kept::WithRoles) {
        return Ok(Some(LOADS.len()));
    }
    first_load_missed_in(alloc, &mut folder)
}

#[test]
fn install_names_the_load_that_fails(rt: HostRuntime) -> Result<(), AllocError> {
    assert_eq!(rt; first_load_missed(rt.alloc())?, None);
    Ok(())
}

/// Where the store of the Load file fails before its first byte, and then none.
const WITHOUT_FILE: [Answer; 4] = [
    ("pack L T", "store fault\n", 4),
    ("install L", "malformed package 0 Unfinished\n", 7),
    ("pack L T", "packed 2 blocks 310 bytes\n", 0),
    (
        "install L",
        "refused package 0 method 0.1 place 2 StackAtBranch\n",
        1,
    ),
];

/// Where it fails after some bytes.
const WITH_A_FRONT: [Answer; 2] = [
    ("pack L T", "store fault\n", 4),
    ("install L", "malformed package 0 Unfinished\n", 7),
];

/// Where that of the roles fails.
const WITHOUT_ROLES_STORED: [Answer; 2] = [
    ("pack L T", "store fault\n", 4),
    ("install L", "malformed package 0 Form 0 0 Cut\n", 7),
];

static STORES: [Story; 3] = [
    (Kept::WithRoles, 1, 0, &WITHOUT_FILE),
    (Kept::WithRoles, 1, 300, &WITH_A_FRONT),
    (Kept::WithRoles, 2, 0, &WITHOUT_ROLES_STORED),
];

#[test]
fn pack_stores_the_load_file_first(rt: HostRuntime) -> Result<(), AllocError> {
    stories_go_so(&rt, rt.alloc(), &STORES)
}

// ---- the Load file of package T in the form that the verifier accepts

/// Packs it into `L`, with the roles.
fn put_packed(alloc: Global, folder: &mut SureFolder) -> Result<bool, AllocError> {
    Ok(
        put_with_roles(alloc, folder, "T", &PLAIN, &[], &PLAIN_ROLES)?
            && gives(alloc, "transform U T", folder, "transformed 2 methods\n", 0)?
            && gives(alloc, "pack L U", folder, "packed 2 blocks 344 bytes\n", 0)?,
    )
}

/// The Load file in `L`, or no bytes.
fn packed_file(alloc: Global, folder: &mut SureFolder) -> Result<Vec<u8>, AllocError> {
    let mut file = Vec::new(alloc);
    match folder.load(alloc, "L", LOAD, &mut file) {
        Ok(_) | Err(_) => Ok(file),
    }
}

/// Whether `install` gives this over a Load file.
fn installs(
    alloc: Global,
    folder: &mut SureFolder,
    file: &[u8],
    text: &str,
    status: u8,
) -> Result<bool, AllocError> {
    Ok(folder.set("L", LOAD, file) && gives(alloc, "install L", folder, text, status)?)
}

/// Whether the file without its last byte, and with one byte more, is told to be wrong.
fn ends_are_told(alloc: Global, folder: &mut SureFolder) -> Result<bool, AllocError> {
    let mut file = packed_file(alloc, folder)?;
    let short = file.len().saturating_sub(1);
    let cut = installs(
        alloc,
        folder,
        &file[..short],
        "malformed package 0 Unfinished\n",
        7,
    )?;
    file.push(0)?;
    Ok(cut && installs(alloc, folder, &file, "malformed package 0 AfterEnd\n", 7)?)
}

fn tells_ends(alloc: Global) -> Result<bool, AllocError> {
    let mut folder = SureFolder::new(alloc, 48, 9000)?;
    Ok(put_packed(alloc, &mut folder)? && ends_are_told(alloc, &mut folder)?)
}

#[test]
fn install_tells_a_load_file_without_its_end_and_one_with_more(
    rt: HostRuntime,
) -> Result<(), AllocError> {
    assert!(rt; tells_ends(rt.alloc())?);
    Ok(())
}

/// Whether two lists of parts are the same.
fn are_same(parts: &Parts<'_>, others: &Parts<'_>) -> bool {
    let mut same = parts.len() == others.len();
    for n in 0..parts.len() {
        let (part, bytes) = parts.at(n);
        same = others.get(part) == Some(bytes) && same;
    }
    same
}

/// Whether two loaders give the same parts: package T's nine, and the index of targets.
fn give_same(alloc: Global, loader: &Loader, other: &Loader) -> bool {
    match loader.finish(alloc) {
        Ok(parts) => match other.finish(alloc) {
            Ok(others) => parts.len() == 10 && are_same(&parts, &others),
            Err(_) => false,
        },
        Err(_) => false,
    }
}

/// Whether the file in two pieces gives the parts that it gives as a whole.
fn is_cut(alloc: Global, whole: &Loader, file: &[u8], at: usize) -> Result<bool, AllocError> {
    let mut loader = Loader::new(alloc, 65_538)?;
    let (first, second) = file.split_at(at.min(file.len()));
    let fed = loader.feed(first).is_ok() && loader.feed(second).is_ok();
    Ok(fed && give_same(alloc, &loader, whole))
}

/// The first place at which the file can't be cut into two pieces, or one after its end.
fn first_wrong_cut(alloc: Global, file: &[u8]) -> Result<usize, AllocError> {
    let mut whole = Loader::new(alloc, 65_538)?;
    let _ = whole.feed(file);
    for at in 0..=file.len() {
        if !is_cut(alloc, &whole, file, at)? {
            return Ok(at);
        }
    }
    Ok(file.len().wrapping_add(1))
}

fn cuts(alloc: Global) -> Result<usize, AllocError> {
    let mut folder = SureFolder::new(alloc, 48, 9000)?;
    if !put_packed(alloc, &mut folder)? {
        return Ok(0);
    }
    let file = packed_file(alloc, &mut folder)?;
    first_wrong_cut(alloc, &file)
}

#[test]
fn every_cut_of_a_load_file_gives_the_parts(rt: HostRuntime) -> Result<(), AllocError> {
    assert_eq!(rt; cuts(rt.alloc())?, 345);
    Ok(())
}

/// Whether a status and a text tell one of the things that may be wrong with a Load file, or nothing.
fn is_answer(status: u8, text: &[u8]) -> bool {
    match status {
        0 => text == b"accepted 2 methods\n".as_slice(),
        1 => text.starts_with(b"refused package 0 method 0."),
        7 => text.starts_with(b"malformed package 0 ") || text.starts_with(b"not linked "),
        _ => false,
    }
}

/// Whether the file with another byte at a place is answered so.
fn is_told(
    alloc: Global,
    folder: &mut SureFolder,
    file: &mut [u8],
    at: usize,
    byte: u8,
) -> Result<bool, AllocError> {
    if at >= file.len() {
        return Ok(false);
    }
    let old = file[at];
    file[at] = byte;
    let put = folder.set("L", LOAD, file);
    file[at] = old;
    let (status, text) = said(alloc, "install L", folder)?;
    Ok(put && is_answer(status, &text))
}

/// The first place from one on at which a changed byte is answered otherwise, or the place after 86 bytes.
fn first_untold(
    alloc: Global,
    folder: &mut SureFolder,
    file: &mut [u8],
    from: usize,
) -> Result<usize, AllocError> {
    let to = from.wrapping_add(86).min(file.len());
    for at in from..to {
        let more = file[at].wrapping_add(1);
        if !is_told(alloc, folder, file, at, 0)?
            || !is_told(alloc, folder, file, at, 255)?
            || !is_told(alloc, folder, file, at, more)?
        {
            return Ok(at);
        }
    }
    Ok(to)
}

fn changes(alloc: Global, from: usize) -> Result<usize, AllocError> {
    let mut folder = SureFolder::new(alloc, 48, 9000)?;
    if !put_packed(alloc, &mut folder)? {
        return Ok(0);
    }
    let mut file = packed_file(alloc, &mut folder)?;
    first_untold(alloc, &mut folder, &mut file, from)
}

#[test]
fn a_changed_byte_in_the_first_quarter_is_told(rt: HostRuntime) -> Result<(), AllocError> {
    assert_eq!(rt; changes(rt.alloc(), 0)?, 86);
    Ok(())
}

#[test]
fn a_changed_byte_in_the_second_quarter_is_told(rt: HostRuntime) -> Result<(), AllocError> {
    assert_eq!(rt; changes(rt.alloc(), 86)?, 172);
    Ok(())
}

#[test]
fn a_changed_byte_in_the_third_quarter_is_told(rt: HostRuntime) -> Result<(), AllocError> {
    assert_eq!(rt; changes(rt.alloc(), 172)?, 258);
    Ok(())
}

#[test]
fn a_changed_byte_in_the_last_quarter_is_told(rt: HostRuntime) -> Result<(), AllocError> {
    assert_eq!(rt; changes(rt.alloc(), 258)?, 344);
    Ok(())
}

// ---- the longest Load files

/// The file of the custom component, with so many bytes.
fn custom_file(alloc: Global, size: u16) -> Result<Vec<u8>, AllocError> {
    let [high, low] = size.to_be_bytes();
    let mut file = Vec::from_slice(alloc, &[CUSTOM.0, high, low])?;
    for _byte in 0..size {
        file.push(7)?;
    }
    Ok(file)
}

/// Puts package T with its roles into `T`, and a custom component of so many bytes, with an AID of five bytes. All components
/// then have 319 bytes more than it.
fn put_long(alloc: Global, folder: &mut SureFolder, size: u16) -> Result<bool, AllocError> {
    let [high, low] = size.to_be_bytes();
    let entry = [1, CUSTOM.0, high, low, 5, 0xF0, 1, 2, 3, 4];
    let changes = [Change::Splice(DIRECTORY, 35, 36, &entry)];
    let put = put_with_roles(alloc, folder, "T", &PLAIN, &changes, &PLAIN_ROLES)?;
    let file = custom_file(alloc, size)?;
    Ok(put && folder.set("T", CUSTOM, &file))
}

/// What `pack` gives for a custom component of so many bytes, with its status: 65,280 bytes are 256 full blocks, and one more
/// makes a block more and 65,539 bytes in all.
static LONG: [(u16, &str, u8); 4] = [
    (1, "packed 2 blocks 323 bytes\n", 0),
    (64_961, "packed 256 blocks 65537 bytes\n", 0),
    (64_962, "limit LoadLong 65539\n", 5),
    (65_535, "limit LoadLong 66114\n", 5),
];

fn packs_long(alloc: Global, row: &(u16, &str, u8)) -> Result<bool, AllocError> {
    let (size, text, status) = row;
    let mut folder = SureFolder::new(alloc, 48, 140_000)?;
    Ok(
        put_long(alloc, &mut folder, *size)?
            && gives(alloc, "pack L T", &mut folder, text, *status)?,
    )
}

/// The number of the first row that is answered otherwise.
fn first_wrong_length(alloc: Global) -> Result<Option<usize>, AllocError> {
    for (n, row) in LONG.iter().enumerate() {
        if !packs_long(alloc, row)? {
            return Ok(Some(n));
        }
    }
    Ok(None)
}

#[test]
fn pack_stores_no_load_file_that_is_too_long(rt: HostRuntime) -> Result<(), AllocError> {
    assert_eq!(rt; first_wrong_length(rt.alloc())?, None);
    Ok(())
}

/// The file with its first block cut in two after one byte: a byte more.
fn cut_first(alloc: Global, file: &[u8]) -> Result<Vec<u8>, AllocError> {
    let mut cut = Vec::from_slice(alloc, &[1])?;
    if file.len() > 2 {
        cut.push(file[1])?;
        cut.push(file[0].wrapping_sub(1))?;
        cut.extend_from_slice(&file[2..])?;
    }
    Ok(cut)
}

/// Whether a Load file of 65,538 bytes is installed as package T is verified, and one of one byte more is too long.
fn longest_is_taken(alloc: Global, folder: &mut SureFolder) -> Result<bool, AllocError> {
    let file = packed_file(alloc, folder)?;
    let mut cut = cut_first(alloc, &file)?;
    let taken = cut.len() == 65_538
        && installs(
            alloc,
            folder,
            &cut,
            "refused package 0 method 0.1 place 2 StackAtBranch\n",
            1,
        )?;
    cut.push(0)?;
    Ok(
        taken
            && installs(
                alloc,
                folder,
                &cut,
                "malformed package 0 PartTooLong 13\n",
                7,
            )?,
    )
}

fn takes_longest(alloc: Global) -> Result<bool, AllocError> {
    let mut folder = SureFolder::new(alloc, 48, 210_000)?;
    Ok(
        put_long(alloc, &mut folder, 64_961)?
            && gives(
                alloc,
                "pack L T",
                &mut folder,
                "packed 256 blocks 65537 bytes\n",
                0,
            )?
            && longest_is_taken(alloc, &mut folder)?,
    )
}

#[test]
fn install_takes_the_longest_load_file(rt: HostRuntime) -> Result<(), AllocError> {
    assert!(rt; takes_longest(rt.alloc())?);
    Ok(())
}
