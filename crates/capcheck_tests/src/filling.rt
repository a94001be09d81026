use crate::counter_packages::{COUNTER, RUNTIME};
use crate::list_tests::LISTING;
use crate::small_packages::{BELOW, CALLING, DISPATCHING, EXTENDING, OVERRIDING};
use cap_bytes::Part;
use cap_files::{MemFolder, SureFolder};
use cap_package::OwnedParts;
use cap_tests::{
    CONSTANT_POOL, Change, DESCRIPTOR, DIRECTORY, File, METHOD, PLAIN, PLAIN_ROLES, STATIC_FIELD,
    changed,
};
use std::alloc::{AllocError, Global};

/// The file of roles.
pub(crate) const ROLES: Part = Part(0);

/// The file of a listing.
pub(crate) const LISTED: Part = Part(14);

/// The roles of the overriding package.
const OVERRIDING_ROLES: [u8; 8] = [0, 1, 1, 1, 1, 1, 1, 1];

/// The roles of both packages of calls.
const CALLING_ROLES: [u8; 8] = [1, 2, 2, 2, 2, 2, 2, 2];

/// The second method of package T: its type descriptor, its header and its code.
pub(crate) type Second = (&'static [u8], &'static [u8], &'static [u8]);

/// The pool of package T with one entry, and what stands in the Descriptor for its type.
pub(crate) type Constant = (&'static [u8], &'static [u8]);

/// The first class of T.
const CLASS: Constant = (b"\x00\x01\x01\x00\x02\x00", b"\x00\x01\xFF\xFF");

/// What folders hold.
#[derive(Clone, Copy)]
pub(crate) enum Held {
    Nothing,
    /// Package T, changed in two ways, in `T` and `U`, the overriding package in `V` and the one below T in `W`.
    /// These roles stand in `T`, and roles of its own in `V`.
    Packages(&'static [u8], &'static [Change<'static>], &'static [Change<'static>]),
    /// The same, with these changes in `T` alone and its own roles.
    Changed(&'static [Change<'static>]),
    /// The same, and in `T` with a file of this part that is longer than any part.
    TooLong(&'static [Change<'static>], Part),
    /// The same without changes, with another second method in `T`, and where it is wanted with a constant: the first class
    /// of T.
    Second(Second, bool),
    /// The same, with another second method and this constant in `T`.
    Naming(Second, Constant),
    /// The same, with a second method that takes an array of bytes, and 4,096 initial arrays.
    Crowded(Second),
    /// This package with changes, and the roles of package T, in `T`, and this one in `W`.
    Both(&'static [File<'static>], &'static [Change<'static>], &'static [File<'static>]),
    /// The package of calls in `I`, with its roles.
    Calls,
    /// The package of calls whose methods are overridden in `T`, with its roles, and the one with a class below in `W`.
    Overridden,
    /// This Method component in `P`.
    Method(&'static [u8]),
}

/// The packages as they are.
pub(crate) const UNCHANGED: Held = Held::Changed(&[]);

/// Puts the parts of a package under a word, and tells whether there was room for each.
fn put_parts(folder: &mut SureFolder, dir: &str, parts: &OwnedParts) -> bool {
    let mut fits = true;
    for n in 0..parts.len() {
        let (part, bytes) = parts.at(n);
        fits = folder.set(dir, part, bytes) & fits;
    }
    fits
}

/// Puts a package with changes under a word, and tells whether there was room for it.
pub(crate) fn put_package(
    alloc: Global,
    folder: &mut SureFolder,
    dir: &str,
    files: &[File<'_>],
    changes: &[Change<'_>],
) -> Result<bool, AllocError> {
    let parts = changed(alloc, files, changes)?;
    Ok(put_parts(folder, dir, &parts))
}

/// Puts a package with changes and roles under a word, and tells whether there was room for them.
pub(crate) fn put_with_roles(
    alloc: Global,
    folder: &mut SureFolder,
    dir: &str,
    files: &[File<'_>],
    changes: &[Change<'_>],
    roles: &[u8],
) -> Result<bool, AllocError> {
    let fits = put_package(alloc, folder, dir, files, changes)?;
    Ok(folder.set(dir, ROLES, roles) & fits)
}

fn put_others(
    alloc: Global,
    folder: &mut SureFolder,
    second: &[Change<'_>],
) -> Result<bool, AllocError> {
    let fits = put_package(alloc, folder, "U", &PLAIN, second)?;
    let overriding = put_with_roles(alloc, folder, "V", &OVERRIDING, &[], &OVERRIDING_ROLES)?;
    Ok(fits & overriding)
}

fn put_packages(
    alloc: Global,
    folder: &mut SureFolder,
    roles: &[u8],
    first: &[Change<'_>],
    second: &[Change<'_>],
) -> Result<bool, AllocError> {
    let fits = put_with_roles(alloc, folder, "T", &PLAIN, first, roles)?;
    let others = put_others(alloc, folder, second)?;
    let below = put_package(alloc, folder, "W", &BELOW, &[])?;
    Ok(fits & others & below)
}

fn put_too_long(
    alloc: Global,
    folder: &mut SureFolder,
    changes: &[Change<'_>],
    part: Part,
) -> Result<bool, AllocError> {
    let fits = put_packages(alloc, folder, &PLAIN_ROLES, changes, &[])?;
    let long = vec![in alloc; 7u8; 65_539]?;
    Ok(folder.set("T", part, &long) & fits)
}

fn put_second(
    alloc: Global,
    folder: &mut SureFolder,
    second: Second,
    constant: Option<Constant>,
) -> Result<bool, AllocError> {
    let (types, header, code) = second;
    let (pool, pool_types): Constant = constant.unwrap_or((b"\x00\x00", b"\x00\x00"));
    let (first_at, second_at): (u8, u8) = if constant.is_some() { (4, 6) } else { (2, 4) };
    let size = u8::try_from(code.len()).unwrap_or(0);
    let changes = [
        Change::Splice(CONSTANT_POOL, 3, 5, pool),
        Change::Splice(METHOD, 12, 22, code),
        Change::Splice(METHOD, 10, 12, header),
        Change::Splice(DESCRIPTOR, 111, 114, types),
        Change::Splice(DESCRIPTOR, 107, 109, pool_types),
        Change::Byte(DESCRIPTOR, 39, size),
        Change::Byte(DESCRIPTOR, 37, second_at),
        Change::Byte(DESCRIPTOR, 25, first_at),
    ];
    put_packages(alloc, folder, &PLAIN_ROLES, &changes, &[])
}

/// A StaticField component with 4,096 initial arrays without elements, and the short of package T after their references.
fn static_arrays(alloc: Global) -> Result<Vec<u8>, AllocError> {
    let mut file = Vec::from_slice(alloc, b"\x08\x30\x0C\x20\x02\x10\x00\x10\x00")?;
    for _array in 0..4096u16 {
        file.extend_from_slice(b"\x03\x00\x00")?;
    }
    file.extend_from_slice(b"\x00\x00\x00\x02\x00\x07")?;
    Ok(file)
}

fn put_with_arrays(
    alloc: Global,
    folder: &mut SureFolder,
    second: Second,
    arrays: &[u8],
) -> Result<bool, AllocError> {
    let (types, header, code) = second;
    let changes = [
        Change::Sized(STATIC_FIELD, arrays),
        Change::Splice(METHOD, 12, 22, code),
        Change::Splice(METHOD, 10, 12, header),
        Change::Splice(DESCRIPTOR, 111, 114, types),
        Change::Byte(DESCRIPTOR, 39, 6),
        Change::Byte(DESCRIPTOR, 16, 0x20),
        Change::Byte(DIRECTORY, 27, 0x20),
        Change::Byte(DIRECTORY, 29, 0x10),
    ];
    put_packages(alloc, folder, &PLAIN_ROLES, &changes, &[])
}

fn put_crowded(alloc: Global, folder: &mut SureFolder, second: Second) -> Result<bool, AllocError> {
    let arrays = static_arrays(alloc)?;
    put_with_arrays(alloc, folder, second, &arrays)
}

fn put_both(
    alloc: Global,
    folder: &mut SureFolder,
    library: &[File<'_>],
    changes: &[Change<'_>],
    user: &[File<'_>],
) -> Result<bool, AllocError> {
    let fits = put_with_roles(alloc, folder, "T", library, changes, &PLAIN_ROLES)?;
    let below = put_package(alloc, folder, "W", user, &[])?;
    Ok(fits & below)
}

fn put_overridden(alloc: Global, folder: &mut SureFolder) -> Result<bool, AllocError> {
    let fits = put_with_roles(alloc, folder, "T", &DISPATCHING, &[], &CALLING_ROLES)?;
    let below = put_package(alloc, folder, "W", &EXTENDING, &[])?;
    Ok(fits & below)
}

/// Fills folders, and tells whether there was room for all.
pub(crate) fn fill(
    alloc: Global,
    folder: &mut SureFolder,
    held: &Held,
) -> Result<bool, AllocError> {
    match held {
        Held::Nothing => Ok(true),
        Held::Packages(roles, first, second) => put_packages(alloc, folder, roles, first, second),
        Held::Changed(changes) => put_packages(alloc, folder, &PLAIN_ROLES, changes, &[]),
        Held::TooLong(changes, part) => put_too_long(alloc, folder, changes, *part),
        Held::Second(second, false) => put_second(alloc, folder, *second, None),
        Held::Second(second, true) => put_second(alloc, folder, *second, Some(CLASS)),
        Held::Naming(second, constant) => put_second(alloc, folder, *second, Some(*constant)),
        Held::Crowded(second) => put_crowded(alloc, folder, *second),
        Held::Both(library, changes, user) => put_both(alloc, folder, library, changes, user),
        Held::Calls => put_with_roles(alloc, folder, "I", &CALLING, &[], &CALLING_ROLES),
        Held::Overridden => put_overridden(alloc, folder),
        Held::Method(file) => Ok(folder.set("P", METHOD, file)),
    }
}

/// What folders hold whose devices may fail.
#[derive(Clone, Copy)]
pub(crate) enum Kept {
    /// Package T in `T`.
    Plain,
    /// The same with its roles.
    WithRoles,
    /// The same, and with the listing of its methods.
    Listed,
    /// The same, and with this listing.
    Listing(&'static str),
    /// The base package of the examples in `R`, with its roles, and the counter in `C`.
    Counter,
    /// This Method component in `P`.
    Method(&'static [u8]),
}

/// The positions of the roles in the base package of the examples.
const RUNTIME_ROLES: [u8; 8] = [0, 1, 4, 5, 6, 7, 8, 9];

/// Puts the files of a package under a word, and tells whether there was room for each.
fn put_files(folder: &mut MemFolder, dir: &str, files: &[File<'_>]) -> bool {
    let mut fits = true;
    for (part, bytes) in files {
        fits = folder.set(dir, *part, bytes) & fits;
    }
    fits
}

/// Puts package T with its roles and a listing.
fn put_listed(folder: &mut MemFolder, text: &str) -> bool {
    put_files(folder, "T", &PLAIN)
        & folder.set("T", ROLES, &PLAIN_ROLES)
        & folder.set("T", LISTED, text.as_bytes())
}

/// Fills folders, and tells whether there was room for all.
pub(crate) fn keep(folder: &mut MemFolder, kept: &Kept) -> bool {
    match kept {
        Kept::Plain => put_files(folder, "T", &PLAIN),
        Kept::WithRoles => put_files(folder, "T", &PLAIN) & folder.set("T", ROLES, &PLAIN_ROLES),
        Kept::Listed => put_listed(folder, LISTING),
        Kept::Listing(text) => put_listed(folder, text),
        Kept::Counter => {
            put_files(folder, "R", &RUNTIME)
                & folder.set("R", ROLES, &RUNTIME_ROLES)
                & put_files(folder, "C", &COUNTER)
        }
        Kept::Method(file) => folder.set("P", METHOD, file),
    }
}
