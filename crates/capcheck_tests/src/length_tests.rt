use crate::filling::put_with_roles;
use crate::run::gives;
use cap_bytes::Part;
use cap_files::SureFolder;
use cap_tests::{PLAIN, PLAIN_ROLES};
use std::alloc::{AllocError, Global};

/// Whether `check` gives this text where a part of package T is this file.
fn is_told(
    alloc: Global,
    folder: &mut SureFolder,
    part: Part,
    file: &[u8],
    text: &str,
) -> Result<bool, AllocError> {
    Ok(folder.set("T", part, file) && gives(alloc, "check T", folder, text, 7)?)
}

/// Whether a beginning of a file is told as cut, at its end.
fn cut_is_told(
    alloc: Global,
    folder: &mut SureFolder,
    part: Part,
    cut: &[u8],
) -> Result<bool, AllocError> {
    let text = format!(in alloc; "malformed package 0 Form {} {} Cut\n", part.0, cut.len())?;
    is_told(alloc, folder, part, cut, &text)
}

/// Whether each shorter beginning of a file is told so.
fn cuts_are_told(
    alloc: Global,
    folder: &mut SureFolder,
    part: Part,
    file: &[u8],
) -> Result<bool, AllocError> {
    let mut told = true;
    for length in 0..file.len() {
        told = cut_is_told(alloc, folder, part, &file[..length])? & told;
    }
    Ok(told)
}

/// A file with one byte more.
fn longer(alloc: Global, file: &[u8]) -> Result<Vec<u8>, AllocError> {
    let mut longer = Vec::from_slice(alloc, file)?;
    longer.push(0)?;
    Ok(longer)
}

/// Whether a file with one byte more is told, at its old end.
fn more_is_told(
    alloc: Global,
    folder: &mut SureFolder,
    part: Part,
    file: &[u8],
) -> Result<bool, AllocError> {
    let text = format!(in alloc;
        "malformed package 0 Form {} {} Trailing\n",
        part.0,
        file.len()
    )?;
    let longer = longer(alloc, file)?;
    is_told(alloc, folder, part, &longer, &text)
}

/// Whether all other lengths of a file are told, and the file is put back.
fn lengths_are_told(
    alloc: Global,
    folder: &mut SureFolder,
    part: Part,
    file: &[u8],
) -> Result<bool, AllocError> {
    let cut = cuts_are_told(alloc, folder, part, file)?;
    let more = more_is_told(alloc, folder, part, file)?;
    Ok(folder.set("T", part, file) & cut & more)
}

/// The tag of the first component of package T whose other lengths are not told so.
fn first_untold_in(alloc: Global, folder: &mut SureFolder) -> Result<Option<u8>, AllocError> {
    if !put_with_roles(alloc, folder, "T", &PLAIN, &[], &PLAIN_ROLES)? {
        return Ok(Some(0));
    }
    for (part, file) in PLAIN.iter() {
        if !lengths_are_told(alloc, folder, *part, file)? {
            return Ok(Some(part.0));
        }
    }
    Ok(None)
}

fn first_untold(alloc: Global) -> Result<Option<u8>, AllocError> {
    let mut folder = SureFolder::new(alloc, 12, 2000)?;
    first_untold_in(alloc, &mut folder)
}

#[test]
fn check_tells_each_length_of_a_file_that_is_not_its_own(
    rt: HostRuntime,
) -> Result<(), AllocError> {
    assert_eq!(rt; first_untold(rt.alloc())?, None);
    Ok(())
}
