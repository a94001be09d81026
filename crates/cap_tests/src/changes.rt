ghost use Rattle.std.specs.Prelude.{IfOk};
ghost use Rattle.cap_package.specs.Parts.{HasEachOnce};

use crate::components::DIRECTORY;
use cap_bytes::Part;
use cap_package::OwnedParts;
use std::alloc::{AllocError, Global};

/// A component and its file, with tag and size.
pub type File<'a> = (Part, &'a [u8]);

/// What is changed in a package.
#[derive(Clone, Copy)]
pub enum Change<'a> {
    /// Another byte at this offset of the component's file.
    Byte(Part, usize, u8),
    /// Other bytes between two offsets of the component's file; its size follows, in the file and in the
    /// Directory.
    Splice(Part, usize, usize, &'a [u8]),
    /// Another file for the component; its size in the Directory stays.
    File(Part, &'a [u8]),
    /// Another file for the component; its size in the Directory follows.
    Sized(Part, &'a [u8]),
    /// Another size of the component in the Directory.
    Size(Part, u16),
    /// No such component; its size in the Directory stays.
    Without(Part),
}

fn set_byte(bytes: &mut Vec<u8>, at: usize, byte: u8) {
    if at < bytes.len() {
        bytes[at] = byte;
    }
}

fn set_number(bytes: &mut Vec<u8>, at: usize, number: u16) {
    let [high, low] = number.to_be_bytes();
    set_byte(bytes, at, high);
    set_byte(bytes, at.wrapping_add(1), low);
}

/// Sets the size of a component in a Directory's file, where the size of tag 1 stands at offset 3.
fn set_size(directory: &mut Vec<u8>, part: Part, size: u16) {
    set_number(directory, 2 * part.0 as usize + 1, size);
}

/// The size of the info in a file.
fn info_size(file: &[u8]) -> u16 {
    u16::try_from(file.len().saturating_sub(3)).unwrap_or(0)
}

fn spliced(
    alloc: Global,
    file: &[u8],
    from: usize,
    to: usize,
    piece: &[u8],
) -> Result<Vec<u8>, AllocError> {
    if from > to || to > file.len() {
        return Vec::from_slice(alloc, file);
    }
    let mut whole = Vec::new(alloc);
    whole.extend_from_slice(&file[..from])?;
    whole.extend_from_slice(piece)?;
    whole.extend_from_slice(&file[to..])?;
    let size = info_size(&whole);
    set_number(&mut whole, 1, size);
    Ok(whole)
}

/// Makes a change in the file of a component, where it is a change in this one.
fn make_change(
    alloc: Global,
    part: Part,
    file: &mut Vec<u8>,
    change: &Change<'_>,
) -> Result<(), AllocError> {
    match change {
        Change::Byte(of, at, byte) if of.0 == part.0 => set_byte(file, *at, *byte),
        Change::Splice(of, from, to, piece) if of.0 == part.0 => {
            *file = spliced(alloc, file, *from, *to, piece)?;
        }
        _ => {}
    }
    Ok(())
}

/// The file of a component after the changes in it.
fn changed_file(
    alloc: Global,
    file: File<'_>,
    changes: &[Change<'_>],
) -> Result<Vec<u8>, AllocError> {
    let (part, bytes) = file;
    let mut own = Vec::from_slice(alloc, bytes)?;
    for change in changes {
        make_change(alloc, part, &mut own, change)?;
    }
    Ok(own)
}

/// Sets the sizes that changes in the parts make another in a Directory's file.
fn set_sizes(directory: &mut Vec<u8>, parts: &OwnedParts, changes: &[Change<'_>]) {
    for change in changes {
        match change {
            Change::Size(of, size) => set_size(directory, *of, *size),
            Change::Sized(of, _) | Change::Splice(of, _, _, _) => {
                let size = match parts.get(*of) {
                    Some(file) => info_size(file),
                    None => info_size(directory),
                };
                set_size(directory, *of, size);
            }
            _ => {}
        }
    }
}

fn is_kept(changes: &[Change<'_>], part: Part) -> bool {
    changes.iter().all(|change| !matches!(change, Change::Without(of) if of.0 == part.0))
}

/// Puts a component's file after the changes, where the component is not there and changes keep it:
/// the Directory, or another component.
fn put(
    alloc: Global,
    parts: &mut OwnedParts,
    file: File<'_>,
    changes: &[Change<'_>],
    directory: bool,
) -> Result<(), AllocError> {
    let (part, _) = file;
    if (part.0 == DIRECTORY.0) != directory || !is_kept(changes, part) {
        return Ok(());
    }
    if parts.get(part).is_some() {
        return Ok(());
    }
    let mut own = changed_file(alloc, file, changes)?;
    if directory {
        set_sizes(&mut own, parts, changes);
    }
    parts.put(part, own)
}

/// Puts the file that a change gives for a component.
fn put_given(
    alloc: Global,
    parts: &mut OwnedParts,
    change: Change<'_>,
    changes: &[Change<'_>],
    directory: bool,
) -> Result<(), AllocError> {
    match change {
        Change::File(part, bytes) | Change::Sized(part, bytes) => {
            put(alloc, parts, (part, bytes), changes, directory)
        }
        _ => Ok(()),
    }
}

/// Puts the Directory, or all other components.
fn put_all(
    alloc: Global,
    parts: &mut OwnedParts,
    files: &[File<'_>],
    changes: &[Change<'_>],
    directory: bool,
) -> Result<(), AllocError> {
    for change in changes {
        put_given(alloc, parts, *change, changes, directory)?;
    }
    for file in files {
        put(alloc, parts, *file, changes, directory)?;
    }
    Ok(())
}

/// The parts of a package after the changes, made in their order: each part once, the Directory last.
pub fn changed(
    alloc: Global,
    files: &[File<'_>],
    changes: &[Change<'_>],
) -> Result<OwnedParts, AllocError>
    ensures { IfOk result HasEachOnce }
{
    let mut parts = OwnedParts::new(alloc);
    put_all(alloc, &mut parts, files, changes, false)?;
    put_all(alloc, &mut parts, files, changes, true)?;
    Ok(parts)
}
