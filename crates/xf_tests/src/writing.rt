//! Packages that are written with other code, and what came of it.
use crate::writable::may_be_written;
use cap_package::{OwnedParts, package};
use cap_tests::{Change, File, changed};
use cap_write::{WriteEnd, write_package};
use jc_decode::{Laid, LaidHandler, Sequence};
use std::alloc::{AllocError, Global};

/// The new code of a method: its bytes, how many handlers it has, and max_stack, nargs and max_locals of its header. Each
/// handler covers the first byte, has its entry there and catches any class.
#[derive(Clone, Copy)]
pub(crate) struct Code<'a> {
    pub(crate) bytes: &'a [u8],
    pub(crate) handlers: usize,
    pub(crate) numbers: (u8, u8, u8),
}

/// What came of writing.
#[derive(Drop)]
pub(crate) enum Outcome {
    Written(OwnedParts),
    /// The Method component would be too long, with its plain size.
    Long(u32),
    /// It is no package, or may not be written with this code.
    Unfit,
}

fn laid(alloc: Global, code: &Code<'_>) -> Result<Laid, AllocError> {
    let handler = LaidHandler {
        start: 0,
        length: 1,
        entry: 0,
        pool: 0,
    };
    let (max_stack, nargs, max_locals) = code.numbers;
    Ok(Laid {
        code: Sequence::of(Vec::from_slice(alloc, code.bytes)?),
        handlers: Sequence::of(vec![in alloc; handler; code.handlers]?),
        max_stack,
        nargs,
        max_locals,
    })
}

fn all_laid(alloc: Global, codes: &[Code<'_>]) -> Result<Vec<Option<Laid>>, AllocError> {
    let mut list = Vec::new(alloc);
    for code in codes {
        list.push(Some(laid(alloc, code)?))?;
    }
    Ok(list)
}

/// Writes the package with these files after the changes, with this code for its methods.
pub(crate) fn written(
    alloc: Global,
    files: &[File<'_>],
    changes: &[Change<'_>],
    codes: &[Code<'_>],
) -> Result<Outcome, AllocError> {
    let owned = changed(alloc, files, changes)?;
    let list = all_laid(alloc, codes)?;
    written_with(alloc, &owned, &list)
}

fn written_with(
    alloc: Global,
    owned: &OwnedParts,
    list: &[Option<Laid>],
) -> Result<Outcome, AllocError> {
    let parts = owned.lend(alloc)?;
    let Ok(package) = package(&parts) else {
        return Ok(Outcome::Unfit);
    };
    if !may_be_written(&package, list) {
        return Ok(Outcome::Unfit);
    }
    match write_package(alloc, &package, list) {
        Ok(parts) => Ok(Outcome::Written(parts)),
        Err(WriteEnd::PartLong(size)) => Ok(Outcome::Long(size)),
        Err(WriteEnd::Memory) => Err(AllocError),
    }
}

/// Whether the parts are a package again.
pub(crate) fn is_package(alloc: Global, owned: &OwnedParts) -> Result<bool, AllocError> {
    let parts = owned.lend(alloc)?;
    Ok(package(&parts).is_ok())
}
