//! Packages that are transformed, and what came of it.
use cap_bytes::Part;
use cap_package::{OwnedParts, Packages, package};
use cap_tests::{Change, DESCRIPTOR, File, METHOD, PLAIN, PLAIN_ROLES, changed};
use std::alloc::{AllocError, Global};
use xf_pack::{MethodLimit, TransformEnd, transform};

/// What came of a transformation.
#[derive(Drop)]
pub(crate) enum Outcome {
    Made(OwnedParts),
    /// The number of a method and the limit that it passes.
    Limited(u16, MethodLimit),
    /// It is no package, or one that is not transformed for another reason.
    Unfit,
}

/// The second method of package T: its type descriptor, its header and its code.
pub(crate) type Second<'a> = (&'a [u8], &'a [u8], &'a [u8]);

/// Transforms the package with these files after the changes.
pub(crate) fn transformed(
    alloc: Global,
    files: &[File<'_>],
    changes: &[Change<'_>],
) -> Result<Outcome, AllocError> {
    let owned = changed(alloc, files, changes)?;
    of_parts(alloc, &owned)
}

fn of_parts(alloc: Global, owned: &OwnedParts) -> Result<Outcome, AllocError> {
    let parts = owned.lend(alloc)?;
    let Ok(package) = package(&parts) else {
        return Ok(Outcome::Unfit);
    };
    let mut packages = Packages::new(alloc);
    packages.push(package)?;
    match transform(alloc, &packages, PLAIN_ROLES) {
        Ok(made) => Ok(Outcome::Made(made)),
        Err(TransformEnd::Limit { method, limit }) => Ok(Outcome::Limited(method, limit)),
        Err(TransformEnd::Memory) => Err(AllocError),
        Err(_) => Ok(Outcome::Unfit),
    }
}

/// Transforms package T with another second method, whose code has so many bytes in two.
pub(crate) fn with_second(alloc: Global, second: Second<'_>) -> Result<Outcome, AllocError> {
    let (types, header, code) = second;
    let [high, low] = u16::try_from(code.len()).unwrap_or(0).to_be_bytes();
    let changes = [
        Change::Splice(METHOD, 12, 22, code),
        Change::Splice(METHOD, 10, 12, header),
        Change::Splice(DESCRIPTOR, 111, 114, types),
        Change::Byte(DESCRIPTOR, 38, high),
        Change::Byte(DESCRIPTOR, 39, low),
    ];
    transformed(alloc, &PLAIN, &changes)
}

/// Whether a part was made, and from an offset on it has these bytes alone.
pub(crate) fn ends_with(outcome: &Outcome, part: Part, from: usize, bytes: &[u8]) -> bool {
    match outcome {
        Outcome::Made(made) => match made.get(part) {
            Some(file) => from <= file.len() && &file[from..] == bytes,
            None => false,
        },
        _ => false,
    }
}
