use cap_package::{OwnedParts, Packages, Parts, package};
use cap_tests::{Change, File, changed};
use std::alloc::{AllocError, Global};

/// The files of a package, and changes of it.
pub(crate) type Source = (&'static [File<'static>], &'static [Change<'static>]);

/// The parts of these packages.
pub(crate) fn owned(alloc: Global, sources: &[Source]) -> Result<Vec<OwnedParts>, AllocError> {
    let mut packages = Vec::new(alloc);
    for (files, changes) in sources {
        packages.push(changed(alloc, files, changes)?)?;
    }
    Ok(packages)
}

/// The packages that the parts stand for; parts that stand for none give none.
pub(crate) fn read<'p, 'a>(
    alloc: Global,
    all: &'p [Parts<'a>],
) -> Result<Packages<'p, 'a>, AllocError> {
    let mut packages = Packages::new(alloc);
    for parts in all {
        if let Ok(package) = package(parts) {
            packages.push(package)?;
        }
    }
    Ok(packages)
}
