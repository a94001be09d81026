use crate::lending::lent;
use crate::reading::{Source, owned, read};
use crate::{Told, named};
use cap_bytes::ClassReference;
use cap_package::{OwnedParts, Packages};
use cap_tests::{Change, DIRECTORY, HEADER, IMPORT, PLAIN, PLAIN_ROLES};
use jc_resolve::{Names, names};
use std::alloc::{AllocError, Global};

/// What makes package T another one that imports it.
const IMPORTING: [Change<'static>; 3] = [
    Change::Byte(HEADER, 17, 5),
    Change::Byte(DIRECTORY, 33, 1),
    Change::Sized(IMPORT, &[4, 0, 9, 1, 0, 1, 5, 0xF0, 1, 2, 3, 4]),
];

fn number(n: usize) -> u32 {
    u32::try_from(n).unwrap_or(u32::MAX)
}

/// How many classes and methods the names of packages number, or why there are none.
fn told_of(alloc: Global, packages: &Packages<'_, '_>) -> Told {
    match names(alloc, packages, PLAIN_ROLES) {
        Ok(names) => (
            "names",
            number(names.classes().len()),
            number(names.methods().len()),
        ),
        Err(end) => named(end),
    }
}

fn told(alloc: Global, packages: &[OwnedParts]) -> Result<Told, AllocError> {
    let parts = lent(alloc, packages)?;
    let packages = read(alloc, &parts)?;
    Ok(told_of(alloc, &packages))
}

/// Packages, and what is told of their names.
type Case = (&'static [Source], Told);

static CASES: [Case; 4] = [
    (&[], ("TooManyPackages", 0, 0)),
    (&[(&PLAIN, &[])], ("names", 8, 2)),
    (&[(&PLAIN, &[]), (&PLAIN, &IMPORTING)], ("names", 16, 4)),
    (&[(&PLAIN, &IMPORTING), (&PLAIN, &[])], ("NoPackage", 0, 0)),
];

fn is_told(alloc: Global, case: &Case) -> Result<bool, AllocError> {
    let (sources, want) = case;
    let packages = owned(alloc, sources)?;
    Ok(told(alloc, &packages)? == *want)
}

/// The number of the first case of which something else is told.
fn first_other(alloc: Global) -> Result<Option<usize>, AllocError> {
    for (n, case) in CASES.iter().enumerate() {
        if !is_told(alloc, case)? {
            return Ok(Some(n));
        }
    }
    Ok(None)
}

#[test]
fn classes_and_methods_are_numbered_over_all_packages(rt: HostRuntime) -> Result<(), AllocError> {
    assert_eq!(rt; first_other(rt.alloc())?, None);
    Ok(())
}

/// Whether the names tell this of the second of two packages.
fn tells_second(names: &Names<'_, '_, '_>) -> bool {
    names.packages().len() == 2
        && names.import_met(1, 0) == Some(0)
        && names.class_referred(1, ClassReference::Internal(12)) == Some(9)
        && names.method_at(1, 7) == Some(3)
}

fn is_numbered(alloc: Global, packages: &Packages<'_, '_>) -> bool {
    match names(alloc, packages, PLAIN_ROLES) {
        Ok(names) => {
            let told = tells_second(&names);
            names.into_methods().len() == 4 && told
        }
        Err(_) => false,
    }
}

fn are_numbered(alloc: Global, packages: &[OwnedParts]) -> Result<bool, AllocError> {
    let parts = lent(alloc, packages)?;
    let packages = read(alloc, &parts)?;
    Ok(is_numbered(alloc, &packages))
}

/// Whether package T and the one that imports it are numbered so.
fn both_are_numbered(alloc: Global) -> Result<bool, AllocError> {
    let packages = owned(alloc, &[(&PLAIN, &[]), (&PLAIN, &IMPORTING)])?;
    are_numbered(alloc, &packages)
}

#[test]
fn a_package_that_imports_another_is_numbered_after_it(rt: HostRuntime) -> Result<(), AllocError> {
    assert!(rt; both_are_numbered(rt.alloc())?);
    Ok(())
}
