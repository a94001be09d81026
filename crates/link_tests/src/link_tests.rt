use crate::lending::lent;
use crate::library_and_user::{LIBRARY, LIBRARY_ROLES, USER};
use crate::reading::{Source, owned, read};
use crate::{Told, named};
use cap_package::{OwnedParts, Packages};
use cap_tests::{CLASS, CONSTANT_POOL, Change, DESCRIPTOR, IMPORT, METHOD, PLAIN, PLAIN_ROLES};
use jc_link::link;
use std::alloc::{AllocError, Global};

fn told_of(alloc: Global, packages: &Packages<'_, '_>, roles: [u8; 8]) -> Told {
    match link(alloc, packages, roles) {
        Ok(world) => (
            "world",
            world.class_count() as u32,
            world.method_count() as u32,
        ),
        Err(end) => named(end),
    }
}

/// How many classes and methods the world of the packages has, or why there is none.
pub(crate) fn told(
    alloc: Global,
    packages: &[OwnedParts],
    roles: [u8; 8],
) -> Result<Told, AllocError> {
    let parts = lent(alloc, packages)?;
    let packages = read(alloc, &parts)?;
    Ok(told_of(alloc, &packages, roles))
}

/// Packages, the roles in the first, and what is told of them.
type Case = (&'static [Source], [u8; 8], Told);

fn is_told(alloc: Global, case: &Case) -> Result<bool, AllocError> {
    let (sources, roles, want) = case;
    let packages = owned(alloc, sources)?;
    Ok(told(alloc, &packages, *roles)? == *want)
}

/// The number of the first case of which something else is told.
fn first_other(alloc: Global, cases: &'static [Case]) -> Result<Option<usize>, AllocError> {
    for (n, case) in cases.iter().enumerate() {
        if !is_told(alloc, case)? {
            return Ok(Some(n));
        }
    }
    Ok(None)
}

/// Package T with another superclass of its second class, and with other roles.
static ONE: [Case; 6] = [
    (&[], PLAIN_ROLES, ("TooManyPackages", 0, 0)),
    (&[(&PLAIN, &[])], PLAIN_ROLES, ("world", 8, 2)),
    (
        &[(&PLAIN, &[Change::Byte(CLASS, 17, 0x0D)])],
        PLAIN_ROLES,
        ("NoClass", 0, 13),
    ),
    (
        &[(&PLAIN, &[Change::Byte(CLASS, 17, 0x0C)])],
        PLAIN_ROLES,
        ("Cycle", 1, 0),
    ),
    (&[(&PLAIN, &[])], [8, 1, 2, 3, 4, 5, 6, 7], ("NoRole", 0, 0)),
    (
        &[(&PLAIN, &[])],
        [1, 1, 2, 3, 4, 5, 6, 7],
        ("NoSuper", 0, 0),
    ),
];

#[test]
fn the_first_fault_of_one_package_is_named(rt: HostRuntime) -> Result<(), AllocError> {
    assert_eq!(rt; first_other(rt.alloc(), &ONE)?, None);
    Ok(())
}

/// The library and its user with changes.
static TWO: [Case; 11] = [
    (
        &[(&LIBRARY, &[]), (&USER, &[])],
        LIBRARY_ROLES,
        ("world", 4, 7),
    ),
    // an import of another package
    (
        &[(&LIBRARY, &[]), (&USER, &[Change::Byte(IMPORT, 11, 5)])],
        LIBRARY_ROLES,
        ("NoPackage", 1, 0),
    ),
    // an interface as superclass, and a class as interface
    (
        &[(&LIBRARY, &[]), (&USER, &[Change::Byte(CLASS, 7, 0)])],
        LIBRARY_ROLES,
        ("SuperIsInterface", 3, 0),
    ),
    (
        &[(&LIBRARY, &[]), (&USER, &[Change::Byte(CLASS, 22, 1)])],
        LIBRARY_ROLES,
        ("NotInterface", 3, 1),
    ),
    // a table that begins after the end of the inherited list
    (
        &[(&LIBRARY, &[]), (&USER, &[Change::Byte(CLASS, 11, 2)])],
        LIBRARY_ROLES,
        ("Hole", 3, 1),
    ),
    // another signature than the superclass's
    (
        &[
            (&LIBRARY, &[]),
            (&USER, &[Change::Byte(DESCRIPTOR, 27, 0x18)]),
        ],
        LIBRARY_ROLES,
        ("OverrideType", 3, 0),
    ),
    // no method for the interface's token
    (
        &[(&LIBRARY, &[]), (&USER, &[Change::Byte(CLASS, 24, 5)])],
        LIBRARY_ROLES,
        ("InterfaceType", 3, 0),
    ),
    // a static method that is not exported
    (
        &[
            (&LIBRARY, &[]),
            (&USER, &[Change::Byte(CONSTANT_POOL, 32, 1)]),
        ],
        LIBRARY_ROLES,
        ("NoMember", 1, 6),
    ),
    // a class that is not thrown, and one that is
    (
        &[(&LIBRARY, &[]), (&USER, &[Change::Byte(METHOD, 11, 8)])],
        LIBRARY_ROLES,
        ("BadCatch", 1, 0),
    ),
    (
        &[(&LIBRARY, &[]), (&USER, &[Change::Byte(METHOD, 11, 9)])],
        LIBRARY_ROLES,
        ("world", 4, 7),
    ),
    // the method that all classes inherit is abstract
    (
        &[
            (
                &LIBRARY,
                &[
                    Change::Byte(METHOD, 4, 0x41),
                    Change::Byte(DESCRIPTOR, 48, 0),
                ],
            ),
            (&USER, &[]),
        ],
        LIBRARY_ROLES,
        ("RoleAbstract", 2, 0),
    ),
];

#[test]
fn the_first_fault_of_two_packages_is_named(rt: HostRuntime) -> Result<(), AllocError> {
    assert_eq!(rt; first_other(rt.alloc(), &TWO)?, None);
    Ok(())
}
