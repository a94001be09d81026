use crate::Told;
use crate::interface_package::{Sizes, interface_package};
use crate::link_tests::told;
use cap_package::OwnedParts;
use cap_tests::{PLAIN, PLAIN_ROLES, changed};
use std::alloc::{AllocError, Global};

/// Package T, and so many packages of one interface.
fn packages(alloc: Global, sizes: Sizes, times: u8) -> Result<Vec<OwnedParts>, AllocError> {
    let mut packages = Vec::new(alloc);
    packages.push(changed(alloc, &PLAIN, &[])?)?;
    for _ in 0..times {
        packages.push(interface_package(alloc, sizes)?)?;
    }
    Ok(packages)
}

/// What the interface of a package has, how many such packages stand after package T, and what is told of all.
type Case = (Sizes, u8, Told);

fn is_told(alloc: Global, case: &Case) -> Result<bool, AllocError> {
    let (sizes, times, want) = case;
    let packages = packages(alloc, *sizes, *times)?;
    Ok(told(alloc, &packages, PLAIN_ROLES)? == *want)
}

/// The number of the first case of which something else is told.
fn first_other(alloc: Global, cases: &'static [Case]) -> Result<Option<usize>, AllocError> {
    for (n, case) in cases.iter().enumerate() {
        if !is_told(alloc, case)? {
            return Ok(Some(n));
        }
    }
    Ok(None)
}

/// An interface that has nothing.
const NOTHING: Sizes = Sizes {
    arrays: 0,
    each: 0,
    fields: 0,
    methods: 0,
};

static CASES: [Case; 8] = [
    // 1 + 15 and 1 + 16 packages
    (NOTHING, 15, ("world", 23, 2)),
    (NOTHING, 16, ("TooManyPackages", 17, 0)),
    // 2 + 7 * 4681 methods
    (
        Sizes {
            methods: 4681,
            ..NOTHING
        },
        7,
        ("TooManyMethods", 32769, 0),
    ),
    // initial arrays
    (
        Sizes {
            arrays: 4096,
            fields: 1,
            ..NOTHING
        },
        1,
        ("world", 9, 2),
    ),
    (
        Sizes {
            arrays: 4097,
            fields: 1,
            ..NOTHING
        },
        1,
        ("NoRoom", 4097, 0),
    ),
    // their cells, which are named only where the arrays are not too many
    (
        Sizes {
            arrays: 2,
            each: 16384,
            fields: 1,
            ..NOTHING
        },
        1,
        ("world", 9, 2),
    ),
    (
        Sizes {
            arrays: 1,
            each: 32769,
            fields: 1,
            ..NOTHING
        },
        1,
        ("NoRoom", 32769, 0),
    ),
    (
        Sizes {
            arrays: 4097,
            each: 8,
            fields: 1,
            ..NOTHING
        },
        1,
        ("NoRoom", 4097, 0),
    ),
];

#[test]
fn the_limits_of_a_world_are_named(rt: HostRuntime) -> Result<(), AllocError> {
    assert_eq!(rt; first_other(rt.alloc(), &CASES)?, None);
    Ok(())
}

/// 1 + 15 * 1093 * 2 cells. Each package compares its fields in pairs, so this takes long where it is not built by LLVM.
static CELLS: [Case; 1] = [(
    Sizes {
        fields: 1093,
        ..NOTHING
    },
    15,
    ("TooManyStatics", 32791, 0),
)];

#[test]
fn too_many_static_cells_are_named(rt: HostRuntime) -> Result<(), AllocError> {
    assert_eq!(rt; first_other(rt.alloc(), &CELLS)?, None);
    Ok(())
}
