use crate::faults::{Told, named};
use crate::known::are_known;
use crate::lines::{BELOW_0, BELOW_1, BELOW_2, INTERFACE, Line, ROOT, classes};
use jc_classes::{Lineage, lineage};
use jc_resolve::{LinkEnd, NamedClasses};
use std::alloc::{AllocError, Global};

/// Object, throwable and a subclass of it, which has most roles.
const ROLES: [u8; 8] = [0, 1, 2, 2, 2, 2, 2, 1];

/// No fault.
const TABLE: Told = ("table", 0, 0);

/// The table of classes, of which the first package has five; none where they name classes that are not there.
fn lineage_of(
    alloc: Global,
    classes: &NamedClasses,
    roles: [u8; 8],
) -> Result<Option<Lineage>, LinkEnd> {
    if classes.len() > 4096 {
        return Ok(None);
    }
    if !are_known(classes) {
        return Ok(None);
    }
    Ok(Some(lineage(alloc, classes, 5, roles)?))
}

fn told(alloc: Global, classes: &NamedClasses, roles: [u8; 8]) -> Told {
    match lineage_of(alloc, classes, roles) {
        Ok(Some(_)) => TABLE,
        Ok(None) => ("unknown", 0, 0),
        Err(end) => named(end),
    }
}

/// Classes and interfaces, roles, and what is told of them: the fault, or `TABLE`.
type Case = (&'static [Line<'static>], [u8; 8], Told);

fn is_told(alloc: Global, case: &Case) -> Result<bool, AllocError> {
    let (lines, roles, want) = case;
    let classes = classes(alloc, lines)?;
    Ok(told(alloc, &classes, *roles) == *want)
}

/// The number of the first case of which something else is told.
fn first_other(alloc: Global, cases: &'static [Case]) -> Result<Option<usize>, AllocError> {
    for (n, case) in cases.iter().enumerate() {
        if !is_told(alloc, case)? {
            return Ok(Some(n));
        }
    }
    Ok(None)
}

/// A class below throwable that implements an interface.
static SERVING: [Line<'static>; 5] = [
    ROOT,
    BELOW_0,
    BELOW_1,
    INTERFACE,
    Line {
        parent: Some(2),
        interfaces: &[3],
        ..ROOT
    },
];

fn is_table(table: &Lineage) -> bool {
    if table.len() != 5 {
        return false;
    }
    table.roles()[7] == 1
        && table.parent(3).is_none()
        && table.parent(4) == Some(2)
        && table.package_of(4) == 0
}

fn is_outlined(alloc: Global, classes: &NamedClasses) -> bool {
    match lineage_of(alloc, classes, ROLES) {
        Ok(Some(table)) => is_table(&table),
        _ => false,
    }
}

fn has_table(alloc: Global) -> Result<bool, AllocError> {
    let classes = classes(alloc, &SERVING)?;
    Ok(is_outlined(alloc, &classes))
}

#[test]
fn a_table_has_superclasses_interfaces_and_roles(rt: HostRuntime) -> Result<(), AllocError> {
    assert!(rt; has_table(rt.alloc())?);
    Ok(())
}

static FAULTS: [Case; 9] = [
    // a superclass that is an interface
    (
        &[
            ROOT,
            BELOW_0,
            BELOW_0,
            INTERFACE,
            Line {
                parent: Some(3),
                ..ROOT
            },
        ],
        ROLES,
        ("SuperIsInterface", 4, 0),
    ),
    // a class that is its own superclass, two below each other, and one below these
    (
        &[
            ROOT,
            BELOW_0,
            BELOW_0,
            Line {
                parent: Some(3),
                ..ROOT
            },
        ],
        ROLES,
        ("Cycle", 3, 0),
    ),
    (
        &[
            ROOT,
            BELOW_0,
            BELOW_0,
            Line {
                parent: Some(4),
                ..ROOT
            },
            Line {
                parent: Some(3),
                ..ROOT
            },
        ],
        ROLES,
        ("Cycle", 3, 0),
    ),
    (
        &[
            ROOT,
            BELOW_0,
            BELOW_0,
            Line {
                parent: Some(4),
                ..ROOT
            },
            Line {
                parent: Some(4),
                ..ROOT
            },
        ],
        ROLES,
        ("Cycle", 4, 0),
    ),
    // an interface that extends itself, also through others
    (
        &[
            ROOT,
            BELOW_0,
            BELOW_1,
            Line {
                interfaces: &[3],
                ..INTERFACE
            },
        ],
        ROLES,
        ("Cycle", 3, 0),
    ),
    (
        &[
            ROOT,
            BELOW_0,
            BELOW_1,
            INTERFACE,
            Line {
                interfaces: &[3, 5],
                ..INTERFACE
            },
            Line {
                interfaces: &[6],
                ..INTERFACE
            },
            Line {
                interfaces: &[3, 4],
                ..INTERFACE
            },
        ],
        ROLES,
        ("Cycle", 4, 0),
    ),
    // a second root, and object with a superclass
    (&[ROOT, BELOW_0, BELOW_1, ROOT], ROLES, ("NoSuper", 3, 0)),
    (
        &[
            Line {
                parent: Some(3),
                ..ROOT
            },
            BELOW_0,
            BELOW_1,
            ROOT,
        ],
        ROLES,
        ("NoSuper", 0, 0),
    ),
    // a class among the interfaces: the least of the least class
    (
        &[
            ROOT,
            BELOW_0,
            BELOW_1,
            INTERFACE,
            Line {
                interfaces: &[3, 2, 1],
                ..BELOW_1
            },
            Line {
                interfaces: &[0],
                ..BELOW_1
            },
        ],
        ROLES,
        ("NotInterface", 4, 1),
    ),
];

#[test]
fn the_first_fault_of_superclasses_is_named(rt: HostRuntime) -> Result<(), AllocError> {
    assert_eq!(rt; first_other(rt.alloc(), &FAULTS)?, None);
    Ok(())
}

static CASTS: [Case; 4] = [
    // subclasses before their superclasses
    (&[ROOT, BELOW_2, BELOW_0], [0, 2, 1, 1, 1, 1, 1, 2], TABLE),
    // roles of other packages, of interfaces, and not below throwable
    (
        &[ROOT, BELOW_0, BELOW_1],
        [0, 1, 2, 2, 2, 5, 2, 2],
        ("NoRole", 5, 0),
    ),
    (
        &[ROOT, BELOW_0, INTERFACE],
        [0, 1, 2, 1, 1, 1, 1, 1],
        ("NoRole", 2, 0),
    ),
    (
        &[ROOT, BELOW_0, BELOW_0],
        [0, 1, 1, 1, 1, 1, 1, 2],
        ("NoRole", 7, 0),
    ),
];

#[test]
fn the_first_role_without_its_class_is_named(rt: HostRuntime) -> Result<(), AllocError> {
    assert_eq!(rt; first_other(rt.alloc(), &CASTS)?, None);
    Ok(())
}
