use crate::faults::{Told, named};
use crate::known::{are_known, are_of_classes, are_sized, name_interfaces};
use crate::lines::{BELOW_0, BELOW_1, Entries, INTERFACE, Line, ROOT, classes};
use jc_base::{Classes, Items, MethodRec, Methods, Sig, Ty};
use jc_classes::{lineage, tables};
use jc_resolve::{LinkEnd, NamedClasses};
use std::alloc::{AllocError, Global};

/// What varies: the cells of throwable; the tables of a class below it, and the token by which it serves
/// an interface; and the result of the method in its table.
#[derive(Clone, Copy)]
struct Shape {
    cells: usize,
    public: Entries<'static>,
    visible: Entries<'static>,
    tokens: &'static [u8],
    result: Option<Ty>,
}

const PLAIN: Shape = Shape {
    cells: 1,
    public: (1, &[Some(2)]),
    visible: (0, &[Some(4)]),
    tokens: &[1],
    result: Some(Ty::Short),
};

/// Object with one method, throwable with a second one, an interface, and a class below throwable that
/// implements it.
fn lines(shape: Shape) -> [Line<'static>; 4] {
    [
        Line {
            public: (0, &[Some(0)]),
            ..ROOT
        },
        Line {
            public: (1, &[Some(1)]),
            cells: shape.cells,
            ..BELOW_0
        },
        INTERFACE,
        Line {
            interfaces: &[2],
            tokens: shape.tokens,
            public: shape.public,
            visible: shape.visible,
            cells: 2,
            ..BELOW_1
        },
    ]
}

/// A method of a class, with a short as argument.
fn method(
    alloc: Global,
    class: u16,
    is_static: bool,
    given: Option<Ty>,
) -> Result<MethodRec, AllocError> {
    Ok(MethodRec {
        package: 0,
        class,
        token: 0,
        class_no: class,
        method_no: 0,
        is_static,
        is_init: false,
        is_abstract: true,
        sig: Sig {
            args: Items::of(Vec::from_slice(alloc, &[Ty::Short])?),
            result: given,
        },
        nargs: 2,
        max_locals: 0,
        max_stack: 0,
        code_at: 0,
        code_len: 0,
        handlers: Items::of(Vec::new(alloc)),
    })
}

/// The methods of object and of throwable, the one that overrides the latter, one of the interface, and a
/// package-visible and a static one.
fn methods(alloc: Global, shape: Shape) -> Result<Methods, AllocError> {
    let short = Some(Ty::Short);
    let all = [
        (0, false, None),
        (1, false, short),
        (3, false, shape.result),
        (2, false, short),
        (3, false, None),
        (3, true, None),
    ];
    let mut items = Vec::new(alloc);
    for (class, is_static, given) in all.iter() {
        items.push(method(alloc, *class, *is_static, *given)?)?;
    }
    Ok(Items::of(items))
}

/// Object, and throwable with every other role.
const ROLES: [u8; 8] = [0, 1, 1, 1, 1, 1, 1, 1];

/// The table of classes; none where something that they name is not there.
fn table_of(
    alloc: Global,
    classes: &NamedClasses,
    methods: &Methods,
) -> Result<Option<Classes>, LinkEnd> {
    if classes.len() > 4096 {
        return Ok(None);
    }
    if !are_known(classes) {
        return Ok(None);
    }
    if !are_sized(classes) {
        return Ok(None);
    }
    if !name_interfaces(classes) {
        return Ok(None);
    }
    if !are_of_classes(methods, classes.len()) {
        return Ok(None);
    }
    let lineage = lineage(alloc, classes, 4, ROLES)?;
    Ok(Some(tables(alloc, &lineage, classes, methods)?))
}

/// Whether the lists and the cells are those of package and superclasses.
fn is_table(table: &Classes) -> bool {
    if table.len() != 4 {
        return false;
    }
    let last = table.at(3);
    last.public.as_slice() == [0, 2].as_slice()
        && last.visible.as_slice() == [4].as_slice()
        && last.cells == 3
        && table.at(2).public.len() == 0
}

fn is_tabled(alloc: Global, classes: &NamedClasses, methods: &Methods) -> bool {
    match table_of(alloc, classes, methods) {
        Ok(Some(table)) => is_table(&table),
        _ => false,
    }
}

fn has_table(alloc: Global) -> Result<bool, AllocError> {
    let classes = classes(alloc, &lines(PLAIN))?;
    let methods = methods(alloc, PLAIN)?;
    Ok(is_tabled(alloc, &classes, &methods))
}

#[test]
fn a_class_has_the_dispatch_lists_and_cells_of_its_superclasses(
    rt: HostRuntime,
) -> Result<(), AllocError> {
    assert!(rt; has_table(rt.alloc())?);
    Ok(())
}

fn told(alloc: Global, classes: &NamedClasses, methods: &Methods) -> Told {
    match table_of(alloc, classes, methods) {
        Ok(Some(_)) => ("table", 0, 0),
        Ok(None) => ("unknown", 0, 0),
        Err(end) => named(end),
    }
}

/// A shape, and what is told of it.
type Case = (Shape, Told);

fn is_told(alloc: Global, case: &Case) -> Result<bool, AllocError> {
    let (shape, want) = case;
    let classes = classes(alloc, &lines(*shape))?;
    let methods = methods(alloc, *shape)?;
    Ok(told(alloc, &classes, &methods) == *want)
}

/// The number of the first shape of which something else is told.
fn first_other(alloc: Global) -> Result<Option<usize>, AllocError> {
    for (n, case) in FAULTS.iter().enumerate() {
        if !is_told(alloc, case)? {
            return Ok(Some(n));
        }
    }
    Ok(None)
}

static FAULTS: [Case; 8] = [
    // a method of an interface, a static one, an open entry, and one in the package-visible list
    (
        Shape {
            public: (1, &[Some(3)]),
            ..PLAIN
        },
        ("Hole", 3, 1),
    ),
    (
        Shape {
            public: (1, &[Some(2), Some(5)]),
            ..PLAIN
        },
        ("Hole", 3, 2),
    ),
    (
        Shape {
            public: (3, &[Some(2)]),
            ..PLAIN
        },
        ("Hole", 3, 2),
    ),
    (
        Shape {
            visible: (1, &[Some(4)]),
            ..PLAIN
        },
        ("Hole", 3, 128),
    ),
    // another signature than the superclass's, none at the token, and too many cells
    (
        Shape {
            result: None,
            ..PLAIN
        },
        ("OverrideType", 3, 1),
    ),
    (
        Shape {
            tokens: &[0],
            ..PLAIN
        },
        ("InterfaceType", 3, 2),
    ),
    (
        Shape {
            tokens: &[2],
            ..PLAIN
        },
        ("InterfaceType", 3, 2),
    ),
    (
        Shape {
            cells: 32766,
            ..PLAIN
        },
        ("InstanceLong", 3, 32768),
    ),
];

#[test]
fn the_first_fault_of_dispatch_lists_and_cells_is_named(rt: HostRuntime) -> Result<(), AllocError> {
    assert_eq!(rt; first_other(rt.alloc())?, None);
    Ok(())
}
