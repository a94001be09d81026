use jc_base::{Iface, Ifaces, Items, Ty};
use jc_resolve::{DispatchTable, NamedClass, NamedClasses};
use std::alloc::{AllocError, Global};

/// The entries of a dispatch table, from a token on.
pub(crate) type Entries<'a> = (u8, &'a [Option<u16>]);

/// A class or an interface: what it names by number, the tokens that serve each interface, its tables,
/// and how many cells of its own it has.
#[derive(Clone, Copy)]
pub(crate) struct Line<'a> {
    pub(crate) interface: bool,
    pub(crate) parent: Option<u16>,
    pub(crate) interfaces: &'a [u16],
    pub(crate) tokens: &'a [u8],
    pub(crate) public: Entries<'a>,
    pub(crate) visible: Entries<'a>,
    pub(crate) cells: usize,
}

/// A class without superclass, that has nothing.
pub(crate) const ROOT: Line<'static> = Line {
    interface: false,
    parent: None,
    interfaces: &[],
    tokens: &[],
    public: (0, &[]),
    visible: (0, &[]),
    cells: 0,
};

/// A class below class 0, 1 or 2 that implements nothing.
pub(crate) const BELOW_0: Line<'static> = Line {
    parent: Some(0),
    ..ROOT
};

pub(crate) const BELOW_1: Line<'static> = Line {
    parent: Some(1),
    ..ROOT
};

pub(crate) const BELOW_2: Line<'static> = Line {
    parent: Some(2),
    ..ROOT
};

/// An interface that extends none.
pub(crate) const INTERFACE: Line<'static> = Line {
    interface: true,
    ..ROOT
};

fn table(alloc: Global, entries: Entries<'_>) -> Result<DispatchTable, AllocError> {
    Ok(DispatchTable {
        base: entries.0,
        entries: Items::of(Vec::from_slice(alloc, entries.1)?),
    })
}

fn served(alloc: Global, line: Line<'_>) -> Result<Ifaces, AllocError> {
    let mut items = Vec::new(alloc);
    for class in line.interfaces {
        items.push(Iface {
            class: *class,
            tokens: Items::of(Vec::from_slice(alloc, line.tokens)?),
        })?;
    }
    Ok(Items::of(items))
}

/// The classes and interfaces of these lines, all of one package.
pub(crate) fn classes(alloc: Global, lines: &[Line<'_>]) -> Result<NamedClasses, AllocError> {
    let mut items = Vec::new(alloc);
    for line in lines {
        items.push(NamedClass {
            package: 0,
            interface: line.interface,
            parent: line.parent,
            interfaces: served(alloc, *line)?,
            public: table(alloc, line.public)?,
            visible: table(alloc, line.visible)?,
            own: Items::of(vec![in alloc; Ty::Short; line.cells]?),
        })?;
    }
    Ok(Items::of(items))
}
