ghost use Rattle.std.specs.Prelude.{◌≡◌, ◌<◌};
ghost use Rattle.vm_store.specs.Kind.{cell_kind, element_width, type_of_kind};
ghost use Rattle.jc_base.specs.Class.{class_in_types};
ghost use Rattle.vm_store.specs.Typing.{fresh_seen};

use jc_base::{Classes, Ty};

/// What a cell of a register, of an operand stack, of an object or of a static field holds
/// (JCVM 2.2, sections 3.1 and 3.5), with the kind of it: a cell of a machine that tests what it does.
#[derive(Clone, Copy, Default)]
pub enum Cell {
    /// Nothing was stored yet: a register of a method that no argument fills.
    #[default]
    Empty,
    Short(i16),
    /// The high 16 bits of an int.
    High(u16),
    /// The low 16 bits of an int.
    Low(u16),
    /// The handle of an object, and 0 for null.
    Ref(u16),
    /// The handle of an object on which no constructor was called yet, and the place of the `new`
    /// that made it.
    Fresh { handle: u16, place: u16 },
}

/// What a cell is made for: a reference, a short, or one half of an int.
#[derive(Clone, Copy)]
pub enum CellKind {
    Reference,
    Short,
    High,
    Low,
}

/// What an object is: an instance of a class, or an array of elements of a type
/// (JCVM 2.2, sections 2.2 and 3.6).
#[derive(Clone, Copy)]
pub enum ObjectKind {
    /// An instance of a class, by its number.
    Instance(u16),
    Booleans,
    Bytes,
    Shorts,
    Ints,
    /// References of a class or an interface, by its number.
    References(u16),
}

impl ObjectKind {
    /// The type of a reference to such an object: an array of an interface is one of object.
    pub fn ty(self, classes: &Classes) -> Ty
        ensures { result ≡ type_of_kind classes.now self }
    {
        match self {
            ObjectKind::Instance(class) => Ty::Class(class),
            ObjectKind::Booleans => Ty::ArrBool,
            ObjectKind::Bytes => Ty::ArrByte,
            ObjectKind::Shorts => Ty::ArrShort,
            ObjectKind::Ints => Ty::ArrInt,
            ObjectKind::References(class) => Ty::ArrRef(seen_class(classes, class)),
        }
    }

    /// The type of such an object that the `new` at the place made, before its constructor is called.
    pub fn fresh(self, place: u16) -> Ty
        ensures { result ≡ fresh_seen place (Some self) }
    {
        match self {
            ObjectKind::Instance(class) => Ty::Fresh { place, class },
            _ => Ty::Top,
        }
    }

    /// How many cells an element takes, or a cell of an instance.
    pub fn width(self) -> usize
        ensures value { result ≡ element_width self }
        ensures most { result < 3 }
    {
        match self {
            ObjectKind::Ints => 2,
            _ => 1,
        }
    }
}

/// The class that stands in types for a class or an interface.
fn seen_class(classes: &Classes, class: u16) -> u16
    ensures { result ≡ class_in_types classes.now class }
{
    if (class as usize) < classes.len() && classes.is_interface(class) {
        classes.role(0)
    } else {
        class
    }
}

/// What a cell of a type is made for.
pub fn cell_kind(ty: Ty) -> CellKind
    ensures { result ≡ cell_kind ty }
{
    match ty {
        Ty::Short => CellKind::Short,
        Ty::IntHigh => CellKind::High,
        Ty::IntLow => CellKind::Low,
        _ => CellKind::Reference,
    }
}

/// Where the cells of an object lie: as many as its elements ask, from a number on.
#[derive(Clone, Copy)]
pub struct ObjectHeader {
    pub kind: ObjectKind,
    /// The number of its first cell.
    pub start: u16,
    /// The number of its elements, or of its cells where it is an instance.
    pub elements: u16,
}

impl ObjectHeader {
    ghost use Rattle.vm_store.specs.Layout.{size};

    /// The number of its cells.
    pub fn size(self) -> usize
        ensures { result ≡ size self }
    {
        self.kind.width() * self.elements as usize
    }
}
