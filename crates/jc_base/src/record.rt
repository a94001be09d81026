use crate::list::{Dispatch, Handlers, Ifaces, Initial, Tokens, Tys};
use crate::ty::{Kind, Ty};

/// What an entry of a constant pool names, once its package is linked (JCVM 2.2, section 6.7).
#[derive(Clone, Copy)]
pub enum Member {
    /// The number of a class or an interface.
    ClassOf {
        class: u16,
    },
    /// An instance field. `cell` is the first of its cells among all cells of an object of the class,
    /// and `ty` the type of that cell.
    Field {
        class: u16,
        cell: u16,
        kind: Kind,
        ty: Ty,
    },
    /// A static field. `slot` is its first cell among the static cells of all packages.
    Static {
        slot: u16,
        kind: Kind,
        ty: Ty,
    },
    /// A token of a class's dispatch lists, package-visible from 128 on.
    Virtual {
        class: u16,
        token: u8,
    },
    /// The method that a class's superclass has for a token.
    Super {
        class: u16,
        method: u16,
    },
    /// A method that is called without dispatch.
    StaticCall {
        method: u16,
    },
}

/// An exception handler (JCVM 2.2, section 6.9.1). Places are offsets in the method's code.
#[derive(Clone, Copy)]
pub struct Handler {
    pub start: u16,
    /// One past the last byte of the range.
    pub end: u16,
    pub entry: u16,
    /// The pool number of the caught class, and 0 where the handler catches all.
    pub index: u16,
    /// The number of the caught class: throwable where `index` is 0.
    pub class: u16,
}

/// The signature of a method.
#[derive(Drop)]
pub struct Sig {
    /// One type for each argument word without the receiver; an int is `IntHigh`, `IntLow`.
    pub args: Tys,
    /// The type of the result, where there is one; an int is `IntHigh`.
    pub result: Option<Ty>,
}

/// A method with what its Descriptor and its header say (JCVM 2.2, sections 6.9.2 and 6.13).
#[derive(Drop)]
pub struct MethodRec {
    pub package: u16,
    pub class: u16,
    pub token: u8,
    /// The number of its class in its package's Descriptor.
    pub class_no: u16,
    /// Its number in that class's Descriptor.
    pub method_no: u16,
    pub is_static: bool,
    pub is_init: bool,
    pub is_abstract: bool,
    pub sig: Sig,
    /// The argument words, with the receiver.
    pub nargs: u8,
    /// The registers after the arguments.
    pub max_locals: u8,
    pub max_stack: u8,
    /// The offset of its code in the Method info of its package.
    pub code_at: u16,
    /// The length of its code in bytes, 0 for an abstract method and a method of an interface.
    pub code_len: u16,
    pub handlers: Handlers,
}

/// An interface that a class implements, or that an interface extends, then without tokens.
#[derive(Drop)]
pub struct Iface {
    /// The number of the interface.
    pub class: u16,
    /// For each token of the interface the public token of the class that serves it.
    pub tokens: Tokens,
}

/// A class or an interface (JCVM 2.2, section 6.8).
#[derive(Drop)]
pub struct ClassRec {
    pub package: u16,
    pub interface: bool,
    pub parent: Option<u16>,
    /// The cells of an instance, those of the superclass counted.
    pub cells: u16,
    /// One type for each cell that the class's own fields add; boolean and byte are `Short`.
    pub own: Tys,
    pub implements: Ifaces,
    /// The methods of the public tokens.
    pub public: Dispatch,
    /// The methods of the package-visible tokens.
    pub visible: Dispatch,
}

/// A static field.
#[derive(Drop)]
pub struct StaticRec {
    pub package: u16,
    /// Its offset in the static field image of its package, in bytes.
    pub offset: u16,
    pub kind: Kind,
    pub ty: Ty,
    /// Its first cell among the static cells of all packages.
    pub slot: u16,
    /// The initial words: high then low for an int, and for a reference the handle of an initial array
    /// or 0.
    pub initial: Initial,
}

/// An array that exists from the start (JCVM 2.2, section 6.10).
#[derive(Drop)]
pub struct ArrayRec {
    /// The type of the array, one of the four primitive ones.
    pub kind: Ty,
    /// The initial words, for an int element high then low.
    pub initial: Initial,
}
