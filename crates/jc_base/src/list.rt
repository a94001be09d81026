ghost use Rattle.std.specs.Prelude.{◌≡◌, ◌<◌, List, length, slice_get};

use crate::record::{ArrayRec, ClassRec, Handler, Iface, Member, MethodRec, StaticRec};
use crate::target_index::TargetIndex;
use crate::ty::Ty;
use std::marker::Model;

/// A list that is made once and then read.
#[derive(Drop)]
pub struct Items<T> {
    items: Vec<T>,
}

/// The exception handlers of a method, in table order.
pub type Handlers = Items<Handler>;
/// Types of cells.
pub type Tys = Items<Ty>;
/// The interfaces that a class implements.
pub type Ifaces = Items<Iface>;
/// The public tokens that serve an interface's methods, by the interface's token.
pub type Tokens = Items<u8>;
/// A dispatch list: the number of a method for each token.
pub type Dispatch = Items<u16>;
/// Words of 16 bits: initial values.
pub type Initial = Items<u16>;
/// The classes and interfaces of all packages, by number.
pub type ClassRecs = Items<ClassRec>;
/// The methods of all packages, by number.
pub type Methods = Items<MethodRec>;
/// The static fields of all packages, by number.
pub type Statics = Items<StaticRec>;
/// The initial static arrays, in the order of their handles.
pub type Arrays = Items<ArrayRec>;
/// What the entries of one package's constant pool name, by pool number.
pub type Members = Items<Member>;
/// The members of each package.
pub type Pools = Items<Members>;
/// The target indexes of the methods of all packages, by number.
pub type Indexes<'a> = Items<Option<TargetIndex<'a>>>;

impl<T> Model for Items<T> {
    ghost Value = { List T };

    ghost view = { λ a. a.items.items };
}

impl<T> Items<T> {
    /// The list of these items.
    pub fn of(items: Vec<T>) -> Items<T>
        ensures { result ≡ items.items }
    {
        Items { items }
    }

    /// How many elements there are.
    pub fn len(&self) -> usize
        ensures { result ≡ length self.now }
    {
        self.items.len()
    }

    /// The item at a place, counted from 0.
    pub fn at(&self, n: usize) -> &T
        requires { n < length self.now }
        ensures { slice_get self.now n ≡ Some result.now }
    {
        &self.items[n]
    }

    /// All items, to go over them.
    pub fn as_slice(&self) -> &[T]
        ensures { result.now ≡ self.now }
    {
        self.items.as_slice()
    }
}
