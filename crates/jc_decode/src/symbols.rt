ghost use Rattle.std.specs.Prelude.{◌≡◌, ◌<◌, List, Some, length, slice_get};

use crate::insn::Insn;
use std::marker::Model;

/// A list that is made once and then read.
#[derive(Drop)]
pub struct Sequence<T> {
    items: Vec<T>,
}

impl<T> Model for Sequence<T> {
    ghost Value = { List T };

    ghost view = { λ s. s.items.items };
}

impl<T> Sequence<T> {
    /// The list of these items.
    pub fn of(items: Vec<T>) -> Sequence<T>
        ensures { result ≡ items.items }
    {
        Sequence { items }
    }

    /// How many items there are.
    pub fn len(&self) -> usize
        ensures { result ≡ length self.now }
    {
        self.items.len()
    }

    /// The item of this number, from 0.
    pub fn at(&self, n: usize) -> &T
        requires { n < length self.now }
        ensures { slice_get self.now n ≡ Some result.now }
    {
        &self.items[n]
    }

    /// All items as a slice.
    pub fn as_slice(&self) -> &[T]
        ensures { result.now ≡ self.now }
    {
        self.items.as_slice()
    }
}

/// The labels that a switch leads to: the default's, then those of its cases in the table's order.
pub type Labels = Sequence<u16>;

/// An item of code whose jumps go to labels: an instruction, or a label of the place between two.
#[derive(Drop)]
pub enum Item {
    /// An instruction that names no place.
    Plain(Insn),
    /// A jump with one target: a conditional or goto.
    Branch { op: u8, label: u16 },
    /// The switch `insn` of the source code at `at`, whose keys it keeps.
    Switch { insn: Insn, at: u16, labels: Labels },
    /// The place that this label names.
    Label(u16),
}

/// What an exception handler covers, from a label to before another, the label of its entry, and the
/// number in the constant pool of the class that it catches, or 0 for any.
#[derive(Clone, Copy)]
pub struct Range {
    pub from: u16,
    pub to: u16,
    pub entry: u16,
    pub pool: u16,
}

/// A method's code with labels in place of offsets.
#[derive(Drop)]
pub struct Symbols {
    pub items: Sequence<Item>,
    /// The exception handlers in table order.
    pub ranges: Sequence<Range>,
    pub max_stack: u8,
    pub nargs: u8,
    pub max_locals: u8,
}

/// An exception handler of code that is laid: the place where it begins to cover, the number of bytes
/// that it covers, the place of its entry, and the number in the constant pool of the class that it
/// catches, or 0 for any (section 6.9.2 of the specification).
#[derive(Clone, Copy)]
pub struct LaidHandler {
    pub start: u16,
    pub length: u16,
    pub entry: u16,
    pub pool: u16,
}

/// A method's code as bytes, with its exception handlers in table order.
#[derive(Drop)]
pub struct Laid {
    pub code: Sequence<u8>,
    pub handlers: Sequence<LaidHandler>,
    pub max_stack: u8,
    pub nargs: u8,
    pub max_locals: u8,
}
