//! Bytes of CAP components that are read and written (Java Card 2.2 VM Specification, chapter 6): big-endian numbers
//! at places, the faults of a file, and items that are taken or written in turn. Items are said by the words in which
//! the formats are given (specs/Grammar.antt). A reader of a component is a chain of items; what it promises is which
//! bytes its format stands for, and which item is the first that breaks it. Numbers can be written over where they
//! stand, which keeps every other byte. It stands on `byteorder`, and takes no memory.
#![tactic(auto)]

mod class_reference;
mod cursor;
mod fault;
mod table;
mod take;
mod view;

pub use class_reference::ClassReference;
pub use cursor::Cursor;
pub use fault::{FormFault, FormKind, Format, Part};
pub use table::Table;
pub use view::{View, are_bytes, patch, patches_renew};
