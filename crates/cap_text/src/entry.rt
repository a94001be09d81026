ghost use Rattle.std.specs.Prelude.{IfSome, IfNone};
ghost use Rattle.cap_text.specs.Entry.{IsEntryWord};

use crate::word::short_number;

/// The method that a run enters, by the numbers of its class and of itself in the Descriptor of the last
/// package, each from 0.
#[derive(Clone, Copy)]
pub struct Entry {
    pub class_no: u16,
    pub method_no: u16,
}

impl Entry {
    /// Reads a word.
    pub fn read(word: &str) -> Option<Entry>
        ensures found { IfSome result (λ e. IsEntryWord word.now e) }
        ensures none { IfNone result ((e : Entry) → IsEntryWord word.now e → ⊥) }
    {
        let (class_no, method_no) = word.split_once('.')?;
        Some(Entry {
            class_no: short_number(class_no)?,
            method_no: short_number(method_no)?,
        })
    }
}
