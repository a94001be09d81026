//! The machine of verified code (JCVM 2.2, sections 3.2 to 3.6 and 7.5): it keeps bare words in slices that a caller
//! lends, tests none of what the verifier showed, and takes no memory. There are three slices, for frames, objects and
//! static fields. Its words are those of a state of tagged cells that is typed, so that nothing has to be tested (Leroy
//! 2002, section 2): a run of it is the run of the machine that tests all, word by word. It stands on the worlds that
//! `card_verify` accepts, the steps of `vm_run` and the laws of `law_sound` and `law_erasure`.
#![tactic(auto)]

mod machine;
mod object;
mod reading;
mod starting;
mod storing;
mod window;
mod word_machine;
mod words;

pub use machine::Machine;
pub use object::{object_cell, object_elements, object_kind};
pub use starting::{sizes, start};
pub use window::Sizes;
pub use words::{Counts, WordStore};
