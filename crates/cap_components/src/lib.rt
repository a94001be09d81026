//! The files of a package, what each of its components says, and the first of the parts that is at fault
//! (Java Card 2.2 VM Specification, chapter 6). That is one that is absent, breaks its format or has another
//! size than the Directory tells. It stands on the readers of the components, and takes no memory but for
//! lists of parts.
#![tactic(auto)]

mod components;
mod description;
mod fault;
mod part_checks;
mod parts;
mod read;
mod reading;

pub use components::{Components, Opening};
pub use description::{argument_words, code_end, code_start, field_type, words_of};
pub use fault::{CountKind, PackFault};
pub use first_fault::{lesser, refuse};
pub use part_checks::{customs_formed, sizes_agree};
pub use parts::{OwnedParts, Parts};
pub use read::{info_in, opening_in};
pub use reading::{interface_offsets, read_package, read_whole_opened};
