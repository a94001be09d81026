//! The verifier on the card (Leroy 2002, section 3): it accepts exactly the methods that have a card typing, and takes
//! no memory but the registers and the stack that it is lent.
//!
//! It walks the instructions of a method in the order of the code and raises one list of registers in place, pass
//! after pass, until a pass raises none. Targets are not remembered: where cells are left on the stack the least one
//! ahead is found by a walk, and kept until the pass is beyond it. Over a target index the places that the index lists
//! stand for the targets, so that none is looked for, and each application of a rule and each entry that is read is a
//! step that is counted. `accept` stands on both. It stands on the definitions of `card_typing` and on the rules of
//! `jc_rules`.
#![tactic(auto)]

mod acceptance;
mod ahead;
mod caught;
mod counted;
mod index_verify;
mod pass;
mod room;
mod scan;
mod verify;

pub use acceptance::{Accepted, accept, accept_counted};
pub use card_typing::{CardFault, CardKind};
pub use caught::Marks;
pub use counted::apply_counted;
pub use index_verify::{index_laws, verify_indexed};
pub use room::CardRoom;
pub use verify::{Verifier, verify_method};
