//! Card typings of a method: what a verifier on the card accepts (Leroy 2002, section 3; JCVM 2.2, section 7.5). One
//! list of registers serves the whole method, and the stack is empty wherever branches meet.
//!
//! The states that such a verifier meets, why it refuses one, and the laws that join both with card typings and these
//! with dataflow typings stand here. It stands on the rules and dataflow typings of `jc_rules`.
#![tactic(auto)]

mod fault;
mod laws;

pub use fault::{CardFault, CardKind};
pub use laws::card_laws;
