//! The least dataflow typing of a method (JCVM 2.2, section 7.5; Leroy 2002, section 2.3): the types of registers
//! and operand stack before each instruction that control reaches, or why there are none.
//!
//! A frame that comes to a place is merged with the one that stands there; a place whose frame has risen waits.
//! It stands on the places of `jc_control` and on the rules and the definitions of dataflow typings of `jc_rules`.
#![tactic(auto)]

mod analysis;
mod edges;
mod inference;
mod scratch;
mod table;

pub use inference::{FlowEnd, infer};
