//! The typing rule of every instruction (JCVM 2.2, section 7.5; Leroy 2002, section 2.2).
//!
//! `apply` does to the types of registers and operand stack what the operation of an instruction says, or
//! refuses with the first thing that is missing.
//! The definitions of dataflow typings, over which the verifiers are proved, stand here too, with the type that
//! holds one.
//! It stands on the operations of `jc_ops`, the types and worlds of `jc_base` and the instructions of `jc_decode`.

#![tactic(auto)]

mod demand;
mod effect;
mod laws;
mod objects;
mod rule;
mod state;
mod typing;
mod values;

pub use demand::{Before, Demand, HeldFrame, meets};
pub use effect::{Cells, Change, Effect, Mode, RegisterStore};
pub use jc_ops::{RuleFault, Site};
pub use laws::{
    demands_are_decided, footprint_laws, operation_laws, rule_falls, rule_laws, rule_raises,
    typing_laws,
};
pub use rule::{Outcome, apply};
pub use state::Merged;
pub use typing::Typing;
