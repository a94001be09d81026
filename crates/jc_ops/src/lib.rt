//! The operations of instructions (JCVM 2.2, section 7.5): what an instruction does, with all that its operands
//! name in a world.
//!
//! Typing rules and machines are both defined over operations. `resolve` makes one of an instruction at its
//! site, or refuses what the operands name; from an operation alone a machine knows all that it needs of the
//! constant pool and of the place.
//! It stands on the worlds of `jc_base` and on the instructions of `jc_decode`.

#![tactic(auto)]

mod calls;
mod fault;
mod laws;
mod named;
mod operation;
mod resolving;
mod row;

pub use fault::RuleFault;
pub use laws::{entries_are_named, operations_are_sound, operations_go_alike};
pub use operation::{
    Arithmetic, Branch, Callee, Choice, Constant, Holder, InstanceField, Move, Operation, Operator,
    Order, Sameness, Site, Sort, StaticField, TypeTest, Want, Width,
};
pub use resolving::resolve;
