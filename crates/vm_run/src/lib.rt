//! Starts, steps and runs of a machine (JCVM 2.2, sections 2.2, 3.1 to 3.7, 6.10 and 7.5), written once over the stores in
//! which a machine keeps its state. A start tells whether an entry begins a run, and makes the state before the first
//! step. A step tells which instruction is next, the tests before it, what it does, what that leads to, and how an object
//! that is thrown finds its handler. Each is the definition of `vm_step`.
#![tactic(auto)]

mod after;
mod arrays;
mod entry;
mod frame;
mod known;
mod outcome;
mod places;
mod refusal;
mod returning;
mod running;
mod statics;
mod unwinding;

pub use after::fault_next;
pub use entry::{begin, starts_are_sized, starts_erase};
pub use known::{Known, fetch};
pub use outcome::{enter_call, finish, go_to, jump_to, make_array, make_instance};
pub use places::MarkedPlaces;
pub use refusal::start_fault;
pub use returning::{give_cell, give_int, give_nothing};
pub use running::{Turning, run, step};
pub use unwinding::{raise, throw_object, unwind};
