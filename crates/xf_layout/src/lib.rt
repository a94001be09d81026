//! Code whose jumps go to labels, laid in bytes (JCVM 2.2, chapter 7), with each instruction in its shortest
//! form. Loads and stores of the first four registers have their forms without an operand, and each jump is
//! short but for the least set that must be wide. It stands on `jc_decode`, whose definitions say what such
//! code is and what bytes stand for it.
#![tactic(auto)]

mod cases;
mod form;
mod handlers;
mod laws;
mod laying;
mod places;
mod plan;
mod settling;

pub use form::Form;
pub use laws::{laid_is_no_longer, plain_sizes_agree, shortest_is_one};
pub use laying::{LayEnd, lay};
