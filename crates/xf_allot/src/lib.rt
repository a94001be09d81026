//! The registers that the variables of a method share (Chaitin 1982): a method with a card typing in, the new number of each
//! of its registers out.
//!
//! A variable is a register that is no argument, or two with an int. It gets the least registers that are free, or that
//! variables of its type have with which it does not interfere. It stands on the definitions of `law_share` and on the live
//! registers of `xf_live`.
#![tactic(auto)]

mod allotting;
mod building;
mod edges;
mod fitting;
mod sharing;
mod uses;

pub use sharing::{Sharing, share_registers};
