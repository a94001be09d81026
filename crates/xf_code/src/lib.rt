//! The code of a method with homes in place of its locals, as symbols (Leroy 2002, section 4): what a verifier on the card
//! accepts, and what does as the method did.
//!
//! The code appends exactly the items that `xf_emission` says, by the plan of `xf_homes`.
#![tactic(auto)]

mod body;
mod edge;
mod emitter;
mod field;
mod group;
mod handlers;
mod jump;
mod moves;
mod rewriting;
mod ways;

pub use rewriting::{RewriteEnd, rewrite};
