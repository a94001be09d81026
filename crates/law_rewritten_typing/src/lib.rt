//! The card typing of rewritten code (Leroy 2002, sections 3 and 4).
//!
//! It stands on what is emitted, of `xf_emission`, and on card typings, of `card_typing`.
#![tactic(auto)]

mod laws;

pub use laws::{derived_are_whole, edges_carry, rewritten_is_typed};
