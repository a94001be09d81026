//! Steps of a method whose code is another but for registers and places (JCVM 2.2, section 3.5 and chapter 7): two frames
//! that run equal instructions on equal cells come to the same.
//!
//! It stands on the steps of `vm_step`, on the types of cells in `law_sound`, and on worlds that differ in code alone, of
//! `law_laid`.
#![tactic(auto)]

mod likeness;

pub use likeness::{starts_refuse_alike, steps_are_alike, typed_states_stay};
