//! Card typings of laid code, and of methods in worlds that differ in code alone (Leroy 2002, section 3; JCVM 2.2, section 7.5).
//!
//! It stands on card typings, of `card_typing`.
#![tactic(auto)]

mod laws;

pub use laws::{
    catches_by_pool, laid_is_typed, methods_are_kept, operations_are_kept, typings_are_kept,
};
