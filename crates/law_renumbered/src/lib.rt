//! The code of a method whose registers have other numbers (Chaitin 1982): with a label at each place it is laid anew, and is
//! then the method with its registers renamed.
//!
//! It stands on renamed methods, of `law_share`, and on code that is laid, of `law_laid`.
#![tactic(auto)]

mod laws;

pub use laws::{renumbered_is_renamed, shared_numbers_serve};
