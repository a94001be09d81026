//! The target index that is written with a package, in the world that the package makes (Java Card 2.2 VM Specification,
//! section 6.1.2): each method with code has the exact index of its code. It stands on `cap_write`, which writes the
//! index, on `cap_index`, which reads it again, and on `law_relink`, which says what the new world is.
#![tactic(auto)]

mod written_index;

pub use written_index::written_index_is_exact;
