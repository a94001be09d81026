//! The world of a package whose methods share registers (Chaitin 1982; Leroy 2002, section 4): a card's verifier accepts each
//! of its methods, and each run ends in step with the former one.
//!
//! It stands on renumbered code, of `law_renumbered`, on renamed methods, of `law_share`, and on packages that link as before,
//! of `law_relink`.
#![tactic(auto)]

mod shared_world;

pub use shared_world::{in_step_keeps_alike, shared_world_ends_in_step};
