//! The world of a package that is written with other code of its methods (Leroy 2002, section 4): a card's verifier
//! accepts what is laid for each method, and each run ends as before.
//!
//! It stands on the groups of rewritten code, of `law_groups`, on the steps of a method in two worlds, of `law_alike`, on
//! states that are typed, of `law_sound`, and on packages that link as before, of `law_relink`.
#![tactic(auto)]

mod accepted_world;

pub use accepted_world::{codes_are_bytes, laid_end_alike, laid_is_accepted, worlds_end_alike};
