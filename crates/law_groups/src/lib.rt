//! Groups of rewritten code beside the instructions for which they stand (Leroy 2002, section 4.1).
//!
//! It stands on the moves between homes, of `law_homes`, and on where rewritten code is laid, of `law_laid`.
#![tactic(auto)]

mod laws;

pub use laws::{
    groups_are_entered, groups_catch, groups_run, groups_stand_at_steps, places_are_renamed,
    rewritten_matches,
};
