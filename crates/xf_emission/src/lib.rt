//! What stands for a method in rewritten code (Leroy 2002, section 4): its items, said instruction by instruction and edge by
//! edge, in nine forms, and what they come to as a whole. What makes them is `xf_code`.
//!
//! It stands on the plan of `xf_homes`.
#![tactic(auto)]

mod laws;
pub mod mnemonics;
mod origin;

pub use laws::{
    groups_stand, items_suit, labels_stand_once, live_are_kept, plain_size_fits, ranges_stand,
    stubs_stand, ways_are_targets,
};
pub use origin::Origin;
