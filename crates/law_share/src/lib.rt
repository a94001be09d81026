//! Methods whose registers are renamed (Chaitin 1982; Leroy 2002, section 4): variables that are never needed together share
//! registers, and each run ends as before.
//!
//! It stands on the steps of a method in two worlds, of `law_alike`, and on card typings, of `card_typing`.
#![tactic(auto)]

mod sharing;

pub use sharing::{
    kept_are_renamed, methods_share_in_one_way, operations_are_renumbered, renamed_are_typed,
    renamed_end_alike, renumbered_apply, shared_have_types, sharing_is_one, written_stay_apart,
};
