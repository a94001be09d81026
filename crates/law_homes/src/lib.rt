//! Frames of rewritten code that hold frames of their source (Leroy 2002, section 4.1): which frames run alike, and
//! which homes hold their values after a step.
//!
//! It stands on the plan and the code of `xf_emission`, and on steps in other code, of `law_alike`.
#![tactic(auto)]

mod laws;

pub use laws::{
    copies_keep_homes, copies_run, edges_run, homes_are_copied, homes_hold, homes_run_alike,
    loads_run, moves_are_few, none_are_written, operands_load, premises_hold, stacks_move,
    steps_execute, steps_stand_at_places, stores_run,
};
