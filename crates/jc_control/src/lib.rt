//! Where control goes in a method (JCVM 2.2, section 7.5): whether its code, its targets and its handlers
//! are well formed, which places control reaches, and at which of them it comes together.
//!
//! It stands on the worlds of `jc_base` and on the instructions of `jc_decode`.
#![tactic(auto)]

mod control;
mod flags;
mod laws;
mod listing;
mod places;
mod reached;
mod scan;
mod subject;
mod targets;
mod traversal;
mod walk;

pub use control::{ControlEnd, Flaw, control_flow, covers, place_of};
pub use flags::Flags;
pub use laws::{first_flaw_is_one, flaws_decide, instructions_are_placed};
pub use listing::Listing;
pub use places::Places;
pub use reached::ControlFlow;
pub use scan::{find_flaw, instruction_places, mark_places};
pub use subject::Subject;
pub use targets::Targets;
