//! Sets of offsets into a component, each of two bytes (Java Card 2.2 VM Specification, chapter 6): one bit for each
//! offset there can be. A set stands on the stack, takes no memory, and is gone over by rising offset.
#![tactic(auto)]

mod offsets;
mod tally;

pub use offsets::Offsets;
pub use tally::Tally;
