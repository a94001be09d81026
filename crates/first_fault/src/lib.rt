//! Which of several faults is named. Conditions are asked one after the other; the first that is broken
//! tells the fault, and of the things that break it the least is named, and of several that are as low
//! the first. A type of faults says by what they are in order; what it means that a fault is the first
//! is in specs/First.antt, in terms of lists of things at fault, and the laws are in proofs/.
#![tactic(auto)]

mod least;
mod place;

pub use least::{keep_lesser, least_from, lesser, refuse};
pub use place::{Fault, Place};
