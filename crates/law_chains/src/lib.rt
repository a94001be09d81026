//! The frames of a run are a chain of calls from its entry (JCVM 2.2, sections 3.5 and 6.8.2 and chapter 7). Each method
//! that runs is one that an instruction of the method before it may call, whether control reaches that instruction or
//! not. So the greatest sums of words and of frames along such chains bound every run of the entry. It stands on the
//! typed states of `law_sound`, the steps of `vm_step` and the ways of `digraph`.
#![tactic(auto)]

mod laws;

pub use laws::{chains_bound_runs, frames_are_chains};
