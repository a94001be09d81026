//! The machine that tests what it does (JCVM 2.2, sections 3.5 and 7.5): it runs code that no verifier has seen, and ends a run
//! at the first thing that the code may not do. Each cell is tagged by what it holds. A run is the definition's of `vm_step`.
//! All its memory is taken where it begins.
#![tactic(auto)]

mod laws;
mod reading;
mod starting;
mod state;

pub use laws::{slots_are_inside, starts_are_shaped};
pub use starting::{StartEnd, start, static_cells};
pub use state::{State, run};
