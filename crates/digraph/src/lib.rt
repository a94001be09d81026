//! Directed graphs whose vertices are numbers: what a vertex leads to, the greatest sum of weights along a way, and the
//! least vertex that comes again on a way. A graph has, for each vertex, the numbers to which edges go from it. A sum and a
//! vertex that are answered are exact. An order and ranks, found by one walk in depth, make them fast; they are hints, of
//! which nothing is proved or needed. It stands on the library alone.
#![tactic(auto)]

mod graph;
mod hints;
mod search;
mod settling;

pub use graph::{Digraph, Row};
pub use search::{least_recurring, led_to};
pub use settling::greatest;
