//! Live registers of a flow graph (Aho, Lam, Sethi and Ullman, section 9.2.5): those that may be read before they are
//! written. Two registers interfere where one is written and the other is live after that, or where both are live at the
//! beginning (Chaitin 1982).
//!
//! It stands on nothing of the project: a node has the registers that it reads and those that it writes, and the nodes
//! from which control comes to it.
#![tactic(auto)]

mod graph;
mod interference;
mod live;
mod set;

pub use graph::{Edge, Uses, live_before};
pub use interference::{Interference, find_interference};
pub use live::{Node, live_sets};
pub use set::RegisterSet;
