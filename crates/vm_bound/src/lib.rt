//! How much of the stack the runs of an entry take at most (JCVM 2.2, sections 3.5 and 6.8.2). The answer is the greatest sums
//! of frame words and of frames along chains of calls from it, or the least method that stands twice in one. The calls are a
//! graph whose vertices are methods and what calls mean: the entries of a class at a token, and blocks of classes at a
//! public token for the methods of interfaces. So no call has an edge to each method that it may run.
//! It stands on the ways of `digraph`, the calls of `law_chains` and the operations of `jc_ops`.
#![tactic(auto)]

mod bounding;
mod bounds;
mod ends;
mod graph;
mod meanings;
mod method_targets;
mod nearest;
mod order;
mod spread;
mod subclasses;
mod sweep;
mod weighing;

pub use bounding::bound;
pub use bounds::{Bound, BoundEnd};
