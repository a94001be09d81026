//! The listing of a package's methods: a text that tells their code instruction by instruction, the reading of such a
//! text, and a package with the methods of one. Instructions have the names of the standard (Java Card 2.2 VM
//! Specification, chapter 7). It stands on `cap_package` and `jc_decode`; what `place` gives is what `cap_write` takes,
//! and that the handlers of a package's methods lie in their code comes from `jc_resolve`.
#![tactic(auto)]

mod assembling;
mod block;
mod cut;
mod fault;
mod fitting;
mod laws;
mod line;
mod method;
mod numbers;
mod open_method;
mod package_methods;
mod placing;
mod recognized;
mod text;

pub use assembling::assemble;
pub use fault::{AsmEnd, AsmFault};
pub use laws::{listing_comes_back, methods_are_replaced, one_bad_line, one_listing};
pub use method::{Listed, ListedMethod};
pub use package_methods::listed_methods;
pub use placing::place;
pub use text::{listed_text, listing};
