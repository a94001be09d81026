//! What it is that a package is another but for the code of its methods (Java Card 2.2 VM Specification, chapter 6), and
//! that it is a package then. No condition that one component puts on another is broken. Methods are named by their
//! positions in the Descriptor. It stands on `cap_package`, whose conditions these are, and on `cap_laying` and
//! `cap_renewal`, which say how methods and the offsets of methods are written.
#![tactic(auto)]

mod rewritten_package;

pub use rewritten_package::{names_stay, rewritten_is_a_package, writing_rewrites};
