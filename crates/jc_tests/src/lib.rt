//! Worked examples, by tables, of types, instructions and rules (JCVM 2.2, chapters 6 and 7), over a world of two packages
//! that extend each other, and of where control goes, of dataflow typings (section 7.5) and of homes, over a world of one
//! method whose code is given. The latter world stands here for other tests too.
//!
//! It stands on `jc_base`, `jc_decode`, `jc_ops`, `jc_control`, `jc_rules`, `jc_flow` and `xf_homes`, whose tests these are.
#![tactic(auto)]

mod caught;
mod one_method;
mod shape;

pub use caught::{Range, handler};
pub use one_method::world;
pub use shape::Shape;

#[cfg(test)]
mod compared;
#[cfg(test)]
mod described;
#[cfg(test)]
mod homes;
#[cfg(test)]
mod instructions;
#[cfg(test)]
mod places;
#[cfg(test)]
mod rules;
#[cfg(test)]
mod two_packages;
#[cfg(test)]
mod types;
#[cfg(test)]
mod typings;
