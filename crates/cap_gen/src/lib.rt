//! A large package from a number: a class with two hundred short methods, of four kinds in turn, each of which has a dataflow
//! typing (Java Card 2.2 VM Specification, chapter 6). It stands on `cap_package` for the parts.
#![tactic(auto)]

mod described;
mod generating;
mod methods;
mod plain;

pub use generating::{
    ROLES, generate, methods_are_typed, methods_stand, packages_link, parts_stand,
};
