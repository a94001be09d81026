//! Worked worlds: classes by number of which `jc_classes` makes a table, packages that `jc_resolve` and `jc_link` number,
//! lay out and link, or refuse by name, and target indexes that `card_verify` takes or refuses. Two packages stand here
//! beside package T of `cap_tests`: a library and its user, which have a member of each kind.
#![tactic(auto)]

mod faults;

pub use faults::{Told, named};

#[cfg(test)]
mod count_tests;
#[cfg(test)]
mod counting;
#[cfg(test)]
mod index_tests;
#[cfg(test)]
mod indexed_package;
#[cfg(test)]
mod interface_package;
#[cfg(test)]
mod known;
#[cfg(test)]
mod lending;
#[cfg(test)]
mod library_and_user;
#[cfg(test)]
mod limit_tests;
#[cfg(test)]
mod lineage_tests;
#[cfg(test)]
mod lines;
#[cfg(test)]
mod link_tests;
#[cfg(test)]
mod names_tests;
#[cfg(test)]
mod once;
#[cfg(test)]
mod reading;
#[cfg(test)]
mod statics_tests;
#[cfg(test)]
mod table_tests;
#[cfg(test)]
mod world_tests;
