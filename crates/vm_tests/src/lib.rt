//! Worked cases of the machines' arithmetic and stores, and runs of the machine that tests nothing beside those of the one
//! that tests what it does, over a world of one method with given code. Over a package of methods that call each other, the
//! words of live frames in each state of twenty runs stand beside what `vm_bound` says.
#![tactic(auto)]

#[cfg(test)]
mod bound_tests;
#[cfg(test)]
mod chained_package;
#[cfg(test)]
mod live_tests;
#[cfg(test)]
mod number_tests;
#[cfg(test)]
mod run_tests;
#[cfg(test)]
mod store_tests;
#[cfg(test)]
mod stores;
