//! Worked commands: what `capcheck_core` prints for each command over folders in memory, what `run` and `trial` leave in the
//! memory of the card, and where a device fails. The commands are `probe`, `show`, `list`, `check`, `verify`, `install`, `defend`,
//! `run`, `bound`, `transform`, `share`, `trial`, `gen`, `asm` and `pack`. The folders have package T of `cap_tests`, other small
//! packages and the counter of the examples. With them stand worked cases of folders, sinks and words (`cap_files`) and of bare
//! methods (`cap_bare`).
#![tactic(auto)]

#[cfg(test)]
mod arithmetic_tests;
#[cfg(test)]
mod asm_tests;
#[cfg(test)]
mod bare_run_tests;
#[cfg(test)]
mod bound_tests;
#[cfg(test)]
mod check_tests;
#[cfg(test)]
mod checked_tests;
#[cfg(test)]
mod counter_packages;
#[cfg(test)]
mod counter_tests;
#[cfg(test)]
mod defend_tests;
#[cfg(test)]
mod disk_tests;
#[cfg(test)]
mod filling;
#[cfg(test)]
mod gen_tests;
#[cfg(test)]
mod length_tests;
#[cfg(test)]
mod list_tests;
#[cfg(test)]
mod load_tests;
#[cfg(test)]
mod memory_tests;
#[cfg(test)]
mod packing_tests;
#[cfg(test)]
mod probe_tests;
#[cfg(test)]
mod refusal_tests;
#[cfg(test)]
mod rows;
#[cfg(test)]
mod run;
#[cfg(test)]
mod run_tests;
#[cfg(test)]
mod runs;
#[cfg(test)]
mod share_tests;
#[cfg(test)]
mod show_tests;
#[cfg(test)]
mod small_packages;
#[cfg(test)]
mod transform_tests;
#[cfg(test)]
mod trial_tests;
#[cfg(test)]
mod typing_tests;
#[cfg(test)]
mod verify_tests;
#[cfg(test)]
mod word_tests;
