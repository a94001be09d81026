//! Folders that are checked one by one (Java Card 2.2 VM Specification, chapters 4 and 6): where `check` types the package of each over
//! those before it, no run over all meets a fault. It stands on what the commands promise, of `capcheck_core`, and on `law_added`, by
//! which typings stay when packages are added.
#![tactic(auto)]

mod folders;

pub use folders::checked_folders_never_fault;
