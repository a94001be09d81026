//! What holds of a world when packages are added to it (Java Card 2.2 VM Specification, chapters 4 and 6): classes, methods and fields
//! keep their numbers, and typings stay typings. All that a package names stands before it. Packages that are checked one by one, each
//! with those before it, therefore meet no fault together. It stands on `jc_link`, which says what world packages make, and on
//! `law_sound`, by which typed code meets no fault.
#![tactic(auto)]

mod added;

pub use added::{checked_packages_never_fault, typings_stay, worlds_begin};
