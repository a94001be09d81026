//! A package whose methods are written anew (Java Card 2.2 VM Specification, chapter 6): its parts, in which the
//! methods have other code and every component names them at their new places. All else is as it was. The parts are a
//! package again. It stands on `law_package`, which says which package that is, on `cap_package`, whose record it
//! reads, on `cap_laying`, which lays the methods out and makes the Directory, on `cap_renewal` for the components
//! that keep their length, and on `cap_index` for the target index.
#![tactic(auto)]

mod files;
mod index;
mod methods;
mod plain;
mod write;

pub use files::WriteEnd;
pub use write::write_package;
