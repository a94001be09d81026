//! A package as the agreement of its parts (Java Card 2.2 VM Specification, chapter 6), and why a list
//! of parts is none. It stands on `cap_components`, which reads the components, and takes no memory but for
//! lists of packages.
#![tactic(auto)]

mod classes;
mod count_checks;
mod handlers;
mod header_checks;
mod methods;
mod name_checks;
mod package_readers;
mod packages;
mod packaging;
mod statics;
mod type_checks;

pub use cap_components::{CountKind, OwnedParts, PackFault, Parts, field_type, interface_offsets};
pub use header_checks::header;
pub use packages::{Custom, Package, Packages, PackagesIter};
pub use packaging::{agreed_package, package, package_opened};
pub use statics::{StaticPlace, StaticPlaces};
