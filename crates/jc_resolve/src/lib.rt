//! Who is named in packages (JCVM 2.2, chapters 4 and 6): classes and methods by number over all packages,
//! the package that meets an import, and what each class reference names.
//! It stands on `cap_package` for what packages say and on `jc_base` for the records of a world.

#![tactic(auto)]

mod class_index;
mod class_records;
mod counts;
mod exports;
mod fault;
mod field_records;
mod imports;
mod method_index;
mod method_records;
mod names_type;
mod naming;
mod numbers;
mod reference_checks;
mod world_types;

pub use fault::{LinkEnd, LinkFault, RecordPlace};
pub use field_records::OwnField;
pub use first_fault::{lesser, refuse};
pub use names_type::Names;
pub use naming::{DispatchTable, NamedClass, NamedClasses, names};
pub use world_types::kind_of;
