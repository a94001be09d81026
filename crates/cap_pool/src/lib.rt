//! The readers of the ConstantPool, Export and ReferenceLocation components (Java Card 2.2 VM
//! Specification, sections 6.7, 6.11 and 6.12). A reader answers the record that the whole info
//! stands for, or the first item that breaks its format. It stands on the items of `cap_bytes`, and
//! takes no memory.
#![tactic(auto)]

mod export_record;
mod lists;
mod location_reads;
mod location_record;
mod pool_record;
mod readers;

pub use export_record::Export;
pub use lists::{ExportClass, ExportedClass, ExportedClasses, PoolEntries};
pub use location_record::Locations;
pub use pool_record::{Pool, PoolEntry, PoolReference, StaticReference};
pub use readers::{export, locations, pool};
