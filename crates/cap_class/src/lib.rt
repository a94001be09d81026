//! The Class component (Java Card 2.2 VM Specification, section 6.8): interfaces and then classes,
//! with their dispatch tables and the interfaces that they implement. It stands on `cap_bytes` for
//! the words of the format and on `bitflags` for flags, and takes no memory.
#![tactic(auto)]

mod class_info;
mod reading;

pub use class_info::{ClassFlags, ClassInfo, ClassInfos, ClassPart, Implemented, Interfaces};
pub use reading::classes;
