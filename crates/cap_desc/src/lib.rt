//! The Descriptor component (Java Card 2.2 VM Specification, section 6.13): what a package tells of
//! its classes, fields and methods, and its type descriptors. It stands on `cap_bytes` and on
//! `offset_set`, and takes no memory.
#![tactic(auto)]

mod iterate;
mod nibbles;
mod readers;
mod reading;
mod records;
mod type_list;
mod types;

pub use reading::descriptor;
pub use records::{
    AccessFlags, DescClass, DescClasses, DescFields, DescMethods, DescPart, FieldInfo, FieldsOf,
    MethodInfo, MethodsBut, MethodsOf,
};
pub use type_list::TypeItem;
pub use types::Types;
