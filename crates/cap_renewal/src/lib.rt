//! Components whose length stays when the methods of a package are written anew: Applet, ConstantPool, Class, Export
//! and Descriptor (Java Card 2.2 VM Specification, sections 6.5, 6.7, 6.8, 6.12 and 6.13), and their files. The
//! offsets of methods, and what else the Descriptor tells of them, are written over where they stand; every other
//! byte stays, those that are never read too. It stands on the readers of these components and on `cap_package`,
//! whose components it copies.
#![tactic(auto)]

mod descriptors;
mod exports;
mod members;
mod names;
mod new_methods;
mod pool;
mod tables;

pub use descriptors::renew_descriptor;
pub use exports::{renew_applets, renew_export};
pub use members::{class_file, descriptor_file, file_of};
pub use names::{applet_file, export_file, pool_file};
pub use new_methods::{NewMethod, NewMethods};
pub use pool::renew_pool;
pub use tables::renew_classes;
