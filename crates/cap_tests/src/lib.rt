//! Worked components and packages. Package T, a small package of eight classes and two methods, stands
//! here once, in format 2.2 and in format 2.1, with what differs in its form for the card and with changes of a
//! package by name. The tests read worked components with each reader (`cap_frame`, `cap_pool`, `cap_class`,
//! `cap_method`, `cap_desc`), and changed packages with `cap_package`. They also try the adapters of `cap_files` over a disk in
//! memory that fails, reads and writes a byte at a time, and fills up.
#![tactic(auto)]

mod card_package;
mod changes;
mod components;
mod handled_package;
mod older_package;
mod plain_package;
mod whole_package;

pub use card_package::{CARD_DIRECTORY, CARD_INDEX, CARD_METHOD, OLDER_CARD_DIRECTORY};
pub use changes::{Change, File, changed};
pub use components::{
    APPLET, CLASS, CONSTANT_POOL, DEBUG, DESCRIPTOR, DIRECTORY, EXPORT, HEADER, IMPORT, METHOD,
    REF_LOCATION, STATIC_FIELD,
};
pub use handled_package::HANDLED;
pub use older_package::{OLDER, OLDER_CLASS, OLDER_DIRECTORY, OLDER_HEADER};
pub use plain_package::{
    PLAIN, PLAIN_CLASS, PLAIN_CONSTANT_POOL, PLAIN_DESCRIPTOR, PLAIN_DIRECTORY, PLAIN_HEADER,
    PLAIN_IMPORT, PLAIN_METHOD, PLAIN_REF_LOCATION, PLAIN_ROLES, PLAIN_STATIC_FIELD,
};
pub use whole_package::WHOLE;

#[cfg(test)]
mod class_tests;
#[cfg(test)]
mod descriptor_tests;
#[cfg(test)]
mod edge_tests;
#[cfg(test)]
mod form_tests;
#[cfg(test)]
mod forms;
#[cfg(test)]
mod frame_tests;
#[cfg(test)]
mod mem_disk;
#[cfg(test)]
mod method_tests;
#[cfg(test)]
mod package_tests;
#[cfg(test)]
mod pool_tests;
#[cfg(test)]
mod samples;
