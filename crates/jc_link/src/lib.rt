//! The world of packages and the roles of classes (JCVM 2.2, chapters 4 and 6), or the first condition on linking
//! that is broken. In the world each class reference, import and pool entry is replaced by what it names, and the
//! static fields and the initial arrays (section 6.10) stand with them. It stands on the names of `jc_resolve`, the
//! classes of `jc_classes` and the target indexes of `cap_index`, and on `jc_base` for the world.
#![tactic(auto)]

mod catches;
mod entries;
mod fields;
mod image;
mod linking;
mod pools;
mod sites;
mod static_fields;
mod tabling;

pub use catches::handlers_fit;
pub use image::{arrays_fit, statics_fit};
pub use jc_resolve::{LinkEnd, LinkFault};
pub use linking::{link, linked_names_are_one, roles_fit};
pub use pools::members;
pub use static_fields::{arrays, statics};
pub use tabling::class_table;
