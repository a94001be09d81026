//! The target index of a package (JCVM 2.2, section 6.1.2): a custom component that lists, for each method with code,
//! the places to which it branches. So a verifier on a card need not look for them. It is read for the methods of a
//! world, and written for methods that are laid anew. It stands on `cap_package` for the components, on `jc_base` for
//! the methods of a world and on the places and targets of `jc_control`.
#![tactic(auto)]

mod exact;
mod index_component;
mod lists;
mod of_methods;

pub use exact::{exact_index, indexes_are};
pub use index_component::index_info;
pub use of_methods::indexes;
