//! The class table of linked packages (JCVM 2.2, sections 2.2.1, 4.3.7.6, 6.8 and 6.8.2): lines of superclasses,
//! dispatch lists, interfaces, roles and instance cells, or the first fault of these. In the lines every chain of
//! superclasses ends with object. It stands on the classes and methods by number of `jc_resolve` and on the records of
//! `jc_base`.
#![tactic(auto)]

mod building;
mod checks;
mod climb;
mod groups;
mod holes;
mod interfaces;
mod lineage_type;
mod lines;
mod made_list;
mod overlay;
mod overrides;
mod signatures;
mod slots;

pub use lineage_type::Lineage;
pub use lines::lineage;
pub use made_list::tables;
