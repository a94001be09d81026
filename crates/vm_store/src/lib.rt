//! What the machines compute with (JCVM 2.2, chapter 3): cells and their types, frames, objects and static
//! fields, and the stores that keep them. They are kept once with the kind of every cell, and once as bare
//! words in memory that a caller lends. It stands on the types and worlds of `jc_base`.
#![tactic(auto)]

mod cell;
mod fill;
mod form;
mod frame;
mod laws;
mod store;
mod tagged;
mod value;

pub use cell::{Cell, CellKind, ObjectHeader, ObjectKind};
pub use fill::{fill_array, fill_instance};
pub use form::CellForm;
pub use frame::{register_count, rotate_cells};
pub use laws::{
    least_types_are_least, new_objects_are_typed, states_erase, typed_heaps_stay_typed,
    types_fall_with_objects, words_erase_cells, writes_keep_kinds,
};
pub use store::Store;
pub use tagged::TaggedStore;
pub use value::{
    byte_of_word, pop_object_value, pop_static_value, push_object_value, push_static_value,
};
