//! Load files: the components of a package, one after another (Java Card 2.2 VM Specification, section 6.1), in blocks, as
//! a card receives them. A `Loader` takes such a file in pieces, and gives the parts or the first fault; `blocks` makes one.
//! It stands on the lists of parts of `cap_components`, and takes memory when a loader is made and a list of parts or a
//! file is given.
#![tactic(auto)]

mod component;
mod fault;
mod laws;
mod loader;
mod order;
mod packing;

pub use component::{Next, Reading};
pub use fault::{BlocksEnd, FinishEnd, StreamFault};
pub use laws::{not_both, one_fault, one_list, one_packed, packed_is_load_file, short_not_long};
pub use loader::{Block, Loader};
pub use packing::blocks;
