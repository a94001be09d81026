//! What each operation does (JCVM 2.2, chapter 7), once for every machine: the store of a machine's state does what
//! the operation says, and a `Lead` tells what is left to do. What changes is the frame on top, objects and static
//! fields. Here are values and the operand stack, fields and elements of arrays, and which method an object runs
//! (sections 2.2.1 and 6.8.2). It stands on the stores of `vm_store`, the arithmetic of `vm_arithmetic` and the
//! definitions of `vm_step`.
#![tactic(auto)]

mod acting;
mod arithmetic;
mod array;
mod branch;
mod calling;
mod object;
mod put;
mod register;

pub use acting::{Lead, Put, act, served};
pub use arithmetic::{compute, handle_on, int_on, push_int, push_short, short_on};
pub use array::{array_length, is_instance_of, read_array, write_array};
pub use branch::{pop_branch, pop_key, switch_offset};
pub use calling::dispatched;
pub use object::{read_field, write_field};
pub use put::perform_put;
pub use register::{increment, load, move_cells, push_constant, store_top};
