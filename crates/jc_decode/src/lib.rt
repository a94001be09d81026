//! The instructions of Java Card bytecode (Java Card 2.2 VM Specification, chapter 7): their operands, their
//! decoding and encoding, the cases of switches, and a method's code as the list of its instructions. They
//! are decoded from a method's code. Code whose jumps go to labels is read as such a list too, and code that
//! is laid in bytes may stand for it. It stands on `cap_bytes` and `byteorder`; decoding takes no memory.
#![tactic(auto)]

mod cases;
mod decoding;
mod encoding;
mod forms;
mod insn;
mod instructions;
mod key_search;
mod known;
mod laws;
mod layout;
mod names;
mod pool_index;
mod reading;
mod setting;
mod sizes;
mod symbols;

pub use cases::{case, target};
pub use decoding::decode;
pub use encoding::encode;
pub use insn::{Case, CodeEnd, Insn, Placed};
pub use instructions::{Instructions, code_end};
pub use key_search::case_of_key;
pub use known::decode_known;
pub use laws::{
    bytes_read_back, instructions_are_listed, labels_stand_between, listing_is_one,
    nothing_past_the_end, short_is_no_longer, targets_are_few,
};
pub use layout::{Cases, Layout, Operand};
pub use names::{names_are_apart, opcode_name, opcode_named};
pub use pool_index::{IndexWidth, PoolIndex};
pub use setting::set_case;
pub use sizes::{plain_code_size, plain_size};
pub use symbols::{Item, Labels, Laid, LaidHandler, Range, Sequence, Symbols};
