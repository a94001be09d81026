//! The words that capcheck takes and the texts that it prints: the grammar of its commands, and the
//! lines for each answer and for what a run leaves. Faults, arguments and endings are those of the crates below. It stands on `cap_files`
//! for the words, on `itoa` for numbers and on `hex` for bytes.
#![tactic(auto)]

mod asm_line;
mod command;
mod ending;
mod entry;
mod fault;
mod generate;
mod line;
mod linked;
mod operands;
mod printed;
mod probe;
mod refusals;
mod room;
mod run;
mod table;
mod transform_line;
mod word;

pub use asm_line::{assembled, not_assembled};
pub use command::{Command, read_command};
pub use ending::{write_array_head, write_element, write_ending, write_static};
pub use entry::Entry;
pub use fault::Shown;
pub use generate::{Generate, generated};
pub use line::{
    MethodNumber, accepted, bare_ending, bounded, cycle, limit_load, malformed, malformed_stream,
    not_linked, not_started, packed, refused_bare, refused_card, refused_flow, shared, tried,
    typed, write_not_started, write_refused_card,
};
pub use operands::{AtEntry, OfDir, OfDirs, OutOfDir, OutOfDirs};
pub use probe::Probe;
pub use room::Room;
pub use run::Run;
pub use table::component_table;
pub use transform_line::{limit_code, limit_part, limit_registers, limit_stack, transformed};
pub use word::{OwnedArg, argument, folder_word, folder_words, number};
