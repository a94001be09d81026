//! What a command stores and a later one reads (Leroy 2002, section 4): the folders of the libraries and the one in which `transform`
//! stored a package make the new world, and the Load file that `pack` stored is installed as its source is verified. It stands on what the
//! commands answer, of `capcheck_core`, on the writer, of `cap_write`, and on the Load file, of `cap_load`.
#![tactic(auto)]

mod stored;

pub use stored::{packed_is_installed, stored_is_read};
