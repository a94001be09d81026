//! What stands outside a verifier: folders of components (Java Card 2.2 VM Specification, section
//! 4.1.2, names their files), a place for text, and the words of a command. Each device is a trait
//! with its failures counted, a form in memory and an adapter of the machine's own. It stands on
//! `cap_bytes` and `itoa`.
#![tactic(auto)]

mod dir_folder;
mod disk;
mod file_system;
mod folder;
mod mem_folder;
mod output;
mod path;
mod pile;
mod records;
mod sink;
mod sure;
mod transfer;
mod words;

pub use dir_folder::DirFolder;
pub use disk::{Disk, DiskFailed};
pub use file_system::FileSystem;
pub use folder::{Folder, LoadEnd, StoreFailed};
pub use mem_folder::MemFolder;
pub use output::{Output, StandardOutput};
pub use path::{FileName, file_name};
pub use sink::{MemSink, OutSink, Sink, SinkFailed};
pub use sure::{SureFolder, SureSink};
pub use words::{Words, WordsIter};
