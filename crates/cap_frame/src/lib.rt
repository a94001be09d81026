//! The frame of every component, and the readers of the Header, Directory, Import and Applet
//! components (Java Card 2.2 VM Specification, sections 6.1 and 6.3 to 6.6). A reader answers the
//! record that the whole info stands for, or the first item that breaks its format. It stands on the
//! items of `cap_bytes` and the flags of `bitflags`, and takes no memory.
#![tactic(auto)]

mod applet_record;
mod directory_record;
mod framing;
mod header_record;
mod import_record;
mod lists;
mod readers;

pub use applet_record::{AppletInfo, Applets};
pub use directory_record::{CustomEntry, Directory};
pub use framing::frame;
pub use header_record::{Header, HeaderFlags, PackageInfo};
pub use import_record::Imports;
pub use lists::{AppletInfos, CustomEntries, PackageInfos};
pub use readers::{applets, directory, header, imports};
