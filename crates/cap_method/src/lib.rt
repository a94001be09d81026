//! The Method and StaticField components (Java Card 2.2 VM Specification, sections 6.9 and 6.10):
//! the table of exception handlers, the headers of methods, and the image of static fields. It stands
//! on `cap_bytes` for the words of the formats and on `bitflags` for flags, and takes no memory.
#![tactic(auto)]

mod method_part;
mod read_methods;
mod read_statics;
mod static_part;

pub use method_part::{HandlerEntries, MethodPart};
pub use read_methods::{HandlerInfo, MethodFlags, MethodHeader, methods};
pub use read_statics::{ArrayInit, statics};
pub use static_part::{ArrayInits, StaticPart};
