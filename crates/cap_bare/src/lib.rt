//! Bare methods: one static method of shorts, given alone as the info of a Method component. Here they are
//! read from that file, verified as on the card (Leroy 2002; Java Card 2.2 VM Specification, chapters 3 and
//! 7) and run. It stands on `cap_bytes` for bytes, on `jc_decode` for instructions and where they lead, on
//! `vm_arithmetic` for the arithmetic of shorts, on `cap_components` for the faults of a file and on `arrayvec`,
//! and takes no memory.
#![tactic(auto)]

mod fault;
mod format;
mod frame;
mod instruction;
mod method;
mod run;
mod verify;

pub use fault::{BareFault, BareKind};
pub use format::Bare;
pub use method::{BareMethod, bare_method};
pub use run::{BareEnd, bare_run};
pub use verify::{bare_laws, bare_verify};
