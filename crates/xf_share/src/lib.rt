//! A package whose methods have fewer registers (Chaitin 1982; Leroy 2002, section 4). Packages of which each method has a
//! card typing go in. The parts of the last one come out, in which variables of one type that are never needed together
//! share registers.
//!
//! It stands on the sharing of one method, of `xf_allot`, on code that is laid, of `xf_layout`, on the writer of packages,
//! `cap_write`, and on the laws of worlds with such packages, of `law_shared_world`.
#![tactic(auto)]

mod fewer;
mod items;
mod laying;
mod numbering;
mod sharing;
mod writing;

pub use fewer::Fewer;
pub use sharing::{ShareEnd, share, share_linked};
