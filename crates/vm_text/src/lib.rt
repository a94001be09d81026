//! The text of what a run leaves: how it ended, the array of numbers that it returned, and the static fields (JCVM 2.2,
//! sections 2.2 and 3.1). It is one text for both machines: the definition is over any form of cells, and the code over
//! whatever tells what is left. It stands on the lines of `cap_text` and on what is read of a state in `vm_defend`.
#![tactic(auto)]

mod leaves;
mod lent;
mod writing;

pub use leaves::Leaves;
pub use lent::LentRun;
pub use writing::{room, texts_are_alike, write_run};
