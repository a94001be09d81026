//! The step of a machine (JCVM 2.2, sections 3.5 and 7.5), over cells tagged with their kinds, or bare words: what
//! it tests before an operation, what the operation does, and what it tests after. Both machines are instances of
//! this one definition. With it stands when an object is an instance of a class, of an interface or of an array
//! type (chapter 7, `checkcast`, `instanceof` and `aastore`). It stands on the states of `vm_store`, the
//! operations of `jc_ops`, the demands of `jc_rules` and the arithmetic of `vm_arithmetic`.
#![tactic(auto)]

mod arguments;
mod ending;
mod instance;
mod laws;

pub use arguments::{Arg, Args};
pub use ending::{Ending, Exception, Fault, Plain, StartFault, Value};
pub use instance::{is_instance, is_subtype};
pub use laws::{endings_leave, runs_are_runs_of_steps, runs_exist};
