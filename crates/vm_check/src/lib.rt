//! What a machine of tagged cells tests before an operation (JCVM 2.2, section 7.5): registers, cells and their types,
//! by the demands of the operation's typing rule. Where the tests pass, the state has what the operation asks.
//! It stands on the operations of `vm_act`, the demands of `jc_rules` and the definitions of `vm_step`.
#![tactic(auto)]

mod calls;
mod checking;
mod demands;
mod machine;

pub use checking::fault_before;
pub use machine::Machine;
