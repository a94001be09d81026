//! Typed code never goes wrong (Leroy 2002, section 2; JCVM 2.2, section 7.5). Where each method with code has a
//! dataflow typing, a machine that tests every cell before it uses it meets no fault, from any typed state. It
//! stands on the steps of `vm_step`, the cells and their types of `vm_store`, and the rules of `jc_rules`.
#![tactic(auto)]

mod soundness;

pub use soundness::{arguments_are_handed, typed_code_never_fails};
