//! A machine of bare words does what one of tagged cells does, wherever that meets no fault (Leroy 2002, section 2;
//! JCVM 2.2, section 7.5).
//! It stands on the steps of `vm_step` and on the words of states of `vm_store`.
#![tactic(auto)]

mod erasure;

pub use erasure::{typed_states_apply, words_run_alike};
