//! The homes of a method: registers of their own for each value of one type that a local or a cell of the stack has to
//! keep (Leroy 2002, section 4.1). They are found by the method's least dataflow typing; with them stands the plan that
//! its rewritten code goes by.
//!
//! Which pairs of a slot and a type are homes, and in which order they get their registers, is said by place, slot and
//! type; the walk over the code finds them. The plan looks up, at each place, the homes of the locals and of the cells
//! of the stack, and the homes in which each local has to stand there.
//! It stands on the places of `jc_control`, the rules of `jc_rules` and the typings of `jc_flow`.
#![tactic(auto)]

mod arguments;
mod finding;
mod found;
mod home;
mod laws;
mod plan;
mod walk;

pub use finding::{HomeEnd, homes};
pub use found::Homes;
pub use home::{Home, value_at, value_of};
pub use laws::{homes_are_one, homes_serve, needed_are_kept};
pub use plan::{Plan, home_of};
pub use walk::{HomeWalk, has, is_new, operands, same_value};
