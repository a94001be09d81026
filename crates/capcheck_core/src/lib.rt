//! The commands of capcheck, from the words to the line that is printed: what each loads, decides
//! and answers, and the one call that runs them. It stands on every crate below it; folders and the
//! place of the text are handed in.
#![tactic(auto)]

mod assembling;
mod bounding;
mod call;
mod carding;
mod defending;
mod generating;
mod load;
mod package_step;
mod packages;
mod packing;
mod probe;
mod running;
mod sharing;
mod storing;
mod stream;
mod sure;
mod transforming;
mod trying;
mod typing;
mod verdict;
mod world;

pub use call::capcheck;
pub use sure::sure_forms_never_fail;
pub use verdict::Verdict;
