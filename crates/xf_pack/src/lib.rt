//! The whole transformer (Leroy 2002, section 4): the last of several packages in the form that a verifier on the card accepts.
//!
//! It links the packages, verifies the libraries as a card does, types each method with code of the last package, rewrites and lays it, and
//! writes the package.
#![tactic(auto)]

mod laying;
mod transforming;
mod typing;
mod unlaid;
mod writing;

pub use transforming::{MethodLimit, TransformEnd, transform, transform_linked};
