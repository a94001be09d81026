//! The last of several packages, whose methods get other code (Java Card 2.2 VM Specification, sections 6.9 and 6.13): where
//! they begin among those of the world, and what is laid for them. Code that fits each of its methods is what its writer
//! takes, and over the target index that is written each of them has a card typing.
//!
//! What is laid is said by the crates above, `xf_pack` and `xf_share`. It stands on the writer of packages, `cap_write`, on
//! the laws of worlds with such packages, of `law_relink` and `law_index`, and on the verifier on the card, `card_verify`.
#![tactic(auto)]

mod last;

pub use last::first_of_last;
