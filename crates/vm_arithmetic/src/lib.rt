//! The arithmetic of shorts and ints (JCVM 2.2, section 2.2.2 and chapter 7), on numbers: what both
//! machines compute, and how a number stands in words.
//! It stands on the operators of `jc_ops`.
#![tactic(auto)]

mod convert;
mod int;
mod short;

pub use convert::{
    compare_ints, high_word, int_of_words, int_to_byte, int_to_short, low_word, short_of_word,
    short_to_byte,
};
pub use int::{negate_int, of_ints};
pub use short::{negate_short, of_shorts, succeeds};
