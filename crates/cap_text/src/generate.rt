ghost use Rattle.std.specs.Prelude.{◌≡◌, IfOk, IfSome, IfNone, string_bytes};
ghost use Rattle.cap_files.specs.WordsLeft.{words_left};
ghost use Rattle.cap_text.specs.Generate.{GenerateRequest, IsGenerate, generate_request, generate_text};

use crate::word::{folder_word, number};
use cap_files::WordsIter;
use std::alloc::{AllocError, Global};

/// `gen SEED OUT`: generates a package from a number, and stores it in a folder in the form that a verifier on the card
/// accepts.
#[derive(Clone, Copy)]
pub struct Generate<'a> {
    pub seed: u32,
    pub out: &'a str,
}

impl<'a> Generate<'a> {
    /// Reads the words after the command's name.
    pub fn read(mut operands: WordsIter<'a>) -> Option<Generate<'a>>
        ensures found { IfSome result (λ g. IsGenerate (words_left operands.entry) (generate_request g)) }
        ensures none { IfNone result ((g : GenerateRequest) → IsGenerate (words_left operands.entry) g → ⊥) }
    {
        let seed = operands.next()?;
        let out = operands.next()?;
        let seed = number(seed)?;
        if operands.next().is_some() || !folder_word(out) {
            return None;
        }
        Some(Generate { seed, out })
    }
}

/// The text for a package that was generated, transformed, accepted and run: the sizes of the two Method components in
/// bytes, and the sum of what the methods return.
pub fn generated(
    alloc: Global,
    generated: usize,
    transformed: usize,
    sum: i32,
) -> Result<String, AllocError>
    ensures { IfOk result (λ t. string_bytes t ≡ generate_text generated transformed sum) }
{
    format!(in alloc;
        "generated 200 methods {generated} bytes\ntransformed 200 methods {transformed} bytes\naccepted 200 methods\nsum {sum}\n"
    )
}
