ghost use Rattle.std.specs.Prelude.{IfOk, IfSome, IfNone};
ghost use Rattle.cap_files.specs.WordsLeft.{words_left};
ghost use Rattle.cap_text.specs.Probe.{ProbeRequest, IsProbe, probe_request};

use crate::word::{OwnedArg, arguments, folder_word, number};
use cap_files::WordsIter;
use std::alloc::{AllocError, Global};

/// `probe DIR BUDGET ARG*`: verifies the bare method of a folder and runs it with the arguments,
/// for at most so many steps.
#[derive(Drop)]
pub struct Probe<'a> {
    pub dir: &'a str,
    pub budget: u32,
    pub args: Vec<OwnedArg>,
}

impl<'a> Probe<'a> {
    /// Reads the words after the command's name.
    pub fn read(alloc: Global, mut operands: WordsIter<'a>) -> Result<Option<Probe<'a>>, AllocError>
        ensures found { IfOk result (λ o. IfSome o (λ p. IsProbe (words_left operands.entry) (probe_request p))) }
        ensures none { IfOk result (λ o. IfNone o ((p : ProbeRequest) → IsProbe (words_left operands.entry) p → ⊥)) }
    {
        let Some(dir) = operands.next() else {
            return Ok(None);
        };
        let Some(budget) = operands.next() else {
            return Ok(None);
        };
        if !folder_word(dir) {
            return Ok(None);
        }
        let Some(budget) = number(budget) else {
            return Ok(None);
        };
        let Some(args) = arguments(alloc, operands)? else {
            return Ok(None);
        };
        Ok(Some(Probe { dir, budget, args }))
    }
}
