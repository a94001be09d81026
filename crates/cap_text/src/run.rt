ghost use Rattle.std.specs.Prelude.{◌≡◌, codes, IfOk, IfSome, IfNone};
ghost use Rattle.cap_files.specs.WordsLeft.{words_left};
ghost use Rattle.std.specs.List.{before_first, after_first};
ghost use Rattle.std.specs.Str.{bytes_eq};
ghost use Rattle.cap_text.specs.Run.{RunRequest, AreRunWords, run_request};

use crate::entry::Entry;
use crate::word::{OwnedArg, arguments, folder_words, number};
use cap_files::WordsIter;
use std::alloc::{AllocError, Global};

/// `BUDGET ENTRY DIR+ [-- ARG*]`: a method of the packages in these folders, what is handed to it, and the most steps.
#[derive(Drop)]
pub struct Run<'a> {
    pub budget: u32,
    pub entry: Entry,
    pub dirs: WordsIter<'a>,
    pub args: Vec<OwnedArg>,
}

impl<'a> Run<'a> {
    /// Reads the words after the command's name.
    pub fn read(alloc: Global, mut operands: WordsIter<'a>) -> Result<Option<Run<'a>>, AllocError>
        ensures found { IfOk result (λ o. IfSome o (λ r. AreRunWords (words_left operands.entry) (run_request r))) }
        ensures none { IfOk result (λ o. IfNone o ((r : RunRequest) → AreRunWords (words_left operands.entry) r → ⊥)) }
    {
        let Some(budget) = operands.next() else {
            return Ok(None);
        };
        let Some(entry) = operands.next() else {
            return Ok(None);
        };
        let Some(budget) = number(budget) else {
            return Ok(None);
        };
        let Some(entry) = Entry::read(entry) else {
            return Ok(None);
        };
        let (dirs, words) = split(operands);
        if !folder_words(dirs) {
            return Ok(None);
        }
        let Some(args) = arguments(alloc, words)? else {
            return Ok(None);
        };
        Ok(Some(Run {
            budget,
            entry,
            dirs,
            args,
        }))
    }
}

// The words before the first that ends the folders, and those after it.
fn split(operands: WordsIter<'_>) -> (WordsIter<'_>, WordsIter<'_>)
    ensures before { words_left result.0 ≡ before_first (λ word. bytes_eq word (codes "--")) (words_left operands.entry) }
    ensures after { words_left result.1 ≡ after_first (λ word. bytes_eq word (codes "--")) (words_left operands.entry) }
{
    let mut rest = operands;
    let mut count = 0usize;
    'words: while let Some(word) = rest.next() {
        if word == "--" {
            return (operands.first(count), rest);
        }
        count += 1;
    }
    (operands, rest)
}
