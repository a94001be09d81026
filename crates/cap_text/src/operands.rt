ghost use Rattle.std.specs.Prelude.{IfSome, IfNone, ℕ, List};
ghost use Rattle.cap_files.specs.WordsLeft.{words_left};
ghost use Rattle.cap_text.specs.EntryWords.{EntryRequest, AreEntryWords, entry_request};
ghost use Rattle.cap_text.specs.OfDir.{IsOfDir};
ghost use Rattle.cap_text.specs.OfDirs.{IsOfDirs};
ghost use Rattle.cap_text.specs.OutOfDir.{OutOfDirRequest, IsOutOfDir, out_of_dir_request};
ghost use Rattle.cap_text.specs.OutOfDirs.{OutOfDirsRequest, IsOutOfDirs, out_of_dirs_request};

use crate::entry::Entry;
use crate::word::{folder_word, folder_words};
use cap_files::WordsIter;

/// `ENTRY DIR+`: a method of the last of the packages in these folders.
#[derive(Clone, Copy)]
pub struct AtEntry<'a> {
    pub entry: Entry,
    pub dirs: WordsIter<'a>,
}

impl<'a> AtEntry<'a> {
    /// Reads the words after the command's name.
    pub fn read(mut operands: WordsIter<'a>) -> Option<AtEntry<'a>>
        ensures found { IfSome result (λ a. AreEntryWords (words_left operands.entry) (entry_request a)) }
        ensures none { IfNone result ((e : EntryRequest) → AreEntryWords (words_left operands.entry) e → ⊥) }
    {
        let entry = Entry::read(operands.next()?)?;
        if !folder_words(operands) {
            return None;
        }
        Some(AtEntry {
            entry,
            dirs: operands,
        })
    }
}

/// `DIR`: the operand of a command on the package in this folder.
#[derive(Clone, Copy)]
pub struct OfDir<'a> {
    pub dir: &'a str,
}

impl<'a> OfDir<'a> {
    /// Reads the words after the command's name.
    pub fn read(mut operands: WordsIter<'a>) -> Option<OfDir<'a>>
        ensures found { IfSome result (λ d. IsOfDir (words_left operands.entry) d.dir.now) }
        ensures none { IfNone result ((dir : List ℕ) → IsOfDir (words_left operands.entry) dir → ⊥) }
    {
        let dir = operands.next()?;
        if operands.next().is_some() || !folder_word(dir) {
            return None;
        }
        Some(OfDir { dir })
    }
}

/// `DIR+`: the operands of a command on the packages in these folders.
#[derive(Clone, Copy)]
pub struct OfDirs<'a> {
    pub dirs: WordsIter<'a>,
}

impl<'a> OfDirs<'a> {
    /// Reads the words after the command's name.
    pub fn read(operands: WordsIter<'a>) -> Option<OfDirs<'a>>
        ensures found { IfSome result (λ d. IsOfDirs (words_left operands.entry) (words_left d.dirs)) }
        ensures none { IfNone result ((dirs : List (List ℕ)) → IsOfDirs (words_left operands.entry) dirs → ⊥) }
    {
        folder_words(operands).then_some(OfDirs { dirs: operands })
    }
}

/// `OUT DIR`: the operands of a command that stores in the first folder what it makes of the package in the second.
#[derive(Clone, Copy)]
pub struct OutOfDir<'a> {
    pub out: &'a str,
    pub dir: &'a str,
}

impl<'a> OutOfDir<'a> {
    /// Reads the words after the command's name.
    pub fn read(mut operands: WordsIter<'a>) -> Option<OutOfDir<'a>>
        ensures found { IfSome result (λ o. IsOutOfDir (words_left operands.entry) (out_of_dir_request o)) }
        ensures none { IfNone result ((o : OutOfDirRequest) → IsOutOfDir (words_left operands.entry) o → ⊥) }
    {
        let out = operands.next()?;
        let dir = operands.next()?;
        if operands.next().is_some() || !folder_word(out) || !folder_word(dir) {
            return None;
        }
        Some(OutOfDir { out, dir })
    }
}

/// `OUT DIR+`: the operands of a command that stores in the first folder what it makes of the last of the packages in the
/// others.
#[derive(Clone, Copy)]
pub struct OutOfDirs<'a> {
    pub out: &'a str,
    pub dirs: WordsIter<'a>,
}

impl<'a> OutOfDirs<'a> {
    /// Reads the words after the command's name.
    pub fn read(mut operands: WordsIter<'a>) -> Option<OutOfDirs<'a>>
        ensures found { IfSome result (λ o. IsOutOfDirs (words_left operands.entry) (out_of_dirs_request o)) }
        ensures none { IfNone result ((o : OutOfDirsRequest) → IsOutOfDirs (words_left operands.entry) o → ⊥) }
    {
        let out = operands.next()?;
        if !folder_word(out) || !folder_words(operands) {
            return None;
        }
        Some(OutOfDirs {
            out,
            dirs: operands,
        })
    }
}
