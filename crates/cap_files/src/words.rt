ghost use Rattle.std.specs.Prelude.{◌≡◌, ◌<◌, ◌^◌, [], ◌∷◌, ◌++◌, length, take, slice_index_or, OnOk, OnErr};
ghost use Rattle.std.specs.Iterator.{YieldsFirstRef, item_count};
ghost use Rattle.cap_files.specs.WordsLeft.{words_left};

use std::alloc::{AllocError, Global};
use std::marker::Model;

// Where a word stands in the buffer, from its first byte to the one after its last.
#[derive(Clone, Copy)]
struct Span {
    start: usize,
    end: usize,
}

/// The words of a command: a list of texts, kept in one buffer.
#[derive(Drop)]
pub struct Words {
    buffer: String,
    spans: Vec<Span>,
}

impl Model for Words {
    ghost use Rattle.std.specs.Prelude.{List, ℕ};

    ghost Value = { List (List ℕ) };

    ghost use Rattle.std.specs.Prelude.{string_bytes};
    ghost use Rattle.cap_files.specs.Words.{texts, AreTexts};

    ghost view = { λ w. texts (string_bytes w.buffer) w.spans.items };

    ghost invariant = { λ w. AreTexts (string_bytes w.buffer) w.spans.items };
}

impl Words {
    /// No words yet: room is taken when one is pushed.
    pub fn new(alloc: Global) -> Words
        ensures { result ≡ [] }
    {
        Words {
            buffer: String::new(alloc),
            spans: Vec::new(alloc),
        }
    }

    /// Appends a word. Out of memory, the list is as before.
    pub fn push(&mut self, word: &str) -> Result<(), AllocError>
        ensures pushed { OnOk result (self.new ≡ self.old ++ word.now ∷ []) }
        ensures kept { OnErr result (self.new ≡ self.old) }
    {
        self.spans.reserve(1)?;
        let start = self.buffer.as_str().len();
        self.buffer.push_str(word)?;
        let end = self.buffer.as_str().len();
        self.spans.push_reserved(Span { start, end });
        Ok(())
    }

    /// How many words there are.
    pub fn len(&self) -> usize
        ensures { result ≡ length self.now }
    {
        self.spans.len()
    }

    /// The word at a place, from 0.
    pub fn at(&self, n: usize) -> &str
        requires { n < length self.now }
        ensures { result.now ≡ slice_index_or self.now n result.now }
    {
        let span = self.spans[n];
        &self.buffer.as_str()[span.start..span.end]
    }

    /// The words in order.
    pub fn iter(&self) -> WordsIter<'_>
        ensures words { words_left result ≡ self.now }
        ensures few { length self.now < 2 ^ 64 }
    {
        WordsIter {
            words: self,
            next: 0,
            end: self.len(),
        }
    }
}

/// The words that are left to visit: those from a place on, before another.
#[derive(Clone, Copy)]
pub struct WordsIter<'a> {
    words: &'a Words,
    next: usize,
    end: usize,
}

impl<'a> WordsIter<'a> {
    /// The first words that are left, at most so many: the folders that stand before the word that
    /// ends them, where it stands at the place `count`.
    pub fn first(self, count: usize) -> WordsIter<'a>
        ensures { words_left result ≡ take count (words_left self.entry) }
    {
        WordsIter {
            end: self.end.min(self.next.saturating_add(count)),
            ..self
        }
    }
}

impl<'a> Iterator for WordsIter<'a> {
    type Item = &'a str;

    ghost next_gives = { YieldsFirstRef words_left };

    ghost remaining = { item_count words_left };

    fn next(&mut self) -> Option<&'a str> {
        if self.next < self.end && self.next < self.words.len() {
            let word = self.words.at(self.next);
            self.next += 1;
            Some(word)
        } else {
            None
        }
    }
}
