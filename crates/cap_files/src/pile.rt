ghost use Rattle.std.specs.Prelude.{◌≡◌, ◌+◌, ◌<◌, ◌≤◌, [], ◌∷◌, ◌++◌, length, take, drop, position, remove, sum_by, find, Option};
ghost use Rattle.std.specs.Prelude.{option_map, IfOk, ◌^◌, nat_lt, nat_le, ◌&&◌, vec_len, vec_capacity};
ghost use Rattle.std.specs.Option.{ForSome};
ghost use Rattle.cap_files.specs.Folder.{key_of};
ghost use Rattle.cap_files.specs.Room.{size_of};
ghost use Rattle.cap_files.specs.Records.{has_key, has_room_beside, without};
ghost use Rattle.cap_files.specs.RecordsLeft.{records_left};
ghost use Rattle.cap_files.specs.Mem.{kept_of};
ghost use Rattle.cap_files.specs.Tape.{empty_tape, has_room, appended};

use crate::records::{Entry, Records};
use cap_bytes::Part;
use std::alloc::{AllocError, Global};
use std::marker::Model;

/// Parts in one buffer, without a gap, in the order in which they came. The room is taken when the
/// pile is made.
#[derive(Drop)]
pub(crate) struct Pile {
    entries: Vec<Entry>,
    buffer: Vec<u8>,
    most_parts: usize,
    most_bytes: usize,
}

impl Model for Pile {
    ghost use Rattle.cap_files.specs.Records.{Piled, piled_code};

    ghost Value = { Piled };

    ghost coded = { piled_code };

    ghost use Rattle.cap_files.specs.Laid.{records};
    ghost use Rattle.cap_files.specs.Pile.{IsPile};

    ghost view = { λ p. record { records = records p.entries.items p.buffer.items; most_parts = p.most_parts; most_bytes = p.most_bytes } };

    ghost invariant = { λ p. IsPile p };
}

impl Pile {
    pub(crate) fn new(alloc: Global, parts: u32, bytes: u32) -> Result<Pile, AllocError>
        ensures { IfOk result (λ p. p ≡ record { records = []; most_parts = parts; most_bytes = bytes }) }
    {
        Ok(Pile {
            entries: Vec::with_capacity(alloc, parts as usize)?,
            buffer: Vec::with_capacity(alloc, bytes as usize)?,
            most_parts: parts as usize,
            most_bytes: bytes as usize,
        })
    }

    fn parts(&self) -> usize
        ensures { result ≡ length self.now.records }
    {
        self.entries.len()
    }

    fn records(&self) -> Records<'_>
        ensures left { records_left result ≡ self.now.records }
        ensures few { length self.now.records < 2 ^ 64 }
    {
        // Their number is one that `parts` can answer.
        let _count = self.parts();
        Records {
            entries: self.entries.as_slice(),
            buffer: self.buffer.as_slice(),
        }
    }

    /// The place of a part, from 0.
    pub(crate) fn position(&self, dir: &str, part: Part) -> Option<usize>
        ensures { result ≡ position (has_key (key_of part dir.now)) self.now.records }
    {
        self.records().position(|record| record.is_of(dir, part))
    }

    /// The bytes of a part.
    pub(crate) fn get(&self, dir: &str, part: Part) -> Option<&[u8]>
        ensures { option_map (λ b. b.now) result ≡ option_map (λ r. r.1) (find (has_key (key_of part dir.now)) self.now.records) }
    {
        match self.records().find(|record| record.is_of(dir, part)) {
            Some(record) => Some(record.bytes),
            None => None,
        }
    }

    /// Whether the room suffices for one more part of that size, beside all or all but the one at
    /// a place.
    pub(crate) fn has_room(&self, out: Option<usize>, size: usize) -> bool
        requires { ForSome out (λ n. n < length self.now.records) }
        ensures { result ≡ has_room_beside self.now out size }
    {
        match out {
            Some(n) => {
                let left = self.buffer.len() - self.entries[n].size;
                self.suffices(self.entries.len() - 1, left, size)
            }
            None => self.suffices(self.entries.len(), self.buffer.len(), size),
        }
    }

    fn suffices(&self, parts: usize, bytes: usize, size: usize) -> bool
        ensures { result ≡ (nat_lt parts self.now.most_parts && nat_le (bytes + size) self.now.most_bytes) }
    {
        parts < self.most_parts && bytes <= self.most_bytes && size <= self.most_bytes - bytes
    }

    /// Takes out the part at a place, if one is named.
    pub(crate) fn take_out(&mut self, out: Option<usize>)
        requires { ForSome out (λ n. n < length self.old.records) }
        ensures { self.new ≡ record self.old { records = without out self.old.records } }
    {
        if let Some(n) = out {
            self.remove(n);
        }
    }

    fn remove(&mut self, n: usize)
        requires { n < length self.old.records }
        ensures { self.new ≡ record self.old { records = remove self.old.records n } }
    {
        // The entries take together what is filled.
        let _filled = self.buffer.len();
        let start = end_of(&self.entries, n);
        let entry = self.entries.remove(n);
        cut_out(&mut self.buffer, start, entry.size);
    }

    /// Puts a part after the others.
    pub(crate) fn push(&mut self, dir: &str, part: Part, bytes: &[u8])
        requires parts { length self.old.records < self.old.most_parts }
        requires bytes { sum_by size_of self.old.records + length dir.now + length bytes.now ≤ self.old.most_bytes }
        ensures { self.new ≡ record self.old { records = self.old.records ++ (key_of part dir.now, bytes.now) ∷ [] } }
    {
        append(&mut self.buffer, dir.as_bytes());
        append(&mut self.buffer, bytes);
        self.entries.push_reserved(Entry {
            part,
            word: dir.len(),
            size: dir.len() + bytes.len(),
        });
    }
}

// How many bytes the first n entries take.
fn end_of(entries: &Vec<Entry>, n: usize) -> usize
    requires within { n ≤ vec_len entries.now }
    requires fits { sum_by (λ e. e.size) (take n entries.now.items) < 2 ^ 64 }
    ensures { result ≡ sum_by (λ e. e.size) (take n entries.now.items) }
{
    entries[..n].iter().map(|entry| entry.size).sum()
}

// Takes `size` bytes out, and moves what stands after them down.
fn cut_out(buffer: &mut Vec<u8>, start: usize, size: usize)
    requires { start + size ≤ vec_len buffer.old }
    ensures items { buffer.new.items ≡ take start buffer.old.items ++ drop (start + size) buffer.old.items }
    ensures capacity { vec_capacity buffer.new ≡ vec_capacity buffer.old }
{
    let left = buffer.len() - size;
    buffer[start..].rotate_left(size);
    buffer.truncate(left);
}

/// Appends a piece that the room suffices for.
pub(crate) fn append(buffer: &mut Vec<u8>, piece: &[u8])
    requires { vec_len buffer.old + length piece.now ≤ vec_capacity buffer.old }
    ensures items { buffer.new.items ≡ buffer.old.items ++ piece.now }
    ensures len { vec_len buffer.new ≡ vec_len buffer.old + length piece.now }
    ensures capacity { vec_capacity buffer.old ≤ vec_capacity buffer.new }
{
    let appended = buffer.extend_from_slice(piece).is_ok();
    prove!(appended);
}

/// The first bytes, where at most so many are kept, and else all.
pub(crate) fn kept(bytes: &[u8], most: Option<u32>) -> &[u8]
    ensures { result.now ≡ kept_of most bytes.now }
{
    match most {
        Some(most) => bytes.get(..most as usize).unwrap_or(bytes),
        None => bytes,
    }
}

/// Bytes in memory, whose room is taken when the tape is made.
#[derive(Drop)]
pub(crate) struct Tape {
    bytes: Vec<u8>,
    most: usize,
}

impl Model for Tape {
    ghost use Rattle.cap_files.specs.Tape.{Taped};

    ghost Value = { Taped };

    ghost use Rattle.std.specs.Prelude.{◌≤◌};
    ghost use Rattle.std.specs.Vec.{vec_capacity};

    ghost view = { λ t. record { bytes = t.bytes.items; most = t.most } };

    ghost invariant = { λ t. t.most ≤ vec_capacity t.bytes };
}

impl Tape {
    pub(crate) fn new(alloc: Global, most: u32) -> Result<Tape, AllocError>
        ensures { IfOk result (λ t. t ≡ empty_tape most) }
    {
        Ok(Tape {
            bytes: Vec::with_capacity(alloc, most as usize)?,
            most: most as usize,
        })
    }

    pub(crate) fn bytes(&self) -> &[u8]
        ensures { result.now ≡ self.now.bytes }
    {
        self.bytes.as_slice()
    }

    /// Appends a piece that the room suffices for, and answers whether it does.
    pub(crate) fn append(&mut self, piece: &[u8]) -> bool
        ensures room { result ≡ has_room self.old piece.now }
        ensures after { self.new ≡ appended self.old piece.now }
    {
        let filled = self.bytes.len();
        if filled > self.most || piece.len() > self.most - filled {
            return false;
        }
        append(&mut self.bytes, piece);
        true
    }
}
