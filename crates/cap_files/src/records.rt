ghost use Rattle.std.specs.Prelude.{◌≡◌};
ghost use Rattle.cap_files.specs.Folder.{key_of};
ghost use Rattle.cap_files.specs.Records.{has_key};
ghost use Rattle.cap_files.specs.Record.{key_and_bytes};
ghost use Rattle.cap_files.specs.Laid.{IsLaid};
ghost use Rattle.cap_files.specs.LaidOnce.{IsLaid-once};

use cap_bytes::Part;

/// How much of the buffer a part takes: its folder's word first, then its bytes.
#[derive(Clone, Copy)]
pub(crate) struct Entry {
    pub(crate) part: Part,
    pub(crate) word: usize,
    pub(crate) size: usize,
}

/// A part in a pile.
#[derive(Clone, Copy)]
pub(crate) struct Record<'a> {
    part: Part,
    word: &'a [u8],
    pub(crate) bytes: &'a [u8],
}

impl<'a> Record<'a> {
    pub(crate) fn is_of(&self, dir: &str, part: Part) -> bool
        ensures { result ≡ has_key (key_of part dir.now) (key_and_bytes self.now) }
    {
        self.part.0 == part.0 && self.word == dir.as_bytes()
    }
}

/// The parts of a pile that are left to visit.
#[derive(Clone, Copy)]
pub(crate) struct Records<'a> {
    pub(crate) entries: &'a [Entry],
    pub(crate) buffer: &'a [u8],
    ghost laid: { IsLaid entries.now buffer.now } by { IsLaid-once _ _ },
}

impl<'a> Iterator for Records<'a> {
    type Item = Record<'a>;

    ghost use Rattle.std.specs.Iterator.{YieldsFirstBy, item_count};
    ghost use Rattle.cap_files.specs.RecordsLeft.{records_left};

    ghost next_gives = { YieldsFirstBy key_and_bytes records_left };

    ghost remaining = { item_count records_left };

    fn next(&mut self) -> Option<Record<'a>> {
        let (entry, entries) = self.entries.split_first()?;
        let (piece, buffer) = self.buffer.split_at(entry.size);
        let (word, bytes) = piece.split_at(entry.word);
        *self = Records { entries, buffer };
        Some(Record {
            part: entry.part,
            word,
            bytes,
        })
    }
}
