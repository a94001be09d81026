ghost use Rattle.std.specs.Prelude.{◌≡◌, true, IfOk, IsOk, ◌≤◌, OnErr};
ghost use Rattle.cap_files.specs.Folder.{Loads, LoadLeaves, Stores, StoreCounts, key_of};
ghost use Rattle.cap_files.specs.Shelf.{empty_shelf, has_room};
ghost use Rattle.cap_files.specs.Sure.{set, stored, folders_told, received, text_told, no_faults};
ghost use Rattle.cap_files.specs.Counts.{Rose};
ghost use Rattle.cap_files.specs.Sink.{Puts};
ghost use Rattle.cap_files.specs.Tape.{empty_tape};

use crate::folder::{Folder, LoadEnd, StoreFailed};
use crate::mem_folder::Shelf;
use crate::pile::Tape;
use crate::sink::{Sink, SinkFailed};
use crate::transfer::hand_over;
use cap_bytes::Part;
use std::alloc::{AllocError, Global};

/// Folders in memory that never fail. They have room for so many parts, and for so many bytes of
/// the parts and of their folders' words together.
#[derive(Drop)]
pub struct SureFolder {
    shelf: Shelf,
    told: bool,
}

impl SureFolder {
    /// Folders that hold nothing. Their room is taken now.
    pub fn new(alloc: Global, parts: u32, bytes: u32) -> Result<SureFolder, AllocError>
        ensures { IfOk result (λ f. f ≡ record { shelf = empty_shelf parts bytes; told = true }) }
    {
        Ok(SureFolder {
            shelf: Shelf::new(alloc, parts, bytes)?,
            told: true,
        })
    }

    /// Places a part, where the room suffices for what is held then.
    pub fn set(&mut self, dir: &str, part: Part, bytes: &[u8]) -> bool
        ensures room { result ≡ has_room self.old.shelf (key_of part dir.now) bytes.now }
        ensures after { self.new ≡ set self.old (key_of part dir.now) bytes.now }
    {
        self.shelf.place(dir, part, bytes)
    }
}

impl Folder for SureFolder {
    ghost folders = { folders_told };

    fn load(
        &mut self,
        alloc: Global,
        dir: &str,
        part: Part,
        to: &mut Vec<u8>,
    ) -> Result<bool, LoadEnd>
        ensures bytes { Loads (folders_told self.old).held (key_of part dir.now) to.new.items result }
        ensures folders { LoadLeaves (folders_told self.old) (key_of part dir.now) (folders_told self.new) result }
        ensures after { self.new ≡ self.old }
    {
        hand_over(self.shelf.get(dir, part), to)
    }

    /// Puts a part. Beyond the room the bytes are let go, and from then on the folders do not tell
    /// what they hold.
    fn store(&mut self, dir: &str, part: Part, bytes: &[u8]) -> Result<(), StoreFailed>
        ensures bytes { Stores (folders_told self.old).held (key_of part dir.now) bytes.now (folders_told self.new).held result }
        ensures counts { StoreCounts (folders_told self.old) (folders_told self.new) result }
        ensures sure { IsOk result }
        ensures after { self.new ≡ stored self.old (key_of part dir.now) bytes.now }
    {
        if !self.shelf.place(dir, part, bytes) {
            self.told = false;
        }
        Ok(())
    }
}

/// A sink in memory that never fails, with room for so many bytes.
#[derive(Drop)]
pub struct SureSink {
    tape: Tape,
    told: bool,
}

impl SureSink {
    /// A sink that has received nothing. Its room is taken now.
    pub fn new(alloc: Global, bytes: u32) -> Result<SureSink, AllocError>
        ensures { IfOk result (λ s. s ≡ record { tape = empty_tape bytes; told = true }) }
    {
        Ok(SureSink {
            tape: Tape::new(alloc, bytes)?,
            told: true,
        })
    }

    /// The bytes that the sink received, if all went into its room.
    pub fn received(&self) -> &[u8]
        ensures { result.now ≡ self.now.tape.bytes }
    {
        self.tape.bytes()
    }
}

impl Sink for SureSink {
    ghost received = { text_told };

    ghost faults = { no_faults };

    /// Receives a piece. Beyond the room it is let go, and from then on the sink does not tell
    /// what it received.
    fn put(&mut self, piece: &[u8]) -> Result<(), SinkFailed>
        ensures bytes { Puts (text_told self.old) piece.now (text_told self.new) result }
        ensures failed { OnErr result (Rose (no_faults self.old) (no_faults self.new)) }
        ensures faults { no_faults self.old ≤ no_faults self.new }
        ensures sure { IsOk result }
        ensures after { self.new ≡ received self.old piece.now }
    {
        if !self.tape.append(piece) {
            self.told = false;
        }
        Ok(())
    }
}
