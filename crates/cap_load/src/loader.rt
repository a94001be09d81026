ghost use Rattle.std.specs.Prelude.{◌≡◌, ◌≤◌, ℕ, List, [], ◌++◌, ◌+◌, ◌*◌, slice_index, length, Ok, Err, Some, None, IfOk};
ghost use Rattle.cap_components.specs.Parts.{Lent};
ghost use Rattle.cap_load.specs.declared.fault.StreamFault.{StreamFault};
ghost use Rattle.cap_load.specs.declared.fault.FinishEnd.TheVariants.{Fault};
ghost use Rattle.cap_load.specs.LoadFile.{AreFiles, IsLoadFileWithin};
ghost use Rattle.cap_load.specs.Loaded.{StandsFor, told};
ghost use Rattle.cap_load.specs.Finishing.{Finishes, Gives, AreWhole};
ghost use Rattle.cap_load.specs.Taking.{taken, content_fault, fault_by, moved_by};

use crate::component::{Next, Reading};
use crate::fault::{FinishEnd, StreamFault};
use byteorder::{BigEndian, ByteOrder};
use cap_bytes::Part;
use cap_components::Parts;
use std::alloc::{AllocError, Global};
use std::marker::Model;

/// Where the next byte stands among blocks.
#[derive(Clone, Copy)]
pub enum Block {
    /// So many bytes of a block are left; with none of them the next byte is a length or the ending.
    Left(u8),
    /// The ending was there.
    Ended,
}

/// Takes a Load file in pieces. It stands for the bytes that it took.
#[derive(Drop)]
pub struct Loader {
    room: u32,
    contents: Vec<u8>,
    block: Block,
    reading: Reading,
    fault: Option<StreamFault>,
}

impl Model for Loader {
    ghost use Rattle.cap_load.specs.Loaded.{Loaded};

    ghost Value = { Loaded };

    ghost use Rattle.cap_load.specs.Inside.{IsLoader};

    ghost view = { λ l. record { room = l.room; contents = l.contents.items; block = l.block; reading = l.reading; fault = l.fault } };

    ghost invariant = { λ l. IsLoader l };
}

impl Loader {
    /// A loader that stands for no byte, with room for so many bytes of contents. Nothing after this takes memory until
    /// the parts are listed.
    pub fn new(alloc: Global, room: u32) -> Result<Loader, AllocError>
        ensures stands { IfOk result (λ loader. StandsFor loader []) }
        ensures room { IfOk result (λ loader. loader.room ≡ room) }
    {
        let contents = Vec::with_capacity(alloc, room as usize)?;
        Ok(Loader {
            room,
            contents,
            block: Block::Left(0),
            reading: Reading::new(),
            fault: None,
        })
    }

    // The fault that the next byte shows.
    #[tactic(auto, unfolding(crate::specs::Taking::content_fault))]
    fn content_fault(&self, byte: u8) -> Option<StreamFault>
        ensures { result ≡ content_fault self.now byte }
    {
        if let Some(fault) = self.reading.fault_of(byte) {
            return Some(fault);
        }
        if self.contents.len() < self.room as usize {
            None
        } else {
            Some(StreamFault::Full(self.room))
        }
    }

    // The fault that the next byte shows.
    fn fault_of(&self, byte: u8) -> Option<StreamFault>
        ensures { result ≡ fault_by self.now.block self.now byte }
    {
        match self.block {
            Block::Ended => Some(StreamFault::AfterEnd),
            Block::Left(0) => None,
            Block::Left(_) => self.content_fault(byte),
        }
    }

    // Takes a byte that shows no fault.
    fn go_on(&mut self, byte: u8)
        requires { fault_by self.old.block self.old byte ≡ None }
        ensures { self.new ≡ moved_by self.old.block self.old byte }
    {
        match self.block {
            Block::Ended => {}
            Block::Left(0) if byte == 0 => self.block = Block::Ended,
            Block::Left(0) => self.block = Block::Left(byte),
            Block::Left(left) => {
                self.contents.push_reserved(byte);
                self.reading = self.reading.after(byte);
                self.block = Block::Left(left - 1);
            }
        }
    }

    // Takes a byte, and answers the fault that came, now or before.
    #[tactic(auto, unfolding(crate::specs::Taking::taken))]
    fn take(&mut self, byte: u8) -> Option<StreamFault>
        ensures after { self.new ≡ taken self.old byte }
        ensures fault { result ≡ self.new.fault }
    {
        if let Some(fault) = self.fault {
            return Some(fault);
        }
        let fault = self.fault_of(byte);
        match fault {
            None => self.go_on(byte),
            Some(_) => self.fault = fault,
        }
        fault
    }

    /// Takes the next piece of the file. The loader then stands for its bytes and the piece, however the file was cut. A
    /// fault is answered by this call and by every later one.
    pub fn feed(&mut self, piece: &[u8]) -> Result<(), StreamFault>
        ensures stands { (bytes : List ℕ) → StandsFor self.old bytes → StandsFor self.new (bytes ++ piece.now) }
        ensures fault { result ≡ told self.new.fault }
        ensures again { (fault : StreamFault) → self.old.fault ≡ Some fault → self.new ≡ self.old }
        ensures room { self.new.room ≡ self.old.room }
    {
        if let Some(fault) = self.fault {
            return Err(fault);
        }
        'bytes: for byte in piece {
            let _room = self.room;
            if let Some(fault) = self.take(*byte) {
                return Err(fault);
            }
        }
        Ok(())
    }

    // What no fault came in the way of.
    fn end(&self, alloc: Global) -> Result<Parts<'_>, FinishEnd>
        requires { self.now.fault ≡ None }
        ensures { Finishes self.now result }
    {
        match self.block {
            Block::Left(_) => Err(FinishEnd::Fault(StreamFault::Unfinished)),
            Block::Ended => match self.reading.next {
                Next::Tag => Ok(parts_of(alloc, &self.contents)?),
                _ => Err(FinishEnd::Fault(StreamFault::Unfinished)),
            },
        }
    }

    /// The parts of which the bytes are a Load file, lent by the loader; or why they are none.
    pub fn finish(&self, alloc: Global) -> Result<Parts<'_>, FinishEnd>
        ensures finishes { Finishes self.now result }
        ensures only { (bytes : List ℕ) (parts : List Lent)
            → StandsFor self.now bytes → IsLoadFileWithin self.now.room bytes parts → Gives parts result }
        ensures again { (fault : StreamFault) → self.now.fault ≡ Some fault → result ≡ Err (Fault fault) }
    {
        match self.fault {
            Some(fault) => Err(FinishEnd::Fault(fault)),
            None => self.end(alloc),
        }
    }
}

/// The number of bytes of the file with which some bytes begin, by the size that it tells.
fn file_length(bytes: &[u8]) -> usize
    requires { 3 ≤ length bytes.now }
    ensures { result ≡ 3 + slice_index bytes.now 1 * 256 + slice_index bytes.now 2 }
{
    3 + usize::from(BigEndian::read_u16(&bytes[1..]))
}

/// The parts of contents that are whole components in order.
fn parts_of(alloc: Global, contents: &[u8]) -> Result<Parts<'_>, AllocError>
    requires { AreWhole contents.now }
    ensures { IfOk result (λ parts. AreFiles contents.now parts) }
{
    let mut parts = Parts::new(alloc);
    let mut rest = contents;
    'parts: while rest.len() >= 3 {
        let (file, behind) = rest.split_at(file_length(rest));
        parts.push(Part(rest[0]), file)?;
        rest = behind;
    }
    Ok(parts)
}
