ghost use Rattle.std.specs.Prelude.{◌≡◌, length, nat_lt, is_ok, IfOk, if◌then◌else◌, option_map};
ghost use Rattle.cap_files.specs.Calls.{no_calls};
ghost use Rattle.cap_files.specs.Folder.{Loads, LoadLeaves, Stores, StoreCounts, key_of};
ghost use Rattle.cap_files.specs.Shelf.{empty_shelf, has_room, placed};
ghost use Rattle.cap_files.specs.Mem.{folders_of, set, load_listed, store_listed, loaded, FailsWhenDue, store_succeeds, stored};
ghost use Rattle.std.specs.FinMap as map;

use crate::disk::Calls;
use crate::folder::{Folder, LoadEnd, StoreFailed};
use crate::pile::{Pile, kept};
use crate::transfer::hand_over;
use cap_bytes::Part;
use std::alloc::{AllocError, Global};
use std::marker::Model;

/// Folders in memory that fail at the loads and stores that were listed, and at a store that their
/// room does not suffice for. They have room for so many parts, and for so many bytes of the parts
/// and of their folders' words together.
#[derive(Drop)]
pub struct MemFolder {
    shelf: Shelf,
    loads: Calls,
    stores: Calls,
}

impl MemFolder {
    /// Folders that hold nothing, and fail at no call. Their room is taken now.
    pub fn new(alloc: Global, parts: u32, bytes: u32) -> Result<MemFolder, AllocError>
        ensures { IfOk result (λ f. f ≡ record { shelf = empty_shelf parts bytes; loads = no_calls; stores = no_calls }) }
    {
        Ok(MemFolder {
            shelf: Shelf::new(alloc, parts, bytes)?,
            loads: Calls::new(alloc)?,
            stores: Calls::new(alloc)?,
        })
    }

    /// Places a part, where the room suffices for what is held then.
    pub fn set(&mut self, dir: &str, part: Part, bytes: &[u8]) -> bool
        ensures room { result ≡ has_room self.old.shelf (key_of part dir.now) bytes.now }
        ensures after { self.new ≡ set self.old (key_of part dir.now) bytes.now }
    {
        self.shelf.place(dir, part, bytes)
    }

    /// Lets the n-th load fail, from 1, unless 32 are listed. Every load counts, whatever it
    /// answers.
    pub fn fail_load(&mut self, n: u32) -> bool
        ensures room { result ≡ nat_lt (length self.old.loads.failures) 32 }
        ensures after { self.new ≡ (if result then load_listed self.old n else self.old) }
    {
        self.loads.fail(n, 0)
    }

    /// Lets the n-th store fail, from 1, after `keep` bytes, unless 32 are listed. Every store
    /// counts, whatever it answers. Of two that are listed with one number the first counts.
    pub fn fail_store(&mut self, n: u32, keep: u32) -> bool
        ensures room { result ≡ nat_lt (length self.old.stores.failures) 32 }
        ensures after { self.new ≡ (if result then store_listed self.old n keep else self.old) }
    {
        self.stores.fail(n, keep)
    }
}

impl Folder for MemFolder {
    ghost folders = { folders_of };

    fn load(
        &mut self,
        alloc: Global,
        dir: &str,
        part: Part,
        to: &mut Vec<u8>,
    ) -> Result<bool, LoadEnd>
        ensures bytes { Loads (folders_of self.old).held (key_of part dir.now) to.new.items result }
        ensures folders { LoadLeaves (folders_of self.old) (key_of part dir.now) (folders_of self.new) result }
        ensures due { FailsWhenDue self.old.loads result }
        ensures after { self.new ≡ loaded self.old }
    {
        if self.loads.next().is_some() {
            self.loads.fault();
            to.clear();
            return Err(LoadEnd::Failed);
        }
        hand_over(self.shelf.get(dir, part), to)
    }

    /// Puts a part. A store that is listed to fail puts the bytes that it is to keep, where the
    /// room suffices for them.
    fn store(&mut self, dir: &str, part: Part, bytes: &[u8]) -> Result<(), StoreFailed>
        ensures bytes { Stores (folders_of self.old).held (key_of part dir.now) bytes.now (folders_of self.new).held result }
        ensures counts { StoreCounts (folders_of self.old) (folders_of self.new) result }
        ensures stored { is_ok result ≡ store_succeeds self.old (key_of part dir.now) bytes.now }
        ensures after { self.new ≡ stored self.old (key_of part dir.now) bytes.now }
    {
        let keep = self.stores.next();
        let placed = self.shelf.place(dir, part, kept(bytes, keep));
        if placed && keep.is_none() {
            return Ok(());
        }
        self.stores.fault();
        Err(StoreFailed)
    }
}

/// Folders in memory, seen as the parts that they hold and their room.
#[derive(Drop)]
pub(crate) struct Shelf {
    pile: Pile,
}

impl Model for Shelf {
    ghost use Rattle.cap_files.specs.Shelf.{Shelved, shelved_code};

    ghost Value = { Shelved };

    ghost coded = { shelved_code };

    ghost use Rattle.std.specs.FinMap as map;
    ghost use Rattle.cap_files.specs.Distinct.{AreDistinct};

    ghost view = { λ s. record {
      parts = map.from_entries s.pile.records;
      room = record { parts = s.pile.most_parts; bytes = s.pile.most_bytes };
    } };

    ghost invariant = { λ s. AreDistinct s.pile.records };
}

impl Shelf {
    pub(crate) fn new(alloc: Global, parts: u32, bytes: u32) -> Result<Shelf, AllocError>
        ensures { IfOk result (λ s. s ≡ empty_shelf parts bytes) }
    {
        Ok(Shelf {
            pile: Pile::new(alloc, parts, bytes)?,
        })
    }

    /// The bytes of a part, where it is held.
    pub(crate) fn get(&self, dir: &str, part: Part) -> Option<&[u8]>
        ensures { option_map (λ b. b.now) result ≡ map.get self.now.parts (key_of part dir.now) }
    {
        self.pile.get(dir, part)
    }

    /// Puts the bytes at a part where the room suffices for what is held then, and answers whether
    /// it does.
    pub(crate) fn place(&mut self, dir: &str, part: Part, bytes: &[u8]) -> bool
        ensures room { result ≡ has_room self.old (key_of part dir.now) bytes.now }
        ensures placed { self.new ≡ placed self.old (key_of part dir.now) bytes.now }
    {
        let old = self.pile.position(dir, part);
        if !self.pile.has_room(old, dir.len() + bytes.len()) {
            return false;
        }
        self.pile.take_out(old);
        self.pile.push(dir, part, bytes);
        true
    }
}
