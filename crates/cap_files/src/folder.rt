ghost use Rattle.cap_files.specs.Folder.{Folders, Loads, LoadLeaves, Stores, StoreCounts, key_of};

use cap_bytes::Part;
use std::alloc::Global;

/// Why a load handed over no part.
#[derive(Clone, Copy)]
pub enum LoadEnd {
    /// The device failed, and the count of faults of loads rose.
    Failed,
    /// The part is longer than a component can be: a tag, a size of two bytes and 65,535 bytes.
    TooLong,
    /// There was no memory for the bytes.
    Memory,
}

/// The device failed, and the count of faults of stores rose.
#[derive(Clone, Copy)]
pub struct StoreFailed;

/// Folders of package components. A folder is named by a word, and holds a part or does not.
pub trait Folder {
    /// The folders as they are seen from outside: what they hold, where the device tells it, and
    /// how often a load and a store have failed.
    ghost folders: { Self → Folders };

    /// Replaces the bytes of `to` by those of a part, of which there are at most 65,538, and
    /// answers whether the part is there. After `TooLong` the first 65,539 bytes are in `to`, and
    /// after every other error nothing.
    fn load(
        &mut self,
        alloc: Global,
        dir: &str,
        part: Part,
        to: &mut Vec<u8>,
    ) -> Result<bool, LoadEnd>
        ensures bytes { Loads (folders self.old).held (key_of part dir.now) to.new.items result }
        ensures folders { LoadLeaves (folders self.old) (key_of part dir.now) (folders self.new) result };

    /// Makes the bytes the content of a part, with no memory taken. After a failure the part is as
    /// before, or holds the bytes that were written first. Every other part is as before.
    fn store(&mut self, dir: &str, part: Part, bytes: &[u8]) -> Result<(), StoreFailed>
        ensures bytes { Stores (folders self.old).held (key_of part dir.now) bytes.now (folders self.new).held result }
        ensures counts { StoreCounts (folders self.old) (folders self.new) result };
}
