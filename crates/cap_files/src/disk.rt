ghost use Rattle.std.specs.Prelude.{◌≡◌, ℕ, ◌≤◌, List, Option, None, length, IfOk, nat_lt, if◌then◌else◌};
ghost use Rattle.std.specs.Io.KnownBytes.{ReadConsumes, WriteAppends};
ghost use Rattle.cap_files.specs.Counts.{CountsFault};
ghost use Rattle.cap_files.specs.FileName.{path_of};
ghost use Rattle.cap_files.specs.Folder.{Parts, key_of};
ghost use Rattle.cap_files.specs.Disk.{Opens, Creates, Closes, TakesAny, path_found, path_made};
ghost use Rattle.cap_files.specs.Calls.{no_calls, next_keep, one_more_call, faulted, with_failure};

use cap_bytes::Part;
use std::alloc::{AllocError, Global};
use std::marker::Model;

/// The disk failed, and the count of its failures rose.
#[derive(Clone, Copy)]
pub struct DiskFailed;

/// The files in which folders keep their parts. One file is open at a time, to be read or to be
/// written, and what is written of it is held once it is closed.
pub trait Disk {
    /// What all files hold, where the disk tells it.
    ghost held: { Self → Option Parts };

    /// The path of the file that is open, if one is.
    ghost opened: { Self → Option (List ℕ) };

    /// What is left of the file that is read, where the disk tells it.
    ghost left: { Self → Option (List ℕ) };

    /// The bytes of the file that is written, where the disk tells them.
    ghost written: { Self → Option (List ℕ) };

    /// How often a call that reads has failed.
    ghost read_faults: { Self → ℕ };

    /// How often a call that writes has failed.
    ghost write_faults: { Self → ℕ };

    /// Opens the file of a part to be read, and answers whether it is there.
    fn open(&mut self, dir: &str, part: Part) -> Result<bool, DiskFailed>
        ensures bytes { Opens (held self.old) (key_of part dir.now) (left self.new) result }
        ensures opened { opened self.new ≡ path_found (path_of dir.now part.0) result }
        ensures held { held self.new ≡ held self.old }
        ensures read_faults { CountsFault (read_faults self.old) (read_faults self.new) result }
        ensures write_faults { write_faults self.new ≡ write_faults self.old };

    /// Reads the next bytes of the file into the first places of `to`, and answers how many. There
    /// are none only at the file's end, or where `to` has no place.
    fn read(&mut self, to: &mut [u8]) -> Result<usize, DiskFailed>
        ensures most { IfOk result (λ n. n ≤ length to.old) }
        ensures bytes { ReadConsumes (left self.old) (left self.new) result to.new }
        ensures opened { opened self.new ≡ opened self.old }
        ensures held { held self.new ≡ held self.old }
        ensures read_faults { CountsFault (read_faults self.old) (read_faults self.new) result }
        ensures write_faults { write_faults self.new ≡ write_faults self.old };

    /// Closes the file that was read.
    fn end_read(&mut self)
        ensures opened { opened self.new ≡ None }
        ensures held { held self.new ≡ held self.old }
        ensures read_faults { read_faults self.new ≡ read_faults self.old }
        ensures write_faults { write_faults self.new ≡ write_faults self.old };

    /// Opens the file of a part to be written, with no bytes.
    fn create(&mut self, dir: &str, part: Part) -> Result<(), DiskFailed>
        ensures bytes { Creates (held self.old) (key_of part dir.now) (held self.new) (written self.new) result }
        ensures opened { opened self.new ≡ path_made (path_of dir.now part.0) result }
        ensures write_faults { CountsFault (write_faults self.old) (write_faults self.new) result }
        ensures read_faults { read_faults self.new ≡ read_faults self.old };

    /// Writes the first of the bytes after those of the file, and answers how many. There are none
    /// only where there are none to write.
    fn write(&mut self, bytes: &[u8]) -> Result<usize, DiskFailed>
        ensures some { TakesAny bytes.now result }
        ensures bytes { WriteAppends (written self.old) (written self.new) result bytes.now }
        ensures opened { opened self.new ≡ opened self.old }
        ensures held { held self.new ≡ held self.old }
        ensures write_faults { CountsFault (write_faults self.old) (write_faults self.new) result }
        ensures read_faults { read_faults self.new ≡ read_faults self.old };

    /// Closes the file of the part that was written.
    fn end_write(&mut self, dir: &str, part: Part)
        ensures bytes { Closes (held self.old) (key_of part dir.now) (written self.old) (held self.new) }
        ensures opened { opened self.new ≡ None }
        ensures write_faults { write_faults self.new ≡ write_faults self.old }
        ensures read_faults { read_faults self.new ≡ read_faults self.old };
}

/// A call that is to fail, by its number from 1, and how many bytes it keeps then.
#[derive(Clone, Copy)]
pub(crate) struct Failure {
    call: u32,
    keep: u32,
}

const MOST_FAILURES: usize = 32;

/// The calls of one kind: how many were made, how many failed, and which are to fail. A count
/// stands still at the greatest number of its type.
#[derive(Drop)]
pub(crate) struct Calls {
    made: u64,
    faults: u64,
    failures: Vec<Failure>,
}

impl Model for Calls {
    ghost use Rattle.cap_files.specs.CallCounts.{Counted};

    ghost Value = { Counted };

    ghost use Rattle.std.specs.Prelude.{◌≤◌};
    ghost use Rattle.std.specs.Vec.{vec_capacity};

    ghost view = { λ c. record { made = c.made; faults = c.faults; failures = c.failures.items } };

    ghost invariant = { λ c. 32 ≤ vec_capacity c.failures };
}

impl Calls {
    pub(crate) fn new(alloc: Global) -> Result<Calls, AllocError>
        ensures { IfOk result (λ c. c ≡ no_calls) }
    {
        Ok(Calls {
            made: 0,
            faults: 0,
            failures: Vec::with_capacity(alloc, MOST_FAILURES)?,
        })
    }

    /// Lists a call that is to fail, unless 32 are listed.
    pub(crate) fn fail(&mut self, call: u32, keep: u32) -> bool
        ensures room { result ≡ nat_lt (length self.old.failures) 32 }
        ensures after { self.new ≡ (if result then with_failure self.old call keep else self.old) }
    {
        if self.failures.len() >= MOST_FAILURES {
            return false;
        }
        self.failures.push_reserved(Failure { call, keep });
        true
    }

    /// Counts a call, and answers how many bytes it keeps if it is to fail, by the first that is listed with its number.
    pub(crate) fn next(&mut self) -> Option<u32>
        ensures keep { result ≡ next_keep self.old }
        ensures after { self.new ≡ one_more_call self.old }
    {
        self.made = self.made.saturating_add(1);
        let call = self.made;
        self.failures
            .iter()
            .find(|failure| u64::from(failure.call) == call)
            .map(|failure| failure.keep)
    }

    /// Counts a failure.
    pub(crate) fn fault(&mut self)
        ensures after { self.new ≡ faulted self.old }
        ensures rises { self.old.faults ≤ self.new.faults }
    {
        self.faults = self.faults.saturating_add(1);
    }
}
