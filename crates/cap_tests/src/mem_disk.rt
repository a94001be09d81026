use std::alloc::{AllocError, Allocator, Global};
use std::cell::Cell;
use std::fs::{Metadata, OpenFile, OpenOptions};
use std::io::{self, ErrorKind, Read, Seek, SeekFrom, Write};
use std::rc::Rc;
use std::rt::Files;

/// The most bytes that the file of a disk in memory can hold.
const MOST: usize = 8;

/// What the one file of a disk holds: it is absent, or has these first bytes.
#[derive(Clone, Copy)]
pub struct Held {
    pub is_there: bool,
    pub len: usize,
    pub bytes: [u8; MOST],
}

/// How a disk misbehaves.
#[derive(Clone, Copy)]
pub enum Trouble {
    Never,
    /// Of all calls that open, make, read or write its file the one of this number fails, from 1 on.
    Fails(u32),
    /// It has room for so many bytes, and where these are used up a write takes none.
    TakesNoneAfter(usize),
    /// The same, and where these are used up a write fails.
    FailsAfter(usize),
}

/// What a disk keeps, and its opened file with it.
#[derive(Drop)]
struct Shelf {
    held: Cell<Held>,
    calls: Cell<u32>,
    trouble: Trouble,
}

/// A disk in memory with one file, of which a call reads or writes one byte at most.
#[derive(Drop)]
pub struct MemDisk {
    shelf: Rc<Shelf>,
}

/// Its file, opened.
#[derive(Drop)]
pub struct MemFile {
    shelf: Rc<Shelf>,
    at: usize,
}

fn refused(kind: ErrorKind) -> io::Error {
    io::Error::from(kind)
}

impl Shelf {
    /// Counts a call, and answers whether it fails.
    fn is_due(&self) -> bool {
        let call = self.calls.get().saturating_add(1);
        self.calls.set(call);
        matches!(self.trouble, Trouble::Fails(n) if n == call)
    }

    /// Whether a write behind so many bytes fails.
    fn is_refused(&self, len: usize) -> bool {
        matches!(self.trouble, Trouble::FailsAfter(room) if room <= len)
    }

    /// Whether one takes none.
    fn is_full(&self, len: usize) -> bool {
        matches!(self.trouble, Trouble::TakesNoneAfter(room) if room <= len)
    }
}

impl MemDisk {
    pub(crate) fn new(alloc: Global, held: Held, trouble: Trouble) -> Result<MemDisk, AllocError> {
        let shelf = Shelf {
            held: Cell::new(held),
            calls: Cell::new(0),
            trouble,
        };
        Ok(MemDisk {
            shelf: Rc::new(alloc, shelf)?,
        })
    }

    /// How many calls there were.
    pub(crate) fn calls(&self) -> u32 {
        self.shelf.calls.get()
    }

    /// What the file holds.
    pub(crate) fn held(&self) -> Held {
        self.shelf.held.get()
    }

    /// Its file, from the first byte on.
    pub(crate) fn file(&self) -> Result<MemFile, AllocError> {
        Ok(MemFile {
            shelf: self.shelf.clone()?,
            at: 0,
        })
    }
}

impl Read for MemFile {
    fn read(&mut self, buf: &mut [u8]) -> io::Result<usize> {
        if self.shelf.is_due() {
            return Err(refused(ErrorKind::Other));
        }
        let held = self.shelf.held.get();
        if held.len <= self.at {
            return Ok(0);
        }
        match (held.bytes.get(self.at), buf.first_mut()) {
            (Some(byte), Some(place)) => {
                *place = *byte;
                self.at = self.at.saturating_add(1);
                Ok(1)
            }
            _ => Ok(0),
        }
    }
}

impl Write for MemFile {
    fn write(&mut self, buf: &[u8]) -> io::Result<usize> {
        if self.shelf.is_due() {
            return Err(refused(ErrorKind::Other));
        }
        let mut held = self.shelf.held.get();
        if self.shelf.is_refused(held.len) {
            return Err(refused(ErrorKind::StorageFull));
        }
        if self.shelf.is_full(held.len) {
            return Ok(0);
        }
        let at = held.len;
        match (buf.first(), held.bytes.get_mut(at)) {
            (Some(byte), Some(place)) => {
                *place = *byte;
                held.len = at.saturating_add(1);
                self.shelf.held.set(held);
                Ok(1)
            }
            _ => Ok(0),
        }
    }

    fn flush(&mut self) -> io::Result<()> {
        Ok(())
    }
}

impl Seek for MemFile {
    fn seek(&mut self, _to: SeekFrom) -> io::Result<u64> {
        Err(refused(ErrorKind::Unsupported))
    }
}

impl OpenFile for MemFile {
    fn metadata(&self) -> io::Result<Metadata> {
        Err(refused(ErrorKind::Unsupported))
    }

    fn set_len(&self, _size: u64) -> io::Result<()> {
        Err(refused(ErrorKind::Unsupported))
    }

    fn sync_all(&self) -> io::Result<()> {
        Err(refused(ErrorKind::Unsupported))
    }

    fn sync_data(&self) -> io::Result<()> {
        Err(refused(ErrorKind::Unsupported))
    }
}

impl Files for MemDisk {
    type File = MemFile;

    type Dir = MemFile;

    fn open_file(&self, how: &OpenOptions, _path: &str) -> io::Result<MemFile> {
        if self.shelf.is_due() {
            return Err(refused(ErrorKind::PermissionDenied));
        }
        let mut held = self.shelf.held.get();
        if how.asks_write() {
            held.is_there = true;
            held.len = 0;
            self.shelf.held.set(held);
        }
        if held.is_there {
            Ok(self.file()?)
        } else {
            Err(refused(ErrorKind::NotFound))
        }
    }

    fn open_dir(&self, _path: &str) -> io::Result<MemFile> {
        Err(refused(ErrorKind::Unsupported))
    }

    fn metadata(&self, _path: &str) -> io::Result<Metadata> {
        Err(refused(ErrorKind::Unsupported))
    }

    fn symlink_metadata(&self, _path: &str) -> io::Result<Metadata> {
        Err(refused(ErrorKind::Unsupported))
    }

    fn copy(&self, _from: &str, _to: &str) -> io::Result<u64> {
        Err(refused(ErrorKind::Unsupported))
    }

    fn rename(&self, _from: &str, _to: &str) -> io::Result<()> {
        Err(refused(ErrorKind::Unsupported))
    }

    fn remove_file(&self, _path: &str) -> io::Result<()> {
        Err(refused(ErrorKind::Unsupported))
    }

    fn create_dir(&self, _path: &str) -> io::Result<()> {
        Err(refused(ErrorKind::Unsupported))
    }

    fn remove_dir(&self, _path: &str) -> io::Result<()> {
        Err(refused(ErrorKind::Unsupported))
    }

    fn remove_dir_all<B: Allocator>(&self, _alloc: B, _path: &str) -> io::Result<()> {
        Err(refused(ErrorKind::Unsupported))
    }
}
