ghost use Rattle.std.specs.Prelude.{◌≡◌, ◌≤◌, None, IfOk};
ghost use Rattle.std.specs.Option.{option_map};
ghost use Rattle.cap_files.specs.Counts.{one_more};
ghost use Rattle.cap_files.specs.Disk.{FindsFile, of_open};

use crate::disk::{Disk, DiskFailed};
use crate::path::Path;
use cap_bytes::Part;
use std::alloc::{AllocError, Global};
use std::io::{self, ErrorKind, Read, Write};
use std::rt::Files;

/// The files of the machine. A folder's word is its path, and a part is the file of its name in it.
/// What they hold is not told; of the open file is told what its handle tells.
#[derive(Drop)]
pub struct FileSystem<'a, R: Files> {
    files: &'a R,
    path: Path,
    file: Option<R::File>,
    read_faults: u64,
    write_faults: u64,
}

impl<'a, R: Files> FileSystem<'a, R> {
    pub(crate) fn new(
        files: &'a R,
        alloc: Global,
        longest: u32,
    ) -> Result<FileSystem<'a, R>, AllocError>
        ensures room { IfOk result (λ d. d.path.longest ≡ longest) }
        ensures read_faults { IfOk result (λ d. d.read_faults ≡ 0) }
        ensures write_faults { IfOk result (λ d. d.write_faults ≡ 0) }
    {
        Ok(FileSystem {
            files,
            path: Path::new(alloc, longest)?,
            file: None,
            read_faults: 0,
            write_faults: 0,
        })
    }

    // Counts a failure of a call that reads.
    fn read_failed(&mut self) -> DiskFailed
        ensures after { self.new ≡ record self.old { read_faults = one_more self.old.read_faults } }
        ensures rises { self.old.read_faults ≤ self.new.read_faults }
    {
        self.read_faults = self.read_faults.saturating_add(1);
        DiskFailed
    }

    // Counts a failure of a call that writes.
    fn write_failed(&mut self) -> DiskFailed
        ensures after { self.new ≡ record self.old { write_faults = one_more self.old.write_faults } }
        ensures rises { self.old.write_faults ≤ self.new.write_faults }
    {
        self.write_faults = self.write_faults.saturating_add(1);
        DiskFailed
    }
}

impl<'a, R: Files> Disk for FileSystem<'a, R> {
    ghost held = { λ _. None };

    ghost opened = { λ d. option_map (λ _. d.path.text) d.file };

    ghost left = { λ d. of_open R.File.remaining d.file };

    ghost written = { λ d. of_open R.File.contents d.file };

    ghost read_faults = { λ d. d.read_faults };

    ghost write_faults = { λ d. d.write_faults };

    fn open(&mut self, dir: &str, part: Part) -> Result<bool, DiskFailed> {
        self.file = None;
        if !self.path.set(dir, part) {
            return Err(self.read_failed());
        }
        match found(self.path.open(self.files)) {
            Ok(Some(file)) => {
                self.file = Some(file);
                Ok(true)
            }
            Ok(None) => Ok(false),
            Err(_) => Err(self.read_failed()),
        }
    }

    fn read(&mut self, to: &mut [u8]) -> Result<usize, DiskFailed> {
        if let Some(file) = &mut self.file {
            if let Ok(taken) = file.read(to) {
                return Ok(taken);
            }
        }
        Err(self.read_failed())
    }

    fn end_read(&mut self) {
        self.file = None;
    }

    fn create(&mut self, dir: &str, part: Part) -> Result<(), DiskFailed> {
        self.file = None;
        if !self.path.set(dir, part) {
            return Err(self.write_failed());
        }
        match self.path.create(self.files) {
            Ok(file) => {
                self.file = Some(file);
                Ok(())
            }
            Err(_) => Err(self.write_failed()),
        }
    }

    fn write(&mut self, bytes: &[u8]) -> Result<usize, DiskFailed> {
        if let Some(file) = &mut self.file {
            match file.write(bytes) {
                Ok(0) if !bytes.is_empty() => {}
                Ok(taken) => return Ok(taken),
                Err(_) => {}
            }
        }
        Err(self.write_failed())
    }

    fn end_write(&mut self, _dir: &str, _part: Part) {
        self.file = None;
    }
}

// The file that was opened to be read, or none where there is no such file. Every other error is a
// failure.
fn found<F>(opened: io::Result<F>) -> Result<Option<F>, DiskFailed>
    ensures { FindsFile opened result }
{
    match opened {
        Ok(file) => Ok(Some(file)),
        Err(e) => match e.kind() {
            ErrorKind::NotFound => Ok(None),
            _ => Err(DiskFailed),
        },
    }
}
