ghost use Rattle.std.specs.Prelude.{◌≡◌, None, IfOk};
ghost use Rattle.cap_files.specs.Disk.{on_disk};
ghost use Rattle.cap_files.specs.Folder.{Loads, LoadLeaves, Stores, StoreCounts, key_of};

use crate::disk::Disk;
use crate::file_system::FileSystem;
use crate::folder::{Folder, LoadEnd, StoreFailed};
use crate::transfer::{read_part, write_part};
use cap_bytes::Part;
use std::alloc::{AllocError, Global};
use std::rt::Files;

/// Folders whose parts are the files of a disk. They tell what the disk tells, and a load or a store
/// fails where a call of the disk does.
#[derive(Drop)]
pub struct DirFolder<D: Disk> {
    disk: D,
}

impl<'a, R: Files> DirFolder<FileSystem<'a, R>> {
    /// The folders of the file system whose words have at most `longest` bytes. The room for their
    /// paths is taken now. A longer word counts as a failure of the device.
    pub fn new(
        files: &'a R,
        alloc: Global,
        longest: u32,
    ) -> Result<DirFolder<FileSystem<'a, R>>, AllocError>
        ensures room { IfOk result (λ d. d.disk.path.longest ≡ longest) }
        ensures load_faults { IfOk result (λ d. d.disk.read_faults ≡ 0) }
        ensures store_faults { IfOk result (λ d. d.disk.write_faults ≡ 0) }
    {
        Ok(DirFolder {
            disk: FileSystem::new(files, alloc, longest)?,
        })
    }
}

impl<D: Disk> Folder for DirFolder<D> {
    ghost folders = { λ d. on_disk (D.held d.disk) (D.read_faults d.disk) (D.write_faults d.disk) };

    fn load(
        &mut self,
        _alloc: Global,
        dir: &str,
        part: Part,
        to: &mut Vec<u8>,
    ) -> Result<bool, LoadEnd>
        ensures bytes { Loads (D.held self.old.disk) (key_of part dir.now) to.new.items result }
        ensures folders { LoadLeaves
            (on_disk (D.held self.old.disk) (D.read_faults self.old.disk) (D.write_faults self.old.disk))
            (key_of part dir.now)
            (on_disk (D.held self.new.disk) (D.read_faults self.new.disk) (D.write_faults self.new.disk)) result }
        ensures closed { D.opened self.new.disk ≡ None }
    {
        to.clear();
        match self.disk.open(dir, part) {
            Ok(true) => {}
            Ok(false) => return Ok(false),
            Err(_) => return Err(LoadEnd::Failed),
        }
        // It is closed also where a read failed.
        let read = read_part(&mut self.disk, to);
        self.disk.end_read();
        match read {
            Ok(()) => Ok(true),
            Err(LoadEnd::TooLong) => Err(LoadEnd::TooLong),
            Err(end) => {
                to.clear();
                Err(end)
            }
        }
    }

    fn store(&mut self, dir: &str, part: Part, bytes: &[u8]) -> Result<(), StoreFailed>
        ensures bytes { Stores (D.held self.old.disk) (key_of part dir.now) bytes.now (D.held self.new.disk) result }
        ensures counts { StoreCounts
            (on_disk (D.held self.old.disk) (D.read_faults self.old.disk) (D.write_faults self.old.disk))
            (on_disk (D.held self.new.disk) (D.read_faults self.new.disk) (D.write_faults self.new.disk)) result }
        ensures closed { D.opened self.new.disk ≡ None }
    {
        if self.disk.create(dir, part).is_err() {
            return Err(StoreFailed);
        }
        // It is closed also where a write failed.
        let stored = write_part(&mut self.disk, bytes);
        self.disk.end_write(dir, part);
        stored
    }
}
