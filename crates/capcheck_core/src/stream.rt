//! The parts of a package in the Load file of its folder.
ghost use Rattle.std.specs.Prelude.{ℕ, List};
ghost use Rattle.capcheck_core.specs.PackageEnds.{FinishesStream, HasTaken, LoadsStream, PackagesLeave};
ghost use Rattle.capcheck_core.specs.BesideEnds.{LoadsWanted};

use crate::load::FolderFault;
use crate::packages::PackagesStop;
use crate::storing::LOAD;
use cap_bytes::Part;
use cap_files::{Folder, LoadEnd};
use cap_load::{FinishEnd, Loader};
use cap_package::{PackFault, Parts};
use std::alloc::Global;

/// The room for contents: as many bytes as a part can have.
const ROOM: u32 = 65538;

/// A loader that took the Load file of a folder, for the package of a number.
pub(crate) fn load_stream<F: Folder>(
    alloc: Global,
    folder: &mut F,
    dir: &str,
    number: u16,
) -> Result<Loader, PackagesStop>
    ensures loads { LoadsStream (F.folders folder.old) (F.folders folder.new) dir.now number result }
    ensures folders { PackagesLeave (F.folders folder.old) (F.folders folder.new) result }
{
    let stream = load_wanted(alloc, folder, dir, LOAD, number)?;
    let mut loader = Loader::new(alloc, ROOM)?;
    match loader.feed(&stream) {
        Ok(()) => Ok(loader),
        Err(fault) => Err(PackagesStop::Malformed(number, FolderFault::Stream(fault))),
    }
}

/// The parts in the bytes that a loader took, for the package of a number.
pub(crate) fn parts_in(
    alloc: Global,
    loader: &Loader,
    number: u16,
) -> Result<Parts<'_>, PackagesStop>
    ensures { (stream : List ℕ) → HasTaken loader.now stream → FinishesStream stream number result }
{
    match loader.finish(alloc) {
        Ok(parts) => Ok(parts),
        Err(FinishEnd::Fault(fault)) => {
            Err(PackagesStop::Malformed(number, FolderFault::Stream(fault)))
        }
        Err(FinishEnd::Memory) => Err(PackagesStop::Memory),
    }
}

/// A file beside the components that has to be there, for the package of a number.
pub(crate) fn load_wanted<F: Folder>(
    alloc: Global,
    folder: &mut F,
    dir: &str,
    part: Part,
    number: u16,
) -> Result<Vec<u8>, PackagesStop>
    ensures loads { LoadsWanted (F.folders folder.old) (F.folders folder.new) dir.now part.0 number result }
    ensures folders { PackagesLeave (F.folders folder.old) (F.folders folder.new) result }
{
    let mut file = Vec::new(alloc);
    match folder.load(alloc, dir, part, &mut file) {
        Ok(true) => Ok(file),
        Ok(false) => Err(PackagesStop::Malformed(
            number,
            FolderFault::Pack(PackFault::MissingPart(part.0)),
        )),
        Err(LoadEnd::TooLong) => Err(PackagesStop::Malformed(
            number,
            FolderFault::Pack(PackFault::PartTooLong(part.0)),
        )),
        Err(LoadEnd::Failed) => Err(PackagesStop::Failed),
        Err(LoadEnd::Memory) => Err(PackagesStop::Memory),
    }
}
