ghost use Rattle.std.specs.Prelude.{◌≡◌, ◌≢◌, ◌≤◌, length, min};
ghost use Rattle.std.specs.Option.{option_copied};
ghost use Rattle.cap_files.specs.WordsLeft.{words_left};
ghost use Rattle.cap_components.specs.declared.fault.PackFault.TheVariants.{PartTooLong};
ghost use Rattle.capcheck_core.specs.declared.load.FolderFault.TheVariants.{Pack};
ghost use Rattle.capcheck_core.specs.declared.packages.PackagesStop.TheVariants.{Malformed};
ghost use Rattle.capcheck_core.specs.Roles.{IsNoRoles};
ghost use Rattle.capcheck_core.specs.PackageEnds.{RolesBeside, FindsRoles, LoadsFiles, ReadsPackage, PackagesLeave, IsStop};

use crate::load::{Files, FolderFault, LoadStop, load_parts};
use crate::verdict::Verdict;
use cap_bytes::{FormFault, FormKind, Part};
use cap_files::{Folder, LoadEnd, WordsIter};
use cap_package::{PackFault, Package, Parts, package};
use cap_text::{malformed, malformed_stream, not_linked};
use jc_link::LinkFault;
use std::alloc::{AllocError, Global};

/// The file of the roles.
const ROLES: Part = Part(0);

/// The most packages that a world has.
pub(crate) const MOST: u32 = 16;

/// Why packages and roles were not loaded.
#[derive(Clone, Copy)]
pub enum PackagesStop {
    /// So many folders: none, or more than 16.
    TooMany(u32),
    /// The parts of the package of this number, its Load file, or the roles beside it, are at fault.
    Malformed(u16, FolderFault),
    /// A load failed.
    Failed,
    /// There was no memory for the parts.
    Memory,
}

impl From<AllocError> for PackagesStop {
    ghost use Rattle.std.specs.Prelude.{◌≡◌};
    ghost use Rattle.capcheck_core.specs.declared.packages.PackagesStop.TheVariants.{Memory};

    ghost from_gives = { λ _ e. e ≡ Memory };

    fn from(_error: AllocError) -> PackagesStop {
        PackagesStop::Memory
    }
}

impl PackagesStop {
    /// The verdict that says why.
    pub fn verdict(self, alloc: Global) -> Verdict
        ensures { IsStop self result }
    {
        match self {
            PackagesStop::TooMany(count) => Verdict::malformed(not_linked(
                alloc,
                LinkFault::TooManyPackages(count),
            )),
            PackagesStop::Malformed(number, FolderFault::Pack(fault)) => {
                Verdict::malformed(malformed(alloc, number, fault))
            }
            PackagesStop::Malformed(number, FolderFault::Stream(fault)) => {
                Verdict::malformed(malformed_stream(alloc, number, fault))
            }
            PackagesStop::Failed => Verdict::ReadFault,
            PackagesStop::Memory => Verdict::Memory,
        }
    }
}

/// How many folders there are, as far as 32 bits count them.
pub(crate) fn count_of(dirs: WordsIter<'_>) -> u32
    ensures { result ≡ min (length (words_left dirs.entry)) 4294967295 }
{
    let mut count = 0u32;
    'dirs: for _dir in dirs {
        count = count.saturating_add(1);
    }
    count
}

/// The files of the package of a number.
pub(crate) fn load_files<F: Folder>(
    alloc: Global,
    folder: &mut F,
    dir: &str,
    number: u16,
) -> Result<Files, PackagesStop>
    ensures loads { LoadsFiles (F.folders folder.old) (F.folders folder.new) dir.now number result }
    ensures folders { PackagesLeave (F.folders folder.old) (F.folders folder.new) result }
{
    match load_parts(alloc, folder, dir) {
        Ok(files) => Ok(files),
        Err(LoadStop::TooLong(part)) => Err(too_long(number, part)),
        Err(LoadStop::Failed) => Err(PackagesStop::Failed),
        Err(LoadStop::Memory) => Err(PackagesStop::Memory),
    }
}

// A part of the package of a number is longer than a component can be.
fn too_long(number: u16, part: Part) -> PackagesStop
    ensures { result ≡ Malformed number (Pack (PartTooLong part.0)) }
{
    PackagesStop::Malformed(number, FolderFault::Pack(PackFault::PartTooLong(part.0)))
}

/// The package of a number that the parts stand for.
pub(crate) fn read_package<'p, 'a>(
    parts: &'p Parts<'a>,
    number: u16,
) -> Result<Package<'p, 'a>, PackagesStop>
    ensures { ReadsPackage parts.now number result }
{
    match package(parts) {
        Ok(package) => Ok(package),
        Err(fault) => Err(PackagesStop::Malformed(number, FolderFault::Pack(fault))),
    }
}

/// The roles: those that are given, and else those beside the first package.
#[tactic(auto, using(crate::proofs::OnPackages::bad_roles))]
pub(crate) fn roles_beside<F: Folder>(
    alloc: Global,
    folder: &mut F,
    dir: &str,
    given: Option<[u8; 8]>,
) -> Result<[u8; 8], PackagesStop>
    ensures loads { RolesBeside (F.folders folder.old) (F.folders folder.new) dir.now given result }
    ensures folders { PackagesLeave (F.folders folder.old) (F.folders folder.new) result }
{
    match given {
        Some(roles) => Ok(roles),
        None => match find_roles(alloc, folder, dir) {
            Ok(Some(roles)) => Ok(roles),
            Ok(None) => Err(PackagesStop::Malformed(
                0,
                FolderFault::Pack(PackFault::MissingPart(ROLES.0)),
            )),
            Err(stop) => Err(stop),
        },
    }
}

/// The roles beside a package, where they are there.
pub(crate) fn find_roles<F: Folder>(
    alloc: Global,
    folder: &mut F,
    dir: &str,
) -> Result<Option<[u8; 8]>, PackagesStop>
    ensures loads { FindsRoles (F.folders folder.old) (F.folders folder.new) dir.now result }
    ensures folders { PackagesLeave (F.folders folder.old) (F.folders folder.new) result }
{
    let mut file = Vec::new(alloc);
    match folder.load(alloc, dir, ROLES, &mut file) {
        Ok(true) => match <[u8; 8]>::try_from(file.as_slice()) {
            Ok(roles) => Ok(Some(roles)),
            Err(_) => Err(PackagesStop::Malformed(
                0,
                FolderFault::Pack(PackFault::Form(misfit(file.as_slice()))),
            )),
        },
        Ok(false) => Ok(None),
        Err(LoadEnd::TooLong) => Err(too_long(0, ROLES)),
        Err(LoadEnd::Failed) => Err(PackagesStop::Failed),
        Err(LoadEnd::Memory) => Err(PackagesStop::Memory),
    }
}

/// The roles as they are stored.
pub(crate) fn slice_of(roles: &Option<[u8; 8]>) -> Option<&[u8]>
    ensures { option_copied result ≡ roles.now }
{
    match roles {
        Some(roles) => Some(roles),
        None => None,
    }
}

// Where a file of another length breaks.
fn misfit(file: &[u8]) -> FormFault
    requires short { length file.now ≤ 65538 }
    requires other { length file.now ≢ 8 }
    ensures { IsNoRoles file.now result }
{
    let (at, kind) = if file.len() < 8 {
        (file.len() as u32, FormKind::Cut)
    } else {
        (8, FormKind::Trailing)
    };
    FormFault {
        part: ROLES.0,
        at,
        kind,
    }
}
