ghost use Rattle.std.specs.Prelude.{◌≡◌, ◌++◌, IsNone, IfOk};
ghost use Rattle.cap_files.specs.WordsLeft.{words_left};
ghost use Rattle.capcheck_core.specs.Place.{source_before};
ghost use Rattle.cap_components.specs.Components.{read_directory};
ghost use Rattle.cap_components.specs.Openings.{GivesOpening};
ghost use Rattle.cap_frame.specs.Directory.{directory_items, size_in};
ghost use Rattle.cap_package.specs.Parts.{held, HasEachOnce};
ghost use Rattle.capcheck_core.specs.Loads.{is_required, is_optional, is_some_size, is_sized, is_asked, AreLoaded};
ghost use Rattle.capcheck_core.specs.LoadEnds.{LoadsFile, LoadsFirst, LoadsRest, LoadsParts, EndsAsked, EndsSized, LoadsLeave};

use cap_bytes::Part;
use cap_components::{Opening, opening_in};
use cap_files::{Folder, LoadEnd, WordsIter};
use cap_frame::Directory;
use cap_load::StreamFault;
use cap_package::{OwnedParts, PackFault, Parts};
use std::alloc::{AllocError, Global};
use std::marker::Model;

/// How the parts of a package are had from its folder.
#[derive(Clone, Copy)]
pub enum Source {
    /// Each component from a file of its own.
    Components,
    /// All from one Load file.
    LoadFile,
}

/// What is at fault in the folder of a package.
#[derive(Clone, Copy)]
pub enum FolderFault {
    /// A part is missing or too long, or the parts make no package.
    Pack(PackFault),
    /// The bytes of the Load file are refused.
    Stream(StreamFault),
}

/// The folders whose packages are still to be loaded, of which one is next, how the parts of the last are had, and the roles, where
/// they are loaded: they stand beside the first package.
#[derive(Clone, Copy)]
pub(crate) struct Rest<'w> {
    pub dir: &'w str,
    pub others: WordsIter<'w>,
    pub last: Source,
    pub roles: Option<[u8; 8]>,
}

/// How the parts of the next package are had, by the folders after it.
pub(crate) fn source_of(last: Source, mut others: WordsIter<'_>) -> Source
    ensures { result ≡ source_before last (words_left others.entry) }
{
    match others.next() {
        Some(_) => Source::Components,
        None => last,
    }
}

/// The tag of the Header.
const HEADER: Part = Part(1);

/// The tag of the Directory.
const DIRECTORY: Part = Part(2);

/// The tag after that of the Directory.
const AFTER_DIRECTORY: u16 = 3;

/// The tag after that of Debug, the last component of the standard.
const AFTER_DEBUG: u16 = 13;

/// Why the parts of a folder were not loaded.
#[derive(Clone, Copy)]
pub enum LoadStop {
    /// A part is longer than a component can be.
    TooLong(Part),
    /// A load failed.
    Failed,
    /// There was no memory for the parts.
    Memory,
}

impl From<AllocError> for LoadStop {
    ghost use Rattle.std.specs.Prelude.{◌≡◌};
    ghost use Rattle.capcheck_core.specs.declared.load.LoadStop.TheVariants.{Memory};

    ghost from_gives = { λ _ stop. stop ≡ Memory };

    fn from(_error: AllocError) -> LoadStop {
        LoadStop::Memory
    }
}

/// The files of a package's folder as they were loaded: the Header and the Directory, and then the others.
#[derive(Drop)]
pub struct Files {
    first: OwnedParts,
    rest: OwnedParts,
}

impl Model for Files {
    ghost use Rattle.std.specs.Prelude.{List};
    ghost use Rattle.cap_package.specs.Parts.{Lent};

    ghost Value = { List Lent };

    ghost use Rattle.std.specs.Prelude.{◌++◌};
    ghost use Rattle.cap_package.specs.Parts.{HasEachOnce};

    ghost view = { λ f. f.first ++ f.rest };

    ghost invariant = { λ f. HasEachOnce (f.first ++ f.rest) };
}

impl Files {
    /// The files as parts, in the order of their tags.
    pub fn lend(&self, alloc: Global) -> Result<Parts<'_>, AllocError>
        ensures { IfOk result (λ parts. parts ≡ self.now) }
    {
        let first = self.first.lend(alloc)?;
        lend_after(&self.rest, first)
    }
}

/// The files of a package's folder by rising tag (sections 6.1 and 6.4 of the specification): the Header and the
/// Directory, those that every package has, and those to which the Directory gives a size that is not 0, where they are
/// there.
pub fn load_parts<F: Folder>(alloc: Global, folder: &mut F, dir: &str) -> Result<Files, LoadStop>
    ensures loads { LoadsParts (F.folders folder.old) (F.folders folder.new) dir.now result }
    ensures folders { LoadsLeave (F.folders folder.old) (F.folders folder.new) result }
{
    let first = load_first(alloc, folder, dir)?;
    match load_others(alloc, folder, dir, &first) {
        Ok(rest) => Ok(Files { first, rest }),
        Err(stop) => Err(stop),
    }
}

// The Header and the Directory, where they are there: they tell what else is asked for.
fn load_first<F: Folder>(alloc: Global, folder: &mut F, dir: &str) -> Result<OwnedParts, LoadStop>
    ensures loads { LoadsFirst (F.folders folder.old) (F.folders folder.new) dir.now result }
    ensures folders { LoadsLeave (F.folders folder.old) (F.folders folder.new) result }
{
    let mut parts = OwnedParts::new(alloc);
    load_file(alloc, folder, dir, HEADER, &mut parts)?;
    match load_file(alloc, folder, dir, DIRECTORY, &mut parts) {
        Ok(()) => Ok(parts),
        Err(stop) => Err(stop),
    }
}

// The other parts, by what the first ones say.
fn load_others<F: Folder>(
    alloc: Global,
    folder: &mut F,
    dir: &str,
    first: &OwnedParts,
) -> Result<OwnedParts, LoadStop>
    requires { AreLoaded (F.folders folder.old) dir.now 3 first.now }
    ensures loads { LoadsRest (F.folders folder.old) (F.folders folder.new) dir.now first.now result }
    ensures folders { LoadsLeave (F.folders folder.old) (F.folders folder.new) result }
{
    let opened = first.lend(alloc)?;
    let opening = opening_in(&opened);
    load_rest(alloc, folder, dir, &opened, &opening)
}

// The same by what was read of the first ones: those that every package has, and those to which the Directory gives a
// size that is not 0.
fn load_rest<F: Folder>(
    alloc: Global,
    folder: &mut F,
    dir: &str,
    first: &Parts<'_>,
    opening: &Result<Opening<'_>, PackFault>,
) -> Result<OwnedParts, LoadStop>
    requires first { AreLoaded (F.folders folder.old) dir.now 3 first.now }
    requires opening { GivesOpening first.now opening.now }
    ensures loads { LoadsRest (F.folders folder.old) (F.folders folder.new) dir.now first.now result }
    ensures folders { LoadsLeave (F.folders folder.old) (F.folders folder.new) result }
{
    let mut rest = OwnedParts::new(alloc);
    let end = end_of(first, opening);
    'tags: for tag in AFTER_DIRECTORY..end {
        if asks(first, opening, tag as u8) {
            match load_file(alloc, folder, dir, Part(tag as u8), &mut rest) {
                Ok(()) => {}
                Err(stop) => return Err(stop),
            }
        }
    }
    Ok(rest)
}

// Loads a part, and appends it where the folder has it.
fn load_file<F: Folder>(
    alloc: Global,
    folder: &mut F,
    dir: &str,
    part: Part,
    parts: &mut OwnedParts,
) -> Result<(), LoadStop>
    requires { IsNone (held parts.old part.0) }
    ensures loads { LoadsFile (F.folders folder.old) (F.folders folder.new)
        dir.now part.0 parts.old parts.new result }
    ensures folders { LoadsLeave (F.folders folder.old) (F.folders folder.new) result }
{
    let mut file = Vec::new(alloc);
    match folder.load(alloc, dir, part, &mut file) {
        Ok(true) => match parts.put(part, file) {
            Ok(()) => Ok(()),
            Err(_) => Err(LoadStop::Memory),
        },
        Ok(false) => Ok(()),
        Err(LoadEnd::TooLong) => Err(LoadStop::TooLong(part)),
        Err(LoadEnd::Failed) => Err(LoadStop::Failed),
        Err(LoadEnd::Memory) => Err(LoadStop::Memory),
    }
}

// A borrowed list, and after it another one.
fn lend_after<'a>(more: &'a OwnedParts, parts: Parts<'a>) -> Result<Parts<'a>, AllocError>
    requires { HasEachOnce (parts ++ more.now) }
    ensures { IfOk result (λ all. all ≡ parts.entry ++ more.now) }
{
    let mut all = parts;
    'parts: for n in 0..more.len() {
        let (part, bytes) = more.at(n);
        all.push(part, bytes)?;
    }
    Ok(all)
}

// The tag after the last one that may be asked for: where the Directory names no custom component, that after Debug's.
fn end_of(first: &Parts<'_>, opening: &Result<Opening<'_>, PackFault>) -> u16
    requires { GivesOpening first.now opening.now }
    ensures { EndsAsked first.now result }
{
    match opening {
        Ok(opening) => end_after(&opening.directory),
        Err(_) => AFTER_DEBUG,
    }
}

// The tag after the last one to which the Directory may give a size.
fn end_after(directory: &Directory<'_>) -> u16
    ensures { EndsSized (directory_items directory.now) result }
{
    if directory.custom_count() == 0 {
        AFTER_DEBUG
    } else {
        256
    }
}

// Whether a part is asked for, by what was read of the first ones.
fn asks(first: &Parts<'_>, opening: &Result<Opening<'_>, PackFault>, tag: u8) -> bool
    requires { GivesOpening first.now opening.now }
    ensures { result ≡ is_asked first.now tag }
{
    is_required(tag) || is_optional(tag) && gives_size(first, opening, tag)
}

// Whether every package has the component.
fn is_required(tag: u8) -> bool
    ensures { result ≡ is_required tag }
{
    tag >= 1 && tag <= 2 || tag >= 4 && tag <= 9 || tag == 11
}

// Whether a package may have the component.
fn is_optional(tag: u8) -> bool
    ensures { result ≡ is_optional tag }
{
    tag == 3 || tag == 10 || tag >= 128
}

// Whether the Directory, in the format that the Header names, gives the component a size that is not 0.
fn gives_size(first: &Parts<'_>, opening: &Result<Opening<'_>, PackFault>, tag: u8) -> bool
    requires { GivesOpening first.now opening.now }
    ensures { result ≡ is_sized (read_directory first.now) tag }
{
    match opening {
        Ok(opening) => has_size(&opening.directory, tag),
        Err(_) => false,
    }
}

fn has_size(directory: &Directory<'_>, tag: u8) -> bool
    ensures { result ≡ is_some_size (size_in (directory_items directory.now) tag) }
{
    match directory.size(tag) {
        Some(size) => size != 0,
        None => false,
    }
}
