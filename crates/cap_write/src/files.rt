ghost use Rattle.std.specs.Prelude.{◌≡◌, IfOk, IsNone, OnOk};
ghost use Rattle.cap_components.specs.Parts.{held};
ghost use Rattle.cap_renewal.specs.Files.{file_seen};
ghost use Rattle.cap_write.specs.Files.{AreShortInfos, IsFileOf, index_file};
ghost use Rattle.cap_write.specs.NewIndex.{IsShortIndex, index_seen};
ghost use Rattle.cap_write.specs.Filed.{AreFiled, PutsFile};

use crate::index::NewIndex;
use crate::write::directory_file;
use cap_bytes::Part;
use cap_laying::Written;
use cap_package::{OwnedParts, Package, Parts};
use cap_renewal::{applet_file, class_file, descriptor_file, export_file, file_of, pool_file};
use std::alloc::{AllocError, Global};

/// The file with a tag of a package with these methods and this target index, if there is one.
pub(crate) fn file(
    alloc: Global,
    package: &Package<'_, '_>,
    written: &Written,
    index: &NewIndex,
    tag: u8,
) -> Result<Option<Vec<u8>>, AllocError>
    requires { AreShortInfos written.now index.now }
    ensures { IfOk result (λ file. IsFileOf «package».now written.now index.now tag (file_seen file)) }
{
    let news = &written.news;
    match tag {
        2 => Ok(Some(directory_file(alloc, package, written, index)?)),
        3 => applet_file(alloc, package, news),
        5 => Ok(Some(pool_file(alloc, package, news)?)),
        6 => Ok(Some(class_file(alloc, package, news)?)),
        7 => Ok(Some(file_of(alloc, 7, &written.info)?)),
        9 => Ok(Some(file_of(alloc, 9, &written.references)?)),
        10 => export_file(alloc, package, news),
        11 => Ok(Some(descriptor_file(alloc, package, news)?)),
        12 => Ok(None),
        128 => index_file(alloc, package.parts(), index),
        _ => kept_file(alloc, package.parts(), tag),
    }
}

/// The file of the target index, or what becomes of it.
fn index_file(
    alloc: Global,
    parts: &Parts<'_>,
    index: &NewIndex,
) -> Result<Option<Vec<u8>>, AllocError>
    requires { IsShortIndex (index_seen index.now) }
    ensures { IfOk result (λ file. file_seen file ≡ index_file parts.now (index_seen index.now)) }
{
    match index {
        NewIndex::Kept => kept_file(alloc, parts, 128),
        NewIndex::Dropped => Ok(None),
        NewIndex::Written(info) => Ok(Some(file_of(alloc, 128, info)?)),
    }
}

/// The file with a tag as it is.
fn kept_file(alloc: Global, parts: &Parts<'_>, tag: u8) -> Result<Option<Vec<u8>>, AllocError>
    ensures { IfOk result (λ file. file_seen file ≡ held parts.now tag) }
{
    match parts.get(Part(tag)) {
        Some(bytes) => Ok(Some(bytes.to_vec(alloc)?)),
        None => Ok(None),
    }
}

/// The parts of a package with these methods and this target index, by rising tag.
pub(crate) fn all_parts(
    alloc: Global,
    package: &Package<'_, '_>,
    written: &Written,
    index: &NewIndex,
) -> Result<OwnedParts, AllocError>
    requires { AreShortInfos written.now index.now }
    ensures { IfOk result (AreFiled (IsFileOf «package».now written.now index.now) 256) }
{
    let mut parts = OwnedParts::new(alloc);
    'tags: for tag in 0..256u16 {
        put_part(alloc, package, written, index, tag as u8, &mut parts)?;
    }
    Ok(parts)
}

/// Appends the part with a tag, if there is one.
fn put_part(
    alloc: Global,
    package: &Package<'_, '_>,
    written: &Written,
    index: &NewIndex,
    tag: u8,
    parts: &mut OwnedParts,
) -> Result<(), AllocError>
    requires short { AreShortInfos written.now index.now }
    requires absent { IsNone (held parts.old tag) }
    ensures { OnOk result (PutsFile (IsFileOf «package».now written.now index.now tag) tag parts.old parts.new) }
{
    match file(alloc, package, written, index, tag)? {
        Some(bytes) => parts.put(Part(tag), bytes),
        None => Ok(()),
    }
}

/// Why a package is not written.
#[derive(Clone, Copy)]
pub enum WriteEnd {
    /// The info of the Method component would be above 65,535 bytes; with its plain size in bytes.
    PartLong(u32),
    Memory,
}

impl From<AllocError> for WriteEnd {
    ghost use Rattle.std.specs.Prelude.{◌≡◌};
    ghost use Rattle.cap_write.specs.declared.files.WriteEnd.TheVariants.{Memory};

    ghost from_gives = { λ _ end. end ≡ Memory };

    fn from(_error: AllocError) -> WriteEnd {
        WriteEnd::Memory
    }
}
