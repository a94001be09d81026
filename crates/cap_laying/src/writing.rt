ghost use Rattle.std.specs.Prelude.{◌≡◌, ◌≤◌, ◌<◌, ◌-◌, ◌++◌, length, slice_index, OnOk, IfOk};
ghost use Rattle.cap_laying.specs.NewDirectory.{drops, head_of, new_directory, new_size, sizes_from, own_size};
ghost use Rattle.std.specs.List.{flat_map};
ghost use Rattle.byteorder.specs.Endian.{big_bytes};
ghost use Rattle.cap_laying.specs.DirectoryBytes.{AreShort, directory_bytes};
ghost use Rattle.cap_frame.specs.Directory.{directory_items};
ghost use Rattle.cap_laying.specs.WrittenDirectory.{DirectoriesStand};
ghost use Rattle.cap_laying.specs.WrittenMethods.{HeadersReadBack, InfosAreWritten};
ghost use Rattle.cap_laying.specs.Standing.{WrittenMethodsStand};
ghost use Rattle.cap_laying.specs.Component.{ComponentsStand};
ghost use Rattle.cap_laying.specs.ReferenceLocations.{PlacesReadBack};
ghost use Rattle.cap_bytes.specs.Spelling.{Stands};
ghost use Rattle.cap_frame.specs.DirectoryFormat.{directory_info, size_count};

use crate::customs::{index_extent, measure, put_customs, put_index};
use cap_bytes::{Format, are_bytes};
use cap_frame::Directory;
use std::alloc::{AllocError, Global};

/// What becomes of the custom component with the tag 128, that of a target index.
#[derive(Clone, Copy)]
pub enum IndexChange {
    /// Its entry stays, if there is one.
    Kept,
    /// Its entry is left out.
    Dropped,
    /// A target index takes its place, whose info has so many bytes. Its entry is the last one.
    Written(u16),
}

impl IndexChange {
    /// Whether the entry that the source has is left out.
    pub(crate) fn drops(self) -> bool
        ensures { result ≡ drops self }
    {
        match self {
            IndexChange::Kept => false,
            IndexChange::Dropped | IndexChange::Written(_) => true,
        }
    }
}

/// What the Directory of a package says of the components that are written anew.
#[derive(Clone, Copy)]
pub struct ComponentSizes {
    /// The bytes of the info of the Method component.
    pub methods: u16,
    /// Those of the ReferenceLocation component.
    pub references: u16,
    /// What becomes of the target index.
    pub index: IndexChange,
}

/// Appends the info of the Directory with other sizes; it has sizes for so many components, 11 in format 2.1 and
/// 12 in format 2.2. Where there is no memory some bytes may be appended.
pub(crate) fn put_directory(
    directory: &Directory<'_>,
    count: u8,
    new: ComponentSizes,
    out: &mut Vec<u8>,
) -> Result<(), AllocError>
    requires counted { length (directory_items directory.now).sizes ≡ count }
    requires few { count ≤ 12 }
    requires short { AreShort (directory_items directory.now).customs }
    requires room { length (directory_items directory.now).customs < 255 }
    ensures { OnOk result (out.new.items ≡ out.old.items ++ directory_bytes (new_directory new (directory_items directory.now))) }
{
    let kept = measure(directory, new.index);
    let added = index_extent(new.index);
    let own = 2 * u16::from(count) + 9 + (kept.size + added.size);
    put_head(directory, count, own, new, out)?;
    out.push(kept.count + added.count)?;
    put_customs(directory, new.index, out)?;
    put_index(new.index, out)?;
    Ok(())
}

/// Appends what stands before the custom components.
#[tactic(auto, using(crate::proofs::Appending::steps))]
fn put_head(
    directory: &Directory<'_>,
    count: u8,
    own: u16,
    new: ComponentSizes,
    out: &mut Vec<u8>,
) -> Result<(), AllocError>
    requires counted { length (directory_items directory.now).sizes ≡ count }
    requires few { count ≤ 12 }
    ensures { OnOk result (out.new.items ≡ out.old.items ++ head_of own new (directory_items directory.now)) }
{
    put_sizes(directory, count, own, new, out)?;
    out.extend_from_slice(&directory.image_size().to_be_bytes())?;
    out.extend_from_slice(&directory.array_init_count().to_be_bytes())?;
    out.extend_from_slice(&directory.array_init_size().to_be_bytes())?;
    out.extend_from_slice(&[directory.import_count(), directory.applet_count()])
}

/// Appends the sizes of so many components.
#[tactic(auto, using(crate::proofs::Kept::size_more))]
fn put_sizes(
    directory: &Directory<'_>,
    count: u8,
    own: u16,
    new: ComponentSizes,
    out: &mut Vec<u8>,
) -> Result<(), AllocError>
    requires counted { length (directory_items directory.now).sizes ≡ count }
    requires few { count ≤ 12 }
    ensures { OnOk result (out.new.items
        ≡ out.old.items ++ flat_map (big_bytes 2) (sizes_from own new 1 (directory_items directory.now).sizes)) }
{
    let mut tag: u8 = 1;
    'sizes: for _ in 0..count {
        let size = new_size(own, new, tag, old_size(directory, tag));
        out.extend_from_slice(&size.to_be_bytes())?;
        tag += 1;
    }
    Ok(())
}

/// The size of the component with a tag as it was.
fn old_size(directory: &Directory<'_>, tag: u8) -> u16
    requires first { 1 ≤ tag }
    requires last { tag ≤ 12 }
    ensures { result ≡ slice_index (directory_items directory.now).sizes (tag - 1) }
{
    match directory.size(tag) {
        Some(size) => size,
        None => 0,
    }
}

/// The size of the component with a tag, which was another.
fn new_size(own: u16, new: ComponentSizes, tag: u8, old: u16) -> u16
    ensures { result ≡ new_size own new tag old }
{
    match tag {
        2 => own,
        7 => new.methods,
        9 => new.references,
        12 => 0,
        _ => old,
    }
}

/// The info that is written stands for its items.
pub fn directories_stand()
    ensures { DirectoriesStand }
{}

/// Where the bytes of a header stand, its numbers are read.
pub fn headers_read_back()
    ensures { HeadersReadBack }
{}

/// The info stands for its handler table, and each method stands in it where the one before it ends.
pub fn infos_are_written()
    ensures { InfosAreWritten }
{}

/// Each of the methods that are written stands at its new offset.
pub fn methods_stand()
    ensures { WrittenMethodsStand }
{}

/// Rising places are those that their distances tell.
pub fn places_read_back()
    ensures { PlacesReadBack }
{}

/// The info that is written stands for its two lists.
pub fn components_stand()
    ensures { ComponentsStand }
{}

/// The info of the Directory of a package whose methods are written anew, in the format of the package: with the sizes
/// of the components that are written, 0 for Debug, and an entry for the target index, where one is written.
pub fn directory_info(
    alloc: Global,
    directory: &Directory<'_>,
    format: Format,
    new: ComponentSizes,
) -> Result<Vec<u8>, AllocError>
    requires { Stands (directory_info format) directory.now.info.bytes.now (directory_items directory.now) }
    ensures stands { IfOk result (λ info. Stands (directory_info format) info.items (new_directory new (directory_items directory.now))) }
    ensures size { IfOk result (λ info. length info.items ≡ own_size new (directory_items directory.now)) }
    ensures short { IfOk result (λ info. length info.items ≤ 65535) }
{
    are_bytes(directory.info().bytes);
    let mut info = Vec::new(alloc);
    put_directory(directory, size_count(format), new, &mut info)?;
    Ok(info)
}

/// How many components the Directory has a size for.
fn size_count(format: Format) -> u8
    ensures { result ≡ size_count format }
{
    match format {
        Format::V21 => 11,
        Format::V22 => 12,
    }
}
