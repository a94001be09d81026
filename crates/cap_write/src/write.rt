ghost use Rattle.std.specs.Prelude.{IfOk, IfErr, ◌≡◌};
ghost use Rattle.cap_write.specs.Condition.{MayBeLaid};
ghost use Rattle.cap_write.specs.WrittenPackage.{HaveRewritten, IsWritten, TellsWriteEnd};
ghost use Rattle.cap_write.specs.Files.{AreShortInfos, IsDirectoryFile};
ghost use Rattle.cap_write.specs.NewIndex.{IsShortIndex, change_of, index_seen};
ghost use Rattle.cap_laying.specs.WrittenDirectory.{MayStand};

use crate::files::{WriteEnd, all_parts};
use crate::index::{NewIndex, new_index};
use crate::methods::{members_of, write_methods};
use cap_bytes::are_bytes;
use cap_laying::{ComponentSizes, IndexChange, Written, directory_info};
use cap_package::{OwnedParts, Package};
use cap_renewal::file_of;
use jc_decode::Laid;
use law_package::{rewritten_is_a_package, writing_rewrites};
use std::alloc::{AllocError, Global};

/// Writes a package with other code of its methods, in its own format. The list has an element for each method record of
/// the Descriptor, in its order: the code of the method, and None for one that is abstract or of an interface. The parts
/// come by rising tag;
/// every byte that tells nothing of the methods is as it was, the Debug component is left out, and the target index of the
/// new code is the custom component with the tag 128, unless the package has another one with this tag or the index would
/// have more than 65,535 bytes. The parts are a package again: the former one with this code, in which each method is named
/// by its position in the Descriptor.
///
/// Where there is memory, it ends with `PartLong` exactly where the info of the Method component would be above
/// 65,535 bytes. It takes time in proportion to the parts.
pub fn write_package(
    alloc: Global,
    package: &Package<'_, '_>,
    laid: &[Option<Laid>],
) -> Result<OwnedParts, WriteEnd>
    requires { MayBeLaid «package».now laid.now }
    ensures written { IfOk result (IsWritten «package».now laid.now) }
    ensures again { IfOk result (HaveRewritten «package».now laid.now) }
    ensures long { IfErr result (TellsWriteEnd «package».now laid.now) }
{
    let _parts = package.parts();
    directory_fits(package);
    writing_rewrites();
    rewritten_is_a_package();
    let members = members_of(alloc, package, laid)?;
    let written = write_methods(alloc, package, &members)?;
    let index = new_index(alloc, package, laid)?;
    let parts = all_parts(alloc, package, &written, &index)?;
    Ok(parts)
}

/// The file of the Directory of a package with these methods and this target index.
pub(crate) fn directory_file(
    alloc: Global,
    package: &Package<'_, '_>,
    written: &Written,
    index: &NewIndex,
) -> Result<Vec<u8>, AllocError>
    requires { AreShortInfos written.now index.now }
    ensures { IfOk result (λ file. IsDirectoryFile «package».now written.now.info.items
        written.now.references.items (index_seen index.now) file.items) }
{
    let directory = package.directory();
    let header = package.header();
    let sizes = ComponentSizes {
        methods: written.info.len() as u16,
        references: written.references.len() as u16,
        index: change_of(index),
    };
    let info = directory_info(alloc, &directory, header.format(), sizes)?;
    file_of(alloc, 2, &info)
}

/// What becomes of the entry for the target index.
fn change_of(index: &NewIndex) -> IndexChange
    requires { IsShortIndex (index_seen index.now) }
    ensures { result ≡ change_of (index_seen index.now) }
{
    match index {
        NewIndex::Kept => IndexChange::Kept,
        NewIndex::Dropped => IndexChange::Dropped,
        NewIndex::Written(info) => IndexChange::Written(info.len() as u16),
    }
}

/// The Directory of a package has numbers and tags that their items hold: a fact for proofs, and no work.
pub(crate) fn directory_fits(package: &Package<'_, '_>)
    ensures { MayStand «package».now.header.format «package».now.directory }
{
    let directory = package.directory();
    are_bytes(directory.info().bytes);
}
