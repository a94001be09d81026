ghost use Rattle.std.specs.Prelude.{◌≡◌, ◌≤◌, ◌+◌, ◌++◌, filter, length, OnOk};
ghost use Rattle.std.specs.List.{flat_map};
ghost use Rattle.cap_laying.specs.DirectoryBytes.{AreShort, custom_bytes, customs_size};
ghost use Rattle.cap_laying.specs.NewDirectory.{index_entry, kept_count, kept_size, stays_in_index};
ghost use Rattle.cap_frame.specs.Directory.{custom_seen, directory_items};

use crate::writing::IndexChange;
use cap_frame::{CustomEntry, Directory};
use std::alloc::AllocError;

/// The tag of the target index, and its application identifier.
const INDEX: u8 = 128;

static INDEX_AID: [u8; 6] = [0xF0, 0x6C, 0x65, 0x72, 0x6F, 0x79];

/// Whether a custom component stays.
fn stays(change: IndexChange, custom: &CustomEntry<'_>) -> bool
    ensures { result ≡ stays_in_index change (custom_seen custom.now) }
{
    !(change.drops() && custom.tag == INDEX)
}

/// What custom components take in the Directory: their number, and the number of their bytes.
#[derive(Clone, Copy)]
pub(crate) struct Extent {
    pub(crate) count: u8,
    pub(crate) size: u16,
}

/// The extent of the custom components that stay.
#[tactic(auto, using(crate::proofs::Kept::few_kept, crate::proofs::Kept::small_kept, crate::proofs::Kept::measured_more))]
pub(crate) fn measure(directory: &Directory<'_>, change: IndexChange) -> Extent
    requires { AreShort (directory_items directory.now).customs }
    ensures count { result.count ≡ length (filter (stays_in_index change) (directory_items directory.now).customs) }
    ensures size { result.size ≡ customs_size (filter (stays_in_index change) (directory_items directory.now).customs) }
    ensures few { result.count ≤ length (directory_items directory.now).customs }
    ensures small { result.size ≤ 5100 }
{
    let _all = directory.custom_count();
    let mut kept = Extent { count: 0, size: 0 };
    'customs: for custom in directory.customs() {
        kept = with_custom(change, &custom, kept);
    }
    kept
}

/// The extent with one more custom component, if it stays.
fn with_custom(change: IndexChange, custom: &CustomEntry<'_>, kept: Extent) -> Extent
    requires short { length custom.now.aid.now ≤ 16 }
    requires count { kept.count + kept_count change (custom_seen custom.now) ≤ 255 }
    requires size { kept.size + kept_size change (custom_seen custom.now) ≤ 5100 }
    ensures count { result.count ≡ kept.count + kept_count change (custom_seen custom.now) }
    ensures size { result.size ≡ kept.size + kept_size change (custom_seen custom.now) }
{
    if stays(change, custom) {
        Extent {
            count: kept.count + 1,
            size: kept.size + (4 + custom.aid.len() as u16),
        }
    } else {
        kept
    }
}

/// The extent of the entry of a target index that is written.
pub(crate) fn index_extent(change: IndexChange) -> Extent
    ensures count { result.count ≡ length (index_entry change) }
    ensures size { result.size ≡ customs_size (index_entry change) }
    ensures few { result.count ≤ 1 }
    ensures small { result.size ≤ 10 }
{
    match change {
        IndexChange::Written(_) => Extent { count: 1, size: 10 },
        IndexChange::Kept | IndexChange::Dropped => Extent { count: 0, size: 0 },
    }
}

/// Appends the custom components that stay. Where there is no memory some bytes may be appended.
#[tactic(auto, using(crate::proofs::Kept::put_more))]
pub(crate) fn put_customs(
    directory: &Directory<'_>,
    change: IndexChange,
    out: &mut Vec<u8>,
) -> Result<(), AllocError>
    requires { AreShort (directory_items directory.now).customs }
    ensures { OnOk result (out.new.items
        ≡ out.old.items ++ flat_map custom_bytes (filter (stays_in_index change) (directory_items directory.now).customs)) }
{
    'customs: for custom in directory.customs() {
        if stays(change, &custom) {
            put_custom(custom.tag, custom.size, custom.aid, out)?;
        }
    }
    Ok(())
}

/// Appends the entry of a target index that is written.
pub(crate) fn put_index(change: IndexChange, out: &mut Vec<u8>) -> Result<(), AllocError>
    ensures { OnOk result (out.new.items ≡ out.old.items ++ flat_map custom_bytes (index_entry change)) }
{
    match change {
        IndexChange::Written(size) => put_custom(INDEX, size, &INDEX_AID, out),
        IndexChange::Kept | IndexChange::Dropped => Ok(()),
    }
}

/// Appends a custom component.
#[tactic(auto, using(crate::proofs::Appending::steps))]
fn put_custom(tag: u8, size: u16, aid: &[u8], out: &mut Vec<u8>) -> Result<(), AllocError>
    requires { length aid.now ≤ 16 }
    ensures { OnOk result (out.new.items ≡ out.old.items ++ custom_bytes (record { tag = tag; size = size; aid = aid.now })) }
{
    out.push(tag)?;
    out.extend_from_slice(&size.to_be_bytes())?;
    out.push(aid.len() as u8)?;
    out.extend_from_slice(aid)
}
