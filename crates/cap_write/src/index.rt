ghost use Rattle.std.specs.Prelude.{◌≡◌, IfOk};
ghost use Rattle.cap_index.specs.TargetIndex.{AreShortCodes};
ghost use Rattle.cap_write.specs.NewIndex.{IsNewIndex, index_seen, keeps_index};

use cap_index::index_info;
use cap_package::Package;
use jc_decode::Laid;
use std::alloc::{AllocError, Global};

/// The tag of a target index, and its application identifier.
const INDEX: u8 = 128;

const INDEX_AID: [u8; 6] = [0xF0, 0x6C, 0x65, 0x72, 0x6F, 0x79];

/// What becomes of the custom component with the tag of a target index.
#[derive(Drop)]
pub(crate) enum NewIndex {
    /// It is another component, and stays.
    Kept,
    /// There is none.
    Dropped,
    /// It is the target index with this info.
    Written(Vec<u8>),
}

/// The target index of the new code, unless the package has another component with its tag or its info would have more
/// than 65,535 bytes.
pub(crate) fn new_index(
    alloc: Global,
    package: &Package<'_, '_>,
    laid: &[Option<Laid>],
) -> Result<NewIndex, AllocError>
    requires { AreShortCodes laid.now }
    ensures { IfOk result (λ index. IsNewIndex «package».now laid.now (index_seen index)) }
{
    if keeps_index(package) {
        return Ok(NewIndex::Kept);
    }
    match index_info(alloc, laid)? {
        Some(info) => Ok(NewIndex::Written(info)),
        None => Ok(NewIndex::Dropped),
    }
}

/// Whether the package has a custom component with the tag of a target index and another identifier.
fn keeps_index(package: &Package<'_, '_>) -> bool
    ensures { result ≡ keeps_index «package».now }
{
    package
        .custom(INDEX)
        .is_some_and(|custom| !(custom.aid == INDEX_AID.as_slice()))
}
