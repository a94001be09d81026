ghost use Rattle.std.specs.Prelude.{◌≡◌, length};

use cap_bytes::View;

/// The places in the info of the Method component that hold an index into the pool (section 6.11).
/// Each list gives rising offsets as distances from the offset before, the first from 0: a distance d
/// is d / 255 bytes of 255 and then the byte d mod 255.
#[derive(Clone, Copy)]
pub struct Locations<'a> {
    pub(crate) info: View<'a>,
    pub(crate) byte: &'a [u8],
    pub(crate) byte_count: u16,
    pub(crate) byte2: &'a [u8],
    pub(crate) byte2_count: u16,
    ghost byte_counted: { byte_count ≡ length byte.now },
    ghost byte2_counted: { byte2_count ≡ length byte2.now },
}
