ghost use Rattle.std.specs.Prelude.{◌≤◌, ◌*◌, length};

use cap_bytes::View;

/// So many nibbles, two in each byte, the high one first.
#[derive(Clone, Copy, Drop)]
pub(crate) struct Nibbles<'a> {
    pub(crate) bytes: View<'a>,
    pub(crate) count: u8,
    ghost enough: { count ≤ 2 * length bytes.bytes.now },
}
