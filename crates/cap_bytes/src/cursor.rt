ghost use Rattle.std.specs.Prelude.{◌≤◌, length};

use crate::view::View;

/// The items of a component's info, taken one after the other from the first on. After an error it is open where the
/// cursor stands: nothing more is taken then.
#[derive(Clone, Copy)]
pub struct Cursor<'a> {
    pub info: View<'a>,
    /// The component's tag, which a fault names.
    pub part: u8,
    /// The offset of the next item in the info.
    pub at: u32,
    ghost few: { length info.bytes.now ≤ 65535 },
    ghost within: { at ≤ length info.bytes.now },
}
