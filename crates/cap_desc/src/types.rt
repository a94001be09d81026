ghost use Rattle.std.specs.Prelude.{◌≤◌, IsTrue};
ghost use Rattle.cap_desc.specs.TypeFormat.{gives_types};
ghost use Rattle.cap_desc.specs.Nibbles.{nibbles_in};

use crate::nibbles::Nibbles;

/// The types of a type descriptor that are left, a list.
#[derive(Clone, Copy, Drop)]
pub struct Types<'a> {
    pub(crate) nibbles: Nibbles<'a>,
    pub(crate) at: u16,
    pub(crate) left: u8,
    ghost known: { IsTrue (gives_types left (nibbles_in nibbles) at) },
    ghost near: { at ≤ 255 },
}
