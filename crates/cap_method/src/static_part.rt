ghost use Rattle.std.specs.Prelude.{◌≤◌, length};
ghost use Rattle.cap_bytes.specs.Grammar.{repeat};
ghost use Rattle.cap_bytes.specs.Taking.{Gives};
ghost use Rattle.cap_method.specs.StaticFormat.{array_init_info};

use cap_bytes::{Cursor, View};

/// The StaticField component.
#[derive(Clone, Copy)]
pub struct StaticPart<'a> {
    pub(crate) info: View<'a>,
    pub(crate) image_size: u16,
    pub(crate) reference_count: u16,
    pub(crate) arrays: ArrayInits<'a>,
    pub(crate) default_value_count: u16,
    pub(crate) values: &'a [u8],
    ghost few: { length values.now ≤ 65535 },
}

/// The initial arrays that are left, from the first on.
#[derive(Clone, Copy, Drop)]
pub struct ArrayInits<'a> {
    pub(crate) items: Cursor<'a>,
    pub(crate) left: u16,
    ghost known: { Gives (repeat left array_init_info) items },
}
