ghost use Rattle.std.specs.Prelude.{◌≤◌, length};
ghost use Rattle.cap_bytes.specs.Grammar.{repeat};
ghost use Rattle.cap_bytes.specs.Taking.{Gives};
ghost use Rattle.cap_method.specs.MethodFormat.{handler_info};

use cap_bytes::{Cursor, View};

/// The Method component.
#[derive(Clone, Copy)]
pub struct MethodPart<'a> {
    pub(crate) info: View<'a>,
    pub(crate) handlers: HandlerEntries<'a>,
    ghost few: { length info.bytes.now ≤ 65535 },
}

/// The entries of the handler table that are left, from the first on.
#[derive(Clone, Copy, Drop)]
pub struct HandlerEntries<'a> {
    pub(crate) items: Cursor<'a>,
    pub(crate) left: u8,
    ghost known: { Gives (repeat left handler_info) items },
}
