ghost use Rattle.cap_bytes.specs.Grammar.{repeat, u2};
ghost use Rattle.cap_bytes.specs.Taking.{Gives};

use crate::cursor::Cursor;

/// A table of numbers of two bytes: those that are left, from the first on.
#[derive(Clone, Copy, Drop)]
pub struct Table<'a> {
    pub(crate) items: Cursor<'a>,
    pub(crate) left: u16,
    ghost known: { Gives (repeat left u2) items },
}
