ghost use Rattle.std.specs.Prelude.{◌<◌, ◌∷◌, []};
ghost use Rattle.jc_base.specs.Linked.{IsHandler};
ghost use Rattle.jc_tests.specs.OneMethod.{classes};

use jc_base::*;

/// A range and an entry, where they lie in the code.
pub type Range = (u16, u16, u16);

/// A handler for all that is thrown, its range and entry cut to a code of this length.
pub fn handler(range: Range, len: u16) -> Handler
    requires { 0 < len }
    ensures { IsHandler classes (Member.ClassOf 1 ∷ []) len result }
{
    let end = range.1.min(len);
    Handler {
        start: range.0.min(end),
        end,
        entry: range.2.min(len - 1),
        index: 0,
        class: 1,
    }
}
