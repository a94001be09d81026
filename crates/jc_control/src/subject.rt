ghost use Rattle.std.specs.Prelude.{◌≤◌, length};
ghost use Rattle.jc_decode.specs.Laws.{AreListed};
ghost use Rattle.jc_decode.specs.ListedOnce.{AreListed-once};
ghost use Rattle.jc_control.specs.Method.{IsMethodOf, IsMethodOf-once};

use cap_bytes::View;
use jc_base::{MethodRec, World};

/// A method with code of a world: its number there, its record and the bytes of its code.
#[derive(Clone, Copy)]
pub struct Subject<'w> {
    pub world: &'w World<'w>,
    pub number: u16,
    pub rec: &'w MethodRec,
    pub code: View<'w>,
    ghost there: { IsMethodOf world.now (record { number = number; rec = rec.now; code = code.bytes.now }) } by { IsMethodOf-once _ _ },
    ghost short: { length code.bytes.now ≤ 32767 },
    ghost few: { length rec.now.handlers ≤ 255 },
    ghost listed: { AreListed code.bytes.now } by { AreListed-once code.bytes.now },
}
