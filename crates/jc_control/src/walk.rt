ghost use Rattle.std.specs.Prelude.{◌≤◌, length};
ghost use Rattle.jc_control.specs.Known.{ReadsAs, ReadsAs-once};

use crate::places::Places;
use cap_bytes::View;

mod stepping;

/// The instructions of a method's code, each with its place, as `Instructions` lists them. None is decoded again where
/// a listing was made.
#[derive(Clone, Copy)]
pub struct Walk<'a> {
    code: View<'a>,
    places: Places<'a>,
    at: u16,
    ghost short: { length code.bytes.now ≤ 32767 },
    ghost reads: { ReadsAs code.bytes.now places } by { ReadsAs-once code.bytes.now places },
}
