ghost use Rattle.std.specs.Prelude.{◌≡◌, ◌≤◌, ◌+◌, length, Ok};
ghost use Rattle.jc_decode.specs.Decoding.{decoded};
ghost use Rattle.jc_decode.specs.Listing.{targets};

use cap_bytes::View;
use jc_decode::Placed;

mod walk;

/// The places that an instruction names, as distances from the code's first byte: a branch's target, or of
/// a switch the default's and then those of its cases in order. They may lie outside the code.
#[derive(Clone, Copy)]
pub struct Targets<'a> {
    code: View<'a>,
    placed: Placed,
    next: u32,
    ghost short: { length code.bytes.now ≤ 65535 },
    ghost stands: { decoded code.bytes.now placed.place ≡ Ok placed.insn },
    ghost few: { length (targets code.bytes.now placed) ≤ length code.bytes.now + 1 },
}
