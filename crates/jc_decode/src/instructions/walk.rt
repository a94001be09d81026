ghost use Rattle.std.specs.Prelude.{◌≡◌, ◌≤◌, length, Err};
ghost use Rattle.std.specs.Iterator.{YieldsFirst, item_count};
ghost use Rattle.jc_decode.specs.Listing.{listing, listing_end, Lists};
ghost use Rattle.jc_decode.specs.Decoding.{decoded};
ghost use Rattle.jc_decode.specs.Instructions.{rest_of};

use super::Instructions;
use crate::decoding::decode;
use crate::insn::{CodeEnd, Placed};
use cap_bytes::View;

impl<'a> Instructions<'a> {
    /// The instructions of a method's code of at most 65,535 bytes.
    #[tactic(auto, using(crate::proofs::Listing::listing_facts))]
    pub fn of(code: View<'a>) -> Instructions<'a>
        requires { length code.bytes.now ≤ 65535 }
        ensures instructions { rest_of result ≡ listing code.entry.bytes.now }
        ensures lists { Lists code.entry.bytes.now 0 (rest_of result) }
    {
        Instructions { code, at: 0 }
    }
}

#[tactic(auto, using(crate::proofs::Listing::listing_facts))]
impl<'a> Iterator for Instructions<'a> {
    type Item = Placed;

    ghost next_gives = { YieldsFirst rest_of };

    ghost remaining = { item_count rest_of };

    #[inline(always)]
    fn next(&mut self) -> Option<Placed> {
        let place = self.at;
        let insn = decode(self.code, place).ok()?;
        self.at = place + insn.len as u16;
        Some(Placed { place, insn })
    }
}

/// Where the list of a code's instructions ends, and why none begins there. It ends at the code's own
/// end where each byte of the code belongs to an instruction.
#[tactic(auto, using(crate::proofs::Listing::listing_facts))]
pub fn code_end(code: View) -> (u16, CodeEnd)
    requires { length code.bytes.now ≤ 65535 }
    ensures place { result.0 ≡ listing_end code.entry.bytes.now }
    ensures why { decoded code.entry.bytes.now result.0 ≡ Err result.1 }
{
    let mut at = 0;
    'walk: loop {
        match decode(code, at) {
            Ok(insn) => at += insn.len as u16,
            Err(end) => return (at, end),
        }
    }
}
