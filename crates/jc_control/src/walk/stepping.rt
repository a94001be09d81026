ghost use Rattle.std.specs.Prelude.{◌≡◌, ◌≤◌, length};
ghost use Rattle.std.specs.Iterator.{YieldsFirst, item_count};
ghost use Rattle.jc_decode.specs.Listing.{listing};
ghost use Rattle.jc_control.specs.Known.{ReadsAs};
ghost use Rattle.jc_control.specs.Walk.{rest_of};

use super::Walk;
use crate::places::Places;
use cap_bytes::View;
use jc_decode::{Placed, instructions_are_listed};

impl<'a> Walk<'a> {
    /// The instructions of a method's code.
    #[tactic(auto, using(jc_decode::proofs::Listing::listing_facts))]
    pub fn of(code: View<'a>, places: Places<'a>) -> Walk<'a>
        requires short { length code.bytes.now ≤ 32767 }
        requires reads { ReadsAs code.bytes.now places }
        ensures { rest_of result ≡ listing code.entry.bytes.now }
    {
        Walk {
            code,
            places,
            at: 0,
        }
    }
}

#[tactic(auto, using(jc_decode::proofs::Listing::listing_facts))]
impl<'a> Iterator for Walk<'a> {
    type Item = Placed;

    ghost next_gives = { YieldsFirst rest_of };

    ghost remaining = { item_count rest_of };

    fn next(&mut self) -> Option<Placed> {
        let place = self.at;
        match self.places.insn(self.code, place) {
            Ok(insn) => {
                instructions_are_listed();
                self.at = place + insn.len as u16;
                Some(Placed { place, insn })
            }
            Err(_) => None,
        }
    }
}
