ghost use Rattle.std.specs.Prelude.{◌≡◌, ◌≤◌, length, Ok};
ghost use Rattle.std.specs.Iterator.{YieldsFirst, item_count};
ghost use Rattle.jc_decode.specs.Decoding.{decoded};
ghost use Rattle.jc_decode.specs.Listing.{targets};
ghost use Rattle.jc_control.specs.Targets.{rest_of};

use super::Targets;
use cap_bytes::View;
use jc_decode::{Placed, target, targets_are_few};

impl<'a> Targets<'a> {
    /// The places that an instruction of a method's code names.
    pub fn of(code: View<'a>, placed: Placed) -> Targets<'a>
        requires short { length code.bytes.now ≤ 65535 }
        requires decoded { decoded code.bytes.now placed.place ≡ Ok placed.insn }
        ensures { rest_of result ≡ targets code.entry.bytes.now placed }
    {
        targets_are_few();
        Targets {
            code,
            placed,
            next: 0,
        }
    }
}

#[tactic(auto, using(crate::proofs::TargetLists::target_lists))]
impl<'a> Iterator for Targets<'a> {
    type Item = i32;

    ghost next_gives = { YieldsFirst rest_of };

    ghost remaining = { item_count rest_of };

    fn next(&mut self) -> Option<i32> {
        match target(self.code, self.placed, self.next) {
            Some(target) => {
                self.next += 1;
                Some(target)
            }
            None => None,
        }
    }
}
