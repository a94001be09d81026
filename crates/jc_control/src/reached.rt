ghost use Rattle.std.specs.Prelude.{◌≡◌, ◌≤◌, ◌↔◌, length, IsTrue, Contains};
ghost use Rattle.jc_decode.specs.Decoding.{decoded};
ghost use Rattle.jc_control.specs.Listing.{IsListingOf};
ghost use Rattle.jc_control.specs.Method.{Method};
ghost use Rattle.jc_control.specs.Control.{IsLive};
ghost use Rattle.jc_control.specs.ControlFlow.{IsControlFlow, IsMarkedLive};
ghost use Rattle.jc_control.specs.Flags.{flag};
ghost use Rattle.jc_control.specs.Traversal.{found};

use crate::flags::Flags;
use crate::listing::Listing;
use crate::traversal::Traversal;
use cap_bytes::View;
use jc_base::Handler;
use jc_decode::{CodeEnd, Insn};
use std::marker::Model;

/// The places of a well-formed method that control can reach, and those among them where it comes together.
#[derive(Drop)]
pub struct ControlFlow {
    reached: Flags,
    leaders: Flags,
    listing: Listing,
}

impl Model for ControlFlow {
    ghost use Rattle.jc_control.specs.ControlFlow.{Marked};

    ghost Value = { Marked };

    ghost view = { λ a. record { reached = a.reached; leaders = a.leaders; listing = a.listing } };
}

impl ControlFlow {
    /// What a traversal by a listing has found.
    pub(crate) fn of(traversal: Traversal, listing: Listing) -> ControlFlow
        ensures { result ≡ found traversal listing }
    {
        ControlFlow {
            reached: traversal.reached,
            leaders: traversal.leaders,
            listing,
        }
    }

    /// Whether control reaches this place. The end of the code is a place too: it is reached where control
    /// falls past the last instruction.
    pub fn is_reached(&self, place: u16) -> bool
        ensures { result ≡ flag self.now.reached place }
    {
        self.reached.has(u32::from(place))
    }

    /// Whether this place is a target of a reached branch or switch, or the entry of a handler that covers a
    /// reached place.
    pub fn is_leader(&self, place: u16) -> bool
        ensures { result ≡ flag self.now.leaders place }
    {
        self.leaders.has(u32::from(place))
    }

    /// The instruction that is decoded at a place of the method's code.
    pub fn insn(&self, code: View<'_>, place: u16) -> Result<Insn, CodeEnd>
        requires short { length code.bytes.now ≤ 32767 }
        requires listing { IsListingOf code.bytes.now self.now.listing }
        ensures value { result ≡ decoded code.entry.bytes.now place }
    {
        self.listing.insn(code, place)
    }

    /// Whether control reaches a place in the handler's range: of the handlers of the method, whether it is live.
    pub fn is_live(&self, handler: Handler) -> bool
        ensures marked { IsTrue result ↔ IsMarkedLive self.now handler }
        ensures live { (m : Method) → IsControlFlow m self.now → Contains m.rec.handlers handler → IsTrue result ↔ IsLive m handler }
    {
        self.has_reached(handler)
    }

    fn has_reached(&self, handler: Handler) -> bool
        ensures { IsTrue result ↔ IsMarkedLive self.now handler }
    {
        let mut place = handler.start;
        'range: while place < handler.end {
            if self.is_reached(place) {
                return true;
            }
            place += 1;
        }
        false
    }
}
