ghost use Rattle.std.specs.Prelude.{◌≡◌, ◌≤◌, ◌↔◌, length, IsTrue};
ghost use Rattle.jc_decode.specs.Decoding.{decoded};
ghost use Rattle.jc_control.specs.WellFormed.{IsPlace, IsTargetPlace};
ghost use Rattle.jc_control.specs.Known.{KnowPlaces, ReadsAs};

use crate::listing::Listing;
use cap_bytes::View;
use jc_decode::{CodeEnd, Insn, Instructions, decode};

/// How it is known at which places of a code instructions begin: by a listing that was made once, or by a walk along
/// the code for each question, which takes no memory.
#[derive(Clone, Copy)]
pub enum Places<'a> {
    Listed(&'a Listing),
    Sought,
}

impl Places<'_> {
    /// Whether an instruction of the code begins at the place.
    pub fn has(self, code: View<'_>, place: u32) -> bool
        requires short { length code.bytes.now ≤ 32767 }
        requires known { KnowPlaces code.bytes.now self }
        ensures { IsTrue result ↔ IsPlace code.entry.bytes.now place }
    {
        match self {
            Places::Listed(listing) => listing.has(place),
            Places::Sought => {
                'walk: for placed in Instructions::of(code) {
                    if u32::from(placed.place) == place {
                        return true;
                    }
                }
                false
            }
        }
    }

    /// The same of a place that may lie before the code.
    pub fn has_target(self, code: View<'_>, target: i32) -> bool
        requires short { length code.bytes.now ≤ 32767 }
        requires known { KnowPlaces code.bytes.now self }
        ensures { IsTrue result ↔ IsTargetPlace code.entry.bytes.now target }
    {
        match u32::try_from(target) {
            Ok(place) => self.has(code, place),
            Err(_) => false,
        }
    }

    /// The instruction that is decoded at the place.
    pub fn insn(self, code: View<'_>, place: u16) -> Result<Insn, CodeEnd>
        requires short { length code.bytes.now ≤ 32767 }
        requires reads { ReadsAs code.bytes.now self }
        ensures value { result ≡ decoded code.entry.bytes.now place }
    {
        match self {
            Places::Listed(listing) => listing.insn(code, place),
            Places::Sought => decode(code, place),
        }
    }
}
