ghost use Rattle.std.specs.Prelude.{◌≡◌, ◌≤◌, None, length, slice_index_or, IfOk};
ghost use Rattle.jc_decode.specs.Decoding.{decoded};
ghost use Rattle.jc_control.specs.Flags.{flag};
ghost use Rattle.jc_control.specs.Listing.{AreDecoded, IsListingOf};

use crate::flags::Flags;
use cap_bytes::View;
use jc_decode::{CodeEnd, Insn, Instructions, decode, instructions_are_listed};
use std::alloc::{AllocError, Global};
use std::marker::Model;

/// The instructions of a method's code, each of which was decoded once.
#[derive(Drop)]
pub struct Listing {
    /// At which places one begins.
    begins: Flags,
    /// The instruction that begins at a place.
    insns: Vec<Option<Insn>>,
}

impl Model for Listing {
    ghost use Rattle.jc_control.specs.Listing.{Listed};

    ghost Value = { Listed };

    ghost view = { λ a. record { begins = a.begins; insns = a.insns.items } };
}

impl Listing {
    /// Decodes a method's code.
    pub fn of(alloc: Global, code: View<'_>) -> Result<Listing, AllocError>
        requires { length code.bytes.now ≤ 32767 }
        ensures { IfOk result (IsListingOf code.entry.bytes.now) }
    {
        instructions_are_listed();
        let mut begins = Flags::new(alloc, code.bytes.len())?;
        let mut insns = vec![in alloc; None; code.bytes.len()]?;
        'walk: for placed in Instructions::of(code) {
            begins.set(placed.place);
            insns[usize::from(placed.place)] = Some(placed.insn);
        }
        Ok(Listing { begins, insns })
    }

    /// Whether an instruction begins at the place.
    pub fn has(&self, place: u32) -> bool
        ensures { result ≡ flag self.now.begins place }
    {
        self.begins.has(place)
    }

    /// The instruction that is decoded at a place of the code that this is the listing of.
    pub fn insn(&self, code: View<'_>, place: u16) -> Result<Insn, CodeEnd>
        requires short { length code.bytes.now ≤ 32767 }
        requires reads { AreDecoded code.bytes.now self.now.insns }
        ensures value { result ≡ decoded code.entry.bytes.now place }
    {
        match self.held(place) {
            Some(insn) => Ok(insn),
            None => decode(code, place),
        }
    }

    /// The instruction that is held for a place.
    fn held(&self, place: u16) -> Option<Insn>
        ensures { result ≡ slice_index_or self.now.insns place None }
    {
        *self.insns.get(usize::from(place))?
    }
}
