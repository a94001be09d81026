ghost use Rattle.std.specs.Prelude.{◌≡◌, ◌+◌, ◌≤◌, length, slice_get};
ghost use Rattle.jc_base.specs.Index.{words_of_bytes};

use crate::class::Steps;
use byteorder::{BigEndian, ByteOrder};
use std::marker::Model;
use std::sync::ledger::Ledger;

/// The target index of a method: the places of its code to which it may branch, as a list beside the code says. It is seen
/// as the list of these places, big-endian numbers of two bytes each, and may list any.
#[derive(Drop)]
pub struct TargetIndex<'a> {
    bytes: &'a [u8],
}

impl<'a> Model for TargetIndex<'a> {
    ghost use Rattle.std.specs.Prelude.{List, ℕ, ◌≤◌, length};
    ghost use Rattle.jc_base.specs.Index.{words_of_bytes};

    ghost Value = { List ℕ };

    ghost view = { λ x. words_of_bytes x.bytes.now };

    ghost invariant = { λ x. length x.bytes.now ≤ 65535 };
}

impl<'a> TargetIndex<'a> {
    /// The index that these bytes spell. An odd last byte is left out.
    pub fn of(bytes: &'a [u8]) -> TargetIndex<'a>
        requires { length bytes.now ≤ 65535 }
        ensures { result ≡ words_of_bytes bytes.now }
    {
        TargetIndex { bytes }
    }

    /// The same index once more.
    pub fn again(&self) -> TargetIndex<'a>
        ensures { result ≡ self.now }
    {
        TargetIndex { bytes: self.bytes }
    }

    /// How many places it has. No entry is read.
    #[tactic(auto, using(crate::proofs::Numbers::numbers_count))]
    pub fn len(&self) -> u32
        ensures { result ≡ length self.now }
    {
        self.bytes.len() as u32 / 2
    }

    /// The k-th place, counted from 0, and None past the end. Each call is one step.
    pub fn probe<L: Ledger>(&self, k: u32, steps: &mut Steps<L>) -> Option<u16>
        ensures is { result ≡ slice_get self.now k }
        ensures one { steps.new ≡ steps.old + 1 }
    {
        steps.tick();
        let at = k as usize * 2;
        let end = at + 2;
        if end <= self.bytes.len() {
            Some(BigEndian::read_u16(&self.bytes[at..end]))
        } else {
            None
        }
    }
}
