ghost use Rattle.std.specs.Prelude.{◌≡◌, ℕ, ◌+◌, ◌<◌, ◌≤◌, fold, length, MatchBool, Some, Ok};
ghost use Rattle.jc_decode.specs.Decoding.{decoded};
ghost use Rattle.jc_decode.specs.Listing.{targets};
ghost use Rattle.card_typing.specs.Place.{IsTarget, IsEntry};
ghost use Rattle.card_verify.specs.Ahead.{IsKnownAhead, IsMarkKnown, IsLeastFrom, nearer, nearer_target};
ghost use Rattle.card_verify.specs.Verifier.{method};

use crate::caught::Marks;
use crate::verify::Verifier;
use cap_bytes::View;
use jc_base::Steps;
use jc_control::Targets;
use jc_decode::{Instructions, Placed, instructions_are_listed};
use std::sync::ledger::Ledger;

/// What a walk knows of the places from one on: the least entry of a handler, which is sought anew once the walk is beyond
/// it, and a place before which none is marked.
#[derive(Clone, Copy)]
pub(crate) struct Ahead {
    pub from: u16,
    pub entry: Option<u32>,
    pub clear: u32,
}

impl Ahead {
    /// What is ahead of the method's first place.
    pub(crate) fn of<M: Marks>(verifier: Verifier<'_>, marks: &M) -> Ahead
        ensures is { IsKnownAhead (method verifier.entry) (M.marks marks.now) result }
        ensures from { result.from ≡ 0 }
    {
        let _marks = marks;
        Ahead {
            from: 0,
            entry: verifier.entry_from(0),
            clear: 0,
        }
    }

    /// What is ahead of a place further on. Whether it is marked is sought only where cells are left on the stack.
    pub(crate) fn moved<M: Marks, L: Ledger>(
        self,
        verifier: Verifier<'_>,
        marks: &M,
        place: u16,
        left: u8,
        steps: &mut Steps<L>,
    ) -> Ahead
        requires ahead { IsKnownAhead (method verifier) (M.marks marks.now) self }
        requires up { self.from ≤ place }
        ensures is { IsKnownAhead (method verifier.entry) (M.marks marks.now) result }
        ensures from { result.from ≡ place }
        ensures told { IsMarkKnown (M.marks marks.now) result left }
        ensures still { left ≡ 0 → steps.new ≡ steps.old }
        ensures forward { steps.old ≤ steps.new }
        ensures cost { (most : ℕ) → M.takes marks.now most → steps.new ≤ steps.old + most }
    {
        let entry = self.entry_at(verifier, place);
        let clear = if left > 0 && self.clear <= u32::from(place) {
            marks.next_from(place, steps).unwrap_or(65536)
        } else {
            self.clear
        };
        Ahead {
            from: place,
            entry,
            clear,
        }
    }

    /// The least entry from a place further on.
    fn entry_at(self, verifier: Verifier<'_>, place: u16) -> Option<u32>
        requires ahead { IsLeastFrom (IsEntry (method verifier)) self.from self.entry }
        requires up { self.from ≤ place }
        ensures { IsLeastFrom (IsEntry (method verifier.entry)) place result }
    {
        match self.entry {
            Some(entry) if entry < u32::from(place) => verifier.entry_from(place),
            Some(entry) => Some(entry),
            None => None,
        }
    }
}

/// Whether a place is marked.
pub(crate) fn is_marked<M: Marks, L: Ledger>(marks: &M, place: u16, steps: &mut Steps<L>) -> bool
    ensures told { MatchBool result (M.marks marks.now place) (¬ (M.marks marks.now place)) }
    ensures forward { steps.old ≤ steps.new }
    ensures cost { (most : ℕ) → M.takes marks.now most → steps.new ≤ steps.old + most }
{
    marks.next_from(place, steps) == Some(u32::from(place))
}

/// The nearer of the best place so far and another, if that is not before the first.
fn nearer(from: u16, best: Option<u32>, place: u32) -> Option<u32>
    ensures { result ≡ nearer from best place }
{
    if u32::from(from) <= place && best.is_none_or(|best| place < best) {
        Some(place)
    } else {
        best
    }
}

/// The same of a target, which may lie before the code.
fn nearer_target(from: u16, best: Option<u32>, target: i32) -> Option<u32>
    ensures { result ≡ nearer_target from best target }
{
    match u32::try_from(target) {
        Ok(place) => nearer(from, best, place),
        Err(_) => best,
    }
}

/// The nearest of the targets of an instruction and the best so far.
fn nearest(code: View<'_>, placed: Placed, from: u16, so_far: Option<u32>) -> Option<u32>
    requires short { length code.bytes.now ≤ 32767 }
    requires decoded { decoded code.bytes.now placed.place ≡ Ok placed.insn }
    ensures { result ≡ fold (nearer_target from) so_far (targets code.entry.bytes.now placed) }
{
    let mut best = so_far;
    'targets: for target in Targets::of(code, placed) {
        best = nearer_target(from, best, target);
    }
    best
}

impl Verifier<'_> {
    /// The least target from a place on, reached or not.
    pub(crate) fn target_from(&self, from: u16) -> Option<u32>
        ensures { IsLeastFrom (IsTarget (method self.now)) from result }
    {
        instructions_are_listed();
        let mut best = None;
        'walk: for placed in Instructions::of(self.subject.code) {
            best = nearest(self.subject.code, placed, from, best);
        }
        best
    }

    /// The least entry of a handler from a place on.
    pub(crate) fn entry_from(&self, from: u16) -> Option<u32>
        ensures { IsLeastFrom (IsEntry (method self.now)) from result }
    {
        let mut best = None;
        'handlers: for handler in self.subject.rec.handlers.as_slice() {
            best = nearer(from, best, u32::from(handler.entry));
        }
        best
    }
}
