ghost use Rattle.std.specs.Prelude.{◌≡◌, ◌↔◌, ◌≤◌, length, All, IsTrue, ℕ, ◌+◌, ◌*◌, ◌<◌, ◌^◌, sum_by, IfNone, IfSome, MatchBool, Ok};
ghost use Rattle.jc_decode.specs.Listing.{listing_end, listing, targets};
ghost use Rattle.jc_control.specs.WellFormed.{IsHandlerOf};
ghost use Rattle.jc_control.specs.Subject.{method};
ghost use Rattle.jc_base.specs.Index.{IsAscending};
ghost use Rattle.jc_decode.specs.Decoding.{decoded};
ghost use Rattle.jc_control.specs.FirstFailing.{IsFirstFailing};
ghost use Rattle.card_verify.specs.Refusal.{IsListedTarget, LeadsToListed, IsFirstLacking};

use crate::caught::is_listed;
use cap_bytes::View;
use jc_base::{Handler, Steps, TargetIndex};
use jc_control::{Places, Subject, Targets};
use jc_decode::{Instructions, Placed, code_end, instructions_are_listed};
use std::sync::ledger::Ledger;

/// Whether the code of a method is decoded to its end, and each of its handlers is well formed: what is left to ask where
/// all targets are known to be places of instructions.
pub(crate) fn is_rest_formed(subject: Subject<'_>) -> bool
    ensures ends { IsTrue result → listing_end (method subject.entry).code ≡ length (method subject.entry).code }
    ensures handlers { IsTrue result → All (IsHandlerOf (method subject.entry).code) (method subject.entry).rec.handlers }
{
    let (end, _) = code_end(subject.code);
    if usize::from(end) != subject.code.bytes.len() {
        return false;
    }
    'handlers: for handler in subject.rec.handlers.as_slice() {
        if !is_formed(subject.code, *handler) {
            return false;
        }
    }
    true
}

/// Whether a handler's range is not empty and lies between instructions, and its entry is one.
fn is_formed(code: View<'_>, handler: Handler) -> bool
    requires { length code.bytes.now ≤ 32767 }
    ensures { IsTrue result ↔ IsHandlerOf code.entry.bytes.now handler }
{
    let places = Places::Sought;
    let end = u32::from(handler.end);
    places.has(code, u32::from(handler.start))
        && handler.start < handler.end
        && (end as usize == code.bytes.len() || places.has(code, end))
        && places.has(code, u32::from(handler.entry))
}

/// A target that an index lacks, and the place of the instruction that leads to it.
#[derive(Clone, Copy)]
pub(crate) struct Lacking {
    pub place: u16,
    pub target: i32,
}

/// The first target that an ascending index lacks.
pub(crate) fn first_lacking<L: Ledger>(
    code: View<'_>,
    index: &TargetIndex<'_>,
    steps: &mut Steps<L>,
) -> Option<Lacking>
    requires short { length code.bytes.now ≤ 32767 }
    requires ascending { IsAscending index.now }
    ensures none { IfNone result (All (LeadsToListed code.entry.bytes.now index.now) (listing code.entry.bytes.now)) }
    ensures some { IfSome result (λ f. IsFirstLacking code.entry.bytes.now index.now f.place f.target) }
    ensures forward { steps.old ≤ steps.new }
    // For each target a search by halving.
    ensures cost { (b : ℕ)
        → length index.now < 2 ^ b
        → steps.new ≤ steps.old + sum_by (λ i. length (targets code.entry.bytes.now i)) (listing code.entry.bytes.now) * b }
{
    instructions_are_listed();
    'walk: for placed in Instructions::of(code) {
        match first_lacking_of(code, index, placed, steps) {
            Some(target) => return Some(Lacking {
                place: placed.place,
                target,
            }),
            None => {}
        }
    }
    None
}

/// The first target of an instruction that an ascending index lacks.
fn first_lacking_of<L: Ledger>(
    code: View<'_>,
    index: &TargetIndex<'_>,
    placed: Placed,
    steps: &mut Steps<L>,
) -> Option<i32>
    requires short { length code.bytes.now ≤ 32767 }
    requires decoded { decoded code.bytes.now placed.place ≡ Ok placed.insn }
    requires ascending { IsAscending index.now }
    ensures none { IfNone result (LeadsToListed code.entry.bytes.now index.now placed) }
    ensures some { IfSome result
        (λ t.
        (n : ℕ) × IsFirstFailing (IsListedTarget index.now) (targets code.entry.bytes.now placed) n t) }
    ensures forward { steps.old ≤ steps.new }
    ensures cost { (b : ℕ)
        → length index.now < 2 ^ b
        → steps.new ≤ steps.old + length (targets code.entry.bytes.now placed) * b }
{
    'targets: for target in Targets::of(code, placed) {
        if !is_listed_target(index, target, steps) {
            return Some(target);
        }
    }
    None
}

/// Whether an ascending index lists a target.
fn is_listed_target<L: Ledger>(index: &TargetIndex<'_>, target: i32, steps: &mut Steps<L>) -> bool
    requires { IsAscending index.now }
    ensures told { MatchBool result (IsListedTarget index.now target) (¬ (IsListedTarget index.now target)) }
    ensures forward { steps.old ≤ steps.new }
    ensures cost { (b : ℕ) → length index.now < 2 ^ b → steps.new ≤ steps.old + b }
{
    match u32::try_from(target) {
        Ok(place) => is_listed(index, place, steps),
        Err(_) => false,
    }
}
