ghost use Rattle.std.specs.Prelude.{◌≡◌, ◌≤◌, ◌↔◌, ℕ, length, All, IsTrue, IfOk, IfErr, OnOk, IfSome, IfNone, Ok, Err};
ghost use Rattle.jc_decode.specs.Decoding.{decoded};
ghost use Rattle.jc_decode.specs.Listing.{listing, listing_end, targets};
ghost use Rattle.jc_control.specs.WellFormed.{IsPlace, IsTargetPlace, IsHandlerOf, IsWellFormed};
ghost use Rattle.jc_control.specs.Flags.{Marks};
ghost use Rattle.jc_control.specs.Known.{KnowPlaces, ReadsAs};
ghost use Rattle.jc_control.specs.Subject.{method};
ghost use Rattle.jc_control.specs.Flaw.{IsFirstFlaw};
ghost use Rattle.jc_control.specs.FirstFailing.{IsFirstFailing};
ghost use Rattle.jc_control.specs.Scan.{LeadsToPlaces, IsFirstStray, IsEndFlaw, IsFirstBadHandler};

use crate::control::Flaw;
use crate::flags::Flags;
use crate::places::Places;
use crate::subject::Subject;
use crate::targets::Targets;
use crate::walk::Walk;
use cap_bytes::View;
use jc_base::{Handler, Handlers};
use jc_decode::{CodeEnd, Instructions, Placed, instructions_are_listed};
use std::alloc::{AllocError, Global};

/// Marks the places at which an instruction begins, and no others, in flags that the caller lends: a set that is
/// decided once a method. There is a flag for each byte of the code at least.
pub fn mark_places(code: View<'_>, flags: &mut [bool])
    requires short { length code.bytes.now ≤ 32767 }
    requires room { length code.bytes.now ≤ length flags.old }
    ensures marks { Marks (IsPlace code.entry.bytes.now) flags.new }
    ensures count { length flags.new ≡ length flags.old }
{
    instructions_are_listed();
    'clear: for flag in flags.iter_mut() {
        *flag = false;
    }
    'walk: for placed in Instructions::of(code) {
        flags[usize::from(placed.place)] = true;
    }
}

/// The places at which an instruction begins.
pub fn instruction_places(alloc: Global, code: View<'_>) -> Result<Flags, AllocError>
    requires short { length code.bytes.now ≤ 32767 }
    ensures { IfOk result (λ f. Marks (IsPlace code.entry.bytes.now) f) }
{
    let mut flags = vec![in alloc; false; code.bytes.len()]?;
    mark_places(code, flags.as_mut_slice());
    Ok(Flags::of(flags))
}

/// Whether a method is well formed, or else its first flaw: first each target, then the end of the code, then each
/// handler in the table's order.
pub fn find_flaw(subject: Subject<'_>, places: Places<'_>) -> Result<(), Flaw>
    requires known { KnowPlaces subject.code.bytes.now places }
    ensures formed { OnOk result (IsWellFormed (method subject.entry)) }
    ensures flawed { IfErr result (λ flaw. IsFirstFlaw (method subject.entry) flaw) }
{
    let end = check_targets(subject.code, places)?;
    check_end(subject.code, places, end)?;
    check_handlers(subject.code, &subject.rec.handlers, places)
}

/// Whether each target is the place of an instruction; and where the list of the code's instructions ends.
fn check_targets(code: View<'_>, places: Places<'_>) -> Result<u16, Flaw>
    requires short { length code.bytes.now ≤ 32767 }
    requires known { KnowPlaces code.bytes.now places }
    ensures formed { OnOk result (All (LeadsToPlaces code.entry.bytes.now) (listing code.entry.bytes.now)) }
    ensures end { IfOk result (λ end. end ≡ listing_end code.entry.bytes.now) }
    ensures flawed { IfErr result (λ flaw. IsFirstStray code.entry.bytes.now flaw) }
{
    instructions_are_listed();
    let mut end = 0;
    'walk: for placed in Walk::of(code, places) {
        match stray_target(code, placed, places) {
            Some(target) => return Err(Flaw::BadTarget(placed.place, target)),
            None => {}
        }
        end = placed.place + placed.insn.len as u16;
    }
    Ok(end)
}

/// The first target of an instruction that is no place of one.
fn stray_target(code: View<'_>, placed: Placed, places: Places<'_>) -> Option<i32>
    requires short { length code.bytes.now ≤ 32767 }
    requires decoded { decoded code.bytes.now placed.place ≡ Ok placed.insn }
    requires known { KnowPlaces code.bytes.now places }
    ensures none { IfNone result (All (IsTargetPlace code.entry.bytes.now) (targets code.entry.bytes.now placed)) }
    ensures some { IfSome result
        (λ t.
        (n : ℕ)
        × IsFirstFailing
        (IsTargetPlace code.entry.bytes.now)
        (targets code.entry.bytes.now placed) n t) }
{
    'targets: for target in Targets::of(code, placed) {
        if !places.has_target(code, target) {
            return Some(target);
        }
    }
    None
}

/// Whether the list of the code's instructions, which ends at a place, goes to the code's end.
fn check_end(code: View<'_>, places: Places<'_>, end: u16) -> Result<(), Flaw>
    requires short { length code.bytes.now ≤ 32767 }
    requires known { KnowPlaces code.bytes.now places }
    requires end { end ≡ listing_end code.bytes.now }
    ensures formed { OnOk result (listing_end code.entry.bytes.now ≡ length code.entry.bytes.now) }
    ensures flawed { IfErr result (λ flaw. IsEndFlaw code.entry.bytes.now flaw) }
{
    if usize::from(end) == code.bytes.len() {
        return Ok(());
    }
    let (place, why) = code_end(code, places);
    Err(Flaw::Code(place, why))
}

/// Where the list of the code's instructions ends, and why none begins there.
#[tactic(auto, using(jc_decode::proofs::Listing::listing_facts))]
fn code_end(code: View<'_>, places: Places<'_>) -> (u16, CodeEnd)
    requires short { length code.bytes.now ≤ 32767 }
    requires reads { ReadsAs code.bytes.now places }
    ensures place { result.0 ≡ listing_end code.entry.bytes.now }
    ensures why { decoded code.entry.bytes.now result.0 ≡ Err result.1 }
{
    instructions_are_listed();
    let mut at = 0;
    'walk: loop {
        match places.insn(code, at) {
            Ok(insn) => at += insn.len as u16,
            Err(end) => return (at, end),
        }
    }
}

/// Whether each handler is well formed.
fn check_handlers(code: View<'_>, handlers: &Handlers, places: Places<'_>) -> Result<(), Flaw>
    requires short { length code.bytes.now ≤ 32767 }
    requires known { KnowPlaces code.bytes.now places }
    requires few { length handlers.now ≤ 255 }
    ensures formed { OnOk result (All (IsHandlerOf code.entry.bytes.now) handlers.now) }
    ensures flawed { IfErr result (λ flaw. IsFirstBadHandler code.entry.bytes.now handlers.now flaw) }
{
    'handlers: for (number, handler) in handlers.as_slice().iter().enumerate() {
        if !is_formed(code, *handler, places) {
            return Err(Flaw::BadHandler(handler.entry, number as u16));
        }
    }
    Ok(())
}

/// Whether a handler's range is not empty and lies between instructions, and its entry is one.
fn is_formed(code: View<'_>, handler: Handler, places: Places<'_>) -> bool
    requires short { length code.bytes.now ≤ 32767 }
    requires known { KnowPlaces code.bytes.now places }
    ensures { IsTrue result ↔ IsHandlerOf code.entry.bytes.now handler }
{
    let end = u32::from(handler.end);
    places.has(code, u32::from(handler.start))
        && handler.start < handler.end
        && (end as usize == code.bytes.len() || places.has(code, end))
        && places.has(code, u32::from(handler.entry))
}
