ghost use Rattle.std.specs.Prelude.{◌≡◌, ◌≤◌, ◌+◌, ◌↔◌, pos, length, All, Contains, IfOk, IfErr, IfSome, IfNone, IsOk, IsTrue, OnOk};
ghost use Rattle.jc_decode.specs.Decoding.{FitsLayout};
ghost use Rattle.jc_decode.specs.Layout.{layout_of};
ghost use Rattle.jc_decode.specs.Listing.{targets};
ghost use Rattle.cap_bare.specs.Code.{instructions, IsFirstFlaw, IsFlawKind, IsPlace, IsTargetPlace, IsWellFormed, HasInstruction};
ghost use Rattle.cap_bare.specs.Typing.{BareTyping, IsCompact};
ghost use Rattle.cap_bare.specs.Laws.{LeadsOn, PlacesAreTold, RefusalIsOne};
ghost use Rattle.cap_bare.specs.Met.{IsRefused};
ghost use Rattle.cap_bare.specs.Walk.{is_at, is_place, is_target, applied, passed, first_wrong, WalksFind};
ghost use Rattle.cap_bare.specs.Window.{IsFromOn, IsSuffixAt, IsTrailing};
ghost use Rattle.cap_bare.specs.Machine.{IsFaultFree};

use crate::fault::{BareFault, BareKind};
use crate::format::{Bare, fetch, instruction_of};
use crate::instruction::Instruction;
use cap_bytes::{View, are_bytes};
use jc_decode::{Placed, target};

/// Verifies a bare method as a verifier on the card does, in one walk for its form and one for its types.
///
/// It accepts exactly the methods that have a card typing. A method that is not well formed is refused at its
/// first flaw, and any other at a state that the walk meets.
pub fn bare_verify(code: View<'_>, bare: Bare) -> Result<(), BareFault>
    requires filled { 1 ≤ length code.bytes.now }
    requires short { length code.bytes.now ≤ 32767 }
    requires compact { IsCompact bare }
    ensures accepted { OnOk result (BareTyping code.entry.bytes.now bare) }
    ensures complete { BareTyping code.entry.bytes.now bare → IsOk result }
    ensures refused { IfErr result (λ fault. IsRefused code.entry.bytes.now bare fault) }
    ensures first_flaw { (first : BareFault) → IsFirstFlaw code.entry.bytes.now first → result ≡ Err first }
    ensures ill_formed { IfErr result (λ fault. IsFlawKind fault.kind ↔ (IsWellFormed code.entry.bytes.now → ⊥)) }

    // What is accepted never meets a fault when it runs; the machine asks at each step whether it goes on at the
    // place of an instruction.
    ensures fault_free { OnOk result (IsFaultFree code.entry.bytes.now bare) }
    ensures leads { OnOk result (LeadsOn code.entry.bytes.now) }
{
    walked(code, bare)
}

/// What the two walks find.
fn walked(code: View<'_>, bare: Bare) -> Result<(), BareFault>
    requires short { length code.bytes.now ≤ 32767 }
    requires stack { bare.max_stack ≤ 15 }
    ensures { WalksFind code.entry.bytes.now bare result }
{
    find_flaw(code)?;
    find_wrong(code, bare)
}

/// The first flaw of the code, if it is not well formed: the place of an instruction that is missing or leads
/// nowhere.
fn find_flaw(code: View<'_>) -> Result<(), BareFault>
    requires { length code.bytes.now ≤ 32767 }
    ensures formed { OnOk result (IsWellFormed code.entry.bytes.now) }
    ensures flawed { IfErr result (λ flaw. IsFirstFlaw code.entry.bytes.now flaw) }
{
    let mut at = 0;
    let mut farther = 0;
    'walk: while usize::from(at) < code.bytes.len() {
        let insn = match fetch(code, at) {
            Ok(insn) => insn,
            Err(end) => return Err(BareFault {
                place: at,
                kind: BareKind::Code(end),
            }),
        };
        farther = trailed(code, farther, at);
        if let Some(target) = stray_target(code, farther, Placed { place: at, insn }) {
            return Err(BareFault {
                place: at,
                kind: BareKind::BadTarget(target),
            });
        }
        at += insn.len as u16;
    }
    Ok(())
}

/// The target of an instruction, if no instruction begins there.
fn stray_target(code: View<'_>, farther: u16, placed: Placed) -> Option<i32>
    requires short { length code.bytes.now ≤ 32767 }
    requires stands { HasInstruction code.bytes.now placed }
    requires trailing { IsTrailing code.bytes.now farther placed.place }
    ensures none { IfNone result (All (IsTargetPlace code.entry.bytes.now) (targets code.entry.bytes.now placed)) }
    ensures some { IfSome result
        (λ t. Contains (targets code.entry.bytes.now placed) t × ¬ (IsTargetPlace code.entry.bytes.now t)) }
{
    are_bytes(code.bytes);
    match target(code, placed, 0) {
        Some(target) if !is_place(code, farther, target) => Some(target),
        _ => None,
    }
}

/// The last instruction that still trails a place, walked to from one that trails it.
fn trailed(code: View<'_>, from: u16, at: u16) -> u16
    requires short { length code.bytes.now ≤ 32767 }
    requires trailing { IsTrailing code.bytes.now from at }
    ensures { IsTrailing code.entry.bytes.now result at }
{
    let mut farther = from;
    'walk: while let Ok(insn) = fetch(code, farther) {
        let next = farther + insn.len as u16;
        if u32::from(next) + 128 > u32::from(at) {
            return farther;
        }
        farther = next;
    }
    farther
}

/// Whether an instruction of the code begins at this place, which may lie before the code; it is sought from an
/// instruction on that is not after it.
fn is_place(code: View<'_>, from: u16, place: i32) -> bool
    requires short { length code.bytes.now ≤ 32767 }
    requires reached { IsSuffixAt code.bytes.now from }
    requires from_on { IsFromOn from place }
    ensures { IsTrue result ↔ IsTargetPlace code.entry.bytes.now place }
{
    match u32::try_from(place) {
        Ok(place) => begins(code, from, place),
        Err(_) => false,
    }
}

/// Whether an instruction of the code begins at this place, sought from an instruction on that is not after it.
fn begins(code: View<'_>, from: u16, place: u32) -> bool
    requires short { length code.bytes.now ≤ 32767 }
    requires reached { IsSuffixAt code.bytes.now from }
    requires from_on { from ≤ place }
    ensures { IsTrue result ↔ IsPlace code.entry.bytes.now place }
{
    let mut at = from;
    'walk: while u32::from(at) < place {
        match fetch(code, at) {
            Ok(insn) => at += insn.len as u16,
            Err(_) => return false,
        }
    }
    u32::from(at) == place && fetch(code, at).is_ok()
}

/// Whether an instruction of the code branches to this place; those that may stand in the 128 bytes before it and
/// after it, and are sought from an instruction on that trails it.
fn is_target(code: View<'_>, farther: u16, place: u16) -> bool
    requires short { length code.bytes.now ≤ 32767 }
    requires trailing { IsTrailing code.bytes.now farther place }
    ensures { result ≡ is_target code.entry.bytes.now place }
{
    are_bytes(code.bytes);
    let mut at = farther;
    'walk: while let Ok(insn) = fetch(code, at) {
        if branches_to(code, Placed { place: at, insn }, place) {
            return true;
        }
        if u32::from(at) > u32::from(place) + 128 {
            return false;
        }
        at += insn.len as u16;
    }
    false
}

/// Whether an instruction branches to this place.
fn branches_to(code: View<'_>, placed: Placed, place: u16) -> bool
    requires short { length code.bytes.now ≤ 32767 }
    requires stands { HasInstruction code.bytes.now placed }
    ensures { IsTrue result ↔ Contains (targets code.entry.bytes.now placed) (pos place) }
{
    match target(code, placed, 0) {
        Some(target) => is_at(place, target),
        None => false,
    }
}

fn is_at(place: u16, target: i32) -> bool
    ensures { result ≡ is_at place target }
{
    target == i32::from(place)
}

/// The number of cells after an instruction, over a stack of so many shorts.
fn applied(bare: Bare, instruction: Instruction, depth: usize) -> Result<usize, BareKind>
    requires { depth ≤ 30 }
    ensures value { result ≡ applied bare instruction depth }
    ensures room { IfOk result (λ after. after ≤ bare.max_stack) }
{
    if let Some(x) = instruction.register() {
        if usize::from(x) >= usize::from(bare.nargs) + usize::from(bare.max_locals) {
            return Err(BareKind::NoLocal(x));
        }
    }
    if depth < instruction.taken() {
        return Err(BareKind::Underflow);
    }
    let after = depth - instruction.taken() + instruction.given();
    if after > usize::from(bare.max_stack) {
        Err(BareKind::Overflow)
    } else {
        Ok(after)
    }
}

/// The number of cells before the next place, over a stack of so many shorts.
fn passed(
    code: View<'_>,
    bare: Bare,
    farther: u16,
    placed: Placed,
    depth: usize,
) -> Result<usize, BareKind>
    requires short { length code.bytes.now ≤ 32767 }
    requires operands { FitsLayout placed.insn (layout_of placed.insn.op) }
    requires trailing { IsTrailing code.bytes.now farther placed.place }
    requires low { depth ≤ 30 }
    ensures value { result ≡ passed code.entry.bytes.now bare placed depth }
    ensures room { IfOk result (λ after. after ≤ bare.max_stack) }
{
    if depth > 0 && is_target(code, farther, placed.place) {
        return Err(BareKind::StackAtTarget);
    }
    let after = applied(bare, instruction_of(placed.insn), depth)?;
    if placed.insn.jumps() && after > 0 {
        return Err(BareKind::StackAtBranch);
    }
    if !placed.insn.falls() {
        return Ok(0);
    }
    if usize::from(placed.place) + placed.insn.len as usize == code.bytes.len() {
        return Err(BareKind::FallsOff);
    }
    Ok(after)
}

/// What is wrong first in a well-formed method, place by place.
///
/// One pass along the code does: a register's type is at most that of shorts, and that is all that a load asks
/// for. So no store further on can raise a register to a type at which an instruction before it fails, and a
/// second pass would meet what the first one met.
#[tactic(auto, using(crate::proofs::Instructions::walking))]
fn find_wrong(code: View<'_>, bare: Bare) -> Result<(), BareFault>
    requires short { length code.bytes.now ≤ 32767 }
    requires stack { bare.max_stack ≤ 15 }
    ensures { result ≡ first_wrong code.entry.bytes.now bare 0 (instructions code.entry.bytes.now) }
{
    let mut at = 0;
    let mut farther = 0;
    let mut depth = 0;
    'walk: while let Ok(insn) = fetch(code, at) {
        farther = trailed(code, farther, at);
        depth = match passed(code, bare, farther, Placed { place: at, insn }, depth) {
            Ok(after) => after,
            Err(kind) => return Err(BareFault { place: at, kind }),
        };
        at += insn.len as u16;
    }
    Ok(())
}

/// A bare method has one refusal at most; and the places at which the machine goes on are those at which an instruction
/// of the code begins.
pub fn bare_laws()
    ensures one { RefusalIsOne }
    ensures places { PlacesAreTold }
{}
