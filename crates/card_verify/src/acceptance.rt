ghost use Rattle.std.specs.Prelude.{◌≡◌, ℕ, ◌+◌, ◌<◌, ◌≤◌, length, IfErr, IfOk, All, IfNone, IfSome, MatchBool};
ghost use Rattle.card_verify.specs.Answers.{AreAccepted, IsFirstRefused};
ghost use Rattle.card_verify.specs.Bound.{IsShortAt, bounds_before};
ghost use Rattle.card_verify.specs.Counting.{IsCountByIndex};
ghost use Rattle.jc_base.specs.Index.{IsAscending};
ghost use Rattle.jc_control.specs.WellFormed.{IsPlace};
ghost use Rattle.jc_decode.specs.Instructions.{rest_of};
ghost use Rattle.card_verify.specs.Refusal.{IsFirstBadEntry};
ghost use Rattle.card_verify.specs.Seeking.{IsSought, HasNone};

use crate::caught::entry;
use crate::room::CardRoom;
use cap_bytes::View;
use card_typing::CardFault;
use jc_base::{Steps, TargetIndex, World};
use jc_decode::{Instructions, instructions_are_listed};
use std::marker::{Brand, Model};
use std::sync::ledger::{Blank, Ledger};

/// A world of which each method with code has a card typing. It borrows the bytes that were verified, and `accept`
/// alone makes it.
#[derive(Drop)]
pub struct Accepted<'w> {
    world: &'w World<'w>,
    by_index: u16,
}

impl<'w> Model for Accepted<'w> {
    ghost use Rattle.jc_base.specs.World.{Linked};

    ghost Value = { Linked };

    ghost use Rattle.card_verify.specs.Answers.{AreAccepted};
    ghost use Rattle.card_verify.specs.Counting.{IsCountByIndex};

    ghost view = { λ a. a.world.now };

    ghost invariant = { λ a. AreAccepted a.world.now × IsCountByIndex a.world.now a.by_index };
}

impl<'w> Accepted<'w> {
    /// The world that was accepted.
    pub fn world(&self) -> &'w World<'w>
        ensures is { result.now ≡ self.now }
        ensures accepted { AreAccepted result.now }
    {
        self.world
    }

    /// How many methods with code have a target index over which a card typing exists.
    pub fn by_index(&self) -> u16
        ensures { IsCountByIndex self.now result }
    {
        self.by_index
    }
}

/// Verifies every method with code, in order of number, and gives the first refusal with its method. Where a method has
/// a target index that suffices, its targets are read there, and are looked for where it does not.
pub fn accept<'w>(
    world: &'w World<'w>,
    room: &mut CardRoom,
) -> Result<Accepted<'w>, (u16, CardFault)>
    ensures world { IfOk result (λ a. a ≡ world.now) }
    ensures accepted { IfOk result (λ a. AreAccepted a) }
    ensures refused { IfErr result (λ e. IsFirstRefused world.now e.0 e.1) }
{
    accept_uncounted::<Brand>(world, room, Blank::new(1))
}

/// The same, where nobody asks for the number of steps.
fn accept_uncounted<'w, L: Ledger>(
    world: &'w World<'w>,
    room: &mut CardRoom,
    blank: Blank,
) -> Result<Accepted<'w>, (u16, CardFault)>
    requires name { blank.name ≡ L.name }
    requires parts { blank.parts ≡ L.parts }
    requires one { blank.parts ≡ 1 }
    ensures world { IfOk result (λ a. a ≡ world.now) }
    ensures accepted { IfOk result (λ a. AreAccepted a) }
    ensures refused { IfErr result (λ e. IsFirstRefused world.now e.0 e.1) }
{
    let mut steps = Steps::none(blank);
    accept_counted::<L>(world, room, &mut steps)
}

/// The same, where what is applied and read over the indexes is counted. What is looked for without one is not.
pub fn accept_counted<'w, L: Ledger>(
    world: &'w World<'w>,
    room: &mut CardRoom,
    steps: &mut Steps<L>,
) -> Result<Accepted<'w>, (u16, CardFault)>
    ensures world { IfOk result (λ a. a ≡ world.now) }
    ensures accepted { IfOk result (λ a. AreAccepted a) }
    ensures refused { IfErr result (λ e. IsFirstRefused world.now e.0 e.1) }
    // No more steps than the sum of the bounds of the methods.
    ensures cost { (digits : ℕ)
        → ((number : ℕ) → number < length world.now.methods → IsShortAt world.now digits number)
        → steps.new ≤ steps.old + bounds_before world.now digits (length world.now.methods) }
{
    let mut by_index = 0;
    'methods: for method in 0..world.method_count() {
        match room.verify_counted(world, method, steps) {
            Ok(by) => by_index += u16::from(by),
            Err(fault) => return Err((method, fault)),
        }
    }
    Ok(Accepted { world, by_index })
}

/// The first entry of an index, by its number, at which no instruction begins or which is not above the one before it.
pub(crate) fn bad_entry<L: Ledger>(
    code: View<'_>,
    index: &TargetIndex<'_>,
    steps: &mut Steps<L>,
) -> Option<u32>
    requires { length code.bytes.now ≤ 32767 }
    ensures ascending { IfNone result (IsAscending index.now) }
    ensures places { IfNone result (All (IsPlace code.entry.bytes.now) index.now) }
    ensures bad { IfSome result (IsFirstBadEntry code.entry.bytes.now index.now) }
    ensures forward { steps.old ≤ steps.new }
    // Each entry is read once at most, and where none is bad each is read.
    ensures cost { steps.new ≤ steps.old + length index.now }
    ensures read { IfNone result (steps.old + length index.now ≤ steps.new) }
    ensures read_to { IfSome result (λ number. steps.old + (number + 1) ≤ steps.new) }
{
    instructions_are_listed();
    let mut left = Instructions::of(code);
    let mut least = 0;
    'entries: for k in 0..index.len() {
        let place = u32::from(entry(index, k, steps));
        if place < least {
            return Some(k);
        }
        if !seek(&mut left, place) {
            return Some(k);
        }
        least = place + 1;
    }
    None
}

/// Goes on to the instruction at a place, if one of those that are left begins there.
fn seek(left: &mut Instructions<'_>, place: u32) -> bool
    ensures { MatchBool result (IsSought place (rest_of left.old) (rest_of left.new)) (HasNone place (rest_of left.old)) }
{
    'walk: loop {
        match left.next() {
            Some(placed) => {
                if u32::from(placed.place) == place {
                    return true;
                }
            }
            None => return false,
        }
    }
}
