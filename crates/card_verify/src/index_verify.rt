ghost use Rattle.std.specs.Prelude.{◌≡◌, ℕ, ◌+◌, ◌*◌, ◌<◌, ◌≤◌, ◌^◌, length, slice_get, Contains, IsSomeAnd, IfErr, OnOk, OnErr};
ghost use Rattle.jc_control.specs.Method.{IsMethodOf, method_in};
ghost use Rattle.jc_control.specs.WellFormed.{IsWellFormed};
ghost use Rattle.jc_rules.specs.Demand.{Frame};
ghost use Rattle.jc_rules.specs.Apply.{frame_of};
ghost use Rattle.card_typing.specs.Typing.{IsLeastCardTyping};
ghost use Rattle.card_verify.specs.Counted.{AreCountedBeside, AreCountedUpTo, instruction_count, most_passes};
ghost use Rattle.card_verify.specs.Walk.{HasSlices};
ghost use Rattle.card_verify.specs.Bound.{AreCounted, AreCountedBy, entries_read, target_count, step_bound};
ghost use Rattle.card_verify.specs.Indexed.{subject, world_in, listed};
ghost use Rattle.card_verify.specs.IndexTyping.{IsIndex, HasIndexTyping};
ghost use Rattle.card_verify.specs.Lacking.{IsPlaceNumber, IsNotIndexed};
ghost use Rattle.card_verify.specs.Refusal.{IsFormKind, IsRefusedOver};
ghost use Rattle.card_verify.specs.OverIndex.{IndexedIsTyped, ExactAnswers, RaisedTakesTwo, RefusalDeniesOver, RefusalIsOneOver};

use crate::Verifier;
use crate::acceptance::bad_entry;
use crate::caught::Listed;
use crate::scan::{Lacking, first_lacking, is_rest_formed};
use card_typing::{CardFault, CardKind, card_laws};
use jc_base::{Steps, TargetIndex, Ty, World};
use jc_control::{Subject, first_flaw_is_one};
use jc_decode::instructions_are_listed;
use jc_rules::{rule_falls, rule_laws, rule_raises};
use std::sync::ledger::Ledger;

/// A method that is verified, and the target index over which it is.
#[derive(Clone, Copy)]
pub struct Indexed<'a, 'i> {
    pub verifier: Verifier<'a>,
    pub index: &'i TargetIndex<'i>,
}

/// Verifies a method with code as a verifier on the card does, over a target index whose places stand for the targets, in
/// the registers and the stack that are lent: a cell for each argument word and local, and one for each cell of
/// `max_stack`. Each application of a rule and each entry that is read is a step.
///
/// Where the method has a card typing over the index the registers hold the least card typing afterwards. Else the
/// refusal tells what is wrong first: with the form of the method, with the index, or with a state that the verifier
/// meets, which the slices then hold.
pub fn verify_indexed<L: Ledger>(
    world: &World<'_>,
    method: u16,
    index: &TargetIndex<'_>,
    regs: &mut [Ty],
    stack: &mut [Ty],
    steps: &mut Steps<L>,
) -> Result<(), CardFault>
    requires code { IsSomeAnd (slice_get world.now.methods method) (λ m. 0 < m.code_len) }
    requires registers { IsSomeAnd (slice_get world.now.methods method) (λ m. length regs.old ≡ m.nargs + m.max_locals) }
    requires cells { IsSomeAnd (slice_get world.now.methods method) (λ m. length stack.old ≡ m.max_stack) }
    ensures known { IsSomeAnd (method_in world.now method) (λ m. IsMethodOf world.now m) }
    ensures typing { IsSomeAnd (method_in world.now method) (λ m. OnOk result (HasIndexTyping world.now m index.now)) }
    ensures least { IsSomeAnd (method_in world.now method) (λ m. OnOk result (IsLeastCardTyping world.now m regs.new)) }
    ensures none { IsSomeAnd (method_in world.now method) (λ m. OnErr result (¬ (HasIndexTyping world.now m index.now))) }
    ensures refused { IsSomeAnd (method_in world.now method)
        (λ m.
        IfErr result
        (λ fault. IsRefusedOver world.now m index.now fault (frame_of regs.new stack.new fault.depth))) }
    // Where no state is at fault, nothing has changed.
    ensures as_before { IfErr result (λ fault. IsFormKind fault.kind → (regs.new ≡ regs.old) × (stack.new ≡ stack.old)) }
    // What is read and applied is counted.
    ensures counted { IsSomeAnd (method_in world.now method)
        (λ m. OnOk result (AreCounted world.now m index.now regs.new steps.old steps.new)) }
    ensures counted_to { IsSomeAnd (method_in world.now method)
        (λ m.
        IfErr result
        (λ fault.
        AreCountedBy world.now m index.now steps.old steps.new fault
        (frame_of regs.new stack.new fault.depth))) }
    // Whatever the index lists, there are no more steps than this.
    ensures cost { IsSomeAnd (method_in world.now method)
        (λ m.
        (digits : ℕ)
        → length index.now < 2 ^ digits
        → steps.new ≤ steps.old + step_bound world.now m (length index.now) digits) }
{
    let subject = Subject::of(world, method);
    let verifier = Verifier { subject };
    let indexed = Indexed { verifier, index };
    indexed.verify(regs, stack, steps)
}

impl Indexed<'_, '_> {
    /// Verifies the method: first its form and the index, then pass after pass its types.
    fn verify<L: Ledger>(
        &self,
        regs: &mut [Ty],
        stack: &mut [Ty],
        steps: &mut Steps<L>,
    ) -> Result<(), CardFault>
        requires slices { HasSlices self.now.verifier regs.old stack.old }
        ensures typing { OnOk result (HasIndexTyping (world_in self.now) (subject self.now) (listed self.now)) }
        ensures least { OnOk result (IsLeastCardTyping (world_in self.now) (subject self.now) regs.new) }
        ensures none { OnErr result (¬ (HasIndexTyping (world_in self.now) (subject self.now) (listed self.now))) }
        ensures refused { IfErr result
            (λ fault.
            IsRefusedOver (world_in self.now) (subject self.now) (listed self.now) fault
            (frame_of regs.new stack.new fault.depth)) }
        ensures as_before { IfErr result (λ fault. IsFormKind fault.kind → (regs.new ≡ regs.old) × (stack.new ≡ stack.old)) }
        ensures counted { OnOk result
            (AreCounted (world_in self.now) (subject self.now) (listed self.now) regs.new steps.old steps.new) }
        ensures counted_to { IfErr result
            (λ fault.
            AreCountedBy (world_in self.now) (subject self.now) (listed self.now) steps.old steps.new fault
            (frame_of regs.new stack.new fault.depth)) }
        ensures cost { (b : ℕ)
            → length (listed self.now) < 2 ^ b
            → steps.new ≤ steps.old + step_bound (world_in self.now) (subject self.now) (length (listed self.now)) b }
    {
        card_laws(self.verifier.subject.world);
        index_laws(self.verifier.subject.world);
        match self.check(steps) {
            Ok(()) => self.verify_types(regs, stack, steps),
            Err(fault) => Err(fault),
        }
    }

    /// Whether the method is well formed and the index is one of it, or else what is wrong first.
    fn check<L: Ledger>(&self, steps: &mut Steps<L>) -> Result<(), CardFault>
        ensures formed { OnOk result (IsWellFormed (subject self.now)) }
        ensures index { OnOk result (IsIndex (subject self.now) (listed self.now)) }
        ensures refused { IfErr result
            (λ fault.
            (kept : Frame) → IsRefusedOver (world_in self.now) (subject self.now) (listed self.now) fault kept) }
        ensures form { IfErr result (λ fault. IsFormKind fault.kind) }
        ensures forward { steps.old ≤ steps.new }
        ensures read { OnOk result (steps.old + length (listed self.now) ≤ steps.new) }
        ensures read_to { IfErr result
            (λ fault. steps.old + entries_read (length (listed self.now)) fault.kind ≤ steps.new) }
        ensures cost { (b : ℕ)
            → length (listed self.now) < 2 ^ b
            → steps.new ≤ steps.old + (length (listed self.now) + target_count (subject self.now) * b) }
    {
        instructions_are_listed();
        if let Some(entry) = bad_entry(self.verifier.subject.code, self.index, steps) {
            self.verifier.check_form()?;
            return Err(CardFault {
                place: 0,
                depth: 0,
                kind: CardKind::BadIndex(entry),
            });
        }
        if let Some(lacks) = first_lacking(self.verifier.subject.code, self.index, steps) {
            self.verifier.check_form()?;
            return Err(not_indexed(lacks));
        }
        if is_rest_formed(self.verifier.subject) {
            return Ok(());
        }
        self.verifier.check_form()
    }

    /// Verifies the types of a well-formed method over an index of it.
    fn verify_types<L: Ledger>(
        &self,
        regs: &mut [Ty],
        stack: &mut [Ty],
        steps: &mut Steps<L>,
    ) -> Result<(), CardFault>
        requires formed { IsWellFormed (subject self.now) }
        requires index { IsIndex (subject self.now) (listed self.now) }
        requires slices { HasSlices self.now.verifier regs.old stack.old }
        ensures typing { OnOk result (HasIndexTyping (world_in self.now) (subject self.now) (listed self.now)) }
        ensures least { OnOk result (IsLeastCardTyping (world_in self.now) (subject self.now) regs.new) }
        ensures refused { IfErr result
            (λ fault.
            IsRefusedOver (world_in self.now) (subject self.now) (listed self.now) fault
            (frame_of regs.new stack.new fault.depth)) }
        ensures counted { OnOk result
            (AreCountedBeside (world_in self.now) (subject self.now) (Contains (listed self.now)) regs.new 0 steps.old steps.new) }
        ensures counted_to { IfErr result
            (λ fault.
            AreCountedUpTo (world_in self.now) (subject self.now) (Contains (listed self.now)) fault
            (frame_of regs.new stack.new fault.depth) 0 steps.old steps.new) }
        ensures cost { (b : ℕ)
            → length (listed self.now) < 2 ^ b
            → steps.new
            ≤ steps.old
            + most_passes (world_in self.now) (subject self.now)
            * (instruction_count (subject self.now) * (b + 1)) }
    {
        let listed = Listed { index: self.index };
        self.verifier
            .verify_over::<Listed<'_>, L>(&listed, regs, stack, steps)
    }
}

/// The refusal of an index that lacks a target.
fn not_indexed(lacks: Lacking) -> CardFault
    requires { IsPlaceNumber lacks.target }
    ensures { IsNotIndexed lacks result }
{
    CardFault {
        place: lacks.place,
        depth: 0,
        kind: CardKind::NotIndexed(lacks.target as u16),
    }
}

/// What card typings over a target index have to do with card typings, and with refusals over it, of which a method has
/// one at most; that the exact index changes no answer; and that registers rise in two passes at the least.
pub fn index_laws(world: &World<'_>)
    ensures typed { IndexedIsTyped world.now }
    ensures exact { ExactAnswers world.now }
    ensures denies { RefusalDeniesOver world.now }
    ensures one { RefusalIsOneOver world.now }
    ensures twice { RaisedTakesTwo world.now }
{
    card_laws(world);
    rule_laws(world);
    rule_falls(world);
    rule_raises(world);
    first_flaw_is_one();
}
