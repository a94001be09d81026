ghost use Rattle.std.specs.Prelude.{◌≡◌, ◌↔◌, ℕ, ◌+◌, ◌*◌, ◌<◌, ◌≤◌, length, slice_get, sum_by, IsSomeAnd, IfErr, OnOk, OnErr};
ghost use Rattle.std.specs.Prelude.{slice_index_or};
ghost use Rattle.jc_base.specs.Order.{rises_left};
ghost use Rattle.jc_base.specs.declared.ty.Ty.TheVariants.{Bottom};
ghost use Rattle.jc_control.specs.Method.{IsMethodOf, method_in};
ghost use Rattle.jc_control.specs.WellFormed.{IsPlace, IsWellFormed};
ghost use Rattle.jc_rules.specs.Apply.{frame_of};
ghost use Rattle.jc_rules.specs.Flow.{HasFlowTyping, start_frame};
ghost use Rattle.card_typing.specs.Typing.{HasCardTyping, IsLeastOver, IsLeastCardTyping};
ghost use Rattle.card_typing.specs.Place.{IsTarget};
ghost use Rattle.card_typing.specs.Refusal.{IsFlawKind, IsRefused, fault_of};
ghost use Rattle.card_verify.specs.Answers.{TellsFlaw};
ghost use Rattle.card_verify.specs.Counted.{AreCountedBeside, AreCountedUpTo, instruction_count, most_passes};
ghost use Rattle.card_verify.specs.Verifier.{method, world_of};
ghost use Rattle.card_verify.specs.Walk.{IsVerifier, HasSlices, CanBeginPass, IsFinished};

use crate::caught::Marks;
use card_typing::{CardFault, CardKind, card_laws};
use jc_base::{MethodRec, Steps, Ty, World};
use jc_control::{Flaw, Places, Subject, find_flaw, instructions_are_placed};
use jc_decode::instructions_are_listed;
use jc_rules::{rule_laws, rule_raises};
use std::marker::Brand;
use std::sync::ledger::{Blank, Ledger};

/// The verifier of a method.
#[derive(Clone, Copy)]
pub struct Verifier<'a> {
    pub subject: Subject<'a>,
}

/// Verifies a method with code as a verifier on the card does, in the registers and the stack that are lent: a cell for
/// each argument word and local, and one for each cell of `max_stack`.
///
/// Where the method has a card typing the registers hold the least one afterwards. A method that is not well formed is
/// refused at its first flaw, and the slices stay as they were. Any other refusal names what is wrong with a state that
/// the verifier meets: the registers and the first `depth` cells of the stack, which the slices then hold.
pub fn verify_method(
    world: &World<'_>,
    method: u16,
    regs: &mut [Ty],
    stack: &mut [Ty],
) -> Result<(), CardFault>
    requires code { IsSomeAnd (slice_get world.now.methods method) (λ m. 0 < m.code_len) }
    requires registers { IsSomeAnd (slice_get world.now.methods method) (λ m. length regs.old ≡ m.nargs + m.max_locals) }
    requires cells { IsSomeAnd (slice_get world.now.methods method) (λ m. length stack.old ≡ m.max_stack) }
    ensures known { IsSomeAnd (method_in world.now method) (λ m. IsMethodOf world.now m) }
    ensures typing { IsSomeAnd (method_in world.now method) (λ m. OnOk result (IsLeastCardTyping world.now m regs.new)) }
    // A dataflow typing then exists too, in which unset registers hold no value.
    ensures flow { IsSomeAnd (method_in world.now method) (λ m. OnOk result (HasFlowTyping world.now m Bottom)) }
    ensures none { IsSomeAnd (method_in world.now method) (λ m. OnErr result (¬ (HasCardTyping world.now m))) }
    ensures refused { IsSomeAnd (method_in world.now method)
        (λ m.
        IfErr result
        (λ fault. IsRefused world.now m fault (frame_of regs.new stack.new fault.depth))) }
    // A flaw is told exactly where the method is not well formed, and then nothing has changed.
    ensures flawed { IsSomeAnd (method_in world.now method) (λ m. IfErr result (λ fault. IsFlawKind fault.kind ↔ ¬ (IsWellFormed m))) }
    ensures as_before { IfErr result (λ fault. IsFlawKind fault.kind → (regs.new ≡ regs.old) × (stack.new ≡ stack.old)) }
{
    let subject = Subject::of(world, method);
    let verifier = Verifier { subject };
    verifier.verify(regs, stack)
}

/// The refusal that tells a flaw.
fn fault_of(flaw: Flaw) -> CardFault
    ensures { result ≡ fault_of flaw }
{
    match flaw {
        Flaw::Code(place, end) => CardFault {
            place,
            depth: 0,
            kind: CardKind::Code(end),
        },
        Flaw::BadTarget(place, target) => CardFault {
            place,
            depth: 0,
            kind: CardKind::BadTarget(target),
        },
        Flaw::BadHandler(entry, number) => CardFault {
            place: entry,
            depth: 0,
            kind: CardKind::BadHandler(number),
        },
    }
}

impl Verifier<'_> {
    /// Verifies the method: first its form, then pass after pass its types.
    fn verify(&self, regs: &mut [Ty], stack: &mut [Ty]) -> Result<(), CardFault>
        requires slices { HasSlices self.now regs.old stack.old }
        ensures typing { OnOk result (IsLeastCardTyping (world_of self.now) (method self.now) regs.new) }
        ensures flow { OnOk result (HasFlowTyping (world_of self.now) (method self.now) Bottom) }
        ensures none { OnErr result (¬ (HasCardTyping (world_of self.now) (method self.now))) }
        ensures refused { IfErr result
            (λ fault.
            IsRefused (world_of self.now) (method self.now) fault
            (frame_of regs.new stack.new fault.depth)) }
        ensures flawed { IfErr result (λ fault. IsFlawKind fault.kind ↔ ¬ (IsWellFormed (method self.now))) }
        ensures as_before { IfErr result (λ fault. IsFlawKind fault.kind → (regs.new ≡ regs.old) × (stack.new ≡ stack.old)) }
    {
        card_laws(self.subject.world);
        match self.check_form() {
            Ok(()) => self.verify_uncounted::<Brand>(regs, stack, Blank::new(1)),
            Err(fault) => Err(fault),
        }
    }

    /// The same, where nobody asks for the number of steps.
    fn verify_uncounted<L: Ledger>(
        &self,
        regs: &mut [Ty],
        stack: &mut [Ty],
        blank: Blank,
    ) -> Result<(), CardFault>
        requires name { blank.name ≡ L.name }
        requires parts { blank.parts ≡ L.parts }
        requires one { blank.parts ≡ 1 }
        requires formed { IsWellFormed (method self.now) }
        requires slices { HasSlices self.now regs.old stack.old }
        ensures typing { OnOk result (IsLeastCardTyping (world_of self.now) (method self.now) regs.new) }
        ensures refused { IfErr result
            (λ fault.
            IsRefused (world_of self.now) (method self.now) fault
            (frame_of regs.new stack.new fault.depth)) }
    {
        let targets = *self;
        let mut steps = Steps::none(blank);
        self.verify_over::<Verifier<'_>, L>(&targets, regs, stack, &mut steps)
    }

    /// Verifies the types of a well-formed method over marked places of instructions, among which are all targets.
    pub fn verify_over<M: Marks, L: Ledger>(
        &self,
        marks: &M,
        regs: &mut [Ty],
        stack: &mut [Ty],
        steps: &mut Steps<L>,
    ) -> Result<(), CardFault>
        requires formed { IsWellFormed (method self.now) }
        requires targets { (q : ℕ) → IsTarget (method self.now) q → M.marks marks.now q }
        requires places { (q : ℕ) → M.marks marks.now q → IsPlace (method self.now).code q }
        requires slices { HasSlices self.now regs.old stack.old }
        ensures typing { OnOk result (IsLeastOver (world_of self.now) (method self.now) (M.marks marks.now) regs.new) }
        ensures refused { IfErr result
            (λ fault.
            AreCountedUpTo (world_of self.now) (method self.now) (M.marks marks.now) fault
            (frame_of regs.new stack.new fault.depth) 0 steps.old steps.new) }
        ensures counted { OnOk result
            (AreCountedBeside (world_of self.now) (method self.now) (M.marks marks.now) regs.new 0 steps.old steps.new) }
        // A pass but the last raises a register.
        ensures cost { (most : ℕ)
            → M.takes marks.now most
            → steps.new
            ≤ steps.old
            + most_passes (world_of self.now) (method self.now)
            * (instruction_count (method self.now) * (most + 1)) }
    {
        card_laws(self.subject.world);
        rule_laws(self.subject.world);
        rule_raises(self.subject.world);
        instructions_are_placed();
        instructions_are_listed();
        start(self.subject.rec, regs);
        self.settle(marks, regs, stack, steps)
    }

    /// Whether the method is well formed, and else its first flaw.
    pub fn check_form(&self) -> Result<(), CardFault>
        ensures formed { OnOk result (IsWellFormed (method self.now)) }
        ensures flawed { IfErr result (λ fault. TellsFlaw (method self.now) fault) }
    {
        match find_flaw(self.subject, Places::Sought) {
            Ok(()) => Ok(()),
            Err(flaw) => Err(fault_of(flaw)),
        }
    }

    /// Passes over the code until no register rises.
    fn settle<M: Marks, L: Ledger>(
        &self,
        marks: &M,
        regs: &mut [Ty],
        stack: &mut [Ty],
        steps: &mut Steps<L>,
    ) -> Result<(), CardFault>
        requires verifier { IsVerifier self.now (M.marks marks.now) }
        requires begun { CanBeginPass self.now (M.marks marks.now) 0 regs.old stack.old }
        ensures finished { OnOk result (IsFinished self.now (M.marks marks.now) regs.new) }
        ensures refused { IfErr result
            (λ fault.
            AreCountedUpTo (world_of self.now) (method self.now) (M.marks marks.now) fault
            (frame_of regs.new stack.new fault.depth) 0 steps.old steps.new) }
        ensures counted { OnOk result
            (AreCountedBeside (world_of self.now) (method self.now) (M.marks marks.now) regs.new 0 steps.old steps.new) }
        ensures cost { (most : ℕ)
            → M.takes marks.now most
            → steps.new
            ≤ steps.old
            + (1 + sum_by (rises_left (world_of self.now).classes) regs.old)
            * (instruction_count (method self.now) * (most + 1)) }
    {
        'passes: loop {
            let rose = match self.pass(marks, regs, stack, steps) {
                Ok(rose) => rose,
                Err(fault) => return Err(fault),
            };
            if !rose {
                return Ok(());
            }
        }
    }
}

/// Gives the registers the types with which a method starts: the receiver, the declared arguments, and no value in the
/// others.
pub fn start(rec: &MethodRec, regs: &mut [Ty])
    requires { length regs.old ≡ length (start_frame rec.now Bottom).regs }
    ensures { regs.new ≡ (start_frame rec.now Bottom).regs }
{
    'registers: for x in 0..regs.len() {
        regs[x] = declared(rec, x);
    }
}

/// The type with which a register starts.
fn declared(rec: &MethodRec, x: usize) -> Ty
    ensures { result ≡ slice_index_or (start_frame rec.now Bottom).regs x Bottom }
{
    if rec.is_static {
        return argument(rec.sig.args.as_slice(), x);
    }
    if x == 0 {
        return Ty::Class(rec.class);
    }
    argument(rec.sig.args.as_slice(), x - 1)
}

/// The type of an argument, and no value past the last.
fn argument(args: &[Ty], n: usize) -> Ty
    ensures { result ≡ slice_index_or args.now n Bottom }
{
    args.get(n).copied().unwrap_or(Ty::Bottom)
}
