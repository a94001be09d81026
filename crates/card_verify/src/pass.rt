ghost use Rattle.std.specs.Prelude.{◌≡◌, ℕ, ◌||◌, ◌+◌, ◌*◌, ◌<◌, ◌≤◌, true, length, All, IfOk, IfErr, IfNone, IfSome, OnOk, MatchBool};
ghost use Rattle.jc_base.specs.Order.{IsKnown};
ghost use Rattle.jc_decode.specs.Listing.{falls, jumps};
ghost use Rattle.jc_control.specs.WellFormed.{HasInstruction};
ghost use Rattle.jc_rules.specs.Stack.{cells};
ghost use Rattle.jc_rules.specs.Apply.{frame_of};
ghost use Rattle.card_typing.specs.Place.{IsEntry, IsFallenInto};
ghost use Rattle.card_typing.specs.Met.{IsOpenTo};
ghost use Rattle.card_verify.specs.Verifier.{method, world_of};
ghost use Rattle.card_verify.specs.Ahead.{IsKnownAhead, IsMarkKnown};
ghost use Rattle.card_verify.specs.Counted.{instruction_count};
ghost use Rattle.card_verify.specs.Walk.{IsVerifier, HasSlices, IsComing, IsLanded, IsMislanded, IsFailing, IsStepped, IsVisited};
ghost use Rattle.card_verify.specs.Walk.{IsStopped, CanPass, CanBeginPass, IsPassedOver, HasLessLeft, IsSettled, IsRefusedInPass};
ghost use Rattle.card_verify.specs.Walk.{IsLeftWell, IsLeftWrong, IsPut, left};

use crate::ahead::{Ahead, is_marked};
use crate::caught::Marks;
use crate::counted::apply_counted;
use crate::verify::Verifier;
use card_typing::{CardFault, CardKind};
use jc_base::{Steps, Ty};
use jc_decode::{Instructions, Placed};
use jc_rules::{Mode, Outcome, RuleFault, Site};
use std::sync::ledger::Ledger;

/// How a walk comes to a place: whether the instruction before it may fall through, and how many cells that leaves on
/// the stack.
#[derive(Clone, Copy)]
pub(crate) struct Arrival {
    pub may_fall: bool,
    pub depth: u8,
}

impl Arrival {
    /// How many cells it comes with.
    pub fn left(self) -> u8
        ensures { result ≡ left self }
    {
        if self.may_fall { self.depth } else { 0 }
    }
}

impl Verifier<'_> {
    /// Walks the code once, raising registers in place, and tells whether one rose.
    pub(crate) fn pass<M: Marks, L: Ledger>(
        &self,
        marks: &M,
        regs: &mut [Ty],
        stack: &mut [Ty],
        steps: &mut Steps<L>,
    ) -> Result<bool, CardFault>
        requires verifier { IsVerifier self.now (M.marks marks.now) }
        requires begun { CanPass self.now (M.marks marks.now) regs.old stack.old }
        ensures done { IfOk result
            (λ rose.
            MatchBool rose
            (HasLessLeft self.now regs.old regs.new)
            (IsSettled self.now (M.marks marks.now) regs.old regs.new)) }
        ensures again { OnOk result (IsPassedOver self.now (M.marks marks.now) regs.old stack.old regs.new stack.new) }
        ensures begins { OnOk result (¬ (IsEntry (method self.now) 0)) }
        ensures refused { IfErr result
            (λ fault.
            (visits : ℕ)
            → CanBeginPass self.now (M.marks marks.now) visits regs.old stack.old
            → IsRefusedInPass self.now (M.marks marks.now) visits fault
            (frame_of regs.new stack.new fault.depth) steps.old steps.new) }
        ensures counted { OnOk result (steps.old + instruction_count (method self.now) ≤ steps.new) }
        ensures forward { steps.old ≤ steps.new }
        // At each instruction a search and a rule.
        ensures cost { (most : ℕ)
            → M.takes marks.now most
            → steps.new ≤ steps.old + instruction_count (method self.now) * (most + 1) }
    {
        let mut ahead = Ahead::of(*self, marks);
        let mut arrival = Arrival {
            may_fall: true,
            depth: 0,
        };
        let mut rose = false;
        'walk: for placed in Instructions::of(self.subject.code) {
            let outcome = match self.visit(marks, placed, &mut ahead, arrival, regs, stack, steps) {
                Ok(outcome) => outcome,
                Err(fault) => return Err(fault),
            };
            rose |= outcome.rose;
            arrival = Arrival {
                may_fall: placed.insn.falls(),
                depth: outcome.depth,
            };
        }
        Ok(rose)
    }

    /// Comes to an instruction, and applies its rule.
    fn visit<M: Marks, L: Ledger>(
        &self,
        marks: &M,
        placed: Placed,
        ahead: &mut Ahead,
        arrival: Arrival,
        regs: &mut [Ty],
        stack: &mut [Ty],
        steps: &mut Steps<L>,
    ) -> Result<Outcome, CardFault>
        requires verifier { IsVerifier self.now (M.marks marks.now) }
        requires ahead { IsKnownAhead (method self.now) (M.marks marks.now) ahead.old }
        requires up { ahead.old.from ≤ placed.place }
        requires stands { HasInstruction (method self.now).code placed }
        requires coming { (visits : ℕ) × IsComing self.now (M.marks marks.now) visits placed.place arrival regs.old stack.old }
        ensures ahead { IsKnownAhead (method self.now) (M.marks marks.now) ahead.new }
        ensures here { ahead.new.from ≡ placed.place }
        ensures passed { IfOk result
            (λ o. IsVisited self.now (M.marks marks.now) placed arrival regs.old stack.old regs.new stack.new o) }
        ensures stopped { IfErr result
            (λ fault. IsStopped self.now (M.marks marks.now) placed arrival regs.old stack.old regs.new stack.new fault) }
        ensures counted { OnOk result (steps.old < steps.new) }
        ensures forward { steps.old ≤ steps.new }
        ensures cost { (most : ℕ) → M.takes marks.now most → steps.new ≤ steps.old + (most + 1) }
    {
        *ahead = ahead.moved(*self, marks, placed.place, arrival.left(), steps);
        let depth = match self.land(marks, *ahead, arrival, stack, steps) {
            Ok(depth) => depth,
            Err(fault) => return Err(fault),
        };
        self.step(marks, placed, regs, stack, depth, steps)
    }

    /// The depth of the stack with which the walk comes to a place, if that may be.
    fn land<M: Marks, L: Ledger>(
        &self,
        marks: &M,
        ahead: Ahead,
        arrival: Arrival,
        stack: &mut [Ty],
        steps: &mut Steps<L>,
    ) -> Result<u8, CardFault>
        requires verifier { IsVerifier self.now (M.marks marks.now) }
        requires ahead { IsKnownAhead (method self.now) (M.marks marks.now) ahead }
        requires told { IsMarkKnown (M.marks marks.now) ahead (left arrival) }
        requires fallen { MatchBool arrival.may_fall
            (IsFallenInto (method self.now) ahead.from)
            (¬ (IsFallenInto (method self.now) ahead.from)) }
        requires cells { length stack.old ≡ (method self.now).rec.max_stack }
        requires depth { arrival.depth ≤ (method self.now).rec.max_stack }
        ensures landed { IfOk result
            (λ depth.
            IsLanded self.now (M.marks marks.now) ahead.from arrival stack.old (cells stack.new depth)) }
        ensures depth { IfOk result (λ depth. depth ≤ (method self.now).rec.max_stack) }
        ensures wrong { IfErr result (λ fault. IsMislanded self.now (M.marks marks.now) arrival stack.old stack.new fault) }
        ensures place { IfErr result (λ fault. fault.place ≡ ahead.from) }
        ensures still { arrival.may_fall ≡ true → steps.new ≡ steps.old }
        ensures forward { steps.old ≤ steps.new }
        ensures cost { (most : ℕ) → M.takes marks.now most → steps.new ≤ steps.old + most }
    {
        if ahead.entry == Some(u32::from(ahead.from)) {
            return self.enter(marks, ahead.from, arrival, stack, steps);
        }
        if arrival.left() > 0 && ahead.clear <= u32::from(ahead.from) {
            return Err(CardFault {
                place: ahead.from,
                depth: arrival.left(),
                kind: CardKind::StackAtTarget,
            });
        }
        Ok(arrival.left())
    }

    /// Where a handler begins, the object that is caught stands alone on the stack.
    fn enter<M: Marks, L: Ledger>(
        &self,
        marks: &M,
        place: u16,
        arrival: Arrival,
        stack: &mut [Ty],
        steps: &mut Steps<L>,
    ) -> Result<u8, CardFault>
        requires verifier { IsVerifier self.now (M.marks marks.now) }
        requires entry { IsEntry (method self.now) place }
        requires fallen { MatchBool arrival.may_fall
            (IsFallenInto (method self.now) place)
            (¬ (IsFallenInto (method self.now) place)) }
        requires cells { length stack.old ≡ (method self.now).rec.max_stack }
        ensures landed { IfOk result
            (λ depth.
            IsLanded self.now (M.marks marks.now) place arrival stack.old (cells stack.new depth)) }
        ensures depth { IfOk result (λ depth. depth ≤ (method self.now).rec.max_stack) }
        ensures wrong { IfErr result (λ fault. IsMislanded self.now (M.marks marks.now) arrival stack.old stack.new fault) }
        ensures place { IfErr result (λ fault. fault.place ≡ place) }
        ensures still { arrival.may_fall ≡ true → steps.new ≡ steps.old }
        ensures forward { steps.old ≤ steps.new }
        ensures cost { (most : ℕ) → M.takes marks.now most → steps.new ≤ steps.old + most }
    {
        let depth = put_alone(stack, Ty::Class(self.caught(place)));
        if arrival.may_fall || is_marked(marks, place, steps) {
            return Err(CardFault {
                place,
                depth,
                kind: CardKind::HandlerEntered,
            });
        }
        if depth == 0 {
            return Err(CardFault {
                place,
                depth,
                kind: CardKind::Rule(RuleFault::Overflow),
            });
        }
        Ok(depth)
    }

    /// Applies the rule of an instruction whose place may have the stack, and looks at what it leaves.
    fn step<M: Marks, L: Ledger>(
        &self,
        marks: &M,
        placed: Placed,
        regs: &mut [Ty],
        stack: &mut [Ty],
        depth: u8,
        steps: &mut Steps<L>,
    ) -> Result<Outcome, CardFault>
        requires verifier { IsVerifier self.now (M.marks marks.now) }
        requires stands { HasInstruction (method self.now).code placed }
        requires slices { HasSlices self.now regs.old stack.old }
        requires depth { depth ≤ (method self.now).rec.max_stack }
        requires known { All (IsKnown (world_of self.now).classes) regs.old
            × All (IsKnown (world_of self.now).classes) (cells stack.old depth) }
        requires suits { IsOpenTo (method self.now) (M.marks marks.now) placed.place (cells stack.old depth) }
        ensures passed { IfOk result
            (λ o.
            IsStepped self.now (M.marks marks.now) placed regs.old (cells stack.old depth) regs.new stack.new o) }
        ensures fails { IfErr result
            (λ fault.
            IsFailing self.now (M.marks marks.now) placed regs.old (cells stack.old depth) regs.new stack.new fault) }
        ensures one { steps.new ≡ steps.old + 1 }
    {
        let _marks = marks;
        let place = placed.place;
        let site = Site {
            method: self.subject.number,
            place,
        };
        let outcome = match apply_counted(
            self.subject.world,
            site,
            placed.insn,
            regs,
            stack,
            depth,
            Mode::Card,
            steps,
        ) {
            Ok(outcome) => outcome,
            Err(fault) => return Err(CardFault {
                place,
                depth,
                kind: CardKind::Rule(fault),
            }),
        };
        match self.left_wrong(placed, outcome.depth) {
            None => Ok(outcome),
            Some(kind) => Err(CardFault {
                place,
                depth: outcome.depth,
                kind,
            }),
        }
    }

    /// What is wrong once a rule has left so many cells: a branch or switch leaves any, or the last instruction falls
    /// through.
    fn left_wrong(&self, placed: Placed, depth: u8) -> Option<CardKind>
        ensures well { IfNone result (IsLeftWell self.now placed depth) }
        ensures wrong { IfSome result (IsLeftWrong self.now placed depth) }
    {
        if placed.insn.jumps() && depth > 0 {
            return Some(CardKind::StackAtBranch);
        }
        let next = u64::from(placed.place) + u64::from(placed.insn.len);
        if placed.insn.falls() && self.subject.code.bytes.len() as u64 <= next {
            return Some(CardKind::FallsOff);
        }
        None
    }
}

/// Puts a cell alone on a stack, where it has room for one, and tells how many cells it then has.
fn put_alone(stack: &mut [Ty], ty: Ty) -> u8
    ensures { IsPut stack.old ty stack.new result }
{
    if stack.is_empty() {
        return 0;
    }
    stack[0] = ty;
    1
}
