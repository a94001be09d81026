ghost use Rattle.std.specs.Prelude.{◌+◌, ◌<◌, ◌≤◌, length, reverse, All, IfOk, IfErr, OnOk, IsTrue, MatchBool, MatchResult, ◌≡◌};
ghost use Rattle.jc_decode.specs.Listing.{falls, jumps};
ghost use Rattle.jc_control.specs.Control.{IsLeader};
ghost use Rattle.jc_rules.specs.Flow.{IsNotFresh, At, FrameBelow, IsLeastTyping, start_frame};
ghost use Rattle.jc_flow.specs.Found.{Prevents};
ghost use Rattle.jc_flow.specs.Progress.{IsHeld, AreHeld, AreClosed};
ghost use Rattle.jc_flow.specs.Scratch.{SuitsMethod};
ghost use Rattle.jc_flow.specs.Fails.{IsFailure};
ghost use Rattle.jc_flow.specs.Visit.{analysed, world_of, IsAnalysis, Raised, HasStepped, IsVisited};
ghost use Rattle.jc_rules.specs.Held.{lent};
ghost use Rattle.jc_rules.specs.Typing.{state_at};
ghost use Rattle.jc_base.specs.declared.ty.Ty.TheVariants.{Top};
ghost use Rattle.jc_flow.specs.Infer.{AreReached, HaveRegisters, AreDerived, HaveKnownTypes};

use crate::edges::FlowStep;
use crate::inference::FlowEnd;
use crate::scratch::Scratch;
use crate::table::{PutEnd, StateTable};
use jc_base::Ty;
use jc_control::{ControlFlow, Subject};
use jc_decode::Insn;
use jc_ops::RuleFault;
use jc_rules::{HeldFrame, Site};

/// The dataflow analysis of a well-formed method.
#[derive(Clone, Copy)]
pub struct Analysis<'a> {
    pub subject: Subject<'a>,
    pub control: &'a ControlFlow,
}

impl Analysis<'_> {
    /// Puts a frame at a place: the registers, and the stack with its top last.
    pub fn raise(
        &self,
        table: &mut StateTable,
        to: u16,
        regs: &[Ty],
        stack: &[Ty],
    ) -> Result<(), PutEnd>
        requires analysis { IsAnalysis self.now }
        requires few { length stack.now ≤ 255 }
        requires held { AreHeld (world_of self.now) (analysed self.now) table.old }
        requires frame { IsHeld (world_of self.now) (analysed self.now) to (record { regs = regs.now; stack = reverse stack.now }) }
        ensures { MatchResult result
            (λ _.
            Raised (world_of self.now) (analysed self.now) table.old table.new to
            (record { regs = regs.now; stack = reverse stack.now }))
            (Prevents (world_of self.now).classes table.old to
            (record { regs = regs.now; stack = reverse stack.now })) }
    {
        table.put(self.subject.world.classes(), to, regs, stack)
    }

    /// Whether an uninitialised object on the stack would come to a leader.
    pub fn keeps_fresh(&self, to: u16, stack: &[Ty]) -> bool
        requires { IsAnalysis self.now }
        ensures { MatchBool result
            (IsLeader (analysed self.now) to × ¬ (All IsNotFresh stack.now))
            (IsLeader (analysed self.now) to → All IsNotFresh stack.now) }
    {
        self.control.is_leader(to) && has_fresh(stack)
    }

    /// Applies the rule of the instruction at a place.
    pub fn step(&self, place: u16, frame: &mut Scratch) -> Result<Insn, FlowEnd>
        requires analysis { IsAnalysis self.now }
        requires here { IsHeld (world_of self.now) (analysed self.now) place frame.old.frame }
        requires suits { SuitsMethod frame.old (analysed self.now).rec }
        ensures stepped { IfOk result (HasStepped (world_of self.now) (analysed self.now) place frame.old.frame frame.new.frame) }
        ensures suits { OnOk result (SuitsMethod frame.new (analysed self.now).rec) }
        ensures failed { IfErr result (IsFailure (world_of self.now) (analysed self.now)) }
    {
        let insn = match self.control.insn(self.subject.code, place) {
            Ok(insn) => insn,
            Err(end) => return Err(FlowEnd::Code(place, end)),
        };
        let site = Site {
            method: self.subject.number,
            place,
        };
        if let Err(fault) = frame.apply(self.subject.world, site, insn) {
            return Err(FlowEnd::NoTyping(place, fault));
        }
        if jumps_with_fresh(insn, frame.stack()) {
            return Err(FlowEnd::NoTyping(place, RuleFault::FreshKept));
        }
        if self.falls_off(place, insn) {
            return Err(FlowEnd::FallsOff(place));
        }
        Ok(insn)
    }

    /// Whether control falls past the end of the code after the instruction.
    fn falls_off(&self, place: u16, insn: Insn) -> bool
        ensures { MatchBool result
            (IsTrue (falls insn.op) × (length (analysed self.now).code ≤ place + insn.len))
            (IsTrue (falls insn.op) → place + insn.len < length (analysed self.now).code) }
    {
        insn.falls()
            && self.subject.code.bytes.len() as u64 <= u64::from(place) + u64::from(insn.len)
    }
}

/// Whether an uninitialised object is under the operands of a branch or switch.
fn jumps_with_fresh(insn: Insn, stack: &[Ty]) -> bool
    ensures { MatchBool result (IsTrue (jumps insn.op) × ¬ (All IsNotFresh stack.now)) (IsTrue (jumps insn.op) → All IsNotFresh stack.now) }
{
    insn.jumps() && has_fresh(stack)
}

/// Whether a cell holds an uninitialised object.
fn has_fresh(cells: &[Ty]) -> bool
    ensures { MatchBool result (¬ (All IsNotFresh cells.now)) (All IsNotFresh cells.now) }
{
    'cells: for cell in cells {
        if matches!(cell, Ty::Fresh { .. }) {
            return true;
        }
    }
    false
}

impl Analysis<'_> {
    /// Keeps the frame of a state for the method's handlers, if it has any.
    fn keep(&self, state: HeldFrame<'_>, before: &mut Scratch)
        requires registers { length (lent state).regs ≡ length before.old.frame.regs }
        requires room { length (lent state).stack ≤ before.old.room }
        ensures kept { 0 < length (analysed self.now).rec.handlers → before.new.frame ≡ lent state.entry }
        ensures registers { length before.new.frame.regs ≡ length before.old.frame.regs }
        ensures room { before.new.room ≡ before.old.room }
    {
        if self.subject.rec.handlers.len() > 0 {
            before.load(state);
        }
    }

    /// Leads from the state at a place to wherever control goes next.
    pub fn visit(
        &self,
        table: &mut StateTable,
        place: u16,
        before: &mut Scratch,
        after: &mut Scratch,
    ) -> Result<(), FlowEnd>
        requires analysis { IsAnalysis self.now }
        requires held { AreHeld (world_of self.now) (analysed self.now) table.old }
        requires before { SuitsMethod before.old (analysed self.now).rec }
        requires after { SuitsMethod after.old (analysed self.now).rec }
        ensures visited { OnOk result (IsVisited (world_of self.now) (analysed self.now) place table.old table.new) }
        ensures before { OnOk result (SuitsMethod before.new (analysed self.now).rec) }
        ensures after { OnOk result (SuitsMethod after.new (analysed self.now).rec) }
        ensures failed { IfErr result (IsFailure (world_of self.now) (analysed self.now)) }
    {
        match table.state(place) {
            Some(state) => {
                self.keep(state, before);
                after.load(state);
            }
            None => return Ok(()),
        }
        let insn = self.step(place, after)?;
        let step = FlowStep {
            place,
            insn,
            before,
            after,
        };
        self.raise_handlers(table, step)?;
        self.raise_next(table, step)?;
        self.raise_targets(table, step)?;
        Ok(())
    }

    /// Visits the places that wait until none waits.
    pub fn settle(
        &self,
        table: &mut StateTable,
        before: &mut Scratch,
        after: &mut Scratch,
    ) -> Result<(), FlowEnd>
        requires analysis { IsAnalysis self.now }
        requires held { AreHeld (world_of self.now) (analysed self.now) table.old }
        requires closed { AreClosed (world_of self.now) (analysed self.now) table.old }
        requires start { At (state_at table.old.states) 0
            (FrameBelow (world_of self.now).classes (start_frame (analysed self.now).rec Top)) }
        requires before { SuitsMethod before.old (analysed self.now).rec }
        requires after { SuitsMethod after.old (analysed self.now).rec }
        ensures settled { OnOk result (IsLeastTyping (world_of self.now) (analysed self.now) Top (state_at table.new.states)) }
        ensures reached { OnOk result (AreReached (analysed self.now) table.new.states) }
        ensures registers { OnOk result (HaveRegisters (analysed self.now) table.new.states) }
        ensures derived { OnOk result (AreDerived (world_of self.now) (analysed self.now) table.new.states) }
        ensures known { OnOk result (HaveKnownTypes (world_of self.now) table.new.states) }
        ensures failed { IfErr result (IsFailure (world_of self.now) (analysed self.now)) }
    {
        'places: while let Some(place) = table.take_least() {
            if let Err(end) = self.visit(table, place, before, after) {
                return Err(end);
            }
        }
        Ok(())
    }
}
