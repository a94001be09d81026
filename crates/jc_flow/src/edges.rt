ghost use Rattle.std.specs.Prelude.{◌≡◌, ◌+◌, ◌<◌, All, Contains, IfErr, OnOk};
ghost use Rattle.jc_decode.specs.Listing.{targets};
ghost use Rattle.jc_flow.specs.Progress.{AreHeld};
ghost use Rattle.jc_flow.specs.Fails.{IsFailure};
ghost use Rattle.jc_flow.specs.Visit.{analysed, world_of, IsAnalysis, IsStep, Goes, CaughtIsBelow, IsAtNext, IsAtTarget, broken_at};

use crate::analysis::Analysis;
use crate::inference::FlowEnd;
use crate::scratch::Scratch;
use crate::table::{PutEnd, StateTable};
use jc_base::{Handler, Ty};
use jc_control::{Targets, covers, place_of};
use jc_decode::{Insn, Placed};
use jc_ops::RuleFault;

/// The instruction at a place, with the frames before and after its rule. The frame before is there where the
/// method has handlers.
#[derive(Clone, Copy)]
pub struct FlowStep<'a> {
    pub place: u16,
    pub insn: Insn,
    pub before: &'a Scratch,
    pub after: &'a Scratch,
}

/// Why the edge from a place breaks.
pub(crate) fn broken(place: u16, end: PutEnd) -> FlowEnd
    ensures { result ≡ broken_at place end }
{
    match end {
        PutEnd::Clash => FlowEnd::NoTyping(place, RuleFault::StackMerge),
        PutEnd::Memory => FlowEnd::Memory,
    }
}

impl Analysis<'_> {
    /// Leads to the entry of a handler, if it covers the place.
    fn raise_handler(
        &self,
        table: &mut StateTable,
        step: FlowStep<'_>,
        handler: Handler,
    ) -> Result<(), FlowEnd>
        requires analysis { IsAnalysis self.now }
        requires held { AreHeld (world_of self.now) (analysed self.now) table.old }
        requires step { IsStep (world_of self.now) (analysed self.now) step }
        requires listed { Contains (analysed self.now).rec.handlers handler }
        ensures goes { OnOk result (Goes (world_of self.now) (analysed self.now) table.old table.new) }
        ensures caught { OnOk result (CaughtIsBelow (world_of self.now) step.entry.place step.entry.before.now.frame table.new handler) }
        ensures failed { IfErr result (IsFailure (world_of self.now) (analysed self.now)) }
    {
        if !covers(handler, step.place) {
            return Ok(());
        }
        if self.subject.rec.max_stack == 0 {
            return Err(FlowEnd::NoTyping(step.place, RuleFault::Overflow));
        }
        let caught = [Ty::Class(handler.class)];
        match self.raise(table, handler.entry, step.before.regs(), &caught) {
            Ok(()) => Ok(()),
            Err(end) => Err(broken(step.place, end)),
        }
    }

    /// Leads to the instruction after, if the one at the place falls through.
    pub fn raise_next(&self, table: &mut StateTable, step: FlowStep<'_>) -> Result<(), FlowEnd>
        requires analysis { IsAnalysis self.now }
        requires held { AreHeld (world_of self.now) (analysed self.now) table.old }
        requires step { IsStep (world_of self.now) (analysed self.now) step }
        ensures goes { OnOk result (Goes (world_of self.now) (analysed self.now) table.old table.new) }
        ensures next { OnOk result (IsAtNext (world_of self.now) step.entry table.new) }
        ensures failed { IfErr result (IsFailure (world_of self.now) (analysed self.now)) }
    {
        if !step.insn.falls() {
            return Ok(());
        }
        let next = (u32::from(step.place) + step.insn.len) as u16;
        if self.keeps_fresh(next, step.after.stack()) {
            return Err(FlowEnd::NoTyping(step.place, RuleFault::FreshKept));
        }
        match self.raise(table, next, step.after.regs(), step.after.stack()) {
            Ok(()) => Ok(()),
            Err(end) => Err(broken(step.place, end)),
        }
    }

    /// Leads to a target.
    fn raise_target(
        &self,
        table: &mut StateTable,
        step: FlowStep<'_>,
        target: i32,
    ) -> Result<(), FlowEnd>
        requires analysis { IsAnalysis self.now }
        requires held { AreHeld (world_of self.now) (analysed self.now) table.old }
        requires step { IsStep (world_of self.now) (analysed self.now) step }
        requires listed { Contains (targets (analysed self.now).code (record { place = step.place; insn = step.insn })) target }
        ensures goes { OnOk result (Goes (world_of self.now) (analysed self.now) table.old table.new) }
        ensures reached { OnOk result (IsAtTarget (world_of self.now) step.entry.after.now.frame table.new target) }
        ensures failed { IfErr result (IsFailure (world_of self.now) (analysed self.now)) }
    {
        let to = place_of(target);
        match self.raise(table, to, step.after.regs(), step.after.stack()) {
            Ok(()) => Ok(()),
            Err(end) => Err(broken(step.place, end)),
        }
    }

    /// Leads to the entries of the handlers that cover the place.
    pub fn raise_handlers(&self, table: &mut StateTable, step: FlowStep<'_>) -> Result<(), FlowEnd>
        requires analysis { IsAnalysis self.now }
        requires held { AreHeld (world_of self.now) (analysed self.now) table.old }
        requires step { IsStep (world_of self.now) (analysed self.now) step }
        ensures goes { OnOk result (Goes (world_of self.now) (analysed self.now) table.old table.new) }
        ensures caught { OnOk result
            (All
            (CaughtIsBelow (world_of self.now) step.entry.place step.entry.before.now.frame
            table.new) (analysed self.now).rec.handlers) }
        ensures failed { IfErr result (IsFailure (world_of self.now) (analysed self.now)) }
    {
        'handlers: for handler in self.subject.rec.handlers.as_slice() {
            if let Err(end) = self.raise_handler(table, step, *handler) {
                return Err(end);
            }
        }
        Ok(())
    }

    /// Leads to the targets of a branch or switch.
    pub fn raise_targets(&self, table: &mut StateTable, step: FlowStep<'_>) -> Result<(), FlowEnd>
        requires analysis { IsAnalysis self.now }
        requires held { AreHeld (world_of self.now) (analysed self.now) table.old }
        requires step { IsStep (world_of self.now) (analysed self.now) step }
        ensures goes { OnOk result (Goes (world_of self.now) (analysed self.now) table.old table.new) }
        ensures reached { OnOk result
            (All
            (IsAtTarget (world_of self.now) step.entry.after.now.frame table.new)
            (targets (analysed self.now).code
            (record { place = step.entry.place; insn = step.entry.insn }))) }
        ensures failed { IfErr result (IsFailure (world_of self.now) (analysed self.now)) }
    {
        let placed = Placed {
            place: step.place,
            insn: step.insn,
        };
        'targets: for target in Targets::of(self.subject.code, placed) {
            if let Err(end) = self.raise_target(table, step, target) {
                return Err(end);
            }
        }
        Ok(())
    }
}
