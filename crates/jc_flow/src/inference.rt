ghost use Rattle.std.specs.Prelude.{◌≡◌, ◌<◌, None, false, length, replicate, IfOk, IfErr, OnOk, IsSomeAnd, slice_get};
ghost use Rattle.jc_base.specs.declared.ty.Ty.TheVariants.{Bottom, Top};
ghost use Rattle.jc_control.specs.Method.{IsMethodOf, method_in};
ghost use Rattle.jc_rules.specs.Flow.{IsLeastTyping, HasFlowTyping, At, FrameBelow, start_frame};
ghost use Rattle.jc_rules.specs.Typing.{state_at};
ghost use Rattle.jc_flow.specs.Progress.{AreHeld, AreClosed};
ghost use Rattle.jc_flow.specs.Fails.{IsFailure};
ghost use Rattle.jc_flow.specs.Infer.{AreReached, HaveRegisters, AreDerived, HaveKnownTypes, TellsEnd, LacksTyping, unformed_as};
ghost use Rattle.jc_flow.specs.Visit.{analysed, world_of, IsAnalysis};

use crate::analysis::Analysis;
use crate::edges::broken;
use crate::scratch::Scratch;
use crate::table::StateTable;
use jc_base::{MethodRec, Ty, World};
use jc_control::{ControlEnd, Flaw, Subject, flaws_decide};
use jc_decode::CodeEnd;
use jc_ops::RuleFault;
use jc_rules::{Typing, rule_laws, typing_laws};
use std::alloc::{AllocError, Global};

/// Why no typing of a method was found. Places are offsets in its code.
#[derive(Clone, Copy)]
pub enum FlowEnd {
    /// The instruction at the place can't be typed.
    NoTyping(u16, RuleFault),
    /// The place where no instruction is decoded, and why.
    Code(u16, CodeEnd),
    /// The place of a branch or switch, and a target of it where no instruction begins.
    BadTarget(u16, i32),
    /// Control falls past the end of the code after the instruction at the place.
    FallsOff(u16),
    /// The entry of a handler that is not well formed, and its number in the method's table.
    BadHandler(u16, u16),
    Memory,
}

impl From<AllocError> for FlowEnd {
    ghost use Rattle.jc_flow.specs.declared.inference.FlowEnd.TheVariants.{Memory};

    ghost from_gives = { λ f e. e ≡ Memory };

    fn from(_error: AllocError) -> FlowEnd {
        FlowEnd::Memory
    }
}

/// The least dataflow typing of a method with code, in which every register that is no argument starts as Top.
///
/// First the method's code, targets and handlers are tried, and then the places that wait. An end at a place names a
/// reason that holds there: the rule, an uninitialised object under the operands of a branch or switch, the end of
/// the code, or an edge, to the entry of a handler that covers the place, the instruction after or a target. The end
/// of the code is named only where neither of the first two holds. Beyond that, neither the order of the places nor
/// that of the reasons at one is promised.
pub fn infer(alloc: Global, world: &World<'_>, method: u16) -> Result<Typing, FlowEnd>
    requires { IsSomeAnd (slice_get world.now.methods method) (λ m. 0 < m.code_len) }
    ensures known { IsSomeAnd (method_in world.now method) (λ m. IsMethodOf world.now m) }
    ensures typing { IsSomeAnd (method_in world.now method) (λ m. IfOk result (λ t. IsLeastTyping world.now m Top (state_at t))) }
    // A place has a state exactly where control reaches it.
    ensures states { IsSomeAnd (method_in world.now method) (λ m. IfOk result (λ t. AreReached m t)) }
    ensures registers { IsSomeAnd (method_in world.now method) (λ m. IfOk result (HaveRegisters m)) }
    // Each state is a derived one: each other typing is above it. Its types name classes of the world.
    ensures derived { IsSomeAnd (method_in world.now method) (λ m. IfOk result (AreDerived world.now m)) }
    ensures types { IsSomeAnd (method_in world.now method) (λ m. IfOk result (HaveKnownTypes world.now)) }
    // A typing then exists too in which unset registers hold no value.
    ensures unset { IsSomeAnd (method_in world.now method) (λ m. OnOk result (HasFlowTyping world.now m Bottom)) }
    // But for one out of memory, an end says that there is no typing, and why.
    ensures none { IsSomeAnd (method_in world.now method) (λ m. IfErr result (LacksTyping world.now m)) }
    ensures end { IsSomeAnd (method_in world.now method) (λ m. IfErr result (TellsEnd world.now m)) }
{
    let subject = Subject::of(world, method);
    // The facts that hold of each world and of its rules, and of each method.
    rule_laws(subject.world);
    flaws_decide();
    typing_laws(subject.world);
    let control = match subject.control_flow(alloc) {
        Ok(control) => control,
        Err(end) => return Err(unformed(end)),
    };
    let analysis = Analysis {
        subject,
        control: &control,
    };
    match analysis.settled(alloc) {
        Ok(table) => Ok(table.into_typing()),
        Err(end) => Err(end),
    }
}

/// Why it is not known where control goes in the method.
fn unformed(end: ControlEnd) -> FlowEnd
    ensures { result ≡ unformed_as end }
{
    match end {
        ControlEnd::Flawed(flaw) => match flaw {
            Flaw::Code(place, why) => FlowEnd::Code(place, why),
            Flaw::BadTarget(place, target) => FlowEnd::BadTarget(place, target),
            Flaw::BadHandler(entry, number) => FlowEnd::BadHandler(entry, number),
        },
        ControlEnd::Memory => FlowEnd::Memory,
    }
}

/// The registers at a method's start.
fn start_regs(alloc: Global, rec: &MethodRec) -> Result<Vec<Ty>, AllocError>
    ensures { IfOk result (λ v. v.items ≡ (start_frame rec.now Top).regs) }
{
    let unset: Vec<Ty> = vec![in alloc; Ty::Top; rec.max_locals as usize]?;
    let mut regs = Vec::new(alloc);
    if !rec.is_static {
        regs.push(Ty::Class(rec.class))?;
    }
    regs.extend_from_slice(rec.sig.args.as_slice())?;
    regs.extend_from_slice(unset.as_slice())?;
    Ok(regs)
}

impl Analysis<'_> {
    /// Puts the frame of the method's start at place 0 of an empty table.
    fn begin(&self, alloc: Global, table: &mut StateTable) -> Result<(), FlowEnd>
        requires analysis { IsAnalysis self.now }
        requires empty { table.old
            ≡ record
            { states = replicate (length (analysed self.now).code) None; pending = replicate (length (analysed self.now).code) false } }
        ensures held { OnOk result (AreHeld (world_of self.now) (analysed self.now) table.new) }
        ensures closed { OnOk result (AreClosed (world_of self.now) (analysed self.now) table.new) }
        ensures start { OnOk result
            (At (state_at table.new.states) 0
            (FrameBelow (world_of self.now).classes (start_frame (analysed self.now).rec Top))) }
        ensures failed { IfErr result (IsFailure (world_of self.now) (analysed self.now)) }
    {
        let regs = match start_regs(alloc, self.subject.rec) {
            Ok(regs) => regs,
            Err(_) => return Err(FlowEnd::Memory),
        };
        match self.raise(table, 0, regs.as_slice(), &[]) {
            Ok(()) => Ok(()),
            Err(end) => Err(broken(0, end)),
        }
    }

    /// The table once no place waits.
    fn settled(&self, alloc: Global) -> Result<StateTable, FlowEnd>
        requires { IsAnalysis self.now }
        ensures typing { IfOk result (λ t. IsLeastTyping (world_of self.now) (analysed self.now) Top (state_at t.states)) }
        ensures reached { IfOk result (λ t. AreReached (analysed self.now) t.states) }
        ensures registers { IfOk result (λ t. HaveRegisters (analysed self.now) t.states) }
        ensures derived { IfOk result (λ t. AreDerived (world_of self.now) (analysed self.now) t.states) }
        ensures known { IfOk result (λ t. HaveKnownTypes (world_of self.now) t.states) }
        ensures failed { IfErr result (IsFailure (world_of self.now) (analysed self.now)) }
    {
        let registers = self.subject.rec.nargs + self.subject.rec.max_locals;
        let mut table = StateTable::new(alloc, self.subject.code.bytes.len())?;
        let mut before = Scratch::new(alloc, registers, self.subject.rec.max_stack)?;
        let mut after = Scratch::new(alloc, registers, self.subject.rec.max_stack)?;
        self.begin(alloc, &mut table)?;
        self.settle(&mut table, &mut before, &mut after)?;
        Ok(table)
    }
}
