ghost use Rattle.std.specs.Prelude.{◌≡◌, ◌<◌, ◌+◌, length, replicate, slice_set, true, false, [], All, Contains, IsTrue, IfOk, IfSome};
ghost use Rattle.std.specs.Prelude.{IfNone, OnOk};
ghost use Rattle.jc_decode.specs.Listing.{falls, targets};
ghost use Rattle.jc_control.specs.WellFormed.{HasInstruction, IsTargetPlace, IsHandlerOf, IsWellFormed};
ghost use Rattle.jc_control.specs.Control.{IsReached};
ghost use Rattle.jc_control.specs.Flags.{IsFlagged};
ghost use Rattle.jc_control.specs.Subject.{method};
ghost use Rattle.jc_control.specs.Traversal.{ReachesPlace, TakesUp, Grows, IsSoundTraversal, IsLedTo, IsCaught, IsClosedAt, IsDone};
ghost use Rattle.jc_control.specs.Traversal.{found};
ghost use Rattle.jc_control.specs.ControlFlow.{IsControlFlow};
ghost use Rattle.jc_control.specs.Listing.{IsListingOf};

use crate::control::{covers, place_of};
use crate::flags::Flags;
use crate::listing::Listing;
use crate::subject::Subject;
use crate::targets::Targets;
use jc_base::Handler;
use jc_decode::Placed;
use std::alloc::{AllocError, Global};

/// What a traversal of the places that control reaches has found.
#[derive(Drop)]
pub struct Traversal {
    pub reached: Flags,
    pub leaders: Flags,
    /// The reached places whose successors are still to be looked at.
    pub pending: Vec<u16>,
}

impl Traversal {
    /// Finds all places that control reaches.
    pub fn of(
        alloc: Global,
        subject: Subject<'_>,
        listing: &Listing,
    ) -> Result<Traversal, AllocError>
        requires formed { IsWellFormed (method subject) }
        requires listing { IsListingOf subject.code.bytes.now listing.now }
        ensures { IfOk result (λ s. IsControlFlow (method subject.entry) (found s listing.now)) }
    {
        let mut traversal = Traversal::new(alloc, subject.code.bytes.len() + 1)?;
        traversal.reach(0)?;
        'work: while let Some(place) = traversal.take() {
            traversal.visit(subject, listing, place)?;
        }
        Ok(traversal)
    }

    fn new(alloc: Global, size: usize) -> Result<Traversal, AllocError>
        ensures reached { IfOk result (λ s. s.reached ≡ replicate size false) }
        ensures leaders { IfOk result (λ s. s.leaders ≡ replicate size false) }
        ensures pending { IfOk result (λ s. s.pending.items ≡ []) }
    {
        Ok(Traversal {
            reached: Flags::new(alloc, size)?,
            leaders: Flags::new(alloc, size)?,
            pending: Vec::new(alloc),
        })
    }

    /// Takes up a pending place.
    fn take(&mut self) -> Option<u16>
        ensures some { IfSome result (λ place. TakesUp place self.old self.new) }
        ensures none { IfNone result (IsDone self.old self.new) }
    {
        self.pending.pop()
    }

    /// Control reaches a place.
    fn reach(&mut self, place: u16) -> Result<(), AllocError>
        requires { place < length self.old.reached }
        ensures reached { OnOk result (ReachesPlace place self.old self.new) }
        ensures leaders { self.new.leaders ≡ self.old.leaders }
    {
        if self.reached.has(u32::from(place)) {
            return Ok(());
        }
        self.pending.push(place)?;
        self.reached.set(place);
        Ok(())
    }

    /// Control is led to a place, by a jump or to a handler.
    fn lead(&mut self, place: u16) -> Result<(), AllocError>
        requires reached { place < length self.old.reached }
        requires leaders { place < length self.old.leaders }
        ensures reached { OnOk result (ReachesPlace place self.old self.new) }
        ensures leaders { self.new.leaders ≡ slice_set self.old.leaders place true }
    {
        self.leaders.set(place);
        self.reach(place)
    }

    /// Finds what is after a reached instruction that control may leave there.
    fn fall(&mut self, subject: Subject<'_>, placed: Placed) -> Result<(), AllocError>
        requires stands { HasInstruction subject.code.bytes.now placed }
        requires reached { IsReached (method subject) placed.place }
        requires sound { IsSoundTraversal (method subject) self.old }
        ensures sound { OnOk result (IsSoundTraversal (method subject.entry) self.new) }
        ensures grows { OnOk result (Grows self.old self.new) }
        ensures next { OnOk result (IsTrue (falls placed.insn.op) → IsFlagged self.new.reached (placed.place + placed.insn.len)) }
    {
        if !placed.insn.falls() {
            return Ok(());
        }
        self.reach(placed.place + placed.insn.len as u16)
    }

    /// Finds the targets of a reached instruction.
    fn jump(&mut self, subject: Subject<'_>, placed: Placed) -> Result<(), AllocError>
        requires formed { IsWellFormed (method subject) }
        requires stands { HasInstruction subject.code.bytes.now placed }
        requires reached { IsReached (method subject) placed.place }
        requires sound { IsSoundTraversal (method subject) self.old }
        ensures sound { OnOk result (IsSoundTraversal (method subject.entry) self.new) }
        ensures grows { OnOk result (Grows self.old self.new) }
        ensures led { OnOk result (All (IsLedTo self.new) (targets subject.entry.code.bytes.now placed)) }
    {
        'targets: for target in Targets::of(subject.code, placed) {
            self.follow(subject, placed, target)?;
        }
        Ok(())
    }

    /// Finds a target of a reached instruction.
    fn follow(
        &mut self,
        subject: Subject<'_>,
        placed: Placed,
        target: i32,
    ) -> Result<(), AllocError>
        requires formed { IsTargetPlace subject.code.bytes.now target }
        requires stands { HasInstruction subject.code.bytes.now placed }
        requires leads { Contains (targets subject.code.bytes.now placed) target }
        requires reached { IsReached (method subject) placed.place }
        requires sound { IsSoundTraversal (method subject) self.old }
        ensures sound { OnOk result (IsSoundTraversal (method subject.entry) self.new) }
        ensures grows { OnOk result (Grows self.old self.new) }
        ensures led { OnOk result (IsLedTo self.new target) }
    {
        self.lead(place_of(target))
    }

    /// Finds the entries of the handlers that cover a reached place.
    fn catch(&mut self, subject: Subject<'_>, place: u16) -> Result<(), AllocError>
        requires formed { IsWellFormed (method subject) }
        requires reached { IsReached (method subject) place }
        requires sound { IsSoundTraversal (method subject) self.old }
        ensures sound { OnOk result (IsSoundTraversal (method subject.entry) self.new) }
        ensures grows { OnOk result (Grows self.old self.new) }
        ensures caught { OnOk result (All (IsCaught self.new place) subject.entry.rec.now.handlers) }
    {
        'handlers: for handler in subject.rec.handlers.as_slice() {
            self.enter(subject, *handler, place)?;
        }
        Ok(())
    }

    /// Finds the entry of a handler that covers a reached place.
    fn enter(
        &mut self,
        subject: Subject<'_>,
        handler: Handler,
        place: u16,
    ) -> Result<(), AllocError>
        requires formed { IsHandlerOf subject.code.bytes.now handler }
        requires stands { Contains subject.rec.now.handlers handler }
        requires reached { IsReached (method subject) place }
        requires sound { IsSoundTraversal (method subject) self.old }
        ensures sound { OnOk result (IsSoundTraversal (method subject.entry) self.new) }
        ensures grows { OnOk result (Grows self.old self.new) }
        ensures caught { OnOk result (IsCaught self.new place handler) }
    {
        if !covers(handler, place) {
            return Ok(());
        }
        self.lead(handler.entry)
    }

    /// Finds all that follows a reached place.
    fn visit(
        &mut self,
        subject: Subject<'_>,
        listing: &Listing,
        place: u16,
    ) -> Result<(), AllocError>
        requires formed { IsWellFormed (method subject) }
        requires listing { IsListingOf subject.code.bytes.now listing.now }
        requires reached { IsReached (method subject) place }
        requires sound { IsSoundTraversal (method subject) self.old }
        ensures sound { OnOk result (IsSoundTraversal (method subject.entry) self.new) }
        ensures grows { OnOk result (Grows self.old self.new) }
        ensures closed { OnOk result (IsClosedAt (method subject.entry) self.new place) }
    {
        let insn = match listing.insn(subject.code, place) {
            Ok(insn) => insn,
            Err(_) => return Ok(()),
        };
        let placed = Placed { place, insn };
        self.fall(subject, placed)?;
        self.jump(subject, placed)?;
        self.catch(subject, place)
    }
}
