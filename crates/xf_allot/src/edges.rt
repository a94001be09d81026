ghost use Rattle.std.specs.Prelude.{◌≡◌, ◌<◌, length, OnOk};
ghost use Rattle.jc_control.specs.Flags.{Marks};
ghost use Rattle.jc_control.specs.WellFormed.{HasInstruction};
ghost use Rattle.jc_control.specs.Subject.{method};
ghost use Rattle.xf_allot.specs.Graph.{Adds, IsBound, IsCatch, IsFall, IsJump, IsOut, caught_at};
ghost use Rattle.xf_allot.specs.Subject.{IsSubject};
ghost use Rattle.xf_live.specs.declared.graph.Edge.{Edge};

use jc_control::{Flags, Subject, Targets, covers, place_of};
use jc_decode::Placed;
use std::alloc::AllocError;
use xf_live::Edge;

/// Where control may go from an instruction: after it, to its targets, and to where its handlers begin.
pub(crate) fn leave(
    edges: &mut Vec<Edge>,
    subject: &Subject<'_>,
    placed: Placed,
) -> Result<(), AllocError>
    requires subject { IsSubject subject.now }
    requires stands { HasInstruction subject.now.code.bytes.now placed }
    ensures { OnOk result (Adds (IsOut (method subject.now) placed) edges.old.items edges.new.items) }
{
    fall(edges, subject, placed)?;
    jump(edges, subject, placed)?;
    let node = catching(subject, placed.place);
    lead(edges, placed.place, node)
}

/// Where control goes from the node of the handlers that cover a place: to their entries where other handlers cover the
/// place before, and else to the node of that place.
pub(crate) fn catch(
    edges: &mut Vec<Edge>,
    subject: &Subject<'_>,
    bounds: &Flags,
    place: u16,
) -> Result<(), AllocError>
    requires subject { IsSubject subject.now }
    requires place { place < length subject.now.code.bytes.now }
    requires bounds { Marks (IsBound subject.now.rec.now.handlers) bounds.now }
    ensures { OnOk result (Adds (IsCatch (method subject.now) place) edges.old.items edges.new.items) }
{
    let node = catching(subject, place);
    if !bounds.has(u32::from(place)) {
        return lead(edges, node, node - 1);
    }
    'handlers: for handler in subject.rec.handlers.as_slice() {
        if !covers(*handler, place) {
            continue;
        }
        lead(edges, node, handler.entry)?;
    }
    Ok(())
}

// The node of the handlers that cover a place.
fn catching(subject: &Subject<'_>, place: u16) -> u16
    requires subject { IsSubject subject.now }
    requires place { place < length subject.now.code.bytes.now }
    ensures { result ≡ caught_at (length subject.now.code.bytes.now) place }
{
    subject.code.bytes.len() as u16 + 1 + place
}

// One edge more.
fn lead(edges: &mut Vec<Edge>, from: u16, to: u16) -> Result<(), AllocError>
    ensures { OnOk result (Adds (λ edge. edge ≡ record { «from» = from; to = to }) edges.old.items edges.new.items) }
{
    edges.push(Edge { from, to })?;
    Ok(())
}

// To the instruction after, where control may come there.
fn fall(edges: &mut Vec<Edge>, subject: &Subject<'_>, placed: Placed) -> Result<(), AllocError>
    requires subject { IsSubject subject.now }
    requires stands { HasInstruction subject.now.code.bytes.now placed }
    ensures { OnOk result (Adds (IsFall placed) edges.old.items edges.new.items) }
{
    let _ = subject;
    if !placed.insn.falls() {
        return Ok(());
    }
    lead(edges, placed.place, placed.place + placed.insn.len as u16)
}

// To its targets.
fn jump(edges: &mut Vec<Edge>, subject: &Subject<'_>, placed: Placed) -> Result<(), AllocError>
    requires subject { IsSubject subject.now }
    requires stands { HasInstruction subject.now.code.bytes.now placed }
    ensures { OnOk result (Adds (IsJump (method subject.now) placed) edges.old.items edges.new.items) }
{
    'targets: for target in Targets::of(subject.code, placed) {
        lead(edges, placed.place, place_of(target))?;
    }
    Ok(())
}
