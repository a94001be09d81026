ghost use Rattle.std.specs.Prelude.{◌≡◌, ◌↔◌, ◌+◌, ◌<◌, ◌≤◌, ◌⊎◌, ◌++◌, ℕ, ⊤, List, Some, None, length, take, drop, reverse, replicate};
ghost use Rattle.std.specs.Prelude.{All, IfOk, OnOk, OnErr, IsSomeAnd, is_some, option_map, slice_get, slice_set, IsTrue, IfSome};
ghost use Rattle.jc_base.specs.Order.{IsKnown};
ghost use Rattle.jc_rules.specs.Flow.{At};
ghost use Rattle.jc_rules.specs.Held.{AreSpans, TellRegisters, AreOfOneGroup, IsGroupAt, lent, span_end, frame_of_span, span_at};
ghost use Rattle.jc_rules.specs.Typing.{state_at, HaveSameRegisters, IsMerged, IsMergedAt};

use crate::demand::HeldFrame;
use crate::state::{Merged, merge_cells, same_types};
use jc_base::{Classes, Ty};
use std::alloc::{AllocError, Global};
use std::marker::Model;

/// A dataflow typing of a method: a state for each place that control reaches.
#[derive(Drop)]
pub struct Typing {
    /// The cells of all states.
    cells: Vec<Ty>,
    /// By place which of them are the state there.
    spans: Vec<Option<Span>>,
    /// By place a number, of which equal ones tell of equal registers; none where that was not asked.
    groups: Vec<usize>,
}

/// The cells of one state: its registers, and then the stack with its top last.
#[derive(Clone, Copy)]
struct Span {
    at: usize,
    registers: usize,
    depth: usize,
}

impl Model for Typing {
    ghost use Rattle.std.specs.Prelude.{List, Option};
    ghost use Rattle.jc_rules.specs.Demand.{Frame};

    ghost Value = { List (Option Frame) };

    ghost use Rattle.jc_rules.specs.Held.{AreHeld, frames_at};

    ghost view = { λ t. frames_at t.cells.items t.spans.items };

    ghost invariant = { λ t. AreHeld t.cells.items t.spans.items t.groups.items };
}

impl Typing {
    /// No state at any of so many places.
    pub fn new(alloc: Global, places: usize) -> Result<Typing, AllocError>
        ensures { IfOk result (λ t. t ≡ replicate places None) }
    {
        let spans = vec![in alloc; None; places]?;
        Ok(Typing {
            cells: Vec::new(alloc),
            spans,
            groups: Vec::new(alloc),
        })
    }

    /// The state before the instruction at a place, where control reaches it.
    pub fn state(&self, place: u16) -> Option<HeldFrame<'_>>
        ensures { option_map lent result ≡ state_at self.now place }
    {
        match span_of(&self.spans, place) {
            Some(span) => Some(lend(&self.cells, span)),
            None => None,
        }
    }

    /// Puts a state at a place: the registers, and the stack with its top last.
    pub fn put(&mut self, place: u16, regs: &[Ty], stack: &[Ty]) -> Result<(), AllocError>
        requires place { place < length self.old }
        requires few { length stack.now ≤ 255 }
        ensures put { OnOk result (self.new ≡ slice_set self.old place (Some (record { regs = regs.now; stack = reverse stack.now }))) }
        ensures kept { OnErr result (self.new ≡ self.old) }
    {
        self.groups.clear();
        let at = self.cells.len();
        append(&mut self.cells, regs, stack)?;
        self.spans[place as usize] = Some(Span {
            at,
            registers: regs.len(),
            depth: stack.len(),
        });
        Ok(())
    }

    /// Raises the state at a place to the join with these registers and this stack, whose top is last. Where the
    /// stacks do not merge it is left anyhow.
    pub fn merge(&mut self, classes: &Classes, place: u16, regs: &[Ty], stack: &[Ty]) -> Merged
        requires count { IsSomeAnd (state_at self.old place) (λ f. length regs.now ≡ length f.regs) }
        requires regs_known { All (IsKnown classes.now) regs.now }
        requires stack_known { All (IsKnown classes.now) stack.now }
        requires own_regs_known { IsSomeAnd (state_at self.old place) (λ f. All (IsKnown classes.now) f.regs) }
        requires own_stack_known { IsSomeAnd (state_at self.old place) (λ f. All (IsKnown classes.now) f.stack) }
        ensures { IsMergedAt classes.now self.old place (record { regs = regs.now; stack = reverse stack.now }) self.new result }
    {
        self.groups.clear();
        match span_of(&self.spans, place) {
            Some(span) => merge_span(classes, &mut self.cells, span, regs, stack),
            None => unreachable!(),
        }
    }

    /// The same, of which it is known soon where registers are the same. Each reached place is compared with the one before.
    pub fn grouped(self, alloc: Global) -> Result<Typing, AllocError>
        ensures { IfOk result (λ t. t ≡ self) }
    {
        let groups = groups_of(alloc, &self.cells, &self.spans)?;
        Ok(Typing {
            cells: self.cells,
            spans: self.spans,
            groups,
        })
    }

    /// Whether control reaches two places, and each register has one type at both.
    pub fn has_same_registers(&self, place: u16, other: u16) -> bool
        ensures { IsTrue result ↔ HaveSameRegisters (state_at self.now place) (state_at self.now other) }
    {
        let Some(span) = span_of(&self.spans, place) else {
            return false;
        };
        let Some(beside) = span_of(&self.spans, other) else {
            return false;
        };
        are_of_one_group(&self.groups, place, other) || same_registers(&self.cells, span, beside)
    }

    /// Whether control reaches the place.
    pub fn reached(&self, place: u16) -> bool
        ensures { result ≡ is_some (state_at self.now place) }
    {
        self.state(place).is_some()
    }

    /// The type of a register before the instruction at a place.
    pub fn reg(&self, place: u16, x: u8) -> Ty
        requires { At (state_at self.now) place (λ f. x < length f.regs) }
        ensures { At (state_at self.now) place (λ f. slice_get f.regs x ≡ Some result) }
    {
        match self.state(place) {
            Some(state) => state.regs()[x as usize],
            None => unreachable!(),
        }
    }

    /// The number of cells on the stack before the instruction at a place.
    pub fn depth(&self, place: u16) -> u8
        requires { At (state_at self.now) place (λ f. ⊤) }
        ensures { At (state_at self.now) place (λ f. length f.stack ≡ result) }
    {
        match self.state(place) {
            Some(state) => state.stack().len() as u8,
            None => unreachable!(),
        }
    }

    /// The type of a cell of the stack before the instruction at a place, counted from the bottom, from 0.
    pub fn cell(&self, place: u16, i: u8) -> Ty
        requires { At (state_at self.now) place (λ f. i < length f.stack) }
        ensures { At (state_at self.now) place (λ f. slice_get (reverse f.stack) i ≡ Some result) }
    {
        match self.state(place) {
            Some(state) => state.stack()[i as usize],
            None => unreachable!(),
        }
    }
}

/// The span of a place, where there is one.
fn span_of(spans: &[Option<Span>], place: u16) -> Option<Span>
    ensures { result ≡ span_at spans.now place }
{
    *spans.get(place as usize)?
}

/// The state of a span.
fn lend<'a>(cells: &'a [Ty], span: Span) -> HeldFrame<'a>
    requires within { span_end span ≤ length cells.now }
    requires few { span.depth ≤ 255 }
    ensures { lent result ≡ frame_of_span cells.now span }
{
    let own = &cells[span.at..span.at + (span.registers + span.depth)];
    HeldFrame {
        regs: &own[..span.registers],
        stack: &own[span.registers..],
    }
}

/// Whether the registers of two spans are the same.
fn same_registers(cells: &[Ty], span: Span, other: Span) -> bool
    requires within { span_end span ≤ length cells.now }
    requires few { span.depth ≤ 255 }
    requires other_within { span_end other ≤ length cells.now }
    requires other_few { other.depth ≤ 255 }
    ensures { IsTrue result ↔ ((frame_of_span cells.now span).regs ≡ (frame_of_span cells.now other).regs) }
{
    same_types(lend(cells, span).regs, lend(cells, other).regs)
}

/// Whether two places have one number.
fn are_of_one_group(groups: &[usize], place: u16, other: u16) -> bool
    ensures { IsTrue result → AreOfOneGroup groups.now place other }
{
    match (groups.get(place as usize), groups.get(other as usize)) {
        (Some(group), Some(beside)) => *group == *beside,
        _ => false,
    }
}

/// The number of a place: that of the last reached place, where the registers are the same there, and else its own.
fn group_at(
    cells: &[Ty],
    spans: &[Option<Span>],
    groups: &[usize],
    last: Option<usize>,
    place: usize,
) -> usize
    requires spans { AreSpans cells.now spans.now }
    requires place { place < length spans.now }
    requires last { IfSome last (λ q. q < length groups.now) }
    requires groups { length groups.now ≤ length spans.now }
    ensures { IsGroupAt cells.now spans.now groups.now place result }
{
    let Some(before) = last else {
        return place;
    };
    let Some(span) = spans[place] else {
        return place;
    };
    let Some(other) = spans[before] else {
        return place;
    };
    if same_registers(cells, span, other) {
        groups[before]
    } else {
        place
    }
}

/// By place a number, of which equal ones tell of equal registers.
fn groups_of(alloc: Global, cells: &[Ty], spans: &[Option<Span>]) -> Result<Vec<usize>, AllocError>
    requires { AreSpans cells.now spans.now }
    ensures { IfOk result (λ groups. TellRegisters cells.now spans.now groups.items) }
{
    let mut groups = Vec::new(alloc);
    let mut last = None;
    'places: for place in 0..spans.len() {
        let group = group_at(cells, spans, groups.as_slice(), last, place);
        groups.push(group)?;
        if spans[place].is_some() {
            last = Some(place);
        }
    }
    Ok(groups)
}

/// Adds registers and a stack to the cells.
fn append(cells: &mut Vec<Ty>, regs: &[Ty], stack: &[Ty]) -> Result<(), AllocError>
    ensures value { OnOk result (cells.new.items ≡ cells.old.items ++ (regs.now ++ stack.now)) }
    ensures kept { (more : List Ty) × (cells.new.items ≡ cells.old.items ++ more) }
{
    cells.extend_from_slice(regs)?;
    cells.extend_from_slice(stack)?;
    Ok(())
}

/// Raises the frame of a span to the join with another, where their stacks merge.
fn merge_span(classes: &Classes, cells: &mut [Ty], span: Span, regs: &[Ty], stack: &[Ty]) -> Merged
    requires within { span_end span ≤ length cells.old }
    requires few { span.depth ≤ 255 }
    requires count { length regs.now ≡ span.registers }
    requires regs_known { All (IsKnown classes.now) regs.now }
    requires stack_known { All (IsKnown classes.now) stack.now }
    requires own_regs_known { All (IsKnown classes.now) (frame_of_span cells.old span).regs }
    requires own_stack_known { All (IsKnown classes.now) (frame_of_span cells.old span).stack }
    ensures merged { IsMerged classes.now (frame_of_span cells.old span)
        (record { regs = regs.now; stack = reverse stack.now })
        (frame_of_span cells.new span) result }
    ensures len { length cells.new ≡ length cells.old }
    // The cells before and after the span stay.
    ensures elsewhere { (b n : ℕ) → (b + n ≤ span.at) ⊎ (span_end span ≤ b) → take n (drop b cells.new) ≡ take n (drop b cells.old) }
{
    let (_, from) = cells.split_at_mut(span.at);
    let (own, _) = from.split_at_mut(span.registers + span.depth);
    merge_cells(classes, own, span.registers, regs, stack)
}
