ghost use Rattle.std.specs.Prelude.{◌≡◌, ◌↔◌, ◌+◌, ◌≤◌, true, [], length, IsTrue, OnOk, OnErr, Ok, Some};
ghost use Rattle.jc_control.specs.Method.{IsMethodOf};
ghost use Rattle.jc_rules.specs.Typing.{HaveSameRegisters};
ghost use Rattle.xf_homes.specs.Home.{register_count};
ghost use Rattle.xf_homes.specs.Walk.{local_of, is_covered, caught_events, caught_of, local_events, locals_events, cells_events};
ghost use Rattle.xf_homes.specs.Walk.{operands_of, operands_at, keeps_stack, place_events, code_events, has, with_home_of_value};
ghost use Rattle.xf_homes.specs.Walk.{with_events};
ghost use Rattle.xf_homes.specs.Asked.{HandlersAreAsked, LocalsAreKnown, NoneIsNew, AreStill, is_new, knows, last_after, last_local};
ghost use Rattle.xf_homes.specs.Subject.{walked, frames_of};

use crate::home::{Home, value_at};
use cap_bytes::View;
use indexmap::IndexSet;
use jc_base::{Handler, MethodRec, Ty, World, same_type, types_are_ordered};
use jc_control::{ControlFlow, covers};
use jc_decode::{Instructions, Placed};
use jc_ops::{Branch, Operation, Site, Width, resolve};
use jc_rules::Typing;
use std::alloc::AllocError;

/// A walk over the code of a method, at whose reached places its types are asked for.
#[derive(Clone, Copy)]
pub struct HomeWalk<'a> {
    pub world: &'a World<'a>,
    pub number: u16,
    pub rec: &'a MethodRec,
    pub code: View<'a>,
    pub typing: &'a Typing,
    pub control: &'a ControlFlow,
}

/// Whether a home is among these.
#[tactic(auto, unfolding(crate::specs::Walk::has))]
pub fn has(homes: &IndexSet<Home>, home: Home) -> bool
    ensures { result ≡ has homes.now.keys home }
{
    homes.contains(&home)
}

/// Keeps the value of a slot, if it has one that is not kept yet.
#[tactic(auto, unfolding(crate::specs::Walk::has))]
fn keep_value(homes: &mut IndexSet<Home>, slot: u16, value: Option<Ty>) -> Result<(), AllocError>
    ensures { OnOk result (homes.new.keys ≡ with_home_of_value homes.old.keys slot value) }
{
    if let Some(ty) = value {
        homes.insert(Home { slot, ty })?;
    }
    Ok(())
}

fn is_covered(handler: Handler, place: u16) -> bool
    ensures { result ≡ is_covered handler place }
{
    covers(handler, place)
}

/// Whether two values are the same, or there is none in both.
pub fn same_value(a: Option<Ty>, b: Option<Ty>) -> bool
    ensures { IsTrue result → a ≡ b }
{
    match (a, b) {
        (Some(ty), Some(other)) => same_type(ty, other),
        (None, None) => true,
        _ => false,
    }
}

/// Whether a handler covers a place, and not the last one that control reaches before it.
#[tactic(auto, unfolding(crate::specs::Asked::is_new))]
pub fn is_new(handler: Handler, place: u16, last: Option<u16>) -> bool
    ensures { result ≡ is_new handler place last }
{
    let covered_last = match last {
        Some(before) => is_covered(handler, before),
        None => false,
    };
    is_covered(handler, place) && !covered_last
}

/// The handlers that are asked at a place: all, where one is new there, and else none.
#[tactic(auto, unfolding(crate::specs::Asked::NoneIsNew))]
fn asked(handlers: &[Handler], place: u16, last: Option<u16>) -> &[Handler]
    ensures { HandlersAreAsked handlers.entry.now place last result.now }
{
    'handlers: for handler in handlers {
        if is_new(*handler, place, last) {
            return handlers;
        }
    }
    &handlers[..0]
}

/// How many operands a conditional branch or a switch takes; another operation is neither.
pub fn operands(world: &World<'_>, operation: Operation) -> Option<u8>
    ensures { result ≡ operands_of world.now (Ok operation) }
{
    match operation {
        Operation::Branch(Branch::Always) => None,
        Operation::Branch(Branch::Zero(_) | Branch::Null(_)) => Some(1),
        Operation::Branch(Branch::References(_) | Branch::Shorts(_)) => Some(2),
        Operation::Switch(Width::Short) => Some(1),
        Operation::Switch(Width::Int) => Some(2),
        _ => None,
    }
}

/// Keeps each value of a list of cells, at slots from a slot on.
#[tactic(auto, unfolding(crate::specs::Walk::with_events))]
fn keep_cells(
    homes: &mut IndexSet<Home>,
    slot: u16,
    place: u16,
    cells: &[Ty],
) -> Result<(), AllocError>
    requires few { slot + length cells.now ≤ 65535 }
    ensures { OnOk result
        (homes.new.keys ≡ with_events homes.old.keys (cells_events place slot cells.now 0 (length cells.now))) }
{
    'values: for n in 0..cells.len() as u16 {
        keep_value(homes, slot + n, value_at(cells, n))?;
    }
    Ok(())
}

impl HomeWalk<'_> {
    /// The value of a local at a place that control reaches.
    pub fn local(&self, place: u16, x: u16) -> Option<Ty>
        ensures { result ≡ local_of (frames_of self.now place) x }
    {
        match self.typing.state(place) {
            Some(state) => value_at(state.regs(), x),
            None => None,
        }
    }

    /// The value of a local at the last place that control reaches, if there is one.
    fn last_local(&self, last: Option<u16>, x: u16) -> Option<Ty>
        ensures { result ≡ last_local (frames_of self.now) last x }
    {
        match last {
            Some(before) => self.local(before, x),
            None => None,
        }
    }

    /// Keeps the value of a local at a place, where it is not the one at the last place, which is kept.
    fn keep_own(
        &self,
        homes: &mut IndexSet<Home>,
        place: u16,
        x: u16,
        last: Option<u16>,
    ) -> Result<(), AllocError>
        requires { knows homes.old.keys x (last_local (frames_of self.now) last x) ≡ true }
        ensures { OnOk result (homes.new.keys ≡ with_home_of_value homes.old.keys x (local_of (frames_of self.now place) x)) }
    {
        let value = self.local(place, x);
        if same_value(value, self.last_local(last, x)) {
            return Ok(());
        }
        keep_value(homes, x, value)
    }

    /// The value of a local at the entry of a handler that covers the place.
    fn caught(&self, place: u16, x: u16, handler: Handler) -> Option<Ty>
        ensures { result ≡ caught_of (frames_of self.now) place x handler }
    {
        if is_covered(handler, place) {
            self.local(handler.entry, x)
        } else {
            None
        }
    }

    /// Keeps the values of a local at the entries of handlers that cover a place.
    #[tactic(auto, unfolding(crate::specs::Walk::with_events))]
    fn keep_caught(
        &self,
        homes: &mut IndexSet<Home>,
        place: u16,
        x: u16,
        handlers: &[Handler],
    ) -> Result<(), AllocError>
        ensures { OnOk result
            (homes.new.keys
            ≡ with_events homes.old.keys (caught_events (frames_of self.now) place x 0 handlers.now)) }
    {
        let mut known = None;
        'handlers: for handler in handlers {
            let value = self.caught(place, x, *handler);
            if value.is_none() || same_value(value, known) {
                continue;
            }
            keep_value(homes, x, value)?;
            known = value;
        }
        Ok(())
    }

    /// Keeps what is needed for a local at a place: its type there, then those at the handlers that cover it, in the order of
    /// the table. What is kept already stays as it is. Where there is no memory the list is empty.
    #[tactic(auto, unfolding(crate::specs::Walk::with_events, crate::specs::Walk::local_events))]
    pub fn keep_local(
        &self,
        homes: &mut IndexSet<Home>,
        place: u16,
        x: u16,
    ) -> Result<(), AllocError>
        ensures kept { OnOk result
            (homes.new.keys
            ≡ with_events homes.old.keys (local_events (frames_of self.now) self.now.rec.now.handlers place x)) }
        ensures empty { OnErr result (homes.new.keys ≡ []) }
    {
        let handlers = self.rec.handlers.as_slice();
        if keep_value(homes, x, self.local(place, x)).is_ok()
            && self.keep_caught(homes, place, x, handlers).is_ok()
        {
            return Ok(());
        }
        homes.clear();
        Err(AllocError)
    }

    /// How many registers the method has.
    pub fn registers(&self) -> u16
        ensures is { result ≡ register_count self.now.rec.now }
        ensures few { result ≤ 510 }
    {
        u16::from(self.rec.nargs) + u16::from(self.rec.max_locals)
    }

    /// The operands of the instruction at a place, if it is a conditional branch or a switch.
    fn operands_at(&self, placed: Placed) -> Option<u8>
        requires { IsMethodOf self.now.world.now (walked self.now) }
        ensures { result ≡ operands_at self.now.world.now self.now.rec.now placed }
    {
        let site = Site {
            method: self.number,
            place: placed.place,
        };
        match resolve(self.world, site, placed.insn) {
            Ok(operation) => operands(self.world, operation),
            Err(_) => None,
        }
    }

    /// Whether the stack is kept over a branch: at a leader, and where a conditional branch or a switch takes not all.
    fn keeps_stack(&self, placed: Placed, depth: u8) -> bool
        requires { IsMethodOf self.now.world.now (walked self.now) }
        ensures { result ≡ keeps_stack self.now.world.now self.now.rec.now self.now.control.now.leaders placed depth }
    {
        if self.control.is_leader(placed.place) {
            return true;
        }
        match self.operands_at(placed) {
            Some(operands) => operands < depth,
            None => false,
        }
    }

    /// Whether control reaches two places, and each register has one type at both.
    pub fn has_same_registers(&self, place: u16, other: u16) -> bool
        ensures { IsTrue result ↔ HaveSameRegisters (frames_of self.now place) (frames_of self.now other) }
    {
        self.typing.has_same_registers(place, other)
    }

    /// Whether no local's value differs from that at the last place.
    #[tactic(auto, using(crate::proofs::Asking::same_locals))]
    fn is_still(&self, place: u16, last: Option<u16>) -> bool
        ensures { IsTrue result → AreStill (frames_of self.now) place last }
    {
        match last {
            Some(before) => self.has_same_registers(place, before),
            None => false,
        }
    }

    /// Keeps what is needed for locals at a place: of each handler where it first covers one.
    fn keep_needed(
        &self,
        homes: &mut IndexSet<Home>,
        place: u16,
        last: Option<u16>,
    ) -> Result<(), AllocError>
        requires { LocalsAreKnown (frames_of self.now) (register_count self.now.rec.now) homes.old.keys self.now.rec.now.handlers last }
        ensures { OnOk result
            (homes.new.keys
            ≡ with_events homes.old.keys
            (locals_events (frames_of self.now) self.now.rec.now.handlers place 0 (register_count self.now.rec.now))) }
    {
        let handlers = asked(self.rec.handlers.as_slice(), place, last);
        if handlers.is_empty() && self.is_still(place, last) {
            return Ok(());
        }
        'locals: for x in 0..self.registers() {
            self.keep_own(homes, place, x, last)?;
            self.keep_caught(homes, place, x, handlers)?;
        }
        Ok(())
    }

    /// Keeps what is met at an instruction, if control reaches it.
    #[tactic(auto, unfolding(crate::specs::Walk::place_events, crate::specs::Walk::with_events))]
    fn keep_place(
        &self,
        homes: &mut IndexSet<Home>,
        placed: Placed,
        last: Option<u16>,
    ) -> Result<(), AllocError>
        requires method { IsMethodOf self.now.world.now (walked self.now) }
        requires known { LocalsAreKnown (frames_of self.now)
            (register_count self.now.rec.now) homes.old.keys self.now.rec.now.handlers last }
        ensures { OnOk result
            (homes.new.keys
            ≡ with_events homes.old.keys
            (place_events self.now.world.now (walked self.now) (frames_of self.now) self.now.control.now.leaders placed)) }
    {
        let Some(state) = self.typing.state(placed.place) else {
            return Ok(());
        };
        self.keep_needed(homes, placed.place, last)?;
        let stack = state.stack();
        if self.keeps_stack(placed, stack.len() as u8) {
            return keep_cells(homes, self.registers(), placed.place, stack);
        }
        Ok(())
    }

    /// The last reached place, after this one.
    fn last_after(&self, place: u16, last: Option<u16>) -> Option<u16>
        ensures { result ≡ last_after (frames_of self.now place) place last }
    {
        match self.typing.state(place) {
            Some(_) => Some(place),
            None => last,
        }
    }

    /// Keeps what is met anywhere in the code.
    #[tactic(auto, unfolding(crate::specs::Walk::code_events, crate::specs::Walk::with_events))]
    pub(crate) fn find(&self, homes: &mut IndexSet<Home>) -> Result<(), AllocError>
        requires method { IsMethodOf self.now.world.now (walked self.now) }
        requires short { length self.now.code.bytes.now ≤ 65535 }
        ensures { OnOk result
            (homes.new.keys
            ≡ with_events homes.old.keys
            (code_events self.now.world.now (walked self.now) (frames_of self.now) self.now.control.now.leaders)) }
    {
        types_are_ordered(self.world.classes());
        let mut last = None;
        'walk: for placed in Instructions::of(self.code) {
            self.keep_place(homes, placed, last)?;
            last = self.last_after(placed.place, last);
        }
        Ok(())
    }
}
