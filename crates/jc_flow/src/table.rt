ghost use Rattle.std.specs.Prelude.{◌≡◌, ◌<◌, ◌≤◌, Some, None, true, false, length, replicate, reverse, All, IfOk, IfSome, MatchOption, MatchResult, option_map, slice_set, slice_index_or};
ghost use Rattle.std.specs.List.{AllWithin};
ghost use Rattle.jc_base.specs.Order.{IsKnown};
ghost use Rattle.jc_rules.specs.Held.{lent};
ghost use Rattle.jc_rules.specs.Typing.{state_at};
ghost use Rattle.jc_flow.specs.Found.{Found, IsLeastPending, NonePending, taken_up, HasKnown, Lands, Prevents};

use jc_base::{Classes, Ty};
use jc_rules::{HeldFrame, Merged, Typing};
use std::alloc::{AllocError, Global};
use std::marker::Model;

/// The state that is found for each place of a method's code, and which places wait.
#[derive(Drop)]
pub struct StateTable {
    typing: Typing,
    pending: Vec<bool>,
    /// No place before this one waits.
    low: usize,
}

impl Model for StateTable {
    ghost use Rattle.jc_flow.specs.Found.{Found};

    ghost Value = { Found };

    ghost use Rattle.std.specs.Prelude.{length};
    ghost use Rattle.jc_flow.specs.Found.{AreFlags};

    ghost view = { λ t. record { states = t.typing; pending = t.pending.items } };

    ghost invariant = { λ t. AreFlags (length t.typing) t.pending.items t.low };
}

/// Why a state was not put into the table.
#[derive(Clone, Copy)]
pub enum PutEnd {
    /// Its stack does not merge with the one that stands there.
    Clash,
    Memory,
}

impl From<AllocError> for PutEnd {
    ghost use Rattle.jc_flow.specs.declared.table.PutEnd.TheVariants.{Memory};

    ghost from_gives = { λ f e. e ≡ Memory };

    fn from(_error: AllocError) -> PutEnd {
        PutEnd::Memory
    }
}

impl StateTable {
    /// The empty table of so many places.
    pub fn new(alloc: Global, places: usize) -> Result<StateTable, AllocError>
        requires { places ≤ 65535 }
        ensures { IfOk result (λ t. t ≡ record { states = replicate places None; pending = replicate places false }) }
    {
        Ok(StateTable {
            typing: Typing::new(alloc, places)?,
            pending: vec![in alloc; false; places]?,
            low: 0,
        })
    }

    /// The state at a place.
    pub fn state(&self, place: u16) -> Option<HeldFrame<'_>>
        ensures { option_map lent result ≡ state_at self.now.states place }
    {
        self.typing.state(place)
    }

    /// The least place that waits. It waits no more.
    pub fn take_least(&mut self) -> Option<u16>
        ensures { MatchOption result
            (NonePending self.old × (self.new ≡ self.old))
            (λ p. IsLeastPending self.old p × (self.new ≡ taken_up self.old p)) }
    {
        let place = next_set(self.pending.as_slice(), self.low);
        self.low = place;
        if place == self.pending.len() {
            return None;
        }
        self.pending[place] = false;
        Some(place as u16)
    }

    /// Puts a state at a place: the registers, and the stack with its top last. It is merged with the one that
    /// stands there. After an end the table is of no more use.
    pub fn put(
        &mut self,
        classes: &Classes,
        place: u16,
        regs: &[Ty],
        stack: &[Ty],
    ) -> Result<(), PutEnd>
        requires place { place < length self.old.states }
        requires few { length stack.now ≤ 255 }
        requires regs_known { All (IsKnown classes.now) regs.now }
        requires stack_known { All (IsKnown classes.now) stack.now }
        requires held_known { IfSome (state_at self.old.states place) (HasKnown classes.now (length regs.now)) }
        ensures { MatchResult result
            (λ _.
            Lands classes.now self.old place
            (record { regs = regs.now; stack = reverse stack.now }) self.new)
            (Prevents classes.now self.old place
            (record { regs = regs.now; stack = reverse stack.now })) }
    {
        if !self.typing.reached(place) {
            self.typing.put(place, regs, stack)?;
            self.wait(place as usize);
            return Ok(());
        }
        match self.typing.merge(classes, place, regs, stack) {
            Merged::Same => Ok(()),
            Merged::Risen => {
                self.wait(place as usize);
                Ok(())
            }
            Merged::Clashing => Err(PutEnd::Clash),
        }
    }

    /// The states that were found.
    pub fn into_typing(self) -> Typing
        ensures { result ≡ self.states }
    {
        self.typing
    }

    /// The place waits.
    fn wait(&mut self, place: usize)
        requires { place < length self.old.states }
        ensures { self.new ≡ record { states = self.old.states; pending = slice_set self.old.pending place true } }
    {
        self.pending[place] = true;
        self.low = self.low.min(place);
    }
}

/// The first flag from a place on that is set, or the number of flags.
fn next_set(flags: &[bool], from: usize) -> usize
    requires { from ≤ length flags.now }
    ensures after { from ≤ result }
    ensures within { result ≤ length flags.now }
    ensures none_before { AllWithin (λ b. b ≡ false) flags.now from result }
    ensures set { result < length flags.now → slice_index_or flags.now result false ≡ true }
{
    let mut at = from;
    'search: while at < flags.len() {
        if flags[at] {
            return at;
        }
        at += 1;
    }
    at
}
