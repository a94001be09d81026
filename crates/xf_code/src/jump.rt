ghost use Rattle.std.specs.Prelude.{◌≡◌, ◌++◌, OnOk, ◌≤◌, ◌+◌, ◌/◌, IfOk, Some};
ghost use Rattle.jc_decode.specs.Forms.{wide};
ghost use Rattle.jc_decode.specs.Listing.{targets};
ghost use Rattle.xf_homes.specs.PlannedMethod.{source};
ghost use Rattle.xf_emission.specs.Jump.{AreLed, each_once, branch, first_label, jump_to, has_under, spill_if, stubs_of, operands_slot};
ghost use Rattle.xf_emission.specs.Jump.{under, operands, branch_copies, place, stub_label, goto, IsNearBy};
ghost use Rattle.xf_emission.specs.Group.{fall, fall_over, fallen};

use crate::body::next_place;
use crate::emitter::{Emitted, Emitter, Output, put};
use crate::ways::Stubs;
use jc_control::place_of;
use jc_decode::{Item, Labels, Placed};
use jc_ops::Operation;
use std::alloc::AllocError;
use xf_emission::Origin;
use xf_emission::mnemonics::{GOTO, GOTO_W, IFEQ, IFEQ_W};
use xf_homes::{Home, operands};

/// The opcode of the wide form of a jump.
fn wide(op: u8) -> u8
    ensures { result ≡ wide op }
{
    if IFEQ <= op && op <= GOTO {
        op + (IFEQ_W - IFEQ)
    } else {
        op
    }
}

fn first_label(labels: &[u16]) -> u16
    ensures { result ≡ first_label labels.now }
{
    match labels.first() {
        Some(label) => *label,
        None => 0,
    }
}

/// The branch or switch that leads to these labels.
fn jump_to(placed: Placed, operation: Operation, labels: Vec<u16>) -> Item
    ensures { result ≡ jump_to placed operation labels.items }
{
    match operation {
        Operation::Switch(_) => Item::Switch {
            insn: placed.insn,
            at: placed.place,
            labels: Labels::of(labels),
        },
        _ => Item::Branch {
            op: wide(placed.insn.op),
            label: first_label(labels.as_slice()),
        },
    }
}

impl Emitter<'_> {
    /// Appends the stores of the whole stack into its own homes and the loads of the operands, where the stack is deeper.
    fn spill_if(&self, fork: Fork, items: &mut Vec<Item>) -> Emitted
        ensures { OnOk result
            (let s = source self.now.plan in
            items.new.items ≡ items.old.items ++ spill_if (has_under s fork.placed.place fork.operands) s fork.placed.place fork.operands) }
    {
        if !self.has_under(fork) {
            return Ok(());
        }
        let cells = self.plan.stack_homes(self.alloc, fork.placed.place)?;
        self.spill(cells.as_slice(), items)?;
        let operands = self.operands(fork)?;
        self.loads(operands.as_slice(), items)
    }

    /// Appends a conditional branch or switch to the items, and the stubs of its ways to the stubs.
    #[tactic(auto, unfolding(xf_emission::specs::Jump::branch))]
    pub fn branch(&self, fork: Fork, items: &mut Vec<Item>, stubs: &mut Stubs) -> Emitted
        requires { AreLed self.now.plan.walk.code.bytes.now fork.placed }
        ensures items { OnOk result
            (items.new.items ≡ items.old.items ++ branch (source self.now.plan) fork.placed fork.operation fork.operands) }
        ensures stubs { OnOk result
            (stubs.new.items.items
            ≡ stubs.old.items.items ++ stubs_of (source self.now.plan) fork.placed.place fork.operation fork.operands 0
            (each_once (targets self.now.plan.walk.code.bytes.now fork.placed))) }
    {
        self.spill_if(fork, items)?;
        let labels = self.leads(fork, stubs)?;
        put(items, jump_to(fork.placed, fork.operation, labels))
    }
}

/// A conditional branch or switch, with the number of cells that are its operands.
#[derive(Clone, Copy)]
pub struct Fork {
    pub placed: Placed,
    pub operation: Operation,
    pub operands: u8,
}

impl Emitter<'_> {
    /// The slot at which the operands begin.
    fn cut(&self, fork: Fork) -> u16
        ensures { result ≡ operands_slot (source self.now.plan) fork.placed.place fork.operands }
    {
        let under = self
            .plan
            .depth(fork.placed.place)
            .saturating_sub(u16::from(fork.operands));
        self.plan.walk.registers() + under
    }

    /// Whether the stack is deeper than the operands of a branch or switch.
    pub fn has_under(&self, fork: Fork) -> bool
        ensures { result ≡ has_under (source self.now.plan) fork.placed.place fork.operands }
    {
        u16::from(fork.operands) < self.plan.depth(fork.placed.place)
    }

    /// The homes of the cells under the operands.
    pub fn under(&self, fork: Fork) -> Result<Vec<Home>, AllocError>
        ensures { IfOk result (λ hs. hs.items ≡ under (source self.now.plan) fork.placed.place fork.operands) }
    {
        let cut = self.cut(fork);
        let mut cells = self.plan.stack_homes(self.alloc, fork.placed.place)?;
        cells.retain(|home| home.slot < cut);
        Ok(cells)
    }

    /// The homes of the operands.
    pub fn operands(&self, fork: Fork) -> Result<Vec<Home>, AllocError>
        ensures { IfOk result (λ hs. hs.items ≡ operands (source self.now.plan) fork.placed.place fork.operands) }
    {
        let cut = self.cut(fork);
        let mut cells = self.plan.stack_homes(self.alloc, fork.placed.place)?;
        cells.retain(|home| cut <= home.slot);
        Ok(cells)
    }

    /// Appends what has to be copied where the branch is taken to a place.
    #[tactic(auto, unfolding(xf_emission::specs::Jump::branch_copies))]
    pub fn branch_copies(&self, fork: Fork, to: u16, out: &mut Output) -> Emitted
        ensures { OnOk result
            (out.new.items.items
            ≡ out.old.items.items ++ branch_copies (source self.now.plan) fork.placed.place fork.operation fork.operands to) }
    {
        let under = self.under(fork)?;
        let cells = self.plan.stack_homes(self.alloc, to)?;
        self.cell_copies(under.as_slice(), cells.as_slice(), &mut out.items)?;
        self.copies(Origin::After(fork.placed.place, fork.operation), to, out)
    }
}

/// The label of the stub of a way, by its number.
pub fn stub_label(place: u16, n: u16) -> u16
    requires { place / 2 + n ≤ 32767 }
    ensures { result ≡ stub_label place n }
{
    32768 + (place / 2 + n)
}

/// The place of a target.
pub fn target_place(target: i32) -> u16
    requires { IsNearBy target }
    ensures { result ≡ place target }
{
    place_of(target)
}

/// The goto of a place's label.
pub fn goto(to: u16) -> Item
    ensures { result ≡ goto to }
{
    Item::Branch {
        op: GOTO_W,
        label: to,
    }
}

impl Emitter<'_> {
    /// Appends the way into a place: the stack goes into the homes of its cells where it is a leader, and then come the copies
    /// of locals.
    fn fall(&self, place: u16, operation: Operation, to: u16, out: &mut Output) -> Emitted
        ensures { OnOk result (out.new.items.items ≡ out.old.items.items ++ fall (source self.now.plan) place operation to) }
    {
        if self.plan.is_leader(to) {
            let cells = self.plan.stack_homes(self.alloc, to)?;
            self.spill(cells.as_slice(), &mut out.items)?;
        }
        self.copies(Origin::After(place, operation), to, out)
    }

    /// Appends the way from a conditional that keeps its stack in homes.
    fn fall_over(&self, fork: Fork, to: u16, out: &mut Output) -> Emitted
        ensures { OnOk result
            (out.new.items.items
            ≡ out.old.items.items ++ fall_over (source self.now.plan) fork.placed.place fork.operation fork.operands to) }
    {
        if self.plan.is_leader(to) {
            return self.branch_copies(fork, to, out);
        }
        self.copies(Origin::After(fork.placed.place, fork.operation), to, out)?;
        let under = self.under(fork)?;
        self.loads(under.as_slice(), &mut out.items)
    }

    /// Appends what comes after an instruction where control may fall into the next place.
    #[tactic(auto, unfolding(xf_emission::specs::Group::fallen))]
    pub fn fallen(&self, placed: Placed, operation: Operation, out: &mut Output) -> Emitted
        requires { placed.place + placed.insn.len ≤ 65535 }
        ensures { OnOk result (out.new.items.items ≡ out.old.items.items ++ fallen (source self.now.plan) placed operation) }
    {
        if !operation.falls() {
            return Ok(());
        }
        let to = next_place(placed);
        let Some(operands) = operands(self.plan.walk.world, operation) else {
            return self.fall(placed.place, operation, to, out);
        };
        let fork = Fork {
            placed,
            operation,
            operands,
        };
        if self.has_under(fork) {
            return self.fall_over(fork, to, out);
        }
        self.fall(placed.place, operation, to, out)
    }
}
