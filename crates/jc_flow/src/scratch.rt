ghost use Rattle.std.specs.Prelude.{◌≡◌, ◌≤◌, [], ◌++◌, drop, length, reverse, replicate, All, IfOk, OnErr, IsSomeAnd, slice_get};
ghost use Rattle.jc_base.specs.Order.{IsKnown};
ghost use Rattle.jc_rules.specs.Held.{lent};
ghost use Rattle.jc_flow.specs.Scratch.{Scratched, SuitsMethod, IsStepped};

use jc_base::{Ty, World};
use jc_decode::Insn;
use jc_ops::RuleFault;
use jc_rules::{HeldFrame, Mode, Site, apply};
use std::alloc::{AllocError, Global};
use std::marker::Model;

/// Registers and a stack that the rules work on. It is made once for a method, and then takes one state after
/// another.
#[derive(Drop)]
pub struct Scratch {
    regs: Vec<Ty>,
    /// Room for the deepest stack; the first `depth` cells are the stack, its top last.
    stack: Vec<Ty>,
    depth: u8,
}

impl Model for Scratch {
    ghost use Rattle.jc_flow.specs.Scratch.{Scratched};

    ghost Value = { Scratched };

    ghost use Rattle.std.specs.Prelude.{length};
    ghost use Rattle.jc_rules.specs.Stack.{cells};
    ghost use Rattle.jc_flow.specs.Scratch.{HasDepth};

    ghost view = { λ s. record {
      frame = record { regs = s.regs.items; stack = cells s.stack.items s.depth };
      room = length s.stack.items;
    } };

    ghost invariant = { λ s. HasDepth (length s.stack.items) s.depth };
}

impl Scratch {
    /// Room for so many registers and a stack of so many cells.
    #[tactic(auto, unfolding(jc_rules::specs::Stack::cells))]
    pub fn new(alloc: Global, registers: u8, room: u8) -> Result<Scratch, AllocError>
        ensures { IfOk result (λ s. s ≡ record { frame = record { regs = replicate registers Ty.Top; stack = [] }; room = room }) }
    {
        Ok(Scratch {
            regs: vec![in alloc; Ty::Top; registers as usize]?,
            stack: vec![in alloc; Ty::Top; room as usize]?,
            depth: 0,
        })
    }

    /// The types of the registers.
    pub fn regs(&self) -> &[Ty]
        ensures { result.now ≡ self.now.frame.regs }
    {
        self.regs.as_slice()
    }

    /// The stack, with its top last.
    #[tactic(auto, unfolding(jc_rules::specs::Stack::cells))]
    pub fn stack(&self) -> &[Ty]
        ensures is { reverse result.now ≡ self.now.frame.stack }
        ensures few { length result.now ≤ 255 }
    {
        &self.stack[..self.depth as usize]
    }

    /// Takes the frame of a state.
    pub fn load(&mut self, state: HeldFrame<'_>)
        requires registers { length (lent state).regs ≡ length self.old.frame.regs }
        requires room { length (lent state).stack ≤ self.old.room }
        ensures { self.new ≡ record { frame = lent state.entry; room = self.old.room } }
    {
        let stack = state.stack();
        copy(state.regs(), &mut self.regs);
        copy(stack, &mut self.stack);
        self.depth = stack.len() as u8;
    }

    /// Applies the rule of the instruction that is decoded at the site. After a refusal the frame is as before.
    pub fn apply(&mut self, world: &World<'_>, site: Site, insn: Insn) -> Result<(), RuleFault>
        requires suits { IsSomeAnd (slice_get world.now.methods site.method) (SuitsMethod self.old) }
        requires regs_known { All (IsKnown world.now.classes) self.old.frame.regs }
        requires stack_known { All (IsKnown world.now.classes) self.old.frame.stack }
        ensures stepped { IsStepped world.now site insn self.old.frame self.new.frame result }
        ensures as_before { OnErr result (self.new.frame ≡ self.old.frame) }
        ensures room { self.new.room ≡ self.old.room }
    {
        match apply(
            world,
            site,
            insn,
            &mut self.regs,
            &mut self.stack,
            self.depth,
            Mode::Flow,
        ) {
            Ok(outcome) => {
                self.depth = outcome.depth;
                Ok(())
            }
            Err(fault) => Err(fault),
        }
    }
}

/// Writes the first cells.
fn copy(from: &[Ty], to: &mut Vec<Ty>)
    requires { length from.now ≤ length to.old.items }
    ensures { to.new.items ≡ from.now ++ drop (length from.now) to.old.items }
{
    let (front, _) = to.as_mut_slice().split_at_mut(from.len());
    front.copy_from_slice(from);
}
