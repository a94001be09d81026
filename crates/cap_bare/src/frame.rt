ghost use Rattle.std.specs.Prelude.{◌≡◌, ◌<◌, ◌≤◌, ◌+◌, pos, [], ◌∷◌, ◌++◌, length, drop, replicate, slice_index_or, slice_set};
ghost use Rattle.std.specs.Prelude.{if◌then◌else◌};
ghost use Rattle.vm_arithmetic.specs.Arithmetic.{succeeds};
ghost use Rattle.cap_bare.specs.Machine.{acted, frame, leads, top_of_stack, second};

use crate::format::Bare;
use crate::instruction::{Instruction, binary};
use arrayvec::ArrayVec;
use jc_ops::Order;
use std::marker::Model;
use vm_arithmetic::{negate_short, short_to_byte, succeeds};

/// The greatest numbers of registers and of cells that a compact header can say.
const REGISTERS: usize = 30;

const CELLS: usize = 15;

/// The shorts in the registers and on the stack of a method that runs.
#[derive(Drop)]
pub struct Frame {
    registers: ArrayVec<i16, REGISTERS>,
    /// The top of the stack is its last element.
    stack: ArrayVec<i16, CELLS>,
}

/// Where an instruction leads.
#[derive(Clone, Copy)]
pub enum Lead {
    /// To this place.
    To(i32),
    /// Out of the method, with this result.
    Gives(i16),
}

impl Model for Frame {
    ghost use Rattle.std.specs.Prelude.{reverse, ◌≤◌};
    ghost use Rattle.cap_bare.specs.Machine.{BareFrame};

    ghost Value = { BareFrame };

    ghost view = { λ f. record { registers = f.registers.items; stack = reverse f.stack.items } };
}

impl Frame {
    ghost use Rattle.cap_bare.specs.Leading.{leading, CanAct};

    /// The frame of a method that is entered: its arguments, 0 in the other registers, and an empty stack.
    pub fn entered(bare: Bare, args: &[i16]) -> Frame
        requires registers { length args.now + bare.max_locals ≤ 30 }
        ensures registers { result.registers ≡ args.now ++ replicate bare.max_locals (pos 0) }
        ensures stack { result.stack ≡ [] }
    {
        let mut registers = ArrayVec::new();
        for value in args {
            registers.push(*value);
        }
        for _local in 0..bare.max_locals {
            registers.push(0);
        }
        Frame {
            registers,
            stack: ArrayVec::new(),
        }
    }

    fn push(&mut self, value: i16)
        requires { length self.old.stack < 15 }
        ensures registers { self.new.registers ≡ self.old.registers }
        ensures stack { self.new.stack ≡ value ∷ self.old.stack }
    {
        self.stack.push(value);
    }

    fn pop(&mut self) -> i16
        requires { 0 < length self.old.stack }
        ensures registers { self.new.registers ≡ self.old.registers }
        ensures stack { self.old.stack ≡ result ∷ self.new.stack }
    {
        match self.stack.pop() {
            Some(value) => value,
            None => unreachable!(),
        }
    }

    fn register(&self, x: u8) -> i16
        requires { x < length self.now.registers }
        ensures { result ≡ slice_index_or self.now.registers x (pos 0) }
    {
        self.registers[usize::from(x)]
    }

    fn set_register(&mut self, x: u8, value: i16)
        requires { x < length self.old.registers }
        ensures registers { self.new.registers ≡ slice_set self.old.registers x value }
        ensures stack { self.new.stack ≡ self.old.stack }
    {
        self.registers[usize::from(x)] = value;
    }

    fn give(&mut self, value: i16, next: i32) -> Lead
        requires { length self.old.stack < 15 }
        ensures { leading result self.new ≡ leads next (frame self.old.registers (value ∷ self.old.stack)) }
    {
        self.push(value);
        Lead::To(next)
    }

    fn duplicate(&mut self, next: i32) -> Lead
        requires cells { 0 < length self.old.stack }
        requires room { length self.old.stack < 15 }
        ensures { leading result self.new ≡ leads next (frame self.old.registers (top_of_stack self.old.stack ∷ self.old.stack)) }
    {
        let value = self.pop();
        self.push(value);
        self.give(value, next)
    }

    fn test(&mut self, order: Order, target: i32, next: i32) -> Lead
        requires { 0 < length self.old.stack }
        ensures { leading result self.new
            ≡ leads
            (if succeeds order (top_of_stack self.old.stack) (pos 0) then target else next)
            (frame self.old.registers (drop 1 self.old.stack)) }
    {
        let value = self.pop();
        Lead::To(if succeeds(order, value, 0) {
            target
        } else {
            next
        })
    }

    fn compare(&mut self, order: Order, target: i32, next: i32) -> Lead
        requires { 1 < length self.old.stack }
        ensures { leading result self.new
            ≡ leads
            (if succeeds order (second self.old.stack) (top_of_stack self.old.stack) then target else next)
            (frame self.old.registers (drop 2 self.old.stack)) }
    {
        let second = self.pop();
        let first = self.pop();
        Lead::To(if succeeds(order, first, second) {
            target
        } else {
            next
        })
    }

    /// Does what an instruction says that names this target, if any, before the instruction at `next`.
    pub fn act(&mut self, instruction: Instruction, target: i32, next: u16) -> Lead
        requires { CanAct instruction self.old }
        ensures { leading result self.new ≡ acted instruction target next self.old.registers self.old.stack }
    {
        let next = i32::from(next);
        match instruction {
            Instruction::Nop => Lead::To(next),
            Instruction::Push(value) => self.give(value, next),
            Instruction::Load(x) => self.give(self.register(x), next),
            Instruction::Store(x) => {
                let value = self.pop();
                self.set_register(x, value);
                Lead::To(next)
            }
            Instruction::Increment(x, by) => {
                self.set_register(x, self.register(x).wrapping_add(by));
                Lead::To(next)
            }
            Instruction::Pop => {
                self.pop();
                Lead::To(next)
            }
            Instruction::Duplicate => self.duplicate(next),
            Instruction::Negate => {
                let value = self.pop();
                self.give(negate_short(value), next)
            }
            Instruction::ToByte => {
                let value = self.pop();
                self.give(short_to_byte(value), next)
            }
            Instruction::Binary(operator) => {
                let second = self.pop();
                let first = self.pop();
                self.give(binary(operator, first, second), next)
            }
            Instruction::Test(order) => self.test(order, target, next),
            Instruction::Compare(order) => self.compare(order, target, next),
            Instruction::Goto => Lead::To(target),
            Instruction::Return => Lead::Gives(self.pop()),
        }
    }
}
