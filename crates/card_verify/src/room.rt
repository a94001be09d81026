ghost use Rattle.std.specs.Prelude.{◌≡◌, ℕ, ◌+◌, ◌<◌, ◌≤◌, length, slice_get, IfErr, IfOk, IsSomeAnd, MatchBool, OnOk, IsTrue};
ghost use Rattle.card_verify.specs.Answers.{IsAcceptedAt, IsRefusedAt};
ghost use Rattle.card_verify.specs.Bound.{IsShortAt, bound_at};
ghost use Rattle.card_verify.specs.Counting.{IsByIndex};

use crate::index_verify::verify_indexed;
use crate::verify_method;
use arrayvec::ArrayVec;
use card_typing::{CardFault, card_laws};
use jc_base::{Steps, Ty, World};
use std::marker::{Brand, Model};
use std::sync::ledger::{Blank, Ledger};

/// The most registers of a method, and the most cells of its operand stack.
const MOST: usize = 255;

/// Room for the types of the registers and of the operand stack of any method. It is made once, and serves one method
/// after another.
#[derive(Drop)]
pub struct CardRoom {
    regs: ArrayVec<Ty, MOST>,
    stack: ArrayVec<Ty, MOST>,
}

impl Model for CardRoom {
    ghost use Rattle.card_verify.specs.Room.{CellRoom};

    ghost Value = { CellRoom };

    ghost use Rattle.std.specs.Prelude.{length};
    ghost use Rattle.card_verify.specs.Room.{AreFull};

    ghost view = { λ r. record { registers = length r.regs.items; cells = length r.stack.items } };

    ghost invariant = { λ r. AreFull r.regs.items r.stack.items };
}

impl CardRoom {
    /// Room for as many registers and cells as a method can declare.
    pub fn new() -> CardRoom
        ensures { result ≡ record { registers = 255; cells = 255 } }
    {
        CardRoom {
            regs: ArrayVec::from_array_in((), [Ty::Bottom; MOST]),
            stack: ArrayVec::from_array_in((), [Ty::Bottom; MOST]),
        }
    }

    /// Verifies a method in this room, if it has code, and tells whether its index sufficed.
    pub fn verify(&mut self, world: &World<'_>, method: u16) -> Result<bool, CardFault>
        requires { method < length world.now.methods }
        ensures accepted { OnOk result (IsAcceptedAt world.now method) }
        ensures by_index { IfOk result (λ by. MatchBool by (IsByIndex world.now method) (¬ (IsByIndex world.now method))) }
        ensures refused { IfErr result (λ fault. IsRefusedAt world.now method fault) }
    {
        self.verify_uncounted::<Brand>(world, method, Blank::new(1))
    }

    /// The same, where nobody asks for the number of steps.
    fn verify_uncounted<L: Ledger>(
        &mut self,
        world: &World<'_>,
        method: u16,
        blank: Blank,
    ) -> Result<bool, CardFault>
        requires name { blank.name ≡ L.name }
        requires parts { blank.parts ≡ L.parts }
        requires one { blank.parts ≡ 1 }
        requires method { method < length world.now.methods }
        ensures accepted { OnOk result (IsAcceptedAt world.now method) }
        ensures by_index { IfOk result (λ by. MatchBool by (IsByIndex world.now method) (¬ (IsByIndex world.now method))) }
        ensures refused { IfErr result (λ fault. IsRefusedAt world.now method fault) }
    {
        let mut steps = Steps::none(blank);
        self.verify_counted::<L>(world, method, &mut steps)
    }

    /// The same, where what is applied and read over the index is counted. What is looked for without an index is not.
    pub(crate) fn verify_counted<L: Ledger>(
        &mut self,
        world: &World<'_>,
        method: u16,
        steps: &mut Steps<L>,
    ) -> Result<bool, CardFault>
        requires { method < length world.now.methods }
        ensures accepted { OnOk result (IsAcceptedAt world.now method) }
        ensures by_index { IfOk result (λ by. MatchBool by (IsByIndex world.now method) (¬ (IsByIndex world.now method))) }
        ensures refused { IfErr result (λ fault. IsRefusedAt world.now method fault) }
        ensures cost { (digits : ℕ) → IsShortAt world.now digits method → steps.new ≤ steps.old + bound_at world.now digits method }
    {
        verify_within(
            world,
            method,
            self.regs.as_mut_slice(),
            self.stack.as_mut_slice(),
            steps,
        )
    }
}

/// Verifies a method, if it has code, in slices that are long enough for any.
fn verify_within<L: Ledger>(
    world: &World<'_>,
    method: u16,
    regs: &mut [Ty],
    stack: &mut [Ty],
    steps: &mut Steps<L>,
) -> Result<bool, CardFault>
    requires method { method < length world.now.methods }
    requires registers { length regs.old ≡ 255 }
    requires cells { length stack.old ≡ 255 }
    ensures accepted { OnOk result (IsAcceptedAt world.now method) }
    ensures by_index { IfOk result (λ by. MatchBool by (IsByIndex world.now method) (¬ (IsByIndex world.now method))) }
    ensures refused { IfErr result (λ fault. IsRefusedAt world.now method fault) }
    ensures registers { length regs.new ≡ 255 }
    ensures cells { length stack.new ≡ 255 }
    ensures cost { (digits : ℕ) → IsShortAt world.now digits method → steps.new ≤ steps.old + bound_at world.now digits method }
{
    let rec = world.method(method);
    if rec.code_len == 0 {
        return Ok(false);
    }
    let registers = usize::from(rec.nargs + rec.max_locals);
    let cells = usize::from(rec.max_stack);
    if serves(
        world,
        method,
        &mut regs[..registers],
        &mut stack[..cells],
        steps,
    ) {
        return Ok(true);
    }
    match verify_method(world, method, &mut regs[..registers], &mut stack[..cells]) {
        Ok(()) => Ok(false),
        Err(fault) => Err(fault),
    }
}

/// Whether a method with code has an index over which it is accepted.
fn serves<L: Ledger>(
    world: &World<'_>,
    method: u16,
    regs: &mut [Ty],
    stack: &mut [Ty],
    steps: &mut Steps<L>,
) -> bool
    requires method { method < length world.now.methods }
    requires code { IsSomeAnd (slice_get world.now.methods method) (λ m. 0 < m.code_len) }
    requires registers { IsSomeAnd (slice_get world.now.methods method) (λ m. length regs.old ≡ m.nargs + m.max_locals) }
    requires cells { IsSomeAnd (slice_get world.now.methods method) (λ m. length stack.old ≡ m.max_stack) }
    ensures accepted { IsTrue result → IsAcceptedAt world.now method }
    ensures by_index { MatchBool result (IsByIndex world.now method) (¬ (IsByIndex world.now method)) }
    ensures cost { (digits : ℕ) → IsShortAt world.now digits method → steps.new ≤ steps.old + bound_at world.now digits method }
{
    card_laws(world);
    // The record of the method, for the fact that it is there.
    let _rec = world.method(method);
    match world.index(method) {
        Some(index) => verify_indexed::<L>(world, method, &index, regs, stack, steps).is_ok(),
        None => false,
    }
}
