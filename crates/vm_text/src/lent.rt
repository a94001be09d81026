use crate::leaves::Leaves;
use card_verify::Accepted;
use jc_base::{Ty, World};
use vm_offend::Machine;
use vm_step::Value;

/// A run of verified code, with the world that was accepted and with the words of its objects and of its static fields.
#[derive(Clone, Copy)]
pub struct LentRun<'a, 'w> {
    pub machine: Machine,
    pub accepted: &'a Accepted<'w>,
    pub heap: &'a [u16],
    pub statics: &'a [u16],
}

impl Leaves for LentRun<'_, '_> {
    ghost use Rattle.vm_store.specs.Cells.{words};
    ghost use Rattle.vm_text.specs.Left.{left_by};
    ghost use Rattle.vm_text.specs.Lent.{lent_state, IsLentRun};

    ghost left = { λ w r. left_by words w (lent_state r.heap.now r.statics.now r.machine.counts) };

    ghost IsLeft = { λ w r. IsLentRun w r.accepted.now r.heap.now r.statics.now r.machine.counts };

    fn static_count(&self, world: &World<'_>) -> u16 {
        world.static_count()
    }

    fn static_value(&self, _world: &World<'_>, n: u16) -> Value {
        self.machine.static_value(self.accepted, self.statics, n)
    }

    fn array_kind(&self, _world: &World<'_>, handle: u16) -> Option<Ty> {
        self.machine.array_kind(self.accepted, self.heap, handle)
    }

    fn array_length(&self, _world: &World<'_>, handle: u16) -> Option<u16> {
        self.machine.array_length(self.accepted, self.heap, handle)
    }

    fn array_value(&self, _world: &World<'_>, handle: u16, element: u16) -> Option<i32> {
        self.machine
            .array_value(self.accepted, self.heap, handle, element)
    }
}
