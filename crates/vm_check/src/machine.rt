ghost use Rattle.vm_store.specs.State.{State};
ghost use Rattle.jc_base.specs.World.{Linked};
ghost use Rattle.vm_check.specs.Machine.{KeepsShape, KnowsTypes, TestsReach, StepsStay, StepsEnd};

use jc_base::World;
use jc_ops::operations_are_sound;
use jc_rules::demands_are_decided;
use vm_store::{Store, TaggedStore};

/// A store of a machine: what holds of each state of a run, so that an operation whose tests pass finds what it asks.
pub trait Machine: Store {
    /// What a run in a world keeps of its states.
    ghost keeps: { Linked → State Self.Cell → Type 0 };

    /// What is kept has the shape that the world asks, and is kept by each step; where the tests pass, an operation
    /// has what it asks.
    fn tests_suffice(world: &World<'_>)
        ensures shape { KeepsShape (keeps world.now) world.now }
        ensures known { KnowsTypes Self.Cell.cells (keeps world.now) world.now }
        ensures reaches { TestsReach Self.stack_room Self.Cell.cells (keeps world.now) world.now }
        ensures stays { StepsStay Self.Cell.cells (keeps world.now) world.now }
        ensures ends { StepsEnd Self.Cell.cells (keeps world.now) world.now };
}

impl Machine for TaggedStore {
    ghost use Rattle.vm_check.specs.Shaped.{IsShaped};

    ghost keeps = { IsShaped };

    fn tests_suffice(world: &World<'_>) {
        let _classes = world.classes();
        demands_are_decided(world);
        operations_are_sound(world);
    }
}
