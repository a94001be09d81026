ghost use Rattle.jc_ops.specs.Sound.{OperationsAreSound, OperationsAreDecided, RefusesAbstract};
ghost use Rattle.jc_ops.specs.Next.{OperationsGoAlike};
ghost use Rattle.jc_ops.specs.Entry.{RestsOnEntry, FaultNamesEntry};

use jc_base::{World, concrete_decides};

/// What the operations of instructions speak of is in the world, an instruction has one operation, and is refused
/// for a class only where no objects can be made of it.
pub fn operations_are_sound(world: &World<'_>)
    ensures sound { OperationsAreSound world.now }
    ensures decided { OperationsAreDecided world.now }
    ensures refused { RefusesAbstract world.now }
{
    concrete_decides();
    let _classes = world.classes();
}

/// Of the constant pool an operation rests on the entry alone that its instruction names.
pub fn entries_are_named(world: &World<'_>)
    ensures rests { RestsOnEntry world.now }
    ensures faults { FaultNamesEntry world.now }
{
    concrete_decides();
    let _classes = world.classes();
}

/// An operation falls and jumps as its instruction does in the listing of a method.
pub fn operations_go_alike(world: &World<'_>)
    ensures { OperationsGoAlike world.now }
{
    let _classes = world.classes();
}
