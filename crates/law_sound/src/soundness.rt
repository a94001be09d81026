ghost use Rattle.law_sound.specs.Handed.{CallsHandAll, OnlyCallsCall, StartsHandAll};
ghost use Rattle.law_sound.specs.Soundness.{TypedMethodsHaveTypings, StepsAreSafe, RunsAreSafe, StartsAreTyped, TypedCodeIsFaultFree};

use jc_base::World;

/// In a world in which each method with code has a dataflow typing, with any type for its registers that are unset, a
/// step from a state that is typed by these typings leads to such a state or ends the run with no fault, and so does a
/// run of any length. A run begins in a typed state, whatever the entry and its arguments are. So no run meets a fault.
pub fn typed_code_never_fails(world: &World<'_>)
    ensures typings { TypedMethodsHaveTypings world.now }
    ensures steps { StepsAreSafe world.now }
    ensures runs { RunsAreSafe world.now }
    ensures starts { StartsAreTyped world.now }
    ensures fault_free { TypedCodeIsFaultFree world.now }
{
    let _ = world.classes().records();
}

/// A method begins with as many cells as it has words of arguments: where a call in a typed state enters it, and where a
/// run begins. No other operation calls a method.
pub fn arguments_are_handed(world: &World<'_>)
    ensures only { OnlyCallsCall world.now }
    ensures calls { CallsHandAll world.now }
    ensures starts { StartsHandAll world.now }
{
    let _ = world.classes().records();
}
