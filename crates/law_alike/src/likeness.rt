ghost use Rattle.law_alike.specs.Likeness.{StepsAreAlike, TypedStatesStay};
ghost use Rattle.law_alike.specs.Starting.{MethodsAreNumberedAlike, StartsRefuseAlike};

use jc_base::World;
use jc_ops::operations_are_sound;

/// In a world that differs in the code of methods alone, a frame that runs an instruction alike to that of a frame in
/// the other, on equal cells, takes the same branch, makes the same call or return, throws the same or comes to the same
/// ending, or both go on with equal cells, wherever the step of the other is no fault.
pub fn steps_are_alike(world: &World<'_>)
    ensures { StepsAreAlike world.now }
{
    operations_are_sound(world);
    let _ = world.classes().records();
}

/// Objects and static fields of a typed state keep no uninitialised object, so they are the same under every map of
/// places.
pub fn typed_states_stay(world: &World<'_>)
    ensures { TypedStatesStay world.now }
{
    let _ = world.classes().records();
}

/// Worlds that differ in the code of methods alone begin runs with the same arguments, and refuse others for the same
/// reason; and in both a method is found by the same numbers.
pub fn starts_refuse_alike(world: &World<'_>)
    ensures refused { StartsRefuseAlike world.now }
    ensures numbered { MethodsAreNumberedAlike world.now }
{
    let _ = world.classes().records();
}
