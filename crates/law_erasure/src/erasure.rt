ghost use Rattle.law_erasure.specs.Erasure.{ActsErase, StepsErase, RunsErase, StartsErase, WordsFollow, TypedStepsFollow, TypedRunsFollow, TypedStatesApply};

use jc_base::World;
use jc_ops::operations_are_sound;

/// Where a step of tagged cells is no fault, bare words take the same step to the words of what it leads to; so does a
/// run of any number of steps; and both machines begin alike. So where each method with code has a dataflow typing, a
/// run of bare words comes to the words of what the run of tagged cells comes to, from each typed state, and so does a step.
pub fn words_run_alike(world: &World<'_>)
    ensures acts { ActsErase world.now }
    ensures steps { StepsErase world.now }
    ensures runs { RunsErase world.now }
    ensures starts { StartsErase world.now }
    ensures follow { WordsFollow world.now }
    ensures steps_follow { TypedStepsFollow world.now }
    ensures runs_follow { TypedRunsFollow world.now }
{
    operations_are_sound(world);
    let _ = world.classes().records();
}

/// In a typed state the rule of the instruction applies to the least types of the cells.
pub fn typed_states_apply(world: &World<'_>)
    ensures { TypedStatesApply world.now }
{
    let _ = world.classes().records();
}
