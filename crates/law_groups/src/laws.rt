ghost use Rattle.law_groups.specs.Body.{KeptRuns};
ghost use Rattle.law_groups.specs.Laws.{CallsEnd, CallsReturn, GroupsCatch, HandlersEnter, HasRoomForMore, KeptGroupsRun, LoadGroupsRun};
ghost use Rattle.law_groups.specs.Laws.{RenamesOneToOne, StartsEnter, GroupsRun, ForkGroupsRun, GotoGroupsRun};
ghost use Rattle.law_groups.specs.Moves.{MovesRun};
ghost use Rattle.law_groups.specs.Steps.{GroupsFollow, GroupsStandAtSteps, HandlersStandAtSteps, StartsStandAtSteps, StubsStandAtSteps};
ghost use Rattle.law_groups.specs.Matching.{RewrittenMatches};
ghost use Rattle.law_groups.specs.Fields.{ThisReadsRun, ThisWritesRun};
ghost use Rattle.law_groups.specs.Increasing.{IncrementBodiesRun};
ghost use Rattle.law_groups.specs.Storing.{StoreBodiesRun};

use jc_base::{World, types_are_ordered};
use jc_ops::operations_are_sound;
use jc_rules::rule_laws;
use law_alike::steps_are_alike;
use law_homes::{edges_run, moves_are_few, operands_load, premises_hold, stacks_move};
use law_rewritten_typing::{derived_are_whole, edges_carry};

/// The steps of groups and of stubs follow one another from the places of their labels, and a group follows that of the
/// instruction before it.
pub fn groups_stand_at_steps()
    ensures groups { GroupsStandAtSteps }
    ensures stubs { StubsStandAtSteps }
    ensures handlers { HandlersStandAtSteps }
    ensures follow { GroupsFollow }
    ensures starts { StartsStandAtSteps }
{}

/// No two places of uninitialised objects become one where code is laid, and its stack has room for one cell more.
pub fn places_are_renamed(world: &World<'_>)
    ensures renames { RenamesOneToOne world.now }
    ensures room { HasRoomForMore world.now }
{
    let _ = world;
}

/// A frame under a call goes on at the step after it, and from the steps of a group the same handlers catch as from its
/// place, in the same order.
pub fn groups_catch(world: &World<'_>)
    ensures ends { CallsEnd world.now }
    ensures catches { GroupsCatch world.now }
{
    let _ = world;
}

/// The moves between homes come to what they are for wherever code is laid, and are few.
pub(crate) fn moves_run(world: &World<'_>)
    ensures { MovesRun world.now }
{
    edges_carry(world);
    stacks_move(world);
    edges_run(world);
    moves_are_few(world);
}

/// An instruction that is kept takes one step in laid code, to what it comes to in the source.
pub(crate) fn kept_run(world: &World<'_>)
    ensures { KeptRuns world.now }
{
    operations_are_sound(world);
    steps_are_alike(world);
    let _ = world.classes().records();
}

/// After a call, at a handler and at a method's start laid code comes to the group of the source's place.
pub fn groups_are_entered(world: &World<'_>)
    ensures returns { CallsReturn world.now }
    ensures handlers { HandlersEnter world.now }
    ensures starts { StartsEnter world.now }
{
    moves_run(world);
    edges_run(world);
    let _ = world.classes().records();
}

/// A group whose operation names no register and leads to no target, or loads a local, comes to what the source comes to.
pub(crate) fn plain_groups_run(world: &World<'_>)
    ensures kept { KeptGroupsRun world.now }
    ensures loads { LoadGroupsRun world.now }
{
    types_are_ordered(world.classes());
    derived_are_whole(world);
    moves_run(world);
    steps_are_alike(world);
    kept_run(world);
    let _ = world.classes().records();
}

/// From the group of a typed frame's place laid code comes to what the step of the source comes to, in one step at least
/// and in at most 2,000.
pub fn groups_run(world: &World<'_>)
    ensures { GroupsRun world.now }
{
    moves_run(world);
    plain_groups_run(world);
    stores_in_groups(world);
    increments_in_groups(world);
    fields_in_groups(world);
    writes_in_groups(world);
    branch_groups_run(world);
}

/// The symbols that stand for a method do beside it what it does, wherever they are laid: from its start, from the group of each
/// place, after a call and at a handler.
pub fn rewritten_matches(world: &World<'_>)
    ensures { RewrittenMatches world.now }
{
    operations_are_sound(world);
    places_are_renamed(world);
    groups_catch(world);
    groups_are_entered(world);
    groups_run(world);
    let _ = world.classes().records();
}

/// The groups of a goto, of a conditional branch and of a switch come to what the source comes to.
pub(crate) fn branch_groups_run(world: &World<'_>)
    ensures gotos { GotoGroupsRun world.now }
    ensures forks { ForkGroupsRun world.now }
{
    operations_are_sound(world);
    edges_carry(world);
    moves_run(world);
    operands_load(world);
    steps_are_alike(world);
    let _ = world.classes().records();
}

/// A read of a field of `this` in laid code comes to what it does in the source.
pub(crate) fn fields_in_groups(world: &World<'_>)
    ensures reads { ThisReadsRun world.now }
{
    operations_are_sound(world);
    rule_laws(world);
    premises_hold(world);
    derived_are_whole(world);
    steps_are_alike(world);
    let _ = world.classes().records();
}

/// A write of a field of `this` in laid code comes to what it does in the source.
pub(crate) fn writes_in_groups(world: &World<'_>)
    ensures writes { ThisWritesRun world.now }
{
    operations_are_sound(world);
    rule_laws(world);
    premises_hold(world);
    derived_are_whole(world);
    steps_are_alike(world);
    let _ = world.classes().records();
}

/// An increment of a local in laid code comes to what it does in the source.
pub(crate) fn increments_in_groups(world: &World<'_>)
    ensures { IncrementBodiesRun world.now }
{
    types_are_ordered(world.classes());
    derived_are_whole(world);
    edges_carry(world);
    steps_are_alike(world);
}

/// A store of a local in laid code comes to what it does in the source.
pub(crate) fn stores_in_groups(world: &World<'_>)
    ensures stores { StoreBodiesRun world.now }
{
    operations_are_sound(world);
    premises_hold(world);
    let _ = world.classes().records();
}
