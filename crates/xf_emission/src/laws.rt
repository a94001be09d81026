ghost use Rattle.xf_emission.specs.Laws.{GroupsStand, HandlersStand, ItemsSuit, LabelsStandOnce, LiveAreKept, PlainSizeFits, RangesStand, StubsStand, WaysAreTargets};

use jc_base::{World, types_are_ordered};
use jc_decode::instructions_are_listed;
use jc_ops::operations_go_alike;
use xf_homes::{homes_serve, needed_are_kept};

/// The ways that a branch is taken are its targets, each once.
pub fn ways_are_targets()
    ensures { WaysAreTargets }
{}

/// The labels of a rewritten method stand once each.
pub fn labels_stand_once()
    ensures { LabelsStandOnce }
{}

/// The group of each instruction stands after those of the instructions before it and is followed by those of the
/// instructions after it, and its label stands for its first item.
pub fn groups_stand()
    ensures { GroupsStand }
{}

/// The stubs on the edges of branches, and those of live handlers, stand where their labels do.
pub fn stubs_stand()
    ensures branches { StubsStand }
    ensures handlers { HandlersStand }
{}

/// There is a range for each live handler.
pub fn live_are_kept()
    ensures { LiveAreKept }
{
    instructions_are_listed();
}

/// The labels of the ranges stand once, and no range ends before it begins.
pub fn ranges_stand()
    ensures { RangesStand }
{
    instructions_are_listed();
}

/// The items are such as `lay` takes, where the homes have registers.
pub fn items_suit(world: &World<'_>)
    ensures { ItemsSuit world.now }
{
    instructions_are_listed();
    operations_go_alike(world);
}

/// The plain size is a number of four bytes: on each edge no more homes are copied to than there are.
pub fn plain_size_fits(world: &World<'_>)
    ensures { PlainSizeFits world.now }
{
    types_are_ordered(world.classes());
    homes_serve(world);
    needed_are_kept(world);
}
