ghost use Rattle.xf_homes.specs.Laws.{HomesServe, HomesAreOne, NeededAreKept};

use jc_base::{World, types_are_ordered};

/// What homes serve for: each needed value has a home, and no two homes share a register.
pub fn homes_serve(world: &World<'_>)
    ensures { HomesServe world.now }
{
    types_are_ordered(world.classes());
}

/// A method has one list of homes by a typing.
pub fn homes_are_one(world: &World<'_>)
    ensures { HomesAreOne world.now }
{
    let _classes = world.classes();
}

/// What is kept for a local at a place is what is needed there.
pub fn needed_are_kept(world: &World<'_>)
    ensures { NeededAreKept }
{
    types_are_ordered(world.classes());
}
