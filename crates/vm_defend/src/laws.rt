ghost use Rattle.vm_defend.specs.Begun.{StartsAreShaped};
ghost use Rattle.vm_defend.specs.Reading.{SlotsAreInside};

use jc_base::World;
use vm_run::starts_are_sized;

/// The state in which a run begins has the shape of its world.
pub fn starts_are_shaped(world: &World<'_>)
    ensures { StartsAreShaped world.now }
{
    starts_are_sized(world);
}

/// The cells of each static field lie among those of all.
pub fn slots_are_inside(world: &World<'_>)
    ensures { SlotsAreInside world.now }
{
    let _slots = world.classes();
}
