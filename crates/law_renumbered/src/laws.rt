ghost use Rattle.law_renumbered.specs.Laws.{RenumberedIsRenamed, SharedNumbersServe};

use jc_base::World;
use jc_control::instructions_are_placed;
use jc_ops::operations_are_sound;
use law_share::operations_are_renumbered;

/// The numbers that a method's variables share serve it, and so do those of a method that keeps its registers.
pub fn shared_numbers_serve(world: &World<'_>)
    ensures { SharedNumbersServe world.now }
{
    operations_are_renumbered(world);
    let _ = world.classes().records();
}

/// A method whose registers have such numbers, and which is laid so in another world, is there the method with its registers
/// renamed.
pub fn renumbered_is_renamed(world: &World<'_>)
    ensures { RenumberedIsRenamed world.now }
{
    instructions_are_placed();
    operations_are_sound(world);
    let _ = world.classes().records();
}
