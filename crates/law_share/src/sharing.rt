ghost use Rattle.law_share.specs.Laws.{AllotmentIsOne, MethodsShareInOneWay, RegistersAreNoMore, RegistersHaveNumbers, SharingOrKept};
ghost use Rattle.law_share.specs.Laws.{VariablesAreOne, WrittenStayApart, KeptAreRenamed, RenamedEndAlike, RenamedEndInStep};
ghost use Rattle.law_share.specs.Renumbered.{OperationsAreRenumbered, RenumberedBeginAlike, RenumberedStayApart};
ghost use Rattle.law_share.specs.Retyped.{RenamedAreTyped, RenumberedApply, SharedHaveTypes};

use jc_base::World;
use jc_control::instructions_are_placed;
use jc_decode::instructions_are_listed;
use jc_ops::operations_are_sound;
use jc_rules::{footprint_laws, typing_laws};
use law_alike::{starts_refuse_alike, steps_are_alike, typed_states_stay};
use law_laid::{operations_are_kept, typings_are_kept};
use law_sound::{arguments_are_handed, typed_code_never_fails};
use vm_step::runs_exist;

/// A list of types has one list of variables, these share registers in one way, and so each register has one new number.
/// None is greater than the old one, and no method has more registers than before.
pub fn sharing_is_one()
    ensures variables { VariablesAreOne }
    ensures allotted { AllotmentIsOne }
    ensures numbers { RegistersHaveNumbers }
    ensures fewer { RegistersAreNoMore }
{}

/// With its registers shared no instruction writes over what is live after it.
pub fn written_stay_apart()
    ensures { WrittenStayApart }
{}

/// By its least card typing a method shares registers in one way, or keeps those that it has.
pub fn methods_share_in_one_way(world: &World<'_>)
    ensures one { MethodsShareInOneWay world.now }
    ensures kept { SharingOrKept world.now }
{
    typing_laws(world);
}

/// An operation that applies to registers, and stores below their types, does so to others of the same types, once its
/// registers are renumbered.
pub fn renumbered_apply(world: &World<'_>)
    ensures { RenumberedApply world.now }
{
    footprint_laws(world);
}

/// A method whose registers are renamed has a card typing where the method has one: each register keeps its type.
pub fn renamed_are_typed(world: &World<'_>)
    ensures { RenamedAreTyped world.now }
{
    instructions_are_listed();
    instructions_are_placed();
    operations_are_kept();
    typings_are_kept();
    operations_are_sound(world);
    renumbered_apply(world);
    let _ = world.classes().records();
}

/// Registers that variables share have types, under which each register keeps its own.
pub fn shared_have_types(world: &World<'_>)
    ensures { SharedHaveTypes world.now }
{
    let _ = world.classes().records();
}

/// Where variables share registers, each operation of a method has the number of its register renewed and is else the same. It writes
/// none that has to hold what is live after it, and what is live at the start is held there.
pub fn operations_are_renumbered(world: &World<'_>)
    ensures same { OperationsAreRenumbered world.now }
    ensures apart { RenumberedStayApart world.now }
    ensures begin { RenumberedBeginAlike world.now }
{
    let _ = world.classes().records();
}

/// Where each method with code has its counterpart in another world, which is the method with its registers renamed, each run
/// there takes the same steps: it ends after as many as in this world, in the same way and with the same objects and static
/// fields, or goes on as long.
pub fn renamed_end_alike(world: &World<'_>)
    ensures alike { RenamedEndAlike world.now }
    ensures in_step { RenamedEndInStep world.now }
{
    operations_are_sound(world);
    footprint_laws(world);
    runs_exist(world);
    typed_code_never_fails(world);
    arguments_are_handed(world);
    steps_are_alike(world);
    typed_states_stay(world);
    starts_refuse_alike(world);
    let _ = world.classes().records();
}

/// A method that is the same in another world, which differs in code alone, is one renamed by the identity.
pub fn kept_are_renamed(world: &World<'_>)
    ensures { KeptAreRenamed world.now }
{
    operations_are_kept();
    let _ = world;
}
