ghost use Rattle.jc_rules.specs.Demand.{AreDecided};
ghost use Rattle.jc_rules.specs.FlowLaws.{AreRules, IsOrderOfCells, JoinsStayReady, LeastIsOne, TopIsBottom};
ghost use Rattle.jc_rules.specs.Footprint.{MetIsThere, AskedIsThere, OperationReads, FootprintIsOne, OperationLeaves, OperationNamesNone, AlikeLeaveAlike};
ghost use Rattle.jc_rules.specs.Whole.{OperationKeepsWhole};
ghost use Rattle.jc_rules.specs.Laws.{OperationDecides, OperationKeeps, OperationFalls, OperationFallsOnCard, OperationRaises, OperationStays, OperationRests, RuleFalls, RuleFallsOnCard, RuleRaises, RuleRises, RuleStays, RuleRests};

use jc_base::{World, types_are_ordered};
use jc_control::instructions_are_placed;
use jc_decode::instructions_are_listed;
use jc_ops::operations_are_sound;

/// The rules of a world are monotone: where one applies, it applies to each lesser frame with a lesser result,
/// in the dataflow in either case, and on the card where it applies there.
pub fn rule_falls(world: &World<'_>)
    ensures flow { RuleFalls world.now }
    ensures card { RuleFallsOnCard world.now }
{
    operations_are_sound(world);
    types_are_ordered(world.classes());
}

/// On the card the rules of a world raise registers, as they tell, and those that are above all that is stored
/// stay; where all registers stay, the rule stores nothing above them in the dataflow.
pub fn rule_raises(world: &World<'_>)
    ensures raises { RuleRaises world.now }
    ensures rises { RuleRises world.now }
    ensures stays { RuleStays world.now }
    ensures rests { RuleRests world.now }
{
    types_are_ordered(world.classes());
}

/// The same of operations, in any method.
pub fn operation_laws(world: &World<'_>)
    ensures decides { OperationDecides world.now }
    ensures keeps { OperationKeeps world.now }
    ensures keeps_whole { OperationKeepsWhole world.now }
    ensures falls { OperationFalls world.now }
    ensures falls_on_card { OperationFallsOnCard world.now }
    ensures raises { OperationRaises world.now }
    ensures stays { OperationStays world.now }
    ensures rests { OperationRests world.now }
{
    types_are_ordered(world.classes());
}

/// What operations ask and leave as numbers, whatever the types are.
pub fn footprint_laws(world: &World<'_>)
    ensures met { MetIsThere world.now }
    ensures asked { AskedIsThere }
    ensures reads { OperationReads world.now }
    ensures one { FootprintIsOne world.now }
    ensures leaves { OperationLeaves world.now }
    ensures names_none { OperationNamesNone world.now }
    ensures alike { AlikeLeaveAlike world.now }
{
    let _classes = world.classes();
}

/// Whether what is found is as wanted, and a demand is met, is decided by the computed order of types.
pub fn demands_are_decided(world: &World<'_>)
    ensures { AreDecided world.now.classes }
{
    types_are_ordered(world.classes());
}

/// The order of frames, and what dataflow typings have of it.
pub fn typing_laws(world: &World<'_>)
    ensures order { IsOrderOfCells world.now.classes }
    ensures ready { JoinsStayReady world.now.classes }
    ensures least { LeastIsOne world.now }
    ensures unset { TopIsBottom world.now }
{
    types_are_ordered(world.classes());
}

/// What dataflow analyses rest on: a world, where instructions stand, the order of types, and the laws of rules.
pub fn rule_laws(world: &World<'_>)
    ensures { AreRules world.now }
{
    instructions_are_listed();
    instructions_are_placed();
    operations_are_sound(world);
    types_are_ordered(world.classes());
}
