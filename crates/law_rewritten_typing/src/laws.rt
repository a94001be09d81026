ghost use Rattle.law_rewritten_typing.specs.Edges.{CellsFillStack, EdgesCarry, ForksAreCut, ForksMatch, NeededHaveHomes};
ghost use Rattle.law_rewritten_typing.specs.Laws.{RewrittenIsTyped};
ghost use Rattle.law_rewritten_typing.specs.Premises.{AreTypingLaws};
ghost use Rattle.law_rewritten_typing.specs.Whole.{DerivedAreWhole};

use jc_base::{World, subclasses_extend};
use jc_ops::{entries_are_named, operations_are_sound, operations_go_alike};
use jc_rules::{footprint_laws, operation_laws, rule_laws};

/// The states of a least typing have whole stacks, and no register without a value.
pub fn derived_are_whole(world: &World<'_>)
    ensures { DerivedAreWhole world.now }
{
    operations_are_sound(world);
    rule_laws(world);
    operation_laws(world);
}

/// What the typing of rewritten code rests on holds of each world.
pub(crate) fn premises_hold(world: &World<'_>)
    ensures { AreTypingLaws world.now }
{
    subclasses_extend(world.classes());
    operations_are_sound(world);
    entries_are_named(world);
    operations_go_alike(world);
    rule_laws(world);
    operation_laws(world);
    footprint_laws(world);
    derived_are_whole(world);
}

/// The code that stands for a method has a card typing, in which each home's registers have the home's type.
pub fn rewritten_is_typed(world: &World<'_>)
    ensures { RewrittenIsTyped world.now }
{
    premises_hold(world);
}

/// What stands at a place has homes: the locals that are needed there, and the cells of a stack that is kept, which follow
/// one another. On an edge each local that is needed where it leads was stored, or is carried from a home where it begins.
/// Under the operands of a conditional branch or switch the homes of cells are matched by those where it leads.
pub fn edges_carry(world: &World<'_>)
    ensures needed { NeededHaveHomes world.now }
    ensures cells { CellsFillStack world.now }
    ensures edges { EdgesCarry world.now }
    ensures cuts { ForksAreCut world.now }
    ensures matches { ForksMatch world.now }
{
    premises_hold(world);
}
