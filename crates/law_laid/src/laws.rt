ghost use Rattle.law_laid.specs.Laws.{CardTypingsAreKept, CatchesByPool, DemandsAreKept, FlowTypingsAreKept, LaidIsTyped, MethodsAreKept, OperationsAreKept, SymbolTypingsAreKept};

use jc_base::World;
use jc_decode::instructions_are_listed;
use jc_ops::{entries_are_named, operations_are_sound};
use jc_rules::rule_laws;

/// In a world that differs in code alone each method and all symbols have the card typings, and each method the dataflow typings,
/// that they had.
pub fn typings_are_kept()
    ensures card { CardTypingsAreKept }
    ensures symbols { SymbolTypingsAreKept }
    ensures flow { FlowTypingsAreKept }
{}

/// A number names the same method in worlds that differ in code alone, apart from its code.
pub fn methods_are_kept()
    ensures { MethodsAreKept }
{}

/// An instruction has the same operation in worlds that differ in code alone, and this asks the same.
pub fn operations_are_kept()
    ensures operations { OperationsAreKept }
    ensures demands { DemandsAreKept }
{}

/// All handlers of a method with one number of the constant pool catch the same class.
pub fn catches_by_pool()
    ensures { CatchesByPool }
{}

/// A method whose code is laid for symbols has each card typing of these: the same registers, and the same stacks, in which
/// uninitialised objects carry the places where their `new` is laid.
pub fn laid_is_typed(world: &World<'_>)
    ensures { LaidIsTyped world.now }
{
    rule_laws(world);
    operations_are_sound(world);
    entries_are_named(world);
    instructions_are_listed();
}
