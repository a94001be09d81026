ghost use Rattle.vm_store.specs.Laws.{LeastTypesAreLeast, TypesFallWithObjects, WordsEraseCells, WritesKeepKinds, TypedReads, TypedWrites};
ghost use Rattle.vm_store.specs.NewObjects.{NewInstancesAreTyped, NewArraysAreTyped};
ghost use Rattle.vm_store.specs.Erasing.{StatesErase};

use jc_base::{Classes, World};

/// The least type of a cell is the least of the types that it has.
pub fn least_types_are_least(classes: &Classes)
    ensures { LeastTypesAreLeast classes.now }
{
    let _ = classes.records();
}

/// More objects only lower the least type of a cell.
pub fn types_fall_with_objects(classes: &Classes)
    ensures { TypesFallWithObjects classes.now }
{}

/// A bare word is what a tagged cell is without its kind, in every operation.
pub fn words_erase_cells()
    ensures { WordsEraseCells }
{}

/// A write to a cell of an object changes no kind of any object.
pub fn writes_keep_kinds()
    ensures { WritesKeepKinds }
{}

/// A cell that is read from a typed heap has the type of its place, and the heap stays typed where a cell
/// of that type is written.
pub fn typed_heaps_stay_typed(classes: &Classes)
    ensures reads { TypedReads classes.now }
    ensures writes { TypedWrites classes.now }
{}

/// A heap of typed objects stays one where an object is made.
pub fn new_objects_are_typed(world: &World<'_>)
    ensures instances { NewInstancesAreTyped world.now.classes }
    ensures arrays { NewArraysAreTyped world.now.classes }
{
    let _ = world.classes().records();
}

/// Every change of a state of tagged cells is the same change of the state of their words.
pub fn states_erase(world: &World<'_>)
    ensures { StatesErase world.now.methods world.now.classes }
{
    let _ = world.classes().records();
}
