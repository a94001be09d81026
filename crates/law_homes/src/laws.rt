ghost use Rattle.jc_base.specs.World.{Linked};
ghost use Rattle.vm_store.specs.declared.cell.Cell.{Cell};
ghost use Rattle.law_homes.specs.Edges.{CellsAreFew, CellsRun, CopiesAreFew, EdgesRun, KeptStacksStay, LeadersLoad, OperandsLoad, StacksSpill, StartsHold, UnderHold, UnderLoads};
ghost use Rattle.law_homes.specs.Moves.{IsExecutable, CopiesKeepHomes, CopiesRun, HomesAreCopied, HomesOwnRegisters, LoadedIsStack, LoadsRun, OperationsGoOn};
ghost use Rattle.law_homes.specs.Premises.{AreMoveLaws};
ghost use Rattle.law_homes.specs.Stores.{StoresRun};
ghost use Rattle.law_homes.specs.Laws.{HomesStay, IncrementsRunAlike, KeptRunAlike, LoadsRunAlike, LoadsWriteNone, LocalsStay, NamesNoneWritesNone, StepsExecute, StepsStandAtPlaces, StoresRunAlike, WrittenHold};

use jc_base::{World, subclasses_extend, types_are_ordered};
use jc_ops::operations_are_sound;
use jc_rules::rule_laws;
use law_rewritten_typing::edges_carry;
use xf_homes::{homes_serve, needed_are_kept};

/// Instructions that name no register, loads and increments of a local from a home that holds it, and stores into a home
/// run alike to those of the source.
pub fn homes_run_alike()
    ensures kept { KeptRunAlike Cell }
    ensures loads { LoadsRunAlike Cell }
    ensures increments { IncrementsRunAlike Cell }
    ensures stores { StoresRunAlike Cell }
{}

/// After a step each home holds what it held, where nothing of it was written, and a home that was written holds what was
/// stored.
pub fn homes_hold()
    ensures locals { LocalsStay Cell }
    ensures apart { HomesStay Cell }
    ensures written { WrittenHold Cell }
{}

/// The instruction at the place of a step is that step's.
pub fn steps_stand_at_places()
    ensures { StepsStandAtPlaces }
{}

/// An operation whose demands are met goes on, and a load and then a store copy a value.
pub fn copies_run(world: &World<'_>)
    ensures on { OperationsGoOn world.now }
    ensures copies { CopiesRun world.now }
{
    let _ = world.classes().records();
}

/// A copy keeps every home that holds its value, the one that it writes too.
pub fn copies_keep_homes()
    ensures { CopiesKeepHomes }
{}

/// A frame at the place of a step executes the operation of that step.
pub fn steps_execute(world: &World<'_>)
    ensures { StepsExecute world.now }
{
    operations_are_sound(world);
    let _ = world.classes().records();
}

/// Loads of homes run one after the other, each in a step; those of the homes of a whole stack put that stack back.
pub fn loads_run(world: &World<'_>)
    ensures run { LoadsRun world.now }
    ensures stack { LoadedIsStack }
{
    operations_are_sound(world);
    let _ = world.classes().records();
}

/// The copies of a value from a home to others run one after the other: these hold it then, and every home that held its
/// value holds it still.
pub fn homes_are_copied(world: &World<'_>)
    ensures own { HomesOwnRegisters }
    ensures copied { HomesAreCopied world.now }
{
    operations_are_sound(world);
    let _ = world.classes().records();
}

/// An operation that names no register writes none, and neither does a load.
pub fn none_are_written(world: &World<'_>)
    ensures named { NamesNoneWritesNone world.now }
    ensures loads { LoadsWriteNone world.now }
{
    let _ = world.classes().records();
}

/// What lists of moves rest on holds of each world, beside one that can run.
pub fn premises_hold(source: &World<'_>)
    ensures { (w : Linked) → IsExecutable w → AreMoveLaws source.now w }
{
    homes_serve(source);
    edges_carry(source);
    rule_laws(source);
    types_are_ordered(source.classes());
    subclasses_extend(source.classes());
}

/// In code of each world that can run: the loads of a leader put its stack back, and the stores before one keep the stack
/// in homes.
pub fn stacks_move(source: &World<'_>)
    ensures loads { (w : Linked) → IsExecutable w → LeadersLoad source.now w }
    ensures stores { (w : Linked) → IsExecutable w → StacksSpill source.now w }
{
    premises_hold(source);
}

/// There the copies of an edge bring each local into all homes that are needed where it leads, and those of cells each cell
/// into its home; at a method's start the arguments stand in theirs.
pub fn edges_run(source: &World<'_>)
    ensures locals { (w : Linked) → IsExecutable w → EdgesRun source.now w }
    ensures cells { (w : Linked) → IsExecutable w → CellsRun source.now w }
    ensures starts { StartsHold source.now }
{
    homes_serve(source);
    premises_hold(source);
}

/// There the loads after the stores of a conditional's stack put its operands back, and the cells under them, which stand in their
/// homes after the branch as before it.
pub fn operands_load(source: &World<'_>)
    ensures operands { (w : Linked) → IsExecutable w → OperandsLoad source.now w }
    ensures under { (w : Linked) → IsExecutable w → UnderLoads source.now w }
    ensures holds { (w : Linked) → IsExecutable w → UnderHold source.now w }
{
    edges_carry(source);
    premises_hold(source);
}

/// No more cells are kept than a stack has, and an edge has no more copies than there are homes. A stack that is kept has no
/// uninitialised object.
pub fn moves_are_few(source: &World<'_>)
    ensures cells { CellsAreFew source.now }
    ensures copies { CopiesAreFew source.now }
    ensures stacks { (w : Linked) → IsExecutable w → KeptStacksStay source.now w }
{
    needed_are_kept(source);
    edges_carry(source);
    types_are_ordered(source.classes());
    premises_hold(source);
}

/// There a store of the source goes into the first home that is needed afterwards, and from there to the others.
pub fn stores_run(source: &World<'_>)
    ensures stores { (w : Linked) → IsExecutable w → StoresRun source.now w }
{
    premises_hold(source);
}
