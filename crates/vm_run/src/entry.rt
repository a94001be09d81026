ghost use Rattle.std.specs.Prelude.{◌≡◌, [], None, length, sum_by};
ghost use Rattle.jc_base.specs.Cell.{width};
ghost use Rattle.vm_store.specs.Store.{IsOf};
ghost use Rattle.vm_step.specs.Start.{start_fault, entry_state};
ghost use Rattle.vm_run.specs.Starts.{StartStatesErase, StartsAreSized};

use crate::arrays::{make_argument_arrays, make_initial_arrays};
use crate::frame::hand_arguments;
use crate::statics::write_statics;
use jc_base::World;
use vm_step::Args;
use vm_store::Store;

/// Begins a run of an entry in a store that has neither frames nor objects yet, and cells for the static fields.
pub fn begin<S: Store>(store: &mut S, world: &World<'_>, entry: u16, args: &Args<'_>)
    requires well { S.well store.old }
    requires world { IsOf (S.fixed store.old) world.now }
    requires no_frame { (S.state store.old).frames ≡ [] }
    requires no_object { (S.state store.old).heap ≡ [] }
    requires statics { length (S.state store.old).statics ≡ sum_by (λ f. width f.kind) world.now.statics }
    requires begins { start_fault world.now entry args.now ≡ None }
    ensures state { S.state store.new ≡ entry_state S.Cell.cells world.now entry args.now }
    ensures well { S.well store.new }
    ensures fixed { S.fixed store.new ≡ S.fixed store.old }
{
    let _facts = world.classes();
    write_statics(store, world);
    make_initial_arrays(store, world);
    make_argument_arrays(store, args);
    store.begin(world, entry);
    let types = world.method(entry).sig.args.as_slice();
    hand_arguments(store, types, args, world.array_count());
}

/// A run of words begins with the words of the state in which one of tagged cells begins.
pub fn starts_erase()
    ensures { StartStatesErase }
{}

/// The state in which a run begins has registers for its entry, and cells for each static field.
pub fn starts_are_sized(world: &World<'_>)
    ensures { StartsAreSized world.now }
{
    let _facts = world.classes();
}
