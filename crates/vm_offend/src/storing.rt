//! What is done with a store of words keeps the memory that it was lent: told by the names of the loans, so that a caller
//! knows what the slices hold afterwards.
ghost use Rattle.std.specs.Prelude.{◌≡◌, [], None, length};
ghost use Rattle.vm_store.specs.Cells.{words};
ghost use Rattle.vm_store.specs.State.{IsRunning};
ghost use Rattle.vm_step.specs.Start.{start_fault, entry_state};
ghost use Rattle.vm_step.specs.Run.{Runs};
ghost use Rattle.vm_run.specs.Turn.{with_ending};
ghost use Rattle.vm_check.specs.Shaped.{IsShaped};
ghost use Rattle.vm_offend.specs.WordStore.{state_in_words, IsLaidOut};
ghost use Rattle.vm_offend.specs.Typed.{AreTypedWords};
ghost use Rattle.vm_offend.specs.Sized.{static_cells};

use crate::WordStore;
use jc_base::World;
use vm_run::Known;
use vm_step::{Args, Ending};

/// Begins a run of an entry in a store that has neither frames nor objects yet.
pub(crate) fn begin(
    store: &mut WordStore<'_, '_, '_, '_>,
    world: &World<'_>,
    entry: u16,
    args: &Args<'_>,
)
    requires well { IsLaidOut store.old }
    requires world { store.old.world.now ≡ world.now }
    requires no_frame { (state_in_words store.old).frames ≡ [] }
    requires no_object { (state_in_words store.old).heap ≡ [] }
    requires statics { length (state_in_words store.old).statics ≡ static_cells world.now }
    requires begins { start_fault world.now entry args.now ≡ None }
    ensures state { state_in_words store.new ≡ entry_state words world.now entry args.now }
    ensures well { IsLaidOut store.new }
    ensures world { store.new.world.now ≡ world.now }
    ensures ram { store.new.ram.ghost_name ≡ store.old.ram.ghost_name }
    ensures heap { store.new.heap.ghost_name ≡ store.old.heap.ghost_name }
    ensures statics { store.new.statics.ghost_name ≡ store.old.statics.ghost_name }
{
    vm_run::begin(store, world, entry, args);
}

/// Takes at most so many steps of verified code.
pub(crate) fn run(
    store: &mut WordStore<'_, '_, '_, '_>,
    world: &World<'_>,
    budget: u64,
) -> Option<Ending>
    requires well { IsLaidOut store.old }
    requires world { store.old.world.now ≡ world.now }
    requires running { IsRunning (state_in_words store.old) }
    requires keeps { AreTypedWords world.now (state_in_words store.old) }
    ensures runs { Runs words world.now budget (state_in_words store.old) (with_ending result (state_in_words store.new)) }
    ensures shaped { IsShaped world.now (state_in_words store.new) }
    ensures well { IsLaidOut store.new }
    ensures world { store.new.world.now ≡ world.now }
    ensures ram { store.new.ram.ghost_name ≡ store.old.ram.ghost_name }
    ensures heap { store.new.heap.ghost_name ≡ store.old.heap.ghost_name }
    ensures statics { store.new.statics.ghost_name ≡ store.old.statics.ghost_name }
{
    vm_run::run(store, world, Known::Verified, budget)
}
