ghost use Rattle.std.specs.Prelude.{◌≡◌, None, Some, IfOk, IfErr, OnErr};
ghost use Rattle.vm_offend.specs.Sized.{static_cells, AreSized};
ghost use Rattle.vm_step.specs.Start.{start_fault};
ghost use Rattle.law_sound.specs.Soundness.{IsFaultFree};
ghost use Rattle.vm_offend.specs.Held.{IsRunOf};
ghost use Rattle.vm_offend.specs.Begun.{IsBegun};

use crate::machine::Machine;
use crate::storing::begin;
use crate::window::Sizes;
use crate::{Counts, WordStore};
use card_verify::Accepted;
use jc_base::World;
use law_sound::typed_code_never_fails;
use vm_run::{start_fault, starts_are_sized, starts_erase};
use vm_step::{Args, StartFault};

/// The memory that a run of the world needs.
pub fn sizes(world: &World<'_>) -> Sizes
    ensures ram { result.ram ≡ 32832 }
    ensures heap { result.heap ≡ 45056 }
    ensures statics { result.statics ≡ static_cells world.now }
{
    Sizes {
        ram: 32832,
        heap: 45056,
        statics: vm_defend::static_cells(world) as usize,
    }
}

/// Begins a run of a method with these arguments, in memory of the lengths that `sizes` tells, whatever it holds. No run of
/// an accepted world meets a fault, whether this one begins or not.
pub fn start(
    accepted: &Accepted<'_>,
    entry: u16,
    args: &Args<'_>,
    ram: &mut [u16],
    heap: &mut [u16],
    statics: &mut [u16],
) -> Result<Machine, StartFault>
    requires { AreSized accepted.now ram.old heap.old statics.old }
    ensures begun { IfOk result (λ m. IsBegun accepted.now entry args.now m ram.new heap.new statics.new) }
    ensures run { IfOk result (λ m. IsRunOf accepted.now m ram.new heap.new statics.new) }
    ensures refused { IfErr result (λ fault. start_fault accepted.now entry args.now ≡ Some fault) }
    ensures ram_as_before { OnErr result (ram.new ≡ ram.old) }
    ensures heap_as_before { OnErr result (heap.new ≡ heap.old) }
    ensures statics_as_before { OnErr result (statics.new ≡ statics.old) }
    ensures fault_free { IsFaultFree accepted.now }
{
    typed_code_never_fails(accepted.world());
    match start_fault(accepted.world(), entry, args) {
        Some(fault) => Err(fault),
        None => Ok(begun(accepted.world(), entry, args, ram, heap, statics)),
    }
}

/// The run before its first step.
fn begun(
    world: &World<'_>,
    entry: u16,
    args: &Args<'_>,
    ram: &mut [u16],
    heap: &mut [u16],
    statics: &mut [u16],
) -> Machine
    requires sized { AreSized world.now ram.old heap.old statics.old }
    requires begins { start_fault world.now entry args.now ≡ None }
    ensures { IsBegun world.now entry args.now result ram.new heap.new statics.new }
{
    starts_erase();
    starts_are_sized(world);
    let nothing = Counts {
        frames: 0,
        objects: 0,
        cells: 0,
    };
    let mut store = WordStore::over(world, ram, heap, statics, nothing);
    begin(&mut store, world, entry, args);
    Machine::of(store.counts())
}
