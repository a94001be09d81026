ghost use Rattle.std.specs.Prelude.{◌≡◌, None, IfOk, IfErr, sum_by};
ghost use Rattle.jc_base.specs.Cell.{width};
ghost use Rattle.vm_step.specs.Start.{start_fault};
ghost use Rattle.vm_defend.specs.Held.{IsRunOf};
ghost use Rattle.vm_defend.specs.Begun.{IsBegun, RefusesRun};
ghost use Rattle.vm_defend.specs.Safe.{BeginsSafely};

use crate::state::State;
use jc_base::World;
use law_sound::typed_code_never_fails;
use std::alloc::{AllocError, Global};
use vm_run::{MarkedPlaces, begin, start_fault, starts_are_sized};
use vm_step::{Args, StartFault};
use vm_store::TaggedStore;

/// Why a run was not begun.
#[derive(Clone, Copy)]
pub enum StartEnd {
    Fault(StartFault),
    Memory,
}

/// Begins a run of a method with these arguments, and takes all the memory that it needs.
pub fn start(
    alloc: Global,
    world: &World<'_>,
    entry: u16,
    args: &Args<'_>,
) -> Result<State, StartEnd>
    ensures begun { IfOk result (λ s. IsBegun world.now entry args.now s) }
    ensures run { IfOk result (λ s. IsRunOf world.now s) }
    ensures safe { IfOk result (λ s. BeginsSafely world.now s) }
    ensures refused { IfErr result (λ end. RefusesRun world.now entry args.now end) }
{
    typed_code_never_fails(world);
    match start_fault(world, entry, args) {
        Some(fault) => Err(StartEnd::Fault(fault)),
        None => match state(alloc, world, entry, args) {
            Ok(state) => Ok(state),
            Err(_) => Err(StartEnd::Memory),
        },
    }
}

/// The state of a run before its first step.
fn state(alloc: Global, world: &World<'_>, entry: u16, args: &Args<'_>) -> Result<State, AllocError>
    requires { start_fault world.now entry args.now ≡ None }
    ensures begun { IfOk result (λ s. IsBegun world.now entry args.now s) }
    ensures run { IfOk result (λ s. IsRunOf world.now s) }
{
    starts_are_sized(world);
    let places = MarkedPlaces::of(alloc, world)?;
    let mut store = TaggedStore::new(alloc, static_cells(world))?;
    begin(&mut store, world, entry, args);
    Ok(State::of(store, places))
}

/// How many cells the static fields of a world have.
pub fn static_cells(world: &World<'_>) -> u16
    ensures { result ≡ sum_by (λ f. width f.kind) world.now.statics }
{
    let _limits = world.classes();
    let mut cells = 0;
    'fields: for n in 0..world.static_count() {
        cells += world.static_field(n).kind.width();
    }
    cells
}
