ghost use Rattle.vm_run.specs.Verified.{HasRoomToCatch, AreVerified};
ghost use Rattle.std.specs.Prelude.{◌≡◌, IfNone, ◌+◌, ◌<◌, ◌≤◌, Some, Ok, IsSomeAnd, slice_get};
ghost use Rattle.vm_store.specs.State.{IsRunning, top};
ghost use Rattle.vm_store.specs.Store.{IsOf};
ghost use Rattle.vm_step.specs.Run.{Runs};
ghost use Rattle.vm_run.specs.Known.{KnowPlaces};
ghost use Rattle.vm_run.specs.Turn.{with_ending};
ghost use Rattle.vm_check.specs.Shaped.{IsShaped};
ghost use Rattle.jc_ops.specs.Resolve.{Resolves};
ghost use Rattle.jc_ops.specs.Sound.{IsSound};
ghost use Rattle.vm_step.specs.Methods.{code_at, instruction_at};
ghost use Rattle.vm_step.specs.Step.{Steps, performed};

use crate::outcome::settle;
use crate::{Known, fetch, finish};
use jc_base::World;
use jc_decode::Placed;
use jc_ops::{Operation, Site, resolve};
use vm_act::act;
use vm_check::{Machine, fault_before};
use vm_step::{Ending, Fault};
use vm_store::TaggedStore;

/// A machine whose steps can be taken from each state that a run keeps.
pub trait Turning: Machine {
    /// There is room on a stack for what comes on it before the room is tested, and where nothing is tested the code was
    /// verified.
    fn steps_stand(world: &World<'_>)
        ensures room { HasRoomToCatch Self.stack_room Self.Cell.cells.checks }
        ensures verified { AreVerified Self.stack_room Self.Cell.cells (Self.keeps world.now) world.now };
}

impl Turning for TaggedStore {
    fn steps_stand(_world: &World<'_>) {}
}

/// At most so many steps from a state in which a method runs: how the run ends, or none where it goes on after them.
pub fn run<M: Turning>(
    store: &mut M,
    world: &World<'_>,
    known: Known<'_>,
    budget: u64,
) -> Option<Ending>
    requires well { M.well store.old }
    requires running { IsRunning (M.state store.old) }
    requires world { IsOf (M.fixed store.old) world.now }
    requires keeps { M.keeps world.now (M.state store.old) }
    requires places { KnowPlaces M.Cell.cells.checks world.now known }
    ensures runs { Runs M.Cell.cells world.now budget (M.state store.old) (with_ending result (M.state store.new)) }
    ensures shaped { IsShaped world.now (M.state store.new) }
    ensures running { IfNone result (IsRunning (M.state store.new)) }
    ensures keeps { IfNone result (M.keeps world.now (M.state store.new)) }
    ensures well { M.well store.new }
    ensures fixed { M.fixed store.new ≡ M.fixed store.old }
{
    M::tests_suffice(world);
    'steps: for _taken in 0..budget {
        match step(store, world, known) {
            Some(ending) => return Some(ending),
            None => {}
        }
    }
    None
}

/// One step from a state in which a method runs: how the run ends, or none where it goes on.
pub fn step<M: Turning>(store: &mut M, world: &World<'_>, known: Known<'_>) -> Option<Ending>
    requires well { M.well store.old }
    requires running { IsRunning (M.state store.old) }
    requires world { IsOf (M.fixed store.old) world.now }
    requires keeps { M.keeps world.now (M.state store.old) }
    requires places { KnowPlaces M.Cell.cells.checks world.now known }
    ensures steps { Steps M.Cell.cells world.now (M.state store.old) (with_ending result (M.state store.new)) }
    ensures well { M.well store.new }
    ensures fixed { M.fixed store.new ≡ M.fixed store.old }
{
    M::steps_stand(world);
    M::tests_suffice(world);
    let method = store.method();
    match fetch(world, known, method, store.place()) {
        None => finish(store, Ending::Faulted(Fault::JumpFault)),
        Some(placed) => {
            let site = Site {
                method,
                place: placed.place,
            };
            match resolve(world, site, placed.insn) {
                Err(_) => finish(store, Ending::Faulted(Fault::TypeFault)),
                Ok(operation) => perform(store, world, known, placed, operation),
            }
        }
    }
}

/// The operation of the instruction at the place of the frame on top.
fn perform<M: Turning>(
    store: &mut M,
    world: &World<'_>,
    known: Known<'_>,
    placed: Placed,
    operation: Operation,
) -> Option<Ending>
    requires well { M.well store.old }
    requires running { IsRunning (M.state store.old) }
    requires world { IsOf (M.fixed store.old) world.now }
    requires keeps { M.keeps world.now (M.state store.old) }
    requires places { KnowPlaces M.Cell.cells.checks world.now known }
    requires instruction { instruction_at (code_at world.now (top (M.state store.old)).method) (top (M.state store.old)).place
        ≡ Some placed }
    requires short { placed.place + placed.insn.len ≤ 32767 }
    requires resolves { IsSomeAnd (slice_get world.now.methods (top (M.state store.old)).method)
        (λ m. Resolves world.now m placed.place placed.insn (Ok operation)) }
    requires sound { IsSomeAnd (slice_get world.now.methods (top (M.state store.old)).method)
        (λ m. IsSound world.now m placed.place operation) }
    ensures outcome { with_ending result (M.state store.new)
        ≡ performed M.Cell.cells world.now placed operation (M.state store.old) }
    ensures well { M.well store.new }
    ensures fixed { M.fixed store.new ≡ M.fixed store.old }
{
    M::steps_stand(world);
    M::tests_suffice(world);
    let _most = world.method(store.method()).max_stack;
    match fault_before(store, world, operation) {
        Some(fault) => finish(store, Ending::Faulted(fault)),
        None => {
            let lead = act(store, world, placed.insn, operation);
            settle(
                store,
                world,
                known,
                u32::from(placed.place) + placed.insn.len,
                lead,
            )
        }
    }
}
