//! The tests of a machine of tagged cells after an operation.
ghost use Rattle.std.specs.Prelude.{◌≡◌, ◌+◌, ◌<◌, ◌≤ℤ◌, ◌<ℤ◌, pos, length, true, IfNone};
ghost use Rattle.vm_store.specs.State.{IsRunning, top};
ghost use Rattle.vm_step.specs.Methods.{code_at};
ghost use Rattle.vm_step.specs.Settled.{is_over, is_target_place, fault_next, fault_target, place_number};
ghost use Rattle.vm_run.specs.Known.{KnowPlaces, LandsAt};

use crate::known::{Known, code};
use jc_base::World;
use jc_decode::instructions_are_listed;
use vm_step::Fault;
use vm_store::{CellForm, Store};

/// Whether so many cells and so many more are above what the operand stack of the method on top may have.
fn is_over<S: Store>(store: &S, world: &World<'_>, depth: usize, more: usize) -> bool
    requires well { S.well store.now }
    requires running { IsRunning (S.state store.now) }
    requires method { (top (S.state store.now)).method < length world.now.methods }
    ensures value { result ≡ is_over world.now (S.state store.now) (depth + more) }
{
    let most = usize::from(world.method(store.method()).max_stack);
    most < more || most - more < depth
}

/// What is wrong with a stack of so many cells and so many more before the instruction at a place.
pub fn fault_next<S: Store>(
    store: &S,
    world: &World<'_>,
    depth: usize,
    more: usize,
    place: u32,
) -> Option<Fault>
    requires well { S.well store.now }
    requires running { IsRunning (S.state store.now) }
    requires method { (top (S.state store.now)).method < length world.now.methods }
    ensures { result ≡ fault_next S.Cell.cells world.now (S.state store.now) (depth + more) place }
{
    if !S::Cell::checks() {
        None
    } else if is_over(store, world, depth, more) {
        Some(Fault::StackFault)
    } else if code(world, store.method()).bytes.len() <= place as usize {
        Some(Fault::JumpFault)
    } else {
        None
    }
}

/// What is wrong with a jump to a place, which is told by its distance from the first byte of the code.
pub fn fault_target<S: Store>(
    store: &S,
    world: &World<'_>,
    known: Known<'_>,
    to: i64,
) -> Option<Fault>
    requires well { S.well store.now }
    requires running { IsRunning (S.state store.now) }
    requires method { (top (S.state store.now)).method < length world.now.methods }
    requires places { KnowPlaces S.Cell.cells.checks world.now known }
    requires lands { LandsAt world.now known (top (S.state store.now)).method to }
    ensures value { result ≡ fault_target S.Cell.cells world.now (S.state store.now) to }
    ensures target { IfNone result (is_target_place (code_at world.now (top (S.state store.now)).method) to ≡ true) }
{
    match known {
        Known::Verified => None,
        Known::Marked(_) if is_over(store, world, store.depth(), 0) => Some(Fault::StackFault),
        Known::Marked(places) if places.has_target(world, store.method(), to) => None,
        Known::Marked(_) => Some(Fault::JumpFault),
    }
}

/// The place of a target.
pub fn place_of(world: &World<'_>, method: u16, to: i64) -> u16
    requires method { method < length world.now.methods }
    requires target { is_target_place (code_at world.now method) to ≡ true }
    ensures { result ≡ place_number to }
{
    instructions_are_listed();
    let _short = code(world, method);
    as_place(to)
}

/// A number of 16 bits as a place.
fn as_place(to: i64) -> u16
    requires low { pos 0 ≤ℤ to }
    requires high { to <ℤ pos 65536 }
    ensures { result ≡ place_number to }
{
    to as u16
}
