//! What the lead of an operation comes to.
ghost use Rattle.std.specs.Prelude.{◌≡◌, ◌*◌, ◌<◌, ◌≤◌, length};
ghost use Rattle.jc_base.specs.Class.{IsClass};
ghost use Rattle.vm_store.specs.Kind.{IsArrayKind, IsNumbered, element_width};
ghost use Rattle.vm_store.specs.Objects.{has_room, new_instance_cells, array_cells};
ghost use Rattle.vm_store.specs.State.{IsRunning, top, register_count};
ghost use Rattle.vm_store.specs.Store.{IsOf};
ghost use Rattle.vm_step.specs.Settled.{goes_to, jumps_to, made, entered_call, settled};
ghost use Rattle.vm_run.specs.Known.{KnowPlaces, LandsAt};
ghost use Rattle.vm_run.specs.Turn.{with_ending, AreMethods};
ghost use Rattle.vm_step.specs.Raising.{ends};
ghost use Rattle.vm_act.specs.Lead.{LeadStands, PutStands, told, with_put};
ghost use Rattle.vm_run.specs.Leading.{LeadsOn, put_width};

use crate::after::{fault_next, fault_target, place_of};
use crate::known::Known;
use crate::{give_cell, give_int, give_nothing, raise, throw_object};
use jc_base::World;
use jc_ops::Holder;
use vm_act::{Lead, Put, perform_put};
use vm_step::{Ending, Plain, Value};
use vm_store::{CellForm, ObjectKind, Store};

/// On to the instruction at a place of the method on top.
pub fn go_to<S: Store>(store: &mut S, world: &World<'_>, next: u32) -> Option<Ending>
    requires well { S.well store.old }
    requires running { IsRunning (S.state store.old) }
    requires method { (top (S.state store.old)).method < length world.now.methods }
    requires short { next ≤ 32767 }
    ensures outcome { with_ending result (S.state store.new)
        ≡ goes_to S.Cell.cells world.now next (S.state store.old) (S.state store.old) }
    ensures well { S.well store.new }
    ensures fixed { S.fixed store.new ≡ S.fixed store.old }
{
    match fault_next(store, world, store.depth(), 0, next) {
        Some(fault) => finish(store, Ending::Faulted(fault)),
        None => {
            store.set_place(next as u16);
            None
        }
    }
}

/// To the target of a branch or switch.
pub fn jump_to<S: Store>(
    store: &mut S,
    world: &World<'_>,
    known: Known<'_>,
    to: i64,
) -> Option<Ending>
    requires well { S.well store.old }
    requires running { IsRunning (S.state store.old) }
    requires method { (top (S.state store.old)).method < length world.now.methods }
    requires places { KnowPlaces S.Cell.cells.checks world.now known }
    requires lands { LandsAt world.now known (top (S.state store.old)).method to }
    ensures outcome { with_ending result (S.state store.new) ≡ jumps_to S.Cell.cells world.now to (S.state store.old) }
    ensures well { S.well store.new }
    ensures fixed { S.fixed store.new ≡ S.fixed store.old }
{
    match fault_target(store, world, known, to) {
        Some(fault) => finish(store, Ending::Faulted(fault)),
        None => {
            let place = place_of(world, store.method(), to);
            store.set_place(place);
            None
        }
    }
}

/// A new instance, whose reference comes on the stack.
pub fn make_instance<S: Store>(
    store: &mut S,
    world: &World<'_>,
    next: u32,
    class: u16,
    place: u16,
) -> Option<Ending>
    requires well { S.well store.old }
    requires running { IsRunning (S.state store.old) }
    requires method { (top (S.state store.old)).method < length world.now.methods }
    requires short { next ≤ 32767 }
    requires class { IsClass world.now.classes class }
    requires room { length (top (S.state store.old)).stack < S.stack_room }
    ensures outcome { with_ending result (S.state store.new)
        ≡ made
        S.Cell.cells
        world.now
        next
        (ObjectKind.Instance class)
        (new_instance_cells S.Cell.cells world.now.classes class)
        (λ h. S.Cell.cells.fresh h place)
        (S.state store.old) }
    ensures well { S.well store.new }
    ensures fixed { S.fixed store.new ≡ S.fixed store.old }
{
    if let Some(fault) = fault_next(store, world, store.depth(), 1, next) {
        return finish(store, Ending::Faulted(fault));
    }
    if !store.has_room(world.class(class).cells as usize) {
        return finish(store, Ending::Plain(Plain::HeapFull));
    }
    let handle = store.make_instance(world, class);
    store.push(S::Cell::fresh(handle, place));
    store.set_place(next as u16);
    None
}

/// Whether an array of so many elements has room.
fn has_array_room<S: Store>(store: &S, kind: ObjectKind, count: u16) -> bool
    requires { S.well store.now }
    ensures cells { result ≡ has_room (S.state store.now) (length (array_cells S.Cell.cells kind count)) }
    ensures elements { result ≡ has_room (S.state store.now) (element_width kind * count) }
{
    store.has_room(kind.width() * count as usize)
}

/// A new array, whose reference comes on the stack.
pub fn make_array<S: Store>(
    store: &mut S,
    world: &World<'_>,
    next: u32,
    kind: ObjectKind,
    count: u16,
) -> Option<Ending>
    requires well { S.well store.old }
    requires running { IsRunning (S.state store.old) }
    requires method { (top (S.state store.old)).method < length world.now.methods }
    requires short { next ≤ 32767 }
    requires array { IsArrayKind kind }
    requires class { IsNumbered kind }
    requires room { length (top (S.state store.old)).stack < S.stack_room }
    ensures outcome { with_ending result (S.state store.new)
        ≡ made
        S.Cell.cells
        world.now
        next
        kind
        (array_cells S.Cell.cells kind count)
        S.Cell.cells.reference
        (S.state store.old) }
    ensures well { S.well store.new }
    ensures fixed { S.fixed store.new ≡ S.fixed store.old }
{
    if let Some(fault) = fault_next(store, world, store.depth(), 1, next) {
        return finish(store, Ending::Faulted(fault));
    }
    if !has_array_room(store, kind, count) {
        return finish(store, Ending::Plain(Plain::HeapFull));
    }
    let handle = store.make_array(kind, count);
    store.push(S::Cell::reference(handle));
    store.set_place(next as u16);
    None
}

/// A call of a method with so many cells of the stack.
pub fn enter_call<S: Store>(
    store: &mut S,
    world: &World<'_>,
    method: u16,
    count: u16,
) -> Option<Ending>
    requires well { S.well store.old }
    requires running { IsRunning (S.state store.old) }
    requires world { IsOf (S.fixed store.old) world.now }
    requires known { method < length world.now.methods }
    requires there { count ≤ length (top (S.state store.old)).stack }
    requires registers { count ≤ register_count world.now.methods method }
    ensures outcome { with_ending result (S.state store.new)
        ≡ entered_call S.Cell.cells world.now method count (S.state store.old) }
    ensures well { S.well store.new }
    ensures fixed { S.fixed store.new ≡ S.fixed store.old }
{
    if store.frame_count() < FRAMES {
        store.call(world, method, count);
        None
    } else {
        finish(store, Ending::Plain(Plain::TooDeep))
    }
}

/// The most frames of a run.
const FRAMES: u16 = 64;

/// The run ends: no frame is left.
pub fn finish<S: Store>(store: &mut S, ending: Ending) -> Option<Ending>
    requires { S.well store.old }
    ensures outcome { with_ending result (S.state store.new) ≡ ends ending (S.state store.old) }
    ensures well { S.well store.new }
    ensures fixed { S.fixed store.new ≡ S.fixed store.old }
{
    store.end();
    Some(ending)
}

/// How many cells are gone from the stack once a value was written.
fn put_width(put: Put) -> usize
    ensures value { result ≡ put_width put }
    ensures most { result ≤ 4 }
{
    match put {
        Put::Static(field) => usize::from(field.kind.width()),
        Put::Field {
            field,
            holder: Holder::Stack,
            ..
        } => usize::from(field.kind.width()) + 1,
        Put::Field { field, .. } => usize::from(field.kind.width()),
        Put::Element { kind, .. } => usize::from(kind.width()) + 2,
    }
}

/// A value is written, and on to the instruction at a place, if there is one.
fn put_and_go<S: Store>(store: &mut S, world: &World<'_>, next: u32, put: Put) -> Option<Ending>
    requires well { S.well store.old }
    requires running { IsRunning (S.state store.old) }
    requires method { (top (S.state store.old)).method < length world.now.methods }
    requires short { next ≤ 32767 }
    requires stands { PutStands (S.state store.old) put }
    ensures outcome { with_ending result (S.state store.new)
        ≡ goes_to
        S.Cell.cells
        world.now
        next
        (S.state store.old)
        (with_put S.Cell.cells put (S.state store.old)) }
    ensures well { S.well store.new }
    ensures fixed { S.fixed store.new ≡ S.fixed store.old }
{
    match fault_next(store, world, store.depth() - put_width(put), 0, next) {
        Some(fault) => finish(store, Ending::Faulted(fault)),
        None => {
            perform_put(store, put);
            store.set_place(next as u16);
            None
        }
    }
}

/// What a lead comes to, of the instruction before a place.
pub fn settle<S: Store>(
    store: &mut S,
    world: &World<'_>,
    known: Known<'_>,
    next: u32,
    lead: Lead,
) -> Option<Ending>
    requires well { S.well store.old }
    requires running { IsRunning (S.state store.old) }
    requires world { IsOf (S.fixed store.old) world.now }
    requires methods { AreMethods world.now (S.state store.old) }
    requires places { KnowPlaces S.Cell.cells.checks world.now known }
    requires short { next ≤ 32767 }
    requires room { 0 < S.stack_room }
    requires stands { LeadStands S.stack_room world.now (S.state store.old) lead }
    requires leads { LeadsOn S.stack_room world.now known (S.state store.old) lead }
    ensures outcome { with_ending result (S.state store.new)
        ≡ settled
        S.Cell.cells
        world.now
        next
        (S.state store.old)
        (told S.Cell.cells world.now (S.state store.old) lead) }
    ensures well { S.well store.new }
    ensures fixed { S.fixed store.new ≡ S.fixed store.old }
{
    match lead {
        Lead::Goes => go_to(store, world, next),
        Lead::Jumps(to) => jump_to(store, world, known, to),
        Lead::Puts(put) => put_and_go(store, world, next, put),
        Lead::MakesInstance { class, place } => make_instance(store, world, next, class, place),
        Lead::MakesArray { kind, count } => make_array(store, world, next, kind, count),
        Lead::Calls { method, count } => enter_call(store, world, method, count),
        Lead::Gives(Value::Void) => give_nothing(store, world, known),
        Lead::Gives(Value::Int(number)) => give_int(store, world, known, Value::Int(number)),
        Lead::Gives(value) => give_cell(store, world, known, value),
        Lead::Raises(exception) => raise(store, world, exception),
        Lead::Throws(handle) => throw_object(store, world, handle),
        Lead::Lacks(class) => finish(store, Ending::Plain(Plain::InterfaceMissing(class))),
    }
}
