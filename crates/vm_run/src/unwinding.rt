//! Exceptions (JCVM 2.2, sections 3.7 and 6.9.1).
ghost use Rattle.std.specs.Prelude.{◌≡◌, ◌<◌, length, All, find, Some, IsSome};
ghost use Rattle.jc_base.specs.Class.{IsClass};
ghost use Rattle.jc_base.specs.Order.{is_on_chain};
ghost use Rattle.vm_store.specs.State.{IsRunning, top, other_frames};
ghost use Rattle.vm_store.specs.Objects.{kinds, object_at};
ghost use Rattle.vm_step.specs.Methods.{handlers_of};
ghost use Rattle.vm_step.specs.Calls.{class_with_methods};
ghost use Rattle.vm_step.specs.Raising.{catches, caught_by, unwound, thrown, raised};
ghost use Rattle.vm_run.specs.Turn.{with_ending, AreMethods, IsOfClass};

use crate::outcome::finish;
use jc_base::{Handler, Ty, World, below};
use vm_step::{Ending, Exception, Fault, Plain};
use vm_store::{CellForm, ObjectKind, Store};

/// Whether a class is another or one of its subclasses.
fn is_subclass(world: &World<'_>, class: u16, above: u16) -> bool
    requires class { IsClass world.now.classes class }
    requires above { IsClass world.now.classes above }
    ensures { result ≡ is_on_chain world.now.classes above class }
{
    below(world.classes(), Ty::Class(class), Ty::Class(above))
}

/// Whether the handler's range has the place, and its class is at or above that of the object.
fn catches(world: &World<'_>, handler: Handler, place: u16, class: u16) -> bool
    requires handler { IsClass world.now.classes handler.class }
    requires class { IsClass world.now.classes class }
    ensures { result ≡ catches world.now.classes place class handler }
{
    let covers = handler.start <= place && place < handler.end;
    covers && is_subclass(world, class, handler.class)
}

/// The first handler in a method's table that catches an object of the class, thrown at the place.
fn handler_for(world: &World<'_>, method: u16, place: u16, class: u16) -> Option<Handler>
    requires method { method < length world.now.methods }
    requires class { IsClass world.now.classes class }
    ensures { result ≡ find (catches world.now.classes place class) (handlers_of world.now method) }
{
    'handlers: for handler in world.method(method).handlers.as_slice() {
        if catches(world, *handler, place, class) {
            return Some(*handler);
        }
    }
    None
}

/// The frame on top catches an object: its operand stack has one cell.
fn catch_object<S: Store>(
    store: &mut S,
    world: &World<'_>,
    handler: Handler,
    handle: u16,
) -> Option<Ending>
    requires well { S.well store.old }
    requires running { IsRunning (S.state store.old) }
    requires method { (top (S.state store.old)).method < length world.now.methods }
    requires room { 0 < S.stack_room }
    ensures outcome { with_ending result (S.state store.new)
        ≡ caught_by
        S.Cell.cells
        world.now
        handler
        handle
        (S.state store.old)
        (top (S.state store.old))
        (other_frames (S.state store.old).frames) }
    ensures well { S.well store.new }
    ensures fixed { S.fixed store.new ≡ S.fixed store.old }
{
    if S::Cell::checks() && world.method(store.method()).max_stack < 1 {
        return finish(store, Ending::Faulted(Fault::StackFault));
    }
    store.discard(store.depth());
    store.push(S::Cell::reference(handle));
    store.set_place(handler.entry);
    None
}

/// An object of a class is thrown: frames without a handler for it are dropped, from the one on top down.
pub fn unwind<S: Store>(store: &mut S, world: &World<'_>, class: u16, handle: u16) -> Option<Ending>
    requires well { S.well store.old }
    requires methods { AreMethods world.now (S.state store.old) }
    requires class { IsClass world.now.classes class }
    requires room { 0 < S.stack_room }
    ensures outcome { with_ending result (S.state store.new)
        ≡ unwound S.Cell.cells world.now class handle (S.state store.old) (S.state store.old).frames }
    ensures well { S.well store.new }
    ensures fixed { S.fixed store.new ≡ S.fixed store.old }
{
    'frames: while 0 < store.frame_count() {
        match handler_for(world, store.method(), store.place(), class) {
            Some(handler) => return catch_object(store, world, handler, handle),
            None => store.leave(),
        }
    }
    Some(Ending::Plain(Plain::Threw { class, handle }))
}

/// The object of a handle is thrown; an array counts as of class object.
pub fn throw_object<S: Store>(store: &mut S, world: &World<'_>, handle: u16) -> Option<Ending>
    requires well { S.well store.old }
    requires methods { AreMethods world.now (S.state store.old) }
    requires there { IsSome (object_at (S.state store.old) handle) }
    requires classes { All (IsOfClass world.now.classes) (kinds (S.state store.old)) }
    requires room { 0 < S.stack_room }
    ensures outcome { with_ending result (S.state store.new) ≡ thrown S.Cell.cells world.now handle (S.state store.old) }
    ensures well { S.well store.new }
    ensures fixed { S.fixed store.new ≡ S.fixed store.old }
{
    let class = class_of(world, store.kind(handle));
    unwind(store, world, class, handle)
}

/// The class that an object counts as of.
fn class_of(world: &World<'_>, kind: ObjectKind) -> u16
    requires { IsOfClass world.now.classes kind }
    ensures is { result ≡ class_with_methods world.now.classes (Some kind) }
    ensures class { IsClass world.now.classes result }
{
    match kind {
        ObjectKind::Instance(class) => class,
        _ => world.role(0),
    }
}

/// An object of an exception's class is made and thrown, where it has room.
pub fn raise<S: Store>(store: &mut S, world: &World<'_>, exception: Exception) -> Option<Ending>
    requires well { S.well store.old }
    requires methods { AreMethods world.now (S.state store.old) }
    requires room { 0 < S.stack_room }
    ensures outcome { with_ending result (S.state store.new) ≡ raised S.Cell.cells world.now exception (S.state store.old) }
    ensures well { S.well store.new }
    ensures fixed { S.fixed store.new ≡ S.fixed store.old }
{
    let class = world.role(exception.role());
    if !store.has_room(world.class(class).cells as usize) {
        return finish(store, Ending::Plain(Plain::HeapFull));
    }
    let handle = store.make_instance(world, class);
    unwind(store, world, class, handle)
}
