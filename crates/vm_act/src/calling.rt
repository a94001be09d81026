ghost use Rattle.std.specs.Prelude.{◌≡◌, ◌+◌, ◌<◌, ◌≤◌, ℕ, length, Some, IfSome, unwrap_or, IsSome};
ghost use Rattle.jc_base.specs.declared.ty.Ty.TheVariants.{Class};
ghost use Rattle.jc_base.specs.Class.{IsClass};
ghost use Rattle.jc_base.specs.Order.{Below};
ghost use Rattle.jc_base.specs.Dispatch.{dispatched, package_of, nearest_of, visible_in};
ghost use Rattle.jc_ops.specs.Sound.{IsCalleeOf, receiver_count};
ghost use Rattle.vm_store.specs.State.{IsRunning, top, nth};
ghost use Rattle.vm_store.specs.Objects.{object_at, kinds};
ghost use Rattle.vm_step.specs.Calls.{args_of, call_act, chosen_act, class_of, made_at, readied, served};
ghost use Rattle.vm_act.specs.Lead.{told, Stays, LeadStands, FramesStay, TakesCells};
ghost use Rattle.vm_act.specs.Reaches.{HasReceiver};
ghost use Rattle.jc_ops.specs.declared.operation.Choice.TheVariants as choices;

use crate::{Lead, handle_on, served};
use jc_base::{Ty, World, public_methods_run};
use jc_ops::{Callee, Choice, Want};
use vm_step::Exception;
use vm_store::{ObjectKind, Store};

/// The method that a call runs, and with how many cells; a receiver of null is refused.
pub fn call<S: Store>(store: &mut S, world: &World<'_>, callee: Callee) -> Lead
    requires well { S.well store.old }
    requires running { IsRunning (S.state store.old) }
    requires callee { IsCalleeOf world.now callee }
    requires cells { args_of world.now callee.method + receiver_count callee.receiver ≤ length (top (S.state store.old)).stack }
    requires receiver { HasReceiver S.Cell.cells world.now callee callee.choice (S.state store.old) }
    ensures act { call_act S.Cell.cells world.now callee (S.state store.old) ≡ told S.Cell.cells world.now (S.state store.new) result }
    ensures stays { Stays result (S.state store.old) (S.state store.new) }
    ensures stands { LeadStands S.stack_room world.now (S.state store.new) result }
    ensures frames { FramesStay (S.state store.old) (S.state store.new) }
    ensures well { S.well store.new }
    ensures fixed { S.fixed store.new ≡ S.fixed store.old }
{
    let _classes = world.classes();
    match callee.choice {
        Choice::Static => Lead::Calls {
            method: callee.method,
            count: args_of(world, callee.method),
        },
        Choice::Special => call_special(store, world, callee),
        Choice::Virtual { class, token } => call_virtual(store, world, callee, class, token),
        Choice::Interface { class, token, .. } => call_interface(
            store, world, callee, class, token,
        ),
    }
}

/// How many argument cells a method has, without the receiver.
fn args_of(world: &World<'_>, method: u16) -> u16
    requires { method < length world.now.methods }
    ensures value { result ≡ args_of world.now method }
    ensures few { result ≤ 255 }
{
    world.method(method).sig.args.len() as u16
}

/// A method of the superclass, a private method, or a constructor, which makes its object ready.
fn call_special<S: Store>(store: &mut S, world: &World<'_>, callee: Callee) -> Lead
    requires well { S.well store.old }
    requires running { IsRunning (S.state store.old) }
    requires callee { IsCalleeOf world.now callee }
    requires special { callee.choice ≡ choices.Special }
    requires cells { args_of world.now callee.method < length (top (S.state store.old)).stack }
    ensures act { chosen_act S.Cell.cells world.now.classes callee (args_of world.now callee.method) choices.Special (S.state store.old)
        ≡ told S.Cell.cells world.now (S.state store.new) result }
    ensures stays { Stays result (S.state store.old) (S.state store.new) }
    ensures stands { LeadStands S.stack_room world.now (S.state store.new) result }
    ensures frames { FramesStay (S.state store.old) (S.state store.new) }
    ensures well { S.well store.new }
    ensures fixed { S.fixed store.new ≡ S.fixed store.old }
{
    let _classes = world.classes();
    let args = args_of(world, callee.method);
    if handle_on(store, args as usize) == 0 {
        return Lead::Raises(Exception::NullPointer);
    }
    make_ready(store, world, callee.receiver, args);
    Lead::Calls {
        method: callee.method,
        count: args + 1,
    }
}

/// Makes each cell of the stack ready that refers to the object of a constructor, which is under so many cells.
fn make_ready<S: Store>(store: &mut S, world: &World<'_>, receiver: Option<Want>, under: u16)
    requires well { S.well store.old }
    requires running { IsRunning (S.state store.old) }
    requires cells { under < length (top (S.state store.old)).stack }
    ensures state { S.state store.new
        ≡ readied
        S.Cell.cells
        (S.state store.old)
        (made_at
        receiver
        (S.Cell.cells.type_of
        world.now.classes
        (kinds (S.state store.old))
        (nth S.Cell.cells (top (S.state store.old)).stack under))) }
    ensures well { S.well store.new }
    ensures fixed { S.fixed store.new ≡ S.fixed store.old }
{
    let found = store.type_of(world.classes(), store.cell(under as usize));
    if let Some(place) = made_at(receiver, found) {
        store.make_ready(place);
    }
}

/// The place of the `new` whose object a constructor makes ready.
fn made_at(want: Option<Want>, found: Ty) -> Option<u16>
    ensures { result ≡ made_at want found }
{
    match want {
        Some(Want::Receiver(_)) => match found {
            Ty::Fresh { place, .. } => Some(place),
            _ => None,
        },
        _ => None,
    }
}

/// The method that the receiver's class has at a token of a class.
fn call_virtual<S: Store>(
    store: &S,
    world: &World<'_>,
    callee: Callee,
    class: u16,
    token: u8,
) -> Lead
    requires well { S.well store.now }
    requires running { IsRunning (S.state store.now) }
    requires callee { IsCalleeOf world.now callee }
    requires chosen { callee.choice ≡ choices.Virtual class token }
    requires cells { args_of world.now callee.method < length (top (S.state store.now)).stack }
    requires receiver { HasReceiver S.Cell.cells world.now callee (choices.Virtual class token) (S.state store.now) }
    ensures act { chosen_act
        S.Cell.cells
        world.now.classes
        callee
        (args_of world.now callee.method)
        (choices.Virtual class token)
        (S.state store.now)
        ≡ told S.Cell.cells world.now (S.state store.now) result }
    ensures stands { LeadStands S.stack_room world.now (S.state store.now) result }
{
    let args = args_of(world, callee.method);
    let handle = handle_on(store, args as usize);
    if handle == 0 {
        return Lead::Raises(Exception::NullPointer);
    }
    Lead::Calls {
        method: method_of(world, callee, class, token, class_of(store, world, handle)),
        count: args + 1,
    }
}

/// The class whose methods the object of a handle has: an array has those of object.
fn class_of<S: Store>(store: &S, world: &World<'_>, handle: u16) -> u16
    requires well { S.well store.now }
    requires there { IsSome (object_at (S.state store.now) handle) }
    ensures { result ≡ class_of world.now.classes (S.state store.now) handle }
{
    match store.kind(handle) {
        ObjectKind::Instance(class) => class,
        _ => world.role(0),
    }
}

/// The method that an object of class `of` runs for the entry that a class has at a token.
fn method_of(world: &World<'_>, callee: Callee, class: u16, token: u8, of: u16) -> u16
    requires callee { IsCalleeOf world.now callee }
    requires chosen { callee.choice ≡ choices.Virtual class token }
    requires class { IsClass world.now.classes of }
    requires below { Below world.now.classes (Class of) (Class class) }
    ensures value { result ≡ unwrap_or (dispatched world.now.classes class token of) callee.method }
    ensures takes { TakesCells world.now result (args_of world.now callee.method + 1) }
{
    let _classes = world.classes();
    match dispatched(world, class, token, of) {
        Some(method) => method,
        None => callee.method,
    }
}

/// The method that serves the interface's token in the receiver's class, where there is one.
fn call_interface<S: Store>(
    store: &S,
    world: &World<'_>,
    callee: Callee,
    class: u16,
    token: u8,
) -> Lead
    requires well { S.well store.now }
    requires running { IsRunning (S.state store.now) }
    requires callee { IsCalleeOf world.now callee }
    requires chosen { (words : ℕ) × (callee.choice ≡ choices.Interface class token words) }
    requires cells { args_of world.now callee.method < length (top (S.state store.now)).stack }
    requires receiver { HasReceiver S.Cell.cells world.now callee callee.choice (S.state store.now) }
    ensures act { chosen_act S.Cell.cells world.now.classes callee (args_of world.now callee.method) callee.choice (S.state store.now)
        ≡ told S.Cell.cells world.now (S.state store.now) result }
    ensures stands { LeadStands S.stack_room world.now (S.state store.now) result }
{
    let args = args_of(world, callee.method);
    let handle = handle_on(store, args as usize);
    if handle == 0 {
        return Lead::Raises(Exception::NullPointer);
    }
    match store.kind(handle) {
        ObjectKind::Instance(of) => match served_by(world, callee, class, token, of) {
            Some(method) => Lead::Calls {
                method,
                count: args + 1,
            },
            None => Lead::Lacks(of),
        },
        _ => Lead::Lacks(world.role(0)),
    }
}

/// The method of a class that serves the interface's token.
fn served_by(world: &World<'_>, callee: Callee, class: u16, token: u8, of: u16) -> Option<u16>
    requires callee { IsCalleeOf world.now callee }
    requires chosen { (words : ℕ) × (callee.choice ≡ choices.Interface class token words) }
    requires class { IsClass world.now.classes of }
    ensures value { result ≡ served world.now.classes class token of }
    ensures takes { IfSome result (λ n. TakesCells world.now n (args_of world.now callee.method + 1)) }
{
    let _classes = world.classes();
    public_methods_run(world);
    served(world, class, token, of)
}

/// The method that an object of class `of` runs for a token of a class, which is package-visible from 128 on.
#[tactic(auto, unfolding(jc_base::specs::Dispatch::dispatched, jc_base::specs::Dispatch::package_of, jc_base::specs::Dispatch::visible_in))]
pub fn dispatched(world: &World<'_>, class: u16, token: u8, of: u16) -> Option<u16>
    requires class { class < length world.now.classes.records }
    requires of { IsClass world.now.classes of }
    ensures { result ≡ dispatched world.now.classes class token of }
{
    if token < 128 {
        world.classes().public_entry(of, token)
    } else {
        let nearest = nearest_of(world, world.class(class).package, of)?;
        world.classes().visible_entry(nearest, token - 128)
    }
}

/// The nearest class of a package among a class and its superclasses.
fn nearest_of(world: &World<'_>, home: u16, of: u16) -> Option<u16>
    requires { IsClass world.now.classes of }
    ensures is { result ≡ nearest_of world.now.classes home of }
    ensures class { IfSome result (IsClass world.now.classes) }
{
    let mut at = of;
    'climb: loop {
        if home_of(world, at) == home {
            return Some(at);
        }
        match world.classes().parent(at) {
            Some(parent) => at = parent,
            None => return None,
        }
    }
}

/// The package of a class.
#[tactic(auto, unfolding(jc_base::specs::Dispatch::package_of))]
fn home_of(world: &World<'_>, class: u16) -> u16
    requires { class < length world.now.classes.records }
    ensures { result ≡ package_of world.now.classes class }
{
    world.class(class).package
}
