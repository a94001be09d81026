ghost use Rattle.std.specs.Prelude.{◌≡◌, ◌+◌, ◌<◌, ◌≤◌, length, IfSome, IfOk, IsSome};
ghost use Rattle.jc_base.specs.Cell.{width};
ghost use Rattle.vm_store.specs.State.{IsRunning, top};
ghost use Rattle.vm_store.specs.Objects.{object_at};
ghost use Rattle.vm_step.specs.Instance.{IsNamed};
ghost use Rattle.vm_step.specs.Numbers.{handle_at};
ghost use Rattle.vm_step.specs.Objects.{passes};
ghost use Rattle.vm_step.specs.Fields.{elements_of, element_index, keeps_kind, array_read_act, array_write_act, array_length_act};
ghost use Rattle.vm_act.specs.Lead.{goes_unless, put_or, PutStands};
ghost use Rattle.vm_act.specs.Found.{IsNullOr, IsObject, IsArrayFor, MayCompare};

use crate::{Put, handle_on, push_short, short_on};
use jc_base::{Kind, Ty, World};
use vm_arithmetic::short_of_word;
use vm_step::{Exception, is_instance};
use vm_store::{ObjectKind, Store, push_object_value};

/// Puts an element in place of its index and the array under that.
pub fn read_array<S: Store>(store: &mut S, kind: Kind) -> Option<Exception>
    requires well { S.well store.old }
    requires running { IsRunning (S.state store.old) }
    requires cells { 2 ≤ length (top (S.state store.old)).stack }
    requires array { IsNullOr (handle_at S.Cell.cells (top (S.state store.old)).stack 1)
        (IsArrayFor kind (S.state store.old) (handle_at S.Cell.cells (top (S.state store.old)).stack 1)) }
    requires room { length (top (S.state store.old)).stack + width kind ≤ S.stack_room + 2 }
    ensures act { array_read_act S.Cell.cells kind (S.state store.old) ≡ goes_unless result (S.state store.new) }
    ensures stays { IfSome result (λ _. S.state store.new ≡ S.state store.old) }
    ensures well { S.well store.new }
    ensures fixed { S.fixed store.new ≡ S.fixed store.old }
{
    let handle = handle_on(store, 1);
    if handle == 0 {
        return Some(Exception::NullPointer);
    }
    match element_at(store, handle, short_on(store, 0)) {
        Some(element) => {
            store.discard(2);
            push_object_value(store, handle, element * kind.width(), kind);
            None
        }
        None => Some(Exception::ArrayIndex),
    }
}

/// Where the value on top goes: into an element of an array, which has to be one that may keep it.
pub fn write_array<S: Store>(store: &S, world: &World<'_>, kind: Kind) -> Result<Put, Exception>
    requires well { S.well store.now }
    requires running { IsRunning (S.state store.now) }
    requires cells { width kind + 2 ≤ length (top (S.state store.now)).stack }
    requires array { IsNullOr (handle_at S.Cell.cells (top (S.state store.now)).stack (width kind + 1))
        (IsArrayFor kind (S.state store.now) (handle_at S.Cell.cells (top (S.state store.now)).stack (width kind + 1))) }
    requires keeps { IsNullOr (handle_at S.Cell.cells (top (S.state store.now)).stack (width kind + 1))
        (MayCompare S.Cell.cells world.now.classes kind (S.state store.now)
        (handle_at S.Cell.cells (top (S.state store.now)).stack (width kind + 1))) }
    ensures act { array_write_act S.Cell.cells world.now.classes kind (S.state store.now) ≡ put_or S.Cell.cells (S.state store.now) result }
    ensures stands { IfOk result (PutStands (S.state store.now)) }
{
    let size = usize::from(kind.width());
    let handle = handle_on(store, size + 1);
    if handle == 0 {
        return Err(Exception::NullPointer);
    }
    match element_at(store, handle, short_on(store, size)) {
        Some(element) if keeps(store, world, kind, handle) => Ok(Put::Element {
            handle,
            element,
            kind,
        }),
        Some(_) => Err(Exception::ArrayStore),
        None => Err(Exception::ArrayIndex),
    }
}

/// Puts the number of elements in place of the array.
pub fn array_length<S: Store>(store: &mut S) -> Option<Exception>
    requires well { S.well store.old }
    requires running { IsRunning (S.state store.old) }
    requires cells { 1 ≤ length (top (S.state store.old)).stack }
    requires array { IsNullOr (handle_at S.Cell.cells (top (S.state store.old)).stack 0)
        (IsSome (object_at (S.state store.old) (handle_at S.Cell.cells (top (S.state store.old)).stack 0))) }
    requires room { length (top (S.state store.old)).stack ≤ S.stack_room }
    ensures act { array_length_act S.Cell.cells (S.state store.old) ≡ goes_unless result (S.state store.new) }
    ensures stays { IfSome result (λ _. S.state store.new ≡ S.state store.old) }
    ensures well { S.well store.new }
    ensures fixed { S.fixed store.new ≡ S.fixed store.old }
{
    let handle = handle_on(store, 0);
    if handle == 0 {
        return Some(Exception::NullPointer);
    }
    let count = elements_of(store, handle);
    store.discard(1);
    push_short(store, short_of_word(count));
    None
}

/// How many elements the array of a handle has.
fn elements_of<S: Store>(store: &S, handle: u16) -> u16
    requires well { S.well store.now }
    requires there { IsSome (object_at (S.state store.now) handle) }
    ensures { result ≡ elements_of (S.state store.now) handle }
{
    store.element_count(handle)
}

/// The number of the element that an index names, where the array has it.
fn element_at<S: Store>(store: &S, handle: u16, index: i16) -> Option<u16>
    requires well { S.well store.now }
    requires there { IsSome (object_at (S.state store.now) handle) }
    ensures value { result ≡ element_index index (elements_of (S.state store.now) handle) }
    ensures small { IfSome result (λ n. n < 32768) }
{
    if index < 0 {
        return None;
    }
    let element = index.unsigned_abs();
    (element < elements_of(store, handle)).then_some(element)
}

/// Whether the array may keep the value on top.
fn keeps<S: Store>(store: &S, world: &World<'_>, kind: Kind, handle: u16) -> bool
    requires well { S.well store.now }
    requires running { IsRunning (S.state store.now) }
    requires cells { 1 ≤ length (top (S.state store.now)).stack }
    requires there { IsSome (object_at (S.state store.now) handle) }
    requires compares { MayCompare S.Cell.cells world.now.classes kind (S.state store.now) handle }
    ensures { result ≡ keeps_kind S.Cell.cells world.now.classes kind (S.state store.now) handle }
{
    match kind {
        Kind::Ref => match store.kind(handle) {
            ObjectKind::References(class) => {
                let value = handle_on(store, 0);
                value == 0 || is_instance_of(store, world, Ty::Class(class), value)
            }
            _ => true,
        },
        _ => true,
    }
}

/// Whether a reference is that of an instance of a type.
pub fn is_instance_of<S: Store>(store: &S, world: &World<'_>, ty: Ty, handle: u16) -> bool
    requires well { S.well store.now }
    requires object { IsNullOr handle (IsObject world.now.classes (S.state store.now) handle) }
    requires ty { IsNamed world.now.classes ty }
    ensures { result ≡ passes world.now.classes (S.state store.now) ty handle }
{
    if handle == 0 {
        return false;
    }
    is_instance(world, store.kind(handle), ty)
}
