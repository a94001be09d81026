ghost use Rattle.std.specs.Prelude.{◌≡◌, ◌≤◌, length, IsSome, IfSome, ◌+◌, ◌<◌, IfOk};
ghost use Rattle.jc_base.specs.Order.{IsArray};
ghost use Rattle.jc_ops.specs.Sound.{IsNamedType};
ghost use Rattle.vm_store.specs.State.{IsRunning, top};
ghost use Rattle.vm_store.specs.Objects.{object_at};
ghost use Rattle.vm_step.specs.Objects.{kind_of_type, new_array_act, throw_act, type_test_act, truth};
ghost use Rattle.vm_step.specs.Calls.{return_act};
ghost use Rattle.vm_act.specs.Lead.{goes_unless, told, Stays, LeadStands, result_width, put_or, PutStands};
ghost use Rattle.vm_act.specs.Found.{IsObject, IsNullOr, HasField, HasHolder};
ghost use Rattle.vm_act.specs.Reaches.{HandleIs, IsArrayOf};
ghost use Rattle.jc_base.specs.Cell.{width};
ghost use Rattle.vm_step.specs.Fields.{held_handle, holder_width, field_read_act, field_write_act};

use crate::{Lead, Put, handle_on, int_on, is_instance_of, push_short, short_on};
use jc_base::{Ty, World};
use jc_ops::{Holder, InstanceField, TypeTest};
use vm_step::{Exception, Value};
use vm_store::{CellForm, ObjectKind, Store, push_object_value};

/// Pops the number of elements of an array that is to be made; a negative one is refused.
pub fn new_array<S: Store>(store: &mut S, world: &World<'_>, ty: Ty) -> Lead
    requires well { S.well store.old }
    requires running { IsRunning (S.state store.old) }
    requires cells { 1 ≤ length (top (S.state store.old)).stack }
    requires room { length (top (S.state store.old)).stack ≤ S.stack_room }
    requires array { IsArray ty }
    requires named { IsNamedType world.now.classes ty }
    ensures act { new_array_act S.Cell.cells ty (S.state store.old) ≡ told S.Cell.cells world.now (S.state store.new) result }
    ensures stays { Stays result (S.state store.old) (S.state store.new) }
    ensures stands { LeadStands S.stack_room world.now (S.state store.new) result }
    ensures well { S.well store.new }
    ensures fixed { S.fixed store.new ≡ S.fixed store.old }
{
    let count = short_on(store, 0);
    if count < 0 {
        return Lead::Raises(Exception::NegativeSize);
    }
    let kind = kind_of_type(world, ty);
    store.discard(1);
    Lead::MakesArray {
        kind,
        count: count.unsigned_abs(),
    }
}

/// The kind of the arrays of a type.
fn kind_of_type(world: &World<'_>, ty: Ty) -> ObjectKind
    requires array { IsArray ty }
    requires named { IsNamedType world.now.classes ty }
    ensures value { result ≡ kind_of_type ty }
    ensures array { IsArrayOf world.now result }
{
    let _classes = world.class_count();
    match ty {
        Ty::ArrBool => ObjectKind::Booleans,
        Ty::ArrByte => ObjectKind::Bytes,
        Ty::ArrShort => ObjectKind::Shorts,
        Ty::ArrRef(class) => ObjectKind::References(class),
        _ => ObjectKind::Ints,
    }
}

/// The object on top is thrown; null is refused.
pub fn throw<S: Store>(store: &S, world: &World<'_>) -> Lead
    requires well { S.well store.now }
    requires running { IsRunning (S.state store.now) }
    requires cells { 1 ≤ length (top (S.state store.now)).stack }
    requires object { HandleIs S.Cell.cells (S.state store.now) 0 (λ h. IsSome (object_at (S.state store.now) h)) }
    ensures act { throw_act S.Cell.cells (S.state store.now) ≡ told S.Cell.cells world.now (S.state store.now) result }
    ensures stands { LeadStands S.stack_room world.now (S.state store.now) result }
{
    let handle = handle_on(store, 0);
    if handle == 0 {
        Lead::Raises(Exception::NullPointer)
    } else {
        Lead::Throws(handle)
    }
}

/// Asks whether the reference on top is that of an instance of a type.
pub fn test_type<S: Store>(
    store: &mut S,
    world: &World<'_>,
    test: TypeTest,
    ty: Ty,
) -> Option<Exception>
    requires well { S.well store.old }
    requires running { IsRunning (S.state store.old) }
    requires cells { 1 ≤ length (top (S.state store.old)).stack }
    requires room { length (top (S.state store.old)).stack ≤ S.stack_room }
    requires object { HandleIs S.Cell.cells (S.state store.old) 0 (IsObject world.now.classes (S.state store.old)) }
    requires named { IsNamedType world.now.classes ty }
    ensures act { type_test_act S.Cell.cells world.now.classes test ty (S.state store.old) ≡ goes_unless result (S.state store.new) }
    ensures stays { IfSome result (λ _. S.state store.new ≡ S.state store.old) }
    ensures well { S.well store.new }
    ensures fixed { S.fixed store.new ≡ S.fixed store.old }
{
    let handle = handle_on(store, 0);
    match test {
        TypeTest::Cast => {
            if handle == 0 || is_instance_of(store, world, ty, handle) {
                None
            } else {
                Some(Exception::ClassCast)
            }
        }
        TypeTest::InstanceOf => {
            let is = truth(is_instance_of(store, world, ty, handle));
            store.discard(1);
            push_short(store, is);
            None
        }
    }
}

fn truth(is: bool) -> i16
    ensures { result ≡ truth is }
{
    if is { 1 } else { 0 }
}

/// The value that the method gives, which stays on top of the stack.
pub fn value_given<S: Store>(store: &S, world: &World<'_>, result_type: Option<Ty>) -> Lead
    requires well { S.well store.now }
    requires running { IsRunning (S.state store.now) }
    requires cells { result_width result_type ≤ length (top (S.state store.now)).stack }
    ensures act { return_act S.Cell.cells result_type (S.state store.now) ≡ told S.Cell.cells world.now (S.state store.now) result }
    ensures stands { LeadStands S.stack_room world.now (S.state store.now) result }
{
    match result_type {
        None => Lead::Gives(Value::Void),
        Some(Ty::Short) => Lead::Gives(Value::Short(short_on(store, 0))),
        Some(Ty::IntHigh) => Lead::Gives(Value::Int(int_on(store, 0))),
        Some(_) => Lead::Gives(Value::Ref(handle_on(store, 0))),
    }
}

/// Puts the value of a field in place of the object, or pushes it; null is refused.
pub fn read_field<S: Store>(
    store: &mut S,
    field: InstanceField,
    holder: Holder,
) -> Option<Exception>
    requires well { S.well store.old }
    requires running { IsRunning (S.state store.old) }
    requires holder { HasHolder holder 0 (S.state store.old) }
    requires there { IsNullOr (held_handle S.Cell.cells holder 0 (S.state store.old))
        (HasField field (S.state store.old) (held_handle S.Cell.cells holder 0 (S.state store.old))) }
    requires room { length (top (S.state store.old)).stack + width field.kind ≤ S.stack_room + holder_width holder }
    ensures act { field_read_act S.Cell.cells field holder (S.state store.old) ≡ goes_unless result (S.state store.new) }
    ensures stays { IfSome result (λ _. S.state store.new ≡ S.state store.old) }
    ensures well { S.well store.new }
    ensures fixed { S.fixed store.new ≡ S.fixed store.old }
{
    let handle = held(store, holder, 0);
    if handle == 0 {
        return Some(Exception::NullPointer);
    }
    match holder {
        Holder::Stack => {
            store.discard(1);
            push_object_value(store, handle, field.cell, field.kind);
            None
        }
        Holder::This => {
            push_object_value(store, handle, field.cell, field.kind);
            None
        }
    }
}

/// Where the value on top goes: into a field of the object; null is refused.
pub fn write_field<S: Store>(
    store: &S,
    field: InstanceField,
    holder: Holder,
) -> Result<Put, Exception>
    requires well { S.well store.now }
    requires running { IsRunning (S.state store.now) }
    requires cells { width field.kind + holder_width holder ≤ length (top (S.state store.now)).stack }
    requires holder { HasHolder holder (width field.kind) (S.state store.now) }
    requires there { IsNullOr (held_handle S.Cell.cells holder (width field.kind) (S.state store.now))
        (HasField field (S.state store.now) (held_handle S.Cell.cells holder (width field.kind) (S.state store.now))) }
    ensures act { field_write_act S.Cell.cells field holder (S.state store.now) ≡ put_or S.Cell.cells (S.state store.now) result }
    ensures stands { IfOk result (PutStands (S.state store.now)) }
{
    let handle = held(store, holder, usize::from(field.kind.width()));
    if handle == 0 {
        Err(Exception::NullPointer)
    } else {
        Ok(Put::Field {
            handle,
            field,
            holder,
        })
    }
}

/// The handle of the object, under so many cells or in register 0.
fn held<S: Store>(store: &S, holder: Holder, under: usize) -> u16
    requires well { S.well store.now }
    requires running { IsRunning (S.state store.now) }
    requires holder { HasHolder holder under (S.state store.now) }
    ensures { result ≡ held_handle S.Cell.cells holder under (S.state store.now) }
{
    match holder {
        Holder::Stack => handle_on(store, under),
        Holder::This => store.register(0).word(),
    }
}
