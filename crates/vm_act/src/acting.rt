ghost use Rattle.std.specs.Prelude.{◌≡◌, ◌<◌, ◌≤◌, length, ◌==◌, find, Some, None, MatchOption};
ghost use Rattle.vm_store.specs.State.{IsRunning, top};
ghost use Rattle.vm_step.specs.Performed.{act};
ghost use Rattle.vm_step.specs.Branching.{branch_act, branch_width, switch_act};
ghost use Rattle.vm_step.specs.Methods.{code_at};
ghost use Rattle.vm_step.specs.Numbers.{number_width};
ghost use Rattle.vm_act.specs.Lead.{told, Stays, LeadStands, FramesStay, lead_unless, lead_put};
ghost use Rattle.vm_act.specs.Reaches.{Reaches, IsInCode};
ghost use Rattle.jc_base.specs.Class.{IsClass};
ghost use Rattle.vm_step.specs.Calls.{serving, served};

use crate::calling::call;
use crate::object::{new_array, test_type, throw, value_given};
use crate::{
    array_length, compute, increment, load, move_cells, pop_branch, pop_key, push_constant,
    read_array, read_field, store_top, switch_offset, write_array, write_field,
};
use cap_bytes::View;
use jc_base::{Iface, Kind, World};
use jc_decode::Insn;
use jc_ops::{Branch, Holder, InstanceField, Operation, StaticField, Width};
use vm_step::{Exception, Value};
use vm_store::{ObjectKind, Store, push_static_value};

/// What is left to do once a store has done what an operation says, but for what makes objects, writes fields and
/// elements, and changes frames.
#[derive(Clone, Copy)]
pub enum Lead {
    /// On to the instruction after.
    Goes,
    /// To a place, by its distance from the first byte of the code.
    Jumps(i64),
    /// A value is to be written, and on to the instruction after; nothing was changed.
    Puts(Put),
    /// An instance of the class is to be made by the `new` at the place; its reference comes on the stack.
    MakesInstance { class: u16, place: u16 },
    /// An array of so many elements is to be made; its reference comes on the stack.
    MakesArray { kind: ObjectKind, count: u16 },
    /// A method is to be called with so many cells of the stack, which are still there.
    Calls { method: u16, count: u16 },
    /// The method ends with this value, whose cells are still on its stack.
    Gives(Value),
    /// An exception is to be made and thrown; nothing was changed.
    Raises(Exception),
    /// The object of a handle is to be thrown; nothing was changed.
    Throws(u16),
    /// An object of this class has no method for that of an interface; nothing was changed.
    Lacks(u16),
}

/// Where the value on top of the operand stack is to be written: into a static field, into a field of the object of
/// a handle, which is under the value or in register 0, or into an element of an array, of which index and handle
/// are under the value.
#[derive(Clone, Copy)]
pub enum Put {
    Static(StaticField),
    Field {
        handle: u16,
        field: InstanceField,
        holder: Holder,
    },
    Element {
        handle: u16,
        element: u16,
        kind: Kind,
    },
}

/// Does what the operation of an instruction says, at the place of the frame on top.
pub fn act<S: Store>(store: &mut S, world: &World<'_>, insn: Insn, operation: Operation) -> Lead
    requires well { S.well store.old }
    requires running { IsRunning (S.state store.old) }
    requires reaches { Reaches S.stack_room S.Cell.cells world.now insn operation (S.state store.old) }
    ensures act { act S.Cell.cells world.now insn operation (S.state store.old)
        ≡ told S.Cell.cells world.now (S.state store.new) result }
    ensures stays { Stays result (S.state store.old) (S.state store.new) }
    ensures stands { LeadStands S.stack_room world.now (S.state store.new) result }
    ensures frames { FramesStay (S.state store.old) (S.state store.new) }
    ensures well { S.well store.new }
    ensures fixed { S.fixed store.new ≡ S.fixed store.old }
{
    match operation {
        Operation::Constant(constant) => {
            push_constant(store, constant);
            Lead::Goes
        }
        Operation::Load(sort, register) => {
            load(store, sort, register);
            Lead::Goes
        }
        Operation::Store(sort, register) => {
            store_top(store, sort, register);
            Lead::Goes
        }
        Operation::Increment {
            width,
            register,
            amount,
        } => {
            increment(store, width, register, amount);
            Lead::Goes
        }
        Operation::Move(moved) => {
            move_cells(store, moved);
            Lead::Goes
        }
        Operation::Arithmetic(computed) => lead_unless(compute(store, computed)),
        Operation::ArrayRead(kind) => lead_unless(read_array(store, kind)),
        Operation::ArrayWrite(kind) => lead_put(write_array(store, world, kind)),
        Operation::ArrayLength => lead_unless(array_length(store)),
        Operation::Branch(branch) => take_branch(store, world, insn, branch),
        Operation::Switch(width) => take_switch(store, world, insn, width),
        Operation::StaticRead(field) => {
            push_static_value(store, field.slot, field.kind);
            Lead::Goes
        }
        Operation::StaticWrite(field) => Lead::Puts(Put::Static(field)),
        Operation::FieldRead(field, holder) => lead_unless(read_field(store, field, holder)),
        Operation::FieldWrite(field, holder) => lead_put(write_field(store, field, holder)),
        Operation::Call(callee) => call(store, world, callee),
        Operation::New { place, class } => Lead::MakesInstance { class, place },
        Operation::NewArray(ty) => new_array(store, world, ty),
        Operation::Throw => throw(store, world),
        Operation::TypeTest(test, ty) => lead_unless(test_type(store, world, test, ty)),
        Operation::Return(result_type) => value_given(store, world, result_type),
    }
}

/// On to the instruction after, unless an exception is thrown.
fn lead_unless(raised: Option<Exception>) -> Lead
    ensures { result ≡ lead_unless raised }
{
    match raised {
        None => Lead::Goes,
        Some(exception) => Lead::Raises(exception),
    }
}

/// To a write, unless an exception is thrown.
fn lead_put(put: Result<Put, Exception>) -> Lead
    ensures { result ≡ lead_put put }
{
    match put {
        Ok(put) => Lead::Puts(put),
        Err(exception) => Lead::Raises(exception),
    }
}

/// To the target of a branch, where it is taken.
fn take_branch<S: Store>(store: &mut S, world: &World<'_>, insn: Insn, branch: Branch) -> Lead
    requires well { S.well store.old }
    requires running { IsRunning (S.state store.old) }
    requires cells { branch_width branch ≤ length (top (S.state store.old)).stack }
    ensures act { branch_act S.Cell.cells insn branch (S.state store.old) ≡ told S.Cell.cells world.now (S.state store.new) result }
    ensures stays { Stays result (S.state store.old) (S.state store.new) }
    ensures stands { LeadStands S.stack_room world.now (S.state store.new) result }
    ensures well { S.well store.new }
    ensures fixed { S.fixed store.new ≡ S.fixed store.old }
{
    let target = i64::from(store.place()) + i64::from(insn.x);
    if pop_branch(store, branch) {
        Lead::Jumps(target)
    } else {
        Lead::Goes
    }
}

/// To the place that a switch tells for the number on top.
fn take_switch<S: Store>(store: &mut S, world: &World<'_>, insn: Insn, width: Width) -> Lead
    requires well { S.well store.old }
    requires running { IsRunning (S.state store.old) }
    requires cells { number_width width ≤ length (top (S.state store.old)).stack }
    requires code { IsInCode world.now insn (S.state store.old) }
    ensures act { switch_act S.Cell.cells (code_at world.now (top (S.state store.old)).method) insn width (S.state store.old)
        ≡ told S.Cell.cells world.now (S.state store.new) result }
    ensures stays { Stays result (S.state store.old) (S.state store.new) }
    ensures stands { LeadStands S.stack_room world.now (S.state store.new) result }
    ensures well { S.well store.new }
    ensures fixed { S.fixed store.new ≡ S.fixed store.old }
{
    let code = code_of(world, store.method());
    let place = store.place();
    let key = pop_key(store, width);
    let offset = switch_offset(code, place, insn, key);
    Lead::Jumps(i64::from(place) + i64::from(offset))
}

/// The code of a method.
fn code_of<'a>(world: &World<'a>, method: u16) -> View<'a>
    requires { method < length world.now.methods }
    ensures is { result.bytes.now ≡ code_at world.now method }
    ensures short { length result.bytes.now ≤ 65535 }
{
    let _record = world.method(method);
    View::of(world.code(method))
}

/// The method of a class that serves a token of an interface, where the class implements the interface and its
/// entry tells a public token for it.
pub fn served(world: &World<'_>, interface: u16, token: u8, class: u16) -> Option<u16>
    requires { IsClass world.now.classes class }
    ensures { result ≡ served world.now.classes interface token class }
{
    let entry = serving(world, interface, class)?;
    let public = entry.tokens.as_slice().get(token as usize)?;
    world.classes().public_entry(class, *public)
}

/// The nearest entry for an interface among those of a class and its superclasses.
fn serving<'w>(world: &'w World<'_>, interface: u16, class: u16) -> Option<&'w Iface>
    requires { IsClass world.now.classes class }
    ensures { MatchOption result
        (serving world.now.classes interface class ≡ None)
        (λ entry. serving world.now.classes interface class ≡ Some entry.now) }
{
    let mut at = class;
    'climb: loop {
        match named(world.class(at).implements.as_slice(), interface) {
            Some(entry) => return Some(entry),
            None => {}
        }
        match world.classes().parent(at) {
            Some(parent) => at = parent,
            None => return None,
        }
    }
}

/// The first entry for an interface.
fn named(entries: &[Iface], interface: u16) -> Option<&Iface>
    ensures { MatchOption result
        (find (λ e. e.class == interface) entries.now ≡ None)
        (λ entry. find (λ e. e.class == interface) entries.now ≡ Some entry.now) }
{
    'entries: for entry in entries {
        if entry.class == interface {
            return Some(entry);
        }
    }
    None
}
