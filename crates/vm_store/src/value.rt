//! The values of fields and elements, between the operand stack and the cells that keep them.
ghost use Rattle.std.specs.Prelude.{◌≡◌, ◌+◌, ◌<◌, ◌≤◌, length, drop};
ghost use Rattle.jc_base.specs.Cell.{width};
ghost use Rattle.vm_store.specs.State.{IsRunning, top, with_stack};
ghost use Rattle.vm_store.specs.Objects.{object_cells};
ghost use Rattle.vm_store.specs.Value.{value_in, value_on, with_value, kept_value, byte_of_word, with_object_value, with_static_value};

use crate::form::CellForm;
use crate::store::Store;
use jc_base::Kind;

/// The low eight bits of a word, with their sign.
pub fn byte_of_word(word: u16) -> i16
    ensures { result ≡ byte_of_word word }
{
    i16::from(((word & 0xff) as u8).cast_signed())
}

/// Pushes the value of a kind that an object's cells hold from a place on.
pub fn push_object_value<S: Store>(store: &mut S, handle: u16, at: u16, kind: Kind)
    requires well { S.well store.old }
    requires running { IsRunning (S.state store.old) }
    requires there { at + width kind ≤ length (object_cells (S.state store.old) handle) }
    requires room { length (top (S.state store.old)).stack + width kind ≤ S.stack_room }
    ensures state { S.state store.new
        ≡ with_stack
        (S.state store.old)
        (with_value
        (value_in S.Cell.cells kind (object_cells (S.state store.old) handle) at)
        (top (S.state store.old)).stack) }
    ensures well { S.well store.new }
    ensures fixed { S.fixed store.new ≡ S.fixed store.old }
{
    let cell = store.object_cell(handle, at as usize);
    store.push(cell);
    if let Kind::Int = kind {
        let low = store.object_cell(handle, at as usize + 1);
        store.push(low);
    }
}

/// Pops a value of a kind and keeps it in an object's cells from a place on.
pub fn pop_object_value<S: Store>(store: &mut S, handle: u16, at: u16, kind: Kind)
    requires well { S.well store.old }
    requires running { IsRunning (S.state store.old) }
    requires there { at + width kind ≤ length (object_cells (S.state store.old) handle) }
    requires value { width kind ≤ length (top (S.state store.old)).stack }
    ensures state { S.state store.new
        ≡ with_object_value
        (with_stack (S.state store.old) (drop (width kind) (top (S.state store.old)).stack))
        handle
        at
        (kept_value S.Cell.cells kind (value_on S.Cell.cells kind (top (S.state store.old)).stack)) }
    ensures well { S.well store.new }
    ensures fixed { S.fixed store.new ≡ S.fixed store.old }
{
    match kind {
        Kind::Int => {
            let low = store.pop();
            let high = store.pop();
            store.set_object_cell(handle, at as usize, high);
            store.set_object_cell(handle, at as usize + 1, low);
        }
        Kind::Byte => {
            let cell = store.pop();
            store.set_object_cell(
                handle,
                at as usize,
                S::Cell::short(byte_of_word(cell.word())),
            );
        }
        _ => {
            let cell = store.pop();
            store.set_object_cell(handle, at as usize, cell);
        }
    }
}

/// Pushes the value of a kind that the static cells hold from a slot on.
pub fn push_static_value<S: Store>(store: &mut S, slot: u16, kind: Kind)
    requires well { S.well store.old }
    requires running { IsRunning (S.state store.old) }
    requires there { slot + width kind ≤ length (S.state store.old).statics }
    requires room { length (top (S.state store.old)).stack + width kind ≤ S.stack_room }
    ensures state { S.state store.new
        ≡ with_stack
        (S.state store.old)
        (with_value
        (value_in S.Cell.cells kind (S.state store.old).statics slot)
        (top (S.state store.old)).stack) }
    ensures well { S.well store.new }
    ensures fixed { S.fixed store.new ≡ S.fixed store.old }
{
    let cell = store.static_cell(slot as usize);
    store.push(cell);
    if let Kind::Int = kind {
        let low = store.static_cell(slot as usize + 1);
        store.push(low);
    }
}

/// Pops a value of a kind and keeps it in the static cells from a slot on.
pub fn pop_static_value<S: Store>(store: &mut S, slot: u16, kind: Kind)
    requires well { S.well store.old }
    requires running { IsRunning (S.state store.old) }
    requires there { slot + width kind ≤ length (S.state store.old).statics }
    requires value { width kind ≤ length (top (S.state store.old)).stack }
    ensures state { S.state store.new
        ≡ with_static_value
        (with_stack (S.state store.old) (drop (width kind) (top (S.state store.old)).stack))
        slot
        (kept_value S.Cell.cells kind (value_on S.Cell.cells kind (top (S.state store.old)).stack)) }
    ensures well { S.well store.new }
    ensures fixed { S.fixed store.new ≡ S.fixed store.old }
{
    match kind {
        Kind::Int => {
            let low = store.pop();
            let high = store.pop();
            store.set_static_cell(slot as usize, high);
            store.set_static_cell(slot as usize + 1, low);
        }
        Kind::Byte => {
            let cell = store.pop();
            store.set_static_cell(slot as usize, S::Cell::short(byte_of_word(cell.word())));
        }
        _ => {
            let cell = store.pop();
            store.set_static_cell(slot as usize, cell);
        }
    }
}
