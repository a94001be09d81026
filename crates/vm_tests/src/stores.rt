//! What is tried of any store, tagged or of bare words: the same calls, and the words that they leave.
ghost use Rattle.std.specs.Prelude.{◌≡◌, ◌*◌, ◌<◌, IsSome, IsTrue, length};
ghost use Rattle.jc_tests.specs.OneMethod.{classes};
ghost use Rattle.vm_store.specs.Kind.{IsArrayKind, IsNumbered, element_width};
ghost use Rattle.vm_store.specs.Objects.{has_room, object_at, object_cells};
ghost use Rattle.vm_store.specs.State.{frame_limit};
ghost use Rattle.vm_store.specs.Store.{IsOf};

use jc_base::World;
use vm_store::{CellForm, ObjectKind, Store};

// ---- limits

/// Whether 4,096 objects have room, and no other.
pub(crate) fn objects_reach_their_limit<S: Store>(store: &mut S) -> bool
    requires { S.well store.old }
{
    'objects: for _n in 0..4096 {
        if !store.has_room(0) {
            return false;
        }
        store.make_array(ObjectKind::Bytes, 0);
    }
    !store.has_room(0) && store.object_count() == 4096
}

/// Whether 32,768 cells have room, and no other.
pub(crate) fn cells_reach_their_limit<S: Store>(store: &mut S) -> bool
    requires { S.well store.old }
{
    if store.has_room(32769) || !store.has_room(32768) {
        return false;
    }
    store.make_array(ObjectKind::Ints, 16384);
    store.has_room(0) && !store.has_room(1)
}

// ---- objects

#[tactic(auto, using(crate::proofs::Made::made_there))]
fn make<S: Store>(store: &mut S, kind: ObjectKind, count: u16) -> u16
    requires well { S.well store.old }
    requires array { IsArrayKind kind }
    requires class { IsNumbered kind }
    requires room { IsTrue (has_room (S.state store.old) (element_width kind * count)) }
    ensures well { S.well store.new }
    ensures there { IsSome (object_at (S.state store.new) result) }
    ensures cells { length (object_cells (S.state store.new) result) ≡ element_width kind * count }
{
    store.make_array(kind, count)
}

#[tactic(auto, using(crate::proofs::Made::kept_cells, crate::proofs::Made::kept_there))]
fn write<S: Store>(store: &mut S, handle: u16, i: usize, number: i16)
    requires well { S.well store.old }
    requires there { i < length (object_cells (S.state store.old) handle) }
    requires object { IsSome (object_at (S.state store.old) handle) }
    ensures well { S.well store.new }
    ensures there { IsSome (object_at (S.state store.new) handle) }
    ensures cells { length (object_cells (S.state store.new) handle) ≡ length (object_cells (S.state store.old) handle) }
{
    store.set_object_cell(handle, i, S::Cell::short(number));
}

fn holds<S: Store>(store: &S, handle: u16, i: usize, word: u16) -> bool
    requires well { S.well store.now }
    requires there { i < length (object_cells (S.state store.now) handle) }
{
    store.object_cell(handle, i).word() == word
}

fn has_elements<S: Store>(store: &S, handle: u16, count: u16) -> bool
    requires well { S.well store.now }
    requires there { IsSome (object_at (S.state store.now) handle) }
{
    store.element_count(handle) == count
}

/// Whether a new array of three elements holds zeros, and keeps what is written at its end there alone.
fn keeps<S: Store>(store: &mut S, kind: ObjectKind) -> bool
    requires well { S.well store.old }
    requires array { IsArrayKind kind }
    requires class { IsNumbered kind }
    ensures { S.well store.new }
{
    let cells = 3 * kind.width();
    if !store.has_room(cells) {
        return false;
    }
    let handle = make(store, kind, 3);
    if !has_elements(store, handle, 3) || !holds(store, handle, cells - 1, 0) {
        return false;
    }
    write(store, handle, cells - 1, -5);
    has_elements(store, handle, 3)
        && holds(store, handle, cells - 1, 0xfffb)
        && holds(store, handle, 0, 0)
}

/// Whether arrays of each kind do.
pub(crate) fn arrays_keep<S: Store>(store: &mut S) -> bool
    requires { S.well store.old }
{
    keeps(store, ObjectKind::Booleans)
        && keeps(store, ObjectKind::Bytes)
        && keeps(store, ObjectKind::Shorts)
        && keeps(store, ObjectKind::Ints)
        && keeps(store, ObjectKind::References(2))
}

#[tactic(auto, using(crate::proofs::Made::made_instance, crate::proofs::Made::made_there, crate::proofs::Made::four_cells))]
fn make_instance<S: Store>(store: &mut S, world: &World<'_>) -> u16
    requires well { S.well store.old }
    requires classes { world.now.classes ≡ classes }
    requires room { IsTrue (has_room (S.state store.old) 4) }
    ensures well { S.well store.new }
    ensures there { IsSome (object_at (S.state store.new) result) }
    ensures cells { length (object_cells (S.state store.new) result) ≡ 4 }
{
    store.make_instance(world, 2)
}

/// Whether a new object with a short, an int and a reference holds zeros, and keeps what is written in its last cell
/// there alone.
pub(crate) fn instance_keeps<S: Store>(store: &mut S, world: &World<'_>) -> bool
    requires well { S.well store.old }
    requires classes { world.now.classes ≡ classes }
{
    if !store.has_room(4) {
        return false;
    }
    let handle = make_instance(store, world);
    if !has_elements(store, handle, 4) || !holds(store, handle, 3, 0) {
        return false;
    }
    write(store, handle, 3, 11);
    holds(store, handle, 3, 11) && holds(store, handle, 2, 0) && holds(store, handle, 0, 0)
}

// ---- static fields

/// Whether a static field keeps what is written, there alone.
pub(crate) fn statics_keep<S: Store>(store: &mut S) -> bool
    requires well { S.well store.old }
    requires there { 2 < length (S.state store.old).statics }
{
    store.set_static_cell(2, S::Cell::short(-3));
    store.static_cell(2).word() == 0xfffd && store.static_cell(0).word() == 0
}

// ---- frames

/// Whether the operand stack of a new frame gives back what was pushed, its top put below the others.
pub(crate) fn stack_turns<S: Store>(store: &mut S, world: &World<'_>) -> bool
    requires well { S.well store.old }
    requires world { IsOf (S.fixed store.old) world.now }
    requires known { 0 < length world.now.methods }
    requires frames { length (S.state store.old).frames < frame_limit }
    requires room { 3 < S.stack_room }
{
    store.begin(world, 0);
    store.push(S::Cell::short(-7));
    store.push(S::Cell::reference(9));
    store.push(S::Cell::high(5));
    store.rotate(3, 1);
    let top = store.pop().word();
    let below = store.pop().word();
    let last = store.pop().word();
    store.depth() == 0 && top == 9 && below == 0xfff9 && last == 5
}
