//! The arrays that are there before the first step: the initial ones, and those of arguments.
ghost use Rattle.std.specs.Prelude.{◌≡◌, ◌+◌, ◌*◌, ◌%◌, ◌∷◌, [], ◌++◌, length, map, IsTrue, None};
ghost use Rattle.jc_base.specs.Cell.{AreElementsOf};
ghost use Rattle.vm_arithmetic.specs.Arithmetic.{short_of_word};
ghost use Rattle.vm_store.specs.Value.{byte_of_word};
ghost use Rattle.vm_store.specs.Kind.{IsArrayKind, IsNumbered, element_width};
ghost use Rattle.vm_store.specs.Objects.{has_room, with_object, heap_cells};
ghost use Rattle.vm_step.specs.Start.{int_cells, initial_object, with_arrays, first_without_room};

use jc_base::{ArrayRec, Ty, World};
use vm_step::{Arg, Args};
use vm_store::{CellForm, ObjectKind, Store, byte_of_word};

/// A new array of elements of one cell each: shorts, which may be booleans or bytes.
fn make_shorts<S: Store>(store: &mut S, kind: ObjectKind, words: &[u16])
    requires well { S.well store.old }
    requires array { IsArrayKind kind }
    requires narrow { element_width kind ≡ 1 }
    requires class { IsNumbered kind }
    requires room { IsTrue (has_room (S.state store.old) (length words.now)) }
    ensures state { S.state store.new
        ≡ with_object (S.state store.old) kind (map (λ w. S.Cell.cells.short (short_of_word w)) words.now) }
    ensures well { S.well store.new }
    ensures fixed { S.fixed store.new ≡ S.fixed store.old }
{
    let handle = store.make_array(kind, words.len() as u16);
    'words: for i in 0..words.len() {
        store.set_object_cell(handle, i, S::Cell::short(words[i].cast_signed()));
    }
}

/// A new array of bytes.
fn make_bytes<S: Store>(store: &mut S, bytes: &[u8])
    requires well { S.well store.old }
    requires room { IsTrue (has_room (S.state store.old) (length bytes.now)) }
    ensures state { S.state store.new
        ≡ with_object (S.state store.old) ObjectKind.Bytes (map (λ b. S.Cell.cells.short (byte_of_word b)) bytes.now) }
    ensures well { S.well store.new }
    ensures fixed { S.fixed store.new ≡ S.fixed store.old }
{
    let handle = store.make_array(ObjectKind::Bytes, bytes.len() as u16);
    'bytes: for i in 0..bytes.len() {
        store.set_object_cell(handle, i, S::Cell::short(byte_of_word(u16::from(bytes[i]))));
    }
}

/// A new array of ints, of which each takes two words.
fn make_ints<S: Store>(store: &mut S, words: &[u16])
    requires well { S.well store.old }
    requires whole { length words.now % 2 ≡ 0 }
    requires room { IsTrue (has_room (S.state store.old) (length words.now)) }
    ensures state { S.state store.new
        ≡ with_object (S.state store.old) ObjectKind.Ints (int_cells S.Cell.cells words.now) }
    ensures well { S.well store.new }
    ensures fixed { S.fixed store.new ≡ S.fixed store.old }
{
    let count = words.len() / 2;
    let handle = store.make_array(ObjectKind::Ints, count as u16);
    'ints: for i in 0..count {
        store.set_object_cell(handle, 2 * i, S::Cell::high(words[2 * i]));
        store.set_object_cell(handle, 2 * i + 1, S::Cell::low(words[2 * i + 1]));
    }
}

/// An initial array of a world.
fn make_initial<S: Store>(store: &mut S, array: &ArrayRec)
    requires well { S.well store.old }
    requires elements { AreElementsOf array.now.kind array.now.initial }
    requires room { IsTrue (has_room (S.state store.old) (length array.now.initial)) }
    ensures state { S.state store.new
        ≡ record (S.state store.old) { heap = (S.state store.old).heap ++ initial_object S.Cell.cells array.now ∷ [] } }
    ensures well { S.well store.new }
    ensures fixed { S.fixed store.new ≡ S.fixed store.old }
{
    let words = array.initial.as_slice();
    match array.kind {
        Ty::ArrBool => make_shorts(store, ObjectKind::Booleans, words),
        Ty::ArrByte => make_shorts(store, ObjectKind::Bytes, words),
        Ty::ArrShort => make_shorts(store, ObjectKind::Shorts, words),
        _ => make_ints(store, words),
    }
}

/// The initial arrays of a world.
pub fn make_initial_arrays<S: Store>(store: &mut S, world: &World<'_>)
    requires well { S.well store.old }
    requires none { (S.state store.old).heap ≡ [] }
    ensures state { S.state store.new
        ≡ record (S.state store.old) { heap = map (initial_object S.Cell.cells) world.now.arrays } }
    ensures well { S.well store.new }
    ensures fixed { S.fixed store.new ≡ S.fixed store.old }
{
    let _facts = world.classes();
    'arrays: for n in 0..world.array_count() {
        make_initial(store, world.array(n));
    }
}

/// An array for each argument of bytes.
pub fn make_argument_arrays<S: Store>(store: &mut S, args: &Args<'_>)
    requires well { S.well store.old }
    requires room { first_without_room 0 (length (S.state store.old).heap) (heap_cells (S.state store.old)) args.now ≡ None }
    ensures state { S.state store.new ≡ with_arrays S.Cell.cells args.now (S.state store.old) }
    ensures well { S.well store.new }
    ensures fixed { S.fixed store.new ≡ S.fixed store.old }
{
    'each: for arg in args.as_slice() {
        if let Arg::Bytes(bytes) = *arg {
            make_bytes(store, bytes);
        }
    }
}
