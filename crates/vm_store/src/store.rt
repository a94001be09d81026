ghost use Rattle.std.specs.Prelude.{◌≡◌, ◌+◌, ◌*◌, ◌^◌, ◌<◌, ◌≤◌, ◌∷◌, ℕ, Some, IsTrue, IsSome, length, map, drop, option_map};
ghost use Rattle.jc_base.specs.Class.{IsClass};
ghost use Rattle.jc_base.specs.Dispatch.{cells_of};
ghost use Rattle.vm_store.specs.Kind.{IsArrayKind, IsNumbered, element_width, kind_of_handle};
ghost use Rattle.vm_store.specs.State.{State, IsRunning, nth, top, with_place, with_stack, with_register, with_call, with_entry};
ghost use Rattle.vm_store.specs.State.{without_top, without_frames, rotated, register_count, frame_limit};
ghost use Rattle.vm_store.specs.Objects.{kinds, object_at, object_cells, element_count, has_room, new_instance_cells, array_cells};
ghost use Rattle.vm_store.specs.Objects.{with_object, with_object_cell, with_static_cell};
ghost use Rattle.vm_store.specs.Store.{Fixed, IsOf};

use crate::cell::ObjectKind;
use crate::form::CellForm;
use jc_base::{Classes, Ty, World};

/// Where a machine keeps its state: its frames, its objects and the cells of the static fields.
///
/// A machine's step is written once over this trait. What a call asks beyond the limits of a run, as
/// that a register or an object is there, is a condition: a machine of tagged cells tests it first,
/// and a machine of bare words runs code that was verified.
pub trait Store {
    type Cell: CellForm;

    /// What the store holds.
    ghost state: { Self → State Self.Cell };

    /// The store's own layout is in order. Every call asks it and keeps it.
    ghost well: { Self → Type 0 };

    /// What no call changes.
    ghost fixed: { Self → Fixed };

    /// How many cells the operand stack of a frame can take.
    ghost stack_room: { ℕ };

    /// The number of frames.
    fn frame_count(&self) -> u16
        requires { well self.now }
        ensures { result ≡ length (state self.now).frames };

    /// The method of the frame on top.
    fn method(&self) -> u16
        requires well { well self.now }
        requires running { IsRunning (state self.now) }
        ensures { result ≡ (top (state self.now)).method };

    /// The place of the frame on top.
    fn place(&self) -> u16
        requires well { well self.now }
        requires running { IsRunning (state self.now) }
        ensures { result ≡ (top (state self.now)).place };

    fn set_place(&mut self, place: u16)
        requires well { well self.old }
        requires running { IsRunning (state self.old) }
        ensures state { state self.new ≡ with_place (state self.old) place }
        ensures well { well self.new }
        ensures fixed { fixed self.new ≡ fixed self.old };

    /// The number of cells on the operand stack.
    fn depth(&self) -> usize
        requires well { well self.now }
        requires running { IsRunning (state self.now) }
        ensures { result ≡ length (top (state self.now)).stack };

    /// A cell of the operand stack, by its number from the top.
    fn cell(&self, n: usize) -> Self::Cell
        requires well { well self.now }
        requires running { IsRunning (state self.now) }
        requires there { n < length (top (state self.now)).stack }
        ensures { result ≡ nth Self.Cell.cells (top (state self.now)).stack n };

    fn push(&mut self, cell: Self::Cell)
        requires well { well self.old }
        requires running { IsRunning (state self.old) }
        requires room { length (top (state self.old)).stack < stack_room }
        ensures state { state self.new ≡ with_stack (state self.old) (cell ∷ (top (state self.old)).stack) }
        ensures well { well self.new }
        ensures fixed { fixed self.new ≡ fixed self.old };

    fn pop(&mut self) -> Self::Cell
        requires well { well self.old }
        requires running { IsRunning (state self.old) }
        requires there { 0 < length (top (state self.old)).stack }
        ensures value { result ≡ nth Self.Cell.cells (top (state self.old)).stack 0 }
        ensures state { state self.new ≡ with_stack (state self.old) (drop 1 (top (state self.old)).stack) }
        ensures well { well self.new }
        ensures fixed { fixed self.new ≡ fixed self.old };

    /// Drops cells from the top of the operand stack.
    fn discard(&mut self, count: usize)
        requires well { well self.old }
        requires running { IsRunning (state self.old) }
        requires there { count ≤ length (top (state self.old)).stack }
        ensures state { state self.new ≡ with_stack (state self.old) (drop count (top (state self.old)).stack) }
        ensures well { well self.new }
        ensures fixed { fixed self.new ≡ fixed self.old };

    /// Puts the top `by` of the top `count` cells of the operand stack below the others.
    fn rotate(&mut self, count: usize, by: usize)
        requires well { well self.old }
        requires running { IsRunning (state self.old) }
        requires there { count ≤ length (top (state self.old)).stack }
        requires part { by ≤ count }
        ensures state { state self.new ≡ with_stack (state self.old) (rotated count by (top (state self.old)).stack) }
        ensures well { well self.new }
        ensures fixed { fixed self.new ≡ fixed self.old };

    /// A constructor was called on the object that the `new` at the place made: every cell of the
    /// operand stack that refers to it is ready.
    fn make_ready(&mut self, place: u16)
        requires well { well self.old }
        requires running { IsRunning (state self.old) }
        ensures state { state self.new
            ≡ with_stack (state self.old) (map (Self.Cell.cells.ready place) (top (state self.old)).stack) }
        ensures well { well self.new }
        ensures fixed { fixed self.new ≡ fixed self.old };

    fn register(&self, x: u16) -> Self::Cell
        requires well { well self.now }
        requires running { IsRunning (state self.now) }
        requires there { x < length (top (state self.now)).registers }
        ensures { result ≡ nth Self.Cell.cells (top (state self.now)).registers x };

    fn set_register(&mut self, x: u16, cell: Self::Cell)
        requires well { well self.old }
        requires running { IsRunning (state self.old) }
        requires there { x < length (top (state self.old)).registers }
        ensures state { state self.new ≡ with_register (state self.old) x cell }
        ensures well { well self.new }
        ensures fixed { fixed self.new ≡ fixed self.old };

    /// Makes a frame for a method, with every register empty, over those that are there.
    fn begin(&mut self, world: &World<'_>, method: u16)
        requires well { well self.old }
        requires world { IsOf (fixed self.old) world.now }
        requires known { method < length world.now.methods }
        requires room { length (state self.old).frames < frame_limit }
        ensures state { state self.new ≡ with_entry Self.Cell.cells world.now.methods (state self.old) method }
        ensures well { well self.new }
        ensures fixed { fixed self.new ≡ fixed self.old };

    /// Makes a frame for a method, with the top `count` cells of the operand stack as its arguments,
    /// which leave the stack.
    fn call(&mut self, world: &World<'_>, method: u16, count: u16)
        requires well { well self.old }
        requires running { IsRunning (state self.old) }
        requires world { IsOf (fixed self.old) world.now }
        requires known { method < length world.now.methods }
        requires room { length (state self.old).frames < frame_limit }
        requires there { count ≤ length (top (state self.old)).stack }
        requires registers { count ≤ register_count world.now.methods method }
        ensures state { state self.new ≡ with_call Self.Cell.cells world.now.methods (state self.old) method count }
        ensures well { well self.new }
        ensures fixed { fixed self.new ≡ fixed self.old };

    /// Drops the frame on top.
    fn leave(&mut self)
        requires well { well self.old }
        requires running { IsRunning (state self.old) }
        ensures state { state self.new ≡ without_top (state self.old) }
        ensures well { well self.new }
        ensures fixed { fixed self.new ≡ fixed self.old };

    /// Drops every frame.
    fn end(&mut self)
        requires { well self.old }
        ensures state { state self.new ≡ without_frames (state self.old) }
        ensures well { well self.new }
        ensures fixed { fixed self.new ≡ fixed self.old };

    /// Whether one more object of so many cells has room: there are fewer than 4,096 objects, and all
    /// have at most 32,768 cells together.
    fn has_room(&self, cells: usize) -> bool
        requires well { well self.now }
        requires few { cells < 2 ^ 32 }
        ensures { result ≡ has_room (state self.now) cells };

    /// The number of objects.
    fn object_count(&self) -> u16
        requires { well self.now }
        ensures { result ≡ length (state self.now).heap };

    /// What the object of a handle is.
    fn kind(&self, handle: u16) -> ObjectKind
        requires well { well self.now }
        requires there { IsSome (object_at (state self.now) handle) }
        ensures { kind_of_handle (kinds (state self.now)) handle ≡ Some result };

    /// How many elements the array of a handle has, or how many cells the instance.
    fn element_count(&self, handle: u16) -> u16
        requires well { well self.now }
        requires there { IsSome (object_at (state self.now) handle) }
        ensures { option_map element_count (object_at (state self.now) handle) ≡ Some result };

    /// Makes an instance of a class, and tells its handle.
    fn make_instance(&mut self, world: &World<'_>, class: u16) -> u16
        requires well { well self.old }
        requires class { IsClass world.now.classes class }
        requires room { IsTrue (has_room (state self.old) (length (cells_of world.now.classes class))) }
        ensures handle { result ≡ length (state self.old).heap + 1 }
        ensures state { state self.new
            ≡ with_object
            (state self.old)
            (ObjectKind.Instance class)
            (new_instance_cells Self.Cell.cells world.now.classes class) }
        ensures well { well self.new }
        ensures fixed { fixed self.new ≡ fixed self.old };

    /// Makes an array of so many elements, and tells its handle.
    fn make_array(&mut self, kind: ObjectKind, count: u16) -> u16
        requires well { well self.old }
        requires array { IsArrayKind kind }
        requires class { IsNumbered kind }
        requires room { IsTrue (has_room (state self.old) (element_width kind * count)) }
        ensures handle { result ≡ length (state self.old).heap + 1 }
        ensures state { state self.new ≡ with_object (state self.old) kind (array_cells Self.Cell.cells kind count) }
        ensures well { well self.new }
        ensures fixed { fixed self.new ≡ fixed self.old };

    /// A cell of the object of a handle.
    fn object_cell(&self, handle: u16, i: usize) -> Self::Cell
        requires well { well self.now }
        requires there { i < length (object_cells (state self.now) handle) }
        ensures { result ≡ nth Self.Cell.cells (object_cells (state self.now) handle) i };

    fn set_object_cell(&mut self, handle: u16, i: usize, cell: Self::Cell)
        requires well { well self.old }
        requires there { i < length (object_cells (state self.old) handle) }
        ensures state { state self.new ≡ with_object_cell (state self.old) handle i cell }
        ensures well { well self.new }
        ensures fixed { fixed self.new ≡ fixed self.old };

    /// A cell of a static field, by its slot.
    fn static_cell(&self, slot: usize) -> Self::Cell
        requires well { well self.now }
        requires there { slot < length (state self.now).statics }
        ensures { result ≡ nth Self.Cell.cells (state self.now).statics slot };

    fn set_static_cell(&mut self, slot: usize, cell: Self::Cell)
        requires well { well self.old }
        requires there { slot < length (state self.old).statics }
        ensures state { state self.new ≡ with_static_cell (state self.old) slot cell }
        ensures well { well self.new }
        ensures fixed { fixed self.new ≡ fixed self.old };

    /// The least type that a cell is known to have: of a bare word nothing is known.
    fn type_of(&self, classes: &Classes, cell: Self::Cell) -> Ty
        requires { well self.now }
        ensures { result ≡ Self.Cell.cells.type_of classes.now (kinds (state self.now)) cell };
}
