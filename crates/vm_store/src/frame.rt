ghost use Rattle.std.specs.Prelude.{◌≡◌, ◌+◌, ◌-◌, ◌<◌, ◌≤◌, [], ◌∷◌, ◌++◌, length, map, drop, replicate, slice_index_or, slice_set};
ghost use Rattle.std.specs.Prelude.{reverse};
ghost use Rattle.vm_store.specs.declared.cell.Cell.TheVariants.{Empty};
ghost use Rattle.vm_store.specs.Cells.{tagged, made_ready};
ghost use Rattle.vm_store.specs.Calls.{called};
ghost use Rattle.vm_store.specs.State.{nth, no_frame, rotated, arguments, register_count};

use crate::cell::Cell;
use crate::form::CellForm;
use arrayvec::ArrayVec;
use jc_base::World;
use std::marker::Model;

/// The most registers of a method.
const REGISTERS: usize = 255;

/// The most cells of an operand stack, and those that an instruction pushes before the room is tested.
pub const STACK_ROOM: usize = 510;

/// A frame of tagged cells.
#[derive(Drop)]
pub struct TaggedFrame {
    method: u16,
    place: u16,
    registers: ArrayVec<Cell, REGISTERS>,
    /// The top last.
    stack: ArrayVec<Cell, STACK_ROOM>,
}

impl Model for TaggedFrame {
    ghost use Rattle.std.specs.Prelude.{reverse};
    ghost use Rattle.vm_store.specs.declared.cell.Cell.{Cell};
    ghost use Rattle.vm_store.specs.State.{Frame};

    ghost Value = { Frame Cell };

    ghost view = { λ f. record { method = f.method; place = f.place; registers = f.registers.items; stack = reverse f.stack.items } };
}

impl TaggedFrame {
    /// An empty frame, at the beginning of the method of number 0.
    pub fn new() -> TaggedFrame
        ensures method { result.method ≡ 0 }
        ensures place { result.place ≡ 0 }
        ensures registers { result.registers ≡ [] }
        ensures stack { result.stack ≡ [] }
    {
        TaggedFrame {
            method: 0,
            place: 0,
            registers: ArrayVec::new(),
            stack: ArrayVec::new(),
        }
    }

    /// The number of the frame's method.
    pub fn method(&self) -> u16
        ensures { result ≡ self.now.method }
    {
        self.method
    }

    /// The place of the next instruction.
    pub fn place(&self) -> u16
        ensures { result ≡ self.now.place }
    {
        self.place
    }

    /// Goes on at another place.
    pub fn set_place(&mut self, place: u16)
        ensures { self.new ≡ record self.old { place = place } }
    {
        self.place = place;
    }

    /// How many cells are on the operand stack.
    pub fn depth(&self) -> usize
        ensures { result ≡ length self.now.stack }
    {
        self.stack.len()
    }

    /// A cell of the stack, by its number from the top.
    pub fn cell(&self, n: usize) -> Cell
        requires { n < length self.now.stack }
        ensures { result ≡ nth tagged self.now.stack n }
    {
        self.stack[self.stack.len() - 1 - n]
    }

    /// Puts a cell on top of the stack.
    pub fn push(&mut self, cell: Cell)
        requires { length self.old.stack < 510 }
        ensures { self.new ≡ record self.old { stack = cell ∷ self.old.stack } }
    {
        self.stack.push(cell);
    }

    /// Takes the cell on top of the stack.
    pub fn pop(&mut self) -> Cell
        requires { 0 < length self.old.stack }
        ensures value { result ≡ nth tagged self.old.stack 0 }
        ensures rest { self.new ≡ record self.old { stack = drop 1 self.old.stack } }
    {
        match self.stack.pop() {
            Some(cell) => cell,
            None => unreachable!(),
        }
    }

    /// Drops so many cells from the top of the stack.
    pub fn discard(&mut self, count: usize)
        requires { count ≤ length self.old.stack }
        ensures { self.new ≡ record self.old { stack = drop count self.old.stack } }
    {
        self.stack.truncate(self.stack.len() - count);
    }

    /// Turns the first so many cells from the top: the first `by` of them go under the others.
    pub fn rotate(&mut self, count: usize, by: usize)
        requires there { count ≤ length self.old.stack }
        requires part { by ≤ count }
        ensures { self.new ≡ record self.old { stack = rotated count by self.old.stack } }
    {
        rotate_cells(self.stack.as_mut_slice(), count, by);
    }

    /// Makes each reference on the stack ready whose object the `new` at this place made.
    pub fn make_ready(&mut self, place: u16)
        ensures { self.new ≡ record self.old { stack = map (made_ready place) self.old.stack } }
    {
        make_ready(self.stack.as_mut_slice(), place);
    }

    /// Begins a method, with its arguments in the first registers and the others empty.
    pub fn enter(&mut self, method: u16, count: usize, args: &[Cell])
        requires few { count ≤ 255 }
        requires room { length args.now ≤ count }
        ensures { self.new
            ≡ record { method = method; place = 0; registers = args.now ++ replicate (count - length args.now) Empty; stack = [] } }
    {
        self.method = method;
        self.place = 0;
        self.stack.clear();
        self.registers.clear();
        for cell in args {
            self.registers.push(*cell);
        }
        for _x in args.len()..count {
            self.registers.push(Cell::Empty);
        }
    }

    /// The top cells of the stack, as a callee's arguments.
    pub fn last(&self, count: usize) -> &[Cell]
        requires { count ≤ length self.now.stack }
        ensures { result.now ≡ arguments count self.now.stack }
    {
        let cells = self.stack.as_slice();
        &cells[cells.len() - count..]
    }

    /// The cell in a register.
    pub fn register(&self, x: u16) -> Cell
        requires { x < length self.now.registers }
        ensures { result ≡ nth tagged self.now.registers x }
    {
        self.registers[x as usize]
    }

    /// Stores a cell in a register.
    pub fn set_register(&mut self, x: u16, cell: Cell)
        requires { x < length self.old.registers }
        ensures { self.new ≡ record self.old { registers = slice_set self.old.registers x cell } }
    {
        self.registers[x as usize] = cell;
    }
}

/// The frame at a number calls a method: the next one begins it, with the top cells of the caller's
/// stack, which leave it, as its arguments.
pub fn call(frames: &mut [TaggedFrame], caller: usize, method: u16, registers: usize, count: usize)
    requires room { caller + 1 < length frames.old }
    requires there { count ≤ length (slice_index_or frames.old caller no_frame).stack }
    requires few { registers ≤ 255 }
    requires fit { count ≤ registers }
    ensures { frames.new ≡ called frames.old caller method registers count }
{
    let (callers, others) = frames.split_at_mut(caller + 1);
    let caller = &mut callers[caller];
    others[0].enter(method, registers, caller.last(count));
    caller.discard(count);
}

/// Puts the top `by` of the top `count` cells below the others.
pub fn rotate_cells<C: CellForm>(stack: &mut [C], count: usize, by: usize)
    requires there { count ≤ length stack.old }
    requires part { by ≤ count }
    ensures { reverse stack.new ≡ rotated count by (reverse stack.old) }
{
    let from = stack.len() - count;
    stack[from..].rotate_right(by);
}

/// Makes the cells ready that refer to the object made at the place.
pub fn make_ready(stack: &mut [Cell], place: u16)
    ensures { stack.new ≡ map (made_ready place) stack.old }
{
    'cells: for cell in stack.iter_mut() {
        *cell = cell.ready(place);
    }
}

/// How many registers a method has: its arguments and its locals.
pub fn register_count(world: &World<'_>, method: u16) -> usize
    requires { method < length world.now.methods }
    ensures value { result ≡ register_count world.now.methods method }
    ensures most { result ≤ 255 }
{
    let record = world.method(method);
    record.nargs as usize + record.max_locals as usize
}
