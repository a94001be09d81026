ghost use Rattle.std.specs.Prelude.{◌≡◌, [], None, pos, IfOk, map, replicate, vec_len};
ghost use Rattle.vm_store.specs.declared.cell.Cell.TheVariants.{Short};
ghost use Rattle.vm_store.specs.Kind.{kind_of_handle};
ghost use Rattle.vm_store.specs.Typing.{type_of_handle, type_of_fresh};
ghost use Rattle.vm_store.specs.State.{IsRunning, top};

use crate::cell::{Cell, ObjectHeader, ObjectKind};
use crate::fill::{fill_array, fill_instance};
use crate::frame::{self, TaggedFrame, register_count};
use crate::store::Store;
use jc_base::{Classes, Ty, World};
use std::alloc::{AllocError, Global};
use std::marker::Model;

/// The most frames of a run.
const FRAMES: usize = 64;

/// The most objects of a run.
const OBJECTS: usize = 4096;

/// The most cells of all objects of a run.
const CELLS: usize = 32768;

/// A state of tagged cells, in memory that was taken once for a whole run: 64 frames, 4,096 objects,
/// 32,768 cells of objects, and the static fields.
#[derive(Drop)]
pub struct TaggedStore {
    /// All frames, of which the first `live` are those of methods that run; the top one is the last of them.
    frames: Vec<TaggedFrame>,
    live: usize,
    headers: Vec<ObjectHeader>,
    /// All cells of objects, of which the first `used` are taken.
    cells: Vec<Cell>,
    used: usize,
    statics: Vec<Cell>,
}

impl Model for TaggedStore {
    ghost use Rattle.std.specs.Prelude.{◌≡◌, take, reverse, length, vec_len, vec_capacity};
    ghost use Rattle.vm_store.specs.declared.cell.Cell.{Cell};
    ghost use Rattle.vm_store.specs.State.{State};

    ghost Value = { State Cell };

    ghost use Rattle.vm_store.specs.Layout.{objects_in};
    ghost use Rattle.vm_store.specs.Tagged.{IsInOrder};

    ghost view = { λ s. record {
      frames = reverse (take s.live s.frames.items);
      heap = objects_in s.cells.items s.headers.items;
      statics = s.statics.items;
    } };

    ghost invariant = { λ s. IsInOrder (length s.frames.items) s.live s.headers.items
        (vec_capacity s.headers) (length s.cells.items) s.used };
}

impl TaggedStore {
    /// The memory of a run with so many static cells, which are zero: no frame and no object yet.
    pub fn new(alloc: Global, statics: u16) -> Result<TaggedStore, AllocError>
        ensures { IfOk
            result
            (λ s. s ≡ record { frames = []; heap = []; statics = replicate statics (Short (pos 0)) }) }
    {
        let frames = new_frames(alloc)?;
        let headers = Vec::with_capacity(alloc, OBJECTS)?;
        let cells = vec![in alloc; Cell::Empty; CELLS]?;
        let statics = vec![in alloc; Cell::Short(0); statics as usize]?;
        Ok(TaggedStore {
            frames,
            live: 0,
            headers,
            cells,
            used: 0,
            statics,
        })
    }

    /// The frame on top.
    fn top(&self) -> &TaggedFrame
        requires { IsRunning self.now }
        ensures { result.now ≡ top self.now }
    {
        &self.frames[self.live - 1]
    }
}

#[tactic(auto, using(crate::proofs::Tops::tops))]
impl Store for TaggedStore {
    type Cell = Cell;

    ghost state = { λ s. s };

    ghost well = { λ _. Unit {0} };

    ghost fixed = { λ _. record { world = None; loans = [] } };

    ghost stack_room = { 510 };

    fn frame_count(&self) -> u16 {
        self.live as u16
    }

    fn method(&self) -> u16 {
        self.top().method()
    }

    fn place(&self) -> u16 {
        self.top().place()
    }

    fn set_place(&mut self, place: u16) {
        let top = self.live - 1;
        self.frames[top].set_place(place);
    }

    fn depth(&self) -> usize {
        self.top().depth()
    }

    fn cell(&self, n: usize) -> Cell {
        self.top().cell(n)
    }

    fn push(&mut self, cell: Cell) {
        let top = self.live - 1;
        self.frames[top].push(cell);
    }

    fn pop(&mut self) -> Cell {
        let top = self.live - 1;
        self.frames[top].pop()
    }

    fn discard(&mut self, count: usize) {
        let top = self.live - 1;
        self.frames[top].discard(count);
    }

    fn rotate(&mut self, count: usize, by: usize) {
        let top = self.live - 1;
        self.frames[top].rotate(count, by);
    }

    fn make_ready(&mut self, place: u16) {
        let top = self.live - 1;
        self.frames[top].make_ready(place);
    }

    fn register(&self, x: u16) -> Cell {
        self.top().register(x)
    }

    fn set_register(&mut self, x: u16, cell: Cell) {
        let top = self.live - 1;
        self.frames[top].set_register(x, cell);
    }

    fn begin(&mut self, world: &World<'_>, method: u16) {
        self.frames[self.live].enter(method, register_count(world, method), &[]);
        self.live += 1;
    }

    fn call(&mut self, world: &World<'_>, method: u16, count: u16) {
        let registers = register_count(world, method);
        let caller = self.live - 1;
        frame::call(
            self.frames.as_mut_slice(),
            caller,
            method,
            registers,
            count as usize,
        );
        self.live += 1;
    }

    fn leave(&mut self) {
        self.live -= 1;
    }

    fn end(&mut self) {
        self.live = 0;
    }

    fn has_room(&self, cells: usize) -> bool {
        self.headers.len() < OBJECTS && self.used + cells <= CELLS
    }

    fn object_count(&self) -> u16 {
        self.headers.len() as u16
    }

    fn kind(&self, handle: u16) -> ObjectKind {
        self.headers[handle as usize - 1].kind
    }

    fn element_count(&self, handle: u16) -> u16 {
        self.headers[handle as usize - 1].elements
    }

    fn make_instance(&mut self, world: &World<'_>, class: u16) -> u16 {
        let elements = world.class(class).cells;
        let start = self.used;
        fill_instance(self.cells.as_mut_slice(), start, world, class);
        self.used += elements as usize;
        self.headers.push_reserved(ObjectHeader {
            kind: ObjectKind::Instance(class),
            start: start as u16,
            elements,
        });
        self.headers.len() as u16
    }

    fn make_array(&mut self, kind: ObjectKind, count: u16) -> u16 {
        let start = self.used;
        fill_array(self.cells.as_mut_slice(), start, kind, count);
        self.used += kind.width() * count as usize;
        self.headers.push_reserved(ObjectHeader {
            kind,
            start: start as u16,
            elements: count,
        });
        self.headers.len() as u16
    }

    fn object_cell(&self, handle: u16, i: usize) -> Cell {
        let header = self.headers[handle as usize - 1];
        self.cells[header.start as usize + i]
    }

    fn set_object_cell(&mut self, handle: u16, i: usize, cell: Cell) {
        let header = self.headers[handle as usize - 1];
        self.cells[header.start as usize + i] = cell;
    }

    fn static_cell(&self, slot: usize) -> Cell {
        self.statics[slot]
    }

    fn set_static_cell(&mut self, slot: usize, cell: Cell) {
        self.statics[slot] = cell;
    }

    fn type_of(&self, classes: &Classes, cell: Cell) -> Ty {
        match cell {
            Cell::Empty => Ty::Bottom,
            Cell::Short(_) => Ty::Short,
            Cell::High(_) => Ty::IntHigh,
            Cell::Low(_) => Ty::IntLow,
            Cell::Ref(handle) => type_of_handle(&self.headers, classes, handle),
            Cell::Fresh { handle, place } => type_of_fresh(&self.headers, handle, place),
        }
    }
}

/// The frames of a run, of no method yet.
fn new_frames(alloc: Global) -> Result<Vec<TaggedFrame>, AllocError>
    ensures { IfOk result (λ v. vec_len v ≡ 64) }
{
    let mut frames = Vec::with_capacity(alloc, FRAMES)?;
    'frames: for _n in 0..FRAMES {
        frames.push_reserved(TaggedFrame::new());
    }
    Ok(frames)
}

/// What the object of a handle is.
fn kind_of(headers: &Vec<ObjectHeader>, handle: u16) -> Option<ObjectKind>
    ensures { result ≡ kind_of_handle (map (λ h. h.kind) headers.now.items) handle }
{
    if handle == 0 || headers.len() < handle as usize {
        return None;
    }
    Some(headers[handle as usize - 1].kind)
}

/// The least type of a reference.
fn type_of_handle(headers: &Vec<ObjectHeader>, classes: &Classes, handle: u16) -> Ty
    ensures { result ≡ type_of_handle classes.now (map (λ h. h.kind) headers.now.items) handle }
{
    if handle == 0 {
        return Ty::Null;
    }
    match kind_of(headers, handle) {
        Some(kind) => kind.ty(classes),
        None => Ty::Top,
    }
}

/// The least type of a reference to an object on which no constructor was called yet.
fn type_of_fresh(headers: &Vec<ObjectHeader>, handle: u16, place: u16) -> Ty
    ensures { result ≡ type_of_fresh (map (λ h. h.kind) headers.now.items) handle place }
{
    match kind_of(headers, handle) {
        Some(kind) => kind.fresh(place),
        None => Ty::Top,
    }
}
