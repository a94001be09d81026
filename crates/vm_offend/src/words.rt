ghost use Rattle.std.specs.Prelude.{◌≡◌, ◌+◌, ◌*◌, ◌<◌, ◌≤◌, length};
ghost use Rattle.vm_store.specs.State.{IsRunning, top, first_frame, register_count};
ghost use Rattle.vm_offend.specs.Words.{AreLaid, FitsWindow, FitWindows, frame_in, frames_in, called_words, words_state};

use crate::object::{FIRST_CELL, kind_there, object_cell, object_elements, set_cell, set_header};
use crate::window;
use jc_base::{Classes, Ty, World};
use vm_store::{ObjectHeader, ObjectKind, Store, fill_array, fill_instance};

/// The most objects of a run.
const OBJECTS: u16 = 4096;

/// The most cells of all objects of a run.
const CELLS: usize = 32768;

/// How many frames, objects and cells of objects there are.
#[derive(Clone, Copy)]
pub struct Counts {
    pub frames: u16,
    pub objects: u16,
    pub cells: u16,
}

/// A state of bare words in memory that a caller lends. Each slice has a lifetime of its own, so that the caller knows
/// what it holds once the store is gone.
#[derive(Drop)]
pub struct WordStore<'w, 'r, 'h, 's> {
    world: &'w World<'w>,
    ram: &'r mut [u16],
    heap: &'h mut [u16],
    statics: &'s mut [u16],
    counts: Counts,
}

impl<'w, 'r, 'h, 's> WordStore<'w, 'r, 'h, 's> {
    ghost use Rattle.vm_offend.specs.WordStore.{state_in_words, IsLaidOut, fixed_of};

    /// The store of what the slices hold.
    pub fn over(
        world: &'w World<'w>,
        ram: &'r mut [u16],
        heap: &'h mut [u16],
        statics: &'s mut [u16],
        counts: Counts,
    ) -> WordStore<'w, 'r, 'h, 's>
        requires { AreLaid world.now ram.old heap.old counts }
        ensures state { state_in_words result ≡ words_state world.entry.now.methods ram.old heap.old statics.old counts }
        ensures well { IsLaidOut result }
        ensures ram { result.ram.ghost_name ≡ ram.entry.ghost_name }
        ensures heap { result.heap.ghost_name ≡ heap.entry.ghost_name }
        ensures statics { result.statics.ghost_name ≡ statics.entry.ghost_name }
        ensures world { result.world.now ≡ world.entry.now }
    {
        WordStore {
            world,
            ram,
            heap,
            statics,
            counts,
        }
    }

    /// How many frames, objects and cells there are.
    pub fn counts(&self) -> Counts
        ensures { result ≡ self.now.counts }
    {
        self.counts
    }

    /// The words of the frame on top.
    fn top(&self) -> &[u16]
        requires well { IsLaidOut self.now }
        requires running { IsRunning (state_in_words self.now) }
        ensures len { length result.now ≡ 513 }
        ensures fits { FitsWindow self.now.world.now.methods result.now }
        ensures frame { frame_in self.now.world.now.methods result.now ≡ top (state_in_words self.now) }
    {
        let from = window::WORDS * (self.counts.frames as usize - 1);
        &self.ram[from..from + window::WORDS]
    }
}

impl<'w, 'r, 'h, 's> Store for WordStore<'w, 'r, 'h, 's> {
    ghost use Rattle.vm_offend.specs.WordStore.{state_in_words, IsLaidOut, fixed_of};

    type Cell = u16;

    ghost state = { state_in_words };

    ghost well = { IsLaidOut };

    ghost fixed = { fixed_of };

    ghost stack_room = { 255 };

    fn frame_count(&self) -> u16 {
        self.counts.frames
    }

    fn method(&self) -> u16 {
        self.top()[0]
    }

    fn place(&self) -> u16 {
        self.top()[1]
    }

    fn set_place(&mut self, place: u16) {
        let from = window::WORDS * (self.counts.frames as usize - 1);
        window::set_place(&mut self.ram[from..from + window::WORDS], self.world, place);
    }

    fn depth(&self) -> usize {
        window::depth(self.top(), self.world)
    }

    fn cell(&self, n: usize) -> u16 {
        window::cell(self.top(), self.world, n)
    }

    fn push(&mut self, cell: u16) {
        let from = window::WORDS * (self.counts.frames as usize - 1);
        window::push(&mut self.ram[from..from + window::WORDS], self.world, cell);
    }

    fn pop(&mut self) -> u16 {
        let cell = self.cell(0);
        self.discard(1);
        cell
    }

    fn discard(&mut self, count: usize) {
        let from = window::WORDS * (self.counts.frames as usize - 1);
        window::discard(&mut self.ram[from..from + window::WORDS], self.world, count);
    }

    fn rotate(&mut self, count: usize, by: usize) {
        let from = window::WORDS * (self.counts.frames as usize - 1);
        window::rotate(
            &mut self.ram[from..from + window::WORDS],
            self.world,
            count,
            by,
        );
    }

    fn make_ready(&mut self, _place: u16) {}

    fn register(&self, x: u16) -> u16 {
        window::register(self.top(), self.world, x)
    }

    fn set_register(&mut self, x: u16, cell: u16) {
        let from = window::WORDS * (self.counts.frames as usize - 1);
        window::set_register(
            &mut self.ram[from..from + window::WORDS],
            self.world,
            x,
            cell,
        );
    }

    #[tactic(auto, using(crate::proofs::Rams::next_reach))]
    fn begin(&mut self, _world: &World<'_>, method: u16) {
        let from = window::WORDS * self.counts.frames as usize;
        window::enter(
            &mut self.ram[from..from + window::WORDS],
            self.world,
            method,
            &[],
        );
        self.counts.frames += 1;
    }

    fn call(&mut self, _world: &World<'_>, method: u16, count: u16) {
        call(
            self.ram,
            self.world,
            self.counts.frames as usize,
            method,
            count as usize,
        );
        self.counts.frames += 1;
    }

    fn leave(&mut self) {
        self.counts.frames -= 1;
    }

    fn end(&mut self) {
        self.counts.frames = 0;
    }

    fn has_room(&self, cells: usize) -> bool {
        if self.counts.objects >= OBJECTS {
            return false;
        }
        self.counts.cells as usize + cells <= CELLS
    }

    fn object_count(&self) -> u16 {
        self.counts.objects
    }

    fn kind(&self, handle: u16) -> ObjectKind {
        kind_there(self.heap, self.counts, handle)
    }

    fn element_count(&self, handle: u16) -> u16 {
        object_elements(self.heap, self.counts, handle)
    }

    fn make_instance(&mut self, world: &World<'_>, class: u16) -> u16 {
        let _limit = world.class_count();
        let elements = world.class(class).cells;
        let start = self.counts.cells;
        fill_instance(&mut self.heap[FIRST_CELL..], start as usize, world, class);
        let header = ObjectHeader {
            kind: ObjectKind::Instance(class),
            start,
            elements,
        };
        set_header(self.heap, self.counts.objects as usize, header);
        self.counts.objects += 1;
        self.counts.cells += elements;
        self.counts.objects
    }

    fn make_array(&mut self, kind: ObjectKind, count: u16) -> u16 {
        let start = self.counts.cells;
        fill_array(&mut self.heap[FIRST_CELL..], start as usize, kind, count);
        let header = ObjectHeader {
            kind,
            start,
            elements: count,
        };
        set_header(self.heap, self.counts.objects as usize, header);
        self.counts.objects += 1;
        self.counts.cells += header.size() as u16;
        self.counts.objects
    }

    fn object_cell(&self, handle: u16, i: usize) -> u16 {
        object_cell(self.heap, self.counts, handle, i)
    }

    fn set_object_cell(&mut self, handle: u16, i: usize, cell: u16) {
        set_cell(self.heap, handle as usize - 1, i, cell);
    }

    fn static_cell(&self, slot: usize) -> u16 {
        self.statics[slot]
    }

    fn set_static_cell(&mut self, slot: usize, cell: u16) {
        self.statics[slot] = cell;
    }

    fn type_of(&self, _classes: &Classes, _cell: u16) -> Ty {
        Ty::Top
    }
}

/// The frame on top calls a method: the next frame begins it, with the top cells of the caller's stack,
/// which leave it, as its arguments.
fn call(ram: &mut [u16], world: &World<'_>, frames: usize, method: u16, count: usize)
    requires reach { 513 * frames + 513 ≤ length ram.old }
    requires fit { FitWindows world.now.methods ram.old frames }
    requires running { 0 < frames }
    requires known { method < length world.now.methods }
    requires there { count ≤ length (first_frame (frames_in world.now.methods ram.old frames)).stack }
    requires registers { count ≤ register_count world.now.methods method }
    ensures frames { frames_in world.now.methods ram.new (frames + 1)
        ≡ called_words world.now.methods (frames_in world.now.methods ram.old frames) method count }
    ensures fit { FitWindows world.now.methods ram.new (frames + 1) }
{
    let (below, above) = ram.split_at_mut(window::WORDS * frames);
    let (_lower, caller) = below.split_at_mut(window::WORDS * (frames - 1));
    let (callee, _unused) = above.split_at_mut(window::WORDS);
    window::enter(callee, world, method, window::last(caller, world, count));
    window::discard(caller, world, count);
}
