//! A frame in its 513 words: its method, its place, the depth of its stack, 255 registers and 255
//! cells of the stack, of which the top is the last.
ghost use Rattle.std.specs.Prelude.{◌≡◌, ◌+◌, ◌<◌, ◌≤◌, ◌∷◌, length, drop, slice_index, slice_set};
ghost use Rattle.vm_store.specs.Cells.{words};
ghost use Rattle.vm_store.specs.State.{nth, rotated, arguments, entered, register_count};
ghost use Rattle.vm_offend.specs.Words.{frame_in, FitsWindow};

use jc_base::World;
use vm_store::{register_count, rotate_cells};

/// How many words of memory a run of a world is lent.
#[derive(Clone, Copy)]
pub struct Sizes {
    /// For 64 frames.
    pub ram: usize,
    /// For 4,096 objects with 32,768 cells together.
    pub heap: usize,
    /// For the static fields.
    pub statics: usize,
}

/// The words of one frame.
pub const WORDS: usize = 513;

/// Where the registers begin.
const REGISTERS: usize = 3;

/// Where the stack begins.
const STACK: usize = 258;

/// How many cells are on the operand stack.
pub fn depth(window: &[u16], world: &World<'_>) -> usize
    requires len { length window.now ≡ 513 }
    requires fits { FitsWindow world.now.methods window.now }
    ensures { result ≡ length (frame_in world.now.methods window.now).stack }
{
    window[2] as usize
}

/// A cell of the stack, by its number from the top.
pub fn cell(window: &[u16], world: &World<'_>, n: usize) -> u16
    requires len { length window.now ≡ 513 }
    requires fits { FitsWindow world.now.methods window.now }
    requires there { n < length (frame_in world.now.methods window.now).stack }
    ensures { result ≡ nth words (frame_in world.now.methods window.now).stack n }
{
    window[STACK + window[2] as usize - 1 - n]
}

/// Puts a word on top of the stack.
pub fn push(window: &mut [u16], world: &World<'_>, cell: u16)
    requires len { length window.old ≡ 513 }
    requires fits { FitsWindow world.now.methods window.old }
    requires room { length (frame_in world.now.methods window.old).stack < 255 }
    ensures frame { frame_in world.now.methods window.new
        ≡ record
        (frame_in world.now.methods window.old)
        { stack = cell ∷ (frame_in world.now.methods window.old).stack } }
    ensures fits { FitsWindow world.now.methods window.new }
{
    let depth = window[2];
    window[STACK + depth as usize] = cell;
    window[2] = depth + 1;
}

/// Drops so many words from the top of the stack.
pub fn discard(window: &mut [u16], world: &World<'_>, count: usize)
    requires len { length window.old ≡ 513 }
    requires fits { FitsWindow world.now.methods window.old }
    requires there { count ≤ length (frame_in world.now.methods window.old).stack }
    ensures frame { frame_in world.now.methods window.new
        ≡ record
        (frame_in world.now.methods window.old)
        { stack = drop count (frame_in world.now.methods window.old).stack } }
    ensures fits { FitsWindow world.now.methods window.new }
{
    window[2] -= count as u16;
}

/// Turns the first so many words from the top: the first `by` of them go under the others.
pub fn rotate(window: &mut [u16], world: &World<'_>, count: usize, by: usize)
    requires len { length window.old ≡ 513 }
    requires fits { FitsWindow world.now.methods window.old }
    requires there { count ≤ length (frame_in world.now.methods window.old).stack }
    requires part { by ≤ count }
    ensures frame { frame_in world.now.methods window.new
        ≡ record
        (frame_in world.now.methods window.old)
        { stack = rotated count by (frame_in world.now.methods window.old).stack } }
    ensures fits { FitsWindow world.now.methods window.new }
{
    let end = STACK + window[2] as usize;
    rotate_cells(&mut window[STACK..end], count, by);
}

/// The top cells of the stack, as a callee's arguments.
pub fn last<'w>(window: &'w [u16], world: &World<'_>, count: usize) -> &'w [u16]
    requires len { length window.now ≡ 513 }
    requires fits { FitsWindow world.now.methods window.now }
    requires there { count ≤ length (frame_in world.now.methods window.now).stack }
    ensures { result.now ≡ arguments count (frame_in world.now.methods window.entry.now).stack }
{
    let end = STACK + window[2] as usize;
    &window[end - count..end]
}

/// Goes on at another place.
pub fn set_place(window: &mut [u16], world: &World<'_>, place: u16)
    requires len { length window.old ≡ 513 }
    requires fits { FitsWindow world.now.methods window.old }
    ensures frame { frame_in world.now.methods window.new
        ≡ record (frame_in world.now.methods window.old) { place = place } }
    ensures fits { FitsWindow world.now.methods window.new }
{
    window[1] = place;
}

/// The word in a register.
pub fn register(window: &[u16], world: &World<'_>, x: u16) -> u16
    requires len { length window.now ≡ 513 }
    requires fits { FitsWindow world.now.methods window.now }
    requires there { x < length (frame_in world.now.methods window.now).registers }
    ensures { result ≡ nth words (frame_in world.now.methods window.now).registers x }
{
    window[REGISTERS + x as usize]
}

/// Stores a word in a register.
pub fn set_register(window: &mut [u16], world: &World<'_>, x: u16, cell: u16)
    requires len { length window.old ≡ 513 }
    requires fits { FitsWindow world.now.methods window.old }
    requires there { x < length (frame_in world.now.methods window.old).registers }
    ensures frame { frame_in world.now.methods window.new
        ≡ record
        (frame_in world.now.methods window.old)
        { registers = slice_set (frame_in world.now.methods window.old).registers x cell } }
    ensures fits { FitsWindow world.now.methods window.new }
{
    window[REGISTERS + x as usize] = cell;
}

/// Begins a method, with its arguments in the first registers and 0 in the others.
pub fn enter(window: &mut [u16], world: &World<'_>, method: u16, args: &[u16])
    requires len { length window.old ≡ 513 }
    requires known { method < length world.now.methods }
    requires room { length args.now ≤ register_count world.now.methods method }
    ensures frame { frame_in world.now.methods window.new ≡ entered words world.now.methods method args.now }
    ensures fits { FitsWindow world.now.methods window.new }
{
    'registers: for x in 0..register_count(world, method) {
        window[REGISTERS + x] = argument(args, x);
    }
    window[0] = method;
    window[1] = 0;
    window[2] = 0;
}

/// An argument, or 0 where there is none of that number.
fn argument(args: &[u16], x: usize) -> u16
    ensures { result ≡ slice_index args.now x }
{
    if x < args.len() { args[x] } else { 0 }
}
