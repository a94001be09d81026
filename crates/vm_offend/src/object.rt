//! The header of an object in three words: its kind, the number of its first cell, and how many
//! elements it has.
ghost use Rattle.std.specs.Prelude.{◌≡◌, ◌+◌, ◌*◌, ◌<◌, length, slice_index, slice_set, Some, IsSome, option_map};
ghost use Rattle.vm_store.specs.Kind.{IsNumbered, kind_of_handle};
ghost use Rattle.vm_offend.specs.Words.{kind_of_word, word_of_kind, header_at, AreObjectsLaid, objects_state};
ghost use Rattle.vm_store.specs.Cells.{words};
ghost use Rattle.vm_store.specs.Objects.{kinds, object_at, object_cells, element_count};
ghost use Rattle.vm_store.specs.State.{nth};

use crate::words::Counts;
use vm_store::{ObjectHeader, ObjectKind};

/// Where the cells of objects begin.
pub const FIRST_CELL: usize = 12288;

/// What a word of kind says.
pub fn kind_of_word(word: u16) -> ObjectKind
    ensures { result ≡ kind_of_word word }
{
    if word < 0x8000 {
        ObjectKind::Instance(word)
    } else if word < 0xF000 {
        ObjectKind::References(word - 0x8000)
    } else if word == 0xF000 {
        ObjectKind::Booleans
    } else if word == 0xF001 {
        ObjectKind::Bytes
    } else if word == 0xF002 {
        ObjectKind::Shorts
    } else {
        ObjectKind::Ints
    }
}

/// The word of a kind.
fn word_of_kind(kind: ObjectKind) -> u16
    requires { IsNumbered kind }
    ensures { result ≡ word_of_kind kind }
{
    match kind {
        ObjectKind::Instance(class) => class,
        ObjectKind::References(class) => 0x8000 + class,
        ObjectKind::Booleans => 0xF000,
        ObjectKind::Bytes => 0xF001,
        ObjectKind::Shorts => 0xF002,
        ObjectKind::Ints => 0xF003,
    }
}

/// The header of object n, counted from 0.
pub fn header(heap: &[u16], n: usize) -> ObjectHeader
    requires { 3 * n + 2 < length heap.now }
    ensures { result ≡ header_at heap.now n }
{
    ObjectHeader {
        kind: kind_of_word(heap[3 * n]),
        start: heap[3 * n + 1],
        elements: heap[3 * n + 2],
    }
}

/// Writes the header of object n.
pub fn set_header(heap: &mut [u16], n: usize, header: ObjectHeader)
    requires there { 3 * n + 2 < length heap.old }
    requires class { IsNumbered header.kind }
    ensures { heap.new
        ≡ slice_set
        (slice_set (slice_set heap.old (3 * n) (word_of_kind header.kind)) (3 * n + 1) header.start)
        (3 * n + 2)
        header.elements }
{
    heap[3 * n] = word_of_kind(header.kind);
    heap[3 * n + 1] = header.start;
    heap[3 * n + 2] = header.elements;
}

/// A cell of object n.
pub fn cell(heap: &[u16], n: usize, i: usize) -> u16
    requires there { 3 * n + 2 < length heap.now }
    requires inside { 12288 + ((header_at heap.now n).start + i) < length heap.now }
    ensures { result ≡ slice_index heap.now (12288 + ((header_at heap.now n).start + i)) }
{
    let start = heap[3 * n + 1] as usize;
    heap[FIRST_CELL + (start + i)]
}

/// Writes a cell of object n.
pub fn set_cell(heap: &mut [u16], n: usize, i: usize, cell: u16)
    requires there { 3 * n + 2 < length heap.old }
    requires inside { 12288 + ((header_at heap.old n).start + i) < length heap.old }
    ensures { heap.new ≡ slice_set heap.old (12288 + ((header_at heap.old n).start + i)) cell }
{
    let start = heap[3 * n + 1] as usize;
    heap[FIRST_CELL + (start + i)] = cell;
}

/// The number of objects.
fn object_count(_heap: &[u16], counts: Counts) -> u16
    ensures { result ≡ length (objects_state _heap.now counts).heap }
{
    counts.objects
}

/// What the object of a handle is, where there is one.
pub fn object_kind(heap: &[u16], counts: Counts, handle: u16) -> Option<ObjectKind>
    requires { AreObjectsLaid heap.now counts }
    ensures { result ≡ option_map (λ o. o.kind) (object_at (objects_state heap.now counts) handle) }
{
    if 0 < handle && handle <= object_count(heap, counts) {
        Some(kind_there(heap, counts, handle))
    } else {
        None
    }
}

/// What the object of a handle is.
pub(crate) fn kind_there(heap: &[u16], counts: Counts, handle: u16) -> ObjectKind
    requires laid { AreObjectsLaid heap.now counts }
    requires there { IsSome (object_at (objects_state heap.now counts) handle) }
    ensures { kind_of_handle (kinds (objects_state heap.now counts)) handle ≡ Some result }
{
    header(heap, handle as usize - 1).kind
}

/// How many elements the array of a handle has, or how many cells the instance.
pub fn object_elements(heap: &[u16], counts: Counts, handle: u16) -> u16
    requires laid { AreObjectsLaid heap.now counts }
    requires there { IsSome (object_at (objects_state heap.now counts) handle) }
    ensures { option_map element_count (object_at (objects_state heap.now counts) handle) ≡ Some result }
{
    header(heap, handle as usize - 1).elements
}

/// A cell of the object of a handle.
pub fn object_cell(heap: &[u16], counts: Counts, handle: u16, i: usize) -> u16
    requires laid { AreObjectsLaid heap.now counts }
    requires there { i < length (object_cells (objects_state heap.now counts) handle) }
    ensures { result ≡ nth words (object_cells (objects_state heap.now counts) handle) i }
{
    cell(heap, handle as usize - 1, i)
}
