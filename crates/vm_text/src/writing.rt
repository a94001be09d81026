ghost use Rattle.std.specs.Prelude.{◌≡◌, ◌*◌, length, Some, IfOk, option_map};
ghost use Rattle.cap_text.specs.Ending.{static_lines, element_text};
ghost use Rattle.cap_text.specs.Room.{HasRoom, Writes, IsEmpty, WritesAtMost};
ghost use Rattle.std.specs.List.{flat_map};
ghost use Rattle.vm_text.specs.Left.{elements_at};
ghost use Rattle.vm_text.specs.Text.{array_text, returned_array, left_text, most_text};
ghost use Rattle.vm_text.specs.LikeTexts.{TextsAreAlike};

use crate::leaves::Leaves;
use cap_text::{Room, write_array_head, write_element, write_ending, write_static};
use jc_base::World;
use std::alloc::{AllocError, Global};
use vm_step::{Ending, Plain, Value};

/// The most bytes of the lines for an ending and for an array.
const MOST_BEFORE: usize = 786_480;

/// The most bytes of the line for a static field.
const MOST_OF_FIELD: usize = 31;

/// Takes the memory for the text of any run of a world.
pub fn room(alloc: Global, world: &World<'_>) -> Result<Room, AllocError>
    ensures empty { IfOk result (λ r. IsEmpty r) }
    ensures room { IfOk result (λ r. HasRoom r (most_text world.now)) }
{
    let fields = usize::from(world.static_count());
    Room::new(alloc, MOST_BEFORE + MOST_OF_FIELD * fields)
}

/// Writes the text of what a run leaves into such a room. It needs no further memory.
pub fn write_run<L: Leaves>(room: &mut Room, world: &World<'_>, left: &L, ending: Ending)
    requires run { L.IsLeft world.now left.now }
    requires room { HasRoom room.old (most_text world.now) }
    ensures { Writes room.old room.new (left_text (L.left world.now left.now) ending) }
{
    write_ending(room, ending);
    write_returned(room, world, left, ending);
    write_statics(room, world, left);
}

// The line for the array that a run returned, where it returned one of numbers.
fn write_returned<L: Leaves>(room: &mut Room, world: &World<'_>, left: &L, ending: Ending)
    requires run { L.IsLeft world.now left.now }
    requires room { HasRoom room.old 786446 }
    ensures writes { Writes room.old room.new (returned_array (L.left world.now left.now) ending) }
    ensures few { WritesAtMost room.old room.new 786446 }
{
    match ending {
        Ending::Plain(Plain::Returned(Value::Ref(handle))) => {
            write_array(room, world, left, handle);
        }
        _ => {}
    }
}

// The line for the array of a handle, where it is one of numbers.
fn write_array<L: Leaves>(room: &mut Room, world: &World<'_>, left: &L, handle: u16)
    requires run { L.IsLeft world.now left.now }
    requires room { HasRoom room.old 786446 }
    ensures writes { Writes room.old room.new (array_text handle ((L.left world.now left.now).array handle)) }
    ensures few { WritesAtMost room.old room.new 786446 }
{
    let Some(ty) = left.array_kind(world, handle) else {
        return;
    };
    let Some(count) = left.array_length(world, handle) else {
        return;
    };
    write_array_head(room, handle, ty, count);
    write_elements(room, world, left, handle, count);
    room.write("\n");
}

// The elements of such an array.
fn write_elements<L: Leaves>(room: &mut Room, world: &World<'_>, left: &L, handle: u16, count: u16)
    requires run { L.IsLeft world.now left.now }
    requires count { option_map (λ a. length a.elements) ((L.left world.now left.now).array handle) ≡ Some count }
    requires room { HasRoom room.old (12 * count) }
    ensures writes { Writes room.old room.new (flat_map element_text (elements_at (L.left world.now left.now) handle)) }
    ensures few { WritesAtMost room.old room.new (12 * count) }
{
    'elements: for element in 0..count {
        if let Some(n) = left.array_value(world, handle, element) {
            write_element(room, n);
        }
    }
}

// The lines for the static fields.
fn write_statics<L: Leaves>(room: &mut Room, world: &World<'_>, left: &L)
    requires run { L.IsLeft world.now left.now }
    requires room { HasRoom room.old (31 * length world.now.statics) }
    ensures { Writes room.old room.new (static_lines 0 (L.left world.now left.now).statics) }
{
    'fields: for n in 0..left.static_count(world) {
        write_static(room, n, left.static_value(world, n));
    }
}

/// The words of a state leave the text that the state leaves: the machine of bare words and the one of tagged cells print
/// alike what they leave alike.
pub fn texts_are_alike(world: &World<'_>)
    ensures { TextsAreAlike world.now }
{
    let _ = world.classes();
}
