ghost use Rattle.std.specs.Prelude.{◌≡◌, ◌+◌, ◌≤◌, length, Some, option_map};
ghost use Rattle.jc_base.specs.Cell.{width};
ghost use Rattle.vm_store.specs.Cells.{words};
ghost use Rattle.vm_store.specs.Objects.{object_at};
ghost use Rattle.vm_offend.specs.Words.{AreObjectsLaid, objects_state};
ghost use Rattle.vm_defend.specs.Reading.{value_at, array_kind, array_length, array_value, element_in, HasElement};

use crate::{Counts, object_cell, object_elements, object_kind};
use jc_base::{Kind, Ty};
use vm_arithmetic::{int_of_words, short_of_word};
use vm_step::Value;
use vm_store::ObjectKind;

/// The value of a kind in the static cells from a slot on.
pub(crate) fn value_at(statics: &[u16], slot: u16, kind: Kind) -> Value
    requires { slot + width kind ≤ length statics.now }
    ensures { result ≡ value_at words kind statics.now slot }
{
    let at = usize::from(slot);
    let first = statics[at];
    match kind {
        Kind::Ref => Value::Ref(first),
        Kind::Int => Value::Int(int_of_words(first, statics[at + 1])),
        _ => Value::Short(short_of_word(first)),
    }
}

/// The type of the array of a handle, where it is one of numbers.
pub(crate) fn numbers_of(heap: &[u16], counts: Counts, handle: u16) -> Option<Ty>
    requires { AreObjectsLaid heap.now counts }
    ensures { result ≡ array_kind (objects_state heap.now counts) handle }
{
    match object_kind(heap, counts, handle) {
        Some(ObjectKind::Booleans) => Some(Ty::ArrBool),
        Some(ObjectKind::Bytes) => Some(Ty::ArrByte),
        Some(ObjectKind::Shorts) => Some(Ty::ArrShort),
        Some(ObjectKind::Ints) => Some(Ty::ArrInt),
        _ => None,
    }
}

/// How many elements the array of a handle has, where it is one of numbers.
pub(crate) fn length_of(heap: &[u16], counts: Counts, handle: u16) -> Option<u16>
    requires { AreObjectsLaid heap.now counts }
    ensures { result ≡ array_length (objects_state heap.now counts) handle }
{
    let _numbers = numbers_of(heap, counts, handle)?;
    Some(object_elements(heap, counts, handle))
}

/// The number in an element of the array of a handle, where it is one of numbers and has the element.
pub(crate) fn number_at(heap: &[u16], counts: Counts, handle: u16, element: u16) -> Option<i32>
    requires { AreObjectsLaid heap.now counts }
    ensures { result ≡ array_value words (objects_state heap.now counts) handle element }
{
    let ty = numbers_of(heap, counts, handle)?;
    if element < object_elements(heap, counts, handle) {
        Some(element_in(heap, counts, handle, ty, element))
    } else {
        None
    }
}

/// The number in an element of an array of numbers.
fn element_in(heap: &[u16], counts: Counts, handle: u16, ty: Ty, element: u16) -> i32
    requires laid { AreObjectsLaid heap.now counts }
    requires numbers { array_kind (objects_state heap.now counts) handle ≡ Some ty }
    requires there { HasElement (objects_state heap.now counts) handle element }
    ensures { option_map (λ o. element_in words o.kind o.cells element) (object_at (objects_state heap.now counts) handle)
        ≡ Some result }
{
    let at = usize::from(element);
    match ty {
        Ty::ArrInt => {
            let first = object_cell(heap, counts, handle, at * 2);
            int_of_words(first, object_cell(heap, counts, handle, at * 2 + 1))
        }
        _ => i32::from(short_of_word(object_cell(heap, counts, handle, at))),
    }
}
