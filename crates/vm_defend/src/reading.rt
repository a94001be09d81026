ghost use Rattle.std.specs.Prelude.{◌≡◌, ◌+◌, ◌≤◌, length, Some, option_map};
ghost use Rattle.jc_base.specs.Cell.{width};
ghost use Rattle.vm_store.specs.Cells.{tagged};
ghost use Rattle.vm_store.specs.Objects.{object_at};
ghost use Rattle.vm_defend.specs.Reading.{value_at, object_class, array_kind, array_length, array_value, element_in, HasElement};

use jc_base::{Kind, Ty};
use vm_arithmetic::{int_of_words, short_of_word};
use vm_step::Value;
use vm_store::{CellForm, ObjectKind, Store, TaggedStore};

/// The value of a kind in the static cells from a slot on.
pub(crate) fn value_at(store: &TaggedStore, slot: u16, kind: Kind) -> Value
    requires { slot + width kind ≤ length store.now.statics }
    ensures { result ≡ value_at tagged kind store.now.statics slot }
{
    let at = usize::from(slot);
    let first = store.static_cell(at).word();
    match kind {
        Kind::Ref => Value::Ref(first),
        Kind::Int => Value::Int(int_of_words(first, store.static_cell(at + 1).word())),
        _ => Value::Short(short_of_word(first)),
    }
}

/// What the object of a handle is, where there is one.
fn kind_of(store: &TaggedStore, handle: u16) -> Option<ObjectKind>
    ensures { result ≡ option_map (λ o. o.kind) (object_at store.now handle) }
{
    if 0 < handle && handle <= store.object_count() {
        Some(store.kind(handle))
    } else {
        None
    }
}

/// The class of the object of a handle, where it is an instance.
pub(crate) fn class_of(store: &TaggedStore, handle: u16) -> Option<u16>
    ensures { result ≡ object_class store.now handle }
{
    match kind_of(store, handle) {
        Some(ObjectKind::Instance(class)) => Some(class),
        _ => None,
    }
}

/// The type of the array of a handle, where it is one of numbers.
pub(crate) fn numbers_of(store: &TaggedStore, handle: u16) -> Option<Ty>
    ensures { result ≡ array_kind store.now handle }
{
    match kind_of(store, handle) {
        Some(ObjectKind::Booleans) => Some(Ty::ArrBool),
        Some(ObjectKind::Bytes) => Some(Ty::ArrByte),
        Some(ObjectKind::Shorts) => Some(Ty::ArrShort),
        Some(ObjectKind::Ints) => Some(Ty::ArrInt),
        _ => None,
    }
}

/// How many elements the array of a handle has, where it is one of numbers.
pub(crate) fn length_of(store: &TaggedStore, handle: u16) -> Option<u16>
    ensures { result ≡ array_length store.now handle }
{
    let _numbers = numbers_of(store, handle)?;
    Some(store.element_count(handle))
}

/// The number in an element of the array of a handle, where it is one of numbers and has the element.
pub(crate) fn number_at(store: &TaggedStore, handle: u16, element: u16) -> Option<i32>
    ensures { result ≡ array_value tagged store.now handle element }
{
    let ty = numbers_of(store, handle)?;
    if element < store.element_count(handle) {
        Some(element_in(store, handle, ty, element))
    } else {
        None
    }
}

/// The number in an element of an array of numbers.
fn element_in(store: &TaggedStore, handle: u16, ty: Ty, element: u16) -> i32
    requires numbers { array_kind store.now handle ≡ Some ty }
    requires there { HasElement store.now handle element }
    ensures { option_map (λ o. element_in tagged o.kind o.cells element) (object_at store.now handle) ≡ Some result }
{
    let at = usize::from(element);
    match ty {
        Ty::ArrInt => {
            let first = store.object_cell(handle, at * 2);
            int_of_words(first.word(), store.object_cell(handle, at * 2 + 1).word())
        }
        _ => i32::from(short_of_word(store.object_cell(handle, at).word())),
    }
}
