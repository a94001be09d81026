ghost use Rattle.std.specs.Prelude.{◌≡◌, ◌≤◌, IfSome};
ghost use Rattle.cap_desc.specs.TypeLists.{types_left};
ghost use Rattle.cap_components.specs.Descriptions.{description, words_of, words_in, argument_words, field_type};
ghost use Rattle.cap_desc.specs.MemberRecords.{method_seen};
ghost use Rattle.cap_components.specs.MethodPlaces.{code_start, code_end};

use cap_bytes::View;
use cap_desc::{DescPart, MethodInfo, TypeItem, Types};

/// The words that a value of a type takes.
pub fn words_of(item: TypeItem) -> u16
    ensures { result ≡ words_of item }
{
    if item.nibble == TypeItem::INT { 2 } else { 1 }
}

/// The argument words that types tell, where they have the shape of a method's.
#[inline(always)]
fn words_in(types: Types<'_>) -> Option<u16>
    ensures value { result ≡ words_in (types_left types.entry) }
    ensures few { IfSome result (λ words. words ≤ 510) }
{
    let count = types.len();
    let mut rest = types;
    let mut last = rest.next()?;
    let mut words: u16 = 0;
    'types: while let Some(next) = rest.next() {
        if last.nibble == TypeItem::VOID {
            return None;
        }
        words += words_of(last);
        last = next;
    }
    Some(words)
}

/// The argument words of the method whose type descriptor stands at an offset.
#[tactic(auto, unfolding(crate::specs::Descriptions::argument_words))]
#[inline(always)]
pub fn argument_words(descriptor: &DescPart<'_>, offset: u16) -> Option<u16>
    ensures value { result ≡ argument_words (description descriptor.now) offset }
    ensures few { IfSome result (λ words. words ≤ 510) }
{
    words_in(descriptor.types_at(offset)?)
}

/// A field's type: that of its number, or of the type descriptor of one type at that offset.
#[tactic(auto, unfolding(crate::specs::Descriptions::field_type))]
#[inline(always)]
pub fn field_type(descriptor: &DescPart<'_>, ty: u16) -> Option<TypeItem>
    ensures { result ≡ field_type (description descriptor.now) ty }
{
    if ty >= 0x8002 && ty <= 0x8005 {
        return Some(TypeItem {
            nibble: (ty - 0x8000) as u8,
            class_ref: 0,
        });
    }
    let item = descriptor.type_at(ty)?;
    (item.nibble != TypeItem::VOID).then_some(item)
}

/// The offset after a method's header.
#[tactic(auto, unfolding(crate::specs::MethodPlaces::code_start))]
pub fn code_start(info: View<'_>, method: &MethodInfo) -> u32
    ensures value { result ≡ code_start info.entry.bytes.now (method_seen method.now) }
    ensures near { result ≤ 65539 }
{
    let size = match info.u1(method.method_offset as u32) {
        Some(first) if first >= 0x80 => 4,
        _ => 2,
    };
    method.method_offset as u32 + size
}

/// The offset after a method's code.
#[tactic(auto, unfolding(crate::specs::MethodPlaces::code_end))]
pub fn code_end(info: View<'_>, method: &MethodInfo) -> u32
    ensures { result ≡ code_end info.entry.bytes.now (method_seen method.now) }
{
    code_start(info, method) + method.bytecode_count as u32
}
