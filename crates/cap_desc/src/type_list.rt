ghost use Rattle.std.specs.Prelude.{◌≡◌, ◌<◌, length, Some, ◌≤◌, ◌==◌, ◌||◌, IfSome, OnSome, MatchOption, None};
ghost use Rattle.std.specs.Iterator.{YieldsFirst, item_count};
ghost use Rattle.std.specs.List.{slice_get};
ghost use Rattle.cap_desc.specs.TypeLists.{types_left};
ghost use Rattle.std.specs.Result.{result_ok};
ghost use Rattle.cap_bytes.specs.Number.{number_at};
ghost use Rattle.cap_desc.specs.TypeFormat.{type_item, class_nibbles, is_type, names_class, nibbles_read, types_in, one_type_in};
ghost use Rattle.cap_desc.specs.Nibbles.{nibbles_in};
ghost use Rattle.cap_desc.specs.TypeCount.{SpellsTypes};

use crate::nibbles::Nibbles;
use crate::types::Types;

/// A type of a type descriptor.
#[derive(Clone, Copy)]
pub struct TypeItem {
    /// 1 void, 2 boolean, 3 byte, 4 short, 5 int, 6 a reference; 10 to 14 arrays of boolean, byte, short,
    /// int and references.
    pub nibble: u8,
    /// The class reference of a reference or an array of references, and 0 of every other type.
    pub class_ref: u16,
}

/// The nibbles of types.
impl TypeItem {
    pub const VOID: u8 = 1;

    pub const BOOLEAN: u8 = 2;

    pub const BYTE: u8 = 3;

    pub const SHORT: u8 = 4;

    pub const INT: u8 = 5;

    pub const REFERENCE: u8 = 6;

    pub const BOOLEAN_ARRAY: u8 = 10;

    pub const BYTE_ARRAY: u8 = 11;

    pub const SHORT_ARRAY: u8 = 12;

    pub const INT_ARRAY: u8 = 13;

    pub const REFERENCE_ARRAY: u8 = 14;
}

impl Iterator for Types<'_> {
    type Item = TypeItem;

    ghost next_gives = { YieldsFirst types_left };

    ghost remaining = { item_count types_left };

    #[tactic(auto, unfolding(crate::specs::TypeFormat::gives_types, crate::specs::TypeFormat::given_types))]
    #[inline(always)]
    fn next(&mut self) -> Option<TypeItem> {
        let left = self.left.checked_sub(1)?;
        let (item, at) = self.nibbles.type_item(self.at)?;
        *self = Types {
            nibbles: self.nibbles,
            at,
            left,
        };
        Some(item)
    }
}

impl Types<'_> {
    /// How many types there are.
    #[tactic(auto, using(crate::proofs::TypesCounted::count_types))]
    pub fn len(&self) -> u8
        ensures { result ≡ length (types_left self.now) }
    {
        self.left
    }

    /// The n-th type.
    pub fn at(&self, n: u8) -> TypeItem
        requires { n < length (types_left self.now) }
        ensures { slice_get (types_left self.now) n ≡ Some result }
    {
        let mut left = *self;
        left.nth(n as usize).unwrap()
    }
}

impl Nibbles<'_> {
    /// The n-th nibble, where there are so many.
    #[inline(always)]
    fn get(&self, n: u16) -> Option<u8>
        ensures value { result ≡ number_at 1 n (nibbles_in self.now) }
        ensures small { IfSome result (λ nibble. nibble < 16) }
        ensures within { OnSome result (n < 255) }
    {
        if n >= self.count as u16 {
            return None;
        }
        let byte = self.bytes.u1(n as u32 / 2)?;
        if n % 2 == 0 {
            Some(byte / 16)
        } else {
            Some(byte % 16)
        }
    }

    /// The class reference in the four nibbles from a place on.
    #[inline(always)]
    fn class_ref(&self, at: u16) -> Option<(u16, u16)>
        requires { at ≤ 256 }
        ensures value { result ≡ result_ok (nibbles_read class_nibbles (nibbles_in self.now) at) }
        ensures within { IfSome result (λ found. found.1 ≤ 255) }
    {
        let a = self.get(at)? as u16;
        let b = self.get(at + 1)? as u16;
        let c = self.get(at + 2)? as u16;
        let d = self.get(at + 3)? as u16;
        Some((4096 * a + 256 * b + 16 * c + d, at + 4))
    }

    /// The type at a place, and the place after it.
    #[inline(always)]
    pub(crate) fn type_item(&self, at: u16) -> Option<(TypeItem, u16)>
        requires { at ≤ 255 }
        ensures value { result ≡ result_ok (nibbles_read type_item (nibbles_in self.now) at) }
        ensures within { IfSome result (λ found. found.1 ≤ 255) }
        ensures after { IfSome result (λ found. at < found.1) }
    {
        let nibble = self.get(at)?;
        if !is_type(nibble) {
            return None;
        }
        if !names_class(nibble) {
            return Some((
                TypeItem {
                    nibble,
                    class_ref: 0,
                },
                at + 1,
            ));
        }
        let (class_ref, end) = self.class_ref(at + 1)?;
        Some((TypeItem { nibble, class_ref }, end))
    }

    /// The type that the nibbles spell, where they spell one alone.
    #[inline(always)]
    pub(crate) fn one_type(&self) -> Option<TypeItem>
        ensures { result ≡ one_type_in (nibbles_in self.now) }
    {
        let (item, end) = self.type_item(0)?;
        if end < self.count as u16 {
            return None;
        }
        Some(item)
    }

    /// How many types the nibbles spell, where they spell types to their end.
    #[inline(always)]
    pub(crate) fn type_count(&self) -> Option<u8>
        ensures { MatchOption result (types_in (nibbles_in self.now) ≡ None) (λ n. SpellsTypes (nibbles_in self.now) n) }
    {
        let nibble_count = self.count as u16;
        let mut at: u16 = 0;
        let mut count: u8 = 0;
        'types: while at < nibble_count {
            let (_, end) = self.type_item(at)?;
            at = end;
            count += 1;
        }
        Some(count)
    }
}

/// Whether a nibble is one of a type.
fn is_type(nibble: u8) -> bool
    ensures { result ≡ is_type nibble }
{
    matches!(
        nibble,
        TypeItem::VOID..=TypeItem::REFERENCE | TypeItem::BOOLEAN_ARRAY..=TypeItem::REFERENCE_ARRAY
    )
}

/// Whether a class reference stands after a type's nibble.
fn names_class(nibble: u8) -> bool
    ensures { result ≡ names_class nibble }
{
    nibble == TypeItem::REFERENCE || nibble == TypeItem::REFERENCE_ARRAY
}
