ghost use Rattle.std.specs.Prelude.{◌≡◌, length, ◌+◌, List, [], ◌∷◌, option_map, IfSome, IfNone};
ghost use Rattle.std.specs.List.{slice_get};
ghost use Rattle.cap_bytes.specs.Table.{numbers};
ghost use Rattle.cap_desc.specs.MemberLists.{fields_left, methods_left};
ghost use Rattle.cap_desc.specs.ClassRecords.{described_class_seen, described_left};
ghost use Rattle.offset_set.specs.Bits.{holds};
ghost use Rattle.cap_desc.specs.TypeFormat.{types_at, type_at, descriptor_nibbles};
ghost use Rattle.cap_desc.specs.Nibbles.{nibbles_in};
ghost use Rattle.cap_desc.specs.TypeLists.{types_left};
ghost use Rattle.cap_desc.specs.Members.{methods_of, methods_but, fields_of};
ghost use Rattle.cap_desc.specs.MembersLeft.{methods_of_left, methods_but_left, fields_of_left};
ghost use Rattle.cap_desc.specs.Descriptors.{descriptor_seen, HasTypes};

use crate::nibbles::Nibbles;
use crate::records::{
    DescClass, DescClasses, DescFields, DescMethods, DescPart, FieldsOf, MethodsBut, MethodsOf,
};
use crate::type_list::TypeItem;
use crate::types::Types;
use cap_bytes::{Table, View};
use offset_set::Offsets;

impl<'a> DescClass<'a> {
    /// The class's token.
    pub fn token(&self) -> u8
        ensures { result ≡ (described_class_seen self.now).token }
    {
        self.token
    }

    /// Where its record stands in the info of the Class component.
    pub fn class_ref(&self) -> u16
        ensures { result ≡ (described_class_seen self.now).class_ref }
    {
        self.class_ref
    }

    /// How many interfaces it tells.
    pub fn interface_count(&self) -> u8
        ensures { result ≡ length (described_class_seen self.now).interfaces }
    {
        self.interface_count
    }

    /// How many fields it has.
    #[tactic(auto, using(cap_bytes::proofs::Loops::yielding))]
    pub fn field_count(&self) -> u16
        ensures { result ≡ length (described_class_seen self.now).fields }
    {
        self.fields.left
    }

    /// How many methods it has.
    #[tactic(auto, using(cap_bytes::proofs::Loops::yielding))]
    pub fn method_count(&self) -> u16
        ensures { result ≡ length (described_class_seen self.now).methods }
    {
        self.methods.left
    }

    /// The class reference of the n-th interface.
    pub fn interface(&self, n: u8) -> Option<u16>
        ensures { result ≡ slice_get (described_class_seen self.now).interfaces n }
    {
        self.interfaces.at(n as u16)
    }

    /// The class references of the interfaces.
    pub fn interfaces(&self) -> Table<'a>
        ensures { numbers result ≡ (described_class_seen self.now).interfaces }
    {
        self.interfaces
    }

    /// The fields, in the order of the component.
    pub fn fields(&self) -> DescFields<'a>
        ensures { fields_left result ≡ (described_class_seen self.now).fields }
    {
        self.fields
    }

    /// The methods, in the order of the component.
    pub fn methods(&self) -> DescMethods<'a>
        ensures { methods_left result ≡ (described_class_seen self.now).methods }
    {
        self.methods
    }
}

impl<'a> DescPart<'a> {
    /// The info that the component was read from.
    pub fn info(&self) -> View<'a>
        ensures { result ≡ self.now.info }
    {
        self.info
    }

    /// The classes and interfaces of the package, in the order of the component.
    pub fn classes(&self) -> DescClasses<'a>
        ensures { described_left result ≡ (descriptor_seen self.now).classes }
    {
        self.classes
    }

    /// How many classes and interfaces there are.
    #[tactic(auto, using(cap_bytes::proofs::Loops::yielding))]
    pub fn class_count(&self) -> u8
        ensures { result ≡ length (descriptor_seen self.now).classes }
    {
        self.classes.left
    }

    /// The methods of the classes and interfaces, class after class.
    #[tactic(auto, unfolding(cap_bytes::specs::Taking::gives, cap_bytes::specs::Taking::given))]
    pub fn methods(&self) -> MethodsOf<'a>
        ensures { methods_of_left result ≡ methods_of (descriptor_seen self.now).classes }
    {
        let items = self.classes.items;
        MethodsOf {
            methods: DescMethods { items, left: 0 },
            classes: self.classes,
        }
    }

    /// The methods of the classes whose references are not in a set, class after class.
    #[tactic(auto, unfolding(cap_bytes::specs::Taking::gives, cap_bytes::specs::Taking::given))]
    pub fn methods_but<'s>(&self, set: &'s Offsets) -> MethodsBut<'a, 's>
        ensures { methods_but_left result ≡ methods_but (holds set.now) (descriptor_seen self.now).classes }
    {
        let items = self.classes.items;
        MethodsBut {
            methods: DescMethods { items, left: 0 },
            classes: self.classes,
            set,
        }
    }

    /// The fields of the classes, class after class.
    #[tactic(auto, unfolding(cap_bytes::specs::Taking::gives, cap_bytes::specs::Taking::given))]
    pub fn fields(&self) -> FieldsOf<'a>
        ensures { fields_of_left result ≡ fields_of (descriptor_seen self.now).classes }
    {
        let items = self.classes.items;
        FieldsOf {
            fields: DescFields { items, left: 0 },
            classes: self.classes,
        }
    }

    /// How many types of pool entries there are.
    pub fn pool_count(&self) -> u16
        ensures { result ≡ length (descriptor_seen self.now).pool_types }
    {
        self.pool_types.len()
    }

    /// The type of the n-th entry of the constant pool.
    pub fn pool_type(&self, n: u16) -> Option<u16>
        ensures { result ≡ slice_get (descriptor_seen self.now).pool_types n }
    {
        self.pool_types.at(n)
    }

    /// The types of the pool's entries, in the order of the pool.
    pub fn pool_types(&self) -> Table<'a>
        ensures { numbers result ≡ (descriptor_seen self.now).pool_types }
    {
        self.pool_types
    }

    /// The type of the type descriptor at an offset from the item `constant_pool_count`, where a
    /// well-formed one of one type stands there.
    #[inline(always)]
    pub fn type_at(&self, offset: u16) -> Option<TypeItem>
        ensures value { result ≡ type_at self.now.info.bytes.now ((descriptor_seen self.now).types_start + offset) }
        ensures found { IfSome result (λ t. HasTypes self.now offset (t ∷ [])) }
        ensures none { IfNone result ((t : TypeItem) → HasTypes self.now offset (t ∷ []) → ⊥) }
    {
        self.read_type(offset)
    }

    /// The types of the type descriptor at an offset from the item `constant_pool_count`, where a
    /// well-formed one stands there.
    #[inline(always)]
    pub fn types_at(&self, offset: u16) -> Option<Types<'a>>
        ensures value { option_map types_left result
            ≡ types_at self.now.info.bytes.now ((descriptor_seen self.now).types_start + offset) }
        ensures found { IfSome result (λ types. HasTypes self.now offset (types_left types)) }
        ensures none { IfNone result ((ts : List TypeItem) → HasTypes self.now offset ts → ⊥) }
        ensures exact { (ts us : List TypeItem) → HasTypes self.now offset ts → HasTypes self.now offset us → ts ≡ us }
    {
        self.read_types(offset)
    }

    /// What `type_at` answers, read from the nibbles.
    #[tactic(auto, using(crate::proofs::TypesThere::chained))]
    #[inline(always)]
    fn read_type(&self, offset: u16) -> Option<TypeItem>
        ensures { result ≡ type_at self.now.info.bytes.now ((descriptor_seen self.now).types_start + offset) }
    {
        self.nibbles_at(offset)?.one_type()
    }

    /// What `types_at` answers, read from the nibbles.
    #[tactic(auto, using(crate::proofs::TypesThere::chained))]
    #[inline(always)]
    fn read_types(&self, offset: u16) -> Option<Types<'a>>
        ensures { option_map types_left result
            ≡ types_at self.now.info.bytes.now ((descriptor_seen self.now).types_start + offset) }
    {
        let nibbles = self.nibbles_at(offset)?;
        Some(Types {
            nibbles,
            at: 0,
            left: nibbles.type_count()?,
        })
    }

    /// The nibbles of the type descriptor at an offset, where the bytes reach.
    #[inline(always)]
    fn nibbles_at(&self, offset: u16) -> Option<Nibbles<'a>>
        ensures { option_map nibbles_in result
            ≡ descriptor_nibbles self.now.info.bytes.now ((descriptor_seen self.now).types_start + offset) }
    {
        let start = self.types_start + offset as u32;
        let count = self.info.u1(start)?;
        let bytes = self.info.part(start + 1, (count as u32 + 1) / 2)?;
        Some(Nibbles { bytes, count })
    }
}
