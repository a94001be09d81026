ghost use Rattle.std.specs.Prelude.{◌≤◌, ◌≡◌, length, ⊤, ◌==◌, [], ◌∷◌, codes};
ghost use Rattle.cap_bytes.specs.Table.{numbers};
ghost use Rattle.cap_desc.specs.DescriptorFormat.{instance_token, field_descriptor_info, method_descriptor_info, class_descriptor_info};
ghost use Rattle.cap_desc.specs.MemberRecords.{field_seen};
ghost use Rattle.cap_bytes.specs.Grammar.{repeat};
ghost use Rattle.cap_bytes.specs.Taking.{Gives};
ghost use Rattle.std.specs.Int.RustNames.{bit_and};

use bitflags::{Flag, Flags};
use cap_bytes::{Cursor, Table, View};
use offset_set::Offsets;

/// The Descriptor component.
#[derive(Clone, Copy)]
pub struct DescPart<'a> {
    pub(crate) info: View<'a>,
    pub(crate) classes: DescClasses<'a>,
    /// Where the item `constant_pool_count` stands in the info.
    pub(crate) types_start: u32,
    pub(crate) pool_types: Table<'a>,
    ghost near: { types_start ≤ 65535 },
}

/// A class or interface as the Descriptor tells it: a `class_descriptor_info`. Its flags are unread.
#[derive(Clone, Copy)]
pub struct DescClass<'a> {
    pub(crate) token: u8,
    pub(crate) class_ref: u16,
    pub(crate) interface_count: u8,
    pub(crate) interfaces: Table<'a>,
    pub(crate) fields: DescFields<'a>,
    pub(crate) methods: DescMethods<'a>,
    ghost counted: { length (numbers interfaces) ≡ interface_count },
}

/// A field as the Descriptor tells it: a `field_descriptor_info`.
#[derive(Clone, Copy)]
pub struct FieldInfo {
    pub token: u8,
    pub flags: AccessFlags,
    /// For a static field a padding byte and its offset in the static image; else the class that it
    /// belongs to and its token.
    pub bytes: [u8; 3],
    /// 0x8002 boolean, 0x8003 byte, 0x8004 short, 0x8005 int, or the offset of its type descriptor.
    pub ty: u16,
}

impl FieldInfo {
    /// The token of an instance field in its class.
    #[inline(always)]
    pub fn instance_token(self) -> u8
        ensures { result ≡ instance_token (field_seen self) }
    {
        self.bytes[2]
    }
}

/// A method as the Descriptor tells it: a `method_descriptor_info`.
#[derive(Clone, Copy)]
pub struct MethodInfo {
    pub token: u8,
    pub flags: AccessFlags,
    /// Where its header stands in the info of the Method component.
    pub method_offset: u16,
    /// Where its type descriptor stands, from the item `constant_pool_count` on.
    pub type_offset: u16,
    /// How many bytes of code it has.
    pub bytecode_count: u16,
    /// How many entries of the handler table are its own.
    pub handler_count: u16,
    /// The number of the first of them.
    pub handler_index: u16,
}

/// The fields of a class that are left, in the order of the component.
#[derive(Clone, Copy, Drop)]
pub struct DescFields<'a> {
    pub(crate) items: Cursor<'a>,
    pub(crate) left: u16,
    ghost known: { Gives (repeat left field_descriptor_info) items },
}

/// The methods of a class that are left, in the order of the component.
#[derive(Clone, Copy, Drop)]
pub struct DescMethods<'a> {
    pub(crate) items: Cursor<'a>,
    pub(crate) left: u16,
    ghost known: { Gives (repeat left method_descriptor_info) items },
}

/// The classes and interfaces that are left, in the order of the component.
#[derive(Clone, Copy, Drop)]
pub struct DescClasses<'a> {
    pub(crate) items: Cursor<'a>,
    pub(crate) left: u8,
    ghost known: { Gives (repeat left class_descriptor_info) items },
}

/// The methods that are left of the classes.
#[derive(Clone, Copy, Drop)]
pub struct MethodsOf<'a> {
    pub(crate) methods: DescMethods<'a>,
    pub(crate) classes: DescClasses<'a>,
}

/// The methods that are left of the classes whose references are not in a set.
#[derive(Clone, Copy, Drop)]
pub struct MethodsBut<'a, 's> {
    pub(crate) methods: DescMethods<'a>,
    pub(crate) classes: DescClasses<'a>,
    pub(crate) set: &'s Offsets,
}

/// The fields that are left of the classes.
#[derive(Clone, Copy, Drop)]
pub struct FieldsOf<'a> {
    pub(crate) fields: DescFields<'a>,
    pub(crate) classes: DescClasses<'a>,
}

/// The access flags of a field or a method that have a name (section 6.13 of the specification).
#[derive(Clone, Copy)]
pub struct AccessFlags(pub u8);

impl AccessFlags {
    /// Every class can name it.
    pub const PUBLIC: AccessFlags = AccessFlags(0x01);

    /// Its own class alone can name it.
    pub const PRIVATE: AccessFlags = AccessFlags(0x02);

    /// Its package and its subclasses can name it.
    pub const PROTECTED: AccessFlags = AccessFlags(0x04);

    /// It belongs to its class, and not to an instance.
    pub const STATIC: AccessFlags = AccessFlags(0x08);

    /// It is not changed or overridden.
    pub const FINAL: AccessFlags = AccessFlags(0x10);
    /// Of methods alone: it has no code.
    pub const ABSTRACT: AccessFlags = AccessFlags(0x40);
    /// Of methods alone: a constructor.
    pub const INIT: AccessFlags = AccessFlags(0x80);
    /// The flags that a field can have.
    pub const OF_FIELD: AccessFlags = AccessFlags(0x1F);

    const FLAGS: &'static [Flag<AccessFlags>] = &[
        Flag {
            name: "PUBLIC",
            value: AccessFlags::PUBLIC,
        },
        Flag {
            name: "PRIVATE",
            value: AccessFlags::PRIVATE,
        },
        Flag {
            name: "PROTECTED",
            value: AccessFlags::PROTECTED,
        },
        Flag {
            name: "STATIC",
            value: AccessFlags::STATIC,
        },
        Flag {
            name: "FINAL",
            value: AccessFlags::FINAL,
        },
        Flag {
            name: "ABSTRACT",
            value: AccessFlags::ABSTRACT,
        },
        Flag {
            name: "INIT",
            value: AccessFlags::INIT,
        },
    ];
}

impl Flags for AccessFlags {
    type Bits = u8;

    ghost exact = { ⊤ };

    ghost table = { (codes "PUBLIC", 1) ∷ (codes "PRIVATE", 2) ∷ (codes "PROTECTED", 4) ∷ (codes "STATIC", 8)
        ∷ (codes "FINAL", 16) ∷ (codes "ABSTRACT", 64) ∷ (codes "INIT", 128) ∷ [] };

    ghost set_of = { λ flags. flags.0 };

    fn flags<'a>() -> &'a [Flag<AccessFlags>] {
        AccessFlags::FLAGS
    }

    fn bits(&self) -> u8 {
        self.0
    }

    fn from_bits_retain(bits: u8) -> AccessFlags {
        AccessFlags(bits)
    }
}

impl AccessFlags {
    /// The flags of a method, of the byte that holds them.
    pub(crate) fn of_method(byte: u8) -> AccessFlags
        ensures { result.0 ≡ bit_and byte 0xDF }
    {
        AccessFlags::from_bits_truncate(byte)
    }

    /// The flags of a field, of the byte that holds them.
    pub(crate) fn of_field(byte: u8) -> AccessFlags
        ensures { result.0 ≡ bit_and byte 0x1F }
    {
        AccessFlags(byte).intersection(AccessFlags::OF_FIELD)
    }

    /// Whether the field or method belongs to its class, and not to an instance.
    pub fn is_static(self) -> bool
        ensures { result ≡ (bit_and self.0 8 == 8) }
    {
        self.contains(AccessFlags::STATIC)
    }
}
