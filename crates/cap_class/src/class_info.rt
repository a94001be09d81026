ghost use Rattle.std.specs.Prelude.{◌≤◌, length, ⊤, ◌≡◌, ◌==◌, ◌/◌, [], ◌∷◌, codes};
ghost use Rattle.cap_bytes.specs.Table.{numbers};
ghost use Rattle.cap_bytes.specs.Grammar.{repeat};
ghost use Rattle.cap_bytes.specs.Taking.{Gives};
ghost use Rattle.cap_class.specs.ClassFormat.{any_record, interface_info};
ghost use Rattle.std.specs.Int.RustNames.{bit_and};

use bitflags::{Flag, Flags};
use cap_bytes::{Cursor, Table, View};

/// The Class component.
#[derive(Clone, Copy)]
pub struct ClassPart<'a> {
    pub(crate) info: View<'a>,
    pub(crate) classes: ClassInfos<'a>,
}

/// The superclass of a class, and what an instance of it has of its own.
#[derive(Clone, Copy)]
pub(crate) struct Instance {
    pub(crate) super_ref: u16,
    pub(crate) instance_size: u8,
    pub(crate) first_reference: u8,
    pub(crate) reference_count: u8,
}

/// The dispatch tables of a class.
#[derive(Clone, Copy)]
pub(crate) struct DispatchTables<'a> {
    pub(crate) public_base: u8,
    pub(crate) package_base: u8,
    pub(crate) public: Table<'a>,
    pub(crate) visible: Table<'a>,
    ghost few_public: { length (numbers public) ≤ 255 },
    ghost few_visible: { length (numbers visible) ≤ 255 },
}

/// The record of a class or an interface.
#[derive(Clone, Copy)]
pub struct ClassInfo<'a> {
    pub(crate) offset: u16,
    pub(crate) flags: ClassFlags,
    pub(crate) instance: Instance,
    pub(crate) tables: DispatchTables<'a>,
    pub(crate) interfaces: Interfaces<'a>,
}

/// The records that are left, from the first on.
#[derive(Clone, Copy, Drop)]
pub struct ClassInfos<'a> {
    pub(crate) items: Cursor<'a>,
    pub(crate) left: u16,
    ghost known: { Gives (repeat left any_record) items },
}

/// The flags of a class or an interface (section 6.8 of the specification), as the nibble that they
/// stand in.
#[derive(Clone, Copy)]
pub struct ClassFlags(pub u8);

impl ClassFlags {
    /// An interface.
    pub const INTERFACE: ClassFlags = ClassFlags(8);
    /// An interface whose methods other applets may call.
    pub const SHAREABLE: ClassFlags = ClassFlags(4);
    /// A remote class or interface, which this profile leaves out.
    pub const REMOTE: ClassFlags = ClassFlags(2);

    const FLAGS: &'static [Flag<ClassFlags>] = &[
        Flag {
            name: "INTERFACE",
            value: ClassFlags::INTERFACE,
        },
        Flag {
            name: "SHAREABLE",
            value: ClassFlags::SHAREABLE,
        },
        Flag {
            name: "REMOTE",
            value: ClassFlags::REMOTE,
        },
    ];
}

impl Flags for ClassFlags {
    type Bits = u8;

    ghost exact = { ⊤ };

    ghost table = { (codes "INTERFACE", 8) ∷ (codes "SHAREABLE", 4) ∷ (codes "REMOTE", 2) ∷ [] };

    ghost set_of = { λ flags. flags.0 };

    fn flags<'a>() -> &'a [Flag<ClassFlags>] {
        ClassFlags::FLAGS
    }

    fn bits(&self) -> u8 {
        self.0
    }

    fn from_bits_retain(bits: u8) -> ClassFlags {
        ClassFlags(bits)
    }
}

impl ClassFlags {
    /// The flags in the high nibble of a record's first byte.
    pub(crate) fn of(byte: u8) -> ClassFlags
        ensures { result.0 ≡ bit_and (byte / 16) 14 }
    {
        ClassFlags::from_bits_truncate(byte / 16)
    }

    /// Whether the record is an interface's.
    pub fn is_interface(self) -> bool
        ensures { result ≡ (bit_and self.0 8 == 8) }
    {
        self.contains(ClassFlags::INTERFACE)
    }

    /// Whether the record is a remote one.
    pub fn is_remote(self) -> bool
        ensures { result ≡ (bit_and self.0 2 == 2) }
    {
        self.contains(ClassFlags::REMOTE)
    }
}

/// The interfaces of a record that are left, from the first on.
#[derive(Clone, Copy, Drop)]
pub struct Interfaces<'a> {
    pub(crate) items: Cursor<'a>,
    pub(crate) left: u8,
    /// Whether an interface extends them, which tells no tokens.
    pub(crate) extended: bool,
    ghost known: { Gives (repeat left (interface_info extended)) items },
}

/// An interface that a class implements, or one that an interface extends (section 6.8 of the
/// specification).
#[derive(Clone, Copy)]
pub struct Implemented<'a> {
    pub class_ref: u16,
    /// For each token of the interface's methods the class's public token that serves it. An
    /// interface that another extends has none.
    pub tokens: &'a [u8],
}
