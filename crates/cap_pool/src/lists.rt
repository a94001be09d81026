ghost use Rattle.std.specs.Prelude.{◌≡◌, length};
ghost use Rattle.cap_bytes.specs.Grammar.{repeat};
ghost use Rattle.cap_bytes.specs.Table.{numbers};
ghost use Rattle.cap_bytes.specs.Taking.{Gives};
ghost use Rattle.cap_pool.specs.ExportFormat.{class_export_info};
ghost use Rattle.cap_pool.specs.PoolFormat.{entry_info};

use cap_bytes::{Cursor, Table};

/// Pool entries in order: those that are left.
#[derive(Clone, Copy, Drop)]
pub struct PoolEntries<'a> {
    pub(crate) items: Cursor<'a>,
    pub(crate) left: u16,
    ghost known: { Gives (repeat left entry_info) items },
}

/// Exported classes by rising token: those that are left.
#[derive(Clone, Copy, Drop)]
pub struct ExportedClasses<'a> {
    pub(crate) items: Cursor<'a>,
    pub(crate) left: u8,
    ghost known: { Gives (repeat left class_export_info) items },
}

/// What the Export says of a class before the offsets.
#[derive(Clone, Copy)]
pub struct ExportClass {
    /// The offset of the class in the info of the Class component.
    pub class_offset: u16,
    pub field_count: u8,
    pub method_count: u8,
}

/// An exported class, with the offsets of its static fields and methods by their tokens: of a field in
/// the static image, of a method in the info of the Method component.
#[derive(Clone, Copy)]
pub struct ExportedClass<'a> {
    pub class: ExportClass,
    pub fields: Table<'a>,
    pub methods: Table<'a>,
    ghost fields_counted: { class.field_count ≡ length (numbers fields) },
    ghost methods_counted: { class.method_count ≡ length (numbers methods) },
}
