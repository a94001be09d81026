ghost use Rattle.std.specs.Prelude.{◌≡◌, length, slice_get, option_map};
ghost use Rattle.cap_pool.specs.Export.{exported_class_seen, export_seen, exported_left, field_offset_in, head_of, method_offset_in};
ghost use Rattle.std.specs.Iterator.{YieldsFirstBy, item_count};
ghost use Rattle.cap_bytes.specs.Taking.{Takes};
ghost use Rattle.cap_pool.specs.ExportFormat.{class_export_info};

use crate::lists::{ExportClass, ExportedClass, ExportedClasses};
use cap_bytes::{Cursor, FormFault, View};

/// The exported classes, by their tokens (section 6.12).
#[derive(Clone, Copy)]
pub struct Export<'a> {
    pub(crate) info: View<'a>,
    pub(crate) classes: ExportedClasses<'a>,
}

impl<'a> Export<'a> {
    /// The info that was read.
    pub fn info(&self) -> View<'a>
        ensures { result ≡ self.now.info }
    {
        self.info
    }

    /// How many classes are exported.
    #[tactic(auto, using(cap_bytes::proofs::Loops::yielding))]
    pub fn count(&self) -> u8
        ensures { result ≡ length (export_seen self.now) }
    {
        self.classes.left
    }

    /// The class with this token.
    pub fn class(&self, n: u8) -> Option<ExportClass>
        ensures { result ≡ option_map head_of (slice_get (export_seen self.now) n) }
    {
        Some(self.exported(n)?.class)
    }

    /// The offset of a class's static field with this token.
    pub fn field(&self, class: u8, n: u8) -> Option<u16>
        ensures { result ≡ field_offset_in (export_seen self.now) class n }
    {
        self.exported(class)?.fields.at(n as u16)
    }

    /// The offset of a class's static method with this token.
    pub fn method(&self, class: u8, n: u8) -> Option<u16>
        ensures { result ≡ method_offset_in (export_seen self.now) class n }
    {
        self.exported(class)?.methods.at(n as u16)
    }

    /// The class with this token, with its offsets.
    pub fn exported(&self, n: u8) -> Option<ExportedClass<'a>>
        ensures { option_map exported_class_seen result ≡ slice_get (export_seen self.now) n }
    {
        self.iter().nth(n as usize)
    }

    /// The classes by rising token.
    pub fn iter(&self) -> ExportedClasses<'a>
        ensures { exported_left result ≡ export_seen self.now }
    {
        self.classes
    }
}

/// The next class.
#[inline(always)]
pub(crate) fn class<'a>(items: &mut Cursor<'a>) -> Result<ExportedClass<'a>, FormFault>
    ensures { Takes exported_class_seen class_export_info items.old result items.new }
{
    let class_offset = items.u2()?;
    let field_count = items.u1()?;
    let method_count = items.u1()?;
    let fields = items.table(field_count as u16)?;
    let methods = items.table(method_count as u16)?;
    Ok(ExportedClass {
        class: ExportClass {
            class_offset,
            field_count,
            method_count,
        },
        fields,
        methods,
    })
}

impl<'a> Iterator for ExportedClasses<'a> {
    type Item = ExportedClass<'a>;

    ghost next_gives = { YieldsFirstBy exported_class_seen exported_left };

    ghost remaining = { item_count exported_left };

    #[tactic(auto, using(cap_bytes::proofs::Loops::yielding))]
    #[inline(always)]
    fn next(&mut self) -> Option<ExportedClass<'a>> {
        self.left = self.left.checked_sub(1)?;
        class(&mut self.items).ok()
    }
}
