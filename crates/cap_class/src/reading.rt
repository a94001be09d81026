ghost use Rattle.std.specs.Prelude.{◌≡◌, ◌==◌, ◌≤◌, length, IfOk, IfErr, false, find, option_map, slice_get, []};
ghost use Rattle.std.specs.Iterator.{YieldsFirstBy, item_count};
ghost use Rattle.cap_bytes.specs.Grammar.{until_end, repeat, table};
ghost use Rattle.cap_bytes.specs.Exact.{IsExact};
ghost use Rattle.cap_bytes.specs.Spelling.{info_of, Stands, Breaks};
ghost use Rattle.cap_bytes.specs.Taking.{Takes, Reads, bytes};
ghost use Rattle.cap_class.specs.ClassFormat.{record_info, is_after, signature_pool, classes_info, interface_info, instance_info};
ghost use Rattle.cap_class.specs.ClassFormat.{tables_info, beyond_first, is_interface, class_flags};
ghost use Rattle.cap_bytes.specs.Table.{numbers};
ghost use Rattle.cap_class.specs.Lists.{interface_seen, interfaces_left};
ghost use Rattle.cap_class.specs.ClassPart.{class_seen, classes_left, records, PassesRecords, instance_seen, tables_seen};

use crate::class_info::{
    ClassFlags, ClassInfo, ClassInfos, ClassPart, DispatchTables, Implemented, Instance, Interfaces,
};
use cap_bytes::{Cursor, FormFault, FormKind, Format, Table, View};

/// The tag of the component.
const CLASS: u8 = 6;

/// Whether a class stands before what follows a record.
fn is_after(after_class: bool, class: ClassInfo<'_>) -> bool
    ensures { result ≡ is_after after_class (class_seen class.entry) }
{
    after_class || !class.flags.is_interface()
}

/// How many records there are up to the end.
#[tactic(auto, using(cap_bytes::proofs::UntilLoops::passing_until, crate::proofs::Records::advancing))]
fn pass_records(items: &mut Cursor<'_>) -> Result<u16, FormFault>
    ensures { PassesRecords items.old result items.new }
{
    let mut after_class = false;
    let mut count = 0u16;
    'records: while items.remaining() > 0 {
        let class = record(items, after_class)?;
        after_class = is_after(after_class, class);
        count += 1;
    }
    Ok(count)
}

/// The records up to the end.
#[tactic(auto, using(cap_bytes::proofs::Loops::yielding))]
fn records<'a>(items: &mut Cursor<'a>) -> Result<ClassInfos<'a>, FormFault>
    ensures { Takes classes_left (until_end record_info is_after false) items.old result items.new }
{
    let first = *items;
    let left = pass_records(items)?;
    Ok(ClassInfos { items: first, left })
}

impl<'a> Iterator for ClassInfos<'a> {
    type Item = ClassInfo<'a>;

    ghost next_gives = { YieldsFirstBy class_seen classes_left };

    ghost remaining = { item_count classes_left };

    #[tactic(auto, using(cap_bytes::proofs::Loops::yielding))]
    #[inline(always)]
    fn next(&mut self) -> Option<ClassInfo<'a>> {
        self.left = self.left.checked_sub(1)?;
        record(&mut self.items, false).ok()
    }
}

/// The signature pool.
fn signature_pool<'a>(items: &mut Cursor<'a>, format: Format) -> Result<&'a [u8], FormFault>
    ensures { Takes bytes (signature_pool format) items.old result items.new }
{
    match format {
        Format::V21 => Ok(&[]),
        Format::V22 => {
            let length = items.u2()?;
            items.piece(u32::from(length))
        }
    }
}

/// The Class component that the info is in the format that the Header names, or the first item that
/// breaks it.
#[tactic(auto, using(cap_bytes::proofs::Laws::whole))]
pub fn classes(info: View<'_>, format: Format) -> Result<ClassPart<'_>, FormFault>
    requires { length info.bytes.now ≤ 65535 }
    ensures found { IfOk result (λ x. Stands (classes_info format) info.entry.bytes.now (records x)) }
    ensures fault { IfErr result (λ e. Breaks (info_of 6) (classes_info format) info.entry.bytes.now 0 e) }
    ensures exact { IsExact (info_of 6) (classes_info format) info.entry.bytes.now }
    ensures info { IfOk result (λ x. x.info ≡ info.entry) }
{
    read_classes(info, format)
}

/// The items of the Class component.
#[tactic(auto, unfolding(cap_bytes::specs::Reading::reading))]
fn read_classes(info: View<'_>, format: Format) -> Result<ClassPart<'_>, FormFault>
    requires { length info.bytes.now ≤ 65535 }
    ensures value { Reads records (info_of 6) (classes_info format) info.entry.bytes.now result }
    ensures info { IfOk result (λ x. x.info ≡ info.entry) }
{
    let mut items = Cursor::of(info, CLASS);
    signature_pool(&mut items, format)?;
    let classes = records(&mut items)?;
    Ok(ClassPart { info, classes })
}

impl<'a> ClassPart<'a> {
    /// The info that the component was read from.
    pub fn info(&self) -> View<'a>
        ensures { result ≡ self.now.info }
    {
        self.info
    }

    /// How many records there are, interfaces and classes.
    #[tactic(auto, using(cap_bytes::proofs::Loops::yielding))]
    pub fn count(&self) -> u16
        ensures { result ≡ length (records self.now) }
    {
        self.classes.left
    }

    /// The records, in order.
    pub fn iter(&self) -> ClassInfos<'a>
        ensures records { classes_left result ≡ records self.now }
        ensures few { length (records self.now) ≤ 65535 }
    {
        // Their number is one that `count` can answer.
        let _count = self.count();
        self.classes
    }

    /// The n-th record, from 0.
    pub fn at(&self, n: u16) -> Option<ClassInfo<'a>>
        ensures { option_map class_seen result ≡ slice_get (records self.now) n }
    {
        self.iter().nth(n as usize)
    }

    /// The offset in the info at which the n-th record starts, from 0.
    pub fn offset(&self, n: u16) -> Option<u16>
        ensures { result ≡ option_map (λ c. c.offset) (slice_get (records self.now) n) }
    {
        Some(self.at(n)?.offset)
    }

    /// The record that starts at an offset of the info, where one does.
    pub fn entry(&self, offset: u16) -> Option<ClassInfo<'a>>
        ensures { option_map class_seen result ≡ find (λ c. c.offset == offset) (records self.now) }
    {
        self.iter().find(|class| class.offset == offset)
    }
}

impl<'a> ClassInfo<'a> {
    /// The offset in the info at which the record starts.
    pub fn offset(&self) -> u16
        ensures { result ≡ (class_seen self.now).offset }
    {
        self.offset
    }

    /// Whether it is an interface, and a shareable one.
    pub fn flags(&self) -> ClassFlags
        ensures { result.0 ≡ (class_seen self.now).flags }
    {
        self.flags
    }

    /// The class_ref of the superclass, and 0xFFFF where there is none.
    pub fn super_ref(&self) -> u16
        ensures { result ≡ (class_seen self.now).super_ref }
    {
        self.instance.super_ref
    }

    /// The interfaces that a class implements, or that an interface extends.
    #[tactic(auto, using(cap_bytes::proofs::Loops::yielding))]
    pub fn interface_count(&self) -> u8
        ensures { result ≡ length (class_seen self.now).interfaces }
    {
        self.interfaces.left
    }

    /// The cells of the class's own instance fields.
    pub fn instance_size(&self) -> u8
        ensures { result ≡ (class_seen self.now).instance_size }
    {
        self.instance.instance_size
    }

    /// The token of the first own field that is a reference.
    pub fn first_reference(&self) -> u8
        ensures { result ≡ (class_seen self.now).first_reference }
    {
        self.instance.first_reference
    }

    /// The number of own fields that are references.
    pub fn reference_count(&self) -> u8
        ensures { result ≡ (class_seen self.now).reference_count }
    {
        self.instance.reference_count
    }

    /// The token of the first entry of the public dispatch table.
    pub fn public_base(&self) -> u8
        ensures { result ≡ (class_seen self.now).public_base }
    {
        self.tables.public_base
    }

    /// The entries of the public dispatch table.
    pub fn public_count(&self) -> u8
        ensures { result ≡ length (class_seen self.now).public }
    {
        self.tables.public.len() as u8
    }

    /// The token of the first entry of the package-visible dispatch table.
    pub fn package_base(&self) -> u8
        ensures { result ≡ (class_seen self.now).package_base }
    {
        self.tables.package_base
    }

    /// The entries of the package-visible dispatch table.
    pub fn package_count(&self) -> u8
        ensures { result ≡ length (class_seen self.now).visible }
    {
        self.tables.visible.len() as u8
    }

    /// The public dispatch table: offsets of methods in the Method component, or 0xFFFF.
    pub fn publics(&self) -> Table<'a>
        ensures { numbers result ≡ (class_seen self.now).public }
    {
        self.tables.public
    }

    /// The n-th entry of the public dispatch table, from 0.
    pub fn public(&self, n: u8) -> Option<u16>
        ensures { result ≡ slice_get (class_seen self.now).public n }
    {
        self.tables.public.at(u16::from(n))
    }

    /// The package-visible dispatch table, as the public one.
    pub fn package_table(&self) -> Table<'a>
        ensures { numbers result ≡ (class_seen self.now).visible }
    {
        self.tables.visible
    }

    /// The n-th entry of the package-visible dispatch table, from 0.
    pub fn package(&self, n: u8) -> Option<u16>
        ensures { result ≡ slice_get (class_seen self.now).visible n }
    {
        self.tables.visible.at(u16::from(n))
    }

    /// The interfaces, in order.
    pub fn interfaces(&self) -> Interfaces<'a>
        ensures interfaces { interfaces_left result ≡ (class_seen self.now).interfaces }
        ensures few { length (class_seen self.now).interfaces ≤ 255 }
    {
        // Their number is one that `interface_count` can answer.
        let _count = self.interface_count();
        self.interfaces
    }

    /// The n-th interface, from 0.
    pub fn implemented(&self, n: u8) -> Option<Implemented<'a>>
        ensures { option_map interface_seen result ≡ slice_get (class_seen self.now).interfaces n }
    {
        self.interfaces().nth(n as usize)
    }
}

/// The next interface of a record: one that an interface extends, or one that a class implements.
fn interface<'a>(items: &mut Cursor<'a>, extended: bool) -> Result<Implemented<'a>, FormFault>
    ensures { Takes interface_seen (interface_info extended) items.old result items.new }
{
    let class_ref = items.u2()?;
    if extended {
        return Ok(Implemented {
            class_ref,
            tokens: &[],
        });
    }
    let count = items.u1()?;
    let tokens = items.piece(u32::from(count))?;
    Ok(Implemented { class_ref, tokens })
}

/// The next so many interfaces.
#[tactic(auto, using(cap_bytes::proofs::Loops::passing, cap_bytes::proofs::Loops::yielding))]
#[inline(always)]
fn interfaces<'a>(
    items: &mut Cursor<'a>,
    left: u8,
    extended: bool,
) -> Result<Interfaces<'a>, FormFault>
    ensures { Takes interfaces_left (repeat left (interface_info extended)) items.old result items.new }
{
    let first = *items;
    'interfaces: for _ in 0..left {
        interface(items, extended)?;
    }
    Ok(Interfaces {
        items: first,
        left,
        extended,
    })
}

/// The superclass, and what an instance has of its own.
#[inline(always)]
fn instance(items: &mut Cursor<'_>) -> Result<Instance, FormFault>
    ensures { Takes instance_seen instance_info items.old result items.new }
{
    Ok(Instance {
        super_ref: items.u2()?,
        instance_size: items.u1()?,
        first_reference: items.u1()?,
        reference_count: items.u1()?,
    })
}

/// A dispatch table of at most 255 entries.
#[inline(always)]
fn dispatch<'a>(items: &mut Cursor<'a>, count: u8) -> Result<Table<'a>, FormFault>
    ensures taken { Takes numbers (table count) items.old result items.new }
    ensures few { IfOk result (λ t. length (numbers t) ≤ 255) }
{
    items.table(u16::from(count))
}

/// Both dispatch tables.
#[inline(always)]
fn tables<'a>(items: &mut Cursor<'a>) -> Result<DispatchTables<'a>, FormFault>
    ensures { Takes tables_seen tables_info items.old result items.new }
{
    let public_base = items.u1()?;
    let public_count = items.u1()?;
    let package_base = items.u1()?;
    let package_count = items.u1()?;
    let public = dispatch(items, public_count)?;
    let visible = dispatch(items, package_count)?;
    Ok(DispatchTables {
        public_base,
        package_base,
        public,
        visible,
    })
}

/// A table of no entries.
#[tactic(auto, using(crate::proofs::Records::empty))]
#[inline(always)]
fn no_table<'a>(items: &Cursor<'a>) -> Table<'a>
    ensures { numbers result ≡ [] }
{
    let mut there = *items;
    match there.table(0) {
        Ok(none) => none,
        Err(_) => unreachable!(),
    }
}

/// A record after its first byte, which stands at this offset.
#[inline(always)]
fn beyond_first<'a>(
    items: &mut Cursor<'a>,
    offset: u16,
    first: u8,
) -> Result<ClassInfo<'a>, FormFault>
    ensures { Takes class_seen (beyond_first (is_interface (class_flags first)) offset first) items.old result items.new }
{
    let flags = ClassFlags::of(first);
    if flags.is_interface() {
        Ok(ClassInfo {
            offset,
            flags,
            instance: Instance {
                super_ref: 0xFFFF,
                instance_size: 0,
                first_reference: 0,
                reference_count: 0,
            },
            tables: DispatchTables {
                public_base: 0,
                package_base: 0,
                public: no_table(items),
                visible: no_table(items),
            },
            interfaces: interfaces(items, first % 16, true)?,
        })
    } else {
        Ok(ClassInfo {
            offset,
            flags,
            instance: instance(items)?,
            tables: tables(items)?,
            interfaces: interfaces(items, first % 16, false)?,
        })
    }
}

/// The next record, which stands after a class or not.
#[tactic(auto, unfolding(crate::specs::ClassFormat::record_info))]
#[inline(always)]
pub(crate) fn record<'a>(
    items: &mut Cursor<'a>,
    after_class: bool,
) -> Result<ClassInfo<'a>, FormFault>
    ensures { Takes class_seen (record_info after_class) items.old result items.new }
{
    let place = *items;
    let first = items.u1()?;
    let flags = ClassFlags::of(first);
    if after_class && flags.is_interface() {
        return Err(place.fault(FormKind::BadValue));
    }
    if flags.is_remote() {
        return Err(place.fault(FormKind::Remote));
    }
    beyond_first(items, place.at as u16, first)
}

impl<'a> Iterator for Interfaces<'a> {
    type Item = Implemented<'a>;

    ghost next_gives = { YieldsFirstBy interface_seen interfaces_left };

    ghost remaining = { item_count interfaces_left };

    #[tactic(auto, using(cap_bytes::proofs::Loops::yielding))]
    #[inline(always)]
    fn next(&mut self) -> Option<Implemented<'a>> {
        self.left = self.left.checked_sub(1)?;
        interface(&mut self.items, self.extended).ok()
    }
}
