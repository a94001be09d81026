ghost use Rattle.std.specs.Prelude.{◌≡◌, ◌≤◌, length, IfOk, IfErr};
ghost use Rattle.cap_bytes.specs.Grammar.{repeat};
ghost use Rattle.cap_bytes.specs.Exact.{IsExact};
ghost use Rattle.cap_bytes.specs.Spelling.{info_of, Stands, Breaks};
ghost use Rattle.cap_bytes.specs.Taking.{Takes, Reads};
ghost use Rattle.cap_desc.specs.DescriptorFormat.{class_descriptor_info, descriptor_info, field_descriptor_info, method_descriptor_info};
ghost use Rattle.cap_desc.specs.ClassRecords.{described_left, described_class_seen};
ghost use Rattle.cap_desc.specs.Descriptors.{descriptor_seen};
ghost use Rattle.cap_desc.specs.MemberRecords.{field_seen, method_seen};
ghost use Rattle.cap_desc.specs.MemberLists.{fields_left, methods_left};

use crate::records::{
    AccessFlags, DescClass, DescClasses, DescFields, DescMethods, DescPart, FieldInfo, MethodInfo,
};
use cap_bytes::{Cursor, FormFault, View};

/// The tag of the Descriptor component.
const DESCRIPTOR: u8 = 11;

/// The next so many classes.
#[tactic(auto, using(cap_bytes::proofs::Loops::passing, cap_bytes::proofs::Loops::yielding))]
fn classes<'a>(items: &mut Cursor<'a>, left: u8) -> Result<DescClasses<'a>, FormFault>
    ensures { Takes described_left (repeat left class_descriptor_info) items.old result items.new }
{
    let first = *items;
    'classes: for _ in 0..left {
        class_descriptor_info(items)?;
    }
    Ok(DescClasses { items: first, left })
}

/// The Descriptor component that the info is, or the first item that breaks its format. The type
/// descriptors after the pool's types are not read.
#[tactic(auto, using(cap_bytes::proofs::Laws::whole))]
pub fn descriptor(info: View<'_>) -> Result<DescPart<'_>, FormFault>
    requires { length info.bytes.now ≤ 65535 }
    ensures found { IfOk result (λ x. Stands descriptor_info info.entry.bytes.now (descriptor_seen x)) }
    ensures fault { IfErr result (λ e. Breaks (info_of 11) descriptor_info info.entry.bytes.now 0 e) }
    ensures exact { IsExact (info_of 11) descriptor_info info.entry.bytes.now }
    ensures info { IfOk result (λ x. x.info ≡ info.entry) }
{
    read_descriptor(info)
}

/// The items of the Descriptor component.
#[tactic(auto, unfolding(cap_bytes::specs::Reading::reading))]
fn read_descriptor(info: View<'_>) -> Result<DescPart<'_>, FormFault>
    requires { length info.bytes.now ≤ 65535 }
    ensures value { Reads descriptor_seen (info_of 11) descriptor_info info.entry.bytes.now result }
    ensures info { IfOk result (λ x. x.info ≡ info.entry) }
{
    let mut items = Cursor::of(info, DESCRIPTOR);
    let class_count = items.u1()?;
    let classes = classes(&mut items, class_count)?;
    let types_start = items.at;
    let pool_count = items.u2()?;
    let pool_types = items.table(pool_count)?;
    Ok(DescPart {
        info,
        classes,
        types_start,
        pool_types,
    })
}

/// The next `field_descriptor_info`.
#[inline(always)]
pub(crate) fn field_descriptor_info(items: &mut Cursor<'_>) -> Result<FieldInfo, FormFault>
    ensures { Takes field_seen field_descriptor_info items.old result items.new }
{
    Ok(FieldInfo {
        token: items.u1()?,
        flags: AccessFlags::of_field(items.u1()?),
        bytes: items.triple()?,
        ty: items.u2()?,
    })
}

/// The next `method_descriptor_info`.
#[inline(always)]
pub(crate) fn method_descriptor_info(items: &mut Cursor<'_>) -> Result<MethodInfo, FormFault>
    ensures { Takes method_seen method_descriptor_info items.old result items.new }
{
    Ok(MethodInfo {
        token: items.u1()?,
        flags: AccessFlags::of_method(items.u1()?),
        method_offset: items.u2()?,
        type_offset: items.u2()?,
        bytecode_count: items.u2()?,
        handler_count: items.u2()?,
        handler_index: items.u2()?,
    })
}

/// The next so many fields.
#[inline(always)]
pub(crate) fn fields<'a>(items: &mut Cursor<'a>, left: u16) -> Result<DescFields<'a>, FormFault>
    ensures { Takes fields_left (repeat left field_descriptor_info) items.old result items.new }
{
    let first = *items;
    items.piece(7 * left as u32)?;
    Ok(DescFields { items: first, left })
}

/// The next so many methods.
#[inline(always)]
pub(crate) fn methods<'a>(items: &mut Cursor<'a>, left: u16) -> Result<DescMethods<'a>, FormFault>
    ensures { Takes methods_left (repeat left method_descriptor_info) items.old result items.new }
{
    let first = *items;
    items.piece(12 * left as u32)?;
    Ok(DescMethods { items: first, left })
}

/// The next `class_descriptor_info`.
#[inline(always)]
pub(crate) fn class_descriptor_info<'a>(items: &mut Cursor<'a>) -> Result<DescClass<'a>, FormFault>
    ensures { Takes described_class_seen class_descriptor_info items.old result items.new }
{
    let token = items.u1()?;
    items.u1()?;
    let class_ref = items.u2()?;
    let interface_count = items.u1()?;
    let field_count = items.u2()?;
    let method_count = items.u2()?;
    Ok(DescClass {
        token,
        class_ref,
        interface_count,
        interfaces: items.table(interface_count as u16)?,
        fields: fields(items, field_count)?,
        methods: methods(items, method_count)?,
    })
}
