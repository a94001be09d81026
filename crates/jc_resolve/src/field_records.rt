ghost use Rattle.std.specs.Prelude.{◌≡◌, ◌++◌, Some, filter_map, flat_map, IfOk, OnOk};
ghost use Rattle.std.specs.Option.{option_to_list};
ghost use Rattle.cap_desc.specs.ClassRecords.{described_class_seen};
ghost use Rattle.cap_desc.specs.MemberRecords.{field_seen};
ghost use Rattle.jc_resolve.specs.Conditions.{references_of_field_type};
ghost use Rattle.jc_resolve.specs.Described.{spot_of_record};
ghost use Rattle.jc_resolve.specs.Homes.{description_at, least_at, static_type_at, own_field_at, fields_at, resolved_at};
ghost use Rattle.jc_resolve.specs.LookedUp.{references_of_field_types};
ghost use Rattle.cap_class.specs.ClassPart.{class_seen};
ghost use Rattle.jc_resolve.specs.TypedFields.{own_found, types_kept, own_kept};

use crate::class_index::Home;
use crate::fault::{LinkFault, RecordPlace};
use crate::numbers::Numbers;
use crate::world_types::{kind_of, type_of};
use cap_class::ClassInfo;
use cap_desc::{DescClass, FieldInfo};
use cap_package::field_type;
use jc_base::{Items, Kind, Ty, Tys};
use std::alloc::{AllocError, Global};

/// An instance field that a class has of its own.
#[derive(Clone, Copy)]
pub struct OwnField {
    pub token: u8,
    pub kind: Kind,
    /// The type of its first cell.
    pub ty: Ty,
}

/// Where the class of a record stands, in a package that stands for itself.
fn place_of(described: DescClass<'_>) -> RecordPlace
    ensures { Some result ≡ spot_of_record (described_class_seen described.entry) }
{
    RecordPlace::of_own(described.class_ref())
}

/// Keeps a field with its type: a static field among those of its package, and an instance field among those of its record.
#[tactic(auto, unfolding(crate::specs::OwnFields::own_field, crate::specs::TypedFields::static_type))]
fn keep_field(
    statics: &mut Vec<Ty>,
    own: &mut Vec<OwnField>,
    home: Home<'_, '_, '_, '_>,
    field: FieldInfo,
    least: &mut Option<LinkFault>,
) -> Result<(), AllocError>
    ensures statics { OnOk result
        (statics.new.items
        ≡ statics.old.items ++ option_to_list (static_type_at home.entry (field_seen field))) }
    ensures own { OnOk result
        (own.new.items
        ≡ own.old.items ++ option_to_list (own_field_at home.entry (field_seen field))) }
    ensures least { OnOk result
        (least.new
        ≡ least_at home.entry least.old
        (references_of_field_type (description_at home.entry) (field_seen field))) }
{
    let item = match field_type(&home.of_package.descriptor(), field.ty) {
        Some(item) => item,
        None => return Ok(()),
    };
    let ty = type_of(home, item, least);
    if field.flags.is_static() {
        statics.push(ty)?;
    } else {
        own.push(OwnField {
            token: field.instance_token(),
            kind: kind_of(item),
            ty,
        })?;
    }
    Ok(())
}

/// The instance fields of a record of the Descriptor; the types of its static fields come to those of the package.
#[tactic(auto, using(crate::proofs::TypedFields::field_step, crate::proofs::NamedFaults::least_field_types))]
fn fields_of_record(
    alloc: Global,
    statics: &mut Vec<Ty>,
    home: Home<'_, '_, '_, '_>,
    described: DescClass<'_>,
    least: &mut Option<LinkFault>,
) -> Result<Items<OwnField>, AllocError>
    ensures is { IfOk result
        (λ own. own ≡ fields_at home.entry (described_class_seen described.entry)) }
    ensures statics { OnOk result
        (statics.new.items
        ≡ statics.old.items ++ filter_map (static_type_at home.entry)
        (described_class_seen described.entry).fields) }
    ensures least { OnOk result
        (least.new
        ≡ least_at home.entry least.old
        (flat_map
        (references_of_field_type (description_at home.entry))
        (described_class_seen described.entry).fields)) }
{
    let mut own = Vec::with_capacity(alloc, described.field_count() as usize)?;
    'fields: for field in described.fields() {
        keep_field(statics, &mut own, home, field, least)?;
    }
    Ok(Items::of(own))
}

/// The fields of a package, each with its type.
#[tactic(auto, unfolding(crate::specs::TypedFields::fields_resolved))]
pub(crate) fn fields_of_package(
    alloc: Global,
    home: Home<'_, '_, '_, '_>,
    least: &mut Option<LinkFault>,
) -> Result<PackageFields, AllocError>
    ensures is { IfOk result (λ fields. fields ≡ resolved_at home.entry) }
    // The type of each field is looked up once.
    ensures least { OnOk result
        (least.new
        ≡ least_at home.entry least.old (references_of_field_types home.entry.of_package.now)) }
{
    let descriptor = home.of_package.descriptor();
    let count = descriptor.class_count() as usize;
    let mut statics = Vec::new(alloc);
    let mut records = Vec::with_capacity(alloc, count)?;
    let mut numbers = Numbers::with_room(alloc, count)?;
    'records: for described in descriptor.classes() {
        numbers.push(Some(place_of(described)))?;
        records.push(fields_of_record(alloc, &mut statics, home, described, least)?)?;
    }
    Ok(PackageFields {
        statics: Items::of(statics),
        records: Items::of(records),
        numbers,
    })
}

/// The fields of a package, each with its type.
#[derive(Drop)]
pub(crate) struct PackageFields {
    /// The types of the static fields, in the order of the Descriptor.
    pub(crate) statics: Tys,
    /// By record of the Descriptor the instance fields that it describes.
    pub(crate) records: Items<Items<OwnField>>,
    /// By the offsets of the classes where their records stand.
    pub(crate) numbers: Numbers,
}

impl PackageFields {
    /// The instance fields of the first record of the class at an offset.
    #[tactic(auto, unfolding(crate::specs::TypedFields::own_found))]
    pub(crate) fn own_at(&self, offset: u16) -> &[OwnField]
        ensures { result.now ≡ own_found self.now offset }
    {
        if offset >= 0x8000 {
            return &[];
        }
        let Some(n) = self.numbers.at(RecordPlace::of_own(offset)) else {
            return &[];
        };
        match self.records.as_slice().get(n as usize) {
            Some(fields) => fields.as_slice(),
            None => &[],
        }
    }
}

/// The types of the static fields of a package, in the order of the Descriptor.
pub(crate) fn types_kept(all: &Items<PackageFields>, package: u16) -> &[Ty]
    ensures { result.now ≡ types_kept all.now «package» }
{
    match all.as_slice().get(package as usize) {
        Some(fields) => fields.statics.as_slice(),
        None => &[],
    }
}

/// The instance fields that a class of a package has of its own, by the first record of it; an interface has none.
#[tactic(auto, unfolding(crate::specs::TypedFields::own_kept))]
pub(crate) fn own_kept<'x>(
    all: &'x Items<PackageFields>,
    package: u16,
    class: ClassInfo<'_>,
) -> &'x [OwnField]
    ensures { result.now ≡ own_kept all.now «package» (class_seen class.entry) }
{
    if class.flags().is_interface() {
        return &[];
    }
    match all.as_slice().get(package as usize) {
        Some(fields) => fields.own_at(class.offset()),
        None => &[],
    }
}
