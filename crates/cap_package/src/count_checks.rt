ghost use Rattle.std.specs.Prelude.{◌≡◌, ◌≤◌, option_map};
ghost use Rattle.cap_class.specs.ClassPart.{class_seen as entry_seen, records};
ghost use Rattle.cap_method.specs.StaticPart.{statics_seen};
ghost use Rattle.cap_desc.specs.ClassRecords.{described_class_seen};
ghost use Rattle.cap_desc.specs.MemberRecords.{field_seen};
ghost use Rattle.cap_components.specs.Order.{least_of, refused};
ghost use Rattle.cap_components.specs.Descriptions.{description};
ghost use Rattle.cap_package.specs.CountChecks.{differ, array_bytes, described_cells, own_instance_cells, instance_by, instance_fault};

use crate::classes::ClassSearch;
use cap_class::{ClassInfo, ClassPart};
use cap_components::{CountKind, PackFault, field_type, refuse, words_of};
use cap_desc::{DescClass, DescPart, FieldInfo};
use cap_method::StaticPart;
use first_fault::keep_lesser;

/// Whether two numbers of one thing differ.
#[tactic(auto, unfolding(crate::specs::CountChecks::differ))]
pub(crate) fn differ(what: CountKind, said: u32, found: u32) -> Option<PackFault>
    ensures { result ≡ differ what said found }
{
    (said != found).then_some(PackFault::CountDisagrees(what, said, found))
}

/// Two numbers of one thing are equal.
pub(crate) fn agree(what: CountKind, said: u32, found: u32) -> Result<(), PackFault>
    ensures { result ≡ refused (differ what said found) }
{
    refuse(differ(what, said, found))
}

/// The bytes of the initial arrays.
#[tactic(auto, using(crate::proofs::ArrayBytes::arrays_short))]
pub(crate) fn array_bytes(statics: &StaticPart<'_>) -> u32
    ensures value { result ≡ array_bytes (statics_seen statics.now).arrays }
{
    let mut total: u32 = 0;
    'arrays: for array in statics.arrays() {
        total += array.values.len() as u32;
    }
    total
}

/// The cells of an instance field, and 0 of a static one.
#[tactic(auto, unfolding(crate::specs::CountChecks::described_cells))]
fn cells_of(descriptor: &DescPart<'_>, field: &FieldInfo) -> u32
    ensures value { result ≡ described_cells (description descriptor.now) (field_seen field.now) }
    ensures few { result ≤ 2 }
{
    if field.flags.is_static() {
        return 0;
    }
    field_type(descriptor, field.ty).map_or(1, |ty| words_of(ty) as u32)
}

/// The cells of a class's own instance fields.
fn instance_cells(descriptor: &DescPart<'_>, class: &DescClass<'_>) -> u32
    ensures { result ≡ own_instance_cells (description descriptor.now) (described_class_seen class.now).fields }
{
    let count = class.field_count();
    let mut cells: u32 = 0;
    'fields: for field in class.fields() {
        cells += cells_of(descriptor, &field);
    }
    let _count = count;
    cells
}

/// The declared instance size of a class, whose record may not be there, is another than the cells of its fields.
fn instance_fault(
    entry: Option<ClassInfo<'_>>,
    descriptor: &DescPart<'_>,
    class: &DescClass<'_>,
) -> Option<PackFault>
    ensures { result ≡ instance_by (description descriptor.now) (described_class_seen class.now) (option_map entry_seen entry.entry) }
{
    let entry = entry?;
    if entry.flags().is_interface() {
        return None;
    }
    differ(
        CountKind::InstanceCells,
        entry.instance_size() as u32,
        instance_cells(descriptor, class),
    )
}

/// Each class declares the cells of its own instance fields.
pub(crate) fn instances_agree(
    classes: &ClassPart<'_>,
    descriptor: &DescPart<'_>,
) -> Result<(), PackFault>
    ensures { result
        ≡ refused
        (least_of
        (instance_fault (records classes.now) (description descriptor.now))
        (description descriptor.now).items.classes) }
{
    let mut search = ClassSearch::of(classes);
    let mut least = None;
    'classes: for class in descriptor.classes() {
        let entry = search.at(class.class_ref());
        keep_lesser(&mut least, instance_fault(entry, descriptor, &class));
    }
    refuse(least)
}
