ghost use Rattle.std.specs.Prelude.{◌≡◌, option_map, map, if◌then◌else◌, Some, None};
ghost use Rattle.cap_class.specs.ClassPart.{class_seen, records};
ghost use Rattle.cap_package.specs.ClassSearch.{record_at, Serves};
ghost use Rattle.offset_set.specs.Bits.{holds};
ghost use Rattle.offset_set.specs.Tallies.{tallied, tally_of, once};
ghost use Rattle.cap_pool.specs.Export.{export_seen as exported};
ghost use Rattle.cap_pool.specs.ExportFormat.{Exported};
ghost use Rattle.cap_class.specs.ClassFormat.{Class};
ghost use Rattle.cap_desc.specs.ClassRecords.{described_left};
ghost use Rattle.cap_components.specs.declared.fault.PackFault.TheVariants.{ClassUndescribed};
ghost use Rattle.cap_components.specs.Order.{least_of, least_from};
ghost use Rattle.cap_package.specs.NameChecks.{class_unless, own};
ghost use Rattle.cap_desc.specs.DescriptorFormat as desc;

use cap_class::{ClassInfo, ClassInfos, ClassPart};
use cap_components::PackFault;
use cap_desc::DescClasses;
use cap_pool::Export;
use first_fault::least_from;
use offset_set::{Offsets, Tally};

/// The class records by their offsets. Those that are asked for in the order of the component are read once.
#[derive(Drop)]
pub(crate) struct ClassSearch<'a> {
    classes: ClassPart<'a>,
    /// The records from which the next is looked for, and the offsets of those before them.
    rest: ClassInfos<'a>,
    passed: Offsets,
}

impl<'a> ClassSearch<'a> {
    /// No record was asked for.
    pub(crate) fn of(classes: &ClassPart<'a>) -> ClassSearch<'a>
        ensures is { result.classes ≡ classes.now }
        ensures serves { Serves result }
    {
        ClassSearch {
            classes: *classes,
            rest: classes.iter(),
            passed: Offsets::none(),
        }
    }

    /// The record that starts at an offset, where one does.
    pub(crate) fn at(&mut self, offset: u16) -> Option<ClassInfo<'a>>
        requires { Serves self.old }
        ensures found { option_map class_seen result ≡ record_at offset (records self.old.classes) }
        ensures same { self.new.classes ≡ self.old.classes }
        ensures serves { Serves self.new }
    {
        if self.passed.has(offset) {
            return self.classes.entry(offset);
        }
        'records: while let Some(class) = self.rest.next() {
            self.passed.insert(class.offset());
            if class.offset() == offset {
                return Some(class);
            }
        }
        None
    }
}

/// How often the Descriptor describes the class record at each offset.
#[tactic(auto, using(offset_set::proofs::Tallying::all_counted))]
pub(crate) fn descriptions(descriptors: DescClasses<'_>) -> Tally
    ensures { tallied result ≡ tally_of (map (λ (d : desc.ClassDescriptor). d.class_ref) (described_left descriptors.entry)) }
{
    let mut described = Tally::none();
    'classes: for class in descriptors {
        described.count(class.class_ref());
    }
    described
}

fn class_unless(right: bool, offset: u16) -> Option<PackFault>
    ensures { result ≡ (if right then None else Some (ClassUndescribed offset)) }
{
    (!right).then_some(PackFault::ClassUndescribed(offset))
}

/// The least class record that is not described once.
#[tactic(auto, using(first_fault::proofs::LeastFound::least_by))]
pub(crate) fn classes_described(classes: &ClassPart<'_>, described: &Tally) -> Option<PackFault>
    ensures { result ≡ least_of (λ (c : Class). class_unless (once (tallied described.now)) c.offset) (records classes.now) }
{
    least_from(None, classes.iter(), |class| {
        let offset = class.offset();
        class_unless(described.has_once(offset), offset)
    })
}

/// Whether a reference is one to a class record of the package itself: an offset below 0x8000 at which one starts.
fn is_own(starts: &Offsets, reference: u16) -> bool
    ensures { result ≡ own (holds starts.now) reference }
{
    reference < 0x8000 && starts.has(reference)
}

/// The least fault so far, when the classes that descriptors name were looked up among the starts of class records.
#[tactic(auto, using(first_fault::proofs::LeastFound::least_by_number))]
pub(crate) fn descriptors_named(
    starts: &Offsets,
    descriptors: DescClasses<'_>,
    least: Option<PackFault>,
) -> Option<PackFault>
    ensures { result
        ≡ least_from least
        (class_unless (own (holds starts.now)))
        (map (λ (d : desc.ClassDescriptor). d.class_ref) (described_left descriptors.entry)) }
{
    least_from(least, descriptors, |class| {
        let reference = class.class_ref();
        class_unless(is_own(starts, reference), reference)
    })
}

/// The least fault so far, when the exported classes were looked up among the starts of class records.
#[tactic(auto, using(first_fault::proofs::LeastFound::least_by_number))]
pub(crate) fn exports_are_classes(
    starts: &Offsets,
    export: &Export<'_>,
    least: Option<PackFault>,
) -> Option<PackFault>
    ensures { result
        ≡ least_from least
        (class_unless (holds starts.now))
        (map (λ (c : Exported). c.class_offset) (exported export.now)) }
{
    least_from(least, export.iter(), |class| {
        let offset = class.class.class_offset;
        class_unless(starts.has(offset), offset)
    })
}
