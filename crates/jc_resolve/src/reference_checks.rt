ghost use Rattle.std.specs.Prelude.{◌≡◌, ◌≤◌, ◌<◌, IfSome, length, flat_map};
ghost use Rattle.cap_bytes.specs.Table.{numbers};
ghost use Rattle.cap_desc.specs.ClassRecords.{described_class_seen as record_seen, described_left as records_left};
ghost use Rattle.cap_desc.specs.MemberLists.{fields_left};
ghost use Rattle.jc_resolve.specs.Conditions.{reference_fault, reference_of_field, no_class_fault, named_in};
ghost use Rattle.jc_resolve.specs.Homes.{class_named_at};
ghost use Rattle.jc_resolve.specs.LookedUp.{least_named, references_without_methods, references_besides};
ghost use Rattle.jc_resolve.specs.Fault.{link_place};
ghost use Rattle.first_fault.specs.Least.{lesser, least_from};
ghost use Rattle.jc_resolve.specs.Numbering.{numbered_classes};

use crate::class_index::{Home, Index};
use crate::fault::LinkFault;
use byteorder::{BigEndian, ByteOrder};
use cap_bytes::Table;
use cap_desc::{DescClass, DescClasses, DescFields};
use cap_package::Packages;
use first_fault::{least_from, lesser};

#[tactic(auto, unfolding(crate::specs::Conditions::no_class_fault))]
fn reference_fault(index: &Index<'_, '_, '_>, package: u16, reference: u16) -> Option<LinkFault>
    ensures { result ≡ reference_fault index.now «package» reference }
{
    match index.class_named(package, reference) {
        Some(_) => None,
        None => Some(LinkFault::NoClass(package, reference)),
    }
}

/// The class that a reference of a package names; one that names none is counted in the least fault so far.
#[tactic(auto, unfolding(crate::specs::Conditions::no_class_fault, first_fault::specs::Least::lesser))]
pub(crate) fn class_or_fault(
    home: Home<'_, '_, '_, '_>,
    reference: u16,
    least: &mut Option<LinkFault>,
) -> Option<u16>
    ensures is { result ≡ class_named_at home.entry reference }
    ensures below { IfSome result (λ c. c < length (numbered_classes home.entry.index.now)) }
    ensures least { least.new
        ≡ lesser link_place least.old (reference_fault home.entry.index.now home.entry.number reference) }
{
    match home.index.class_named(home.number, reference) {
        Some(class) => Some(class),
        None => {
            *least = lesser(*least, Some(LinkFault::NoClass(home.number, reference)));
            None
        }
    }
}

/// The least fault so far, when a table of references was looked at.
#[tactic(auto, using(first_fault::proofs::LeastFound::least_first))]
fn table_named(
    index: &Index<'_, '_, '_>,
    package: u16,
    table: Table<'_>,
    least: Option<LinkFault>,
) -> Option<LinkFault>
    ensures { result ≡ least_named index.now «package» least (numbers table.entry) }
{
    least_from(least, table, |reference| {
        reference_fault(index, package, reference)
    })
}

/// The least fault so far, when the classes of instance fields were looked at.
#[tactic(auto, using(crate::proofs::NamedFaults::least_fields))]
fn fields_named(
    index: &Index<'_, '_, '_>,
    package: u16,
    fields: DescFields<'_>,
    least: Option<LinkFault>,
) -> Option<LinkFault>
    ensures { result
        ≡ least_named index.now «package» least (flat_map reference_of_field (fields_left fields.entry)) }
{
    let mut least = least;
    'fields: for field in fields {
        if !field.flags.is_static() {
            let reference = BigEndian::read_u16(&field.bytes);
            least = lesser(least, reference_fault(index, package, reference));
        }
    }
    least
}

/// The least fault so far, when the interfaces and the fields of a record of the Descriptor were looked at.
#[tactic(auto, using(crate::proofs::NamedFaults::least_without_methods))]
fn record_besides(
    index: &Index<'_, '_, '_>,
    package: u16,
    described: DescClass<'_>,
    least: Option<LinkFault>,
) -> Option<LinkFault>
    ensures { result
        ≡ least_named index.now «package» least (references_without_methods (record_seen described.entry)) }
{
    let interfaces = table_named(index, package, described.interfaces(), least);
    fields_named(index, package, described.fields(), interfaces)
}

/// The least fault so far, when the records of the Descriptor were looked at.
#[tactic(auto, using(crate::proofs::NamedFaults::least_records))]
fn least_of_records(
    index: &Index<'_, '_, '_>,
    package: u16,
    records: DescClasses<'_>,
    least: Option<LinkFault>,
) -> Option<LinkFault>
    ensures { result
        ≡ least_named index.now «package» least
        (flat_map references_without_methods (records_left records.entry)) }
{
    let mut least = least;
    'records: for described in records {
        least = record_besides(index, package, described, least);
    }
    least
}

/// The least fault so far, when those references of the Descriptors of packages were looked at that no record needs: the
/// interfaces that they list, and the classes of fields.
#[tactic(auto, using(crate::proofs::NamedFaults::least_after))]
pub(crate) fn besides_named(
    index: &Index<'_, '_, '_>,
    packages: &Packages<'_, '_>,
    least: Option<LinkFault>,
) -> Option<LinkFault>
    requires { length packages.now ≤ 16 }
    ensures { result ≡ least_from link_place least (no_class_fault index.now) (named_in references_besides packages.now) }
{
    let mut least = least;
    'packages: for (k, package) in packages.iter().enumerate() {
        least = least_of_records(index, k as u16, package.descriptor().classes(), least);
    }
    least
}
