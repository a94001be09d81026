ghost use Rattle.std.specs.Prelude.{◌≡◌, map};
ghost use Rattle.offset_set.specs.Bits.{holds};
ghost use Rattle.cap_bytes.specs.Table.{numbers};
ghost use Rattle.cap_frame.specs.AppletFormat.{Applet};
ghost use Rattle.cap_frame.specs.Applets.{applets_of};
ghost use Rattle.cap_pool.specs.Export.{export_seen as exported};
ghost use Rattle.cap_class.specs.ClassPart.{records};
ghost use Rattle.cap_components.specs.Order.{least_of, least_from};
ghost use Rattle.cap_package.specs.NameChecks.{no_method_fault, no_entry_fault, table_entries, exported_methods, exported_fields};
ghost use Rattle.cap_package.specs.StaticChecks.{no_static_fault};

use cap_bytes::Table;
use cap_class::ClassPart;
use cap_components::PackFault;
use cap_frame::Applets;
use cap_pool::Export;
use first_fault::least_from;
use offset_set::Offsets;

#[tactic(auto, unfolding(crate::specs::NameChecks::no_method_fault))]
fn no_method_fault(described: &Offsets, offset: u16) -> Option<PackFault>
    ensures { result ≡ no_method_fault (holds described.now) offset }
{
    (!described.has(offset)).then_some(PackFault::NoMethodAt(offset))
}

#[tactic(auto, unfolding(crate::specs::NameChecks::no_entry_fault))]
fn no_entry_fault(described: &Offsets, offset: u16) -> Option<PackFault>
    ensures { result ≡ no_entry_fault (holds described.now) offset }
{
    if offset == 0xFFFF {
        return None;
    }
    no_method_fault(described, offset)
}

/// The least fault so far, when the entries of a dispatch table were looked up.
#[tactic(auto, using(first_fault::proofs::LeastFound::least_first))]
#[inline(always)]
fn entries_of_table(
    described: &Offsets,
    table: Table<'_>,
    least: Option<PackFault>,
) -> Option<PackFault>
    ensures { result ≡ least_from least (no_entry_fault (holds described.now)) (numbers table.entry) }
{
    least_from(least, table, |offset| no_entry_fault(described, offset))
}

/// The least fault so far, when offsets of methods were looked up.
#[tactic(auto, using(first_fault::proofs::LeastFound::least_first))]
fn methods_of_table(
    described: &Offsets,
    table: Table<'_>,
    least: Option<PackFault>,
) -> Option<PackFault>
    ensures { result ≡ least_from least (no_method_fault (holds described.now)) (numbers table.entry) }
{
    least_from(least, table, |offset| no_method_fault(described, offset))
}

/// The least fault of the dispatch tables.
#[tactic(auto, using(crate::proofs::TableFaults::least_entries))]
pub(crate) fn entries_named(described: &Offsets, classes: &ClassPart<'_>) -> Option<PackFault>
    ensures { result ≡ least_of (no_entry_fault (holds described.now)) (table_entries (records classes.now)) }
{
    let mut least = None;
    'classes: for class in classes.iter() {
        let public = entries_of_table(described, class.publics(), least);
        least = entries_of_table(described, class.package_table(), public);
    }
    least
}

/// The least fault so far, when the exported methods were looked up.
#[tactic(auto, using(crate::proofs::TableFaults::least_exported_methods))]
pub(crate) fn exports_named(
    described: &Offsets,
    export: &Export<'_>,
    least: Option<PackFault>,
) -> Option<PackFault>
    ensures { result ≡ least_from least (no_method_fault (holds described.now)) (exported_methods (exported export.now)) }
{
    let mut least = least;
    'classes: for class in export.iter() {
        least = methods_of_table(described, class.methods, least);
    }
    least
}

/// The least fault so far, when the applets' install methods were looked up.
#[tactic(auto, using(first_fault::proofs::LeastFound::least_by_number))]
pub(crate) fn installs_named(
    described: &Offsets,
    applets: &Applets<'_>,
    least: Option<PackFault>,
) -> Option<PackFault>
    ensures { result
        ≡ least_from least
        (no_method_fault (holds described.now))
        (map (λ (a : Applet). a.install) (applets_of applets.now)) }
{
    least_from(least, applets.iter(), |applet| {
        no_method_fault(described, applet.install)
    })
}

#[tactic(auto, unfolding(crate::specs::StaticChecks::no_static_fault))]
fn no_static_fault(fields: &Offsets, offset: u16) -> Option<PackFault>
    ensures { result ≡ no_static_fault (holds fields.now) offset }
{
    (!fields.has(offset)).then_some(PackFault::NoStaticAt(offset))
}

/// The least fault so far, when offsets of static fields were looked up.
#[tactic(auto, using(first_fault::proofs::LeastFound::least_first))]
fn statics_of_table(
    fields: &Offsets,
    table: Table<'_>,
    least: Option<PackFault>,
) -> Option<PackFault>
    ensures { result ≡ least_from least (no_static_fault (holds fields.now)) (numbers table.entry) }
{
    least_from(least, table, |offset| no_static_fault(fields, offset))
}

/// The least fault of the exported static fields.
#[tactic(auto, using(crate::proofs::TableFaults::least_exported_fields))]
pub(crate) fn statics_named(fields: &Offsets, export: &Export<'_>) -> Option<PackFault>
    ensures { result ≡ least_of (no_static_fault (holds fields.now)) (exported_fields (exported export.now)) }
{
    let mut least = None;
    'classes: for class in export.iter() {
        least = statics_of_table(fields, class.fields, least);
    }
    least
}
