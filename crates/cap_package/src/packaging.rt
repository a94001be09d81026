ghost use Rattle.std.specs.Prelude.{◌≡◌, IfOk, Ok, map};
ghost use Rattle.cap_components.specs.Components.{AnswersAs};
ghost use Rattle.cap_components.specs.ComponentsSeen.{components_seen};
ghost use Rattle.cap_package.specs.Agreement.{package_from, or_none, places_agree, counts_agree, members_agree, named_condition};
ghost use Rattle.cap_package.specs.Agreement.{class_condition};
ghost use Rattle.cap_package.specs.FirstFault.{Tells};
ghost use Rattle.cap_package.specs.StandsFor.{StandsFor, HavePackage};
ghost use Rattle.cap_components.specs.Infos.{HaveInfos};
ghost use Rattle.cap_components.specs.Openings.{GivesOpening};
ghost use Rattle.cap_components.specs.PackageRecord.{PackageRecord, names_interface, described_methods};
ghost use Rattle.offset_set.specs.Bits.{holds};
ghost use Rattle.offset_set.specs.Tallies.{tallied, tally_of};
ghost use Rattle.cap_pool.specs.ExportFormat.{Exported};
ghost use Rattle.cap_class.specs.ClassPart.{records};
ghost use Rattle.cap_package.specs.NameChecks.{no_method_fault, exported_methods, undescribed_class_fault, is_class_at, is_method_at};
ghost use Rattle.cap_package.specs.Reaches.{method_start};
ghost use Rattle.cap_components.specs.Order.{least_from, refused};

use crate::classes::{classes_described, descriptions, descriptors_named, exports_are_classes};
use crate::count_checks::{agree, array_bytes, instances_agree};
use crate::handlers::handlers_at_home;
use crate::header_checks::{abstract_without_code, arguments_agree, lengths_fit, registers_few};
use crate::methods::{class_starts, method_starts, methods_apart, methods_inside, static_offsets};
use crate::name_checks::{entries_named, exports_named, installs_named, statics_named};
use crate::packages::Package;
use crate::statics::{StaticPlaces, statics_apart, statics_in_image};
use crate::type_checks::types_fit;
use cap_components::{
    Components, CountKind, Opening, PackFault, Parts, customs_formed, interface_offsets,
    opening_in, read_package, read_whole_opened, refuse, sizes_agree,
};
use offset_set::{Offsets, Tally};

/// The components of the package that the parts stand for.
#[tactic(auto, unfolding(crate::specs::Agreement::package_from))]
fn agreeing<'p, 'a>(
    parts: &'p Parts<'a>,
    opening: Result<Opening<'a>, PackFault>,
) -> Result<Components<'p, 'a>, PackFault>
    requires { GivesOpening parts.now opening }
    ensures value { AnswersAs components_seen result (package_from parts.now) }
    ensures parts { IfOk result (λ all. all.parts.now ≡ parts.now) }
    ensures infos { IfOk result (λ all. HaveInfos all) }
{
    let all = read_whole_opened(parts, opening)?;
    customs_formed(parts, &all.directory)?;
    let interfaces = interface_offsets(&all.classes);
    let starts = method_starts(all.descriptor.methods_but(&interfaces));
    places_agree(&all, &interfaces, &starts)?;
    counts_agree(&all, &interfaces)?;
    members_agree(&all, &interfaces, &starts)?;
    Ok(all)
}

/// The package that the parts stand for, or why they stand for none.
pub fn package<'p, 'a>(parts: &'p Parts<'a>) -> Result<Package<'p, 'a>, PackFault>
    ensures value { result ≡ package_from parts.now }
    // A package exactly where nothing is at fault; else the first condition by number that is broken, at its
    // least thing.
    ensures tells { Tells parts.now result }
    // The answer is a package only where the parts stand for it, and they stand for no other.
    ensures stands { IfOk result (λ p. StandsFor parts.now p) }
    ensures only { (p : PackageRecord) → StandsFor parts.now p → result ≡ Ok p }
{
    package_opened(parts, opening_in(parts))
}

/// The same for parts of which the Header and the Directory were read, as those are that were loaded by what the
/// Directory says.
#[tactic(auto, using(crate::proofs::FirstTold::first_told))]
pub fn package_opened<'p, 'a>(
    parts: &'p Parts<'a>,
    opening: Result<Opening<'a>, PackFault>,
) -> Result<Package<'p, 'a>, PackFault>
    requires { GivesOpening parts.now opening }
    ensures value { result ≡ package_from parts.now }
    ensures tells { Tells parts.now result }
    ensures stands { IfOk result (λ p. StandsFor parts.now p) }
    ensures only { (p : PackageRecord) → StandsFor parts.now p → result ≡ Ok p }
{
    match agreeing(parts, opening) {
        Ok(all) => Ok(Package { all }),
        Err(fault) => Err(fault),
    }
}

/// The package of parts that are known to stand for one: what the components say is read, and whether they agree is
/// not asked again.
pub fn agreed_package<'p, 'a>(parts: &'p Parts<'a>) -> Package<'p, 'a>
    requires { HavePackage parts.now }
    ensures { StandsFor parts.now result }
{
    match read_package(parts) {
        Ok(all) => Package { all },
        Err(_) => unreachable!(),
    }
}

/// The sizes of the parts and the places of the methods agree.
#[tactic(auto, unfolding(crate::specs::Agreement::places_agree))]
pub(crate) fn places_agree(
    all: &Components<'_, '_>,
    interfaces: &Offsets,
    starts: &Tally,
) -> Result<(), PackFault>
    requires known { holds interfaces.now ≡ names_interface (records all.now.classes) }
    requires starts { tallied starts.now ≡ tally_of (map method_start (described_methods (components_seen all.now))) }
    ensures { result ≡ places_agree (components_seen all.now) }
{
    let described = all.descriptor.methods_but(interfaces);
    let info = all.methods.info();
    sizes_agree(all.parts, &all.directory)?;
    methods_apart(info, described, starts)?;
    methods_inside(info, all.methods.handler_count(), described)
}

/// The numbers that two components tell are equal.
#[tactic(auto, unfolding(crate::specs::Agreement::counts_agree))]
pub(crate) fn counts_agree(all: &Components<'_, '_>, interfaces: &Offsets) -> Result<(), PackFault>
    requires { holds interfaces.now ≡ names_interface (records all.now.classes) }
    ensures { result ≡ counts_agree (components_seen all.now) }
{
    let described = all.descriptor.methods_but(interfaces);
    let directory = &all.directory;
    let statics = &all.statics;
    let applets = match all.applets {
        Some(applets) => applets.count() as u32,
        None => 0,
    };
    let imports = all.imports.count() as u32;
    agree(CountKind::Imports, directory.import_count() as u32, imports)?;
    agree(CountKind::Applets, directory.applet_count() as u32, applets)?;
    let size = statics.image_size() as u32;
    agree(CountKind::ImageSize, directory.image_size() as u32, size)?;
    agree(
        CountKind::InitialArrays,
        directory.array_init_count() as u32,
        statics.array_init_count() as u32,
    )?;
    agree(
        CountKind::ArrayBytes,
        directory.array_init_size() as u32,
        array_bytes(statics),
    )?;
    agree(
        CountKind::PoolTypes,
        all.descriptor.pool_count() as u32,
        all.pool.count() as u32,
    )?;
    arguments_agree(&all.methods, &all.descriptor, described)?;
    instances_agree(&all.classes, &all.descriptor)?;
    let references = 2 * statics.reference_count() as u32;
    let values = statics.default_value_count() as u32 + statics.non_default_value_count() as u32;
    agree(CountKind::ImageSegments, size, references + values)?;
    abstract_without_code(&all.methods, described)
}

/// The least fault so far, when the methods that the package exports were looked up, if it does.
fn export_names(
    all: &Components<'_, '_>,
    described: &Offsets,
    least: Option<PackFault>,
) -> Option<PackFault>
    ensures { result
        ≡ least_from least
        (no_method_fault (holds described.now))
        (exported_methods (or_none (components_seen all.now).export)) }
{
    match &all.export {
        Some(export) => exports_named(described, export, least),
        None => least,
    }
}

/// Dispatch tables, exports and applets name described methods.
fn names_agree(all: &Components<'_, '_>, methods_at: &Offsets) -> Result<(), PackFault>
    requires { holds methods_at.now ≡ is_method_at (described_methods (components_seen all.now)) }
    ensures { result ≡ refused (named_condition (components_seen all.now)) }
{
    let entries = entries_named(methods_at, &all.classes);
    let exports = export_names(all, methods_at, entries);
    match &all.applets {
        Some(applets) => refuse(installs_named(methods_at, applets, exports)),
        None => refuse(exports),
    }
}

/// The least fault so far, when the classes that the package exports were looked up, if it does.
#[tactic(auto, using(crate::proofs::ClassLaws::class_there))]
fn export_classes(
    all: &Components<'_, '_>,
    starts: &Offsets,
    least: Option<PackFault>,
) -> Option<PackFault>
    requires { holds starts.now ≡ is_class_at (records all.now.classes) }
    ensures { result
        ≡ least_from least
        (undescribed_class_fault (records all.now.classes))
        (map (λ (c : Exported). c.class_offset) (or_none (components_seen all.now).export)) }
{
    match &all.export {
        Some(export) => exports_are_classes(starts, export, least),
        None => least,
    }
}

/// Each class record is described once, and descriptors and exports name class records.
fn classes_agree(all: &Components<'_, '_>) -> Result<(), PackFault>
    ensures { result ≡ refused (class_condition (components_seen all.now)) }
{
    let descriptors = all.descriptor.classes();
    let starts = class_starts(&all.classes);
    let undescribed = classes_described(&all.classes, &descriptions(descriptors));
    let unnamed = descriptors_named(&starts, descriptors, undescribed);
    refuse(export_classes(all, &starts, unnamed))
}

/// Handlers, static fields, names, classes, headers and types agree.
#[tactic(auto, unfolding(crate::specs::Agreement::members_agree))]
pub(crate) fn members_agree(
    all: &Components<'_, '_>,
    interfaces: &Offsets,
    starts: &Tally,
) -> Result<(), PackFault>
    requires known { holds interfaces.now ≡ names_interface (records all.now.classes) }
    requires starts { tallied starts.now ≡ tally_of (map method_start (described_methods (components_seen all.now))) }
    ensures { result ≡ members_agree (components_seen all.now) }
{
    let described = all.descriptor.methods_but(interfaces);
    let fields = all.descriptor.fields();
    handlers_at_home(&all.methods, described)?;
    statics_apart(StaticPlaces {
        descriptor: all.descriptor,
        fields,
    })?;
    names_agree(all, starts.offsets())?;
    classes_agree(all)?;
    registers_few(&all.methods, described)?;
    types_fit(&all.descriptor, interfaces)?;
    statics_in_image(&all.statics, &all.descriptor, fields)?;
    lengths_fit(&all.methods, described)?;
    match &all.export {
        Some(export) => refuse(statics_named(&static_offsets(fields), export)),
        None => Ok(()),
    }
}
