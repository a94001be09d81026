ghost use Rattle.std.specs.Prelude.{◌≡◌, ◌<◌, ◌≤◌, IfOk, IfSome, length, map, position};
ghost use Rattle.cap_frame.specs.Packages.{package_seen, packages_left as imports_left};
ghost use Rattle.cap_package.specs.PackagesLeft.{packages_left};
ghost use Rattle.jc_resolve.specs.Imports.{first_meeting, imports_met, met_among};
ghost use Rattle.jc_resolve.specs.References.{meets_import, met_by};
ghost use Rattle.std.specs.List.{range_with_len};
ghost use Rattle.jc_resolve.specs.Conditions.{import_tokens, import_fault, no_package_fault, named_in};
ghost use Rattle.jc_resolve.specs.Fault.{link_place};
ghost use Rattle.first_fault.specs.Least.{least_from, least_of, refused};

use crate::fault::LinkFault;
use cap_frame::{PackageInfo, PackageInfos};
use cap_package::{Package, Packages, PackagesIter};
use first_fault::{lesser, refuse};
use jc_base::Items;
use std::alloc::{AllocError, Global};

/// Whether a package meets an import.
fn meets(asked: &PackageInfo<'_>, package: &Package<'_, '_>) -> bool
    ensures { result ≡ meets_import (package_seen asked.now) «package».now }
{
    let this = package.header().package();
    this.aid == asked.aid && this.major == asked.major && this.minor >= asked.minor
}

/// Where the first package stands that meets an import.
fn place_meeting(packages: PackagesIter<'_, '_, '_>, asked: PackageInfo<'_>) -> Option<usize>
    ensures is { result ≡ position (meets_import (package_seen asked.entry)) (packages_left packages.entry) }
    ensures below { IfSome result (λ n. n < length (packages_left packages.entry)) }
{
    let mut packages = packages;
    packages.position(|p| meets(&asked, p))
}

/// The first package that meets an import.
fn first_meeting(packages: PackagesIter<'_, '_, '_>, asked: PackageInfo<'_>) -> Option<u16>
    requires { length (packages_left packages) ≤ 65535 }
    ensures is { result ≡ first_meeting (packages_left packages.entry) (package_seen asked.entry) }
    ensures below { IfSome result (λ n. n < length (packages_left packages.entry)) }
{
    Some(place_meeting(packages, asked)? as u16)
}

/// The package that meets the import with a token: the first of the earlier ones that does.
#[tactic(auto, unfolding(crate::specs::References::met_by))]
pub(crate) fn met_by(packages: &Packages<'_, '_>, package: u16, token: u8) -> Option<u16>
    ensures is { result ≡ met_by packages.now «package» token }
    ensures earlier { IfSome result (λ n. n < «package») }
{
    if package as usize >= packages.len() {
        return None;
    }
    let asked = packages.at(package as usize).imports().at(token)?;
    first_meeting(packages.before(package as usize), asked)
}

/// The packages that meet the imports of one, by token.
pub(crate) type Met = Items<Option<u16>>;

/// For each import the first package that meets it.
fn met_in(
    alloc: Global,
    packages: PackagesIter<'_, '_, '_>,
    imports: PackageInfos<'_>,
) -> Result<Met, AllocError>
    requires { length (packages_left packages) ≤ 65535 }
    ensures { IfOk result (λ met. met ≡ map (first_meeting (packages_left packages.entry)) (imports_left imports.entry)) }
{
    let mut met = Vec::new(alloc);
    'imports: for asked in imports {
        met.push(first_meeting(packages, asked))?;
    }
    Ok(Items::of(met))
}

/// The packages that meet the imports of each, by package and token.
pub(crate) fn imports_met(
    alloc: Global,
    packages: &Packages<'_, '_>,
) -> Result<Items<Met>, AllocError>
    requires { length packages.now ≤ 16 }
    ensures { IfOk result (λ met. met ≡ imports_met packages.now) }
{
    let mut met = Vec::new(alloc);
    'packages: for (k, package) in packages.iter().enumerate() {
        met.push(met_in(alloc, packages.before(k), package.imports().iter())?)?;
    }
    Ok(Items::of(met))
}

/// The package that meets the import with a token, where they are known.
pub(crate) fn met_among(met: &Items<Met>, package: u16, token: u8) -> Option<u16>
    ensures { result ≡ met_among met.now «package» token }
{
    let of_package = met.as_slice().get(package as usize)?;
    *of_package.as_slice().get(token as usize)?
}

#[tactic(auto, unfolding(crate::specs::Conditions::no_package_fault))]
fn import_fault(packages: &Packages<'_, '_>, package: u16, token: u8) -> Option<LinkFault>
    ensures { result ≡ import_fault packages.now «package» token }
{
    match met_by(packages, package, token) {
        Some(_) => None,
        None => Some(LinkFault::NoPackage(package, token)),
    }
}

/// The least fault so far, when the imports of a package were looked at.
#[tactic(auto, using(crate::proofs::NamedFaults::range_step))]
fn imports_of(
    packages: &Packages<'_, '_>,
    package: u16,
    count: u8,
    least: Option<LinkFault>,
) -> Option<LinkFault>
    ensures { result ≡ least_from link_place least (import_fault packages.now «package») (range_with_len 0 count) }
{
    let mut least = least;
    'imports: for token in 0..count {
        least = lesser(least, import_fault(packages, package, token));
    }
    least
}

/// An earlier package meets each import.
#[tactic(auto, using(crate::proofs::NamedFaults::least_imports))]
pub(crate) fn check_imports(packages: &Packages<'_, '_>) -> Result<(), LinkFault>
    requires { length packages.now ≤ 16 }
    ensures { result ≡ refused (least_of link_place (no_package_fault packages.now) (named_in import_tokens packages.now)) }
{
    let mut least = None;
    'packages: for (k, package) in packages.iter().enumerate() {
        least = imports_of(packages, k as u16, package.imports().count(), least);
    }
    refuse(least)
}
