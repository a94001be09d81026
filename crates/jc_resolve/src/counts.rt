ghost use Rattle.std.specs.Prelude.{◌≡◌, ◌≤◌, ◌*◌, length, OnOk};
ghost use Rattle.cap_package.specs.Descriptions.{description};
ghost use Rattle.jc_resolve.specs.Conditions.{packages_fault, classes_fault, methods_fault};
ghost use Rattle.jc_resolve.specs.Counts.{method_count, class_total, method_total};
ghost use Rattle.first_fault.specs.Least.{refused};

use crate::fault::LinkFault;
use cap_desc::DescPart;
use cap_package::Packages;

/// The packages of a world.
const PACKAGES: usize = 16;
/// The classes of a world.
const CLASSES: u32 = 4_096;
/// The methods of a world.
const METHODS: u32 = 32_768;

/// There are packages, and not more than a world has.
pub(crate) fn packages_few(packages: &Packages<'_, '_>) -> Result<(), LinkFault>
    ensures value { result ≡ refused (packages_fault packages.now) }
    ensures few { OnOk result (length packages.now ≤ 16) }
{
    let count = packages.len();
    if count == 0 || count > PACKAGES {
        return Err(LinkFault::TooManyPackages(u32::try_from(count).unwrap_or(u32::MAX)));
    }
    Ok(())
}

/// How many classes and interfaces there are.
pub(crate) fn class_total(packages: &Packages<'_, '_>) -> u32
    requires { length packages.now ≤ 16 }
    ensures { result ≡ class_total packages.now }
{
    let mut count: u32 = 0;
    'packages: for package in packages.iter() {
        count += package.classes().count() as u32;
    }
    count
}

/// There are not more classes than a world has.
#[tactic(auto, using(crate::proofs::Totals::classes_total))]
pub(crate) fn classes_few(packages: &Packages<'_, '_>) -> Result<(), LinkFault>
    requires { length packages.now ≤ 16 }
    ensures value { result ≡ refused (classes_fault packages.now) }
    ensures few { OnOk result (class_total packages.now ≤ 4096) }
{
    let count = class_total(packages);
    if count > CLASSES {
        return Err(LinkFault::TooManyClasses(count));
    }
    Ok(())
}

/// How many methods the Descriptor describes.
fn method_count(descriptor: &DescPart<'_>) -> u32
    ensures value { result ≡ method_count (description descriptor.now).items.classes }
    ensures few { result ≤ 255 * 65535 }
{
    // A component has at most 255 classes.
    let _classes = descriptor.class_count();
    let mut count: u32 = 0;
    'classes: for class in descriptor.classes() {
        count += class.method_count() as u32;
    }
    count
}

/// How many methods there are.
pub(crate) fn method_total(packages: &Packages<'_, '_>) -> u32
    requires { length packages.now ≤ 16 }
    ensures { result ≡ method_total packages.now }
{
    let mut count: u32 = 0;
    'packages: for package in packages.iter() {
        count += method_count(&package.descriptor());
    }
    count
}

/// There are not more methods than a world has.
#[tactic(auto, using(crate::proofs::Totals::methods_total))]
pub(crate) fn methods_few(packages: &Packages<'_, '_>) -> Result<(), LinkFault>
    requires { length packages.now ≤ 16 }
    ensures value { result ≡ refused (methods_fault packages.now) }
    ensures few { OnOk result (method_total packages.now ≤ 32768) }
{
    let count = method_total(packages);
    if count > METHODS {
        return Err(LinkFault::TooManyMethods(count));
    }
    Ok(())
}
