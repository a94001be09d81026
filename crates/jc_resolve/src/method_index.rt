ghost use Rattle.std.specs.Prelude.{◌≡◌, ◌+◌, ◌≤◌, ◌<◌, length, map, IfOk, OnOk};
ghost use Rattle.offset_set.specs.Bits.{holds};
ghost use Rattle.cap_desc.specs.ClassRecords.{described_left};
ghost use Rattle.cap_desc.specs.MemberLists.{methods_left};
ghost use Rattle.jc_resolve.specs.Counts.{method_count, method_total};
ghost use Rattle.jc_resolve.specs.Numbers.{none_numbered, method_spots, spot_of_method, spots_of_classes, with_all};

use crate::counts::method_total;
use crate::fault::RecordPlace;
use crate::numbers::Numbers;
use cap_desc::{DescClasses, DescMethods};
use cap_package::{Packages, interface_offsets};
use offset_set::Offsets;
use std::alloc::{AllocError, Global};

/// Numbers the methods of a class.
fn number_class(
    numbers: &mut Numbers,
    package: u16,
    placed: bool,
    methods: DescMethods<'_>,
) -> Result<(), AllocError>
    requires { numbers.old.next + length (methods_left methods) < 65535 }
    ensures numbers { OnOk result
        (numbers.new
        ≡ with_all numbers.old
        (map (spot_of_method «package» placed) (methods_left methods.entry))) }
    ensures next { OnOk result (numbers.new.next ≡ numbers.old.next + length (methods_left methods.entry)) }
{
    'methods: for method in methods {
        let place = if placed {
            Some(RecordPlace {
                package,
                offset: method.method_offset,
            })
        } else {
            None
        };
        numbers.push(place)?;
    }
    Ok(())
}

/// Numbers the methods of the classes of one package, some of which are interfaces.
fn number_classes(
    numbers: &mut Numbers,
    package: u16,
    interfaces: &Offsets,
    classes: DescClasses<'_>,
) -> Result<(), AllocError>
    requires { numbers.old.next + method_count (described_left classes) < 65535 }
    ensures numbers { OnOk result
        (numbers.new
        ≡ with_all numbers.old
        (spots_of_classes «package» (holds interfaces.now) (described_left classes.entry))) }
    ensures next { OnOk result (numbers.new.next ≡ numbers.old.next + method_count (described_left classes.entry)) }
{
    'classes: for class in classes {
        number_class(
            numbers,
            package,
            !interfaces.has(class.class_ref()),
            class.methods(),
        )?;
    }
    Ok(())
}

/// The numbers of the methods of packages.
pub(crate) fn number_methods(
    alloc: Global,
    packages: &Packages<'_, '_>,
) -> Result<Numbers, AllocError>
    requires many { length packages.now ≤ 16 }
    requires few { method_total packages.now ≤ 32768 }
    ensures { IfOk result (λ t. t ≡ with_all none_numbered (method_spots 0 packages.now)) }
{
    let mut numbers = Numbers::with_room(alloc, method_total(packages) as usize)?;
    'packages: for (k, package) in packages.iter().enumerate() {
        let interfaces = interface_offsets(&package.classes());
        number_classes(
            &mut numbers,
            k as u16,
            &interfaces,
            package.descriptor().classes(),
        )?;
    }
    Ok(numbers)
}
