ghost use Rattle.std.specs.Prelude.{◌≡◌, ◌<◌, length, Some, option_map, slice_get};
ghost use Rattle.capcheck_core.specs.Typed.{is_of_last, numbers_of_method, AreTypedBelow};
ghost use Rattle.capcheck_core.specs.CheckEnds.{TypesMethod, FailsMethod};
ghost use Rattle.capcheck_core.specs.Check.{TypesWorld};

use crate::carding::Card;
use crate::verdict::Verdict;
use crate::world::LastStep;
use cap_files::Folder;
use cap_package::Packages;
use cap_text::{MethodNumber, refused_flow, typed};
use jc_base::World;
use jc_flow::{FlowEnd, infer};
use std::alloc::Global;

/// The last step of `check`: it types each method with code of the last package.
#[derive(Clone, Copy)]
pub(crate) struct CheckStep;

impl LastStep for CheckStep {
    ghost use Rattle.capcheck_core.specs.Check.{ChecksWorld};
    ghost use Rattle.capcheck_core.specs.World.{of_world};

    ghost own = { λ _. of_world ChecksWorld };

    fn take<F: Folder>(
        &self,
        alloc: Global,
        _packages: &Packages<'_, '_>,
        _roles: [u8; 8],
        world: &World<'_>,
        _folder: &mut F,
        _card: &mut Card<'_>,
    ) -> Verdict {
        type_methods(alloc, world)
    }
}

// Types each method with code of the last package of a world.
fn type_methods(alloc: Global, world: &World<'_>) -> Verdict
    ensures { TypesWorld world.now result }
{
    let mut count = 0u16;
    'methods: for number in 0..world.method_count() {
        match type_method(alloc, world, number) {
            Ok(asked) => count += u16::from(asked),
            Err(end) => return untyped(alloc, world, number, end),
        }
    }
    Verdict::done(typed(alloc, count))
}

// Types a method, where it is one of the last package with code, and tells whether it is one.
fn type_method(alloc: Global, world: &World<'_>, number: u16) -> Result<bool, FlowEnd>
    requires { number < length world.now.methods }
    ensures { TypesMethod world.now number result }
{
    if !is_of_last(world, number) {
        return Ok(false);
    }
    match infer(alloc, world, number) {
        Ok(_) => Ok(true),
        Err(end) => Err(end),
    }
}

/// Whether a method is one of the last package with code.
pub(crate) fn is_of_last(world: &World<'_>, number: u16) -> bool
    requires { number < length world.now.methods }
    ensures { option_map (is_of_last (length world.now.infos)) (slice_get world.now.methods number) ≡ Some result }
{
    let rec = world.method(number);
    let packages = world.package_count();
    rec.package + 1 == packages && rec.code_len > 0
}

// The verdict for the first method of which no typing was found.
fn untyped(alloc: Global, world: &World<'_>, number: u16, end: FlowEnd) -> Verdict
    requires known { number < length world.now.methods }
    requires earlier { AreTypedBelow world.now number }
    requires fails { FailsMethod world.now number end }
    ensures { TypesWorld world.now result }
{
    match end {
        FlowEnd::Memory => Verdict::Memory,
        _ => Verdict::refused(refused_flow(alloc, number_of(world, number), end)),
    }
}

/// A method by the numbers of its Descriptor.
pub(crate) fn number_of(world: &World<'_>, number: u16) -> MethodNumber
    requires { number < length world.now.methods }
    ensures { option_map numbers_of_method (slice_get world.now.methods number) ≡ Some result }
{
    let rec = world.method(number);
    MethodNumber {
        package: rec.package,
        class_no: rec.class_no,
        method_no: rec.method_no,
    }
}
