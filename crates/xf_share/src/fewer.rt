ghost use Rattle.std.specs.Prelude.{◌≡◌, ◌≤◌, ◌<◌, Some, length, option_map, slice_get};
ghost use Rattle.law_shared_world.specs.SharedCode.{laid_of, laid_locals, locals_of, locals_of_last};

use cap_package::OwnedParts;
use jc_base::World;
use jc_decode::Laid;

/// The parts of a package whose methods share registers, and how many registers its methods with code have beside their
/// arguments, all together: before and after.
#[derive(Drop)]
pub struct Fewer {
    pub parts: OwnedParts,
    pub before: u32,
    pub after: u32,
}

/// How many registers the methods with code of the last package of a world have beside their arguments.
pub(crate) fn locals_of_last(world: &World<'_>) -> u32
    ensures { result ≡ locals_of_last world.now }
{
    let mut sum = 0u32;
    'methods: for number in 0..world.method_count() {
        sum += locals_of(world, number);
    }
    sum
}

// How many of these a method has.
fn locals_of(world: &World<'_>, number: u16) -> u32
    requires { number < length world.now.methods }
    ensures is { option_map (locals_of world.now) (slice_get world.now.methods number) ≡ Some result }
    ensures few { result ≤ 255 }
{
    let count = world.package_count();
    let rec = world.method(number);
    let code = world.code(number);
    if rec.package + 1 == count && code.len() > 0 {
        u32::from(rec.max_locals)
    } else {
        0
    }
}

/// How many registers the laid methods have beside their arguments.
pub(crate) fn laid_locals(laid: &[Option<Laid>]) -> u32
    requires { length laid.now ≤ 65535 }
    ensures { result ≡ laid_locals laid.now }
{
    let mut sum = 0u32;
    'laid: for element in laid {
        sum += laid_of(element);
    }
    sum
}

fn laid_of(laid: &Option<Laid>) -> u32
    ensures is { result ≡ laid_of laid.now }
    ensures few { result ≤ 255 }
{
    match laid {
        Some(laid) => u32::from(laid.max_locals),
        None => 0,
    }
}
