ghost use Rattle.std.specs.Prelude.{◌≡◌, ◌+◌, ◌<◌, ◌≤◌, length, IsSomeAnd, MatchBool, slice_get};
ghost use Rattle.xf_last.specs.Last.{BeginsLast, HasLast};

use jc_base::World;

/// The number of the first method of the last package, or of all methods where that package has none.
pub fn first_of_last(world: &World<'_>) -> u16
    requires { HasLast world.now }
    ensures begins { BeginsLast world.now result }
    ensures within { result ≤ length world.now.methods }
{
    let count = world.method_count();
    'methods: for number in 0..count {
        if is_of_last(world, number) {
            return number;
        }
    }
    count
}

// Whether a method is one of the last package.
fn is_of_last(world: &World<'_>, number: u16) -> bool
    requires { number < length world.now.methods }
    ensures { IsSomeAnd (slice_get world.now.methods number)
        (λ r. MatchBool result (r.package + 1 ≡ length world.now.infos) (¬ (r.package + 1 ≡ length world.now.infos))) }
{
    let count = world.package_count();
    world.method(number).package + 1 == count
}
