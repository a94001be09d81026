ghost use Rattle.law_added.specs.Checked.{CheckedPackagesNeverFault};
ghost use Rattle.law_added.specs.Typings.{TypingsStay};
ghost use Rattle.law_added.specs.Worlds.{WorldsBegin};

use jc_base::World;
use law_sound::typed_code_never_fails;

/// Where packages make a world, and make another one with more packages after them, the other one has all that the first one has,
/// by the same numbers: nothing that a package names stands after it.
pub fn worlds_begin()
    ensures { WorldsBegin }
{}

/// Each method of the first world keeps the typings that it has there, those of the dataflow and those of the card.
pub fn typings_stay()
    ensures { TypingsStay }
{}

/// Where each package makes a world with those before it, and its own methods have dataflow typings there, no run of any entry of the
/// world that all of them make meets a fault. So checking package by package is enough.
pub fn checked_packages_never_fault(world: &World<'_>)
    ensures { CheckedPackagesNeverFault world.now }
{
    typed_code_never_fails(world);
}
