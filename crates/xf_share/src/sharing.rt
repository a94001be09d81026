ghost use Rattle.std.specs.Prelude.{IfErr, IfOk, List, OnOk};
ghost use Rattle.jc_link.specs.World.{IsLinked};
ghost use Rattle.xf_share.specs.Ends.{TellsOf, TellsShare, HaveCardTypings};
ghost use Rattle.xf_share.specs.Shared.{AreShared, IsSharedFrom};
ghost use Rattle.cap_package.specs.PackageRecord.{PackageRecord};

use crate::fewer::Fewer;
use crate::laying::lay_last;
use crate::writing::write_last;
use cap_package::{OwnedParts, Packages};
use card_verify::{CardFault, CardRoom, accept};
use jc_base::World;
use jc_link::{LinkEnd, LinkFault, link};
use std::alloc::Global;
use xf_last::first_of_last;

/// The parts of the last package, in which the variables of each method share registers: each gets the least that are free, or
/// that variables of its type have with which it does not interfere. With its libraries it makes a world again, in which each
/// method with code has a card typing, and in which every run ends after as many steps as before.
///
/// It ends with the first thing that fails: linking, a method without a card typing, code of a method that would be too long, a
/// Method component that would be. Roles are the positions of the classes that a machine needs among those of the first package.
pub fn share(
    alloc: Global,
    packages: &Packages<'_, '_>,
    roles: [u8; 8],
) -> Result<OwnedParts, ShareEnd>
    ensures made { IfOk result (AreShared packages.now roles) }
    ensures end { IfErr result (TellsShare packages.now roles) }
{
    match link(alloc, packages, roles) {
        Ok(world) => match share_linked(alloc, packages, roles, &world) {
            Ok(fewer) => Ok(fewer.parts),
            Err(end) => Err(end),
        },
        Err(LinkEnd::Fault(fault)) => Err(ShareEnd::Link(fault)),
        Err(LinkEnd::Memory) => Err(ShareEnd::Memory),
    }
}

/// The same of the world that the packages make with the roles, and how many registers its last package has.
pub fn share_linked(
    alloc: Global,
    packages: &Packages<'_, '_>,
    roles: [u8; 8],
    world: &World<'_>,
) -> Result<Fewer, ShareEnd>
    requires linked { IsLinked packages.now roles world.now }
    ensures made { IfOk result (IsSharedFrom packages.now roles world.now) }
    ensures end { IfErr result (TellsOf packages.now world.now) }
{
    accept_all(world)?;
    let first = first_of_last(world);
    let laid = lay_last(alloc, world, first)?;
    write_last(alloc, packages, roles, world, first, laid.as_slice())
}

/// Verifies each method with code as a card does, in the order of their numbers. It takes no memory.
pub(crate) fn accept_all(world: &World<'_>) -> Result<(), ShareEnd>
    ensures accepted { OnOk result (HaveCardTypings world.now) }
    ensures end { IfErr result (λ end. (packages : List PackageRecord) → TellsOf packages world.now end) }
{
    // Every fact on the world.
    let _classes = world.classes();
    match accept(world, &mut CardRoom::new()) {
        Ok(_) => Ok(()),
        Err((method, fault)) => Err(ShareEnd::Refused { method, fault }),
    }
}

/// Why the registers of a package are not shared, in the order in which it is tried.
#[derive(Clone, Copy)]
pub enum ShareEnd {
    /// The packages make no world.
    Link(LinkFault),
    /// A method has no card typing.
    Refused { method: u16, fault: CardFault },
    /// The code of a method of the last package would be above 32,767 bytes; `n` is its plain size.
    MethodLong { method: u16, n: u32 },
    /// The info of the Method component would be above 65,535 bytes; the number is its plain size.
    PartLong(u32),
    /// There is no memory.
    Memory,
}
