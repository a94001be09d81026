ghost use Rattle.std.specs.Prelude.{IfOk, IfErr, List, OnOk};
ghost use Rattle.jc_link.specs.World.{IsLinked};
ghost use Rattle.xf_pack.specs.Ends.{TellsOf, TellsTransform, AreAcceptedLibraries};
ghost use Rattle.xf_pack.specs.Transformed.{AreTransformed, IsTransformed};
ghost use Rattle.cap_package.specs.PackageRecord.{PackageRecord};
ghost use Rattle.xf_last.specs.Last.{BeginsLast};

use crate::laying::lay_last;
use crate::typing::type_last;
use crate::writing::write_last;
use cap_package::{OwnedParts, Packages};
use card_verify::{CardFault, CardRoom};
use jc_base::World;
use jc_flow::FlowEnd;
use jc_link::{LinkEnd, LinkFault, link};
use std::alloc::Global;
use xf_last::first_of_last;

/// The parts of the last package in the form that a verifier on the card accepts: with its libraries it makes a world again,
/// in which each method with code has a card typing, and in which every run ends as it does in the former world. Unless the
/// package has another component with the tag of a target index, or the index would be too long, one is written over which
/// each of its methods with code has a card typing. Roles are the positions of the classes that a machine needs among those
/// of the first package.
///
/// It ends with the first thing that fails: linking, a method of a library without a card typing, one of the last package
/// without a dataflow typing, one that passes a limit, a Method component that would be too long.
pub fn transform(
    alloc: Global,
    packages: &Packages<'_, '_>,
    roles: [u8; 8],
) -> Result<OwnedParts, TransformEnd>
    ensures made { IfOk result (AreTransformed packages.now roles) }
    ensures end { IfErr result (TellsTransform packages.now roles) }
{
    match link(alloc, packages, roles) {
        Ok(world) => transform_linked(alloc, packages, roles, &world),
        Err(LinkEnd::Fault(fault)) => Err(TransformEnd::Link(fault)),
        Err(LinkEnd::Memory) => Err(TransformEnd::Memory),
    }
}

/// The same of the world that the packages make with the roles.
pub fn transform_linked(
    alloc: Global,
    packages: &Packages<'_, '_>,
    roles: [u8; 8],
    world: &World<'_>,
) -> Result<OwnedParts, TransformEnd>
    requires linked { IsLinked packages.now roles world.now }
    ensures made { IfOk result (IsTransformed packages.now roles world.now) }
    ensures end { IfErr result (TellsOf packages.now world.now) }
{
    let first = first_of_last(world);
    accept_libraries(world, first)?;
    let typings = type_last(alloc, world, first)?;
    let laid = lay_last(alloc, world, first, typings.as_slice())?;
    write_last(alloc, packages, roles, world, first, laid.as_slice())
}

/// Verifies each method with code of the libraries as a card does, in the order of their numbers.
pub(crate) fn accept_libraries(world: &World<'_>, first: u16) -> Result<(), TransformEnd>
    requires { BeginsLast world.now first }
    ensures accepted { OnOk result (AreAcceptedLibraries world.now) }
    ensures end { IfErr result (λ end. (packages : List PackageRecord) → TellsOf packages world.now end) }
{
    // Every fact on the world.
    let _classes = world.classes();
    let mut room = CardRoom::new();
    'methods: for method in 0..first {
        match room.verify(world, method) {
            Ok(_) => {}
            Err(fault) => return Err(TransformEnd::Library { method, fault }),
        }
    }
    Ok(())
}

/// A limit that a method passes when it is rewritten.
#[derive(Clone, Copy)]
pub enum MethodLimit {
    /// Its homes take this many registers, above 255.
    Registers(u32),
    /// Its stack has 255 cells, and there is no room for one more.
    StackLimit,
    /// Its code would be above 32,767 bytes; the number is its plain size.
    MethodLong(u32),
}

/// Why a package is not transformed, in the order in which it is tried.
#[derive(Clone, Copy)]
pub enum TransformEnd {
    /// The packages make no world.
    Link(LinkFault),
    /// A method of a library has no card typing.
    Library { method: u16, fault: CardFault },
    /// A method of the last package has no dataflow typing. The end is never that there is no memory.
    Typing { method: u16, end: FlowEnd },
    /// A method of the last package passes a limit.
    Limit { method: u16, limit: MethodLimit },
    /// The info of the Method component would be above 65,535 bytes; the number is its plain size.
    PartLong(u32),
    /// There is no memory.
    Memory,
}
