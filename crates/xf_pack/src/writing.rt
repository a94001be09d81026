ghost use Rattle.std.specs.Prelude.{◌≡◌, ◌+◌, IfErr, IfOk, length};
ghost use Rattle.jc_link.specs.World.{IsLinked};
ghost use Rattle.xf_pack.specs.Ends.{AreAcceptedLibraries, IsTypedLast, TellsOf};
ghost use Rattle.xf_last.specs.Last.{BeginsLast, EachFrom};
ghost use Rattle.xf_pack.specs.Passes.{IsLaidAt};
ghost use Rattle.xf_pack.specs.Transformed.{IsTransformed};

use crate::transforming::TransformEnd;
use cap_package::{OwnedParts, Packages};
use cap_write::{WriteEnd, write_package};
use jc_base::World;
use jc_decode::Laid;
use law_index::written_index_is_exact;
use law_transform::{laid_end_alike, laid_is_accepted};
use std::alloc::Global;

/// The parts of the last package with what is laid for its methods.
pub(crate) fn write_last(
    alloc: Global,
    packages: &Packages<'_, '_>,
    roles: [u8; 8],
    world: &World<'_>,
    first: u16,
    laid: &[Option<Laid>],
) -> Result<OwnedParts, TransformEnd>
    requires linked { IsLinked packages.now roles world.now }
    requires first { BeginsLast world.now first }
    requires accepted { AreAcceptedLibraries world.now }
    requires typed { IsTypedLast world.now }
    requires laid { EachFrom (IsLaidAt world.now) first laid.now }
    requires all { first + length laid.now ≡ length world.now.methods }
    ensures made { IfOk result (IsTransformed packages.now roles world.now) }
    ensures end { IfErr result (TellsOf packages.now world.now) }
{
    laid_is_accepted(world);
    laid_end_alike(world);
    written_index_is_exact();
    let package = packages.at(packages.len() - 1);
    // Its parts stand for it, and its handlers are no more than one byte counts.
    let _parts = package.parts();
    let _handlers = package.methods().handlers();
    match write_package(alloc, package, laid) {
        Ok(parts) => Ok(parts),
        Err(WriteEnd::PartLong(size)) => Err(TransformEnd::PartLong(size)),
        Err(WriteEnd::Memory) => Err(TransformEnd::Memory),
    }
}
