ghost use Rattle.std.specs.Prelude.{◌≡◌, ◌+◌, IfErr, IfOk, length};
ghost use Rattle.jc_link.specs.World.{IsLinked};
ghost use Rattle.xf_share.specs.Ends.{HaveCardTypings, TellsOf};
ghost use Rattle.xf_last.specs.Last.{BeginsLast, EachFrom};
ghost use Rattle.xf_share.specs.Passes.{IsSharedAt};
ghost use Rattle.xf_share.specs.Shared.{IsSharedFrom};

use crate::fewer::{Fewer, laid_locals, locals_of_last};
use crate::sharing::ShareEnd;
use cap_package::Packages;
use cap_write::{WriteEnd, write_package};
use jc_base::World;
use jc_decode::Laid;
use law_index::written_index_is_exact;
use law_shared_world::shared_world_ends_in_step;
use std::alloc::Global;

/// The parts of the last package with what is laid for its methods, and how many registers these have.
pub(crate) fn write_last(
    alloc: Global,
    packages: &Packages<'_, '_>,
    roles: [u8; 8],
    world: &World<'_>,
    first: u16,
    laid: &[Option<Laid>],
) -> Result<Fewer, ShareEnd>
    requires linked { IsLinked packages.now roles world.now }
    requires first { BeginsLast world.now first }
    requires accepted { HaveCardTypings world.now }
    requires laid { EachFrom (IsSharedAt world.now) first laid.now }
    requires all { first + length laid.now ≡ length world.now.methods }
    ensures made { IfOk result (IsSharedFrom packages.now roles world.now) }
    ensures end { IfErr result (TellsOf packages.now world.now) }
{
    shared_world_ends_in_step(world);
    written_index_is_exact();
    // A world has no more methods than this counts.
    let _count = world.method_count();
    let package = packages.at(packages.len() - 1);
    // Its parts stand for it, and its handlers are no more than one byte counts.
    let _parts = package.parts();
    let _handlers = package.methods().handlers();
    match write_package(alloc, package, laid) {
        Ok(parts) => Ok(Fewer {
            parts,
            before: locals_of_last(world),
            after: laid_locals(laid),
        }),
        Err(WriteEnd::PartLong(size)) => Err(ShareEnd::PartLong(size)),
        Err(WriteEnd::Memory) => Err(ShareEnd::Memory),
    }
}
