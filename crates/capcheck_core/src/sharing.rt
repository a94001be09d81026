ghost use Rattle.xf_share.specs.Ends.{TellsOf};
ghost use Rattle.xf_share.specs.Shared.{IsSharedFrom};
ghost use Rattle.capcheck_core.specs.Share.{SharesIn, StopsSharing};

use crate::carding::Card;
use crate::storing::{in_order, store_parts};
use crate::transforming::{count_of_last, roles_beside};
use crate::typing::number_of;
use crate::verdict::Verdict;
use crate::world::LastStep;
use cap_files::Folder;
use cap_package::Packages;
use cap_text::{OutOfDirs, limit_code, limit_part, refused_card, shared};
use jc_base::World;
use std::alloc::Global;
use xf_share::{Fewer, ShareEnd, share_linked};

/// The last step of `share`: it stores the last package, whose methods share registers.
#[derive(Clone, Copy)]
pub(crate) struct ShareStep<'a> {
    pub asked: &'a OutOfDirs<'a>,
}

impl LastStep for ShareStep<'_> {
    ghost use Rattle.cap_text.specs.OutOfDirs.{out_of_dirs_request};
    ghost use Rattle.capcheck_core.specs.Share.{SharesWorld};

    ghost own = { λ s. SharesWorld (out_of_dirs_request s.asked.now) };

    fn take<F: Folder>(
        &self,
        alloc: Global,
        packages: &Packages<'_, '_>,
        roles: [u8; 8],
        world: &World<'_>,
        folder: &mut F,
        _card: &mut Card<'_>,
    ) -> Verdict {
        let out = self.asked.out;
        match share_linked(alloc, packages, roles, world) {
            Ok(fewer) => store_shared(alloc, out, packages, roles, world, &fewer, folder),
            Err(end) => unshared(alloc, packages, world, end),
        }
    }
}

// Stores the parts that stand for the last package. Nothing is stored before all parts and the text are made.
fn store_shared<F: Folder>(
    alloc: Global,
    out: &str,
    packages: &Packages<'_, '_>,
    roles: [u8; 8],
    world: &World<'_>,
    fewer: &Fewer,
    folder: &mut F,
) -> Verdict
    requires { IsSharedFrom packages.now roles world.now fewer.now }
    ensures { SharesIn packages.now roles world.now out.now (F.folders folder.old) (F.folders folder.new) result }
{
    let Ok(stores) = in_order(alloc, &fewer.parts, roles_beside(packages, &roles)) else {
        return Verdict::Memory;
    };
    let Ok(text) = shared(alloc, count_of_last(world), fewer.before, fewer.after) else {
        return Verdict::Memory;
    };
    match store_parts(folder, out, &stores) {
        Ok(()) => Verdict::Done(text),
        Err(_) => Verdict::StoreFault,
    }
}

// The verdict where the methods of the last package do not share registers. Nothing is stored.
fn unshared(
    alloc: Global,
    _packages: &Packages<'_, '_>,
    world: &World<'_>,
    end: ShareEnd,
) -> Verdict
    requires { TellsOf _packages.now world.now end }
    ensures { StopsSharing _packages.now world.now result }
{
    match end {
        ShareEnd::Link(_) => Verdict::Memory,
        ShareEnd::Refused { method, fault } => {
            Verdict::refused(refused_card(alloc, number_of(world, method), fault))
        }
        ShareEnd::MethodLong { method, n } => {
            Verdict::limit(limit_code(alloc, number_of(world, method), n))
        }
        ShareEnd::PartLong(size) => Verdict::limit(limit_part(alloc, size)),
        ShareEnd::Memory => Verdict::Memory,
    }
}
