ghost use Rattle.std.specs.Prelude.{◌≡◌, IfOk, List};
ghost use Rattle.cap_package.specs.PackageRecord.{PackageRecord};
ghost use Rattle.law_relink.specs.Last.{and_last};
ghost use Rattle.cap_text.specs.Run.{run_request};
ghost use Rattle.jc_link.specs.World.{IsLinked};
ghost use Rattle.xf_pack.specs.Transformed.{IsTransformed};
ghost use Rattle.capcheck_core.specs.Defend.{IsDefended};
ghost use Rattle.capcheck_core.specs.LentCard.{IsSameCard, words_of};
ghost use Rattle.capcheck_core.specs.Run.{HasLengths};
ghost use Rattle.capcheck_core.specs.Trial.{HasNew, IsUntriedKept, TriesIn};

use crate::carding::Card;
use crate::defending::defended;
use crate::running::{Bounded, run_carded};
use crate::transforming::untransformed;
use crate::verdict::Verdict;
use crate::world::LastStep;
use cap_files::Folder;
use cap_package::{OwnedParts, Package, Packages, agreed_package};
use cap_text::{Run, not_started, tried};
use jc_base::World;
use jc_link::{LinkEnd, link};
use law_alike::starts_refuse_alike;
use std::alloc::{AllocError, Global};
use vm_defend::StartEnd;
use xf_pack::transform_linked;

// The steps of the new package that one of its source may take.
const STEPS_EACH: u64 = 2000;

/// A world with the packages and the roles that make it, and the parts of its last package in the other form.
#[derive(Clone, Copy)]
struct Made<'m, 'p, 'a, 'w> {
    packages: &'m Packages<'p, 'a>,
    roles: [u8; 8],
    world: &'m World<'w>,
    parts: &'m OwnedParts,
}

/// The last step of `trial`: it runs an entry of the last package, and then of it in the form that a verifier on the card
/// accepts, in the memory of the card.
#[derive(Clone, Copy)]
pub(crate) struct TrialStep<'a> {
    pub run: &'a Run<'a>,
}

impl LastStep for TrialStep<'_> {
    ghost use Rattle.cap_text.specs.Run.{run_request};
    ghost use Rattle.capcheck_core.specs.Trial.{TriesWorld};

    ghost own = { λ s. TriesWorld (run_request s.run.now) };

    #[tactic(auto, using(crate::proofs::Trials::untried_there))]
    fn take<F: Folder>(
        &self,
        alloc: Global,
        packages: &Packages<'_, '_>,
        roles: [u8; 8],
        world: &World<'_>,
        _folder: &mut F,
        card: &mut Card<'_>,
    ) -> Verdict {
        match transform_linked(alloc, packages, roles, world) {
            Ok(parts) => {
                let made = Made {
                    packages,
                    roles,
                    world,
                    parts: &parts,
                };
                try_made(alloc, &made, self.run, card)
            }
            Err(end) => untransformed(alloc, packages, world, end),
        }
    }
}

// Runs an entry of the source on the machine that tests what it does, and then the same entry of the new package in the memory
// of the card.
#[tactic(auto, using(crate::proofs::Trials::untried_there))]
fn try_made(
    alloc: Global,
    made: &Made<'_, '_, '_, '_>,
    run: &Run<'_>,
    card: &mut Card<'_>,
) -> Verdict
    requires lengths { HasLengths (words_of card.old) }
    requires linked { IsLinked made.now.packages.now made.now.roles made.now.world.now }
    requires made { IsTransformed made.now.packages.now made.now.roles made.now.world.now made.now.parts.now }
    ensures tries { TriesIn made.now.packages.now made.now.roles made.now.world.now (run_request run.now)
        (words_of card.new) result }
    ensures kept { IsUntriedKept made.now.packages.now made.now.roles made.now.world.now (run_request run.now)
        (words_of card.old) (words_of card.new) result }
    ensures same { IsSameCard card.old card.new }
{
    match defended(alloc, made.world, run) {
        Ok(source) => try_new(alloc, made, run, source.as_str(), card),
        Err(StartEnd::Fault(fault)) => Verdict::malformed(not_started(alloc, fault)),
        Err(StartEnd::Memory) => Verdict::Memory,
    }
}

// Links the libraries with the new package, of whose source the text of its run is at hand.
fn try_new(
    alloc: Global,
    made: &Made<'_, '_, '_, '_>,
    run: &Run<'_>,
    source: &str,
    card: &mut Card<'_>,
) -> Verdict
    requires lengths { HasLengths (words_of card.old) }
    requires linked { IsLinked made.now.packages.now made.now.roles made.now.world.now }
    requires made { IsTransformed made.now.packages.now made.now.roles made.now.world.now made.now.parts.now }
    requires defended { IsDefended made.now.world.now (run_request run.now) source.now }
    ensures tries { TriesIn made.now.packages.now made.now.roles made.now.world.now (run_request run.now)
        (words_of card.new) result }
    ensures kept { IsUntriedKept made.now.packages.now made.now.roles made.now.world.now (run_request run.now)
        (words_of card.old) (words_of card.new) result }
    ensures same { IsSameCard card.old card.new }
{
    let Ok(lent) = made.parts.lend(alloc) else {
        return Verdict::Memory;
    };
    let last = agreed_package(&lent);
    let Ok(all) = with_last(alloc, made.packages, last) else {
        return Verdict::Memory;
    };
    match link(alloc, &all, made.roles) {
        Ok(new) => run_new(alloc, made, &new, run, source, card),
        Err(LinkEnd::Fault(_)) => unreachable!(),
        Err(LinkEnd::Memory) => Verdict::Memory,
    }
}

// The libraries of packages, and another package in place of the last.
fn with_last<'p, 'a>(
    alloc: Global,
    packages: &Packages<'p, 'a>,
    last: Package<'p, 'a>,
) -> Result<Packages<'p, 'a>, AllocError>
    ensures { IfOk result
        (λ all.
        (libraries : List PackageRecord) (source : PackageRecord)
        → packages.now ≡ and_last libraries source
        → all ≡ and_last libraries last.entry) }
{
    let mut all = packages.libraries(alloc)?;
    all.push(last)?;
    Ok(all)
}

// Runs the entry of the new package in the memory of the card, and tells both runs.
fn run_new(
    alloc: Global,
    made: &Made<'_, '_, '_, '_>,
    new: &World<'_>,
    run: &Run<'_>,
    source: &str,
    card: &mut Card<'_>,
) -> Verdict
    requires lengths { HasLengths (words_of card.old) }
    requires linked { IsLinked made.now.packages.now made.now.roles made.now.world.now }
    requires made { HasNew made.now.packages.now made.now.roles made.now.world.now made.now.parts.now new.now }
    requires defended { IsDefended made.now.world.now (run_request run.now) source.now }
    ensures tries { TriesIn made.now.packages.now made.now.roles made.now.world.now (run_request run.now)
        (words_of card.new) result }
    ensures kept { IsUntriedKept made.now.packages.now made.now.roles made.now.world.now (run_request run.now)
        (words_of card.old) (words_of card.new) result }
    ensures same { IsSameCard card.old card.new }
{
    starts_refuse_alike(made.world);
    let steps = STEPS_EACH * u64::from(run.budget);
    match run_carded(alloc, new, Bounded { run, steps }, card) {
        Ok(target) => Verdict::done(tried(alloc, source, target.as_str())),
        Err(_) => Verdict::Memory,
    }
}
