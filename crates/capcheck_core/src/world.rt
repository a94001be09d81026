ghost use Rattle.jc_link.specs.World.{IsLinked};
ghost use Rattle.capcheck_core.specs.LentCard.{IsSameCard, words_of};
ghost use Rattle.capcheck_core.specs.Outside.{outside};
ghost use Rattle.capcheck_core.specs.Run.{HasLengths};
ghost use Rattle.capcheck_core.specs.World.{Own, IsUnlinkedBy, OverWorld, OverPackages};
ghost use Rattle.std.specs.Prelude.{◌≤◌, ◌+◌, ◌∷◌, length};
ghost use Rattle.cap_files.specs.WordsLeft.{words_left};
ghost use Rattle.capcheck_core.specs.OverFolders.{OverFolders, OverPlaces};
ghost use Rattle.capcheck_core.specs.OverLoads.{GivenAfterFirst, GoesOver, GoesOverAll};
ghost use Rattle.capcheck_core.specs.Packages.{ArePartsAt};
ghost use Rattle.capcheck_core.specs.Place.{places, source_before};

use crate::carding::Card;
use crate::load::{Rest, Source, source_of};
use crate::packages::{MOST, PackagesStop, count_of, load_files, read_package, roles_beside};
use crate::stream::{load_stream, parts_in};
use crate::verdict::Verdict;
use cap_files::{Folder, WordsIter};
use cap_package::{Packages, Parts};
use cap_text::not_linked;
use jc_base::World;
use jc_link::{LinkEnd, link};
use std::alloc::Global;

/// The last step of a command over a world, with the command's operands.
pub trait LastStep {
    /// What the step answers, and makes of the outside, by the packages, the roles and the world that they make.
    ghost own: { Self → Own };

    /// Takes the step. It is handed all that a command may change.
    fn take<F: Folder>(
        &self,
        alloc: Global,
        packages: &Packages<'_, '_>,
        roles: [u8; 8],
        world: &World<'_>,
        folder: &mut F,
        card: &mut Card<'_>,
    ) -> Verdict
        requires lengths { HasLengths (words_of card.old) }
        requires linked { IsLinked packages.now roles world.now }
        ensures does { own self.now packages.now roles world.now
            (outside (F.folders folder.old) (words_of card.old))
            (outside (F.folders folder.new) (words_of card.new)) result }
        ensures same { IsSameCard card.old card.new };
}

/// A command over the packages in folders, each by its components: it loads them with the roles, links them, and takes the
/// command's own last step.
pub(crate) fn over_folders<S: LastStep, F: Folder>(
    alloc: Global,
    step: &S,
    dirs: WordsIter<'_>,
    folder: &mut F,
    card: &mut Card<'_>,
) -> Verdict
    requires { HasLengths (words_of card.old) }
    ensures answers { OverFolders (OverWorld (S.own step.now)) (words_left dirs.entry)
        (outside (F.folders folder.old) (words_of card.old))
        (outside (F.folders folder.new) (words_of card.new)) result }
    ensures same { IsSameCard card.old card.new }
{
    over_places(alloc, step, Source::Components, dirs, folder, card)
}

/// The same where the parts of the last package are had as `last` says.
pub(crate) fn over_places<S: LastStep, F: Folder>(
    alloc: Global,
    step: &S,
    last: Source,
    dirs: WordsIter<'_>,
    folder: &mut F,
    card: &mut Card<'_>,
) -> Verdict
    requires { HasLengths (words_of card.old) }
    ensures answers { OverPlaces (OverWorld (S.own step.now)) (places last (words_left dirs.entry))
        (outside (F.folders folder.old) (words_of card.old))
        (outside (F.folders folder.new) (words_of card.new)) result }
    ensures same { IsSameCard card.old card.new }
{
    match over_all(alloc, step, last, dirs, folder, card) {
        Ok(verdict) => verdict,
        Err(stop) => stop.verdict(alloc),
    }
}

// The verdict over the packages in all folders, or why they were not loaded: more than 16 folders are not.
fn over_all<S: LastStep, F: Folder>(
    alloc: Global,
    step: &S,
    last: Source,
    dirs: WordsIter<'_>,
    folder: &mut F,
    card: &mut Card<'_>,
) -> Result<Verdict, PackagesStop>
    requires { HasLengths (words_of card.old) }
    ensures answers { GoesOverAll (S.own step.now) (places last (words_left dirs.entry))
        (outside (F.folders folder.old) (words_of card.old))
        (outside (F.folders folder.new) (words_of card.new)) result }
    ensures same { IsSameCard card.old card.new }
{
    let count = count_of(dirs);
    let mut others = dirs;
    match others.next() {
        Some(dir) if count <= MOST => {
            let rest = Rest {
                dir,
                others,
                last,
                roles: None,
            };
            over_rest(alloc, step, rest, Packages::new(alloc), folder, card)
        }
        _ => Err(PackagesStop::TooMany(count)),
    }
}

// The verdict over the packages so far and those in the folders that are left. Each package is held while the next folder
// is loaded.
#[cycle(folders)]
fn over_rest<'k, 'c, S: LastStep, F: Folder>(
    alloc: Global,
    step: &S,
    rest: Rest<'_>,
    packages: Packages<'_, '_>,
    folder: &mut F,
    card: &'k mut Card<'c>,
) -> Result<Verdict, PackagesStop>
    requires few { length packages + length (words_left rest.others) ≤ 15 }
    requires begun { GivenAfterFirst rest.roles (length packages) }
    requires lengths { HasLengths (words_of card.old) }
    ensures answers { GoesOver (S.own step.now) (places rest.entry.last (rest.entry.dir.now ∷ words_left rest.entry.others))
        packages.entry rest.entry.roles
        (outside (F.folders folder.old) (words_of card.old))
        (outside (F.folders folder.new) (words_of card.new)) result }
    ensures same { IsSameCard card.old card.new }
{
    let number = packages.len() as u16;
    match source_of(rest.last, rest.others) {
        Source::Components => {
            let files = load_files(alloc, folder, rest.dir, number)?;
            let parts = files.lend(alloc)?;
            over_parts(alloc, step, rest, packages, &parts, folder, card)
        }
        Source::LoadFile => {
            let loader = load_stream(alloc, folder, rest.dir, number)?;
            let parts = parts_in(alloc, &loader, number)?;
            over_parts(alloc, step, rest, packages, &parts, folder, card)
        }
    }
}

// The same where the parts of the next package are loaded.
#[cycle(folders)]
fn over_parts<'k, 'c, 'p, 'a, S: LastStep, F: Folder>(
    alloc: Global,
    step: &S,
    rest: Rest<'_>,
    packages: Packages<'p, 'a>,
    parts: &'p Parts<'a>,
    folder: &mut F,
    card: &'k mut Card<'c>,
) -> Result<Verdict, PackagesStop>
    requires few { length packages + length (words_left rest.others) ≤ 15 }
    requires begun { GivenAfterFirst rest.roles (length packages) }
    requires parts { ArePartsAt (F.folders folder.old) (source_before rest.last (words_left rest.others)) rest.dir.now parts.now }
    requires lengths { HasLengths (words_of card.old) }
    ensures answers { GoesOver (S.own step.now) (places rest.entry.last (rest.entry.dir.now ∷ words_left rest.entry.others))
        packages.entry rest.entry.roles
        (outside (F.folders folder.old) (words_of card.old))
        (outside (F.folders folder.new) (words_of card.new)) result }
    ensures same { IsSameCard card.old card.new }
{
    let read = read_package(parts, packages.len() as u16)?;
    let roles = roles_beside(alloc, folder, rest.dir, rest.roles)?;
    let mut packages = packages;
    packages.push(read)?;
    let mut others = rest.others;
    match others.next() {
        Some(dir) => {
            let left = Rest {
                dir,
                others,
                last: rest.last,
                roles: Some(roles),
            };
            over_rest(alloc, step, left, packages, folder, card)
        }
        None => Ok(over_packages(alloc, step, &packages, roles, folder, card)),
    }
}

// The verdict over all packages: they are linked, and the command's last step is taken.
fn over_packages<S: LastStep, F: Folder>(
    alloc: Global,
    step: &S,
    packages: &Packages<'_, '_>,
    roles: [u8; 8],
    folder: &mut F,
    card: &mut Card<'_>,
) -> Verdict
    requires { HasLengths (words_of card.old) }
    ensures answers { OverPackages (S.own step.now) packages.now roles
        (outside (F.folders folder.old) (words_of card.old))
        (outside (F.folders folder.new) (words_of card.new)) result }
    ensures same { IsSameCard card.old card.new }
{
    match link(alloc, packages, roles) {
        Ok(world) => step.take(alloc, packages, roles, &world, folder, card),
        Err(end) => unlinked(alloc, end),
    }
}

// The verdict where there is no world.
fn unlinked(alloc: Global, end: LinkEnd) -> Verdict
    ensures { IsUnlinkedBy end result }
{
    match end {
        LinkEnd::Fault(fault) => Verdict::malformed(not_linked(alloc, fault)),
        LinkEnd::Memory => Verdict::Memory,
    }
}
