//! A command on the package of one folder: its loads, and what it does with the package.
ghost use Rattle.cap_package.specs.StandsFor.{StandsFor};
ghost use Rattle.capcheck_core.specs.Pack.{IsOfFolder};
ghost use Rattle.capcheck_core.specs.OverPackage.{OwnOne, OverPackage, GoesOverOne};
ghost use Rattle.std.specs.Prelude.{IfOk, IfErr, string_bytes};
ghost use Rattle.cap_bare.specs.BareFile.{IsVerifiable};
ghost use Rattle.capcheck_core.specs.MethodFile.{IsMethodFile, RefusesFile};
ghost use Rattle.cap_listing.specs.Methods.{methods_of};
ghost use Rattle.cap_listing.specs.Text.{Lists};

use crate::packages::{PackagesStop, load_files, read_package};
use crate::verdict::Verdict;
use cap_bare::{BareMethod, bare_method};
use cap_bytes::Part;
use cap_files::Folder;
use cap_frame::frame;
use cap_listing::listing;
use cap_package::{PackFault, Package, Parts};
use cap_text::component_table;
use std::alloc::{AllocError, Global};

/// What a command does with the package of one folder, with the command's operands.
pub trait PackageStep {
    /// What the step answers, and makes of the folders, by the parts and the package that they stand for.
    ghost own: { Self → OwnOne };

    /// Takes the step.
    fn take<F: Folder>(
        &self,
        alloc: Global,
        parts: &Parts<'_>,
        read: &Package<'_, '_>,
        folder: &mut F,
    ) -> Verdict
        requires stands { StandsFor parts.now read.now }
        requires loaded { IsOfFolder parts.now }
        ensures { own self.now parts.now read.now (F.folders folder.old) (F.folders folder.new) result };
}

/// Loads the package of a folder, and takes the command's step on it.
pub(crate) fn over_package<S: PackageStep, F: Folder>(
    alloc: Global,
    step: &S,
    dir: &str,
    folder: &mut F,
) -> Verdict
    ensures { OverPackage (S.own step.now) dir.now (F.folders folder.old) (F.folders folder.new) result }
{
    match on_package(alloc, step, dir, folder) {
        Ok(verdict) => verdict,
        Err(stop) => stop.verdict(alloc),
    }
}

// The verdict of the step, or why the package was not loaded.
fn on_package<S: PackageStep, F: Folder>(
    alloc: Global,
    step: &S,
    dir: &str,
    folder: &mut F,
) -> Result<Verdict, PackagesStop>
    ensures { GoesOverOne (S.own step.now) dir.now (F.folders folder.old) (F.folders folder.new) result }
{
    let files = load_files(alloc, folder, dir, 0)?;
    let parts = files.lend(alloc)?;
    let read = read_package(&parts, 0)?;
    Ok(step.take(alloc, &parts, &read, folder))
}

/// The step of `show`: it prints the component table of the package.
#[derive(Clone, Copy)]
pub(crate) struct ShowStep;

impl PackageStep for ShowStep {
    ghost use Rattle.capcheck_core.specs.Show.{ShowsTable};

    ghost own = { λ _. ShowsTable };

    fn take<F: Folder>(
        &self,
        alloc: Global,
        _parts: &Parts<'_>,
        read: &Package<'_, '_>,
        _folder: &mut F,
    ) -> Verdict {
        Verdict::done(component_table(alloc, read))
    }
}

/// The Method component.
pub const METHOD: Part = Part(7);

/// The bare method that a file of the Method component holds, or the first item that breaks it.
pub fn method_file(file: &[u8]) -> Result<BareMethod<'_>, PackFault>
    ensures found { IfOk result (λ m. IsMethodFile file.entry.now m.bare m.code.bytes.now) }
    ensures verifiable { IfOk result (λ m. IsVerifiable m) }
    ensures fault { IfErr result (λ f. RefusesFile file.entry.now f) }
{
    bare_method(frame(file, METHOD)?)
}

/// The step of `list`: it prints the listing of the package's methods.
#[derive(Clone, Copy)]
pub(crate) struct ListStep;

impl PackageStep for ListStep {
    ghost use Rattle.capcheck_core.specs.Listed.{ListsMethods};

    ghost own = { λ _. ListsMethods };

    fn take<F: Folder>(
        &self,
        alloc: Global,
        _parts: &Parts<'_>,
        read: &Package<'_, '_>,
        _folder: &mut F,
    ) -> Verdict {
        Verdict::done(listed(alloc, read))
    }
}

// The listing of a package's methods as a text.
#[tactic(auto, using(crate::proofs::Verdicts::ascii_is_utf8))]
fn listed(alloc: Global, read: &Package<'_, '_>) -> Result<String, AllocError>
    ensures { IfOk result (λ text. Lists (methods_of read.now) (string_bytes text)) }
{
    match String::from_utf8(listing(alloc, read)?) {
        Ok(text) => Ok(text),
        Err(_) => unreachable!(),
    }
}
