//! `asm`: a package with the methods of the listing beside it.
ghost use Rattle.std.specs.Prelude.{◌≤◌, length};
ghost use Rattle.std.specs.Option.{option_copied};
ghost use Rattle.cap_text.specs.OutOfDir.{out_of_dir_request};
ghost use Rattle.capcheck_core.specs.Assemble.{AssemblesBeside, IsAssembled, IsUnassembledBy, PutsMethods};

use crate::package_step::PackageStep;
use crate::packages::{find_roles, slice_of};
use crate::storing::{in_order, store_parts};
use crate::stream::load_wanted;
use crate::verdict::Verdict;
use cap_bytes::Part;
use cap_files::Folder;
use cap_listing::{AsmEnd, Listed, assemble, place};
use cap_package::{OwnedParts, Package, Parts};
use cap_text::{OutOfDir, assembled, limit_part, not_assembled};
use cap_write::{WriteEnd, write_package};
use std::alloc::Global;

/// The file of a listing.
const LISTING: Part = Part(14);

/// The step of `asm`: it stores the package with the methods of the listing beside it.
#[derive(Clone, Copy)]
pub(crate) struct AsmStep<'a> {
    pub asked: &'a OutOfDir<'a>,
}

impl PackageStep for AsmStep<'_> {
    ghost use Rattle.cap_text.specs.OutOfDir.{out_of_dir_request};
    ghost use Rattle.capcheck_core.specs.Assemble.{AssemblesPackage};

    ghost own = { λ s. AssemblesPackage (out_of_dir_request s.asked.now) };

    #[tactic(auto, using(crate::proofs::OnPackages::stopped_at_file))]
    fn take<F: Folder>(
        &self,
        alloc: Global,
        _parts: &Parts<'_>,
        read: &Package<'_, '_>,
        folder: &mut F,
    ) -> Verdict {
        match load_wanted(alloc, folder, self.asked.dir, LISTING, 0) {
            Ok(text) => assemble_text(alloc, self.asked, read, &text, folder),
            Err(stop) => stop.verdict(alloc),
        }
    }
}

// Loads the roles, where they are there, and stores the package with the methods of which a text is the listing.
#[tactic(auto, using(crate::proofs::OnPackages::stopped_at_file, crate::proofs::Assembles::not_listing))]
fn assemble_text<F: Folder>(
    alloc: Global,
    asked: &OutOfDir<'_>,
    read: &Package<'_, '_>,
    text: &[u8],
    folder: &mut F,
) -> Verdict
    requires { length text.now ≤ 65538 }
    ensures { AssemblesBeside (out_of_dir_request asked.now) read.now text.now (F.folders folder.old) (F.folders folder.new) result }
{
    match find_roles(alloc, folder, asked.dir) {
        Ok(roles) => match assemble(alloc, text) {
            Ok(methods) => {
                put_methods(alloc, asked.out, read, &methods, slice_of(&roles), folder)
            }
            Err(end) => unassembled(alloc, end),
        },
        Err(stop) => stop.verdict(alloc),
    }
}

// The verdict where a text is no listing, or its methods do not fit the package.
fn unassembled(alloc: Global, end: AsmEnd) -> Verdict
    ensures { IsUnassembledBy end result }
{
    match end {
        AsmEnd::Fault(fault) => Verdict::malformed(not_assembled(alloc, fault)),
        AsmEnd::Memory => Verdict::Memory,
    }
}

// Stores the package with these methods.
#[tactic(auto, using(crate::proofs::Assembles::misfits))]
fn put_methods<F: Folder>(
    alloc: Global,
    out: &str,
    read: &Package<'_, '_>,
    methods: &Listed,
    roles: Option<&[u8]>,
    folder: &mut F,
) -> Verdict
    ensures { PutsMethods read.now methods.now (option_copied roles.entry) out.now (F.folders folder.old) (F.folders folder.new) result }
{
    match place(alloc, read, methods) {
        Ok(laid) => match write_package(alloc, read, &laid) {
            Ok(parts) => store_assembled(alloc, out, read, methods, &parts, roles, folder),
            Err(WriteEnd::PartLong(size)) => Verdict::limit(limit_part(alloc, size)),
            Err(WriteEnd::Memory) => Verdict::Memory,
        },
        Err(end) => unassembled(alloc, end),
    }
}

// Stores the parts, which stand for the package with these methods.
fn store_assembled<F: Folder>(
    alloc: Global,
    out: &str,
    _read: &Package<'_, '_>,
    methods: &Listed,
    parts: &OwnedParts,
    roles: Option<&[u8]>,
    folder: &mut F,
) -> Verdict
    requires { IsAssembled _read.now methods.now parts.now }
    ensures { PutsMethods _read.now methods.now (option_copied roles.entry) out.now (F.folders folder.old) (F.folders folder.new) result }
{
    let Ok(stores) = in_order(alloc, parts, roles) else {
        return Verdict::Memory;
    };
    let Ok(text) = assembled(alloc, methods.len()) else {
        return Verdict::Memory;
    };
    match store_parts(folder, out, &stores) {
        Ok(()) => Verdict::Done(text),
        Err(_) => Verdict::StoreFault,
    }
}
