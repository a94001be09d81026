//! `pack`: a package as a Load file.
ghost use Rattle.std.specs.Prelude.{◌≡◌, ◌≤◌, List, ℕ, length};
ghost use Rattle.std.specs.Option.{option_copied};
ghost use Rattle.cap_load.specs.LoadFile.{stream_of};
ghost use Rattle.cap_load.specs.Packing.{AreFull, IsPacked};
ghost use Rattle.cap_text.specs.OutOfDir.{out_of_dir_request};
ghost use Rattle.capcheck_core.specs.Pack.{PacksInto};

use crate::package_step::PackageStep;
use crate::packages::{find_roles, slice_of};
use crate::storing::{load_stores, store_parts};
use crate::verdict::Verdict;
use cap_files::Folder;
use cap_load::{BlocksEnd, blocks};
use cap_package::{Package, Parts};
use cap_text::{OutOfDir, limit_load, packed};
use std::alloc::Global;

/// The step of `pack`: it stores the package as a Load file.
#[derive(Clone, Copy)]
pub(crate) struct PackStep<'a> {
    pub asked: &'a OutOfDir<'a>,
}

impl PackageStep for PackStep<'_> {
    ghost use Rattle.cap_text.specs.OutOfDir.{out_of_dir_request};
    ghost use Rattle.capcheck_core.specs.Pack.{PacksPackage};

    ghost own = { λ s. PacksPackage (out_of_dir_request s.asked.now) };

    #[tactic(auto, using(crate::proofs::OnPackages::stopped_at_file))]
    fn take<F: Folder>(
        &self,
        alloc: Global,
        parts: &Parts<'_>,
        _read: &Package<'_, '_>,
        folder: &mut F,
    ) -> Verdict {
        let roles = match find_roles(alloc, folder, self.asked.dir) {
            Ok(roles) => roles,
            Err(stop) => return stop.verdict(alloc),
        };
        let out = self.asked.out;
        match blocks(alloc, parts) {
            Ok(stream) => store_packed(alloc, out, parts, &stream, slice_of(&roles), folder),
            Err(BlocksEnd::LoadLong(size)) => Verdict::limit(limit_load(alloc, size)),
            Err(BlocksEnd::Memory) => Verdict::Memory,
        }
    }
}

// Stores the bytes, which are the Load file of the components among the parts.
fn store_packed<F: Folder>(
    alloc: Global,
    out: &str,
    _parts: &Parts<'_>,
    stream: &[u8],
    roles: Option<&[u8]>,
    folder: &mut F,
) -> Verdict
    requires packed { IsPacked _parts.now stream.now }
    requires short { length stream.now ≤ 65538 }
    ensures { PacksInto _parts.now (option_copied roles.entry) out.now (F.folders folder.old) (F.folders folder.new) result }
{
    let Ok(stores) = load_stores(alloc, stream, roles) else {
        return Verdict::Memory;
    };
    let Ok(text) = packed(alloc, block_count(stream), stream.len()) else {
        return Verdict::Memory;
    };
    match store_parts(folder, out, &stores) {
        Ok(()) => Verdict::Done(text),
        Err(_) => Verdict::StoreFault,
    }
}

// How many blocks a Load file of full blocks has: each but the last takes 256 bytes, the last from 2 to 256, and the ending one.
fn block_count(stream: &[u8]) -> usize
    requires { length stream.now ≤ 65538 }
    ensures { (blocks : List (List ℕ)) → AreFull blocks → stream.now ≡ stream_of blocks → result ≡ length blocks }
{
    (stream.len() + 254) / 256
}
