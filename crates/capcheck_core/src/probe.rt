ghost use Rattle.cap_bare.specs.BareFile.{IsVerifiable};
ghost use Rattle.cap_bare.specs.Typing.{BareTyping};
ghost use Rattle.cap_text.specs.Probe.{probe_request};
ghost use Rattle.capcheck_core.specs.Probe.{ProbesMethod, ProbesFile, Probes};

use crate::package_step::{METHOD, method_file};
use crate::running::shorts;
use crate::verdict::Verdict;
use cap_bare::{BareMethod, bare_run, bare_verify};
use cap_files::{Folder, LoadEnd};
use cap_package::PackFault;
use cap_text::{Probe, bare_ending, malformed, not_started, refused_bare};
use std::alloc::Global;

/// Verifies and runs the bare method of a folder.
pub fn probe<F: Folder>(alloc: Global, folder: &mut F, probe: &Probe<'_>) -> Verdict
    ensures answers { Probes (probe_request probe.now) (F.folders folder.old) (F.folders folder.new) result }
{
    let mut file = Vec::new(alloc);
    match folder.load(alloc, probe.dir, METHOD, &mut file) {
        Ok(true) => probe_file(alloc, &file, probe),
        Ok(false) => Verdict::malformed(malformed(alloc, 0, PackFault::MissingPart(METHOD.0))),
        Err(LoadEnd::TooLong) => Verdict::malformed(malformed(
            alloc,
            0,
            PackFault::PartTooLong(METHOD.0),
        )),
        Err(LoadEnd::Failed) => Verdict::ReadFault,
        Err(LoadEnd::Memory) => Verdict::Memory,
    }
}

fn probe_file(alloc: Global, file: &[u8], probe: &Probe<'_>) -> Verdict
    ensures { ProbesFile file.now (probe_request probe.now) result }
{
    match method_file(file) {
        Ok(method) => verify(alloc, method, probe),
        Err(fault) => Verdict::malformed(malformed(alloc, 0, fault)),
    }
}

fn verify(alloc: Global, method: BareMethod<'_>, probe: &Probe<'_>) -> Verdict
    requires { IsVerifiable method }
    ensures { ProbesMethod method.entry.bare method.entry.code.bytes.now (probe_request probe.now) result }
{
    match bare_verify(method.code, method.bare) {
        Ok(()) => start(alloc, method, probe),
        Err(fault) => Verdict::refused(refused_bare(alloc, fault)),
    }
}

fn start(alloc: Global, method: BareMethod<'_>, probe: &Probe<'_>) -> Verdict
    requires verifiable { IsVerifiable method }
    requires typed { BareTyping method.code.bytes.now method.bare }
    ensures { ProbesMethod method.entry.bare method.entry.code.bytes.now (probe_request probe.now) result }
{
    match shorts(&probe.args, method.bare.nargs) {
        Ok(args) => {
            let end = bare_run(method.code, method.bare, &args, u64::from(probe.budget));
            Verdict::done(bare_ending(alloc, end))
        }
        Err(fault) => Verdict::malformed(not_started(alloc, fault)),
    }
}
