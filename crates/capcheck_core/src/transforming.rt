ghost use Rattle.std.specs.Prelude.{◌≡◌, IfOk, string_bytes};
ghost use Rattle.std.specs.Option.{option_copied};
ghost use Rattle.xf_pack.specs.Ends.{TellsOf};
ghost use Rattle.xf_pack.specs.Transformed.{IsTransformed};
ghost use Rattle.capcheck_core.specs.Transform.{roles_beside, limit_line, StopsBefore, TransformsIn};
ghost use Rattle.capcheck_core.specs.Typed.{count_of_last};

use crate::carding::Card;
use crate::storing::{in_order, store_parts};
use crate::typing::{is_of_last, number_of};
use crate::verdict::Verdict;
use crate::world::LastStep;
use cap_files::Folder;
use cap_package::{OwnedParts, Packages};
use cap_text::{
    MethodNumber, OutOfDirs, limit_code, limit_part, limit_registers, limit_stack, not_linked,
    refused_card, refused_flow, transformed,
};
use jc_base::World;
use std::alloc::{AllocError, Global};
use xf_pack::{MethodLimit, TransformEnd, transform_linked};

/// The last step of `transform`: it stores the last package in the form that a verifier on the card accepts.
#[derive(Clone, Copy)]
pub(crate) struct TransformStep<'a> {
    pub asked: &'a OutOfDirs<'a>,
}

impl LastStep for TransformStep<'_> {
    ghost use Rattle.cap_text.specs.OutOfDirs.{out_of_dirs_request};
    ghost use Rattle.capcheck_core.specs.Transform.{TransformsWorld};

    ghost own = { λ s. TransformsWorld (out_of_dirs_request s.asked.now) };

    fn take<F: Folder>(
        &self,
        alloc: Global,
        packages: &Packages<'_, '_>,
        roles: [u8; 8],
        world: &World<'_>,
        folder: &mut F,
        _card: &mut Card<'_>,
    ) -> Verdict {
        let out = self.asked.out;
        match transform_linked(alloc, packages, roles, world) {
            Ok(parts) => store_last(alloc, out, packages, roles, world, &parts, folder),
            Err(end) => untransformed(alloc, packages, world, end),
        }
    }
}

// Stores the parts that stand for the last package. Nothing is stored before all parts and the text are made.
fn store_last<F: Folder>(
    alloc: Global,
    out: &str,
    packages: &Packages<'_, '_>,
    roles: [u8; 8],
    world: &World<'_>,
    parts: &OwnedParts,
    folder: &mut F,
) -> Verdict
    requires { IsTransformed packages.now roles world.now parts.now }
    ensures { TransformsIn packages.now roles world.now out.now (F.folders folder.old) (F.folders folder.new) result }
{
    let Ok(stores) = in_order(alloc, parts, roles_beside(packages, &roles)) else {
        return Verdict::Memory;
    };
    let Ok(text) = transformed(alloc, count_of_last(world)) else {
        return Verdict::Memory;
    };
    match store_parts(folder, out, &stores) {
        Ok(()) => Verdict::Done(text),
        Err(_) => Verdict::StoreFault,
    }
}

/// The roles, where they are stored beside the package: it is the only one.
pub(crate) fn roles_beside<'a>(packages: &Packages<'_, '_>, roles: &'a [u8; 8]) -> Option<&'a [u8]>
    ensures { option_copied result ≡ roles_beside packages.now roles.now }
{
    if packages.len() == 1 {
        Some(roles)
    } else {
        None
    }
}

/// How many methods with code the last package has.
pub(crate) fn count_of_last(world: &World<'_>) -> u16
    ensures { result ≡ count_of_last world.now }
{
    let mut count = 0u16;
    'methods: for number in 0..world.method_count() {
        count += u16::from(is_of_last(world, number));
    }
    count
}

/// The verdict where the last of the packages is not transformed. Nothing is stored.
pub(crate) fn untransformed(
    alloc: Global,
    _packages: &Packages<'_, '_>,
    world: &World<'_>,
    end: TransformEnd,
) -> Verdict
    requires { TellsOf _packages.now world.now end }
    ensures { StopsBefore _packages.now world.now result }
{
    match end {
        TransformEnd::Link(fault) => Verdict::malformed(not_linked(alloc, fault)),
        TransformEnd::Library { method, fault } => {
            Verdict::refused(refused_card(alloc, number_of(world, method), fault))
        }
        TransformEnd::Typing { method, end } => {
            Verdict::refused(refused_flow(alloc, number_of(world, method), end))
        }
        TransformEnd::Limit { method, limit } => {
            Verdict::limit(limit_of(alloc, number_of(world, method), limit))
        }
        TransformEnd::PartLong(size) => Verdict::limit(limit_part(alloc, size)),
        TransformEnd::Memory => Verdict::Memory,
    }
}

// The line for a limit that a method passes.
fn limit_of(alloc: Global, method: MethodNumber, limit: MethodLimit) -> Result<String, AllocError>
    ensures { IfOk result (λ t. string_bytes t ≡ limit_line method limit) }
{
    match limit {
        MethodLimit::Registers(count) => limit_registers(alloc, method, count),
        MethodLimit::StackLimit => limit_stack(alloc, method),
        MethodLimit::MethodLong(size) => limit_code(alloc, method, size),
    }
}
