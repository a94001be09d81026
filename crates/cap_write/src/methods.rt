ghost use Rattle.std.specs.Prelude.{◌≤◌, length, IfOk, IfErr};
ghost use Rattle.cap_laying.specs.Members.{MayBeWritten};
ghost use Rattle.cap_laying.specs.WrittenSeen.{IsWrittenAs};
ghost use Rattle.cap_write.specs.Condition.{MayBeLaid};
ghost use Rattle.cap_write.specs.SmallStacks.{HaveSmallStacks};
ghost use Rattle.cap_write.specs.WrittenMethods.{AreMembersFor, TellsLong};

use crate::files::WriteEnd;
use crate::plain::{members, plain_component};
use cap_laying::{Written, WrittenMember};
use cap_package::{Package, interface_offsets};
use jc_decode::Laid;
use std::alloc::{AllocError, Global};

/// The described methods of a package, each with its element of the list, which has one for each method record of the
/// Descriptor.
pub(crate) fn members_of<'a>(
    alloc: Global,
    package: &Package<'_, 'a>,
    laid: &'a [Option<Laid>],
) -> Result<Vec<WrittenMember<'a>>, AllocError>
    requires { MayBeLaid «package».now laid.now }
    ensures are { IfOk result (λ ms. AreMembersFor «package».now laid.now ms.items) }
    ensures stacks { IfOk result (λ ms. HaveSmallStacks ms.items) }
{
    let _parts = package.parts();
    let methods = package.methods();
    let interfaces = interface_offsets(&package.classes());
    let descriptor = package.descriptor();
    let members = members(alloc, &descriptor, &interfaces, methods.info(), laid)?;
    Ok(members)
}

/// Writes the described methods of a package anew.
pub(crate) fn write_methods(
    alloc: Global,
    package: &Package<'_, '_>,
    members: &[WrittenMember<'_>],
) -> Result<Written, WriteEnd>
    requires may { MayBeWritten (length «package».now.methods.info) members.now }
    requires few { length members.now ≤ 5461 }
    ensures ok { IfOk result (IsWrittenAs (length «package».now.methods.info) (length «package».now.methods.handlers) members.now) }
    ensures long { IfErr result (TellsLong (length «package».now.methods.info) (length «package».now.methods.handlers) members.now) }
{
    let methods = package.methods();
    let size = methods.info().bytes.len();
    let room = methods.handler_count() as usize;
    match cap_laying::write_methods(alloc, size, room, members)? {
        Some(written) => Ok(written),
        None => Err(WriteEnd::PartLong(plain_component(members))),
    }
}
