ghost use Rattle.std.specs.Prelude.{◌≡◌, ◌+◌, ◌<◌, List, length, IfErr, IfOk, OnOk, vec_len};
ghost use Rattle.cap_package.specs.PackageRecord.{PackageRecord};
ghost use Rattle.xf_pack.specs.Ends.{AreAcceptedLibraries, IsTypedLast, TellsOf};
ghost use Rattle.xf_last.specs.Last.{BeginsLast, EachFrom};
ghost use Rattle.xf_pack.specs.Passes.{IsTypingAt};
ghost use Rattle.xf_pack.specs.Untyped.{HasNoTyping, untyped};

use crate::transforming::TransformEnd;
use jc_base::World;
use jc_flow::{FlowEnd, infer};
use jc_rules::Typing;
use std::alloc::Global;

/// The typing of each method of the last package, in the order of their numbers, and None of one without code.
pub(crate) fn type_last(
    alloc: Global,
    world: &World<'_>,
    first: u16,
) -> Result<Vec<Option<Typing>>, TransformEnd>
    requires first { BeginsLast world.now first }
    requires accepted { AreAcceptedLibraries world.now }
    ensures typings { IfOk result (λ typings. EachFrom (IsTypingAt world.now) first typings.items) }
    ensures all { IfOk result (λ typings. first + vec_len typings ≡ length world.now.methods) }
    ensures typed { OnOk result (IsTypedLast world.now) }
    ensures end { IfErr result (λ end. (packages : List PackageRecord) → TellsOf packages world.now end) }
{
    let mut typings = Vec::new(alloc);
    'methods: for number in first..world.method_count() {
        let typing = match type_method(alloc, world, number) {
            Ok(typing) => typing,
            Err(end) => return Err(untyped(number, end)),
        };
        if typings.push(typing).is_err() {
            return Err(TransformEnd::Memory);
        }
    }
    Ok(typings)
}

// The typing of a method, if it has code.
fn type_method(alloc: Global, world: &World<'_>, number: u16) -> Result<Option<Typing>, FlowEnd>
    requires { number < length world.now.methods }
    ensures typing { IfOk result (IsTypingAt world.now number) }
    ensures none { IfErr result (HasNoTyping world.now number) }
{
    if world.method(number).code_len == 0 {
        return Ok(None);
    }
    match infer(alloc, world, number) {
        Ok(typing) => match typing.grouped(alloc) {
            Ok(grouped) => Ok(Some(grouped)),
            Err(_) => Err(FlowEnd::Memory),
        },
        Err(end) => Err(end),
    }
}

// What is told of a method that got no typing.
fn untyped(method: u16, end: FlowEnd) -> TransformEnd
    ensures { result ≡ untyped method end }
{
    match end {
        FlowEnd::Memory => TransformEnd::Memory,
        _ => TransformEnd::Typing { method, end },
    }
}
