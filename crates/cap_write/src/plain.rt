ghost use Rattle.std.specs.Prelude.{◌≡◌, ◌≤◌, length, map, ◌++◌, drop, OnOk, IfOk};
ghost use Rattle.cap_laying.specs.NewPlaces.{IsSmallBody};
ghost use Rattle.cap_write.specs.Described.{body_seen, member_seen, seen_body, first_of_them, seen_classes, seen_method, seen_methods};
ghost use Rattle.cap_write.specs.PlainComponent.{AreSmallMembers, plain_component, plain_member};
ghost use Rattle.offset_set.specs.Bits.{holds};
ghost use Rattle.cap_desc.specs.Descriptors.{descriptor_seen};
ghost use Rattle.cap_desc.specs.MemberLists.{methods_left};
ghost use Rattle.cap_desc.specs.MemberRecords.{method_seen};
ghost use Rattle.law_package.specs.Written.{lead_bytes};
ghost use Rattle.cap_write.specs.SmallStacks.{BodyHasSmallStack, HaveSmallStacks};

use cap_bytes::View;
use cap_desc::{DescMethods, DescPart, MethodInfo};
use cap_laying::{Body, WrittenMember};
use jc_decode::{Laid, plain_code_size};
use offset_set::Offsets;
use std::alloc::{AllocError, Global};

/// The plain size of the info of a Method component: a byte, 8 bytes for each handler, a header of 4 bytes and the plain
/// size of its code for each method with code, and its header for each other.
pub(crate) fn plain_component(members: &[WrittenMember<'_>]) -> u32
    requires small { AreSmallMembers members.now }
    requires few { length members.now ≤ 5461 }
    ensures { result ≡ plain_component (map member_seen members.now) }
{
    let mut size = 1;
    'members: for member in members {
        size += plain_member(member.body);
    }
    size
}

/// That of one method with its handlers.
fn plain_member(body: Body<'_>) -> u32
    requires { IsSmallBody body }
    ensures size { result ≡ plain_member (body_seen body.entry) }
    ensures most { result ≤ 100345 }
{
    match body {
        Body::Code(laid) => {
            let code = plain_code_size(View::of(laid.code.as_slice()));
            8 * laid.handlers.len() as u32 + (4 + code)
        }
        Body::Header(header) => header.len() as u32,
    }
}

/// The described methods of classes, in the Descriptor's order: each as it is written with its element of the
/// list, which has one for each method of an interface too.
#[tactic(auto, using(crate::proofs::Putting::one_class, crate::proofs::Putting::no_method))]
pub(crate) fn members<'a>(
    alloc: Global,
    descriptor: &DescPart<'_>,
    interfaces: &Offsets,
    info: View<'a>,
    laid: &'a [Option<Laid>],
) -> Result<Vec<WrittenMember<'a>>, AllocError>
    ensures seen { IfOk result (λ ms. map member_seen ms.items
        ≡ seen_classes (holds interfaces.now) info.entry.bytes.now (descriptor_seen descriptor.now).classes laid.now) }
    ensures stacks { IfOk result (λ ms. HaveSmallStacks ms.items) }
{
    let mut out = Vec::new(alloc);
    let mut rest = laid;
    'classes: for class in descriptor.classes() {
        let own = rest;
        rest = after(rest, class.method_count() as usize);
        if !interfaces.has(class.class_ref()) {
            put_methods(class.methods(), info, own, &mut out)?;
        }
    }
    Ok(out)
}

/// What is left of a list after so many elements.
fn after<'a>(laid: &'a [Option<Laid>], count: usize) -> &'a [Option<Laid>]
    ensures { result.now ≡ drop count laid.now }
{
    laid.get(count..).unwrap_or(&[])
}

/// Appends the methods of a class.
#[tactic(auto, using(crate::proofs::Putting::one_more))]
fn put_methods<'a>(
    methods: DescMethods<'_>,
    info: View<'a>,
    laid: &'a [Option<Laid>],
    out: &mut Vec<WrittenMember<'a>>,
) -> Result<(), AllocError>
    requires stacks { HaveSmallStacks out.old.items }
    ensures seen { OnOk result (map member_seen out.new.items
        ≡ map member_seen out.old.items ++ seen_methods info.entry.bytes.now (methods_left methods.entry) laid.now) }
    ensures stacks { OnOk result (HaveSmallStacks out.new.items) }
{
    let mut rest = laid;
    'methods: for method in methods {
        out.push(member(&method, info, rest))?;
        rest = after(rest, 1);
    }
    Ok(())
}

/// A method with the first element of the list.
fn member<'a>(method: &MethodInfo, info: View<'a>, laid: &'a [Option<Laid>]) -> WrittenMember<'a>
    ensures seen { member_seen result ≡ seen_method info.entry.bytes.now (method_seen method.now) (first_of_them laid.now) }
    ensures stack { BodyHasSmallStack result.body }
{
    WrittenMember {
        offset: method.method_offset,
        handlers_from: (method.handler_count != 0).then_some(method.handler_index),
        body: body(info, method.method_offset, laid),
    }
}

/// What it is written as.
fn body<'a>(info: View<'a>, offset: u16, laid: &'a [Option<Laid>]) -> Body<'a>
    ensures seen { body_seen result ≡ seen_body info.entry.bytes.now offset (first_of_them laid.now) }
    ensures stack { BodyHasSmallStack result }
{
    match laid.first() {
        Some(Some(laid)) => {
            // The number has one byte: a fact for proofs, and no work.
            let _stack = laid.max_stack;
            Body::Code(laid)
        }
        _ => Body::Header(lead(info, offset)),
    }
}

/// The bytes of the header that stands at an offset.
#[tactic(auto, unfolding(law_package::specs::Written::lead_bytes))]
fn lead<'a>(info: View<'a>, offset: u16) -> &'a [u8]
    ensures { result.now ≡ lead_bytes info.entry.bytes.now offset }
{
    let from = offset as usize;
    let size = match info.u1(offset as u32) {
        Some(first) if first >= 0x80 => 4,
        _ => 2,
    };
    let bytes = info.bytes;
    if from + size <= bytes.len() {
        &bytes[from..from + size]
    } else if from <= bytes.len() {
        &bytes[from..]
    } else {
        &[]
    }
}
