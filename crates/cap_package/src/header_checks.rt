ghost use Rattle.std.specs.Prelude.{◌≡◌, IfSome, IfNone, option_map};
ghost use Rattle.cap_method.specs.MethodFormat.{Header};
ghost use Rattle.cap_method.specs.MethodPart.{header_seen, HeaderAt};
ghost use Rattle.cap_desc.specs.MemberRecords.{method_seen};
ghost use Rattle.cap_desc.specs.MembersLeft.{methods_but_left};
ghost use Rattle.cap_components.specs.Order.{least_of, refused};
ghost use Rattle.cap_components.specs.Descriptions.{description};
ghost use Rattle.cap_package.specs.HeaderChecks.{header_in, registers_fault, length_fault, arguments_fault, abstract_fault};

use crate::count_checks::differ;
use cap_components::{CountKind, PackFault, argument_words, refuse};
use cap_desc::{DescPart, MethodInfo, MethodsBut};
use cap_method::{MethodHeader, MethodPart};
use first_fault::least_from;

/// The header of a method, where its bytes reach.
#[tactic(auto, using(crate::proofs::HeaderKnown::header_known))]
#[inline(always)]
pub fn header(methods: &MethodPart<'_>, offset: u16) -> Option<MethodHeader>
    ensures value { option_map header_seen result ≡ header_in methods.now.info.bytes.now offset }
    ensures found { IfSome result (λ h. HeaderAt methods.now.info.bytes.now offset (header_seen h)) }
    ensures none { IfNone result ((h : Header) → HeaderAt methods.now.info.bytes.now offset h → ⊥) }
{
    methods.header(offset)
}

#[tactic(auto, unfolding(crate::specs::HeaderChecks::registers_fault))]
fn registers_fault(methods: &MethodPart<'_>, method: &MethodInfo) -> Option<PackFault>
    ensures { result ≡ registers_fault methods.now.info.bytes.now (method_seen method.now) }
{
    let header = header(methods, method.method_offset)?;
    let registers = header.nargs as u16 + header.max_locals as u16;
    (registers > 255).then_some(PackFault::TooManyRegisters(method.method_offset, registers))
}

/// No described method has more than 255 registers.
#[tactic(auto, using(first_fault::proofs::LeastFound::least_by))]
pub(crate) fn registers_few(
    methods: &MethodPart<'_>,
    described: MethodsBut<'_, '_>,
) -> Result<(), PackFault>
    ensures { result ≡ refused (least_of (registers_fault methods.now.info.bytes.now) (methods_but_left described.entry)) }
{
    refuse(least_from(None, described, |method| registers_fault(methods, &method)))
}

#[tactic(auto, unfolding(crate::specs::HeaderChecks::length_fault))]
fn length_fault(methods: &MethodPart<'_>, method: &MethodInfo) -> Option<PackFault>
    ensures { result ≡ length_fault methods.now.info.bytes.now (method_seen method.now) }
{
    let header = header(methods, method.method_offset)?;
    let count = method.bytecode_count;
    let wrong = !header.flags.is_abstract() && (count == 0 || count > 32767);
    wrong.then_some(PackFault::MethodLength(method.method_offset, count))
}

/// Each described method with code has 1 to 32,767 bytes of it.
#[tactic(auto, using(first_fault::proofs::LeastFound::least_by))]
pub(crate) fn lengths_fit(
    methods: &MethodPart<'_>,
    described: MethodsBut<'_, '_>,
) -> Result<(), PackFault>
    ensures { result ≡ refused (least_of (length_fault methods.now.info.bytes.now) (methods_but_left described.entry)) }
{
    refuse(least_from(None, described, |method| length_fault(methods, &method)))
}

#[tactic(auto, unfolding(crate::specs::HeaderChecks::arguments_fault, crate::specs::CountChecks::differ))]
fn arguments_fault(
    methods: &MethodPart<'_>,
    descriptor: &DescPart<'_>,
    method: &MethodInfo,
) -> Option<PackFault>
    ensures { result ≡ arguments_fault methods.now.info.bytes.now (description descriptor.now) (method_seen method.now) }
{
    let header = header(methods, method.method_offset)?;
    let words = argument_words(descriptor, method.type_offset)?;
    let receiver = if method.flags.is_static() { 0 } else { 1 };
    let found = (words + receiver) as u32;
    differ(CountKind::ArgumentWords, header.nargs as u32, found)
}

/// Each described method takes as many words as its type descriptor tells.
#[tactic(auto, using(first_fault::proofs::LeastFound::least_by))]
pub(crate) fn arguments_agree(
    methods: &MethodPart<'_>,
    descriptor: &DescPart<'_>,
    described: MethodsBut<'_, '_>,
) -> Result<(), PackFault>
    ensures { result
        ≡ refused
        (least_of
        (arguments_fault methods.now.info.bytes.now (description descriptor.now))
        (methods_but_left described.entry)) }
{
    refuse(least_from(None, described, |method| {
        arguments_fault(methods, descriptor, &method)
    }))
}

#[tactic(auto, unfolding(crate::specs::HeaderChecks::abstract_fault, crate::specs::CountChecks::differ))]
fn abstract_fault(methods: &MethodPart<'_>, method: &MethodInfo) -> Option<PackFault>
    ensures { result ≡ abstract_fault methods.now.info.bytes.now (method_seen method.now) }
{
    let header = header(methods, method.method_offset)?;
    if !header.flags.is_abstract() {
        return None;
    }
    differ(CountKind::AbstractCode, method.bytecode_count as u32, 0)
}

/// No abstract method has code.
#[tactic(auto, using(first_fault::proofs::LeastFound::least_by))]
pub(crate) fn abstract_without_code(
    methods: &MethodPart<'_>,
    described: MethodsBut<'_, '_>,
) -> Result<(), PackFault>
    ensures { result ≡ refused (least_of (abstract_fault methods.now.info.bytes.now) (methods_but_left described.entry)) }
{
    refuse(least_from(None, described, |method| abstract_fault(methods, &method)))
}
