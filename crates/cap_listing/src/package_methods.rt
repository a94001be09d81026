ghost use Rattle.std.specs.Prelude.{◌≡◌, ◌++◌, ◌≤◌, ◌<◌, ◌^◌, [], All, length, take, drop, map, OnOk, IfOk};
ghost use Rattle.offset_set.specs.Bits.{holds};
ghost use Rattle.cap_method.specs.MethodPart.{handlers_left, header_seen};
ghost use Rattle.cap_desc.specs.MemberRecords.{method_seen};
ghost use Rattle.cap_desc.specs.ClassRecords.{described_class_seen};
ghost use Rattle.cap_desc.specs.Descriptors.{descriptor_seen};
ghost use Rattle.cap_components.specs.MethodsSeen.{methods_seen};
ghost use Rattle.cap_package.specs.HeaderChecks.{header_in};
ghost use Rattle.cap_listing.specs.Text.{IsMethod};
ghost use Rattle.cap_listing.specs.Methods.{HasPlaces, IsCounted, IsCountedLaid, laid_handler, laid_of, listed_by, listed_from, listed_unless, listed_in, methods_of};

use crate::method::{Listed, ListedMethod};
use cap_bytes::{View, are_bytes};
use cap_components::code_start;
use cap_desc::{DescClass, DescPart, MethodInfo};
use cap_method::{HandlerEntries, HandlerInfo, MethodHeader, MethodPart};
use cap_package::{Package, header, interface_offsets};
use jc_decode::{Laid, LaidHandler, Sequence};
use offset_set::Offsets;
use std::alloc::{AllocError, Global};

/// The methods of a package that have code, in the order of the Descriptor.
pub fn listed_methods(alloc: Global, package: &Package<'_, '_>) -> Result<Listed, AllocError>
    ensures value { IfOk result (λ methods. methods ≡ methods_of «package».now) }
    ensures methods { IfOk result (All IsMethod) }
{
    let interfaces = interface_offsets(&package.classes());
    let part = package.methods();
    let descriptor = package.descriptor();
    let _parts = package.parts();
    let listed = all_listed(alloc, &interfaces, &part, &descriptor)?;
    Ok(Sequence::of(listed))
}

/// The methods of the classes that a Descriptor tells, but for the interfaces.
fn all_listed(
    alloc: Global,
    interfaces: &Offsets,
    methods: &MethodPart<'_>,
    descriptor: &DescPart<'_>,
) -> Result<Vec<ListedMethod>, AllocError>
    ensures value { IfOk result (λ v. v.items
        ≡ listed_in (holds interfaces.now) (methods_seen methods.now) 0 (descriptor_seen descriptor.now).classes) }
    ensures counted { IfOk result (λ v. All IsCounted v.items) }
{
    // Their number is one that `class_count` can answer.
    let _count = descriptor.class_count();
    let mut listed = Vec::new(alloc);
    let mut class_no: u16 = 0;
    'classes: for class in descriptor.classes() {
        push_placed(alloc, interfaces, methods, class_no, &class, &mut listed)?;
        class_no += 1;
    }
    Ok(listed)
}

/// Appends the methods of a class that have code, unless it is an interface.
#[tactic(auto, using(crate::proofs::Appending::steps))]
fn push_placed(
    alloc: Global,
    interfaces: &Offsets,
    methods: &MethodPart<'_>,
    class_no: u16,
    class: &DescClass<'_>,
    listed: &mut Vec<ListedMethod>,
) -> Result<(), AllocError>
    requires { All IsCounted listed.old.items }
    ensures counted { OnOk result (All IsCounted listed.new.items) }
    ensures appended { OnOk result (listed.new.items
        ≡ listed.old.items
        ++ listed_unless (holds interfaces.now) (methods_seen methods.now) class_no (described_class_seen class.now)) }
{
    if interfaces.has(class.class_ref()) {
        return Ok(());
    }
    push_class(alloc, methods, class_no, class, listed)
}

/// Appends the methods of a class that have code.
fn push_class(
    alloc: Global,
    methods: &MethodPart<'_>,
    class_no: u16,
    class: &DescClass<'_>,
    listed: &mut Vec<ListedMethod>,
) -> Result<(), AllocError>
    requires { All IsCounted listed.old.items }
    ensures counted { OnOk result (All IsCounted listed.new.items) }
    ensures appended { OnOk result (listed.new.items
        ≡ listed.old.items ++ listed_from (methods_seen methods.now) class_no 0 (described_class_seen class.now).methods) }
{
    // Their number is one that `method_count` can answer.
    let _count = class.method_count();
    let mut method_no: u16 = 0;
    'methods: for method in class.methods() {
        push_listed(alloc, methods, class_no, method_no, &method, listed)?;
        method_no += 1;
    }
    Ok(())
}

/// Appends a method, where it has code.
#[tactic(auto, using(crate::proofs::Counted::one_more))]
fn push_listed(
    alloc: Global,
    methods: &MethodPart<'_>,
    class_no: u16,
    method_no: u16,
    method: &MethodInfo,
    listed: &mut Vec<ListedMethod>,
) -> Result<(), AllocError>
    requires { All IsCounted listed.old.items }
    ensures counted { OnOk result (All IsCounted listed.new.items) }
    ensures appended { OnOk result (listed.new.items
        ≡ listed.old.items
        ++ listed_by (methods_seen methods.now) class_no method_no (method_seen method.now)
        (header_in methods.now.info.bytes.now method.now.method_offset)) }
{
    let header = match header(methods, method.method_offset) {
        Some(header) if !header.flags.is_abstract() => header,
        _ => return Ok(()),
    };
    let laid = laid(alloc, methods, method, header)?;
    listed.push(ListedMethod {
        class_no,
        method_no,
        laid,
    })?;
    Ok(())
}

/// The code of a method with its handlers, and the numbers in its header.
fn laid(
    alloc: Global,
    methods: &MethodPart<'_>,
    method: &MethodInfo,
    header: MethodHeader,
) -> Result<Laid, AllocError>
    ensures value { IfOk result (λ l. l ≡ laid_of (methods_seen methods.now) (method_seen method.now) (header_seen header)) }
    ensures counted { IfOk result IsCountedLaid }
{
    let info = methods.info();
    let start = code_start(info, method);
    let bytes = bytes_of(info, start, method.bytecode_count);
    are_bytes(bytes);
    numbers_fit(header.max_stack, header.nargs, header.max_locals);
    let code = Vec::from_slice(alloc, bytes)?;
    let farther = handlers_after(methods.handlers(), method.handler_index);
    let handlers = laid_handlers(alloc, start, farther, method.handler_count)?;
    Ok(Laid {
        code: Sequence::of(code),
        handlers: Sequence::of(handlers),
        max_stack: header.max_stack,
        nargs: header.nargs,
        max_locals: header.max_locals,
    })
}

/// Each number is one of a byte.
fn numbers_fit(max_stack: u8, nargs: u8, max_locals: u8)
    ensures stack { max_stack < 2 ^ 8 }
    ensures arguments { nargs < 2 ^ 8 }
    ensures locals { max_locals < 2 ^ 8 }
{
    let _ = max_stack;
    let _ = nargs;
    let _ = max_locals;
}

/// So many bytes from an offset on, or those that are there.
fn bytes_of<'a>(info: View<'a>, start: u32, count: u16) -> &'a [u8]
    ensures value { result.now ≡ take count (drop start info.entry.bytes.now) }
    ensures few { length result.now ≤ 65535 }
{
    let bytes = info.bytes;
    let rest = if (start as usize) < bytes.len() {
        &bytes[start as usize..]
    } else {
        &[]
    };
    if (count as usize) < rest.len() {
        &rest[..count as usize]
    } else {
        rest
    }
}

fn laid_handler(start: u32, handler: HandlerInfo) -> LaidHandler
    ensures value { result ≡ laid_handler start handler }
    ensures places { HasPlaces result }
{
    LaidHandler {
        start: u32::from(handler.start).saturating_sub(start) as u16,
        length: handler.length,
        entry: u32::from(handler.entry).saturating_sub(start) as u16,
        pool: handler.index,
    }
}

/// The handlers after so many.
#[tactic(auto, using(jc_resolve::proofs::Parts::drop_step))]
fn handlers_after<'a>(handlers: HandlerEntries<'a>, count: u16) -> HandlerEntries<'a>
    ensures { handlers_left result ≡ drop count (handlers_left handlers.entry) }
{
    let mut rest = handlers;
    'passed: for _ in 0..count {
        if rest.next().is_none() {
            return rest;
        }
    }
    rest
}

/// The first handlers, so many, with their places counted from an offset.
#[tactic(auto, using(jc_resolve::proofs::Parts::take_step))]
fn laid_handlers(
    alloc: Global,
    start: u32,
    handlers: HandlerEntries<'_>,
    count: u16,
) -> Result<Vec<LaidHandler>, AllocError>
    ensures value { IfOk result (λ v. v.items ≡ map (laid_handler start) (take count (handlers_left handlers.entry))) }
    ensures counted { IfOk result (λ v. All HasPlaces v.items) }
{
    let mut laid = Vec::new(alloc);
    let mut rest = handlers;
    'handlers: for _ in 0..count {
        let Some(handler) = rest.next() else {
            return Ok(laid);
        };
        laid.push(laid_handler(start, handler))?;
    }
    Ok(laid)
}
