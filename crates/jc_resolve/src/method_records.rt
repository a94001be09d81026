ghost use Rattle.std.specs.Prelude.{◌≡◌, ◌+◌, ◌≤◌, [], ◌∷◌, ◌++◌, length, map, take, drop, All, IfOk, OnOk, flat_map};
ghost use Rattle.offset_set.specs.Bits.{holds};
ghost use Rattle.cap_desc.specs.ClassRecords.{described_class_seen};
ghost use Rattle.cap_desc.specs.MemberRecords.{method_seen};
ghost use Rattle.cap_method.specs.MethodPart.{handlers_left, header_seen};
ghost use Rattle.cap_package.specs.PackageRecord.{names_interface};
ghost use Rattle.first_fault.specs.Least.{least_from};
ghost use Rattle.jc_resolve.specs.Conditions.{references_of_method, no_class_fault, named_in};
ghost use Rattle.jc_resolve.specs.Fault.{link_place};
ghost use Rattle.jc_resolve.specs.Homes.{throwable_at, description_at, records_at, least_at, handler_at, described_at, headers_at};
ghost use Rattle.jc_resolve.specs.Homes.{methods_at, methods_from};
ghost use Rattle.jc_resolve.specs.LookedUp.{references_for_methods};
ghost use Rattle.jc_resolve.specs.Named.{IsAgreed};
ghost use Rattle.jc_resolve.specs.NamedMethods.{HasFewHandlers, caught_class, offset_in_info, no_body, body_after, body_of, is_init};
ghost use Rattle.jc_resolve.specs.NamedMethods.{named_method};
ghost use Rattle.jc_resolve.specs.Numbering.{numbered_method, numbered_methods};

use crate::class_index::{Home, Index};
use crate::fault::LinkFault;
use crate::reference_checks::class_or_fault;
use crate::world_types::signature_of;
use bitflags::Flags;
use cap_desc::{AccessFlags, DescClass, MethodInfo};
use cap_method::{HandlerEntries, HandlerInfo, MethodHeader};
use cap_package::{Packages, header, interface_offsets};
use cap_pool::PoolReference;
use jc_base::{Handler, Items, MethodRec, Sig};
use offset_set::Offsets;
use std::alloc::{AllocError, Global};

/// The class that a handler catches, by its catch_type_index.
fn caught(home: Home<'_, '_, '_, '_>, catch_type: u16) -> u16
    ensures { result
        ≡ caught_class home.entry.index.now (throwable_at home.entry) home.entry.number home.entry.of_package.now.pool catch_type }
{
    if catch_type == 0 {
        return home.roles[1] as u16;
    }
    let Some(entry) = home.of_package.pool().at(catch_type) else {
        return 0;
    };
    match entry.reference() {
        PoolReference::Class(class) => {
            home.index.class_referred(home.number, class).unwrap_or(0)
        }
        _ => 0,
    }
}

/// A handler with its places counted from the start of its method's code.
#[tactic(auto, unfolding(crate::specs::NamedMethods::handler_named))]
fn handler_named(home: Home<'_, '_, '_, '_>, code_at: u16, handler: HandlerInfo) -> Handler
    ensures { result ≡ handler_at home.entry code_at handler }
{
    Handler {
        start: handler.start.saturating_sub(code_at),
        end: handler
            .start
            .saturating_add(handler.length)
            .saturating_sub(code_at),
        entry: handler.entry.saturating_sub(code_at),
        index: handler.index,
        class: caught(home, handler.index),
    }
}

/// The handlers after so many.
#[tactic(auto, using(crate::proofs::Parts::drop_step))]
fn handlers_after<'a>(handlers: HandlerEntries<'a>, count: u16) -> HandlerEntries<'a>
    ensures { handlers_left result ≡ drop count (handlers_left handlers.entry) }
{
    let mut rest = handlers;
    'passed: for _ in 0..count {
        match rest.next() {
            Some(_) => {}
            None => return rest,
        }
    }
    rest
}

/// The handlers of a method, after so many; as most methods have none, they are counted off only where there are some.
fn handlers_of<'a>(handlers: HandlerEntries<'a>, first: u16, count: u16) -> HandlerEntries<'a>
    ensures { take count (handlers_left result) ≡ take count (drop first (handlers_left handlers.entry)) }
{
    if count == 0 {
        handlers
    } else {
        handlers_after(handlers, first)
    }
}

/// The first handlers, so many, as those of a method.
#[tactic(auto, using(crate::proofs::Parts::take_step))]
fn handlers_named(
    alloc: Global,
    home: Home<'_, '_, '_, '_>,
    code_at: u16,
    handlers: HandlerEntries<'_>,
    count: u16,
) -> Result<Vec<Handler>, AllocError>
    ensures { IfOk result
        (λ v.
        v.items
        ≡ map (handler_at home.entry code_at) (take count (handlers_left handlers.entry))) }
{
    let mut named = Vec::new(alloc);
    let mut rest = handlers;
    'handlers: for _ in 0..count {
        match rest.next() {
            Some(handler) => {
                named.push(handler_named(home, code_at, handler))?;
            }
            None => return Ok(named),
        }
    }
    Ok(named)
}

/// What a method's header and its code tell.
#[derive(Drop)]
pub struct Body {
    pub is_abstract: bool,
    pub nargs: u8,
    pub max_locals: u8,
    pub max_stack: u8,
    pub code_at: u16,
    pub code_len: u16,
    pub handlers: jc_base::Handlers,
}

/// What stands for the header of a method of an interface.
fn no_body(alloc: Global, flags: AccessFlags, sig: &Sig) -> Body
    ensures { result ≡ no_body flags.0 sig.now }
{
    let words = sig.args.len();
    let receiver = if flags.is_static() { 0 } else { 1 };
    Body {
        is_abstract: true,
        nargs: words.saturating_add(receiver).min(255) as u8,
        max_locals: 0,
        max_stack: 0,
        code_at: 0,
        code_len: 0,
        handlers: Items::of(Vec::new(alloc)),
    }
}

/// What the header of a method tells.
fn body_after(
    alloc: Global,
    home: Home<'_, '_, '_, '_>,
    method: &MethodInfo,
    header: MethodHeader,
) -> Result<Body, AllocError>
    ensures { IfOk result
        (λ b.
        b
        ≡ body_after home.entry.index.now (throwable_at home.entry) home.entry.number home.entry.of_package.now
        (method_seen method.now) (header_seen header)
        (offset_in_info (method.now.method_offset + header.size))) }
{
    let code_at = method.method_offset.saturating_add(header.size as u16);
    let all = home.of_package.methods().handlers();
    let farther = handlers_of(all, method.handler_index, method.handler_count);
    let handlers = handlers_named(alloc, home, code_at, farther, method.handler_count)?;
    Ok(Body {
        is_abstract: header.flags.is_abstract(),
        nargs: header.nargs,
        max_locals: header.max_locals,
        max_stack: header.max_stack,
        code_at,
        code_len: method.bytecode_count,
        handlers: Items::of(handlers),
    })
}

/// What the header of a method tells, where it has one.
#[tactic(auto, unfolding(crate::specs::NamedMethods::body_of))]
fn body_of(
    alloc: Global,
    home: Home<'_, '_, '_, '_>,
    method: &MethodInfo,
    sig: &Sig,
    has_header: bool,
) -> Result<Body, AllocError>
    ensures { IfOk result
        (λ b.
        b
        ≡ body_of home.entry.index.now (throwable_at home.entry) home.entry.number home.entry.of_package.now
        (method_seen method.now) sig.now has_header) }
{
    if !has_header {
        return Ok(no_body(alloc, method.flags, sig));
    }
    match header(&home.of_package.methods(), method.method_offset) {
        Some(header) => body_after(alloc, home, method, header),
        None => Ok(no_body(alloc, method.flags, sig)),
    }
}

/// A record of the Descriptor, with its number in it, the number of the class that it names, and whether the methods of
/// that class have headers.
#[derive(Clone, Copy)]
struct OfClass<'a> {
    class_no: u16,
    record: DescClass<'a>,
    class: u16,
    has_headers: bool,
}

/// A record of the Descriptor with the class that it names.
#[tactic(auto, unfolding(crate::specs::NamedMethods::class_described, crate::specs::NamedMethods::have_headers))]
fn of_class<'a>(
    home: Home<'_, '_, '_, '_>,
    interfaces: &Offsets,
    class_no: u16,
    record: DescClass<'a>,
    least: &mut Option<LinkFault>,
) -> OfClass<'a>
    requires { holds interfaces.now ≡ names_interface home.of_package.now.classes }
    ensures number { result.class_no ≡ class_no }
    ensures record_is { described_class_seen result.record ≡ described_class_seen record.entry }
    ensures class { result.class ≡ described_at home.entry (described_class_seen record.entry) }
    ensures headers { result.has_headers ≡ headers_at home.entry (described_class_seen record.entry) }
    ensures least { least.new ≡ least_at home.entry least.old ((described_class_seen record.entry).class_ref ∷ []) }
{
    let named = class_or_fault(home, record.class_ref(), least);
    let is_class = match named {
        Some(class) => !home.index.is_interface(class),
        None => false,
    };
    OfClass {
        class_no,
        record,
        class: named.unwrap_or(0),
        has_headers: is_class && !interfaces.has(record.class_ref()),
    }
}

/// A method with all that its records name.
#[tactic(auto, unfolding(crate::specs::NamedMethods::named_method))]
fn method_record(
    alloc: Global,
    home: Home<'_, '_, '_, '_>,
    of_class: OfClass<'_>,
    method_no: u16,
    method: MethodInfo,
    least: &mut Option<LinkFault>,
) -> Result<MethodRec, AllocError>
    requires class { of_class.class ≡ described_at home (described_class_seen of_class.record) }
    requires headers { of_class.has_headers ≡ headers_at home (described_class_seen of_class.record) }
    ensures is { IfOk result
        (λ m.
        m
        ≡ named_method home.entry.index.now home.entry.roles
        (numbered_method home.entry.number home.entry.of_package.now of_class.entry.class_no
        (described_class_seen of_class.entry.record) method_no (method_seen method))) }
    ensures least { OnOk result
        (least.new
        ≡ least_at home.entry least.old
        (references_of_method (description_at home.entry) (method_seen method))) }
{
    let sig = signature_of(alloc, home, method.type_offset, least)?;
    let body = body_of(alloc, home, &method, &sig, of_class.has_headers)?;
    Ok(MethodRec {
        package: home.number,
        class: of_class.class,
        token: method.token,
        class_no: of_class.class_no,
        method_no,
        is_static: method.flags.is_static(),
        is_init: method.flags.contains(AccessFlags::INIT),
        is_abstract: body.is_abstract,
        sig,
        nargs: body.nargs,
        max_locals: body.max_locals,
        max_stack: body.max_stack,
        code_at: body.code_at,
        code_len: body.code_len,
        handlers: body.handlers,
    })
}

/// Appends the methods of a class.
#[tactic(auto, using(crate::proofs::NamedFaults::least_methods))]
fn push_methods(
    methods: &mut Vec<MethodRec>,
    alloc: Global,
    home: Home<'_, '_, '_, '_>,
    of_class: OfClass<'_>,
    least: &mut Option<LinkFault>,
) -> Result<(), AllocError>
    requires class { of_class.class ≡ described_at home (described_class_seen of_class.record) }
    requires headers { of_class.has_headers ≡ headers_at home (described_class_seen of_class.record) }
    ensures is { OnOk result
        (methods.new.items
        ≡ methods.old.items ++ methods_at home.entry of_class.entry.class_no (described_class_seen of_class.entry.record) 0
        (described_class_seen of_class.entry.record).methods) }
    ensures least { OnOk result
        (least.new
        ≡ least_at home.entry least.old
        (flat_map
        (references_of_method (description_at home.entry))
        (described_class_seen of_class.entry.record).methods)) }
{
    // Their number is one that `method_count` can answer.
    let _count = of_class.record.method_count();
    let mut method_no: u16 = 0;
    'methods: for method in of_class.record.methods() {
        methods.push(method_record(alloc, home, of_class, method_no, method, least)?)?;
        method_no += 1;
    }
    Ok(())
}

/// Appends the methods of a package.
#[tactic(auto, using(crate::proofs::Steps::classes_step, crate::proofs::NamedFaults::least_with_methods))]
fn push_package(
    methods: &mut Vec<MethodRec>,
    alloc: Global,
    home: Home<'_, '_, '_, '_>,
    least: &mut Option<LinkFault>,
) -> Result<(), AllocError>
    ensures named { OnOk result
        (methods.new.items
        ≡ methods.old.items ++ methods_from home.entry 0 (records_at home.entry)) }
    ensures agreed { IsAgreed home.entry.of_package.now }
    ensures few { HasFewHandlers home.entry.of_package.now }
    ensures least { OnOk result
        (least.new ≡ least_at home.entry least.old (references_for_methods home.entry.of_package.now)) }
{
    // Its parts stand for it, and the number of its handlers is one that `handler_count` can answer.
    let _parts = home.of_package.parts();
    let _handlers = home.of_package.methods().handlers();
    let interfaces = interface_offsets(&home.of_package.classes());
    let descriptor = home.of_package.descriptor();
    // Their number is one that `class_count` can answer.
    let _count = descriptor.class_count();
    let mut class_no: u16 = 0;
    'classes: for class in descriptor.classes() {
        let of_class = of_class(home, &interfaces, class_no, class, least);
        push_methods(methods, alloc, home, of_class, least)?;
        class_no += 1;
    }
    Ok(())
}

/// The methods of packages.
#[tactic(auto, using(crate::proofs::Steps::methods_step, crate::proofs::NamedFaults::least_after))]
pub(crate) fn methods_after<'x, 'n, 'p, 'a>(
    alloc: Global,
    index: &'x Index<'n, 'p, 'a>,
    packages: &'x Packages<'p, 'a>,
    roles: [u8; 8],
    least: &mut Option<LinkFault>,
) -> Result<Vec<MethodRec>, AllocError>
    requires { length packages.now ≤ 16 }
    ensures named { IfOk result (λ v. v.items ≡ map (named_method index.now roles) (numbered_methods packages.now)) }
    ensures agreed { IfOk result (λ _. All IsAgreed packages.now) }
    ensures few { IfOk result (λ _. All HasFewHandlers packages.now) }
    // The class of each record of a Descriptor and the types of each method are looked up once.
    ensures least { OnOk result
        (least.new
        ≡ least_from link_place least.old
        (no_class_fault index.now)
        (named_in references_for_methods packages.now)) }
{
    let mut methods = Vec::new(alloc);
    'packages: for (k, package) in packages.iter().enumerate() {
        let home = Home {
            index,
            roles,
            number: k as u16,
            of_package: package,
        };
        push_package(&mut methods, alloc, home, least)?;
    }
    Ok(methods)
}
