ghost use Rattle.std.specs.Prelude.{◌≡◌, ◌++◌, [], map, OnOk, IfOk, IfErr};
ghost use Rattle.offset_set.specs.Bits.{holds};
ghost use Rattle.cap_desc.specs.ClassRecords.{described_class_seen};
ghost use Rattle.cap_desc.specs.Descriptors.{descriptor_seen};
ghost use Rattle.cap_package.specs.HeaderChecks.{header_in};
ghost use Rattle.cap_write.specs.Condition.{MayBeLaid};
ghost use Rattle.cap_listing.specs.Methods.{methods_of};
ghost use Rattle.cap_listing.specs.Placing.{has_code, is_coded, coded_in, coded, first_filled, rest_filled, filled, placed, faults, TellsFirst};

use crate::fault::AsmEnd;
use crate::fitting::check;
use crate::method::{Listed, ListedMethod};
use crate::package_methods::listed_methods;
use cap_desc::{DescClass, DescPart, MethodInfo};
use cap_method::MethodPart;
use cap_package::{Package, header, interface_offsets};
use jc_decode::{Laid, Sequence};
use offset_set::Offsets;
use std::alloc::{AllocError, Global};

/// What a package is written with, so that each of its methods with code has the code, the handlers and the three numbers
/// of the listed method in its place: an element for each method record of the Descriptor, in order.
pub fn place(
    alloc: Global,
    package: &Package<'_, '_>,
    listed: &Listed,
) -> Result<Vec<Option<Laid>>, AsmEnd>
    ensures placed { IfOk result (λ laid. laid.items ≡ placed «package».now listed.now) }
    ensures fits { IfOk result (λ laid. MayBeLaid «package».now laid.items) }
    ensures none { IfOk result (λ _. faults (methods_of «package».now) listed.now ≡ []) }
    ensures fault { IfErr result (TellsFirst (faults (methods_of «package».now) listed.now)) }
{
    let owns = listed_methods(alloc, package)?;
    if let Err(fault) = check(listed.as_slice(), owns.as_slice()) {
        return Err(AsmEnd::Fault(fault));
    }
    let flags = coded_methods(alloc, package)?;
    let laid = fill(alloc, flags.as_slice(), listed.as_slice())?;
    Ok(laid)
}

/// For each method record of the Descriptor, whether it is of code.
fn coded_methods(alloc: Global, package: &Package<'_, '_>) -> Result<Vec<bool>, AllocError>
    ensures { IfOk result (λ flags. flags.items ≡ coded «package».now) }
{
    let interfaces = interface_offsets(&package.classes());
    let part = package.methods();
    let descriptor = package.descriptor();
    coded_classes(alloc, &interfaces, &part, &descriptor)
}

fn coded_classes(
    alloc: Global,
    interfaces: &Offsets,
    methods: &MethodPart<'_>,
    descriptor: &DescPart<'_>,
) -> Result<Vec<bool>, AllocError>
    ensures { IfOk result (λ flags. flags.items
        ≡ coded_in (holds interfaces.now) methods.now.info.bytes.now (descriptor_seen descriptor.now).classes) }
{
    let mut flags = Vec::new(alloc);
    'classes: for class in descriptor.classes() {
        push_flags(
            interfaces.has(class.class_ref()),
            methods,
            &class,
            &mut flags,
        )?;
    }
    Ok(flags)
}

/// The same for the methods of a class or an interface.
fn push_flags(
    interface: bool,
    methods: &MethodPart<'_>,
    class: &DescClass<'_>,
    flags: &mut Vec<bool>,
) -> Result<(), AllocError>
    ensures { OnOk result (flags.new.items
        ≡ flags.old.items ++ map (is_coded methods.now.info.bytes.now interface) (described_class_seen class.now).methods) }
{
    'methods: for method in class.methods() {
        flags.push(!interface && has_code(methods, &method))?;
    }
    Ok(())
}

fn has_code(methods: &MethodPart<'_>, method: &MethodInfo) -> bool
    ensures { result ≡ has_code (header_in methods.now.info.bytes.now method.now.method_offset) }
{
    match header(methods, method.method_offset) {
        Some(header) => !header.flags.is_abstract(),
        None => false,
    }
}

/// A copy of a method's code with its handlers and numbers.
fn copied(alloc: Global, laid: &Laid) -> Result<Laid, AllocError>
    ensures { IfOk result (λ l. l ≡ laid.now) }
{
    let code = Vec::from_slice(alloc, laid.code.as_slice())?;
    let handlers = Vec::from_slice(alloc, laid.handlers.as_slice())?;
    Ok(Laid {
        code: Sequence::of(code),
        handlers: Sequence::of(handlers),
        max_stack: laid.max_stack,
        nargs: laid.nargs,
        max_locals: laid.max_locals,
    })
}

/// The code of the first method where the flag is set, and else nothing.
fn first_laid(
    alloc: Global,
    flag: bool,
    methods: &[ListedMethod],
) -> Result<Option<Laid>, AllocError>
    ensures { IfOk result (λ o. o ≡ first_filled flag methods.now) }
{
    if !flag {
        return Ok(None);
    }
    match methods.split_first() {
        Some((first, _)) => Ok(Some(copied(alloc, &first.laid)?)),
        None => Ok(None),
    }
}

/// The methods after it.
fn after_first(flag: bool, methods: &[ListedMethod]) -> &[ListedMethod]
    ensures { result.now ≡ rest_filled flag methods.now }
{
    if !flag {
        return methods;
    }
    match methods.split_first() {
        Some((_, rest)) => rest,
        None => methods,
    }
}

/// The methods, one after the other, where a flag is set, and nothing elsewhere.
fn fill(
    alloc: Global,
    flags: &[bool],
    methods: &[ListedMethod],
) -> Result<Vec<Option<Laid>>, AllocError>
    ensures { IfOk result (λ v. v.items ≡ filled flags.now methods.now) }
{
    let mut out = Vec::new(alloc);
    let mut rest = methods;
    'flags: for flag in flags {
        let element = first_laid(alloc, *flag, rest)?;
        out.push(element)?;
        rest = after_first(*flag, rest);
    }
    Ok(out)
}
