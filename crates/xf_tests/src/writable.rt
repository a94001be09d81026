//! Whether a package may be written with some code: what `write_package` asks, tried where the code is made.
ghost use Rattle.std.specs.Prelude.{◌≡◌, ◌≤◌, true, Some, IfSome, IsTrue, length};
ghost use Rattle.offset_set.specs.Bits.{holds};
ghost use Rattle.cap_desc.specs.Descriptors.{descriptor_seen};
ghost use Rattle.cap_desc.specs.MemberLists.{methods_left};
ghost use Rattle.cap_desc.specs.MemberRecords.{method_seen};
ghost use Rattle.cap_method.specs.MethodFormat.{Header};
ghost use Rattle.cap_method.specs.MethodPart.{header_seen};
ghost use Rattle.cap_package.specs.HeaderChecks.{header_in, is_abstract};
ghost use Rattle.cap_laying.specs.HandlerTable.{AreInside};
ghost use Rattle.law_package.specs.Laying.{IsCodeFor};
ghost use Rattle.cap_write.specs.Condition.{AreElements, IsElement, MayBeLaid, handler_sum, methods_for};
ghost use Rattle.xf_tests.specs.Elements.{Continues, listed, one_listed};

use cap_desc::{DescMethods, DescPart, MethodInfo};
use cap_method::{MethodHeader, MethodPart};
use cap_package::{Package, header, interface_offsets};
use jc_decode::{Laid, LaidHandler};
use offset_set::Offsets;

/// Whether the package may be written with this code.
pub(crate) fn may_be_written(package: &Package<'_, '_>, laid: &[Option<Laid>]) -> bool
    ensures { IsTrue result → MayBeLaid «package».now laid.now }
{
    let interfaces = interface_offsets(&package.classes());
    let methods = package.methods();
    handlers_in(laid) <= 255 && are_elements(&methods, &package.descriptor(), &interfaces, laid)
}

/// Whether the handlers lie in code of so many bytes.
fn are_inside(size: usize, handlers: &[LaidHandler]) -> bool
    ensures { IsTrue result → AreInside size handlers.now }
{
    let Some((first, rest)) = handlers.split_first() else {
        return true;
    };
    usize::from(first.start) + usize::from(first.length) <= size
        && first.length <= 32767
        && usize::from(first.entry) < size
        && are_inside(size, rest)
}

/// How many handlers there are, or 256 where there are more than 255.
fn handlers_in(laid: &[Option<Laid>]) -> usize
    ensures most { result ≤ 256 }
    ensures sum { result ≤ 255 → result ≡ handler_sum laid.now }
{
    let Some((first, rest)) = laid.split_first() else {
        return 0;
    };
    let others = handlers_in(rest);
    match first {
        Some(code) => {
            let own = code.handlers.len();
            if own <= 255 && others <= 255 && own + others <= 255 {
                own + others
            } else {
                256
            }
        }
        None => others,
    }
}

/// Whether the list has an element for each method record of the Descriptor.
fn are_elements(
    methods: &MethodPart<'_>,
    descriptor: &DescPart<'_>,
    interfaces: &Offsets,
    laid: &[Option<Laid>],
) -> bool
    ensures { IsTrue result
        → AreElements methods.now.info.bytes.now
        (methods_for (holds interfaces.now) (descriptor_seen descriptor.now).classes) laid.now }
{
    let mut rest = laid;
    'classes: for class in descriptor.classes() {
        let interface = interfaces.has(class.class_ref());
        match after_elements(methods, class.methods(), interface, rest) {
            Some(others) => rest = others,
            None => return false,
        }
    }
    match rest.split_first() {
        Some(_) => false,
        None => true,
    }
}

/// The list after the elements of the methods of a class, where it has them.
fn after_elements<'l>(
    methods: &MethodPart<'_>,
    records: DescMethods<'_>,
    interface: bool,
    laid: &'l [Option<Laid>],
) -> Option<&'l [Option<Laid>]>
    ensures { IfSome result
        (λ rest. Continues methods.now.info.bytes.now (listed interface (methods_left records.entry)) laid.now rest.now) }
{
    let mut rest = laid;
    'methods: for method in records {
        let Some((first, others)) = rest.split_first() else {
            return None;
        };
        if !is_element(methods, interface, &method, first) {
            return None;
        }
        rest = others;
    }
    Some(rest)
}

/// Whether an element is that of a method.
fn is_element(
    methods: &MethodPart<'_>,
    interface: bool,
    method: &MethodInfo,
    laid: &Option<Laid>,
) -> bool
    ensures { IsTrue result → IsElement methods.now.info.bytes.now (one_listed interface (method_seen method.now)) laid.now }
{
    match laid {
        Some(laid) => !interface && is_for(methods, method.method_offset, laid),
        None => interface || is_bare(methods, method.method_offset),
    }
}

/// Whether the code may be laid under the header at an offset.
fn is_for(methods: &MethodPart<'_>, offset: u16, laid: &Laid) -> bool
    ensures { IsTrue result → (h : Header) → header_in methods.now.info.bytes.now offset ≡ Some h → IsCodeFor h laid.now }
{
    match header(methods, offset) {
        Some(header) => is_code_for(&header, laid),
        None => true,
    }
}

fn is_code_for(header: &MethodHeader, laid: &Laid) -> bool
    ensures { IsTrue result → IsCodeFor (header_seen header.now) laid.now }
{
    laid.code.len() > 0
        && laid.code.len() <= 32767
        && laid.nargs == header.nargs
        && u16::from(laid.nargs) + u16::from(laid.max_locals) <= 255
        && are_inside(laid.code.len(), laid.handlers.as_slice())
}

/// Whether the header at an offset is that of an abstract method.
fn is_bare(methods: &MethodPart<'_>, offset: u16) -> bool
    ensures { IsTrue result → (h : Header) → header_in methods.now.info.bytes.now offset ≡ Some h → is_abstract h ≡ true }
{
    match header(methods, offset) {
        Some(header) => header.flags.is_abstract(),
        None => true,
    }
}
