ghost use Rattle.std.specs.Prelude.{◌≡◌, ◌≤◌, ◌+◌, ◌*◌, length};
ghost use Rattle.offset_set.specs.Bits.{holds};
ghost use Rattle.cap_bytes.specs.Spelling.{Stands};
ghost use Rattle.cap_desc.specs.ClassRecords.{described_class_seen};
ghost use Rattle.cap_desc.specs.DescriptorFormat.{descriptor_info};
ghost use Rattle.cap_desc.specs.Descriptors.{descriptor_seen};
ghost use Rattle.cap_desc.specs.MemberLists.{methods_left};
ghost use Rattle.cap_bytes.specs.Edit.{patched_all};
ghost use Rattle.cap_bytes.specs.Renewal.{Renews};
ghost use Rattle.cap_renewal.specs.DescriptorEdits.{class_edits, class_width, descriptor_edits, edits_to, methods_edits, renewed_descriptor};

use crate::new_methods::{NewMethod, NewMethods, are_small};
use cap_bytes::{are_bytes, patch, patches_renew};
use cap_desc::{DescClass, DescMethods, DescPart};
use offset_set::Offsets;

/// Renews what the info of the Descriptor component tells of the methods of classes; `interfaces` are the
/// references of the interfaces. The info is then that of the same classes, fields and types with the new
/// numbers of methods. No other byte changes.
pub fn renew_descriptor(
    descriptor: &DescPart<'_>,
    interfaces: &Offsets,
    news: &NewMethods,
    info: &mut [u8],
)
    requires { Stands descriptor_info info.old (descriptor_seen descriptor.now) }
    ensures renewed { Renews (descriptor_edits (holds interfaces.now) news.now (descriptor_seen descriptor.now).classes) info.old info.new }
    ensures stands { Stands descriptor_info info.new (renewed_descriptor (holds interfaces.now) news.now (descriptor_seen descriptor.now)) }
{
    are_bytes(info);
    are_small(news);
    patches_renew();
    let mut at = 1;
    'classes: for class in descriptor.classes() {
        at = write_class(&class, interfaces, news, at, info);
    }
}

/// Renews the numbers of the methods of a class descriptor that stands at a place, unless it is that of an
/// interface. The answer is the place after it.
fn write_class(
    class: &DescClass<'_>,
    interfaces: &Offsets,
    news: &NewMethods,
    at: usize,
    info: &mut [u8],
) -> usize
    requires { at + class_width (described_class_seen class.now) ≤ length info.old }
    ensures value { info.new ≡ patched_all (class_edits (holds interfaces.now) news.now at (described_class_seen class.now)) info.old }
    ensures long { length info.new ≡ length info.old }
    ensures end { result ≡ at + class_width (described_class_seen class.now) }
{
    let interface_count = class.interface_count() as usize;
    let methods = at + (9 + 2 * interface_count + 7 * class.field_count() as usize);
    if !interfaces.has(class.class_ref()) {
        write_methods(class.methods(), news, methods, info);
    }
    methods + 12 * class.method_count() as usize
}

#[tactic(auto, using(crate::proofs::Steps::one_method))]
fn write_methods(methods: DescMethods<'_>, news: &NewMethods, start: usize, info: &mut [u8])
    requires { start + 12 * length (methods_left methods) ≤ length info.old }
    ensures value { info.new ≡ patched_all (methods_edits news.now start (methods_left methods.entry)) info.old }
    ensures long { length info.new ≡ length info.old }
{
    let mut at = start;
    'methods: for method in methods {
        write_numbers(news.numbers(&method), at, info);
        at += 12;
    }
}

/// Writes the numbers of a method over those of a method descriptor that stands at a place.
fn write_numbers(numbers: NewMethod, at: usize, info: &mut [u8])
    requires { at + 12 ≤ length info.old }
    ensures value { info.new ≡ patched_all (edits_to at numbers) info.old }
    ensures long { length info.new ≡ length info.old }
{
    patch(info, at + 2, numbers.offset);
    patch(info, at + 6, numbers.bytecode_count);
    patch(info, at + 8, numbers.handler_count);
    patch(info, at + 10, numbers.handler_index);
}
