ghost use Rattle.std.specs.Prelude.{◌≡◌};
ghost use Rattle.offset_set.specs.Bits.{holds};
ghost use Rattle.cap_desc.specs.MemberLists.{methods_left};
ghost use Rattle.cap_desc.specs.MemberRecords.{field_seen, method_seen};
ghost use Rattle.cap_desc.specs.Members.{methods_of, methods_in, fields_of};
ghost use Rattle.cap_components.specs.Order.{least_of, least_from, refused};
ghost use Rattle.cap_components.specs.Descriptions.{description};
ghost use Rattle.cap_package.specs.TypeChecks.{field_type_fault, method_type_fault};

use cap_components::{PackFault, argument_words, field_type, refuse};
use cap_desc::{DescMethods, DescPart, FieldInfo, MethodInfo};
use first_fault::least_from;
use offset_set::Offsets;

/// The argument words that a type descriptor can tell at all.
const ANY_WORDS: u16 = 510;
/// The argument words of a method of an interface without its receiver.
const INTERFACE_WORDS: u16 = 254;

#[tactic(auto, unfolding(crate::specs::TypeChecks::field_type_fault))]
fn field_type_fault(descriptor: &DescPart<'_>, field: &FieldInfo) -> Option<PackFault>
    ensures { result ≡ field_type_fault (description descriptor.now) (field_seen field.now) }
{
    let bad = field_type(descriptor, field.ty).is_none();
    bad.then_some(PackFault::BadType(field.ty))
}

#[tactic(auto, unfolding(crate::specs::TypeChecks::method_type_fault))]
#[inline(always)]
fn method_type_fault(descriptor: &DescPart<'_>, most: u16, method: &MethodInfo) -> Option<PackFault>
    ensures { result ≡ method_type_fault (description descriptor.now) most (method_seen method.now) }
{
    match argument_words(descriptor, method.type_offset) {
        Some(words) if words <= most => None,
        _ => Some(PackFault::BadType(method.type_offset)),
    }
}

/// The least fault so far, when the types of the methods of an interface were looked at.
#[tactic(auto, using(first_fault::proofs::LeastFound::least_by))]
fn types_of_interface(
    descriptor: &DescPart<'_>,
    methods: DescMethods<'_>,
    least: Option<PackFault>,
) -> Option<PackFault>
    ensures { result ≡ least_from least (method_type_fault (description descriptor.now) 254) (methods_left methods.entry) }
{
    least_from(least, methods, |method| {
        method_type_fault(descriptor, INTERFACE_WORDS, &method)
    })
}

/// The least fault so far, when the types of the methods of interfaces were looked at.
#[tactic(auto, using(crate::proofs::InterfaceFaults::least_interface, crate::proofs::InterfaceFaults::least_class))]
fn interface_types(
    descriptor: &DescPart<'_>,
    interfaces: &Offsets,
    least: Option<PackFault>,
) -> Option<PackFault>
    ensures { result
        ≡ least_from least
        (method_type_fault (description descriptor.now) 254)
        (methods_in (holds interfaces.now) (description descriptor.now).items.classes) }
{
    let mut least = least;
    'classes: for class in descriptor.classes() {
        if interfaces.has(class.class_ref()) {
            least = types_of_interface(descriptor, class.methods(), least);
        }
    }
    least
}

/// Each field and method names a well-formed type descriptor of its shape.
#[tactic(auto, using(first_fault::proofs::LeastFound::least_by))]
pub(crate) fn types_fit(descriptor: &DescPart<'_>, interfaces: &Offsets) -> Result<(), PackFault>
    ensures { result ≡ refused
        (least_from
        (least_from
        (least_of (field_type_fault (description descriptor.now)) (fields_of (description descriptor.now).items.classes))
        (method_type_fault (description descriptor.now) 510) (methods_of (description descriptor.now).items.classes))
        (method_type_fault (description descriptor.now) 254)
        (methods_in (holds interfaces.now) (description descriptor.now).items.classes)) }
{
    let fields = least_from(None, descriptor.fields(), |field| {
        field_type_fault(descriptor, &field)
    });
    let methods = least_from(fields, descriptor.methods(), |method| {
        method_type_fault(descriptor, ANY_WORDS, &method)
    });
    refuse(interface_types(descriptor, interfaces, methods))
}
