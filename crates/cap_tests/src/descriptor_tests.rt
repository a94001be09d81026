use crate::samples::TYPES;
use cap_bytes::View;
use cap_desc::{DescClass, DescPart, Types, descriptor};

/// Whether a class has its interface, its field and its methods.
fn has_members(class: &DescClass<'_>) -> bool {
    (class.token(), class.class_ref(), class.interface(0)) == (0, 2, Some(0x8003))
        && (class.field_count(), class.method_count()) == (1, 2)
        && has_field(class)
        && class
            .methods()
            .next()
            .is_some_and(|method| (method.flags.0, method.type_offset) == (0xDF, 4))
}

/// Whether a class has a field, a short.
fn has_field(class: &DescClass<'_>) -> bool {
    class
        .fields()
        .next()
        .is_some_and(|field| (field.flags.0, field.ty) == (0x1F, 0x8004))
}

/// Whether there is one class, and the type of one pool entry.
fn has_one_class(part: &DescPart<'_>) -> bool {
    let mut classes = part.classes();
    classes.next().is_some_and(|class| has_members(&class))
        && classes.next().is_none()
        && (part.pool_count(), part.pool_type(0), part.pool_type(1)) == (1, Some(0xFFFF), None)
}

/// The nibbles of types, in order, each with one figure, and how many they are.
fn nibbles(types: Option<Types<'_>>) -> (u8, u64) {
    match types {
        None => (255, 0),
        Some(types) => {
            let mut all: u64 = 0;
            for item in types {
                all = all % 0x0FFF_FFFF * 16 + item.nibble as u64;
            }
            (types.len(), all)
        }
    }
}

/// Offsets from the item constant_pool_count, and the types that stand there.
static NAMED: [(u16, (u8, u64)); 6] = [
    (4, (2, 0x44)),
    (6, (3, 0x444)),
    (9, (3, 0x6E1)),
    (16, (0, 0)),
    (17, (255, 0)),
    (1000, (255, 0)),
];

/// Whether types are read where they are named.
fn has_types(part: &DescPart<'_>) -> bool {
    NAMED
        .iter()
        .position(|(offset, want)| nibbles(part.types_at(*offset)) != *want)
        .is_none()
        && part.type_at(4).is_none()
        && has_reference(part)
}

/// Whether a reference to the class at offset 2 stands at 19.
fn has_reference(part: &DescPart<'_>) -> bool {
    part.type_at(19).is_some_and(|item| item.class_ref == 2)
}

fn is_described() -> bool {
    match descriptor(View::of(&TYPES[3..])) {
        Ok(part) => has_one_class(&part) && has_types(&part),
        Err(_) => false,
    }
}

#[test]
fn a_descriptor_gives_classes_members_and_types(rt: HostRuntime) {
    assert!(rt; is_described());
}
