use crate::PLAIN_CLASS;
use crate::samples::MIXED;
use cap_bytes::{Format, View};
use cap_class::{ClassInfo, ClassPart, classes};

/// Whether eight classes are given by position and by offset.
fn are_eight() -> bool {
    match classes(View::of(&PLAIN_CLASS[3..]), Format::V22) {
        Ok(part) => {
            part.count() == 8
                && part.offset(2) == Some(22)
                && part.offset(8) == None
                && part.entry(12).is_some()
                && part.entry(13).is_none()
        }
        Err(_) => false,
    }
}

/// Whether the interface of the mixed component has what it has.
fn is_interface(part: &ClassPart<'_>) -> bool {
    match part.entry(5) {
        Some(interface) => {
            part.count() == 2
                && interface.flags().0 == 12
                && interface.super_ref() == 0xFFFF
                && (interface.public_count(), interface.instance_size()) == (0, 0)
                && extends(&interface)
        }
        None => false,
    }
}

/// Whether an interface extends one of another package.
fn extends(interface: &ClassInfo<'_>) -> bool {
    match interface.implemented(0) {
        Some(extended) => extended.class_ref == 0x8102 && extended.tokens.is_empty(),
        None => false,
    }
}

/// Whether the class of the mixed component has its tables.
fn has_tables(class: &ClassInfo<'_>) -> bool {
    class.offset() == 8
        && class.flags().0 == 0
        && (
            class.instance_size(),
            class.first_reference(),
            class.reference_count(),
        ) == (3, 1, 2)
        && (class.public_base(), class.public_count()) == (0, 2)
        && (class.package_base(), class.package_count()) == (4, 1)
        && (class.public(0), class.public(1), class.public(2)) == (Some(20), Some(0xFFFF), None)
        && (class.package(0), class.package(1)) == (Some(31), None)
        && class.publics().count() + class.package_table().count() == 3
}

/// Whether a class implements one interface, its two tokens served by 1 and 0.
fn implements_one(class: &ClassInfo<'_>) -> bool {
    match class.interfaces().next() {
        Some(implemented) => {
            implemented.class_ref == 5
                && implemented.tokens == [1, 0].as_slice()
                && class.implemented(1).is_none()
        }
        None => false,
    }
}

/// Whether an interface and a class are what they are.
fn are_mixed() -> bool {
    match classes(View::of(&MIXED[3..]), Format::V22) {
        Ok(part) => {
            is_interface(&part)
                && part
                    .at(1)
                    .is_some_and(|class| has_tables(&class) && implements_one(&class))
        }
        Err(_) => false,
    }
}

#[test]
fn classes_and_interfaces_give_their_items(rt: HostRuntime) {
    assert!(rt; are_eight() && are_mixed());
}
