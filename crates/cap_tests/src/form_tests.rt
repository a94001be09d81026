use crate::forms::{
    READ, Told, changed_fault, ends_early, info_fault, info_fault_in, is_exact, longer,
};
use crate::samples::{
    ARRAYS, CUSTOM, HANDLED, IMAGE, LOCATIONS, MIXED, ONE_APPLET, ONE_IMPORT, POOL, TWO_EXPORTS,
    TYPES,
};
use crate::*;
use cap_bytes::{Format, Part, View};

/// Components' files.
static FILES: [(Part, &'static [u8]); 15] = [
    (HEADER, &PLAIN_HEADER),
    (HEADER, &OLDER_HEADER),
    (DIRECTORY, &PLAIN_DIRECTORY),
    (DIRECTORY, &CUSTOM),
    (APPLET, &ONE_APPLET),
    (IMPORT, &PLAIN_IMPORT),
    (IMPORT, &ONE_IMPORT),
    (CONSTANT_POOL, &PLAIN_CONSTANT_POOL),
    (CONSTANT_POOL, &POOL),
    (STATIC_FIELD, &PLAIN_STATIC_FIELD),
    (STATIC_FIELD, &IMAGE),
    (STATIC_FIELD, &ARRAYS),
    (REF_LOCATION, &PLAIN_REF_LOCATION),
    (REF_LOCATION, &LOCATIONS),
    (EXPORT, &TWO_EXPORTS),
];

#[test]
fn a_component_is_read_whole_and_neither_cut_nor_lengthened(rt: HostRuntime) {
    let wrong = FILES.iter().position(|(part, file)| !is_exact(*part, file));
    assert_eq!(rt; wrong, None);
}

/// A component's file, from where to where in it an info is taken, and where the info may end too.
type Prefix = (Part, &'static [u8], usize, &'static [usize]);

/// A Class component may end after each of its records, and where a method or a type descriptor ends is
/// no matter of the component's own format.
static PREFIXES: [Prefix; 5] = [
    (CLASS, &PLAIN_CLASS, 85, &[2, 12, 22, 32, 42, 52, 62, 72]),
    (CLASS, &MIXED, 32, &[5, 8]),
    (METHOD, &HANDLED, 20, &[]),
    (
        METHOD,
        &PLAIN_METHOD,
        22,
        &[
            1, 2, 3, 4, 5, 6, 7, 8, 9, 10, 11, 12, 13, 14, 15, 16, 17, 18,
        ],
    ),
    (DESCRIPTOR, &TYPES, 47, &[]),
];

/// Whether an info ends too early but where it may end.
fn may_end(prefix: &Prefix) -> bool {
    let (part, file, end, whole) = prefix;
    *end >= 3 && *end <= file.len() && ends_early(*part, &file[3..*end], whole)
}

/// Whether one byte more after the records is named as a record that is cut, and after the methods is not.
fn may_go_on() -> bool {
    let plain = longer(&PLAIN_CLASS);
    let mixed = longer(&MIXED);
    let method = longer(&PLAIN_METHOD);
    info_fault(CLASS, View::of(&plain[3..86])) == (6, 86, "Cut")
        && info_fault(CLASS, View::of(&mixed[3..33])) == (6, 33, "Cut")
        && info_fault(METHOD, View::of(&method[3..23])) == READ
}

#[test]
fn a_component_without_a_count_may_end_after_its_records(rt: HostRuntime) {
    let wrong = PREFIXES.iter().position(|prefix| !may_end(prefix));
    assert!(rt; wrong.is_none() && may_go_on());
}

/// A format, a component's file, and the first fault in its info.
type InFormat = (Format, Part, &'static [u8], Told);

/// Files of both formats, read in each.
static IN_FORMATS: [InFormat; 8] = [
    (Format::V21, DIRECTORY, &OLDER_DIRECTORY, READ),
    (Format::V22, DIRECTORY, &OLDER_DIRECTORY, (2, 34, "Cut")),
    (
        Format::V21,
        DIRECTORY,
        &PLAIN_DIRECTORY,
        (2, 34, "Trailing"),
    ),
    (Format::V22, DIRECTORY, &PLAIN_DIRECTORY, READ),
    (Format::V21, CLASS, &OLDER_CLASS, READ),
    (Format::V22, CLASS, &OLDER_CLASS, (6, 83, "Cut")),
    (Format::V21, CLASS, &PLAIN_CLASS, (6, 85, "Cut")),
    (Format::V22, CLASS, &PLAIN_CLASS, READ),
];

/// Whether the info of a file has this first fault in a format.
fn has_fault_in(case: &InFormat) -> bool {
    let (format, part, file, want) = case;
    file.len() >= 3
        && file.len() <= 100
        && info_fault_in(*format, *part, View::of(&file[3..])) == *want
}

#[test]
fn a_component_is_read_in_the_format_that_is_given(rt: HostRuntime) {
    let wrong = IN_FORMATS.iter().position(|case| !has_fault_in(case));
    assert_eq!(rt; wrong, None);
}

/// A component's file, an offset, the byte that stands there instead, and what is told.
type Bad = (Part, &'static [u8], usize, u8, Told);

static BAD: [Bad; 26] = [
    (HEADER, &PLAIN_HEADER, 0, 2, (1, 0, "WrongTag")),
    (HEADER, &PLAIN_HEADER, 6, 0, (1, 3, "BadMagic")),
    // the minor version of the format, and the major one; format 2.1 has no name
    (HEADER, &PLAIN_HEADER, 7, 0, (1, 7, "BadVersion")),
    (HEADER, &PLAIN_HEADER, 7, 3, (1, 7, "BadVersion")),
    (HEADER, &PLAIN_HEADER, 7, 1, (1, 18, "Trailing")),
    (HEADER, &OLDER_HEADER, 7, 2, (1, 18, "Cut")),
    (HEADER, &PLAIN_HEADER, 8, 1, (1, 8, "BadVersion")),
    // the length of an AID
    (HEADER, &PLAIN_HEADER, 12, 4, (1, 12, "BadValue")),
    (HEADER, &PLAIN_HEADER, 12, 17, (1, 12, "BadValue")),
    (DIRECTORY, &CUSTOM, 48, 4, (2, 48, "BadValue")),
    (APPLET, &ONE_APPLET, 4, 4, (3, 4, "BadValue")),
    (IMPORT, &ONE_IMPORT, 6, 17, (4, 6, "BadValue")),
    // a custom component's tag that is too small, and one that came before
    (DIRECTORY, &CUSTOM, 36, 127, (2, 36, "BadValue")),
    (DIRECTORY, &CUSTOM, 45, 128, (2, 45, "BadValue")),
    // a pool entry's tag
    (CONSTANT_POOL, &POOL, 9, 0, (5, 9, "BadValue")),
    (CONSTANT_POOL, &POOL, 9, 7, (5, 9, "BadValue")),
    (CONSTANT_POOL, &POOL, 9, 255, (5, 9, "BadValue")),
    // a remote class, an interface after a class, and a remote interface after and before a class
    (CLASS, &PLAIN_CLASS, 15, 0x20, (6, 15, "Remote")),
    (CLASS, &PLAIN_CLASS, 15, 0x80, (6, 15, "BadValue")),
    (CLASS, &PLAIN_CLASS, 15, 0xA0, (6, 15, "BadValue")),
    (CLASS, &PLAIN_CLASS, 5, 0xA0, (6, 5, "Remote")),
    // the type of an initial array, its length, and how many references the image has
    (STATIC_FIELD, &IMAGE, 9, 1, (8, 9, "BadValue")),
    (STATIC_FIELD, &IMAGE, 9, 6, (8, 9, "BadValue")),
    (STATIC_FIELD, &IMAGE, 9, 5, READ),
    (STATIC_FIELD, &IMAGE, 11, 3, (8, 10, "BadValue")),
    (STATIC_FIELD, &IMAGE, 6, 0, (8, 7, "BadValue")),
];

/// Whether a file with that byte has this fault.
fn is_told(bad: &Bad) -> bool {
    let (part, file, at, byte, want) = bad;
    changed_fault(*part, file, *at, *byte) == *want
}

#[test]
fn a_bad_byte_is_named_by_its_item(rt: HostRuntime) {
    assert_eq!(rt; BAD.iter().position(|bad| !is_told(bad)), None);
}
