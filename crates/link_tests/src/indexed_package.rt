use cap_bytes::Part;
use cap_tests::{CARD_DIRECTORY, CARD_METHOD, Change, DESCRIPTOR, DIRECTORY, METHOD};

/// The custom component of a target index.
const INDEX: Part = Part(128);

/// What makes package T one with the longer code for `pick`, whose length stands in the Descriptor.
const LONGER: [Change<'static>; 2] = [
    Change::Sized(METHOD, &CARD_METHOD),
    Change::Byte(DESCRIPTOR, 39, 0x15),
];

/// What makes it one with this file of an index besides, whose info has so many bytes.
pub(crate) fn with_index<'a>(file: &'a [u8], size: u8) -> [Change<'a>; 5] {
    [
        LONGER[0],
        LONGER[1],
        Change::File(DIRECTORY, &CARD_DIRECTORY),
        Change::Byte(DIRECTORY, 38, size),
        Change::File(INDEX, file),
    ]
}

/// What makes it one without an index.
pub(crate) fn without_index() -> [Change<'static>; 2] {
    LONGER
}
