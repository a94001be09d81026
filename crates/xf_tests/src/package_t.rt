use crate::transforming::{Outcome, ends_with, transformed};
use cap_bytes::Part;
use cap_tests::{
    CARD_DIRECTORY, CARD_INDEX, CARD_METHOD, CLASS, CONSTANT_POOL, DESCRIPTOR, DIRECTORY, HEADER,
    IMPORT, METHOD, OLDER, OLDER_CARD_DIRECTORY, OLDER_CLASS, OLDER_HEADER, PLAIN, PLAIN_CLASS,
    PLAIN_CONSTANT_POOL, PLAIN_HEADER, PLAIN_IMPORT, PLAIN_REF_LOCATION, PLAIN_STATIC_FIELD,
    REF_LOCATION, STATIC_FIELD,
};
use std::alloc::{AllocError, Global};

/// The Descriptor from the second method's offset on: the offset stays, and the code has 21 bytes.
const NEW_SECOND: [u8; 80] = [
    0x00, 0x07, 0x00, 0x04, 0x00, 0x15, 0x00, 0x00, 0x00, 0x00, 0x01, 0x01, 0x00, 0x0C, 0x00, 0x00,
    0x00, 0x00, 0x00, 0x02, 0x01, 0x00, 0x16, 0x00, 0x00, 0x00, 0x00, 0x00, 0x03, 0x01, 0x00, 0x20,
    0x00, 0x00, 0x00, 0x00, 0x00, 0x04, 0x01, 0x00, 0x2A, 0x00, 0x00, 0x00, 0x00, 0x00, 0x05, 0x01,
    0x00, 0x34, 0x00, 0x00, 0x00, 0x00, 0x00, 0x06, 0x01, 0x00, 0x3E, 0x00, 0x00, 0x00, 0x00, 0x00,
    0x07, 0x01, 0x00, 0x48, 0x00, 0x00, 0x00, 0x00, 0x00, 0x00, 0x00, 0x02, 0x44, 0x03, 0x44, 0x40,
];

/// A part, an offset of its file, and all bytes from there on.
type Expected = (Part, usize, &'static [u8]);

static NEWER: [Expected; 10] = [
    (HEADER, 0, &PLAIN_HEADER),
    (DIRECTORY, 0, &CARD_DIRECTORY),
    (IMPORT, 0, &PLAIN_IMPORT),
    (CONSTANT_POOL, 0, &PLAIN_CONSTANT_POOL),
    (CLASS, 0, &PLAIN_CLASS),
    (METHOD, 0, &CARD_METHOD),
    (STATIC_FIELD, 0, &PLAIN_STATIC_FIELD),
    (REF_LOCATION, 0, &PLAIN_REF_LOCATION),
    (DESCRIPTOR, 34, &NEW_SECOND),
    (Part(128), 0, &CARD_INDEX),
];

static OLDER_ONES: [Expected; 5] = [
    (HEADER, 0, &OLDER_HEADER),
    (DIRECTORY, 0, &OLDER_CARD_DIRECTORY),
    (CLASS, 0, &OLDER_CLASS),
    (METHOD, 0, &CARD_METHOD),
    (Part(128), 0, &CARD_INDEX),
];

/// The first part that is another than expected.
fn first_other(outcome: &Outcome, parts: &[Expected]) -> Option<usize> {
    parts.iter().position(|(part, from, bytes)| !ends_with(outcome, *part, *from, bytes))
}

fn wrong(alloc: Global) -> Result<(Option<usize>, Option<usize>), AllocError> {
    let newer = transformed(alloc, &PLAIN, &[])?;
    let older = transformed(alloc, &OLDER, &[])?;
    Ok((
        first_other(&newer, &NEWER),
        first_other(&older, &OLDER_ONES),
    ))
}

#[test]
fn the_parts_of_package_t_in_both_formats(rt: HostRuntime) -> Result<(), AllocError> {
    assert_eq!(rt; wrong(rt.alloc())?, (None, None));
    Ok(())
}
