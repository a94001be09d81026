//! What is written of package T, in both formats, and of packages made of it.
use crate::writing::{Code, Outcome, is_package, written};
use cap_bytes::Part;
use cap_package::OwnedParts;
use cap_tests::{
    APPLET, CARD_DIRECTORY, CARD_INDEX, CARD_METHOD, CLASS, Change, DESCRIPTOR, DIRECTORY, EXPORT,
    File, OLDER, OLDER_CARD_DIRECTORY, PLAIN, WHOLE,
};
use std::alloc::{AllocError, Global};

/// `succ` as it is, and a longer `pick` with two branches.
const SUCC: Code<'static> = Code {
    bytes: &[0x1C, 0x04, 0x41, 0x78],
    handlers: 0,
    numbers: (3, 1, 0),
};

const PICK: Code<'static> = Code {
    bytes: &[
        0x1C, 0x1D, 0x32, 0x31, 0x1F, 0x60, 0x08, 0x1E, 0x04, 0x32, 0x31, 0x70, 0x06, 0x1E, 0x05,
        0x32, 0x31, 0x1E, 0x1F, 0x41, 0x78,
    ],
    handlers: 0,
    numbers: (3, 2, 2),
};

/// `succ` with an instruction more that does nothing, so that `pick` stands a byte later.
const LONGER_SUCC: Code<'static> = Code {
    bytes: &[0x00, 0x1C, 0x04, 0x41, 0x78],
    handlers: 0,
    numbers: (3, 1, 0),
};

/// What makes the applet and the export of a package name `pick`.
const BY_PICK: [Change<'static>; 2] = [
    Change::Byte(APPLET, 11, 0x07),
    Change::Byte(EXPORT, 11, 0x07),
];

/// A Directory with a custom component 128 that has another identifier, of two bytes.
const OTHER_DIRECTORY: [u8; 45] = [
    0x02, 0x00, 0x2A, 0x00, 0x10, 0x00, 0x2A, 0x00, 0x00, 0x00, 0x01, 0x00, 0x02, 0x00, 0x52, 0x00,
    0x13, 0x00, 0x0C, 0x00, 0x04, 0x00, 0x00, 0x00, 0x6F, 0x00, 0x00, 0x00, 0x02, 0x00, 0x00, 0x00,
    0x00, 0x00, 0x00, 0x01, 0x80, 0x00, 0x02, 0x05, 0xF0, 0x01, 0x02, 0x03, 0x04,
];

/// That component.
const OTHER: [u8; 5] = [0x80, 0x00, 0x02, 0x07, 0x09];

/// What makes package T one with it.
const WITH_OTHER: [Change<'static>; 2] = [
    Change::File(DIRECTORY, &OTHER_DIRECTORY),
    Change::File(Part(128), &OTHER),
];

/// A Class component with a shareable interface before the classes of package T, whose references are one byte further.
const SHAREABLE_CLASSES: [u8; 86] = [
    0x06, 0x00, 0x53, 0x00, 0x00, 0xC0, 0x00, 0xFF, 0xFF, 0x00, 0xFF, 0x00, 0x00, 0x00, 0x00, 0x00,
    0x00, 0x00, 0x03, 0x00, 0xFF, 0x00, 0x00, 0x00, 0x00, 0x00, 0x00, 0x00, 0x0D, 0x00, 0xFF, 0x00,
    0x00, 0x00, 0x00, 0x00, 0x00, 0x00, 0x0D, 0x00, 0xFF, 0x00, 0x00, 0x00, 0x00, 0x00, 0x00, 0x00,
    0x0D, 0x00, 0xFF, 0x00, 0x00, 0x00, 0x00, 0x00, 0x00, 0x00, 0x0D, 0x00, 0xFF, 0x00, 0x00, 0x00,
    0x00, 0x00, 0x00, 0x00, 0x0D, 0x00, 0xFF, 0x00, 0x00, 0x00, 0x00, 0x00, 0x00, 0x00, 0x0D, 0x00,
    0xFF, 0x00, 0x00, 0x00, 0x00, 0x00,
];

/// The Descriptor, with the interface first.
const SHAREABLE_DESCRIPTOR: [u8; 123] = [
    0x0B, 0x00, 0x78, 0x09, 0x00, 0x41, 0x00, 0x02, 0x00, 0x00, 0x00, 0x00, 0x00, 0x01, 0x01, 0x00,
    0x03, 0x00, 0x00, 0x01, 0x00, 0x02, 0x00, 0x09, 0x00, 0x00, 0x00, 0x80, 0x04, 0x00, 0x09, 0x00,
    0x01, 0x00, 0x02, 0x00, 0x04, 0x00, 0x00, 0x00, 0x00, 0x01, 0x09, 0x00, 0x07, 0x00, 0x04, 0x00,
    0x0A, 0x00, 0x00, 0x00, 0x00, 0x02, 0x01, 0x00, 0x0D, 0x00, 0x00, 0x00, 0x00, 0x00, 0x03, 0x01,
    0x00, 0x17, 0x00, 0x00, 0x00, 0x00, 0x00, 0x04, 0x01, 0x00, 0x21, 0x00, 0x00, 0x00, 0x00, 0x00,
    0x05, 0x01, 0x00, 0x2B, 0x00, 0x00, 0x00, 0x00, 0x00, 0x06, 0x01, 0x00, 0x35, 0x00, 0x00, 0x00,
    0x00, 0x00, 0x07, 0x01, 0x00, 0x3F, 0x00, 0x00, 0x00, 0x00, 0x00, 0x08, 0x01, 0x00, 0x49, 0x00,
    0x00, 0x00, 0x00, 0x00, 0x00, 0x00, 0x02, 0x44, 0x03, 0x44, 0x40,
];

/// The Directory with their sizes.
const SHAREABLE_DIRECTORY: [u8; 36] = [
    0x02, 0x00, 0x21, 0x00, 0x10, 0x00, 0x21, 0x00, 0x00, 0x00, 0x01, 0x00, 0x02, 0x00, 0x53, 0x00,
    0x13, 0x00, 0x0C, 0x00, 0x04, 0x00, 0x00, 0x00, 0x78, 0x00, 0x00, 0x00, 0x02, 0x00, 0x00, 0x00,
    0x00, 0x00, 0x00, 0x00,
];

/// What makes package T one with a shareable interface.
const WITH_SHAREABLE: [Change<'static>; 3] = [
    Change::File(DIRECTORY, &SHAREABLE_DIRECTORY),
    Change::File(CLASS, &SHAREABLE_CLASSES),
    Change::File(DESCRIPTOR, &SHAREABLE_DESCRIPTOR),
];

/// A part of the package that is written, from an offset of its file on.
#[derive(Clone, Copy)]
struct Piece {
    tag: u8,
    from: usize,
    bytes: &'static [u8],
}

/// A package that is written with the two methods, and pieces of what is written.
#[derive(Clone, Copy)]
struct Case {
    name: &'static str,
    files: &'static [File<'static>],
    changes: &'static [Change<'static>],
    more: &'static [Change<'static>],
    succ: Code<'static>,
    pieces: &'static [Piece],
}

static CASES: [Case; 5] = [
    Case {
        name: "package T",
        files: &PLAIN,
        changes: &[],
        more: &[],
        succ: SUCC,
        pieces: &[
            Piece {
                tag: 7,
                from: 0,
                bytes: &CARD_METHOD,
            },
            Piece {
                tag: 128,
                from: 0,
                bytes: &CARD_INDEX,
            },
            Piece {
                tag: 2,
                from: 0,
                bytes: &CARD_DIRECTORY,
            },
            Piece {
                tag: 11,
                from: 20,
                bytes: &[
                    0x00, 0x09, 0x00, 0x01, 0x00, 0x02, 0x00, 0x04, 0x00, 0x00, 0x00, 0x00, 0x01,
                    0x09, 0x00, 0x07, 0x00, 0x04, 0x00, 0x15, 0x00, 0x00, 0x00, 0x00,
                ],
            },
            Piece {
                tag: 9,
                from: 0,
                bytes: &[0x09, 0x00, 0x04, 0x00, 0x00, 0x00, 0x00],
            },
        ],
    },
    Case {
        name: "package T in format 2.1",
        files: &OLDER,
        changes: &[],
        more: &[],
        succ: SUCC,
        pieces: &[
            Piece {
                tag: 7,
                from: 0,
                bytes: &CARD_METHOD,
            },
            Piece {
                tag: 2,
                from: 0,
                bytes: &OLDER_CARD_DIRECTORY,
            },
        ],
    },
    Case {
        name: "every component",
        files: &PLAIN,
        changes: &WHOLE,
        more: &BY_PICK,
        succ: LONGER_SUCC,
        pieces: &[
            Piece {
                tag: 7,
                from: 0,
                bytes: &[0x07, 0x00, 0x1F, 0x00, 0x03, 0x10, 0x00, 0x1C],
            },
            Piece {
                tag: 3,
                from: 10,
                bytes: &[0x00, 0x08],
            },
            Piece {
                tag: 10,
                from: 10,
                bytes: &[0x00, 0x08],
            },
            Piece {
                tag: 11,
                from: 32,
                bytes: &[0x01, 0x09, 0x00, 0x08],
            },
            Piece {
                tag: 130,
                from: 0,
                bytes: &[0x82, 0x00, 0x02, 0x07, 0x09],
            },
            Piece {
                tag: 128,
                from: 0,
                bytes: &CARD_INDEX,
            },
        ],
    },
    Case {
        name: "a shareable interface",
        files: &PLAIN,
        changes: &WITH_SHAREABLE,
        more: &[],
        succ: LONGER_SUCC,
        pieces: &[
            Piece {
                tag: 6,
                from: 0,
                bytes: &SHAREABLE_CLASSES,
            },
            Piece {
                tag: 11,
                from: 41,
                bytes: &[
                    0x01, 0x09, 0x00, 0x08, 0x00, 0x04, 0x00, 0x15, 0x00, 0x00, 0x00, 0x00,
                ],
            },
        ],
    },
    Case {
        name: "a custom component 128 with another identifier",
        files: &PLAIN,
        changes: &WITH_OTHER,
        more: &[],
        succ: SUCC,
        pieces: &[
            Piece {
                tag: 128,
                from: 0,
                bytes: &OTHER,
            },
            Piece {
                tag: 2,
                from: 35,
                bytes: &[0x01, 0x80, 0x00, 0x02, 0x05, 0xF0, 0x01, 0x02, 0x03, 0x04],
            },
        ],
    },
];

/// Whether a part has these bytes from an offset on, to its end or further.
fn has_piece(parts: &OwnedParts, piece: &Piece) -> bool {
    match parts.get(Part(piece.tag)) {
        Some(file) => file
            .iter()
            .skip(piece.from)
            .take(piece.bytes.len())
            .eq(piece.bytes.iter()),
        None => false,
    }
}

fn changes_of(alloc: Global, case: &Case) -> Result<Vec<Change<'static>>, AllocError> {
    let mut changes = Vec::from_slice(alloc, case.changes)?;
    changes.extend_from_slice(case.more)?;
    Ok(changes)
}

fn is_right(alloc: Global, case: &Case) -> Result<bool, AllocError> {
    let changes = changes_of(alloc, case)?;
    match written(alloc, case.files, &changes, &[case.succ, PICK])? {
        Outcome::Written(parts) => {
            let whole = case.pieces.iter().all(|piece| has_piece(&parts, piece));
            Ok(whole && is_package(alloc, &parts)?)
        }
        Outcome::Long(_) | Outcome::Unfit => Ok(false),
    }
}

/// The first case of which something else is written.
fn first_wrong(alloc: Global) -> Result<&'static str, AllocError> {
    for case in &CASES {
        if !is_right(alloc, case)? {
            return Ok(case.name);
        }
    }
    Ok("")
}

#[test]
fn packages_of_both_formats_are_written(rt: HostRuntime) -> Result<(), AllocError> {
    assert_eq!(rt; first_wrong(rt.alloc())?, "");
    Ok(())
}

/// The bytes of the Method component when package T is written with so many bytes of code, or the plain size of one that
/// would be too long; and 0 where neither came.
fn method_bytes(
    alloc: Global,
    first: usize,
    second: usize,
    handlers: usize,
) -> Result<usize, AllocError> {
    let long = vec![in alloc; 0x7A; first]?;
    let other = vec![in alloc; 0x7A; second]?;
    let codes = [
        Code {
            bytes: &long,
            handlers,
            numbers: (3, 1, 0),
        },
        Code {
            bytes: &other,
            handlers: 0,
            numbers: (3, 2, 2),
        },
    ];
    match written(alloc, &PLAIN, &[], &codes)? {
        Outcome::Written(parts) => match parts.get(Part(7)) {
            Some(file) => Ok(file.len()),
            None => Ok(0),
        },
        Outcome::Long(size) => Ok(size as usize),
        Outcome::Unfit => Ok(0),
    }
}

#[test]
fn an_info_of_65535_bytes_is_written(rt: HostRuntime) -> Result<(), AllocError> {
    assert_eq!(rt; method_bytes(rt.alloc(), 32767, 32763, 0)?, 65538);
    Ok(())
}

#[test]
fn a_longer_info_ends_with_its_plain_size(rt: HostRuntime) -> Result<(), AllocError> {
    assert_eq!(rt; method_bytes(rt.alloc(), 32767, 32764, 0)?, 65540);
    Ok(())
}

#[test]
fn a_table_of_255_handlers_is_written(rt: HostRuntime) -> Result<(), AllocError> {
    assert_eq!(rt; method_bytes(rt.alloc(), 1, 1, 255)?, 2050);
    Ok(())
}
