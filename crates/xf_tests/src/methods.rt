use crate::transforming::{Outcome, Second, ends_with, transformed, with_second};
use cap_tests::{Change, DESCRIPTOR, HANDLED, METHOD, PLAIN};
use std::alloc::{AllocError, Global};

/// One argument of the first class, and a result of a short: its local holds a short and then a reference.
const TWO_TYPES: Second<'static> = (
    b"\x06\x60\x00\x24",
    b"\x01\x11",
    b"\x04\x30\x1D\x3B\x18\x2C\x19\x3B\x03\x78",
);

/// What makes the second method one whose handler covers code alone that nothing comes to.
const DEAD: [Change<'static>; 7] = [
    Change::Splice(METHOD, 12, 22, b"\x1C\x78\x00\x93"),
    Change::Splice(METHOD, 10, 12, b"\x01\x20"),
    Change::Splice(METHOD, 3, 4, b"\x01\x00\x13\x80\x01\x00\x14\x00\x00"),
    Change::Byte(DESCRIPTOR, 41, 1),
    Change::Byte(DESCRIPTOR, 39, 4),
    Change::Byte(DESCRIPTOR, 35, 15),
    Change::Byte(DESCRIPTOR, 23, 9),
];

/// What makes the second method one with two handlers, of which the first covers what the second covers in part.
const NESTED: [Change<'static>; 7] = [
    Change::Splice(METHOD, 12, 22, b"\x00\x00\x00\x1C\x78\x93"),
    Change::Splice(METHOD, 10, 12, b"\x01\x20"),
    Change::Splice(
        METHOD,
        3,
        4,
        b"\x02\x00\x1A\x00\x01\x00\x1E\x00\x00\x00\x19\x80\x03\x00\x1E\x00\x00",
    ),
    Change::Byte(DESCRIPTOR, 41, 2),
    Change::Byte(DESCRIPTOR, 39, 6),
    Change::Byte(DESCRIPTOR, 35, 23),
    Change::Byte(DESCRIPTOR, 23, 17),
];

/// The Method component with the method of two types: the argument keeps its register, and the short and the reference have one each.
fn has_two_types(alloc: Global) -> Result<bool, AllocError> {
    let outcome = with_second(alloc, TWO_TYPES)?;
    Ok(ends_with(
        &outcome,
        METHOD,
        10,
        b"\x02\x12\x04\x30\x1D\x3B\x18\x2D\x1A\x3B\x03\x78",
    ))
}

/// That with the handler: it begins at place 4, has 9 bytes and is entered at place 18, where the caught object is stored.
fn has_handler(alloc: Global) -> Result<bool, AllocError> {
    let outcome = transformed(alloc, &PLAIN, &HANDLED)?;
    Ok(ends_with(
        &outcome,
        METHOD,
        3,
        b"\x01\x00\x15\x80\x09\x00\x23\x00\x00\x03\x10\x1C\x04\x41\x78\x02\x24\
          \x18\x2D\x1A\x2E\x19\x28\x04\x15\x04\x2E\x15\x04\x93\x15\x05\x3B\x1B\x77\x28\x05\x70\xF9",
    ))
}

/// That without the dead handler, and without the dead bytes.
fn has_no_handler(alloc: Global) -> Result<bool, AllocError> {
    let outcome = transformed(alloc, &PLAIN, &DEAD)?;
    Ok(ends_with(
        &outcome,
        METHOD,
        3,
        b"\x00\x03\x10\x1C\x04\x41\x78\x02\x20\x1C\x78",
    ))
}

/// That with both handlers in their order: the stop bit of the inner one is not set, and that of the outer one is.
fn has_both_handlers(alloc: Global) -> Result<bool, AllocError> {
    let outcome = transformed(alloc, &PLAIN, &NESTED)?;
    Ok(match &outcome {
        Outcome::Made(made) => match made.get(METHOD) {
            Some(file) => { file.len() > 20 && file[3] == 2 && file[6] < 0x80 && file[14] >= 0x80 }
            None => false,
        },
        _ => false,
    })
}

fn wrong(alloc: Global) -> Result<&'static str, AllocError> {
    if !has_two_types(alloc)? {
        return Ok("two types");
    }
    if !has_handler(alloc)? {
        return Ok("a handler");
    }
    if !has_no_handler(alloc)? {
        return Ok("a dead handler");
    }
    Ok(if has_both_handlers(alloc)? {
        ""
    } else {
        "two handlers"
    })
}

#[test]
fn the_code_of_methods(rt: HostRuntime) -> Result<(), AllocError> {
    assert_eq!(rt; wrong(rt.alloc())?, "");
    Ok(())
}
