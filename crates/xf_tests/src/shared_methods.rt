use crate::sharing::{Outcome, ends_with, is_last, second, shared, with_field};
use cap_bytes::Part;
use cap_tests::{DESCRIPTOR, HANDLED, METHOD};
use std::alloc::{AllocError, Global};

/// `sload_0`, `sstore_2`, `sload_2`, `sstore_3`, `sload_3`, `sreturn`: once the one local is read into the other it is not
/// needed. The header and the code after, and whether sharing again changes nothing.
fn is_shared(alloc: Global) -> Result<bool, AllocError> {
    let outcome = shared(alloc, &second(b"\x01\x22", b"\x1C\x31\x1E\x32\x1F\x78"))?;
    Ok(
        ends_with(&outcome, METHOD, 10, b"\x01\x21\x1C\x31\x1E\x31\x1E\x78")
            && is_last(alloc, &outcome)?,
    )
}

/// Three locals become one, and so the last store and load have no operand: the branch leads to where its target comes to
/// stand. An index tells that place, and the Descriptor the new length.
fn is_shorter(alloc: Global) -> Result<bool, AllocError> {
    let code = b"\x1C\x31\x1E\x32\x1F\x29\x04\x16\x04\x60\x04\x03\x78\x04\x78";
    let outcome = shared(alloc, &second(b"\x01\x23", code))?;
    Ok(
        ends_with(
            &outcome,
            METHOD,
            10,
            b"\x01\x21\x1C\x31\x1E\x31\x1E\x31\x1E\x60\x04\x03\x78\x04\x78",
        ) && ends_with(
            &outcome,
            Part(128),
            0,
            b"\x80\x00\x08\x00\x02\x00\x00\x00\x01\x00\x0B",
        ) && is_last(alloc, &outcome)?,
    )
}

/// Both locals are read behind the stores of both.
fn is_apart(alloc: Global) -> Result<bool, AllocError> {
    let code = b"\x1C\x31\x1D\x32\x1E\x3B\x1F\x78";
    let outcome = shared(alloc, &second(b"\x01\x22", code))?;
    Ok(ends_with(
        &outcome,
        METHOD,
        10,
        b"\x01\x22\x1C\x31\x1D\x32\x1E\x3B\x1F\x78",
    ))
}

/// A local that is never written keeps all registers.
fn is_kept(alloc: Global) -> Result<bool, AllocError> {
    let code = b"\x1C\x31\x1E\x29\x04\x16\x04\x78";
    let outcome = shared(alloc, &second(b"\x01\x23", code))?;
    Ok(ends_with(
        &outcome,
        METHOD,
        10,
        b"\x01\x23\x1C\x31\x1E\x29\x04\x16\x04\x78",
    ))
}

/// Codes of the second method where it has no argument and two locals, and its header and its code after. Each begins with
/// `aconst_null`, `astore_0`; `getfield_s_this` and `putfield_s_this` read that local, which has the first register in any case.
static FIELDS: [(&[u8], &[u8]); 4] = [
    // `getfield_s_this` behind the store of the other local
    (
        b"\x01\x2B\x01\x2C\x19\x3B\xAF\x00\x78",
        b"\x01\x02\x01\x2B\x01\x2C\x19\x3B\xAF\x00\x78",
    ),
    // and before it
    (
        b"\x01\x2B\xAF\x00\x3B\x01\x2C\x19\x3B\x03\x78",
        b"\x01\x01\x01\x2B\xAF\x00\x3B\x01\x2B\x18\x3B\x03\x78",
    ),
    // `putfield_s_this` behind that store
    (
        b"\x01\x2B\x01\x2C\x19\x3B\x03\xB7\x00\x03\x78",
        b"\x01\x02\x01\x2B\x01\x2C\x19\x3B\x03\xB7\x00\x03\x78",
    ),
    // and before it
    (
        b"\x01\x2B\x03\xB7\x00\x01\x2C\x19\x3B\x03\x78",
        b"\x01\x01\x01\x2B\x03\xB7\x00\x01\x2B\x18\x3B\x03\x78",
    ),
];

/// Whether the code becomes that header and that code.
fn has_field(alloc: Global, code: &[u8], made: &[u8]) -> Result<bool, AllocError> {
    let outcome = shared(alloc, &with_field(code))?;
    Ok(ends_with(&outcome, METHOD, 10, made))
}

/// Whether each code does so.
fn have_field(alloc: Global) -> Result<bool, AllocError> {
    for (code, made) in FIELDS.iter() {
        if !has_field(alloc, code, made)? {
            return Ok(false);
        }
    }
    Ok(true)
}

/// The method with a handler keeps it.
fn has_handler(alloc: Global) -> Result<bool, AllocError> {
    let outcome = shared(alloc, &HANDLED)?;
    Ok(ends_with(
        &outcome,
        METHOD,
        3,
        b"\x01\x00\x13\x80\x04\x00\x17\x00\x00\x02\x10\x1C\x04\x41\x78\x01\x21\x18\x2D\x19\x2D\x1A\x93\x3B\x1A\x77",
    ))
}

/// Package T itself leaves a cell on the stack where control comes together, in its second method.
fn is_refused(alloc: Global) -> Result<bool, AllocError> {
    let outcome = shared(alloc, &[])?;
    Ok(matches!(outcome, Outcome::Refused(1)))
}

fn wrong(alloc: Global) -> Result<&'static str, AllocError> {
    if !is_shared(alloc)? {
        return Ok("shared");
    }
    if !is_shorter(alloc)? {
        return Ok("shorter");
    }
    if !is_apart(alloc)? {
        return Ok("apart");
    }
    if !is_kept(alloc)? {
        return Ok("kept");
    }
    if !have_field(alloc)? {
        return Ok("a field of this");
    }
    if !has_handler(alloc)? {
        return Ok("a handler");
    }
    Ok(if is_refused(alloc)? { "" } else { "refused" })
}

#[test]
fn the_registers_of_methods(rt: HostRuntime) -> Result<(), AllocError> {
    assert_eq!(rt; wrong(rt.alloc())?, "");
    Ok(())
}
