use crate::transforming::{Outcome, with_second};
use cap_tests::METHOD;
use std::alloc::{AllocError, Global};
use xf_pack::MethodLimit;

/// One argument and a result of shorts.
const OF_SHORTS: &[u8] = b"\x02\x44\x40";

/// Code that stores its argument in each of 254 locals and loads it again, and where it is wanted a null in the first of them.
fn code(alloc: Global, with_null: bool) -> Result<Vec<u8>, AllocError> {
    let mut code = Vec::new(alloc);
    for local in 1..255u8 {
        code.extend_from_slice(&[0x1C, 0x29, local, 0x16, local, 0x3B])?;
    }
    if with_null {
        code.extend_from_slice(b"\x01\x28\x01\x15\x01\x3B")?;
    }
    code.extend_from_slice(b"\x1C\x78")?;
    Ok(code)
}

/// The outcome for that method, with so many cells of stack.
fn outcome(alloc: Global, with_null: bool, stack: u8) -> Result<Outcome, AllocError> {
    let code = code(alloc, with_null)?;
    with_second(alloc, (OF_SHORTS, &[0x80, stack, 1, 254], &code))
}

/// Whether each home has a register, where there are 255.
fn is_full(alloc: Global) -> Result<bool, AllocError> {
    let outcome = outcome(alloc, false, 1)?;
    Ok(matches!(outcome, Outcome::Made(_)))
}

/// How many registers the homes would take, where there are more than 255; and the number of the method.
fn registers(alloc: Global) -> Result<Option<(u16, u32)>, AllocError> {
    let outcome = outcome(alloc, true, 1)?;
    Ok(match &outcome {
        Outcome::Limited(method, MethodLimit::Registers(count)) => Some((*method, *count)),
        _ => None,
    })
}

/// Whether there is room for one more cell on a stack of 254, and none on one of 255.
fn has_room(alloc: Global) -> Result<bool, AllocError> {
    let room = outcome(alloc, false, 254)?;
    let full = outcome(alloc, false, 255)?;
    Ok(
        matches!(room, Outcome::Made(_))
            && matches!(full, Outcome::Limited(1, MethodLimit::StackLimit)),
    )
}

/// Code with a switch of 4,800 cases that lead where its default does, to a place where a byte array or null stands in local
/// 1, which holds null at the switch: `sload_0`, `pop`, four times; `sspush 1`, `pop`, twice; `sload_0`, `ifeq` to 26,
/// `sconst_1`, `newarray` of bytes, `astore_1`, `goto_w` 9636; at 26 `aconst_null`, `astore_1`, `sload_0`, `stableswitch` 0 to
/// 4799, all to 9636; there `sconst_0`, `sreturn`.
fn switching(alloc: Global) -> Result<Vec<u8>, AllocError> {
    let mut code = Vec::from_slice(
        alloc,
        b"\x1C\x3B\x1C\x3B\x1C\x3B\x1C\x3B\x11\x00\x01\x3B\x11\x00\x01\x3B",
    )?;
    code.extend_from_slice(b"\x1C\x60\x09\x04\x90\x0B\x2C\xA8\x25\x8D\x01\x2C\x1C")?;
    code.extend_from_slice(b"\x73\x25\x87\x00\x00\x12\xBF")?;
    for _case in 0..4800u16 {
        code.extend_from_slice(b"\x25\x87")?;
    }
    code.extend_from_slice(b"\x03\x78")?;
    Ok(code)
}

/// The stub of all cases, at the end of the method: `aload_2`, `astore_1`, `goto` back to `sconst_0`, `sreturn`.
const STUB: &[u8] = b"\x03\x78\x1A\x2C\x70\xFC";

/// How long the Method component is whose second method has that switch, if it is made and ends with one stub.
fn switched(alloc: Global) -> Result<Option<usize>, AllocError> {
    let code = switching(alloc)?;
    let outcome = with_second(alloc, (OF_SHORTS, &[0x80, 200, 1, 1], &code))?;
    Ok(match &outcome {
        Outcome::Made(made) => match made.get(METHOD) {
            Some(file) if file.ends_with(STUB) => Some(file.len()),
            _ => None,
        },
        _ => None,
    })
}

#[test]
fn cases_that_lead_to_one_place_have_one_stub(rt: HostRuntime) -> Result<(), AllocError> {
    // four bytes before the methods, 6 of the first, and 9,646 of the second
    assert_eq!(rt; switched(rt.alloc())?, Some(9656));
    Ok(())
}

#[test]
fn registers_at_their_limit(rt: HostRuntime) -> Result<(), AllocError> {
    assert!(rt; is_full(rt.alloc())?);
    assert_eq!(rt; registers(rt.alloc())?, Some((1, 256)));
    Ok(())
}

#[test]
fn stack_at_its_limit(rt: HostRuntime) -> Result<(), AllocError> {
    assert!(rt; has_room(rt.alloc())?);
    Ok(())
}
