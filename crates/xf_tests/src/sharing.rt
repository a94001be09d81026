//! Packages whose registers are shared, and what came of it.
use cap_bytes::Part;
use cap_package::{OwnedParts, Packages, package};
use cap_tests::{CLASS, CONSTANT_POOL, Change, DESCRIPTOR, METHOD, PLAIN, PLAIN_ROLES, changed};
use std::alloc::{AllocError, Global};
use xf_share::{ShareEnd, share};

/// What came of sharing.
#[derive(Drop)]
pub(crate) enum Outcome {
    Made(OwnedParts),
    /// The number of a method without a card typing.
    Refused(u16),
    /// It is no package, or its registers are not shared for another reason.
    Unfit,
}

/// Shares the registers of package T after the changes.
pub(crate) fn shared(alloc: Global, changes: &[Change<'_>]) -> Result<Outcome, AllocError> {
    let owned = changed(alloc, &PLAIN, changes)?;
    of_parts(alloc, &owned)
}

/// Shares the registers of a package alone.
pub(crate) fn of_parts(alloc: Global, owned: &OwnedParts) -> Result<Outcome, AllocError> {
    let parts = owned.lend(alloc)?;
    let Ok(package) = package(&parts) else {
        return Ok(Outcome::Unfit);
    };
    let mut packages = Packages::new(alloc);
    packages.push(package)?;
    match share(alloc, &packages, PLAIN_ROLES) {
        Ok(made) => Ok(Outcome::Made(made)),
        Err(ShareEnd::Refused { method, .. }) => Ok(Outcome::Refused(method)),
        Err(ShareEnd::Memory) => Err(AllocError),
        Err(_) => Ok(Outcome::Unfit),
    }
}

/// What gives the second method of package T, which takes two shorts and gives one, another header and other code.
pub(crate) fn second<'a>(header: &'a [u8], code: &'a [u8]) -> [Change<'a>; 4] {
    let [high, low] = u16::try_from(code.len()).unwrap_or(0).to_be_bytes();
    [
        Change::Splice(METHOD, 12, 22, code),
        Change::Splice(METHOD, 10, 12, header),
        Change::Byte(DESCRIPTOR, 38, high),
        Change::Byte(DESCRIPTOR, 39, low),
    ]
}

/// What gives throwable a field, a short, which the one constant names, and the second method other code, no argument, a short
/// as its result, two locals and one cell of the operand stack.
pub(crate) fn with_field<'a>(code: &'a [u8]) -> [Change<'a>; 10] {
    let size = u8::try_from(code.len()).unwrap_or(0);
    [
        Change::Splice(CONSTANT_POOL, 3, 5, b"\x00\x01\x02\x00\x0C\x00"),
        Change::Byte(CLASS, 18, 1),
        Change::Splice(METHOD, 12, 22, code),
        Change::Splice(METHOD, 10, 12, b"\x01\x02"),
        Change::Splice(DESCRIPTOR, 111, 114, b"\x01\x40"),
        Change::Splice(DESCRIPTOR, 107, 109, b"\x00\x01\x80\x04"),
        Change::Splice(
            DESCRIPTOR,
            49,
            53,
            b"\x00\x01\x00\x00\x00\x01\x00\x0C\x00\x80\x04",
        ),
        Change::Byte(DESCRIPTOR, 39, size),
        Change::Byte(DESCRIPTOR, 37, 6),
        Change::Byte(DESCRIPTOR, 25, 4),
    ]
}

/// Whether a part was made, and from an offset on it has these bytes alone.
pub(crate) fn ends_with(outcome: &Outcome, part: Part, from: usize, bytes: &[u8]) -> bool {
    match outcome {
        Outcome::Made(made) => match made.get(part) {
            Some(file) => from <= file.len() && &file[from..] == bytes,
            None => false,
        },
        _ => false,
    }
}

/// Whether both have the same component of this number, or neither has it.
fn is_same(made: &OwnedParts, other: &OwnedParts, part: Part) -> bool {
    match made.get(part) {
        Some(file) => match other.get(part) {
            Some(own) => file == own,
            None => false,
        },
        None => other.get(part).is_none(),
    }
}

/// Whether both have the same components.
fn are_same(made: &OwnedParts, other: &OwnedParts) -> bool {
    for number in 1..=255u8 {
        if !is_same(made, other, Part(number)) {
            return false;
        }
    }
    true
}

/// Whether registers that are shared stay as they are.
pub(crate) fn is_last(alloc: Global, outcome: &Outcome) -> Result<bool, AllocError> {
    let Outcome::Made(made) = outcome else {
        return Ok(false);
    };
    let again = of_parts(alloc, made)?;
    Ok(match &again {
        Outcome::Made(other) => are_same(made, other),
        _ => false,
    })
}
