ghost use Rattle.std.specs.Prelude.{◌≤◌};
ghost use Rattle.jc_link.specs.Statics.{static_cells};

use crate::lending::lent;
use crate::reading::{owned, read};
use cap_package::{OwnedParts, Packages};
use cap_tests::{Change, DESCRIPTOR, DIRECTORY, PLAIN, PLAIN_ROLES, STATIC_FIELD};
use jc_base::{ArrayRec, Kind, StaticRec, Ty};
use jc_link::{arrays, arrays_fit, statics, statics_fit};
use jc_resolve::{Names, names};
use std::alloc::{AllocError, Global};

/// Two initial arrays, three references, two zero bytes and seven values.
const IMAGE: [u8; 32] = [
    8, 0, 29, //
    0, 15, 0, 3, 0, 2, //
    3, 0, 2, 0x01, 0xFF, //
    5, 0, 4, 0x00, 0x01, 0xFF, 0xFE, //
    0, 2, 0, 7, 0x80, 0x12, 0x34, 0x00, 0x01, 0x80, 0x00,
];

/// Seven static fields: a byte, an array of bytes, an int, null, a short, a boolean and an array of ints.
const FIELDS: [u8; 49] = [
    0x00, 0x09, 0x00, 0x00, 0x08, 0x80, 0x03, //
    0x00, 0x09, 0x00, 0x00, 0x00, 0x00, 0x07, //
    0x00, 0x09, 0x00, 0x00, 0x0B, 0x80, 0x05, //
    0x00, 0x09, 0x00, 0x00, 0x04, 0x00, 0x07, //
    0x00, 0x09, 0x00, 0x00, 0x09, 0x80, 0x04, //
    0x00, 0x09, 0x00, 0x00, 0x06, 0x80, 0x02, //
    0x00, 0x09, 0x00, 0x00, 0x02, 0x00, 0x09,
];

/// What gives package T that image and these fields, and the types of their arrays.
const STATICS: [Change<'static>; 7] = [
    Change::Sized(STATIC_FIELD, &IMAGE),
    Change::Byte(DIRECTORY, 28, 15),
    Change::Byte(DIRECTORY, 30, 2),
    Change::Byte(DIRECTORY, 32, 6),
    Change::Byte(DESCRIPTOR, 10, 7),
    Change::Splice(DESCRIPTOR, 114, 114, &[0x01, 0xB0, 0x01, 0xD0]),
    Change::Splice(DESCRIPTOR, 13, 20, &FIELDS),
];

fn type_number(ty: Ty) -> u16 {
    match ty {
        Ty::Short => 1,
        Ty::IntHigh => 2,
        Ty::ArrBool => 3,
        Ty::ArrByte => 4,
        Ty::ArrShort => 5,
        Ty::ArrInt => 6,
        _ => 0,
    }
}

fn kind_number(kind: Kind) -> u16 {
    match kind {
        Kind::Ref => 1,
        Kind::Byte => 2,
        Kind::Short => 3,
        Kind::Int => 4,
    }
}

/// Tells package, offset, kind, type, slot and initial words of a static field.
fn push_field(field: &StaticRec, told: &mut Vec<u16>) -> Result<(), AllocError> {
    told.extend_from_slice(&[
        field.package,
        field.offset,
        kind_number(field.kind),
        type_number(field.ty),
        field.slot,
    ])?;
    told.extend_from_slice(field.initial.as_slice())
}

fn push_fields(
    alloc: Global,
    names: &Names<'_, '_, '_>,
    told: &mut Vec<u16>,
) -> Result<(), AllocError>
    requires { static_cells names.now.packages ≤ 32768 }
{
    let fields = statics(alloc, names)?;
    for field in fields.as_slice() {
        push_field(field, told)?;
    }
    Ok(())
}

/// Tells the type and the initial words of an initial array.
fn push_array(array: &ArrayRec, told: &mut Vec<u16>) -> Result<(), AllocError> {
    told.push(type_number(array.kind))?;
    told.extend_from_slice(array.initial.as_slice())
}

fn push_arrays(
    alloc: Global,
    packages: &Packages<'_, '_>,
    told: &mut Vec<u16>,
) -> Result<(), AllocError> {
    let arrays = arrays(alloc, packages)?;
    for array in arrays.as_slice() {
        push_array(array, told)?;
    }
    Ok(())
}

/// Tells how many packages there are, their initial arrays, and their static fields.
fn push_all(
    alloc: Global,
    names: &Names<'_, '_, '_>,
    told: &mut Vec<u16>,
) -> Result<(), AllocError> {
    names.facts();
    let packages = names.packages();
    told.push(packages.len() as u16)?;
    if statics_fit(packages).is_err() || arrays_fit(packages).is_err() {
        return Ok(());
    }
    push_arrays(alloc, packages, told)?;
    push_fields(alloc, names, told)
}

/// What is told of the package twice, as two packages.
const WANTED: [u16; 99] = [
    2, // two packages
    4, 0x0001, 0xFFFF, // bytes
    6, 0x0001, 0xFFFE, // an int
    4, 0x0001, 0xFFFF, 6, 0x0001, 0xFFFE, // and again
    0, 8, 2, 1, 0, 0xFF80, // a byte
    0, 0, 1, 4, 1, 1, // the first array
    0, 11, 4, 2, 2, 0x0001, 0x8000, // an int
    0, 4, 1, 4, 4, 0, // null
    0, 9, 3, 1, 5, 0x1234, // a short
    0, 6, 2, 1, 6, 0, // a boolean
    0, 2, 1, 6, 7, 2, // the second array
    1, 8, 2, 1, 8, 0xFF80, 1, 0, 1, 4, 9, 3, 1, 11, 4, 2, 10, 0x0001, 0x8000, 1, 4, 1, 4, 12, 0, 1,
    9, 3, 1, 13, 0x1234, 1, 6, 2, 1, 14, 0, 1, 2, 1, 6, 15, 4,
];

fn is_told(alloc: Global, names: &Names<'_, '_, '_>) -> Result<bool, AllocError> {
    let mut told = Vec::new(alloc);
    push_all(alloc, names, &mut told)?;
    Ok(told.as_slice() == WANTED.as_slice())
}

fn is_told_of(alloc: Global, packages: &Packages<'_, '_>) -> Result<bool, AllocError> {
    match names(alloc, packages, PLAIN_ROLES) {
        Ok(names) => is_told(alloc, &names),
        Err(_) => Ok(false),
    }
}

fn are_told(alloc: Global, packages: &[OwnedParts]) -> Result<bool, AllocError> {
    let parts = lent(alloc, packages)?;
    let packages = read(alloc, &parts)?;
    is_told_of(alloc, &packages)
}

fn both_are_told(alloc: Global) -> Result<bool, AllocError> {
    let packages = owned(alloc, &[(&PLAIN, &STATICS), (&PLAIN, &STATICS)])?;
    are_told(alloc, &packages)
}

#[test]
fn statics_and_arrays_have_their_initial_words(rt: HostRuntime) -> Result<(), AllocError> {
    assert!(rt; both_are_told(rt.alloc())?);
    Ok(())
}
