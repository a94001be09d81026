use crate::{forms, *};
use cap_bytes::Part;
use cap_package::{OwnedParts, PackFault, Package, Packages, Parts, package};
use std::alloc::{AllocError, Global};

/// A fault's name and what it names.
type Told = (&'static str, u32, u32, u32);

/// Changes of package T, and what is wrong then.
type Case = (&'static [Change<'static>], Told);

fn named(fault: PackFault) -> Told {
    match fault {
        PackFault::Form(form) => {
            let (part, at, kind) = forms::named(form);
            (kind, part as u32, at, 0)
        }
        PackFault::MissingPart(part) => ("MissingPart", part as u32, 0, 0),
        PackFault::SizeDisagrees(part, said, found) => {
            ("SizeDisagrees", part as u32, said as u32, found as u32)
        }
        PackFault::MethodOverlaps(a, b) => ("MethodOverlaps", a as u32, b as u32, 0),
        PackFault::MethodOutside(offset) => ("MethodOutside", offset as u32, 0, 0),
        PackFault::CountDisagrees(what, said, found) => {
            ("CountDisagrees", what.number() as u32, said, found)
        }
        PackFault::HandlerOutside(number) => ("HandlerOutside", number, 0, 0),
        PackFault::StaticOverlaps(a, b) => ("StaticOverlaps", a as u32, b as u32, 0),
        PackFault::NoMethodAt(offset) => ("NoMethodAt", offset as u32, 0, 0),
        PackFault::ClassUndescribed(offset) => ("ClassUndescribed", offset as u32, 0, 0),
        PackFault::TooManyRegisters(offset, n) => {
            ("TooManyRegisters", offset as u32, n as u32, 0)
        }
        PackFault::BadType(offset) => ("BadType", offset as u32, 0, 0),
        PackFault::StaticOutside(offset) => ("StaticOutside", offset as u32, 0, 0),
        PackFault::MethodLength(offset, n) => ("MethodLength", offset as u32, n as u32, 0),
        PackFault::NoStaticAt(offset) => ("NoStaticAt", offset as u32, 0, 0),
        PackFault::PartTooLong(part) => ("PartTooLong", part as u32, 0, 0),
    }
}

/// What is wrong with the parts, if they stand for no package.
fn told(alloc: Global, owned: &OwnedParts) -> Result<Told, AllocError> {
    let parts = owned.lend(alloc)?;
    match package(&parts) {
        Ok(_) => Ok(("package", 0, 0, 0)),
        Err(fault) => Ok(named(fault)),
    }
}

fn told_of(alloc: Global, files: &[File<'_>], case: &Case) -> Result<Told, AllocError> {
    let owned = changed(alloc, files, case.0)?;
    told(alloc, &owned)
}

/// The first of the cases that is told otherwise, of changes of the package with these files.
fn first_wrong(
    alloc: Global,
    files: &[File<'_>],
    cases: &[Case],
) -> Result<Option<usize>, AllocError> {
    for (n, case) in cases.iter().enumerate() {
        if told_of(alloc, files, case)? != case.1 {
            return Ok(Some(n));
        }
    }
    Ok(None)
}

/// What is after the 35 bytes of a Directory's file: one custom component, of tag 130 and two bytes.
const ONE_CUSTOM: [u8; 10] = [1, 0x82, 0, 2, 5, 0xF0, 1, 2, 3, 4];

/// Package T in format 2.1, then with the Header's minor version 2, and with the size of an Applet component.
static OLDER_PARTS: [Case; 3] = [
    (&[], ("package", 0, 0, 0)),
    (&[Change::Byte(HEADER, 7, 2)], ("Cut", 1, 18, 0)),
    (
        &[Change::Size(APPLET, 9), Change::Byte(DIRECTORY, 32, 1)],
        ("MissingPart", 3, 0, 0),
    ),
];

static PARTS: [Case; 12] = [
    // where the Header is malformed, no size of the Directory is asked, and its own fault comes after
    // that of a part that every package has
    (
        &[Change::Byte(HEADER, 7, 3), Change::Size(APPLET, 9)],
        ("BadVersion", 1, 7, 0),
    ),
    (
        &[Change::Byte(HEADER, 7, 3), Change::Without(METHOD)],
        ("MissingPart", 7, 0, 0),
    ),
    // and no other part is read
    (
        &[
            Change::Byte(HEADER, 7, 3),
            Change::File(DIRECTORY, &[2, 0, 1, 0]),
        ],
        ("BadVersion", 1, 7, 0),
    ),
    (&[], ("package", 0, 0, 0)),
    (&[Change::Without(METHOD)], ("MissingPart", 7, 0, 0)),
    (
        &[Change::Size(APPLET, 9), Change::Byte(DIRECTORY, 34, 1)],
        ("MissingPart", 3, 0, 0),
    ),
    (
        &[Change::Splice(DIRECTORY, 35, 36, &ONE_CUSTOM)],
        ("MissingPart", 130, 0, 0),
    ),
    (
        &[Change::File(
            METHOD,
            &[
                0x07, 0x00, 0x13, 0x00, 0x02, 0x10, 0x1C, 0x04, 0x41, 0x78, 0x02, 0x20, 0x1C, 0x1D,
                0x60, 0x05, 0x04, 0x70, 0x03, 0x05, 0x41,
            ],
        )],
        ("Cut", 7, 21, 0),
    ),
    (&[Change::File(HEADER, &[])], ("Cut", 1, 0, 0)),
    (
        &[
            Change::Splice(DIRECTORY, 35, 36, &ONE_CUSTOM),
            Change::File(Part(130), &[0x83, 0x00, 0x02, 0x01, 0x02]),
        ],
        ("WrongTag", 130, 0, 0),
    ),
    (&[Change::Size(METHOD, 20)], ("SizeDisagrees", 7, 20, 19)),
    (
        &[
            Change::Splice(DIRECTORY, 35, 36, &ONE_CUSTOM),
            Change::Byte(DIRECTORY, 38, 3),
            Change::File(Part(130), &[0x82, 0x00, 0x02, 0x01, 0x02]),
        ],
        ("SizeDisagrees", 130, 3, 2),
    ),
];

static COUNTS: [Case; 10] = [
    // the Directory's imports, applets, bytes of the image, initial arrays, and bytes of these
    (
        &[Change::Byte(DIRECTORY, 33, 1)],
        ("CountDisagrees", 1, 1, 0),
    ),
    (
        &[Change::Byte(DIRECTORY, 34, 1)],
        ("CountDisagrees", 2, 1, 0),
    ),
    (
        &[Change::Byte(DIRECTORY, 28, 3)],
        ("CountDisagrees", 3, 3, 2),
    ),
    (
        &[Change::Byte(DIRECTORY, 30, 1)],
        ("CountDisagrees", 4, 1, 0),
    ),
    (
        &[Change::Byte(DIRECTORY, 32, 4)],
        ("CountDisagrees", 5, 4, 0),
    ),
    // the types of pool entries, a method's arguments, and the cells of an instance
    (
        &[Change::Splice(DESCRIPTOR, 107, 109, &[0, 1, 0, 0])],
        ("CountDisagrees", 6, 1, 0),
    ),
    (
        &[Change::Byte(METHOD, 5, 0x20)],
        ("CountDisagrees", 7, 2, 1),
    ),
    (&[Change::Byte(CLASS, 8, 1)], ("CountDisagrees", 8, 1, 0)),
    // the zero bytes of the image, and the code of an abstract method
    (
        &[Change::Byte(STATIC_FIELD, 10, 1)],
        ("CountDisagrees", 9, 2, 3),
    ),
    (
        &[Change::Byte(METHOD, 10, 0x42)],
        ("CountDisagrees", 10, 10, 0),
    ),
];

static MEMBERS: [Case; 13] = [
    // where a method begins, its length, and its handlers
    (
        &[Change::Byte(DESCRIPTOR, 27, 5)],
        ("MethodOverlaps", 1, 7, 0),
    ),
    (
        &[Change::Byte(DESCRIPTOR, 39, 11)],
        ("MethodOutside", 7, 0, 0),
    ),
    (
        &[Change::Byte(DESCRIPTOR, 39, 0)],
        ("MethodLength", 7, 0, 0),
    ),
    (
        &[Change::Byte(DESCRIPTOR, 29, 1)],
        ("HandlerOutside", 0, 0, 0),
    ),
    // a class reference that names no record: its methods are asked as those of a class
    (
        &[
            Change::Byte(DESCRIPTOR, 7, 1),
            Change::Splice(DESCRIPTOR, 22, 24, &[0xFF, 0xFF]),
        ],
        ("MethodOutside", 0xFFFF, 0, 0),
    ),
    // an extended header with 2 argument words and 254 locals
    (
        &[Change::Splice(METHOD, 10, 12, &[0x80, 2, 2, 0xFE])],
        ("TooManyRegisters", 7, 256, 0),
    ),
    // a class's offset, and a method's type
    (
        &[Change::Byte(DESCRIPTOR, 7, 3)],
        ("ClassUndescribed", 2, 0, 0),
    ),
    (&[Change::Byte(DESCRIPTOR, 25, 99)], ("BadType", 99, 0, 0)),
    // a static field's place, and a second field at the next byte
    (
        &[Change::Byte(DESCRIPTOR, 17, 1)],
        ("StaticOutside", 1, 0, 0),
    ),
    (
        &[
            Change::Byte(DESCRIPTOR, 10, 2),
            Change::Splice(DESCRIPTOR, 20, 20, &[1, 9, 0, 0, 1, 0x80, 4]),
        ],
        ("StaticOverlaps", 0, 1, 0),
    ),
    // an applet's install method, an exported method, and an exported static field
    (
        &[
            Change::Byte(DIRECTORY, 34, 1),
            Change::Sized(APPLET, &[3, 0, 9, 1, 5, 0xF0, 1, 2, 3, 4, 0, 5]),
        ],
        ("NoMethodAt", 5, 0, 0),
    ),
    (
        &[Change::Sized(EXPORT, &[10, 0, 7, 1, 0, 2, 0, 1, 0, 5])],
        ("NoMethodAt", 5, 0, 0),
    ),
    (
        &[Change::Sized(EXPORT, &[10, 0, 7, 1, 0, 2, 1, 0, 0, 4])],
        ("NoStaticAt", 4, 0, 0),
    ),
];

#[test]
fn the_first_fault_of_parts_is_named(rt: HostRuntime) -> Result<(), AllocError> {
    assert_eq!(rt; first_wrong(rt.alloc(), &PLAIN, &PARTS)?, None);
    Ok(())
}

#[test]
fn the_first_fault_of_parts_in_format_2_1_is_named(rt: HostRuntime) -> Result<(), AllocError> {
    assert_eq!(rt; first_wrong(rt.alloc(), &OLDER, &OLDER_PARTS)?, None);
    Ok(())
}

#[test]
fn the_first_count_that_disagrees_is_named(rt: HostRuntime) -> Result<(), AllocError> {
    assert_eq!(rt; first_wrong(rt.alloc(), &PLAIN, &COUNTS)?, None);
    Ok(())
}

#[test]
fn the_first_fault_of_members_is_named(rt: HostRuntime) -> Result<(), AllocError> {
    assert_eq!(rt; first_wrong(rt.alloc(), &PLAIN, &MEMBERS)?, None);
    Ok(())
}

/// The bytes of the infos of the custom components 130, 129 and 131.
fn custom_sizes(alloc: Global, owned: &OwnedParts) -> (usize, usize, usize) {
    let parts = match owned.lend(alloc) {
        Ok(parts) => parts,
        Err(_) => return (6, 6, 6),
    };
    match package(&parts) {
        Ok(found) => (
            custom_size(&found, 130),
            custom_size(&found, 129),
            custom_size(&found, 131),
        ),
        Err(_) => (7, 7, 7),
    }
}

/// The bytes of a custom component's info, and 9 where there is none.
fn custom_size(found: &Package<'_, '_>, tag: u8) -> usize {
    match found.custom(tag) {
        Some(custom) => custom.info.bytes.len(),
        None => 9,
    }
}

/// Pushes the parts one by one, and the package of them: how many packages there are then, and how many
/// parts the first has.
fn pushed(alloc: Global, owned: &OwnedParts) -> Result<(usize, usize), AllocError> {
    let mut parts = Parts::new(alloc);
    for n in 0..owned.len() {
        let (part, bytes) = owned.at(n);
        if parts.get(part).is_none() {
            parts.push(part, bytes)?;
        }
    }
    pushed_package(alloc, parts)
}

fn pushed_package(alloc: Global, parts: Parts<'_>) -> Result<(usize, usize), AllocError> {
    match package(&parts) {
        Ok(found) => pushed_alone(alloc, found),
        Err(_) => Ok((0, 0)),
    }
}

fn pushed_alone(alloc: Global, found: Package<'_, '_>) -> Result<(usize, usize), AllocError> {
    let mut packages = Packages::new(alloc);
    packages.push(found)?;
    Ok((packages.len(), packages.at(0).parts().len()))
}

/// Whether a package has its optional and custom parts.
fn is_whole(alloc: Global, owned: &OwnedParts) -> Result<bool, AllocError> {
    Ok(
        owned.len() == 12
            && told(alloc, owned)? == ("package", 0, 0, 0)
            && custom_sizes(alloc, owned) == (2, 0, 9)
            && pushed(alloc, owned)? == (1, 12),
    )
}

fn has_whole(alloc: Global) -> Result<bool, AllocError> {
    let owned = changed(alloc, &PLAIN, &WHOLE)?;
    is_whole(alloc, &owned)
}

#[test]
fn a_package_has_its_optional_and_custom_parts(rt: HostRuntime) -> Result<(), AllocError> {
    assert!(rt; has_whole(rt.alloc())?);
    Ok(())
}
