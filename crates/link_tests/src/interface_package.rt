use cap_bytes::Part;
use cap_package::OwnedParts;
use cap_tests::{CLASS, Change, DESCRIPTOR, DIRECTORY, METHOD, PLAIN, STATIC_FIELD, changed};
use std::alloc::{AllocError, Global};

/// How much a package of one interface has: initial arrays, bytes of each of them, static fields of type
/// int, and methods of the interface.
#[derive(Clone, Copy)]
pub(crate) struct Sizes {
    pub(crate) arrays: u16,
    pub(crate) each: u16,
    pub(crate) fields: u16,
    pub(crate) methods: u16,
}

/// A Class component of one interface, whose record stands at offset 2.
const ONE_INTERFACE: [u8; 6] = [0x06, 0x00, 0x03, 0x00, 0x00, 0x80];

/// A Method component without handlers and methods.
const NO_METHODS: [u8; 4] = [0x07, 0x00, 0x01, 0x00];

/// The last two bytes of a number.
fn two(n: usize) -> [u8; 2] {
    let [_, _, _, _, _, _, high, low] = n.to_be_bytes();
    [high, low]
}

/// A component's file.
fn component(alloc: Global, part: Part, info: &[u8]) -> Result<Vec<u8>, AllocError> {
    let mut file = Vec::new(alloc);
    file.push(part.0)?;
    file.extend_from_slice(&two(info.len()))?;
    file.extend_from_slice(info)?;
    Ok(file)
}

/// Where a field stands in the image: after the references to the arrays and the fields before it.
fn offset_of(sizes: Sizes, field: u16) -> usize {
    2 * sizes.arrays as usize + 4 * field as usize
}

/// The info of a StaticField component.
fn statics(alloc: Global, sizes: Sizes) -> Result<Vec<u8>, AllocError> {
    let mut info = Vec::new(alloc);
    info.extend_from_slice(&two(offset_of(sizes, sizes.fields)))?;
    info.extend_from_slice(&sizes.arrays.to_be_bytes())?;
    info.extend_from_slice(&sizes.arrays.to_be_bytes())?;
    for _ in 0..sizes.arrays {
        info.push(3)?;
        info.extend_from_slice(&sizes.each.to_be_bytes())?;
        for _ in 0..sizes.each {
            info.push(0)?;
        }
    }
    info.extend_from_slice(&two(4 * sizes.fields as usize))?;
    info.extend_from_slice(&[0x00, 0x00])?;
    Ok(info)
}

/// The info of a Descriptor component, with the type of a method without arguments and result.
fn descriptor(alloc: Global, sizes: Sizes) -> Result<Vec<u8>, AllocError> {
    let mut info = Vec::new(alloc);
    info.extend_from_slice(&[0x01, 0x00, 0x81, 0x00, 0x02, 0x00])?;
    info.extend_from_slice(&sizes.fields.to_be_bytes())?;
    info.extend_from_slice(&sizes.methods.to_be_bytes())?;
    for field in 0..sizes.fields {
        info.extend_from_slice(&[0x00, 0x09, 0x00])?;
        info.extend_from_slice(&two(offset_of(sizes, field)))?;
        info.extend_from_slice(&[0x80, 0x05])?;
    }
    for _ in 0..sizes.methods {
        info.extend_from_slice(&[0x00, 0x41, 0xFF, 0xFF, 0x00, 0x02])?;
        info.extend_from_slice(&[0x00, 0x00, 0x00, 0x00, 0x00, 0x00])?;
    }
    info.extend_from_slice(&[0x00, 0x00, 0x01, 0x10])?;
    Ok(info)
}

/// The bytes of the image, the initial arrays and the bytes of these, as a Directory tells them.
fn image(alloc: Global, sizes: Sizes) -> Result<Vec<u8>, AllocError> {
    let arrays = sizes.arrays as usize;
    let mut image = Vec::new(alloc);
    image.extend_from_slice(&two(offset_of(sizes, sizes.fields)))?;
    image.extend_from_slice(&two(arrays))?;
    image.extend_from_slice(&two(arrays.wrapping_mul(sizes.each as usize)))?;
    Ok(image)
}

/// A package of one interface, without imports.
pub(crate) fn interface_package(alloc: Global, sizes: Sizes) -> Result<OwnedParts, AllocError> {
    let statics = component(alloc, STATIC_FIELD, &statics(alloc, sizes)?)?;
    let descriptor = component(alloc, DESCRIPTOR, &descriptor(alloc, sizes)?)?;
    let image = image(alloc, sizes)?;
    let changes = [
        Change::Sized(CLASS, &ONE_INTERFACE),
        Change::Sized(METHOD, &NO_METHODS),
        Change::Sized(STATIC_FIELD, &statics),
        Change::Sized(DESCRIPTOR, &descriptor),
        Change::Splice(DIRECTORY, 27, 33, &image),
    ];
    changed(alloc, &PLAIN, &changes)
}
