use cap_bytes::Part;
use cap_gen::{ROLES, generate};
use cap_package::{OwnedParts, Packages, package};
use std::alloc::{AllocError, Global};
use xf_pack::{TransformEnd, transform};

/// The bytes of the info of the Method component in parts.
fn method_size(parts: &OwnedParts) -> Option<usize> {
    match parts.get(Part(7)) {
        Some(bytes) => bytes.len().checked_sub(3),
        None => None,
    }
}

/// The parts that the generated ones are transformed to, where they stand for a package that makes a world alone, and each
/// method has a typing.
fn transformed(alloc: Global, owned: &OwnedParts) -> Result<Option<OwnedParts>, AllocError> {
    let parts = owned.lend(alloc)?;
    let Ok(package) = package(&parts) else {
        return Ok(None);
    };
    let mut packages = Packages::new(alloc);
    packages.push(package)?;
    match transform(alloc, &packages, ROLES) {
        Ok(made) => Ok(Some(made)),
        Err(TransformEnd::Memory) => Err(AllocError),
        Err(_) => Ok(None),
    }
}

/// The sizes before and after.
fn sizes(alloc: Global, seed: u32) -> Result<(Option<usize>, Option<usize>), AllocError> {
    let owned = generate(alloc, seed)?;
    let made = match transformed(alloc, &owned)? {
        Some(made) => method_size(&made),
        None => None,
    };
    Ok((method_size(&owned), made))
}

#[test]
fn of_the_least_seed(rt: HostRuntime) -> Result<(), AllocError> {
    assert_eq!(rt; sizes(rt.alloc(), 0)?, (Some(4001), Some(4951)));
    Ok(())
}

#[test]
fn of_the_greatest(rt: HostRuntime) -> Result<(), AllocError> {
    assert_eq!(rt; sizes(rt.alloc(), u32::MAX)?, (Some(4001), Some(4951)));
    Ok(())
}
