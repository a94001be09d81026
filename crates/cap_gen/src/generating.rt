ghost use Rattle.std.specs.Prelude.{◌≡◌, ◌∷◌, ◌++◌, [], IsNone, IfOk, OnOk};
ghost use Rattle.cap_components.specs.Parts.{held};
ghost use Rattle.cap_gen.specs.Generated.{generated_parts};
ghost use Rattle.cap_gen.specs.Plain.{first_parts};
ghost use Rattle.cap_gen.specs.GeneratedPackage.{MethodsAreTyped, GeneratedMethodsStand, PackagesLink, PartsStand, WorldsAreTyped};

use crate::described::descriptor_file;
use crate::methods::method_file;
use crate::plain::{CLASS, CONSTANT_POOL, DIRECTORY, HEADER, IMPORT, REF_LOCATION, STATIC_FIELD};
use cap_bytes::Part;
use cap_package::OwnedParts;
use std::alloc::{AllocError, Global};

/// The classes of a generated package that have the roles of object, throwable and the six exceptions.
pub const ROLES: [u8; 8] = [0, 1, 2, 3, 4, 5, 6, 7];

/// Appends a part with a copy of these bytes.
fn put_copy(alloc: Global, part: u8, bytes: &[u8], parts: &mut OwnedParts) -> Result<(), AllocError>
    requires { IsNone (held parts.old part) }
    ensures { OnOk result (parts.new ≡ parts.old ++ record { part = part; bytes = bytes.now } ∷ []) }
{
    let mut copy = Vec::new(alloc);
    copy.extend_from_slice(bytes)?;
    parts.put(Part(part), copy)
}

/// The parts before the Method component.
fn first_parts(alloc: Global) -> Result<OwnedParts, AllocError>
    ensures { IfOk result (λ parts. parts ≡ first_parts) }
{
    let mut parts = OwnedParts::new(alloc);
    put_copy(alloc, 1, &HEADER, &mut parts)?;
    put_copy(alloc, 2, &DIRECTORY, &mut parts)?;
    put_copy(alloc, 4, &IMPORT, &mut parts)?;
    put_copy(alloc, 5, &CONSTANT_POOL, &mut parts)?;
    put_copy(alloc, 6, &CLASS, &mut parts)?;
    Ok(parts)
}

/// A package of eight classes, of which the first has two hundred methods with constants that go by the seed: parts that stand
/// for a package, which makes a world alone where its classes in their order have the roles of object, throwable and the six
/// exceptions, and in which each method has a dataflow typing.
pub fn generate(alloc: Global, seed: u32) -> Result<OwnedParts, AllocError>
    ensures { IfOk result (λ parts. parts ≡ generated_parts seed) }
{
    let mut parts = first_parts(alloc)?;
    parts.put(Part(7), method_file(alloc, seed)?)?;
    put_copy(alloc, 8, &STATIC_FIELD, &mut parts)?;
    put_copy(alloc, 9, &REF_LOCATION, &mut parts)?;
    parts.put(Part(11), descriptor_file(alloc)?)?;
    Ok(parts)
}

/// The parts that are generated stand for a package.
pub fn parts_stand()
    ensures { PartsStand }
{}

/// Its methods and their handlers stand where the Descriptor tells.
pub fn methods_stand()
    ensures { GeneratedMethodsStand }
{}

/// A method of each kind has a dataflow typing in every world, whatever its constants are.
pub fn methods_are_typed()
    ensures { MethodsAreTyped }
{}

/// The package alone makes a world, in which each method has a dataflow typing.
pub fn packages_link()
    ensures links { PackagesLink }
    ensures typed { WorldsAreTyped }
{}
