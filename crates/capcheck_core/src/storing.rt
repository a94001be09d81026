ghost use Rattle.std.specs.Prelude.{◌≡◌, IsSome, IsNone, IfOk, OnOk};
ghost use Rattle.std.specs.Option.{option_copied};
ghost use Rattle.cap_package.specs.Parts.{held};
ghost use Rattle.capcheck_core.specs.Loads.{with_file};
ghost use Rattle.capcheck_core.specs.Pack.{load_stores};
ghost use Rattle.capcheck_core.specs.Stores.{AreInStoreOrder, StoresParts};

use cap_bytes::Part;
use cap_files::{Folder, StoreFailed};
use cap_package::{OwnedParts, Parts};
use std::alloc::{AllocError, Global};

/// The Header component.
const HEADER: Part = Part(1);

/// The file of the roles.
const ROLES: Part = Part(0);

/// The Load file.
pub(crate) const LOAD: Part = Part(13);

/// Stores parts in a folder, one after the other. It stops at the first store that fails.
pub fn store_parts<F: Folder>(
    folder: &mut F,
    dir: &str,
    parts: &Parts<'_>,
) -> Result<(), StoreFailed>
    ensures { StoresParts dir.now parts.now (F.folders folder.old) (F.folders folder.new) result }
{
    'parts: for n in 0..parts.len() {
        let (part, bytes) = parts.at(n);
        match folder.store(dir, part, bytes) {
            Ok(()) => {}
            Err(end) => return Err(end),
        }
    }
    Ok(())
}

/// The parts of a package in the order in which they are stored: all but the Header by rising tag, the roles where they are
/// stored too, and the Header last, so that a folder that has a Header has the whole package.
pub fn in_order<'a>(
    alloc: Global,
    parts: &'a OwnedParts,
    roles: Option<&'a [u8]>,
) -> Result<Parts<'a>, AllocError>
    requires { IsSome (held parts.now HEADER.0) }
    ensures { IfOk result (AreInStoreOrder parts.now (option_copied roles.entry)) }
{
    let mut stores = Parts::new(alloc);
    'tags: for tag in 2..256u16 {
        let part = Part(tag as u8);
        match add_file(&mut stores, part, parts.get(part)) {
            Ok(()) => {}
            Err(end) => return Err(end),
        }
    }
    add_file(&mut stores, ROLES, roles)?;
    add_file(&mut stores, HEADER, parts.get(HEADER))?;
    Ok(stores)
}

/// The Load file, and then the roles where they are stored too.
pub fn load_stores<'a>(
    alloc: Global,
    stream: &'a [u8],
    roles: Option<&'a [u8]>,
) -> Result<Parts<'a>, AllocError>
    ensures { IfOk result (λ stores. stores ≡ load_stores stream.now (option_copied roles.entry)) }
{
    let mut stores = Parts::new(alloc);
    add_file(&mut stores, LOAD, Some(stream))?;
    add_file(&mut stores, ROLES, roles)?;
    Ok(stores)
}

// Appends the file of a part, where there is one.
fn add_file<'a>(
    stores: &mut Parts<'a>,
    part: Part,
    file: Option<&'a [u8]>,
) -> Result<(), AllocError>
    requires { IsNone (held stores.old part.0) }
    ensures { OnOk result (stores.new ≡ with_file stores.old part.0 (option_copied file.entry)) }
{
    match file {
        Some(bytes) => stores.push(part, bytes),
        None => Ok(()),
    }
}
