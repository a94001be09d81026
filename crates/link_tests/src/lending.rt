ghost use Rattle.std.specs.Prelude.{◌≡◌, IfOk};

use cap_package::{OwnedParts, Parts};
use std::alloc::{AllocError, Global};

/// The parts of packages, borrowed.
pub(crate) fn lent(alloc: Global, packages: &[OwnedParts]) -> Result<Vec<Parts<'_>>, AllocError>
    ensures { IfOk result (λ parts. parts.items ≡ packages.now) }
{
    let mut parts = Vec::new(alloc);
    'packages: for owned in packages {
        parts.push(owned.lend(alloc)?)?;
    }
    Ok(parts)
}
