ghost use Rattle.std.specs.Prelude.{◌≡◌, ◌≤◌, length, IfOk};
ghost use Rattle.xf_homes.specs.Walk.{receiver_home, argument_homes};

use crate::home::Home;
use indexmap::IndexSet;
use jc_base::{MethodRec, Ty};
use std::alloc::{AllocError, Global};

fn receiver_home(alloc: Global, rec: &MethodRec) -> Result<IndexSet<Home>, AllocError>
    ensures { IfOk result (λ homes. homes.keys ≡ receiver_home rec.now) }
{
    let mut homes = IndexSet::new(alloc);
    if !rec.is_static {
        homes.insert(Home {
            slot: 0,
            ty: Ty::Class(rec.class),
        })?;
    }
    Ok(homes)
}

/// The arguments of a method at their declared types: the receiver, and the value that begins with each cell but the low
/// half of an int.
#[tactic(auto, using(crate::proofs::Keys::arguments_once))]
pub(crate) fn argument_homes(alloc: Global, rec: &MethodRec) -> Result<IndexSet<Home>, AllocError>
    requires { length rec.now.sig.args ≤ 255 }
    ensures { IfOk result (λ homes. homes.keys ≡ argument_homes rec.now) }
{
    let mut homes = receiver_home(alloc, rec)?;
    let mut slot = homes.len() as u16;
    'cells: for ty in rec.sig.args.as_slice() {
        let home = Home { slot, ty: *ty };
        slot += 1;
        if let Ty::IntLow = *ty {
            continue;
        }
        homes.insert(home)?;
    }
    Ok(homes)
}
