ghost use Rattle.std.specs.Prelude.{◌≡◌, ◌<◌, ◌≤◌, ◌+◌, length, IfSome};
ghost use Rattle.jc_control.specs.WellFormed.{IsPlace};
ghost use Rattle.vm_step.specs.Methods.{code_at, instruction_at};
ghost use Rattle.vm_run.specs.Known.{KnowsAt};

use crate::places::MarkedPlaces;
use cap_bytes::View;
use jc_base::World;
use jc_decode::{Placed, decode_known, instructions_are_listed};

/// How a machine knows at which places instructions begin: by flags that were made when the run began, or because the
/// code was verified, and each place to which it leads is one.
#[derive(Clone, Copy)]
pub enum Known<'a> {
    Marked(&'a MarkedPlaces),
    Verified,
}

/// The instruction that begins at a place of a method's code, where one does.
#[inline(always)]
pub fn fetch(world: &World<'_>, known: Known<'_>, method: u16, place: u16) -> Option<Placed>
    requires method { method < length world.now.methods }
    requires places { KnowsAt world.now known method place }
    ensures is { result ≡ instruction_at (code_at world.now method) place }
    ensures within { IfSome result (λ i. i.place + i.insn.len ≤ 32767) }
{
    match known {
        Known::Marked(places) => {
            if places.has(world, method, u32::from(place)) {
                placed(world, method, place)
            } else {
                None
            }
        }
        Known::Verified => placed(world, method, place),
    }
}

/// The instruction at a place at which one begins. Its operands and keys are not tested again.
#[inline(always)]
fn placed(world: &World<'_>, method: u16, place: u16) -> Option<Placed>
    requires method { method < length world.now.methods }
    requires there { IsPlace (code_at world.now method) place }
    ensures is { result ≡ instruction_at (code_at world.now method) place }
    ensures within { IfSome result (λ i. i.place + i.insn.len ≤ 32767) }
{
    instructions_are_listed();
    match decode_known(code(world, method), place) {
        Some(insn) => Some(Placed { place, insn }),
        None => None,
    }
}

/// The bytes of a method's code, none where it has no code.
pub fn code<'a>(world: &World<'a>, method: u16) -> View<'a>
    requires { method < length world.now.methods }
    ensures is { result.bytes.now ≡ code_at world.now method }
    ensures short { length result.bytes.now ≤ 32767 }
{
    let _record = world.method(method);
    View::of(world.code(method))
}
