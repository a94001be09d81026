ghost use Rattle.std.specs.Prelude.{◌≡◌, ◌≤◌, ◌+◌, ◌*◌, ◌<◌, IfOk, length, sum};
ghost use Rattle.vm_bound.specs.Weights.{measure, most_each, AreWeights};

use jc_base::World;
use std::alloc::{AllocError, Global};

/// What is summed along a chain of calls.
#[derive(Clone, Copy)]
pub(crate) enum Measure {
    /// The words of the frames.
    Words,
    /// The frames themselves.
    Frames,
}

/// The weights of the vertices: those of the methods, and nothing for the others.
pub(crate) fn weights(
    alloc: Global,
    world: &World<'_>,
    count: u32,
    by: Measure,
) -> Result<Vec<u32>, AllocError>
    requires { length world.now.methods ≤ count }
    ensures weights { IfOk result (λ ws. AreWeights world.now by ws.items) }
    ensures count { IfOk result (λ ws. length ws.items ≡ count) }
    ensures most { IfOk result (λ ws. sum ws.items ≤ most_each by * length world.now.methods) }
{
    let mut weights = Vec::new(alloc);
    'methods: for method in 0..world.method_count() {
        weights.push(measured(world, method, by))?;
    }
    'others: for _ in u32::from(world.method_count())..count {
        weights.push(0)?;
    }
    Ok(weights)
}

/// What a method adds to a sum.
fn measured(world: &World<'_>, method: u16, by: Measure) -> u32
    requires { method < length world.now.methods }
    ensures is { result ≡ measure world.now by method }
    ensures most { result ≤ most_each by }
{
    match by {
        Measure::Frames => 1,
        Measure::Words => {
            let method = world.method(method);
            words(method.nargs, method.max_locals, method.max_stack)
        }
    }
}

/// The words of a frame with so many argument words, other registers and cells of the operand stack.
fn words(nargs: u8, max_locals: u8, max_stack: u8) -> u32
    ensures is { result ≡ 3 + nargs + max_locals + max_stack }
    ensures most { result ≤ 768 }
{
    3 + u32::from(nargs) + u32::from(max_locals) + u32::from(max_stack)
}
