ghost use Rattle.std.specs.Prelude.{◌≡◌, ◌<◌, IfOk, IfSome, IsSomeAnd, length, slice_get};
ghost use Rattle.vm_bound.specs.Vertices.{IsFit};
ghost use Rattle.vm_bound.specs.Edges.{LeadsFromMethod, target_of, target};
ghost use Rattle.vm_bound.specs.Rows.{AreTargets};

use crate::graph::{Meaning, Vertex};
use cap_bytes::View;
use jc_base::World;
use jc_decode::{Instructions, Placed};
use jc_ops::{Callee, Choice, Operation, Site, resolve};
use std::alloc::{AllocError, Global};

/// The vertices to which edges go from a method: one for each call in its code.
pub(crate) fn method_targets(
    alloc: Global,
    world: &World<'_>,
    method: u16,
) -> Result<Vec<Vertex>, AllocError>
    requires { method < length world.now.methods }
    ensures { IfOk result (λ targets. AreTargets world.now (LeadsFromMethod world.now method) targets.items) }
{
    let _record = world.method(method);
    let mut targets = Vec::new(alloc);
    'walk: for placed in Instructions::of(View::of(world.code(method))) {
        let Some(vertex) = target(world, method, placed) else {
            continue;
        };
        targets.push(vertex)?;
    }
    Ok(targets)
}

/// The vertex to which an instruction of a method's code leads, where it is a call.
fn target(world: &World<'_>, method: u16, placed: Placed) -> Option<Vertex>
    requires { method < length world.now.methods }
    ensures is { IsSomeAnd (slice_get world.now.methods method) (λ m. result ≡ target world.now m placed) }
    ensures fit { IfSome result (IsFit world.now) }
{
    let site = Site {
        method,
        place: placed.place,
    };
    match resolve(world, site, placed.insn) {
        Ok(Operation::Call(callee)) => Some(target_of(callee)),
        _ => None,
    }
}

/// The vertex to which a call leads.
fn target_of(callee: Callee) -> Vertex
    ensures { result ≡ target_of callee.method callee.choice }
{
    match callee.choice {
        Choice::Static | Choice::Special => Vertex::Method(callee.method),
        Choice::Virtual { class, token } => Vertex::Means(Meaning::Entries { class, token }),
        Choice::Interface { .. } => Vertex::Means(Meaning::Described(callee.method)),
    }
}
