ghost use Rattle.std.specs.Prelude.{◌≤◌, ◌^◌, length, IfOk};
ghost use Rattle.xf_live.specs.Flow.{AreLiveIn, AreNodesOf, AreUnlinked};

use crate::live::{Node, live_sets};
use crate::set::RegisterSet;
use std::alloc::{AllocError, Global};

/// What a node of a flow graph reads, before it writes any, and what it writes.
#[derive(Clone, Copy)]
pub struct Uses {
    pub reads: RegisterSet,
    pub writes: RegisterSet,
}

/// Control comes from one node to another.
#[derive(Clone, Copy)]
pub struct Edge {
    pub from: u16,
    pub to: u16,
}

/// For each node of a flow graph the registers that are live before it.
pub fn live_before(
    alloc: Global,
    uses: &[Uses],
    edges: &[Edge],
) -> Result<Vec<RegisterSet>, AllocError>
    requires { length uses.now ≤ 2 ^ 16 }
    ensures { IfOk result (λ sets. AreLiveIn uses.now edges.now sets.items) }
{
    let nodes = nodes_of(alloc, uses, edges)?;
    live_sets(alloc, nodes.as_slice())
}

// The nodes, with those from which control comes to each.
fn nodes_of(alloc: Global, uses: &[Uses], edges: &[Edge]) -> Result<Vec<Node>, AllocError>
    ensures { IfOk result (λ nodes. AreNodesOf uses.now edges.now nodes.items) }
{
    let mut nodes = unlinked(alloc, uses)?;
    'edges: for edge in edges {
        let to = edge.to as usize;
        if to >= nodes.len() {
            continue;
        }
        nodes[to].from.push(edge.from)?;
    }
    Ok(nodes)
}

// The nodes alone.
fn unlinked(alloc: Global, uses: &[Uses]) -> Result<Vec<Node>, AllocError>
    ensures { IfOk result (λ nodes. AreUnlinked uses.now nodes.items) }
{
    let mut nodes = Vec::new(alloc);
    'uses: for node in uses {
        let from = Vec::new(alloc);
        nodes.push(Node {
            reads: node.reads,
            writes: node.writes,
            from,
        })?;
    }
    Ok(nodes)
}
