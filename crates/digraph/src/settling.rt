ghost use Rattle.std.specs.Prelude.{◌≡◌, ◌<◌, ◌≤◌, ◌^◌, length, sum, IfOk, IfSome, MatchOption, All};
ghost use Rattle.digraph.specs.Settled.{IsTable, IsSumFrom, IsMostOf, HasUnknown, Settles};

use crate::graph::Digraph;
use crate::hints::look_over;
use std::alloc::{AllocError, Global};

/// The greatest sum of the weights of the vertices of a way from a vertex; none exactly where a way from it comes to a
/// vertex again.
///
/// The order that is a hint only makes it fast: best are first those to which others lead.
pub fn greatest(
    alloc: Global,
    graph: &Digraph,
    weights: &[u32],
    from: u32,
) -> Result<Option<u32>, AllocError>
    requires from { from < length graph.now }
    requires weights { length weights.now ≡ length graph.now }
    requires small { sum weights.now < 2 ^ 32 }
    ensures answer { IfOk result (IsSumFrom graph.now weights.now from) }
    ensures most { IfOk result (λ answer. IfSome answer (λ b. b ≤ sum weights.now)) }
{
    let hints = look_over(alloc, graph)?;
    let mut known = vec![in alloc; None; graph.len() as usize]?;
    along(graph, weights, &mut known, &hints.order);
    'passes: while known[from as usize].is_none() {
        if !settle_one(graph, weights, &mut known) {
            return Ok(None);
        }
    }
    Ok(known[from as usize])
}

/// Settles the vertices of the graph in an order, as far as it serves.
fn along(graph: &Digraph, weights: &[u32], known: &mut Vec<Option<u32>>, order: &[u32])
    requires weights { length weights.now ≡ length graph.now }
    requires small { sum weights.now < 2 ^ 32 }
    requires table { IsTable graph.now weights.now known.old.items }
    ensures { IsTable graph.now weights.now known.new.items }
{
    'order: for v in order {
        if *v < graph.len() {
            let _ = settle(graph, weights, known, *v);
        }
    }
}

/// Settles the first vertex that can be, and says whether there is one.
fn settle_one(graph: &Digraph, weights: &[u32], known: &mut Vec<Option<u32>>) -> bool
    requires weights { length weights.now ≡ length graph.now }
    requires small { sum weights.now < 2 ^ 32 }
    requires table { IsTable graph.now weights.now known.old.items }
    ensures table { IsTable graph.now weights.now known.new.items }
    ensures settles { Settles graph.now known.old.items known.new.items (λ v. v < length graph.now) result }
{
    'vertices: for v in 0..graph.len() {
        if settle(graph, weights, known, v) {
            return true;
        }
    }
    false
}

/// Settles a vertex: its greatest sum is known once those of all vertices are to which edges go from it.
fn settle(graph: &Digraph, weights: &[u32], known: &mut Vec<Option<u32>>, v: u32) -> bool
    requires vertex { v < length graph.now }
    requires weights { length weights.now ≡ length graph.now }
    requires small { sum weights.now < 2 ^ 32 }
    requires table { IsTable graph.now weights.now known.old.items }
    ensures table { IsTable graph.now weights.now known.new.items }
    ensures settles { Settles graph.now known.old.items known.new.items (λ u. u ≡ v) result }
{
    if known[v as usize].is_some() {
        return false;
    }
    let Some(best) = most_of(known, graph.row(v)) else {
        return false;
    };
    let sum = weights[v as usize] + best;
    known[v as usize] = Some(sum);
    true
}

/// The greatest of the sums that are known of these vertices; none where one is not.
fn most_of(known: &Vec<Option<u32>>, row: &[u32]) -> Option<u32>
    requires { All (λ v. v < length known.now.items) row.now }
    ensures { MatchOption result (HasUnknown known.now.items row.now) (IsMostOf known.now.items row.now) }
{
    let mut best = 0u32;
    'row: for v in row {
        match known[*v as usize] {
            None => return None,
            Some(sum) => best = best.max(sum),
        }
    }
    Some(best)
}
