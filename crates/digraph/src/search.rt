ghost use Rattle.std.specs.Prelude.{◌<◌, ◌∷◌, [], length, All, IfOk, OnOk, ◌≤◌, ℕ, IsTrue, MatchOption, MatchBool};
ghost use Rattle.digraph.specs.Marks.{Marks, AreLedTo};
ghost use Rattle.digraph.specs.Way.{Recurs, IsLeastRecurring};
ghost use Rattle.digraph.specs.Graph.{Edge};
ghost use Rattle.digraph.specs.Ranks.{AreRanks, rank_of};

use crate::graph::Digraph;
use crate::hints::look_over;
use std::alloc::{AllocError, Global};

/// Marks the vertices to which a vertex leads.
pub fn led_to(alloc: Global, graph: &Digraph, from: u32) -> Result<Vec<bool>, AllocError>
    requires { from < length graph.now }
    ensures { IfOk result (λ marks. AreLedTo graph.now from marks.items) }
{
    let mut marks = vec![in alloc; false; graph.len() as usize]?;
    let mut pending = vec![in alloc; from]?;
    'work: while let Some(v) = pending.pop() {
        mark_all(&mut marks, &mut pending, graph.row(v))?;
    }
    Ok(marks)
}

/// Marks these vertices; those that had no mark wait.
fn mark_all(marks: &mut Vec<bool>, pending: &mut Vec<u32>, row: &[u32]) -> Result<(), AllocError>
    requires { All (λ v. v < length marks.old.items) row.now }
    ensures { OnOk result (Marks row.now marks.old.items pending.old.items marks.new.items pending.new.items) }
{
    'row: for v in row {
        mark(marks, pending, *v)?;
    }
    Ok(())
}

/// Marks a vertex, which waits if it had no mark.
fn mark(marks: &mut Vec<bool>, pending: &mut Vec<u32>, v: u32) -> Result<(), AllocError>
    requires { v < length marks.old.items }
    ensures { OnOk result (Marks (v ∷ []) marks.old.items pending.old.items marks.new.items pending.new.items) }
{
    if marks[v as usize] {
        return Ok(());
    }
    pending.push(v)?;
    marks[v as usize] = true;
    Ok(())
}

/// The least vertex below a number that is `from` or is led to by it, and leads to itself.
///
/// The ranks that are hints only make it fast: best no edge raises them, and one that does not lower them is on a cycle.
pub fn least_recurring(
    alloc: Global,
    graph: &Digraph,
    from: u32,
    bound: u32,
) -> Result<Option<u32>, AllocError>
    requires from { from < length graph.now }
    requires bound { bound ≤ length graph.now }
    ensures { IfOk result (λ answer. MatchOption answer
        ((v : ℕ) → v < bound → ¬ (Recurs (Edge graph.now) from v)) (IsLeastRecurring (Edge graph.now) from bound)) }
{
    let hints = look_over(alloc, graph)?;
    let ranks = hints.ranks.as_slice();
    let reached = led_to(alloc, graph, from)?;
    let ranked = are_ranks(graph, ranks);
    'vertices: for v in 0..bound {
        if recurs(alloc, graph, from, &reached, ranks, ranked, v)? {
            return Ok(Some(v));
        }
    }
    Ok(None)
}

/// Whether a vertex recurs, where `reached` marks what `from` leads to, and `ranked` says that the ranks are some.
fn recurs(
    alloc: Global,
    graph: &Digraph,
    from: u32,
    reached: &Vec<bool>,
    ranks: &[u32],
    ranked: bool,
    v: u32,
) -> Result<bool, AllocError>
    requires vertex { v < length graph.now }
    requires reached { AreLedTo graph.now from reached.now.items }
    requires ranked { IsTrue ranked → AreRanks graph.now ranks.now }
    ensures { IfOk result (λ b. MatchBool b (Recurs (Edge graph.now) from v) (¬ (Recurs (Edge graph.now) from v))) }
{
    if from != v && !reached[v as usize] {
        return Ok(false);
    }
    if ranked && fall(graph.row(v), ranks, ranks[v as usize]) {
        return Ok(false);
    }
    let after = led_to(alloc, graph, v)?;
    Ok(after[v as usize])
}

/// Whether no edge raises the ranks.
fn are_ranks(graph: &Digraph, ranks: &[u32]) -> bool
    ensures { IsTrue result → AreRanks graph.now ranks.now }
{
    if ranks.len() != graph.len() as usize {
        return false;
    }
    'vertices: for v in 0..graph.len() {
        if !never_rise(graph.row(v), ranks, ranks[v as usize]) {
            return false;
        }
    }
    true
}

/// Whether these vertices have ranks that are no greater.
fn never_rise(row: &[u32], ranks: &[u32], rank: u32) -> bool
    requires { All (λ w. w < length ranks.now) row.now }
    ensures { IsTrue result → All (λ w. rank_of ranks.now w ≤ rank) row.now }
{
    'row: for w in row {
        if rank < ranks[*w as usize] {
            return false;
        }
    }
    true
}

/// Whether these vertices have ranks that are less.
fn fall(row: &[u32], ranks: &[u32], rank: u32) -> bool
    requires { All (λ w. w < length ranks.now) row.now }
    ensures { IsTrue result → All (λ w. rank_of ranks.now w < rank) row.now }
{
    'row: for w in row {
        if rank <= ranks[*w as usize] {
            return false;
        }
    }
    true
}
