ghost use Rattle.std.specs.Prelude.{◌≡◌, ◌≤◌, ◌*◌, ◌<◌, ℕ, None, IfOk, IfErr, MatchOption, length};
ghost use Rattle.card_verify.specs.Answers.{AreAccepted};
ghost use Rattle.digraph.specs.Way.{IsGreatest, StandsTwiceInWay};
ghost use Rattle.law_chains.specs.Calls.{Calls};
ghost use Rattle.vm_bound.specs.Rows.{IsCallGraph};
ghost use Rattle.vm_bound.specs.Weights.{measure, most_each};
ghost use Rattle.vm_bound.specs.Answer.{IsBound, IsLeastTwice, BoundsRuns, EndsWith, entry_refused};

use crate::bounds::{Bound, BoundEnd};
use crate::graph::call_graph;
use crate::weighing::{Measure, weights};
use card_verify::Accepted;
use digraph::{Digraph, greatest, least_recurring};
use jc_base::World;
use jc_ops::operations_are_sound;
use law_chains::chains_bound_runs;
use std::alloc::{AllocError, Global};
use vm_step::StartFault;

/// The greatest sum of frame words and the greatest number of frames along a chain of calls from an entry, over all
/// methods that a call may run, reached or not (JCVM 2.2, section 3.5); or the least method that stands twice in one.
pub fn bound(alloc: Global, accepted: &Accepted<'_>, entry: u16) -> Result<Bound, BoundEnd>
    ensures answer { IfOk result (IsBound accepted.now entry) }
    ensures runs { IfOk result (BoundsRuns accepted.now entry) }
    ensures begins { IfOk result (λ b. entry_refused accepted.now entry ≡ None) }
    ensures refused { IfErr result (EndsWith accepted.now entry) }
{
    let world = accepted.world();
    match refused(world, entry) {
        Some(fault) => Err(BoundEnd::Fault(fault)),
        None => match bound_of(alloc, world, entry) {
            Ok(bound) => Ok(bound),
            Err(_) => Err(BoundEnd::Memory),
        },
    }
}

/// Why no run begins with an entry, whatever its arguments.
fn refused(world: &World<'_>, entry: u16) -> Option<StartFault>
    ensures { result ≡ entry_refused world.now entry }
{
    if entry >= world.method_count() {
        return Some(StartFault::NoEntry);
    }
    let method = world.method(entry);
    if method.is_static && !method.is_abstract && !world.classes().is_interface(method.class) {
        None
    } else {
        Some(StartFault::NotStatic)
    }
}

/// The bound of a method.
fn bound_of(alloc: Global, world: &World<'_>, entry: u16) -> Result<Bound, AllocError>
    requires accepted { AreAccepted world.now }
    requires entry { entry < length world.now.methods }
    ensures answer { IfOk result (IsBound world.now entry) }
    ensures runs { IfOk result (BoundsRuns world.now entry) }
{
    let graph = call_graph(alloc, world)?;
    match least_twice(alloc, world, &graph, entry)? {
        Some(method) => Ok(Bound::Cycle(method)),
        None => most_of(alloc, world, &graph, entry),
    }
}

/// The least method that stands twice in a chain of calls.
fn least_twice(
    alloc: Global,
    world: &World<'_>,
    graph: &Digraph,
    entry: u16,
) -> Result<Option<u16>, AllocError>
    requires graph { IsCallGraph world.now graph.now }
    requires entry { entry < length world.now.methods }
    ensures { IfOk result (λ answer. MatchOption answer
        ((n : ℕ) → ¬ (StandsTwiceInWay (Calls world.now) entry n)) (IsLeastTwice world.now entry)) }
{
    operations_are_sound(world);
    let _facts = world.classes();
    let methods = u32::from(world.method_count());
    match least_recurring(alloc, graph, u32::from(entry), methods)? {
        Some(method) => Ok(Some(method as u16)),
        None => Ok(None),
    }
}

/// The greatest sums, where no method stands twice.
fn most_of(
    alloc: Global,
    world: &World<'_>,
    graph: &Digraph,
    entry: u16,
) -> Result<Bound, AllocError>
    requires accepted { AreAccepted world.now }
    requires graph { IsCallGraph world.now graph.now }
    requires entry { entry < length world.now.methods }
    requires never_twice { (n : ℕ) → ¬ (StandsTwiceInWay (Calls world.now) entry n) }
    ensures answer { IfOk result (IsBound world.now entry) }
    ensures runs { IfOk result (BoundsRuns world.now entry) }
{
    chains_bound_runs(world);
    let _methods = world.method_count();
    let words = greatest_sum(alloc, world, graph, entry, Measure::Words)?;
    let frames = greatest_sum(alloc, world, graph, entry, Measure::Frames)?;
    Ok(Bound::Words {
        words,
        frames: frames as u16,
    })
}

/// The greatest sum along a chain of calls, where no method stands twice.
fn greatest_sum(
    alloc: Global,
    world: &World<'_>,
    graph: &Digraph,
    entry: u16,
    by: Measure,
) -> Result<u32, AllocError>
    requires graph { IsCallGraph world.now graph.now }
    requires entry { entry < length world.now.methods }
    requires never_twice { (n : ℕ) → ¬ (StandsTwiceInWay (Calls world.now) entry n) }
    ensures is { IfOk result (IsGreatest (Calls world.now) (measure world.now by) entry) }
    ensures most { IfOk result (λ sum. sum ≤ most_each by * length world.now.methods) }
{
    operations_are_sound(world);
    let _facts = world.classes();
    let _methods = world.method_count();
    let weights = weights(alloc, world, graph.len(), by)?;
    match greatest(alloc, graph, &weights, u32::from(entry))? {
        Some(sum) => Ok(sum),
        None => unreachable!(),
    }
}
