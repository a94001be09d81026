ghost use Rattle.std.specs.Prelude.{◌≡◌, ◌≤◌, IfOk, length, ◌%◌, ◌<◌, IfSome, OnOk};
ghost use Rattle.vm_bound.specs.declared.graph.Vertex.TheVariants.{Means};
ghost use Rattle.vm_bound.specs.Blocks.{IsSpread, IsOrder, AreBlocks, AddsRun, with_if};
ghost use Rattle.vm_bound.specs.Edges.{Leads};
ghost use Rattle.vm_bound.specs.Rows.{IsCallGraph, AreTargets, AreAllSubclasses};
ghost use Rattle.vm_bound.specs.Runs.{AreEnds, AreNaming};
ghost use Rattle.vm_bound.specs.Vertices.{same_meaning, meaning_code};

use crate::meanings::{Meanings, described_targets, entries_targets, span_targets};
use crate::method_targets::method_targets;
use crate::nearest::nearest_class;
use crate::spread::{Block, Spread, spread_over};
use crate::subclasses::all_subclasses;
use crate::sweep::swept_blocks;
use digraph::{Digraph, Row};
use jc_base::World;
use std::alloc::{AllocError, Global};
use std::hash::{Hash, Hasher};

/// The graph of the calls of a world: all methods, and what their calls mean.
pub(crate) fn call_graph(alloc: Global, world: &World<'_>) -> Result<Digraph, AllocError>
    ensures { IfOk result (IsCallGraph world.now) }
{
    let subclasses = all_subclasses(alloc, world)?;
    let spread = spread_over(alloc, world, &subclasses)?;
    graph_over(alloc, world, &subclasses, &spread)
}

/// The same, with the direct subclasses of each class and the blocks of all interfaces. A meaning gets its row after all
/// that were met before.
fn graph_over(
    alloc: Global,
    world: &World<'_>,
    subclasses: &Vec<Row>,
    spread: &Spread,
) -> Result<Digraph, AllocError>
    requires subclasses { AreAllSubclasses world.now.classes subclasses.now.items }
    requires count { length subclasses.now.items ≡ length world.now.classes.records }
    requires spread { IsSpread world.now.classes spread.now }
    requires few { length spread.now.order ≤ 8192 }
    ensures { IfOk result (IsCallGraph world.now) }
{
    let _facts = world.classes();
    let methods = world.method_count();
    let mut meanings = Meanings::new(alloc);
    let mut rows = Vec::new(alloc);
    'methods: for method in 0..methods {
        let targets = method_targets(alloc, world, method)?;
        let row = meanings.row(alloc, methods, targets.as_slice())?;
        rows.push(row)?;
    }
    'meanings: for place in 0..2147483648 {
        let Some(meaning) = meanings.at(place) else {
            return Ok(Digraph::of(rows));
        };
        let targets = meaning_targets(alloc, world, subclasses, spread, meaning)?;
        let row = meanings.row(alloc, methods, targets.as_slice())?;
        rows.push(row)?;
    }
    Err(AllocError)
}

/// The vertices to which edges go from a meaning.
fn meaning_targets(
    alloc: Global,
    world: &World<'_>,
    subclasses: &Vec<Row>,
    spread: &Spread,
    meaning: Meaning,
) -> Result<Vec<Vertex>, AllocError>
    requires subclasses { AreAllSubclasses world.now.classes subclasses.now.items }
    requires count { length subclasses.now.items ≡ length world.now.classes.records }
    requires spread { IsSpread world.now.classes spread.now }
    requires few { length spread.now.order ≤ 8192 }
    ensures { IfOk result (λ targets. AreTargets world.now (Leads world.now spread.now (Means meaning)) targets.items) }
{
    match meaning {
        Meaning::Described(method) => described_targets(alloc, world, spread, method),
        Meaning::Entries { class, token } => {
            entries_targets(alloc, world, subclasses, class, token)
        }
        Meaning::Span { node, token } => {
            span_targets(alloc, world, spread.order.as_slice(), node, token)
        }
    }
}

/// The blocks of an interface, over an order of the classes. Where all ends are told, they are found from the positions that
/// name the interface alone.
pub(crate) fn interface_blocks(
    alloc: Global,
    world: &World<'_>,
    order: &[u16],
    ends: &Option<Vec<u16>>,
    naming: &[u32],
    interface: u16,
) -> Result<Vec<Block>, AllocError>
    requires order { IsOrder world.now.classes order.now }
    requires few { length order.now ≤ 8192 }
    requires ends { IfSome ends.now (λ found. AreEnds world.now.classes order.now found.items) }
    requires naming { AreNaming world.now.classes order.now interface naming.now }
    ensures { IfOk result (λ blocks. AreBlocks world.now.classes order.now interface blocks.items) }
{
    let _facts = world.classes();
    match ends {
        Some(ends) => swept_blocks(alloc, order, ends.as_slice(), naming),
        None => asked_blocks(alloc, world, order, interface),
    }
}

/// The same, asked of each class alone.
fn asked_blocks(
    alloc: Global,
    world: &World<'_>,
    order: &[u16],
    interface: u16,
) -> Result<Vec<Block>, AllocError>
    requires order { IsOrder world.now.classes order.now }
    requires few { length order.now ≤ 8192 }
    ensures { IfOk result (λ blocks. AreBlocks world.now.classes order.now interface blocks.items) }
{
    let count = order.len() as u16;
    let mut blocks = Vec::new(alloc);
    'classes: for at in 0..count {
        let by = nearest_class(world, interface, order[at as usize]);
        add_run(&mut blocks, count, at, at + 1, by)?;
    }
    Ok(blocks)
}

/// Adds blocks for the positions from one to before another, where a class stands. On each level the first and the last
/// node are taken that are no halves of one that is inside.
pub(crate) fn add_run(
    blocks: &mut Vec<Block>,
    count: u16,
    from: u16,
    to: u16,
    by: Option<u16>,
) -> Result<(), AllocError>
    requires order { from < to }
    requires inside { to ≤ count }
    requires few { count ≤ 8192 }
    ensures { OnOk result (AddsRun count from to by blocks.old.items blocks.new.items) }
{
    let Some(class) = by else {
        return Ok(());
    };
    let mut low = count + from;
    let mut high = count + to;
    'levels: while low < high {
        push_if(blocks, low % 2, low, class)?;
        push_if(blocks, high % 2, high - 1, class)?;
        low = (low + 1) / 2;
        high = high / 2;
    }
    Ok(())
}

/// Adds a block where a remainder is 1.
fn push_if(blocks: &mut Vec<Block>, odd: u16, node: u16, by: u16) -> Result<(), AllocError>
    ensures { OnOk result (blocks.new.items ≡ with_if blocks.old.items odd (record { node = node; by = by })) }
{
    if odd == 1 {
        blocks.push(Block { node, by })?;
    }
    Ok(())
}

/// What a call means before the machine chooses the method that runs.
#[derive(Clone, Copy)]
pub(crate) enum Meaning {
    /// What classes run for the method of this number, which an interface describes.
    Described(u16),
    /// What a class and its subclasses run for a token of the class.
    Entries { class: u16, token: u8 },
    /// What the classes under a node run for a public token.
    Span { node: u16, token: u8 },
}

/// A vertex of the graph of calls.
#[derive(Clone, Copy)]
pub(crate) enum Vertex {
    /// The method of this number.
    Method(u16),
    Means(Meaning),
}

/// Whether two meanings are the same.
fn same_meaning(a: Meaning, b: Meaning) -> bool
    ensures { result ≡ same_meaning a b }
{
    match a {
        Meaning::Described(m) => match b {
            Meaning::Described(n) => m == n,
            _ => false,
        },
        Meaning::Entries { class, token } => match b {
            Meaning::Entries {
                class: other,
                token: at,
            } => class == other && token == at,
            _ => false,
        },
        Meaning::Span { node, token } => match b {
            Meaning::Span {
                node: other,
                token: at,
            } => node == other && token == at,
            _ => false,
        },
    }
}

impl PartialEq for Meaning {
    ghost use Rattle.vm_bound.specs.Vertices.{same_meaning};
    ghost use Rattle.vm_bound.specs.Keys.{meanings-partial};

    ghost eq = { same_meaning };

    ghost laws = { meanings-partial };

    fn eq(&self, other: &Meaning) -> bool {
        same_meaning(*self, *other)
    }
}

impl Eq for Meaning {
    ghost use Rattle.vm_bound.specs.Keys.{meanings-equivalence};

    ghost laws = { meanings-equivalence };
}

/// A number by which meanings mostly differ.
fn meaning_code(meaning: Meaning) -> u32
    ensures { result ≡ meaning_code meaning }
{
    match meaning {
        Meaning::Described(method) => u32::from(method),
        Meaning::Entries { class, token } => {
            16777216 + u32::from(class) * 256 + u32::from(token)
        }
        Meaning::Span { node, token } => 33554432 + u32::from(node) * 256 + u32::from(token),
    }
}

// All in one write, which takes half the time of two.
impl Hash for Meaning {
    ghost use Rattle.std.specs.Hash as fed;
    ghost use Rattle.vm_bound.specs.declared.graph.Meaning.{Meaning};
    ghost use Rattle.vm_bound.specs.Vertices.{meaning_code};
    ghost use Rattle.vm_bound.specs.Keys.{meanings-coded};

    ghost hash_input = { λ (meaning : Meaning). fed.u32 (meaning_code meaning) };

    ghost respects_eq = { meanings-coded };

    fn hash<H: Hasher>(&self, state: &mut H) {
        state.write_u32(meaning_code(*self));
    }
}
