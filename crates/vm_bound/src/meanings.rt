ghost use Rattle.std.specs.Prelude.{◌≡◌, ◌<◌, ◌^◌, [], All, Contains, Some, IfOk, OnOk, slice_get, ◌≤◌, ◌↔◌, ℕ, IsTrue, MatchOption};
ghost use Rattle.std.specs.Prelude.{length};
ghost use Rattle.vm_bound.specs.Vertices.{Stands, Extends, IsFitBelow};
ghost use Rattle.vm_bound.specs.Rows.{AreNumbers, AreTargets, AreBlockTargets, IsOwn, AreSubclasses, AreAllSubclasses};
ghost use Rattle.law_chains.specs.Calls.{HasCode};
ghost use Rattle.vm_bound.specs.declared.graph.Meaning.TheVariants.{Span};
ghost use Rattle.vm_bound.specs.declared.graph.Vertex.TheVariants.{Means};
ghost use Rattle.vm_bound.specs.Blocks.{IsOrder};
ghost use Rattle.vm_bound.specs.Edges.{LeadsFromDescribed, LeadsFromEntries, LeadsFromSpan, IsSupplied, Owns, shares, token_told};

use crate::graph::{Meaning, Vertex};
use crate::nearest::named;
use crate::spread::{Block, Spread};
use digraph::Row;
use indexmap::IndexSet;
use jc_base::{MethodRec, World};
use std::alloc::{AllocError, Global};
use std::marker::Model;

/// What calls mean, each once: a meaning is numbered when it is first met.
#[derive(Drop)]
pub(crate) struct Meanings {
    set: IndexSet<Meaning>,
}

impl Model for Meanings {
    ghost use Rattle.std.specs.Prelude.{List};
    ghost use Rattle.vm_bound.specs.declared.graph.Meaning.{Meaning};

    ghost Value = { List Meaning };

    ghost view = { λ a. a.set.keys };
}

impl Meanings {
    /// None.
    pub(crate) fn new(alloc: Global) -> Meanings
        ensures { result ≡ [] }
    {
        Meanings {
            set: IndexSet::new(alloc),
        }
    }

    /// The meaning at a place, in the order in which they were met.
    pub(crate) fn at(&self, place: u32) -> Option<Meaning>
        ensures { result ≡ slice_get self.now place }
    {
        self.set.get_index(place as usize).copied()
    }

    /// The place of a meaning, which is met now if it was not before. More than 2^31 of them are no graph.
    fn meet(&mut self, meaning: Meaning) -> Result<u32, AllocError>
        ensures there { IfOk result (λ place. slice_get self.new place ≡ Some meaning) }
        ensures few { IfOk result (λ place. place < 2 ^ 31) }
        ensures extends { OnOk result (Extends self.old self.new) }
    {
        let (place, _) = self.set.insert_full(meaning)?;
        if place >= 2147483648 {
            return Err(AllocError);
        }
        Ok(place as u32)
    }

    /// The number of a vertex of a world of so many methods.
    fn number(&mut self, methods: u16, vertex: Vertex) -> Result<u32, AllocError>
        requires { IsFitBelow methods vertex }
        ensures stands { IfOk result (Stands methods self.new vertex) }
        ensures extends { OnOk result (Extends self.old self.new) }
    {
        match vertex {
            Vertex::Method(n) => Ok(u32::from(n)),
            Vertex::Means(meaning) => {
                let place = self.meet(meaning)?;
                Ok(u32::from(methods) + place)
            }
        }
    }

    /// The numbers of vertices.
    pub(crate) fn row(
        &mut self,
        alloc: Global,
        methods: u16,
        vertices: &[Vertex],
    ) -> Result<Row, AllocError>
        requires { All (IsFitBelow methods) vertices.now }
        ensures numbers { IfOk result (AreNumbers methods self.new (Contains vertices.now)) }
        ensures extends { OnOk result (Extends self.old self.new) }
    {
        let mut row = Row::of(Vec::new(alloc));
        'vertices: for vertex in vertices {
            let number = self.number(methods, *vertex)?;
            row.push(number)?;
        }
        Ok(row)
    }
}

/// The vertices to which edges go from what a method means that an interface describes: the blocks of the interface.
pub(crate) fn described_targets(
    alloc: Global,
    world: &World<'_>,
    spread: &Spread,
    method: u16,
) -> Result<Vec<Vertex>, AllocError>
    ensures { IfOk result (λ targets. AreTargets world.now (LeadsFromDescribed world.now spread.now method) targets.items) }
{
    if method >= world.method_count() {
        return Ok(Vec::new(alloc));
    }
    let described = world.method(method);
    match spread.blocks.as_slice().get(described.class as usize) {
        Some(blocks) => block_targets(alloc, world, described, blocks.as_slice()),
        None => Ok(Vec::new(alloc)),
    }
}

/// Those of a method that an interface describes, which has these blocks.
fn block_targets(
    alloc: Global,
    world: &World<'_>,
    described: &MethodRec,
    blocks: &[Block],
) -> Result<Vec<Vertex>, AllocError>
    ensures { IfOk result (λ targets. AreBlockTargets world.now described.now blocks.now targets.items) }
{
    let mut targets = Vec::new(alloc);
    'each: for block in blocks {
        let Some(token) = token_told(world, described.class, described.token, block.by) else {
            continue;
        };
        targets.push(Vertex::Means(Meaning::Span {
            node: block.node,
            token,
        }))?;
    }
    Ok(targets)
}

/// The public token that a class's own entry for an interface tells for a token of the interface.
fn token_told(world: &World<'_>, interface: u16, token: u8, class: u16) -> Option<u8>
    ensures { result ≡ token_told world.now.classes interface token class }
{
    match named(world, interface, class) {
        Some(entry) => entry.tokens.as_slice().get(token as usize).copied(),
        None => None,
    }
}

/// Whether a number is that of a method with code.
fn has_code(world: &World<'_>, n: u16) -> bool
    ensures { IsTrue result ↔ HasCode world.now n }
{
    if n >= world.method_count() {
        return false;
    }
    let method = world.method(n);
    !method.is_abstract && !world.classes().is_interface(method.class)
}

/// The vertices to which edges go from the entries of a class at a token, where the direct subclasses of each class are
/// these.
pub(crate) fn entries_targets(
    alloc: Global,
    world: &World<'_>,
    subclasses: &Vec<Row>,
    class: u16,
    token: u8,
) -> Result<Vec<Vertex>, AllocError>
    requires subclasses { AreAllSubclasses world.now.classes subclasses.now.items }
    requires count { length subclasses.now.items ≡ length world.now.classes.records }
    ensures { IfOk result (λ targets. AreTargets world.now (LeadsFromEntries world.now class token) targets.items) }
{
    let _facts = world.classes();
    if class >= world.class_count() {
        return Ok(Vec::new(alloc));
    }
    below_targets(
        alloc,
        world,
        subclasses[class as usize].as_slice(),
        class,
        token,
    )
}

/// The same, where these are the direct subclasses of the class.
fn below_targets(
    alloc: Global,
    world: &World<'_>,
    subclasses: &[u32],
    class: u16,
    token: u8,
) -> Result<Vec<Vertex>, AllocError>
    requires class { class < length world.now.classes.records }
    requires subclasses { AreSubclasses world.now.classes class subclasses.now }
    ensures { IfOk result (λ targets. AreTargets world.now (LeadsFromEntries world.now class token) targets.items) }
{
    let _classes = world.class_count();
    let mut targets = own_targets(alloc, world, class, token)?;
    'subclasses: for below in subclasses {
        let below = *below as u16;
        if !shares(world, class, token, below) {
            continue;
        }
        targets.push(Vertex::Means(Meaning::Entries {
            class: below,
            token,
        }))?;
    }
    Ok(targets)
}

/// The method of a class's own lists, where there is one with code.
fn own_targets(
    alloc: Global,
    world: &World<'_>,
    class: u16,
    token: u8,
) -> Result<Vec<Vertex>, AllocError>
    ensures { IfOk result (λ targets. IsOwn world.now class token targets.items) }
{
    match own(world, class, token) {
        None => Ok(Vec::new(alloc)),
        Some(n) => Ok(vec![in alloc; Vertex::Method(n)]?),
    }
}

/// The method of a class's own lists at a token, where it has code.
fn own(world: &World<'_>, class: u16, token: u8) -> Option<u16>
    ensures { MatchOption result ((n : ℕ) → ¬ (Owns world.now class token n)) (Owns world.now class token) }
{
    if !world.classes().is_class(class) {
        return None;
    }
    let n = world.classes().entry_at(class, token)?;
    if has_code(world, n) { Some(n) } else { None }
}

/// Whether a subclass has an entry of its own for the token of a class.
fn shares(world: &World<'_>, class: u16, token: u8, below: u16) -> bool
    requires class { class < length world.now.classes.records }
    requires below { below < length world.now.classes.records }
    ensures { result ≡ shares world.now.classes class token below }
{
    token < 128 || world.class(below).package == world.class(class).package
}

/// The vertices to which edges go from a node of the tree over an order of the classes, at a public token.
pub(crate) fn span_targets(
    alloc: Global,
    world: &World<'_>,
    order: &[u16],
    node: u16,
    token: u8,
) -> Result<Vec<Vertex>, AllocError>
    requires order { IsOrder world.now.classes order.now }
    requires few { length order.now ≤ 8192 }
    ensures { IfOk result (λ targets. AreTargets world.now (LeadsFromSpan world.now order.now node token) targets.items) }
{
    if node as usize >= order.len() {
        return single_targets(alloc, world, order, node, token);
    }
    let mut targets = Vec::new(alloc);
    if node == 0 {
        return Ok(targets);
    }
    targets.push(half(node * 2, token))?;
    targets.push(half(node * 2 + 1, token))?;
    Ok(targets)
}

/// The same, where the node is one position.
fn single_targets(
    alloc: Global,
    world: &World<'_>,
    order: &[u16],
    node: u16,
    token: u8,
) -> Result<Vec<Vertex>, AllocError>
    requires order { IsOrder world.now.classes order.now }
    requires one { length order.now ≤ node }
    ensures { IfOk result (λ targets. AreTargets world.now (LeadsFromSpan world.now order.now node token) targets.items) }
{
    match supplied(world, order, node, token) {
        None => Ok(Vec::new(alloc)),
        Some(n) => Ok(vec![in alloc; Vertex::Method(n)]?),
    }
}

/// What the classes under a node run for a public token.
fn half(node: u16, token: u8) -> Vertex
    ensures { result ≡ Means (Span node token) }
{
    Vertex::Means(Meaning::Span { node, token })
}

/// The method of a class's public list, where it has code; the class is the one under a node.
fn supplied(world: &World<'_>, order: &[u16], node: u16, token: u8) -> Option<u16>
    requires order { IsOrder world.now.classes order.now }
    requires one { length order.now ≤ node }
    ensures { MatchOption result
        ((n : ℕ) → ¬ (IsSupplied world.now order.now node token n)) (IsSupplied world.now order.now node token) }
{
    let class = class_at(order, node as usize - order.len())?;
    let n = world.classes().public_entry(class, token)?;
    if has_code(world, n) { Some(n) } else { None }
}

/// The class at a position.
fn class_at(order: &[u16], position: usize) -> Option<u16>
    ensures { result ≡ slice_get order.now position }
{
    order.get(position).copied()
}
