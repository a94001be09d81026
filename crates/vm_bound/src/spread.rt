ghost use Rattle.std.specs.Prelude.{◌≡◌, ◌≤◌, ◌<◌, IfOk, IfSome, length};
ghost use Rattle.vm_bound.specs.Blocks.{IsSpread, IsOrder, AreBlocksOf, AreAllBlocks};
ghost use Rattle.vm_bound.specs.Runs.{AreEnds, AreNaming, AreAllNaming};

use crate::ends::all_ends;
use crate::graph::interface_blocks;
use crate::order::class_order;
use crate::subclasses::all_naming;
use digraph::Row;
use jc_base::{Items, World};
use std::alloc::{AllocError, Global};

/// Classes that stand next to each other in an order, the ones under a node of the tree over it: one class has the entry
/// that serves an interface for all of them.
#[derive(Clone, Copy)]
pub(crate) struct Block {
    /// The node: from the number of classes on it is one position, and below that it has the halves `node * 2` and
    /// `node * 2 + 1`.
    pub(crate) node: u16,
    /// The class that names the interface.
    pub(crate) by: u16,
}

/// An order of the classes, best with those below a class next to it, and over it by number of an interface its blocks.
#[derive(Drop)]
pub(crate) struct Spread {
    pub(crate) order: Items<u16>,
    pub(crate) blocks: Items<Items<Block>>,
}

/// The blocks of all interfaces, where the direct subclasses of each class are these.
pub(crate) fn spread_over(
    alloc: Global,
    world: &World<'_>,
    subclasses: &Vec<Row>,
) -> Result<Spread, AllocError>
    ensures spread { IfOk result (IsSpread world.now.classes) }
    ensures few { IfOk result (λ spread. length spread.order ≤ 8192) }
{
    let _facts = world.classes();
    let order = class_order(alloc, world, subclasses)?;
    let line = order.as_slice();
    let ends = all_ends(alloc, world, line)?;
    let naming = all_naming(alloc, world, line)?;
    let blocks = blocks_with(alloc, world, line, &ends, &naming)?;
    Ok(Spread {
        order: Items::of(order),
        blocks: Items::of(blocks),
    })
}

/// By number the blocks of an interface, and none of a class, with the ends, and with the positions that name each interface.
fn blocks_with(
    alloc: Global,
    world: &World<'_>,
    order: &[u16],
    ends: &Option<Vec<u16>>,
    naming: &Vec<Row>,
) -> Result<Vec<Items<Block>>, AllocError>
    requires order { IsOrder world.now.classes order.now }
    requires few { length order.now ≤ 8192 }
    requires ends { IfSome ends.now (λ found. AreEnds world.now.classes order.now found.items) }
    requires naming { AreAllNaming world.now.classes order.now naming.now.items }
    requires count { length naming.now.items ≡ length world.now.classes.records }
    ensures blocks { IfOk result (λ all. AreAllBlocks world.now.classes order.now all.items) }
    ensures count { IfOk result (λ all. length all.items ≡ length world.now.classes.records) }
{
    let _facts = world.classes();
    let mut all = Vec::new(alloc);
    'interfaces: for interface in 0..world.class_count() {
        let row = naming[interface as usize].as_slice();
        all.push(blocks_of(alloc, world, order, ends, row, interface)?)?;
    }
    Ok(all)
}

/// The blocks of an interface, and none of a class.
fn blocks_of(
    alloc: Global,
    world: &World<'_>,
    order: &[u16],
    ends: &Option<Vec<u16>>,
    naming: &[u32],
    interface: u16,
) -> Result<Items<Block>, AllocError>
    requires order { IsOrder world.now.classes order.now }
    requires few { length order.now ≤ 8192 }
    requires ends { IfSome ends.now (λ found. AreEnds world.now.classes order.now found.items) }
    requires naming { AreNaming world.now.classes order.now interface naming.now }
    requires interface { interface < length world.now.classes.records }
    ensures { IfOk result (AreBlocksOf world.now.classes order.now interface) }
{
    if world.classes().is_interface(interface) {
        Ok(Items::of(interface_blocks(alloc, world, order, ends, naming, interface)?))
    } else {
        Ok(Items::of(Vec::new(alloc)))
    }
}
