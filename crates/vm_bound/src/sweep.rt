ghost use Rattle.std.specs.Prelude.{◌≡◌, ◌≤◌, ◌<◌, All, IfOk, OnOk, length};
ghost use Rattle.std.specs.List.Sorted.{IsNonDecreasing};
ghost use Rattle.vm_bound.specs.Runs.{AreRuns, IsByInnermost, Sweeps};

use crate::graph::add_run;
use crate::spread::Block;
use std::alloc::{AllocError, Global};

/// The blocks of an interface that the classes at these positions name, where the classes at and below the one at a
/// position end at the position that is told. There are twice as many runs as naming positions at most.
pub(crate) fn swept_blocks(
    alloc: Global,
    order: &[u16],
    ends: &[u16],
    naming: &[u32],
) -> Result<Vec<Block>, AllocError>
    requires few { length order.now ≤ 8192 }
    requires count { length ends.now ≡ length order.now }
    requires inside { All (λ p. p < length order.now) naming.now }
    requires rising { IsNonDecreasing naming.now }
    ensures { IfOk result
        (λ blocks. AreRuns (length order.now) (IsByInnermost order.now ends.now naming.now) (length order.now) blocks.items) }
{
    let mut blocks = Vec::new(alloc);
    let mut begun = Vec::new(alloc);
    let mut from = 0;
    'naming: for position in naming {
        let to = *position as u16;
        add_runs(&mut blocks, &mut begun, order, ends, from, to)?;
        begun.push(to)?;
        from = to;
    }
    add_runs(
        &mut blocks,
        &mut begun,
        order,
        ends,
        from,
        order.len() as u16,
    )?;
    Ok(blocks)
}

/// Adds blocks for the positions from one to before another, where no class between them names the interface. The class
/// at the last begun position serves up to its end, and then the one before it.
fn add_runs(
    blocks: &mut Vec<Block>,
    begun: &mut Vec<u16>,
    order: &[u16],
    ends: &[u16],
    from: u16,
    to: u16,
) -> Result<(), AllocError>
    requires few { length order.now ≤ 8192 }
    requires count { length ends.now ≡ length order.now }
    requires begun { All (λ p. p < length order.now) begun.old.items }
    requires order { from ≤ to }
    requires inside { to ≤ length order.now }
    ensures begun { OnOk result (All (λ p. p < length order.now) begun.new.items) }
    ensures sweeps { OnOk result (Sweeps order.now ends.now from to begun.old.items blocks.old.items begun.new.items blocks.new.items) }
{
    let count = order.len() as u16;
    let mut at = from;
    'begun: while at < to {
        let Some(last) = begun.pop() else {
            return Ok(());
        };
        let by = Some(order[last as usize]);
        let end = ends[last as usize];
        if to <= end {
            begun.push(last)?;
            return add_run(blocks, count, at, to, by);
        }
        if at < end {
            add_run(blocks, count, at, end, by)?;
            at = end;
        }
    }
    Ok(())
}
