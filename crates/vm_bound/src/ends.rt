ghost use Rattle.std.specs.Prelude.{◌≡◌, ◌≤◌, ◌<◌, ◌+◌, IfOk, IfSome, IsTrue, Some, length};
ghost use Rattle.vm_bound.specs.Runs.{AreEnds, IsWalk};

use crate::subclasses::parent;
use jc_base::World;
use std::alloc::{AllocError, Global};

/// By position in an order of the classes the position at which those at and below the class there end. There are no ends
/// where those below some class do not stand next to it.
pub(crate) fn all_ends(
    alloc: Global,
    world: &World<'_>,
    order: &[u16],
) -> Result<Option<Vec<u16>>, AllocError>
    requires { length order.now ≤ 8192 }
    ensures { IfOk result (λ ends. IfSome ends (λ found. AreEnds world.now.classes order.now found.items)) }
{
    let count = order.len() as u16;
    let mut ends = vec![in alloc; count; count as usize]?;
    let mut begun = Vec::new(alloc);
    'positions: for at in 0..count {
        if !walk_on(world, order, at, &mut begun, &mut ends)? {
            return Ok(None);
        }
    }
    Ok(Some(ends))
}

/// Goes on to a position. Of the begun ones, whose classes may have more below them, the last ones end there, back to the
/// one of its superclass. It tells whether there is that one, or no superclass.
fn walk_on(
    world: &World<'_>,
    order: &[u16],
    at: u16,
    begun: &mut Vec<u16>,
    ends: &mut Vec<u16>,
) -> Result<bool, AllocError>
    requires at { at < length order.now }
    requires walk { IsWalk world.now.classes order.now at begun.old.items ends.old.items }
    ensures { IfOk result (λ found. IsTrue found → IsWalk world.now.classes order.now (at + 1) begun.new.items ends.new.items) }
{
    let parent = parent(world, order[at as usize]);
    'begun: while let Some(last) = begun.pop() {
        if is_one(parent, order[last as usize]) {
            begun.push(last)?;
            begun.push(at)?;
            return Ok(true);
        }
        ends[last as usize] = at;
    }
    begun.push(at)?;
    Ok(parent.is_none())
}

/// Whether there is a class, and it is this one.
fn is_one(parent: Option<u16>, class: u16) -> bool
    ensures { IsTrue result → parent ≡ Some class }
{
    match parent {
        None => false,
        Some(parent) => parent == class,
    }
}
