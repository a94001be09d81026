ghost use Rattle.std.specs.Prelude.{◌≤◌, IfOk, OnOk, length};
ghost use Rattle.vm_bound.specs.Blocks.{IsOrder, IsPlaced};

use digraph::Row;
use indexmap::IndexSet;
use jc_base::World;
use std::alloc::{AllocError, Global};

/// An order of the classes, in which those below a class stand next to it. It is an order whatever the subclasses are;
/// the depth is a hint, with which few blocks serve an interface.
pub(crate) fn class_order(
    alloc: Global,
    world: &World<'_>,
    subclasses: &Vec<Row>,
) -> Result<Vec<u16>, AllocError>
    ensures order { IfOk result (λ order. IsOrder world.now.classes order.items) }
    ensures few { IfOk result (λ order. length order.items ≤ 8192) }
{
    let hint = in_depth(alloc, world, subclasses)?;
    let mut order = IndexSet::new(alloc);
    'hint: for k in 0..world.class_count() {
        place(world, &mut order, hinted(hint.as_slice(), k))?;
    }
    'classes: for class in 0..world.class_count() {
        place(world, &mut order, class)?;
    }
    order.as_slice().to_vec(alloc)
}

/// The class at a position of a hint, or any other number.
fn hinted(hint: &[u32], position: u16) -> u16 {
    match hint.get(position as usize) {
        Some(class) if *class < 65536 => *class as u16,
        _ => 0,
    }
}

/// Adds a class that is not there; another number is none.
fn place(world: &World<'_>, order: &mut IndexSet<u16>, class: u16) -> Result<(), AllocError>
    ensures { OnOk result (IsPlaced world.now.classes order.old.keys class order.new.keys) }
{
    if world.classes().is_class(class) {
        order.insert(class)?;
    }
    Ok(())
}

/// The numbers of class object and of those below it, in depth. Nothing is proved of it.
fn in_depth(
    alloc: Global,
    world: &World<'_>,
    subclasses: &Vec<Row>,
) -> Result<Vec<u32>, AllocError> {
    let mut order = Vec::new(alloc);
    let mut waiting = vec![in alloc; u32::from(world.role(0))]?;
    for _ in 0..world.class_count() {
        let Some(class) = waiting.pop() else {
            break;
        };
        order.push(class)?;
        if let Some(row) = subclasses.get(class as usize) {
            waiting.extend_from_slice(row.as_slice())?;
        }
    }
    Ok(order)
}
