ghost use Rattle.std.specs.Prelude.{◌≡◌, ◌<◌, [], IfOk, OnOk, length, replicate, ◌≤◌, All};
ghost use Rattle.jc_base.specs.Class.{parent_of};
ghost use Rattle.vm_bound.specs.Rows.{AreAllSubclasses, IsAdded};
ghost use Rattle.vm_bound.specs.Blocks.{IsOrder};
ghost use Rattle.vm_bound.specs.Runs.{AreAllNaming, AreAdded};

use digraph::Row;
use jc_base::{Iface, World};
use std::alloc::{AllocError, Global};

/// The direct subclasses of each class, found in one pass over the classes.
pub(crate) fn all_subclasses(alloc: Global, world: &World<'_>) -> Result<Vec<Row>, AllocError>
    ensures subclasses { IfOk result (λ rows. AreAllSubclasses world.now.classes rows.items) }
    ensures count { IfOk result (λ rows. length rows.items ≡ length world.now.classes.records) }
{
    let _facts = world.classes();
    let mut rows = no_rows(alloc, world.class_count())?;
    'classes: for class in 0..world.class_count() {
        let Some(parent) = parent(world, class) else {
            continue;
        };
        add(&mut rows, parent, class)?;
    }
    Ok(rows)
}

/// So many rows with nothing in them.
pub(crate) fn no_rows(alloc: Global, count: u16) -> Result<Vec<Row>, AllocError>
    ensures { IfOk result (λ rows. rows.items ≡ replicate count []) }
{
    let mut rows = Vec::new(alloc);
    'rows: for _ in 0..count {
        rows.push(Row::of(Vec::new(alloc)))?;
    }
    Ok(rows)
}

/// The superclass of a class; an interface has none.
pub(crate) fn parent(world: &World<'_>, class: u16) -> Option<u16>
    ensures { result ≡ parent_of world.now.classes class }
{
    let classes = world.classes();
    if classes.is_class(class) {
        classes.parent(class)
    } else {
        None
    }
}

/// Adds a number to a row.
#[tactic(auto, using(crate::proofs::Subclassing::adding))]
pub(crate) fn add(rows: &mut Vec<Row>, at: u16, number: u16) -> Result<(), AllocError>
    requires { at < length rows.old.items }
    ensures { OnOk result (IsAdded rows.old.items at number rows.new.items) }
{
    rows[at as usize].push(u32::from(number))
}

/// By number of an interface the positions in an order of the classes at which a class names it, in rising order. They
/// are found in one pass over the order.
pub(crate) fn all_naming(
    alloc: Global,
    world: &World<'_>,
    order: &[u16],
) -> Result<Vec<Row>, AllocError>
    requires order { IsOrder world.now.classes order.now }
    requires few { length order.now ≤ 8192 }
    ensures naming { IfOk result (λ rows. AreAllNaming world.now.classes order.now rows.items) }
    ensures count { IfOk result (λ rows. length rows.items ≡ length world.now.classes.records) }
{
    let count = order.len() as u16;
    let mut rows = no_rows(alloc, world.class_count())?;
    'positions: for at in 0..count {
        let class = world.class(order[at as usize]);
        add_to_each(&mut rows, class.implements.as_slice(), at)?;
    }
    Ok(rows)
}

/// Adds a position to the rows of the interfaces of these entries.
fn add_to_each(rows: &mut Vec<Row>, entries: &[Iface], at: u16) -> Result<(), AllocError>
    requires { All (λ e. e.class < length rows.old.items) entries.now }
    ensures { OnOk result (AreAdded rows.old.items entries.now at rows.new.items) }
{
    'entries: for entry in entries {
        add(rows, entry.class, at)?;
    }
    Ok(())
}
