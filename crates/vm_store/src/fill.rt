//! The cells of new objects, written into memory from a place on.
ghost use Rattle.std.specs.Prelude.{◌≡◌, ◌+◌, ◌*◌, ◌≤◌, [], ◌∷◌, length, map};
ghost use Rattle.jc_base.specs.Class.{IsClass};
ghost use Rattle.jc_base.specs.Dispatch.{cells_of};
ghost use Rattle.vm_store.specs.Kind.{IsArrayKind, element_width, cell_kind};
ghost use Rattle.vm_store.specs.Cells.{zero_cell};
ghost use Rattle.vm_store.specs.Objects.{array_cells, new_instance_cells, repeated};
ghost use Rattle.vm_store.specs.Layout.{overwritten};

use crate::cell::{CellKind, ObjectKind, cell_kind};
use crate::form::{CellForm, zero};
use jc_base::{Ty, World};

/// Writes one cell some times.
fn fill<C: CellForm>(cells: &mut [C], from: usize, cell: C, count: u16)
    requires { from + count ≤ length cells.old }
    ensures { cells.new ≡ overwritten cells.old from (repeated count (cell ∷ [])) }
{
    'cells: for n in 0..count as usize {
        cells[from + n] = cell;
    }
}

/// Writes the two halves of an int some times.
fn fill_ints<C: CellForm>(cells: &mut [C], from: usize, high: C, low: C, count: u16)
    requires { from + 2 * count ≤ length cells.old }
    ensures { cells.new ≡ overwritten cells.old from (repeated count (high ∷ low ∷ [])) }
{
    'cells: for n in 0..count as usize {
        cells[from + 2 * n] = high;
        cells[from + 2 * n + 1] = low;
    }
}

/// Writes the cells of a new array.
pub fn fill_array<C: CellForm>(cells: &mut [C], from: usize, kind: ObjectKind, count: u16)
    requires array { IsArrayKind kind }
    requires room { from + element_width kind * count ≤ length cells.old }
    ensures { cells.new ≡ overwritten cells.old from (array_cells C.cells kind count) }
{
    match kind {
        ObjectKind::Ints => fill_ints(
            cells,
            from,
            zero(CellKind::High),
            zero(CellKind::Low),
            count,
        ),
        ObjectKind::References(_) => fill(cells, from, zero(CellKind::Reference), count),
        _ => fill(cells, from, zero(CellKind::Short), count),
    }
}

/// Writes a zero or null for each type.
fn fill_own<C: CellForm>(cells: &mut [C], from: usize, types: &[Ty])
    requires { from + length types.now ≤ length cells.old }
    ensures { cells.new ≡ overwritten cells.old from (map (λ ty. zero_cell C.cells (cell_kind ty)) types.now) }
{
    'types: for n in 0..types.len() {
        cells[from + n] = zero(cell_kind(types[n]));
    }
}

/// Writes the cells of a new instance of a class: from its own fields up to those of object.
pub fn fill_instance<C: CellForm>(cells: &mut [C], from: usize, world: &World<'_>, class: u16)
    requires class { IsClass world.now.classes class }
    requires room { from + length (cells_of world.now.classes class) ≤ length cells.old }
    ensures { cells.new ≡ overwritten cells.old from (new_instance_cells C.cells world.now.classes class) }
{
    let mut at = class;
    'climb: loop {
        let record = world.class(at);
        let own = record.own.as_slice();
        fill_own(cells, from + (record.cells as usize - own.len()), own);
        match world.classes().parent(at) {
            Some(parent) => at = parent,
            None => return,
        }
    }
}
