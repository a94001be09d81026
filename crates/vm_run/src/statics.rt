//! The static fields before the first step.
ghost use Rattle.std.specs.Prelude.{◌≡◌, ◌+◌, ◌≤◌, length, flat_map, sum_by};
ghost use Rattle.jc_base.specs.Cell.{width};
ghost use Rattle.vm_store.specs.Layout.{overwritten};
ghost use Rattle.vm_step.specs.Start.{field_cells};

use jc_base::{Kind, StaticRec, World};
use vm_store::{CellForm, Store};

/// Writes the initial value of a static field into the cells from a slot on, and tells the slot after it.
#[tactic(auto, using(crate::proofs::WritesInOrder::cell_written, crate::proofs::WritesInOrder::two_written))]
fn write_field<S: Store>(store: &mut S, slot: u16, field: &StaticRec) -> u16
    requires well { S.well store.old }
    requires words { length field.now.initial ≡ width field.now.kind }
    requires few { slot + width field.now.kind ≤ 32768 }
    requires there { slot + width field.now.kind ≤ length (S.state store.old).statics }
    ensures next { result ≡ slot + width field.now.kind }
    ensures state { S.state store.new
        ≡ record (S.state store.old)
        { statics = overwritten (S.state store.old).statics slot (field_cells S.Cell.cells field.now.kind field.now.initial) } }
    ensures well { S.well store.new }
    ensures fixed { S.fixed store.new ≡ S.fixed store.old }
{
    let first = *field.initial.at(0);
    match field.kind {
        Kind::Int => {
            let second = *field.initial.at(1);
            store.set_static_cell(usize::from(slot), S::Cell::high(first));
            store.set_static_cell(usize::from(slot) + 1, S::Cell::low(second));
            slot + 2
        }
        Kind::Ref => {
            store.set_static_cell(usize::from(slot), S::Cell::reference(first));
            slot + 1
        }
        _ => {
            store.set_static_cell(usize::from(slot), S::Cell::short(first.cast_signed()));
            slot + 1
        }
    }
}

/// Writes the initial values of all static fields, one after another.
pub fn write_statics<S: Store>(store: &mut S, world: &World<'_>)
    requires well { S.well store.old }
    requires count { length (S.state store.old).statics ≡ sum_by (λ f. width f.kind) world.now.statics }
    ensures state { S.state store.new
        ≡ record (S.state store.old)
        { statics = flat_map (λ f. field_cells S.Cell.cells f.kind f.initial) world.now.statics } }
    ensures well { S.well store.new }
    ensures fixed { S.fixed store.new ≡ S.fixed store.old }
{
    let _limits = world.classes();
    let mut slot = 0;
    'fields: for n in 0..world.static_count() {
        slot = write_field(store, slot, world.static_field(n));
    }
}
