ghost use Rattle.std.specs.Prelude.{◌≡◌, ◌+◌, ◌≤◌, length};
ghost use Rattle.jc_base.specs.Cell.{width};
ghost use Rattle.vm_store.specs.State.{IsRunning, top};
ghost use Rattle.vm_store.specs.Objects.{object_cells};
ghost use Rattle.vm_store.specs.Value.{value_on, kept_value, with_object_value};
ghost use Rattle.vm_step.specs.Numbers.{dropped};
ghost use Rattle.vm_step.specs.Fields.{holder_width};
ghost use Rattle.vm_act.specs.Lead.{with_put, PutStands};

use crate::Put;
use jc_base::Kind;
use jc_ops::Holder;
use vm_store::{Store, pop_object_value, pop_static_value};

/// Pops the value on top into its place, and what tells the place.
pub fn perform_put<S: Store>(store: &mut S, put: Put)
    requires well { S.well store.old }
    requires running { IsRunning (S.state store.old) }
    requires stands { PutStands (S.state store.old) put }
    ensures state { S.state store.new ≡ with_put S.Cell.cells put (S.state store.old) }
    ensures well { S.well store.new }
    ensures fixed { S.fixed store.new ≡ S.fixed store.old }
{
    match put {
        Put::Static(field) => pop_static_value(store, field.slot, field.kind),
        Put::Field {
            handle,
            field,
            holder,
        } => pop_value(store, handle, field.cell, field.kind, holder_width(holder)),
        Put::Element {
            handle,
            element,
            kind,
        } => pop_value(store, handle, element * kind.width(), kind, 2),
    }
}

/// Pops a value into an object's cells from a place on, and then so many cells more.
fn pop_value<S: Store>(store: &mut S, handle: u16, at: u16, kind: Kind, under: usize)
    requires well { S.well store.old }
    requires running { IsRunning (S.state store.old) }
    requires there { at + width kind ≤ length (object_cells (S.state store.old) handle) }
    requires cells { width kind + under ≤ length (top (S.state store.old)).stack }
    ensures state { S.state store.new
        ≡ with_object_value
        (dropped (S.state store.old) (width kind + under))
        handle
        at
        (kept_value S.Cell.cells kind (value_on S.Cell.cells kind (top (S.state store.old)).stack)) }
    ensures well { S.well store.new }
    ensures fixed { S.fixed store.new ≡ S.fixed store.old }
{
    pop_object_value(store, handle, at, kind);
    store.discard(under);
}

/// How many cells the object of a field takes on the stack.
fn holder_width(holder: Holder) -> usize
    ensures { result ≡ holder_width holder }
{
    match holder {
        Holder::Stack => 1,
        Holder::This => 0,
    }
}
