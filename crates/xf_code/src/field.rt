ghost use Rattle.std.specs.Prelude.{◌≡◌, ◌++◌, OnOk};
ghost use Rattle.xf_homes.specs.Plan.{local};
ghost use Rattle.xf_homes.specs.PlannedMethod.{source};
ghost use Rattle.xf_emission.specs.Group.{field_read, field_written, itself, stays, swap_words};

use crate::emitter::{Emitted, Emitter, put};
use crate::moves::with_byte;
use jc_base::Kind;
use jc_decode::{Insn, Item, Placed};
use xf_emission::mnemonics::{GETFIELD_A, GETFIELD_A_THIS, PUTFIELD_A, PUTFIELD_A_THIS, SWAP_X};
use xf_homes::Home;

/// Appends an instruction as it is.
pub fn keep(placed: Placed, items: &mut Vec<Item>) -> Emitted
    ensures { OnOk result (items.new.items ≡ items.old.items ++ itself placed) }
{
    put(items, Item::Plain(placed.insn))
}

/// How `swap_x` puts an object under a value of this kind.
fn swap_words(kind: Kind) -> u8
    ensures { result ≡ swap_words kind }
{
    match kind {
        Kind::Int => 18,
        _ => 17,
    }
}

impl Emitter<'_> {
    fn stays(&self, home: Home) -> bool
        ensures { result ≡ stays (source self.now.plan) home }
    {
        self.plan.register(home) == 0
    }

    /// Appends a read of a field of `this`.
    pub fn field_read(&self, placed: Placed, items: &mut Vec<Item>) -> Emitted
        ensures { OnOk result
            (items.new.items ≡ items.old.items ++ field_read (source self.now.plan) placed (local (source self.now.plan) placed.place 0)) }
    {
        let Some(home) = self.plan.local(placed.place, 0) else {
            return keep(placed, items);
        };
        if self.stays(home) {
            return keep(placed, items);
        }
        self.load(home, items)?;
        let insn = Insn {
            op: placed.insn.op.saturating_sub(GETFIELD_A_THIS - GETFIELD_A),
            ..placed.insn
        };
        put(items, Item::Plain(insn))
    }

    /// Appends a write of a field of `this`.
    pub fn field_written(&self, placed: Placed, kind: Kind, items: &mut Vec<Item>) -> Emitted
        ensures { OnOk result
            (items.new.items
            ≡ items.old.items ++ field_written (source self.now.plan) placed kind (local (source self.now.plan) placed.place 0)) }
    {
        let Some(home) = self.plan.local(placed.place, 0) else {
            return keep(placed, items);
        };
        if self.stays(home) {
            return keep(placed, items);
        }
        self.load(home, items)?;
        put(items, Item::Plain(with_byte(SWAP_X, swap_words(kind))))?;
        let insn = Insn {
            op: placed.insn.op.saturating_sub(PUTFIELD_A_THIS - PUTFIELD_A),
            ..placed.insn
        };
        put(items, Item::Plain(insn))
    }
}
