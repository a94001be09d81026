ghost use Rattle.std.specs.Prelude.{◌≡◌, ◌++◌, ◌∷◌, [], OnOk};
ghost use Rattle.xf_homes.specs.PlannedMethod.{source};
ghost use Rattle.xf_emission.specs.Move.{with_byte, load_op, store_op, load, store, copy, loads, spill};

use crate::emitter::{Emitted, Emitter, put};
use jc_base::Ty;
use jc_decode::{Insn, Item};
use xf_emission::mnemonics::{ALOAD, ASTORE, ILOAD, ISTORE, SLOAD, SSTORE};
use xf_homes::Home;

/// An instruction of two bytes, with an operand.
pub fn with_byte(op: u8, x: u8) -> Insn
    ensures { result ≡ with_byte op x }
{
    Insn {
        op,
        x: i32::from(x),
        y: 0,
        z: 0,
        len: 2,
    }
}

fn load_op(ty: Ty) -> u8
    ensures { result ≡ load_op ty }
{
    match ty {
        Ty::Short => SLOAD,
        Ty::IntHigh => ILOAD,
        _ => ALOAD,
    }
}

fn store_op(ty: Ty) -> u8
    ensures { result ≡ store_op ty }
{
    match ty {
        Ty::Short => SSTORE,
        Ty::IntHigh => ISTORE,
        _ => ASTORE,
    }
}

impl Emitter<'_> {
    /// Appends the load of a home.
    pub fn load(&self, home: Home, items: &mut Vec<Item>) -> Emitted
        ensures { OnOk result (items.new.items ≡ items.old.items ++ load (source self.now.plan) home ∷ []) }
    {
        let insn = with_byte(load_op(home.ty), self.plan.register(home));
        put(items, Item::Plain(insn))
    }

    /// Appends the store into a home.
    pub fn store(&self, home: Home, items: &mut Vec<Item>) -> Emitted
        ensures { OnOk result (items.new.items ≡ items.old.items ++ store (source self.now.plan) home ∷ []) }
    {
        let insn = with_byte(store_op(home.ty), self.plan.register(home));
        put(items, Item::Plain(insn))
    }

    /// Appends the copy of a value from one home to another.
    pub fn copy(&self, from: Home, to: Home, items: &mut Vec<Item>) -> Emitted
        ensures { OnOk result (items.new.items ≡ items.old.items ++ copy (source self.now.plan) from to) }
    {
        self.load(from, items)?;
        self.store(to, items)
    }

    /// Appends the loads of homes, the first at the bottom of the stack.
    pub fn loads(&self, homes: &[Home], items: &mut Vec<Item>) -> Emitted
        ensures { OnOk result (items.new.items ≡ items.old.items ++ loads (source self.now.plan) homes.now) }
    {
        'homes: for home in homes {
            self.load(*home, items)?;
        }
        Ok(())
    }

    /// Appends the stores of a stack into homes, the top into the last.
    #[tactic(auto, unfolding(xf_emission::specs::Move::spill))]
    pub fn spill(&self, homes: &[Home], items: &mut Vec<Item>) -> Emitted
        ensures { OnOk result (items.new.items ≡ items.old.items ++ spill (source self.now.plan) homes.now) }
    {
        let mut left = homes.len();
        'homes: while left > 0 {
            left -= 1;
            self.store(homes[left], items)?;
        }
        Ok(())
    }
}
