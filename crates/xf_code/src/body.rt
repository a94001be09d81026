ghost use Rattle.std.specs.Prelude.{◌≡◌, ◌++◌, ◌≤◌, ◌+◌, Ok, None, OnOk, flat_map};
ghost use Rattle.xf_homes.specs.Walk.{operands_of};
ghost use Rattle.jc_decode.specs.Listing.{targets};
ghost use Rattle.xf_homes.specs.Plan.{local};
ghost use Rattle.xf_homes.specs.PlannedMethod.{source};
ghost use Rattle.xf_emission.specs.Jump.{AreLed};
ghost use Rattle.xf_emission.specs.Move.{copy};
ghost use Rattle.xf_emission.specs.Group.{body, first_place, gone, increased, loaded, pop_item, store_to_homes};

use crate::emitter::{Emitted, Emitter, Output, put};
use crate::field::keep;
use crate::jump::goto;
use jc_control::{Targets, place_of};
use jc_decode::{Insn, Item, Placed};
use jc_ops::{Branch, Holder, Operation, Sort};
use xf_emission::Origin;
use xf_emission::mnemonics::{POP, POP2};
use xf_homes::Home;

/// `pop`, or `pop2` for an int.
fn popped(sort: Sort) -> Item
    ensures { result ≡ pop_item sort }
{
    let op = match sort {
        Sort::Int => POP2,
        _ => POP,
    };
    Item::Plain(Insn {
        op,
        x: 0,
        y: 0,
        z: 0,
        len: 1,
    })
}

/// The place after an instruction, which lies in the code.
pub fn next_place(placed: Placed) -> u16
    requires { placed.place + placed.insn.len ≤ 65535 }
    ensures { result ≡ placed.place + placed.insn.len }
{
    (u32::from(placed.place) + placed.insn.len) as u16
}

impl Emitter<'_> {
    /// Appends a load of a local.
    fn loaded(&self, placed: Placed, x: u8, items: &mut Vec<Item>) -> Emitted
        ensures { OnOk result
            (items.new.items ≡ items.old.items ++ loaded (source self.now.plan) placed (local (source self.now.plan) placed.place x)) }
    {
        match self.plan.local(placed.place, u16::from(x)) {
            Some(home) => self.load(home, items),
            None => keep(placed, items),
        }
    }

    /// Appends an increment of a local.
    fn increased(&self, placed: Placed, x: u8, items: &mut Vec<Item>) -> Emitted
        ensures { OnOk result
            (items.new.items ≡ items.old.items ++ increased (source self.now.plan) placed (local (source self.now.plan) placed.place x)) }
    {
        let Some(home) = self.plan.local(placed.place, u16::from(x)) else {
            return keep(placed, items);
        };
        let insn = Insn {
            x: i32::from(self.plan.register(home)),
            ..placed.insn
        };
        put(items, Item::Plain(insn))
    }

    /// Appends the copies of a value from one home to others.
    fn copy_each(&self, from: Home, homes: &[Home], items: &mut Vec<Item>) -> Emitted
        ensures { OnOk result (items.new.items ≡ items.old.items ++ flat_map (copy (source self.now.plan) from) homes.now) }
    {
        'homes: for home in homes {
            self.copy(from, *home, items)?;
        }
        Ok(())
    }

    /// Appends a store into the homes of a local.
    fn stored(&self, sort: Sort, homes: &[Home], items: &mut Vec<Item>) -> Emitted
        ensures { OnOk result (items.new.items ≡ items.old.items ++ store_to_homes (source self.now.plan) sort homes.now) }
    {
        match homes.split_first() {
            Some((first, others)) => {
                self.store(*first, items)?;
                self.copy_each(*first, others, items)
            }
            None => put(items, popped(sort)),
        }
    }

    /// The place of the first target of a branch.
    fn first_place(&self, placed: Placed) -> u16
        requires { AreLed self.now.plan.walk.code.bytes.now placed }
        ensures { result ≡ first_place (targets self.now.plan.walk.code.bytes.now placed) }
    {
        match Targets::of(self.plan.walk.code, placed).next() {
            Some(target) => place_of(target),
            None => 0,
        }
    }

    /// Appends a goto: the stack goes into the homes of the target's cells, and then come the copies of locals.
    fn gone(&self, place: u16, operation: Operation, to: u16, out: &mut Output) -> Emitted
        ensures { OnOk result (out.new.items.items ≡ out.old.items.items ++ gone (source self.now.plan) place operation to) }
    {
        let cells = self.plan.stack_homes(self.alloc, to)?;
        self.spill(cells.as_slice(), &mut out.items)?;
        self.copies(Origin::After(place, operation), to, out)?;
        put(&mut out.items, goto(to))
    }

    /// Appends the instruction of an operation that is no conditional branch and no switch.
    #[tactic(auto, unfolding(xf_emission::specs::Group::body))]
    pub fn body(&self, placed: Placed, operation: Operation, out: &mut Output) -> Emitted
        requires led { AreLed self.now.plan.walk.code.bytes.now placed }
        requires inside { placed.place + placed.insn.len ≤ 65535 }
        requires other { operands_of self.now.plan.walk.world.now (Ok operation) ≡ None }
        ensures { OnOk result (out.new.items.items ≡ out.old.items.items ++ body (source self.now.plan) placed operation) }
    {
        match operation {
            Operation::Load(_, x) => self.loaded(placed, x, &mut out.items),
            Operation::Increment { register, .. } => {
                self.increased(placed, register, &mut out.items)
            }
            Operation::Store(sort, x) => {
                self.plan
                    .needed(next_place(placed), u16::from(x), &mut out.needed)?;
                self.stored(sort, out.needed.as_slice(), &mut out.items)
            }
            Operation::FieldRead(_, Holder::This) => self.field_read(placed, &mut out.items),
            Operation::FieldWrite(field, Holder::This) => {
                self.field_written(placed, field.kind, &mut out.items)
            }
            Operation::Branch(Branch::Always) => {
                self.gone(placed.place, operation, self.first_place(placed), out)
            }
            _ => keep(placed, &mut out.items),
        }
    }
}
