ghost use Rattle.std.specs.Prelude.{◌≡◌, ◌++◌, ◌+◌, Ok, OnOk, flat_map};
ghost use Rattle.jc_decode.specs.Listing.{listing};
ghost use Rattle.xf_homes.specs.Plan.{operation};
ghost use Rattle.xf_homes.specs.PlannedMethod.{source};
ghost use Rattle.xf_homes.specs.Walk.{operands_of};
ghost use Rattle.xf_emission.specs.Emission.{stubs, stubs_by, stubs_done};
ghost use Rattle.xf_emission.specs.Group.{body, done, entrance, group};
ghost use Rattle.xf_code.specs.Known.{IsInstruction, IsSubject};

use crate::emitter::{Emitted, Emitter, Output, put};
use crate::jump::Fork;
use crate::ways::Stubs;
use jc_decode::{Instructions, Item, Placed};
use jc_ops::Operation;
use xf_homes::operands;

impl Emitter<'_> {
    /// Appends the label of a place, and the loads of its stack where it is a leader.
    fn entrance(&self, place: u16, items: &mut Vec<Item>) -> Emitted
        ensures { OnOk result (items.new.items ≡ items.old.items ++ entrance (source self.now.plan) place) }
    {
        put(items, Item::Label(place))?;
        if !self.plan.is_leader(place) {
            return Ok(());
        }
        let cells = self.plan.stack_homes(self.alloc, place)?;
        self.loads(cells.as_slice(), items)
    }

    /// Appends the instruction, and the stubs of its ways if it is a conditional branch or a switch.
    fn instruction(
        &self,
        placed: Placed,
        operation: Operation,
        out: &mut Output,
        stubs: &mut Stubs,
    ) -> Emitted
        requires { IsInstruction self.now.plan placed }
        ensures items { OnOk result (out.new.items.items ≡ out.old.items.items ++ body (source self.now.plan) placed operation) }
        ensures stubs { OnOk result
            (stubs.new.items.items ≡ stubs.old.items.items
            ++ stubs_by (source self.now.plan) placed operation (operands_of self.now.plan.walk.world.now (Ok operation))) }
    {
        let Some(operands) = operands(self.plan.walk.world, operation) else {
            return self.body(placed, operation, out);
        };
        let fork = Fork {
            placed,
            operation,
            operands,
        };
        self.branch(fork, &mut out.items, stubs)
    }

    /// Appends the instruction, with the stubs of its ways, and the way into the next place.
    fn done(&self, placed: Placed, out: &mut Output, stubs: &mut Stubs) -> Emitted
        requires { IsInstruction self.now.plan placed }
        ensures items { OnOk result
            (out.new.items.items ≡ out.old.items.items ++ done (source self.now.plan) placed (operation (source self.now.plan) placed)) }
        ensures stubs { OnOk result
            (stubs.new.items.items
            ≡ stubs.old.items.items ++ stubs_done (source self.now.plan) placed (operation (source self.now.plan) placed)) }
    {
        match self.plan.operation(placed) {
            Ok(operation) => {
                self.instruction(placed, operation, out, stubs)?;
                self.fallen(placed, operation, out)
            }
            Err(_) => Ok(()),
        }
    }

    /// Appends the group of an instruction and the stubs of its ways, if control reaches it.
    #[tactic(auto, unfolding(xf_emission::specs::Group::group, xf_emission::specs::Emission::stubs))]
    fn group(&self, placed: Placed, out: &mut Output, stub_items: &mut Stubs) -> Emitted
        requires { IsInstruction self.now.plan placed }
        ensures items { OnOk result (out.new.items.items ≡ out.old.items.items ++ group (source self.now.plan) placed) }
        ensures stubs { OnOk result (stub_items.new.items.items ≡ stub_items.old.items.items ++ stubs (source self.now.plan) placed) }
    {
        if !self.plan.walk.typing.reached(placed.place) {
            return Ok(());
        }
        self.entrance(placed.place, &mut out.items)?;
        self.done(placed, out, stub_items)
    }

    /// Appends the groups of all instructions, in their order, to the items, and the stubs of their ways to the stubs.
    pub fn groups(&self, out: &mut Output, stub_items: &mut Stubs) -> Emitted
        requires { IsSubject self.now.plan }
        ensures items { OnOk result
            (out.new.items.items
            ≡ out.old.items.items ++ flat_map (group (source self.now.plan)) (listing self.now.plan.walk.code.bytes.now)) }
        ensures stubs { OnOk result
            (stub_items.new.items.items
            ≡ stub_items.old.items.items ++ flat_map (stubs (source self.now.plan)) (listing self.now.plan.walk.code.bytes.now)) }
    {
        'walk: for placed in Instructions::of(self.plan.walk.code) {
            self.group(placed, out, stub_items)?;
        }
        Ok(())
    }
}
