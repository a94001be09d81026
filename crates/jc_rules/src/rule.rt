ghost use Rattle.std.specs.Prelude.{◌≡◌, ◌<◌, ◌≤◌, length, reverse, sum_by, All, MatchBool, IfOk, IfErr, OnErr, IsSomeAnd, slice_get};
ghost use Rattle.jc_base.specs.Order.{IsKnown, rises_left};
ghost use Rattle.jc_base.specs.World.{IsWorld};
ghost use Rattle.jc_rules.specs.declared.demand.Before.{Before};
ghost use Rattle.jc_rules.specs.declared.effect.Mode.TheVariants.{Card};
ghost use Rattle.jc_rules.specs.Stack.{cells};
ghost use Rattle.jc_rules.specs.Effect.{depth_after};
ghost use Rattle.jc_rules.specs.Demand.{AreKnown, frame, IsJudged};
ghost use Rattle.jc_rules.specs.Rule.{demands, effect, seen, wrote};
ghost use Rattle.jc_base.specs.Class.{class_in_types};
ghost use Rattle.jc_rules.specs.Known.{IsKnownOperation};
ghost use Rattle.jc_rules.specs.Apply.{frame_of, HasDeclaredLengths, Applies, Refuses, PlansEffect};
ghost use Rattle.jc_ops.specs.declared.operation.Operation.TheVariants.{Call};
ghost use Rattle.jc_ops.specs.Sound.{IsNamedType};

use crate::demand::Before;
use crate::effect::{Cells, Effect, Mode, RegisterStore, change_regs, change_stack};
use crate::objects::value_given;
use crate::values::constant;
use jc_base::{Ty, World, types_are_ordered};
use jc_decode::Insn;
use jc_ops::{Holder, Operation, RuleFault, Site, resolve};

/// What an instruction did.
#[derive(Clone, Copy)]
pub struct Outcome {
    /// Whether the instruction after may come next.
    pub falls: bool,
    /// Whether the method ends here, or is left for a handler.
    pub ends: bool,
    /// The number of cells on the stack afterwards.
    pub depth: u8,
    /// The first register that was written, and how many were.
    pub wrote: Option<(u8, u8)>,
    /// Whether a register rose: on the card, where what was stored is not below what it held.
    pub rose: bool,
}

impl Before<'_> {
    /// What the operation does, if the frame has what it asks.
    #[inline(always)]
    fn rule(&self, operation: Operation) -> Result<Effect, RuleFault>
        requires frame { AreKnown self.now.world.now.classes (frame self.now) }
        requires known { IsKnownOperation self.now.world.now operation }
        ensures { IsJudged self.now.world.now.classes (frame self.now)
            (demands self.now.world.now operation)
            (effect self.now.world.now operation (frame self.now)) result }
    {
        match operation {
            Operation::Constant(pushed) => Ok(constant(pushed)),
            Operation::Load(sort, register) => self.load(sort, register),
            Operation::Store(sort, register) => self.store(sort, register),
            Operation::Increment {
                width,
                register,
                ..
            } => self.increment(width, register),
            Operation::Move(cells) => self.moved(cells),
            Operation::Arithmetic(arithmetic) => self.computed(arithmetic),
            Operation::ArrayRead(kind) => self.array_read(kind),
            Operation::ArrayWrite(kind) => self.array_write(kind),
            Operation::ArrayLength => self.array_length(),
            Operation::Branch(branch) => self.branched(branch),
            Operation::Switch(width) => self.switched(width),
            Operation::StaticRead(field) => Ok(Effect::replacing(0, value_given(field.ty))),
            Operation::StaticWrite(field) => self.popped(field.ty),
            Operation::FieldRead(field, holder) => self.field_read(holder, field.class, field.ty),
            Operation::FieldWrite(field, Holder::Stack) => self.object_write(field.class, field.ty),
            Operation::FieldWrite(field, Holder::This) => self.this_write(field.class, field.ty),
            Operation::Call(callee) => {
                self.called(&self.world.method(callee.method).sig, callee.receiver)
            }
            Operation::New { place, class } => Ok(Effect::replacing(
                0,
                Cells::One(Ty::Fresh { place, class }),
            )),
            Operation::NewArray(ty) => self.new_array(self.seen(ty)),
            Operation::Throw => self.thrown(),
            Operation::TypeTest(test, ty) => self.tested(test, self.seen(ty)),
            Operation::Return(Some(ty)) => self.popped(ty),
            Operation::Return(None) => Ok(Effect::replacing(0, Cells::Nothing)),
        }
    }

    /// The type of an object or an array, as frames have it: an interface stands for object.
    fn seen(&self, ty: Ty) -> Ty
        requires { IsNamedType self.now.world.now.classes ty }
        ensures { result ≡ seen self.now.world.now.classes ty }
    {
        match ty {
            Ty::Class(class) => Ty::Class(self.standing(class)),
            Ty::ArrRef(class) => Ty::ArrRef(self.standing(class)),
            other => other,
        }
    }

    fn standing(&self, class: u16) -> u16
        requires { class < length self.now.world.now.classes.records }
        ensures { result ≡ class_in_types self.now.world.now.classes class }
    {
        if self.world.classes().is_interface(class) {
            self.world.role(0)
        } else {
            class
        }
    }
}

/// Reads what an operation would do, and decides whether it may: nothing is changed yet.
#[inline(always)]
fn plan(
    world: &World<'_>,
    operation: Operation,
    regs: &[Ty],
    stack: &[Ty],
    max_stack: u8,
) -> Result<Effect, RuleFault>
    requires frame { AreKnown world.now.classes (record { regs = regs.now; stack = reverse stack.now }) }
    requires known { IsKnownOperation world.now operation }
    requires few { length stack.now ≤ 255 }
    requires world { IsWorld world.now }
    ensures { PlansEffect world.now max_stack operation (record { regs = regs.now; stack = reverse stack.now }) result }
{
    let before = Before { world, regs, stack };
    let effect = before.rule(operation)?;
    if effect.change.depth_after(stack.len() as u8) > max_stack as usize {
        return Err(RuleFault::Overflow);
    }
    Ok(effect)
}

impl RegisterStore {
    /// The first register that is written, and how many are.
    fn wrote(self) -> Option<(u8, u8)>
        ensures { result ≡ wrote self.register self.cells }
    {
        match self.cells {
            Cells::Nothing => None,
            Cells::One(_) => Some((self.register, 1)),
            Cells::Int => Some((self.register, 2)),
        }
    }
}

/// Applies the typing rule of the instruction that is decoded at the site to registers and stack, which is
/// the first `depth` cells of the slice. The slices have the lengths that the method declares. After a
/// refusal both are as before.
#[inline(always)]
pub fn apply(
    world: &World<'_>,
    site: Site,
    insn: Insn,
    regs: &mut [Ty],
    stack: &mut [Ty],
    depth: u8,
    mode: Mode,
) -> Result<Outcome, RuleFault>
    requires room { IsSomeAnd (slice_get world.now.methods site.method) (λ m. HasDeclaredLengths m regs.old stack.old depth) }
    requires regs_known { All (IsKnown world.now.classes) regs.old }
    requires stack_known { All (IsKnown world.now.classes) (cells stack.old depth) }
    ensures applies { IfOk result
        (λ o.
        Applies world.now site insn mode
        (frame_of regs.old stack.old depth)
        (frame_of regs.new stack.new o.depth) o) }
    ensures refuses { IfErr result (Refuses world.now site insn (frame_of regs.old stack.old depth)) }
    ensures as_before { OnErr result ((regs.new ≡ regs.old) × (stack.new ≡ stack.old)) }
    ensures regs_known { IfOk result (λ o. All (IsKnown world.now.classes) regs.new) }
    ensures stack_known { IfOk result (λ o. All (IsKnown world.now.classes) (cells stack.new o.depth)) }
    // On the card the registers are as before, or what is left for them to rise is less.
    ensures rises { IfOk result
        (λ o.
        mode ≡ Card
        → MatchBool o.rose
        (sum_by (rises_left world.now.classes) regs.new < sum_by (rises_left world.now.classes) regs.old)
        (regs.new ≡ regs.old)) }
{
    let classes = world.classes();
    types_are_ordered(classes);
    let operation = resolve(world, site, insn)?;
    let max_stack = world.method(site.method).max_stack;
    let effect = plan(world, operation, regs, &stack[..depth as usize], max_stack)?;
    let depth = change_stack(stack, depth, effect.change);
    let rose = change_regs(classes, regs, effect.store, mode);
    Ok(Outcome {
        falls: operation.falls(),
        ends: operation.ends(),
        depth,
        wrote: effect.store.wrote(),
        rose,
    })
}
