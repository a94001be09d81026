ghost use Rattle.std.specs.Prelude.{◌≡◌, ◌+◌, ◌<◌, All, MatchBool, IsSomeAnd, IfOk, IfErr, OnErr, slice_get, sum_by};
ghost use Rattle.jc_base.specs.Order.{IsKnown, rises_left};
ghost use Rattle.jc_rules.specs.declared.effect.Mode.TheVariants.{Card};
ghost use Rattle.jc_rules.specs.Stack.{cells};
ghost use Rattle.jc_rules.specs.Apply.{frame_of, HasDeclaredLengths, Applies, Refuses};

use jc_base::{Steps, Ty, World};
use jc_decode::Insn;
use jc_rules::{Mode, Outcome, RuleFault, Site, apply};
use std::sync::ledger::Ledger;

/// Applies the typing rule of an instruction as `apply` does, which is one step.
#[inline(always)]
pub fn apply_counted<L: Ledger>(
    world: &World<'_>,
    site: Site,
    insn: Insn,
    regs: &mut [Ty],
    stack: &mut [Ty],
    depth: u8,
    mode: Mode,
    steps: &mut Steps<L>,
) -> Result<Outcome, RuleFault>
    requires room { IsSomeAnd (slice_get world.now.methods site.method) (λ m. HasDeclaredLengths m regs.old stack.old depth) }
    requires regs_known { All (IsKnown world.now.classes) regs.old }
    requires stack_known { All (IsKnown world.now.classes) (cells stack.old depth) }
    ensures one { steps.new ≡ steps.old + 1 }
    ensures applies { IfOk result
        (λ o.
        Applies world.now site insn mode
        (frame_of regs.old stack.old depth)
        (frame_of regs.new stack.new o.depth) o) }
    ensures refuses { IfErr result (Refuses world.now site insn (frame_of regs.old stack.old depth)) }
    ensures as_before { OnErr result ((regs.new ≡ regs.old) × (stack.new ≡ stack.old)) }
    ensures regs_known { IfOk result (λ o. All (IsKnown world.now.classes) regs.new) }
    ensures stack_known { IfOk result (λ o. All (IsKnown world.now.classes) (cells stack.new o.depth)) }
    ensures rises { IfOk result
        (λ o.
        mode ≡ Card
        → MatchBool o.rose
        (sum_by (rises_left world.now.classes) regs.new < sum_by (rises_left world.now.classes) regs.old)
        (regs.new ≡ regs.old)) }
{
    steps.tick();
    apply(world, site, insn, regs, stack, depth, mode)
}
