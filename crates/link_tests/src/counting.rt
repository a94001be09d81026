ghost use Rattle.std.specs.Prelude.{◌≡◌, ℕ, ◌+◌, ◌*◌, ◌^◌, ◌<◌, ◌≤◌, [], ◌∷◌, drop, length, slice_get, sum_by, All, IfSome, IsSomeAnd, IsTrue, Ok};
ghost use Rattle.jc_base.specs.Class.{IsClass, chain, height};
ghost use Rattle.jc_base.specs.declared.ty.Ty.TheVariants.{Bottom};
ghost use Rattle.jc_control.specs.Method.{method_in};
ghost use Rattle.jc_decode.specs.Decoding.{decoded};
ghost use Rattle.jc_decode.specs.Listing.{listing, targets};
ghost use Rattle.card_verify.specs.Bound.{step_bound};
ghost use Rattle.card_verify.specs.Counted.{instruction_count};

use crate::once::{begin, differ, passes_once};
use cap_bytes::View;
use card_verify::{index_laws, verify_indexed};
use jc_base::{Classes, Steps, TargetIndex, Ty, World, same_type};
use jc_control::Targets;
use jc_decode::{Instructions, Placed, instructions_are_listed};
use jc_rules::rule_laws;
use std::sync::ledger::Ledger;

/// Whether a method's code has so many instructions.
fn has_instructions(code: View<'_>, many: usize) -> bool
    requires { length code.bytes.now ≤ 32767 }
    ensures { IsTrue result → length (listing code.entry.bytes.now) ≡ many }
{
    let mut count = 0;
    'walk: for _ in Instructions::of(code) {
        if count == many {
            return false;
        }
        count += 1;
    }
    count == many
}

/// The number of targets of an instruction, if it has so many at most.
fn few_targets(code: View<'_>, placed: Placed, most: usize) -> Option<usize>
    requires short { length code.bytes.now ≤ 32767 }
    requires decoded { decoded code.bytes.now placed.place ≡ Ok placed.insn }
    ensures count { IfSome result (λ n. n ≡ length (targets code.entry.bytes.now placed)) }
    ensures few { IfSome result (λ n. n ≤ most) }
{
    let mut count = 0;
    'targets: for _ in Targets::of(code, placed) {
        if count == most {
            return None;
        }
        count += 1;
    }
    Some(count)
}

/// Whether the instructions of a code have at most so many targets, each of each.
fn are_few_targets(code: View<'_>, most: usize) -> bool
    requires { length code.bytes.now ≤ 32767 }
    ensures { IsTrue result → sum_by (λ i. length (targets code.entry.bytes.now i)) (listing code.entry.bytes.now) ≤ most }
{
    instructions_are_listed();
    let mut left = most;
    'walk: for placed in Instructions::of(code) {
        match few_targets(code, placed, left) {
            Some(count) => left -= count,
            None => return false,
        }
    }
    true
}

/// The number of classes on the chain of a class.
fn depth(classes: &Classes, class: u16) -> usize
    requires { IsClass classes.now class }
    ensures { result ≡ length (chain classes.now class) }
{
    let mut at = class;
    let mut count = 1;
    'climb: while let Some(parent) = classes.parent(at) {
        at = parent;
        count += 1;
    }
    count
}

/// Whether the chain of a number has at most so many classes; an interface is alone on its own.
fn is_short(classes: &Classes, number: u16, most: usize) -> bool
    requires { number < length classes.now.records }
    ensures { IsTrue result → length (chain classes.now number) ≤ most }
{
    if classes.is_class(number) {
        depth(classes, number) <= most
    } else {
        most > 0
    }
}

/// Whether no chain of superclasses has more than so many classes.
fn is_low(world: &World<'_>, most: usize) -> bool
    ensures { IsTrue result → height world.now.classes ≤ most }
{
    let classes = world.classes();
    if depth(classes, world.role(0)) > most {
        return false;
    }
    'classes: for number in 0..world.class_count() {
        if !is_short(classes, number, most) {
            return false;
        }
    }
    true
}

/// Whether one of these registers has risen from no value.
fn is_raised(locals: &[Ty]) -> bool
    ensures { IsTrue result → ¬ (All (λ ty. ty ≡ Bottom) locals.now) }
{
    'locals: for ty in locals {
        if !same_type(*ty, Ty::Bottom) {
            return true;
        }
    }
    false
}

/// The registers behind so many.
fn after(regs: &[Ty], first: usize) -> &[Ty]
    ensures { result.now ≡ drop first regs.now }
{
    if first <= regs.len() {
        &regs[first..]
    } else {
        &[]
    }
}

/// Verifies a method over an index, and tells whether it is accepted and a register rose that is no argument. Then there
/// are two passes at the least, and in each a step for each instruction, beside one for each entry.
fn rises<L: Ledger>(
    world: &World<'_>,
    method: u16,
    index: &TargetIndex<'_>,
    regs: &mut [Ty],
    stack: &mut [Ty],
    steps: &mut Steps<L>,
) -> bool
    requires code { IsSomeAnd (slice_get world.now.methods method) (λ m. 0 < m.code_len) }
    requires registers { IsSomeAnd (slice_get world.now.methods method) (λ m. length regs.old ≡ m.nargs + m.max_locals) }
    requires cells { IsSomeAnd (slice_get world.now.methods method) (λ m. length stack.old ≡ m.max_stack) }
    ensures least { IsTrue result
        → IsSomeAnd (method_in world.now method)
        (λ m. steps.old + (length index.now + 2 * instruction_count m) ≤ steps.new) }
    ensures most { IsSomeAnd (method_in world.now method)
        (λ m.
        (digits : ℕ)
        → length index.now < 2 ^ digits
        → steps.new ≤ steps.old + step_bound world.now m (length index.now) digits) }
{
    index_laws(world);
    let first = usize::from(world.method(method).nargs);
    match verify_indexed(world, method, index, regs, stack, steps) {
        Ok(()) => is_raised(after(regs, first)),
        Err(_) => false,
    }
}

/// Verifies a method of 19 instructions with two targets, over an index of two, in four registers, in a world whose chains
/// have three classes at most. Where it is accepted and a register rises that is no argument, this takes 40 steps at the
/// least: two entries, and two passes over 19 instructions. It takes 1,431 at the most.
pub(crate) fn takes_40_to_1431<L: Ledger>(
    world: &World<'_>,
    method: u16,
    index: &TargetIndex<'_>,
    regs: &mut [Ty],
    stack: &mut [Ty],
    steps: &mut Steps<L>,
) -> bool
    requires code { IsSomeAnd (slice_get world.now.methods method) (λ m. 0 < m.code_len) }
    requires registers { IsSomeAnd (slice_get world.now.methods method) (λ m. length regs.old ≡ m.nargs + m.max_locals) }
    requires cells { IsSomeAnd (slice_get world.now.methods method) (λ m. length stack.old ≡ m.max_stack) }
    ensures least { IsTrue result → steps.old + 40 ≤ steps.new }
    ensures most { IsTrue result → steps.new ≤ steps.old + 1431 }
{
    // The method's record, of which it is known that its code is short.
    let _rec = world.method(method);
    let code = View::of(world.code(method));
    if !has_instructions(code, 19) || !are_few_targets(code, 2) || index.len() != 2 {
        return false;
    }
    if regs.len() != 4 || !is_low(world, 3) {
        return false;
    }
    rises(world, method, index, regs, stack, steps)
}

/// Verifies a method over an index of the place 0 alone. Where it is accepted, and a register is another after one pass,
/// there are three passes at the least, and each instruction is a step in each.
pub(crate) fn takes_three_passes<L: Ledger>(
    world: &World<'_>,
    method: u16,
    index: &TargetIndex<'_>,
    first: &mut [Ty],
    regs: &mut [Ty],
    stack: &mut [Ty],
    steps: &mut Steps<L>,
) -> bool
    requires code { IsSomeAnd (slice_get world.now.methods method) (λ m. 0 < m.code_len) }
    requires alone { index.now ≡ 0 ∷ [] }
    requires first { IsSomeAnd (slice_get world.now.methods method) (λ m. length first.old ≡ m.nargs + m.max_locals) }
    requires registers { IsSomeAnd (slice_get world.now.methods method) (λ m. length regs.old ≡ m.nargs + m.max_locals) }
    requires cells { IsSomeAnd (slice_get world.now.methods method) (λ m. length stack.old ≡ m.max_stack) }
    ensures { IsTrue result
        → IsSomeAnd (method_in world.now method) (λ m. steps.old + 3 * instruction_count m ≤ steps.new) }
{
    rule_laws(world);
    if !begin(world.method(method), first) {
        return false;
    }
    if !passes_once(world, method, first, stack) {
        return false;
    }
    match verify_indexed(world, method, index, regs, stack, steps) {
        Ok(()) => differ(first, regs),
        Err(_) => false,
    }
}
