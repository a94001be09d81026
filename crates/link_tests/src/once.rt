ghost use Rattle.std.specs.Prelude.{◌≡◌, ◌≢◌, ◌+◌, ◌<◌, ◌≤◌, [], ◌∷◌, false, length, slice_get, slice_index_or, Contains, IsSomeAnd, IsTrue};
ghost use Rattle.jc_base.specs.declared.ty.Ty.TheVariants.{Bottom};
ghost use Rattle.jc_control.specs.Method.{method_in};
ghost use Rattle.jc_decode.specs.Listing.{falls, jumps};
ghost use Rattle.jc_rules.specs.Flow.{start_frame};
ghost use Rattle.card_typing.specs.Pass.{HasAfterPasses};

use cap_bytes::View;
use jc_base::{Handlers, MethodRec, Ty, World, same_type};
use jc_decode::{Instructions, Placed, instructions_are_listed};
use jc_ops::Site;
use jc_rules::{Mode, apply, rule_laws, rule_raises};

/// Gives registers the types with which a static method starts.
pub(crate) fn begin(rec: &MethodRec, regs: &mut [Ty]) -> bool
    requires { length regs.old ≡ length (start_frame rec.now Bottom).regs }
    ensures { IsTrue result → regs.new ≡ (start_frame rec.now Bottom).regs }
{
    if !rec.is_static {
        return false;
    }
    let arguments = rec.sig.args.as_slice();
    'registers: for x in 0..regs.len() {
        regs[x] = argument(arguments, x);
    }
    true
}

/// The type of an argument, and no value past the last.
fn argument(arguments: &[Ty], n: usize) -> Ty
    ensures { result ≡ slice_index_or arguments.now n Bottom }
{
    match arguments.get(n) {
        Some(ty) => *ty,
        None => Ty::Bottom,
    }
}

/// Whether a register differs between two lists of them.
pub(crate) fn differ(some: &[Ty], others: &[Ty]) -> bool
    ensures { IsTrue result → some.now ≢ others.now }
{
    'registers: for (ty, other) in some.iter().zip(others) {
        if !same_type(*ty, *other) {
            return true;
        }
    }
    false
}

/// Whether an instruction leaves what the verifier passes: after a branch no cells, and before the end of the code where it
/// falls through; and else no cells either.
fn leaves_well(placed: Placed, depth: u8, end: usize) -> bool
    ensures jumps { IsTrue result → IsTrue (jumps placed.insn.op) → depth ≡ 0 }
    ensures falls { IsTrue result → IsTrue (falls placed.insn.op) → placed.place + placed.insn.len < end }
    ensures ends { IsTrue result → falls placed.insn.op ≡ false → depth ≡ 0 }
{
    if !placed.insn.falls() {
        return depth == 0;
    }
    let next = u64::from(placed.place) + u64::from(placed.insn.len);
    next < end as u64 && (depth == 0 || !placed.insn.jumps())
}

/// Whether a walk that has come to a place finds an instruction there, with a stack of the method, which is empty at the
/// place 0.
fn may_stand(place: u16, at: u32, depth: u8, most: u8) -> bool
    ensures here { IsTrue result → place ≡ at }
    ensures empty { IsTrue result → place ≡ 0 → depth ≡ 0 }
    ensures within { IsTrue result → depth ≤ most }
{
    if u32::from(place) != at || depth > most {
        return false;
    }
    place > 0 || depth == 0
}

fn are_none(handlers: &Handlers) -> bool
    ensures { IsTrue result → handlers.now ≡ [] }
{
    handlers.as_slice().is_empty()
}

/// Walks the code of a method without handlers once, as the verifier does over an index of the place 0 alone.
pub(crate) fn passes_once(world: &World<'_>, number: u16, regs: &mut [Ty], stack: &mut [Ty]) -> bool
    requires code { IsSomeAnd (slice_get world.now.methods number) (λ m. 0 < m.code_len) }
    requires registers { IsSomeAnd (slice_get world.now.methods number) (λ m. length regs.old ≡ m.nargs + m.max_locals) }
    requires cells { IsSomeAnd (slice_get world.now.methods number) (λ m. length stack.old ≡ m.max_stack) }
    requires begun { IsSomeAnd (slice_get world.now.methods number) (λ m. regs.old ≡ (start_frame m Bottom).regs) }
    ensures { IsTrue result
        → IsSomeAnd (method_in world.now number) (λ m. HasAfterPasses world.now m (Contains (0 ∷ [])) 1 regs.new) }
{
    instructions_are_listed();
    rule_laws(world);
    rule_raises(world);
    let rec = world.method(number);
    let code = View::of(world.code(number));
    if !are_none(&rec.handlers) {
        return false;
    }
    let mut at = 0;
    let mut depth = 0;
    'walk: for placed in Instructions::of(code) {
        if !may_stand(placed.place, at, depth, rec.max_stack) {
            return false;
        }
        let site = Site {
            method: number,
            place: placed.place,
        };
        match apply(world, site, placed.insn, regs, stack, depth, Mode::Card) {
            Ok(outcome) => depth = outcome.depth,
            Err(_) => return false,
        }
        if !leaves_well(placed, depth, code.bytes.len()) {
            return false;
        }
        at = u32::from(placed.place) + placed.insn.len;
    }
    at as usize == code.bytes.len()
}
