ghost use Rattle.std.specs.Prelude.{◌≡◌, [], ◌≤◌, ◌<◌, ◌^◌, ◌↔◌, All, IfOk, OnOk, IsSomeAnd, Err, length, slice_get};
ghost use Rattle.jc_control.specs.Method.{method_in};
ghost use Rattle.jc_flow.specs.Infer.{AreDerived};
ghost use Rattle.jc_rules.specs.Typing.{state_at};
ghost use Rattle.xf_homes.specs.Answer.{IsTypingOf};
ghost use Rattle.xf_homes.specs.Order.{AreHomes};
ghost use Rattle.xf_homes.specs.PlannedMethod.{source};
ghost use Rattle.jc_decode.specs.Symbols.{IsItem, IsRange, plain_size};
ghost use Rattle.xf_emission.specs.Emission.{IsPlainSize, AreSymbolsOf, items, ranges, rewritten};
ghost use Rattle.xf_code.specs.Known.{IsSubject};
ghost use Rattle.xf_emission.specs.Live.{KeepsLive};
ghost use Rattle.xf_emission.specs.Numbers.{HasNumbers};
ghost use Rattle.law_rewritten_typing.specs.Typed.{HasTypingByHomes};
ghost use Rattle.law_groups.specs.Matching.{MatchesMethod};

use crate::emitter::{Emitted, Emitter, Output, put};
use crate::ways::{Stubs, next_reached};
use cap_bytes::{View, are_bytes};
use jc_base::World;
use jc_control::{ControlEnd, control_flow, flaws_decide, instructions_are_placed};
use jc_decode::{Item, Sequence, Symbols, instructions_are_listed};
use jc_rules::Typing;
use law_groups::rewritten_matches;
use law_rewritten_typing::rewritten_is_typed;
use std::alloc::{AllocError, Global};
use xf_emission::{Origin, items_suit, live_are_kept, plain_size_fits, ranges_stand};
use xf_homes::{HomeWalk, Homes, Plan};

/// Why a method is not rewritten.
#[derive(Clone, Copy)]
pub enum RewriteEnd {
    /// Its stack has 255 cells, and there is no room for one more.
    StackLimit,
    Memory,
}

impl From<AllocError> for RewriteEnd {
    ghost use Rattle.xf_code.specs.declared.rewriting.RewriteEnd.TheVariants.{Memory};

    ghost from_gives = { λ _ end. end ≡ Memory };

    fn from(_error: AllocError) -> RewriteEnd {
        RewriteEnd::Memory
    }
}

impl Emitter<'_> {
    /// Appends the items of a method, where there are none yet.
    #[tactic(auto, unfolding(xf_emission::specs::Emission::items))]
    fn put_items(&self, out: &mut Output, stubs: &mut Stubs) -> Emitted
        requires subject { IsSubject self.now.plan }
        requires few { length self.now.plan.walk.rec.now.handlers ≤ 255 }
        requires none { (out.old.items.items ≡ []) × (stubs.old.items.items ≡ []) }
        ensures { OnOk result (out.new.items.items ≡ items (source self.now.plan)) }
    {
        self.copies(Origin::Start, 0, out)?;
        self.groups(out, stubs)?;
        let end = self.plan.walk.code.bytes.len() as u16;
        put(&mut out.items, Item::Label(end))?;
        out.items.append(&mut stubs.items)?;
        self.handler_stubs(out)
    }

    /// The items of a method.
    fn items(&self) -> Result<Vec<Item>, AllocError>
        requires subject { IsSubject self.now.plan }
        requires few { length self.now.plan.walk.rec.now.handlers ≤ 255 }
        ensures { IfOk result (λ is. is.items ≡ items (source self.now.plan)) }
    {
        let mut out = Output::new(self.alloc);
        let mut stubs = Stubs {
            items: Vec::new(self.alloc),
            way: Output::new(self.alloc),
        };
        self.put_items(&mut out, &mut stubs)?;
        Ok(out.items)
    }
}

/// The symbols of a method, whose stack has room for one cell more.
#[tactic(auto, unfolding(xf_emission::specs::Emission::rewritten, xf_emission::specs::Emission::ranges))]
fn rewritten(alloc: Global, plan: Plan<'_>) -> Result<Symbols, AllocError>
    requires subject { IsSubject plan }
    requires few { length plan.walk.rec.now.handlers ≤ 255 }
    requires room { plan.walk.rec.now.max_stack < 255 }
    ensures { IfOk result (λ symbols. symbols ≡ rewritten (source plan.entry)) }
{
    let rec = plan.walk.rec;
    let next = next_reached(alloc, &plan)?;
    let emitter = Emitter {
        alloc,
        plan,
        next: next.as_slice(),
    };
    let items = emitter.items()?;
    let ranges = emitter.ranges()?;
    Ok(Symbols {
        items: Sequence::of(items),
        ranges: Sequence::of(ranges),
        max_stack: rec.max_stack + 1,
        nargs: rec.nargs,
        max_locals: plan.homes.count().saturating_sub(rec.nargs),
    })
}

/// A byte is a small number: a fact for proofs, and no work.
fn is_a_byte(byte: u8)
    ensures { byte ≤ 255 }
{
    let _ = byte;
}

/// The code of a method with homes in place of its locals, by the typing that `infer` gives for it and the homes that
/// `homes` gives for that typing.
pub fn rewrite<'a>(
    alloc: Global,
    world: &'a World<'a>,
    method: u16,
    typing: &'a Typing,
    homes: &'a Homes,
) -> Result<Symbols, RewriteEnd>
    requires code { IsSomeAnd (slice_get world.now.methods method) (λ m. 0 < m.code_len) }
    requires typing { IsSomeAnd (method_in world.now method) (λ m. IsTypingOf world.now m typing.now) }
    requires derived { IsSomeAnd (method_in world.now method) (λ m. AreDerived world.now m typing.now) }
    requires homes { IsSomeAnd (method_in world.now method) (λ m. AreHomes world.now m (state_at typing.now) homes.now) }
    ensures symbols { IsSomeAnd (method_in world.now method)
        (λ m. IfOk result (AreSymbolsOf world.now m (state_at typing.now) homes.now)) }
    // They have a card typing, in which each home's registers have the home's type.
    ensures typed { IsSomeAnd (method_in world.now method)
        (λ m. IfOk result (HasTypingByHomes world.now m homes.now)) }
    // Wherever they are laid, they do what the method does: its frames come to the same, step by step.
    ensures matches { IsSomeAnd (method_in world.now method)
        (λ m. IfOk result (MatchesMethod world.now m (state_at typing.now) homes.now)) }
    // Each live handler has a range, and no other.
    ensures live { IsSomeAnd (method_in world.now method)
        (λ m. IfOk result (λ symbols. KeepsLive m m.rec.handlers symbols.ranges)) }
    // The items and the ranges are such as `lay` takes.
    ensures items { IsSomeAnd (method_in world.now method)
        (λ m. IfOk result (λ symbols. All (IsItem m.code symbols.items) symbols.items)) }
    ensures ranged { IfOk result (λ symbols. All (IsRange symbols.items) symbols.ranges) }
    ensures numbers { IsSomeAnd (method_in world.now method)
        (λ m. IfOk result (HasNumbers m.rec homes.now)) }
    ensures size { IsSomeAnd (method_in world.now method)
        (λ m. IfOk result (λ symbols.
        IsPlainSize world.now m (state_at typing.now) homes.now (plain_size symbols.items))) }
    // It is a number of four bytes, as `lay` takes it.
    ensures small { IfOk result (λ symbols. plain_size symbols.items < 2 ^ 32) }
    ensures limit { IsSomeAnd (slice_get world.now.methods method)
        (λ m. (result ≡ Err RewriteEnd.StackLimit) ↔ (m.max_stack ≡ 255)) }
{
    instructions_are_listed();
    instructions_are_placed();
    flaws_decide();
    live_are_kept();
    ranges_stand();
    items_suit(world);
    plain_size_fits(world);
    rewritten_is_typed(world);
    rewritten_matches(world);
    let _count = homes.count();
    let rec = world.method(method);
    is_a_byte(rec.max_stack);
    if rec.max_stack == 255 {
        return Err(RewriteEnd::StackLimit);
    }
    let control = match control_flow(alloc, world, method) {
        Ok(control) => control,
        Err(ControlEnd::Memory) => return Err(RewriteEnd::Memory),
        Err(ControlEnd::Flawed(_)) => unreachable!(),
    };
    let code = View::of(world.code(method));
    are_bytes(code.bytes);
    let plan = Plan {
        walk: HomeWalk {
            world,
            number: method,
            rec,
            code,
            typing,
            control: &control,
        },
        homes,
    };
    let symbols = rewritten(alloc, plan)?;
    Ok(symbols)
}
