ghost use Rattle.std.specs.Prelude.{◌≡◌, ◌<◌, IfOk, IfErr, IsSomeAnd, slice_get};
ghost use Rattle.jc_control.specs.Method.{method_in};
ghost use Rattle.jc_rules.specs.Typing.{state_at};
ghost use Rattle.xf_homes.specs.Order.{AreHomes};
ghost use Rattle.xf_homes.specs.Answer.{IsTypingOf, IsCounted, TellsHomes};

use crate::arguments::argument_homes;
use crate::found::Homes;
use crate::home::Home;
use crate::walk::HomeWalk;
use indexmap::IndexSet;
use jc_base::{World, types_are_ordered};
use jc_control::{ControlEnd, Subject, flaws_decide, instructions_are_placed};
use jc_rules::Typing;
use std::alloc::{AllocError, Global};

/// Why a method has no homes.
#[derive(Clone, Copy)]
pub enum HomeEnd {
    /// They would take this many registers, of which there are 255 at most.
    Registers(u32),
    Memory,
}

impl From<AllocError> for HomeEnd {
    ghost use Rattle.xf_homes.specs.declared.finding.HomeEnd.TheVariants.{Memory};

    ghost from_gives = { λ f e. e ≡ Memory };

    fn from(_error: AllocError) -> HomeEnd {
        HomeEnd::Memory
    }
}

/// The homes of a method with code, by the typing that `infer` gives for it: the arguments at their declared types,
/// each in its own register, and after them the others in the order in which they are first met.
pub fn homes(
    alloc: Global,
    world: &World<'_>,
    method: u16,
    typing: &Typing,
) -> Result<Homes, HomeEnd>
    requires code { IsSomeAnd (slice_get world.now.methods method) (λ m. 0 < m.code_len) }
    requires typing { IsSomeAnd (method_in world.now method) (λ m. IsTypingOf world.now m typing.now) }
    ensures homes { IsSomeAnd (method_in world.now method)
        (λ m. IfOk result (AreHomes world.now m (state_at typing.now))) }
    ensures end { IsSomeAnd (method_in world.now method)
        (λ m. IfErr result (TellsHomes world.now m (state_at typing.now))) }
{
    let subject = Subject::of(world, method);
    types_are_ordered(subject.world.classes());
    instructions_are_placed();
    flaws_decide();
    let control = match subject.control_flow(alloc) {
        Ok(control) => control,
        Err(ControlEnd::Memory) => return Err(HomeEnd::Memory),
        Err(ControlEnd::Flawed(_)) => unreachable!(),
    };
    let walk = HomeWalk {
        world: subject.world,
        number: subject.number,
        rec: subject.rec,
        code: subject.code,
        typing,
        control: &control,
    };
    let mut homes = argument_homes(alloc, subject.rec)?;
    walk.find(&mut homes)?;
    counted(alloc, homes)
}

/// The homes, where there are registers for all.
fn counted(alloc: Global, homes: IndexSet<Home>) -> Result<Homes, HomeEnd>
    ensures homes { IfOk result (λ found. found ≡ homes.keys) }
    ensures end { IfErr result (IsCounted homes.keys) }
{
    let mut sum: u32 = 0;
    'homes: for home in homes.as_slice() {
        sum = sum.saturating_add(u32::from(home.width()));
    }
    if sum > 255 {
        return Err(HomeEnd::Registers(sum));
    }
    Ok(Homes::of(alloc, homes, sum as u8)?)
}
