ghost use Rattle.std.specs.Prelude.{◌≡◌, ◌<◌, IfOk, IfErr, IsSomeAnd, Some, slice_get, ◌≤ℤ◌, ◌<ℤ◌, pos, MatchBool};
ghost use Rattle.jc_base.specs.Linked.{IsMethod};
ghost use Rattle.jc_control.specs.Method.{IsMethodOf, method_in};
ghost use Rattle.jc_control.specs.ControlFlow.{IsControlFlow, TellsFlaw};
ghost use Rattle.jc_control.specs.Subject.{method, world_of};
ghost use Rattle.jc_control.specs.Control.{Covers};

use crate::listing::Listing;
use crate::places::Places;
use crate::reached::ControlFlow;
use crate::scan::find_flaw;
use crate::subject::Subject;
use crate::traversal::Traversal;
use cap_bytes::View;
use jc_base::{Handler, World};
use jc_decode::{CodeEnd, instructions_are_listed};
use std::alloc::{AllocError, Global};

/// Why a method is not well formed.
#[derive(Clone, Copy)]
pub enum Flaw {
    /// The place where no instruction is decoded, and why.
    Code(u16, CodeEnd),
    /// The place of a branch or switch, and a target of it where no instruction begins.
    BadTarget(u16, i32),
    /// The entry of a handler, and the handler's number in the method's table.
    BadHandler(u16, u16),
}

/// Why it is not told where control goes in a method.
#[derive(Clone, Copy)]
pub enum ControlEnd {
    /// The first flaw of a method that is not well formed.
    Flawed(Flaw),
    Memory,
}

impl From<Flaw> for ControlEnd {
    ghost use Rattle.jc_control.specs.declared.control.ControlEnd.TheVariants.{Flawed};

    ghost from_gives = { λ f e. e ≡ Flawed f };

    fn from(flaw: Flaw) -> ControlEnd {
        ControlEnd::Flawed(flaw)
    }
}

impl From<AllocError> for ControlEnd {
    ghost use Rattle.jc_control.specs.declared.control.ControlEnd.TheVariants.{Memory};

    ghost from_gives = { λ _ e. e ≡ Memory };

    fn from(_error: AllocError) -> ControlEnd {
        ControlEnd::Memory
    }
}

/// Where control goes in a method with code, if it is well formed, and else its first flaw.
pub fn control_flow(
    alloc: Global,
    world: &World<'_>,
    method: u16,
) -> Result<ControlFlow, ControlEnd>
    requires { IsSomeAnd (slice_get world.now.methods method) (λ m. 0 < m.code_len) }
    ensures known { IsSomeAnd (method_in world.now method) (λ m. IsMethodOf world.now m) }
    ensures formed { IsSomeAnd (method_in world.now method) (λ m. IfOk result (λ s. IsControlFlow m s)) }
    ensures flawed { IsSomeAnd (method_in world.now method) (λ m. IfErr result (λ end. TellsFlaw m end)) }
{
    let subject = Subject::of(world, method);
    subject.control_flow(alloc)
}

impl<'w> Subject<'w> {
    /// The method of a number.
    pub fn of(world: &'w World<'w>, number: u16) -> Subject<'w>
        requires { IsSomeAnd (slice_get world.now.methods number) (λ m. 0 < m.code_len) }
        ensures world { world_of result ≡ world.now }
        ensures rec { slice_get world.now.methods number ≡ Some result.rec.now }
        ensures links { IsMethod world.now.infos world.now.pools world.now.classes result.rec.now }
        ensures is { method_in world.now number ≡ Some (method result) }
    {
        instructions_are_listed();
        let rec = world.method(number);
        let code = View::of(world.code(number));
        Subject {
            world,
            number,
            rec,
            code,
        }
    }
}

impl Subject<'_> {
    /// Where control goes in the method, if it is well formed, and else its first flaw.
    pub fn control_flow(self, alloc: Global) -> Result<ControlFlow, ControlEnd>
        ensures formed { IfOk result (λ s. IsControlFlow (method self.entry) s) }
        ensures flawed { IfErr result (λ end. TellsFlaw (method self.entry) end) }
    {
        let listing = Listing::of(alloc, self.code)?;
        find_flaw(self, Places::Listed(&listing))?;
        let traversal = Traversal::of(alloc, self, &listing)?;
        Ok(ControlFlow::of(traversal, listing))
    }
}

/// Whether the handler's range has the place.
pub fn covers(handler: Handler, place: u16) -> bool
    ensures { MatchBool result (Covers handler place) (¬ (Covers handler place)) }
{
    handler.start <= place && place < handler.end
}

/// The place of a target that lies neither before the code nor past the last place that code can have.
pub fn place_of(target: i32) -> u16
    requires low { pos 0 ≤ℤ target }
    requires high { target <ℤ pos 65536 }
    ensures { pos result ≡ target }
{
    target as u16
}
