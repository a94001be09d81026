ghost use Rattle.std.specs.Prelude.{◌≡◌, None, Some, IfOk, slice_get, string_bytes};
ghost use Rattle.card_verify.specs.Answers.{AreAccepted};
ghost use Rattle.cap_text.specs.EntryWords.{entry_request};
ghost use Rattle.capcheck_core.specs.Bounding.{method_bounded, bound_fault, bound_text, cycle_of, AnswersBound};

use crate::carding::{Card, uncarded};
use crate::defending::method_entered;
use crate::typing::number_of;
use crate::verdict::Verdict;
use crate::world::LastStep;
use cap_files::Folder;
use cap_package::Packages;
use cap_text::{AtEntry, bounded, cycle, not_started};
use card_verify::{Accepted, CardRoom, accept};
use jc_base::World;
use law_sound::typed_code_never_fails;
use std::alloc::{AllocError, Global};
use vm_bound::{Bound, BoundEnd, bound};
use vm_step::StartFault;

/// The last step of `bound`: it verifies all packages as a card does, and bounds the stack of an entry of the last one.
#[derive(Clone, Copy)]
pub(crate) struct BoundStep<'a> {
    pub at: &'a AtEntry<'a>,
}

impl LastStep for BoundStep<'_> {
    ghost use Rattle.cap_text.specs.EntryWords.{entry_request};
    ghost use Rattle.capcheck_core.specs.Bounding.{BoundsWorld};
    ghost use Rattle.capcheck_core.specs.World.{of_world};

    ghost own = { λ s. of_world (BoundsWorld (entry_request s.at.now)) };

    fn take<F: Folder>(
        &self,
        alloc: Global,
        _packages: &Packages<'_, '_>,
        _roles: [u8; 8],
        world: &World<'_>,
        _folder: &mut F,
        _card: &mut Card<'_>,
    ) -> Verdict {
        let mut room = CardRoom::new();
        match accept(world, &mut room) {
            Ok(accepted) => bound_entry(alloc, &accepted, self.at),
            Err((number, fault)) => uncarded(alloc, world, number, fault),
        }
    }
}

// Bounds the stack of an entry, where all methods are accepted.
fn bound_entry(alloc: Global, accepted: &Accepted<'_>, at: &AtEntry<'_>) -> Verdict
    requires { AreAccepted accepted.now }
    ensures { AnswersBound accepted.now (entry_request at.now) result }
{
    match method_entered(accepted.world(), at.entry) {
        Some(number) => told(alloc, accepted, at, number),
        None => not_begun(alloc, accepted, at, StartFault::NoEntry),
    }
}

// Why no run of the entry begins, where all methods are accepted.
fn not_begun(
    alloc: Global,
    _accepted: &Accepted<'_>,
    _at: &AtEntry<'_>,
    fault: StartFault,
) -> Verdict
    requires accepted { AreAccepted _accepted.now }
    requires first { bound_fault _accepted.now (entry_request _at.now) ≡ Some fault }
    ensures { AnswersBound _accepted.now (entry_request _at.now) result }
{
    Verdict::malformed(not_started(alloc, fault))
}

// The bound of the method of a number.
fn told(alloc: Global, accepted: &Accepted<'_>, at: &AtEntry<'_>, number: u16) -> Verdict
    requires accepted { AreAccepted accepted.now }
    requires entered { method_bounded accepted.now (entry_request at.now) ≡ Some number }
    ensures { AnswersBound accepted.now (entry_request at.now) result }
{
    let world = accepted.world();
    typed_code_never_fails(world);
    match bound(alloc, accepted, number) {
        Ok(found) => Verdict::done(bound_line(alloc, world, found)),
        Err(BoundEnd::Fault(fault)) => not_begun(alloc, accepted, at, fault),
        Err(BoundEnd::Memory) => Verdict::Memory,
    }
}

// The line for a bound.
fn bound_line(alloc: Global, world: &World<'_>, bound: Bound) -> Result<String, AllocError>
    ensures { IfOk result (λ t. string_bytes t ≡ bound_text world.now bound) }
{
    match bound {
        Bound::Words { words, frames } => bounded(alloc, words, frames),
        Bound::Cycle(method) => cycle_of(alloc, world, method),
    }
}

// The line for a method that comes again.
fn cycle_of(alloc: Global, world: &World<'_>, method: u16) -> Result<String, AllocError>
    ensures { IfOk result (λ t. string_bytes t ≡ cycle_of (slice_get world.now.methods method)) }
{
    if method >= world.method_count() {
        return Ok(String::new(alloc));
    }
    let named = number_of(world, method);
    cycle(alloc, named.class_no, named.method_no)
}
