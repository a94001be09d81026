ghost use Rattle.std.specs.Prelude.{ℕ, ◌+◌, ◌≤◌, ⊤, IfSome, ◌≡◌, ◌<◌, ◌^◌, length, MatchBool, Contains, Some, slice_get};
ghost use Rattle.card_typing.specs.Place.{IsTarget, IsEntry, CatchesAt};
ghost use Rattle.card_verify.specs.Ahead.{IsLeastFrom};
ghost use Rattle.card_verify.specs.Verifier.{method, world_of};
ghost use Rattle.jc_base.specs.Class.{IsClass};
ghost use Rattle.jc_base.specs.Order.{IsJoin};
ghost use Rattle.jc_base.specs.World.{IsWorld};
ghost use Rattle.jc_base.specs.declared.ty.Ty.TheVariants.{Class};
ghost use Rattle.card_verify.specs.Walk.{IsCaughtWith};
ghost use Rattle.jc_base.specs.Index.{IsAscending};

use crate::verify::Verifier;
use jc_base::{Classes, Handler, Steps, TargetIndex, Ty, join};
use std::sync::ledger::Ledger;

/// What tells the marked places of a method, at which its stack must be empty.
pub trait Marks {
    /// The marked places.
    ghost marks: { Self → ℕ → Type 0 };

    /// A search for one takes at most so many steps.
    ghost takes: { Self → ℕ → Type 0 };

    /// The least marked place from a place on.
    fn next_from<L: Ledger>(&self, from: u16, steps: &mut Steps<L>) -> Option<u32>
        ensures least { IsLeastFrom (marks self.now) from result }
        ensures forward { steps.old ≤ steps.new }
        ensures cost { (most : ℕ) → takes self.now most → steps.new ≤ steps.old + most };
}

/// The targets of the method itself, for which its code is searched; nothing is counted.
impl Marks for Verifier<'_> {
    ghost marks = { λ v. IsTarget (method v) };

    ghost takes = { λ v most. ⊤ };

    fn next_from<L: Ledger>(&self, from: u16, steps: &mut Steps<L>) -> Option<u32> {
        let _steps = steps;
        self.target_from(from)
    }
}

impl Verifier<'_> {
    /// The class of the object that is on the stack where handlers begin: the join of those that they catch.
    pub(crate) fn caught(&self, place: u16) -> u16
        requires world { IsWorld (world_of self.now) }
        requires entry { IsEntry (method self.now) place }
        ensures { CatchesAt (world_of self.now).classes (method self.now) place result }
    {
        let classes = self.subject.world.classes();
        let mut class = None;
        'handlers: for handler in self.subject.rec.handlers.as_slice() {
            class = caught_with(classes, class, *handler, place);
        }
        match class {
            Some(class) => class,
            None => unreachable!(),
        }
    }
}

/// The join of the class so far and the one that a handler catches, if it begins at the place.
fn caught_with(classes: &Classes, class: Option<u16>, handler: Handler, place: u16) -> Option<u16>
    requires class { IfSome class (IsClass classes.now) }
    requires handler { IsClass classes.now handler.class }
    ensures { IsCaughtWith classes.now place handler class result }
{
    if handler.entry != place {
        return class;
    }
    match class {
        Some(class) => Some(join_classes(classes, class, handler.class)),
        None => Some(handler.class),
    }
}

/// The nearest class that is above both.
#[tactic(auto, unfolding(jc_base::specs::Order::join_of))]
fn join_classes(classes: &Classes, class: u16, other: u16) -> u16
    requires class { IsClass classes.now class }
    requires other { IsClass classes.now other }
    ensures class { IsClass classes.now result }
    ensures join { IsJoin classes.now (Class class) (Class other) (Class result) }
{
    match join(classes, Ty::Class(class), Ty::Class(other)) {
        Ty::Class(class) => class,
        _ => unreachable!(),
    }
}

/// The places of an ascending index, which are found by halving; each entry that is read is a step.
#[derive(Clone, Copy)]
pub(crate) struct Listed<'i> {
    pub index: &'i TargetIndex<'i>,
    ghost ascending: { IsAscending index.now },
}

impl Marks for Listed<'_> {
    ghost marks = { λ x. Contains x.index.now };

    ghost takes = { λ x most. length x.index.now < 2 ^ most };

    fn next_from<L: Ledger>(&self, from: u16, steps: &mut Steps<L>) -> Option<u32> {
        next_listed(self.index, u32::from(from), steps)
    }
}

/// The least place of an ascending index from a place on, by a search by halving.
fn next_listed<L: Ledger>(index: &TargetIndex<'_>, place: u32, steps: &mut Steps<L>) -> Option<u32>
    requires { IsAscending index.now }
    ensures least { IsLeastFrom (Contains index.now) place result }
    ensures forward { steps.old ≤ steps.new }
    // No more entries are read than the length has binary digits.
    ensures cost { (b : ℕ) → length index.now < 2 ^ b → steps.new ≤ steps.old + b }
{
    let mut low = 0;
    let mut high = index.len();
    let mut best = None;
    'halves: while low < high {
        let middle = low + (high - low) / 2;
        let found = u32::from(entry(index, middle, steps));
        if found == place {
            return Some(found);
        }
        if found < place {
            low = middle + 1;
        } else {
            high = middle;
            best = Some(found);
        }
    }
    best
}

/// Whether an ascending index lists a place.
pub(crate) fn is_listed<L: Ledger>(
    index: &TargetIndex<'_>,
    place: u32,
    steps: &mut Steps<L>,
) -> bool
    requires { IsAscending index.now }
    ensures told { MatchBool result (Contains index.now place) (¬ (Contains index.now place)) }
    ensures forward { steps.old ≤ steps.new }
    ensures cost { (b : ℕ) → length index.now < 2 ^ b → steps.new ≤ steps.old + b }
{
    next_listed(index, place, steps) == Some(place)
}

/// An entry of an index.
pub(crate) fn entry<L: Ledger>(index: &TargetIndex<'_>, k: u32, steps: &mut Steps<L>) -> u16
    requires { k < length index.now }
    ensures is { slice_get index.now k ≡ Some result }
    ensures one { steps.new ≡ steps.old + 1 }
{
    match index.probe(k, steps) {
        Some(place) => place,
        None => unreachable!(),
    }
}
