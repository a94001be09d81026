ghost use Rattle.std.specs.Prelude.{◌≡◌, ◌≤◌, ◌+◌, ◌/◌, ◌++◌, ◌∷◌, [], All, OnOk, IfOk, IfSome, length, slice_get};
ghost use Rattle.std.specs.List.{position_or_len};
ghost use Rattle.std.specs.Ordering.{int_eq};
ghost use Rattle.jc_decode.specs.Listing.{targets};
ghost use Rattle.xf_homes.specs.PlannedMethod.{source};
ghost use Rattle.xf_emission.specs.Jump.{each_once, lead, leads, stub, stubs_of, AreLed, IsNearBy};
ghost use Rattle.xf_code.specs.Ways.{way_labels};
ghost use Rattle.xf_homes.specs.Plan.{first_reached};
ghost use Rattle.xf_code.specs.NextReached.{AreNextReached};

use crate::emitter::{Emitted, Emitter, Output, put};
use crate::jump::{Fork, goto, stub_label, target_place};
use indexmap::IndexSet;
use jc_control::Targets;
use jc_decode::{Item, Placed};
use std::alloc::{AllocError, Global};
use xf_homes::Plan;

/// The stubs so far, and what is copied on the way that is looked at.
#[derive(Drop)]
pub struct Stubs {
    pub items: Vec<Item>,
    pub way: Output,
}

fn label_at(labels: &[u16], n: usize) -> Option<u16>
    ensures { result ≡ slice_get labels.now n }
{
    labels.get(n).copied()
}

/// The label of the way that a target goes.
fn label_of(ways: &IndexSet<i32>, labels: &[u16], target: i32) -> Option<u16>
    requires { length labels.now ≡ length ways.now.keys }
    ensures { result ≡ slice_get labels.now (position_or_len (int_eq target) ways.now.keys) }
{
    match ways.get_index_of(&target) {
        Some(n) => label_at(labels, n),
        None => None,
    }
}

/// Appends a label, if there is one.
fn push_label(all: &mut Vec<u16>, label: Option<u16>) -> Emitted
    ensures { OnOk result (IfSome label (λ l. all.new.items ≡ all.old.items ++ l ∷ [])) }
{
    match label {
        Some(label) => Ok(all.push(label)?),
        None => Ok(()),
    }
}

impl Emitter<'_> {
    /// The ways that a branch is taken: its targets, each once.
    fn ways(&self, placed: Placed) -> Result<IndexSet<i32>, AllocError>
        requires { AreLed self.now.plan.walk.code.bytes.now placed }
        ensures { IfOk result (λ ways. ways.keys ≡ each_once (targets self.now.plan.walk.code.bytes.now placed)) }
    {
        let mut ways = IndexSet::new(self.alloc);
        'targets: for target in Targets::of(self.plan.walk.code, placed) {
            ways.insert(target)?;
        }
        Ok(ways)
    }

    /// The label to which the branch is taken on its n-th way: the target's own, or that of a stub, which is appended.
    #[tactic(auto, unfolding(xf_emission::specs::Jump::lead, xf_emission::specs::Jump::stub))]
    fn put_way(
        &self,
        fork: Fork,
        n: u16,
        target: &i32,
        stubs: &mut Stubs,
    ) -> Result<u16, AllocError>
        requires few { fork.placed.place / 2 + n ≤ 32767 }
        requires near { IsNearBy target.now }
        ensures label { IfOk result (λ l. l ≡ lead (source self.now.plan) fork.placed.place fork.operation fork.operands n target.now) }
        ensures stubs { OnOk result
            (stubs.new.items.items
            ≡ stubs.old.items.items ++ stub (source self.now.plan) fork.placed.place fork.operation fork.operands n target.now) }
    {
        let to = target_place(*target);
        stubs.way.items.clear();
        self.branch_copies(fork, to, &mut stubs.way)?;
        if stubs.way.items.is_empty() {
            return Ok(to);
        }
        let label = stub_label(fork.placed.place, n);
        put(&mut stubs.items, Item::Label(label))?;
        stubs.items.append(&mut stubs.way.items)?;
        put(&mut stubs.items, goto(to))?;
        Ok(label)
    }

    /// The labels of all ways, in their order, whose stubs are appended.
    fn put_ways(&self, fork: Fork, ways: &[i32], stubs: &mut Stubs) -> Result<Vec<u16>, AllocError>
        requires few { fork.placed.place / 2 + length ways.now ≤ 32768 }
        requires near { All IsNearBy ways.now }
        ensures labels { IfOk result
            (λ ls. ls.items ≡ way_labels (source self.now.plan) fork.placed.place fork.operation fork.operands 0 ways.now) }
        ensures stubs { OnOk result
            (stubs.new.items.items
            ≡ stubs.old.items.items ++ stubs_of (source self.now.plan) fork.placed.place fork.operation fork.operands 0 ways.now) }
    {
        let mut labels = Vec::new(self.alloc);
        'ways: for (n, target) in ways.iter().enumerate() {
            let label = self.put_way(fork, n as u16, target, stubs)?;
            labels.push(label)?;
        }
        Ok(labels)
    }

    /// The labels of all targets, by those of the ways.
    fn labels_by(
        &self,
        fork: Fork,
        ways: &IndexSet<i32>,
        labels: &[u16],
    ) -> Result<Vec<u16>, AllocError>
        requires led { AreLed self.now.plan.walk.code.bytes.now fork.placed }
        requires ways { ways.now.keys ≡ each_once (targets self.now.plan.walk.code.bytes.now fork.placed) }
        requires labels { labels.now ≡ way_labels (source self.now.plan) fork.placed.place fork.operation fork.operands 0 ways.now.keys }
        ensures { IfOk result
            (λ ls. let all = targets self.now.plan.walk.code.bytes.now fork.placed in
            ls.items ≡ leads (source self.now.plan) fork.placed.place fork.operation fork.operands all all) }
    {
        let mut all = Vec::new(self.alloc);
        'targets: for target in Targets::of(self.plan.walk.code, fork.placed) {
            push_label(&mut all, label_of(ways, labels, target))?;
        }
        Ok(all)
    }

    /// The labels of all targets of the branch, in their order; the stubs of its ways are appended.
    pub fn leads(&self, fork: Fork, stubs: &mut Stubs) -> Result<Vec<u16>, AllocError>
        requires { AreLed self.now.plan.walk.code.bytes.now fork.placed }
        ensures labels { IfOk result
            (λ ls. let all = targets self.now.plan.walk.code.bytes.now fork.placed in
            ls.items ≡ leads (source self.now.plan) fork.placed.place fork.operation fork.operands all all) }
        ensures stubs { OnOk result
            (stubs.new.items.items
            ≡ stubs.old.items.items ++ stubs_of (source self.now.plan) fork.placed.place fork.operation fork.operands 0
            (each_once (targets self.now.plan.walk.code.bytes.now fork.placed))) }
    {
        let ways = self.ways(fork.placed)?;
        let labels = self.put_ways(fork, ways.as_slice(), stubs)?;
        self.labels_by(fork, &ways, labels.as_slice())
    }
}

/// By place of the code, the first place from there on that control reaches, or the end of the code.
pub fn next_reached(alloc: Global, plan: &Plan<'_>) -> Result<Vec<u16>, AllocError>
    requires { length plan.now.walk.code.bytes.now ≤ 65535 }
    ensures { IfOk result (λ next. AreNextReached (source plan.now) next.items) }
{
    let end = plan.walk.code.bytes.len() as u16;
    let mut next = vec![in alloc; end; end as usize]?;
    let mut after = end;
    let mut place = end;
    'places: while place > 0 {
        place -= 1;
        if plan.walk.typing.reached(place) {
            after = place;
        }
        next[place as usize] = after;
    }
    Ok(next)
}

impl Emitter<'_> {
    /// The first place from a place on that control reaches, or the end of the code.
    pub fn first_reached(&self, place: u16) -> u16
        ensures { result ≡ first_reached (source self.now.plan) place }
    {
        match self.next.get(place as usize) {
            Some(reached) => *reached,
            None => place,
        }
    }
}
