ghost use Rattle.std.specs.Prelude.{◌≡◌, ◌↔◌, ◌<◌, ℕ, false, length, IsTrue, All, slice_get, Some, ◌≤◌, IfOk, IfSome, None};
ghost use Rattle.jc_base.specs.Class.{IsClass, parent_of};
ghost use Rattle.jc_base.specs.Dispatch.{IsConcrete, is_concrete, HasBody, package_of, public_of, visible_of, visible_in};
ghost use Rattle.jc_base.specs.Linked.{AreLinkedClasses, IsLinkedClass};
ghost use Rattle.jc_base.specs.ByClass.{OthersHaveBodies, AreKnown, AreFilledBelow, IsFilled, IsFilledOnce, IsClimb, known_at};

use crate::class::Classes;
use crate::list::Methods;
use crate::record::ClassRec;
use std::alloc::{AllocError, Global};

/// Whether objects can be made of a class: it is no interface, and no entry of its dispatch lists is
/// abstract.
pub fn is_concrete(classes: &Classes, methods: &Methods, class: u16) -> bool
    requires known { class < length classes.now.records }
    requires links { AreLinkedClasses 16 classes.now methods.now }
    ensures is { IsTrue result ↔ IsConcrete classes.now methods.now class }
    ensures computed { result ≡ is_concrete classes.now methods.now class }
{
    if classes.is_interface(class) || !public_have_bodies(classes, methods, class) {
        return false;
    }
    visible_have_bodies(classes, methods, class)
}

/// The record of a class with what holds of it.
pub(crate) fn record<'c>(classes: &'c Classes, methods: &Methods, class: u16) -> &'c ClassRec
    requires known { class < length classes.now.records }
    requires links { AreLinkedClasses 16 classes.now methods.now }
    ensures is { slice_get classes.now.records class ≡ Some result.now }
    ensures links { IsLinkedClass 16 classes.now methods.now class result.now }
{
    classes.at(class)
}

pub(crate) fn public_have_bodies(classes: &Classes, methods: &Methods, class: u16) -> bool
    requires known { class < length classes.now.records }
    requires links { AreLinkedClasses 16 classes.now methods.now }
    ensures { IsTrue result ↔ All (HasBody methods.now) (public_of classes.now class) }
{
    all_have_bodies(methods, record(classes, methods, class).public.as_slice())
}

/// Whether the method of each entry has a body.
pub(crate) fn all_have_bodies(methods: &Methods, list: &[u16]) -> bool
    requires { All (λ n. n < length methods.now) list.now }
    ensures { IsTrue result ↔ All (HasBody methods.now) list.now }
{
    'entries: for n in list {
        if methods.at(*n as usize).is_abstract {
            return false;
        }
    }
    true
}

/// The package of a class; there are 16 at most.
pub(crate) fn home_of(classes: &Classes, methods: &Methods, class: u16) -> usize
    requires known { class < length classes.now.records }
    requires links { AreLinkedClasses 16 classes.now methods.now }
    ensures is { result ≡ package_of classes.now class }
    ensures few { result < 16 }
{
    record(classes, methods, class).package as usize
}

/// Whether the class's own package-visible list was seen, or has bodies only.
fn is_met(classes: &Classes, methods: &Methods, seen: bool, class: u16) -> bool
    requires known { class < length classes.now.records }
    requires links { AreLinkedClasses 16 classes.now methods.now }
    ensures { IsTrue result ↔ (seen ≡ false → All (HasBody methods.now) (visible_of classes.now class)) }
{
    seen || all_have_bodies(methods, record(classes, methods, class).visible.as_slice())
}

/// Whether the method of each package-visible entry has a body: of each package, the nearest class among
/// the class and its superclasses has the list.
fn visible_have_bodies(classes: &Classes, methods: &Methods, class: u16) -> bool
    requires class { IsClass classes.now class }
    requires links { AreLinkedClasses 16 classes.now methods.now }
    ensures { IsTrue result ↔ ((home : ℕ) → All (HasBody methods.now) (visible_in classes.now home class)) }
{
    let mut seen = [false; 16];
    let mut at = class;
    'climb: loop {
        let home = home_of(classes, methods, at);
        if !is_met(classes, methods, seen[home], at) {
            return false;
        }
        seen[home] = true;
        match classes.parent(at) {
            Some(parent) => at = parent,
            None => return true,
        }
    }
}

/// What is known of the package-visible lists of a class.
#[derive(Clone, Copy)]
pub(crate) struct VisibleBodies {
    /// Whether those of other packages than its own have bodies only.
    pub(crate) others: bool,
    /// Whether all have bodies only.
    pub(crate) all: bool,
}

/// What stands in the slot of a class.
#[tactic(auto, unfolding(crate::specs::ByClass::known_at))]
pub(crate) fn known_at(slots: &Vec<Option<VisibleBodies>>, c: u16) -> Option<VisibleBodies>
    ensures { result ≡ known_at slots.now.items c }
{
    let c = c as usize;
    if c < slots.len() { slots[c] } else { None }
}

/// The classes from one upwards whose slots are empty, the lowest first.
#[tactic(auto, using(crate::proofs::Filling::climbs))]
fn climb_from(
    alloc: Global,
    classes: &Classes,
    slots: &Vec<Option<VisibleBodies>>,
    c: u16,
) -> Result<Vec<u16>, AllocError>
    requires { IsClass classes.now c }
    ensures { IfOk result (λ path. IsClimb classes.now slots.now.items c path.items) }
{
    let mut path = Vec::new(alloc);
    let mut above = Some(c);
    'climb: while let Some(a) = above {
        if known_at(slots, a).is_some() {
            return Ok(path);
        }
        path.push(a)?;
        above = classes.parent(a);
    }
    Ok(path)
}

/// Whether the lists of other packages than its own have bodies only: they are those of the superclass.
fn others_have_bodies(
    classes: &Classes,
    methods: &Methods,
    slots: &Vec<Option<VisibleBodies>>,
    c: u16,
) -> bool
    requires class { IsClass classes.now c }
    requires links { AreLinkedClasses 16 classes.now methods.now }
    requires slots { AreKnown classes.now methods.now slots.now.items }
    requires made { IfSome (parent_of classes.now c) (IsFilled slots.now.items) }
    ensures { IsTrue result ↔ OthersHaveBodies classes.now methods.now c }
{
    let Some(parent) = classes.parent(c) else {
        return true;
    };
    let same = home_of(classes, methods, parent) == home_of(classes, methods, c);
    match known_at(slots, parent) {
        Some(known) if same => known.others,
        Some(known) => known.all,
        None => true,
    }
}

/// Fills the slot of a class from that of its superclass.
fn fill(classes: &Classes, methods: &Methods, slots: &mut Vec<Option<VisibleBodies>>, c: u16)
    requires class { IsClass classes.now c }
    requires links { AreLinkedClasses 16 classes.now methods.now }
    requires slots { AreKnown classes.now methods.now slots.now.items }
    requires made { IfSome (parent_of classes.now c) (IsFilled slots.now.items) }
    ensures { IsFilledOnce classes.now methods.now slots.old.items slots.new.items c }
{
    let others = others_have_bodies(classes, methods, slots, c);
    let all = others && all_have_bodies(methods, record(classes, methods, c).visible.as_slice());
    slots[c as usize] = Some(VisibleBodies { others, all });
}

/// Fills the slot of a class, and before it those of its superclasses that are empty.
#[tactic(auto, using(crate::proofs::Filling::descends))]
fn fill_up_to(
    alloc: Global,
    classes: &Classes,
    methods: &Methods,
    slots: &mut Vec<Option<VisibleBodies>>,
    c: u16,
) -> Result<(), AllocError>
    requires class { IsClass classes.now c }
    requires links { AreLinkedClasses 16 classes.now methods.now }
    requires slots { AreKnown classes.now methods.now slots.now.items }
    ensures { IfOk result (λ _. IsFilledOnce classes.now methods.now slots.old.items slots.new.items c) }
{
    let mut path = climb_from(alloc, classes, slots, c)?;
    'descent: while let Some(next) = path.pop() {
        fill(classes, methods, slots, next);
    }
    Ok(())
}

/// What is known of the package-visible lists of each class, superclasses first, so that each class is met twice
/// at most.
#[tactic(auto, using(crate::proofs::Filling::fills))]
pub(crate) fn visible_bodies(
    alloc: Global,
    classes: &Classes,
    methods: &Methods,
) -> Result<Vec<Option<VisibleBodies>>, AllocError>
    requires few { length classes.now.records ≤ 4096 }
    requires links { AreLinkedClasses 16 classes.now methods.now }
    ensures { IfOk result (λ slots. AreFilledBelow classes.now methods.now slots.items (length classes.now.records)) }
{
    let count = classes.len();
    let mut slots = vec![in alloc; None; count]?;
    'classes: for c in 0..count {
        let class = c as u16;
        if !classes.is_interface(class) {
            fill_up_to(alloc, classes, methods, &mut slots, class)?;
        }
    }
    Ok(slots)
}
