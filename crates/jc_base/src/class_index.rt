ghost use Rattle.std.specs.Prelude.{◌≡◌, ◌≤◌, ◌<◌, ◌↔◌, All, IsTrue, IfOk, Some, length, slice_get};
ghost use Rattle.jc_base.specs.Dispatch.{IsConcrete};
ghost use Rattle.jc_base.specs.Linked.{AreLinkedClasses};
ghost use Rattle.jc_base.specs.ByClass.{AreFilledBelow, IsIndexOf};

use crate::class::Classes;
use crate::list::{Indexes, Methods};
use crate::method_bounds::{MethodBounds, method_bounds};
use crate::visible_bodies::{VisibleBodies, known_at, public_have_bodies, visible_bodies};
use std::alloc::{AllocError, Global};
use std::marker::Model;

/// What is found at once by class or interface: where the numbers of its methods lie, and whether objects can
/// be made of it. It is made with a world.
#[derive(Drop)]
pub struct ClassIndex {
    bounds: Vec<MethodBounds>,
    concrete: Vec<bool>,
}

impl Model for ClassIndex {
    ghost use Rattle.jc_base.specs.ByClass.{ClassLists};

    ghost Value = { ClassLists };

    ghost view = { λ a. record { bounds = a.bounds.items; concrete = a.concrete.items } };
}

/// What a world has beside its lists, so that it is found at once: by method the target index, and by class the index
/// of its methods.
#[derive(Drop)]
pub struct Lookups<'a> {
    pub targets: Indexes<'a>,
    pub by_class: ClassIndex,
}

/// Whether objects can be made of a class.
fn is_concrete(
    classes: &Classes,
    methods: &Methods,
    slots: &Vec<Option<VisibleBodies>>,
    c: u16,
) -> bool
    requires known { c < length classes.now.records }
    requires links { AreLinkedClasses 16 classes.now methods.now }
    requires slots { AreFilledBelow classes.now methods.now slots.now.items (length classes.now.records) }
    ensures { IsTrue result ↔ IsConcrete classes.now methods.now c }
{
    if classes.is_interface(c) || !public_have_bodies(classes, methods, c) {
        return false;
    }
    match known_at(slots, c) {
        Some(known) => known.all,
        None => true,
    }
}

impl ClassIndex {
    /// The index of classes with their methods.
    #[tactic(auto, using(crate::proofs::Filling::concretes))]
    pub fn of(alloc: Global, classes: &Classes, methods: &Methods) -> Result<ClassIndex, AllocError>
        requires few { length classes.now.records ≤ 4096 }
        requires few_methods { length methods.now ≤ 32768 }
        requires links { AreLinkedClasses 16 classes.now methods.now }
        requires known { All (λ m. m.class < length classes.now.records) methods.now }
        ensures { IfOk result (IsIndexOf classes.now methods.now) }
    {
        let bounds = method_bounds(alloc, methods, classes.len())?;
        let slots = visible_bodies(alloc, classes, methods)?;
        let mut concrete = Vec::with_capacity(alloc, classes.len())?;
        'classes: for c in 0..classes.len() {
            concrete.push(is_concrete(classes, methods, &slots, c as u16))?;
        }
        Ok(ClassIndex { bounds, concrete })
    }

    /// Where the numbers of the methods of a class or an interface lie.
    pub(crate) fn bounds(&self, c: u16) -> MethodBounds
        requires { c < length self.now.bounds }
        ensures { slice_get self.now.bounds c ≡ Some result }
    {
        self.bounds[c as usize]
    }

    /// Whether objects can be made of a class.
    pub(crate) fn is_concrete(&self, c: u16) -> bool
        requires { c < length self.now.concrete }
        ensures { slice_get self.now.concrete c ≡ Some result }
    {
        self.concrete[c as usize]
    }
}
