ghost use Rattle.std.specs.Prelude.{◌≡◌, ◌≤◌, ◌<◌, ◌∷◌, length, Some, None, [], if◌then◌else◌, replicate, filter_map, IfOk, IfSome};
ghost use Rattle.std.specs.Option.{option_map, option_and_then};
ghost use Rattle.jc_base.specs.Class.{list_of};
ghost use Rattle.jc_classes.specs.Outline.{chain, package_of};
ghost use Rattle.jc_resolve.specs.Named.{IsSized};
ghost use Rattle.jc_classes.specs.KnownLines.{HaveSuperclasses};
ghost use Rattle.jc_classes.specs.Layout.{layouts, class_layout_from, above_or_nothing, at_home};
ghost use Rattle.jc_classes.specs.Slots.{IsFilled, AreLayouts, IsMade, IsClimb, slot_at};

use crate::Lineage;
use crate::overlay::{ClassLayout, overlay};
use jc_resolve::{NamedClass, NamedClasses};
use std::alloc::{AllocError, Global};

/// The classes from one upwards whose lists are not yet made, the lowest first, and the class above them.
#[derive(Drop)]
struct UnmadeClasses {
    path: Vec<u16>,
    above: Option<u16>,
}

/// The layout in the slot of a class.
#[tactic(auto, unfolding(crate::specs::Slots::slot_at))]
fn slot_at(slots: &Vec<Option<ClassLayout>>, c: u16) -> Option<&ClassLayout>
    ensures { option_map (λ l. l.now) result ≡ slot_at slots.now.items c }
{
    let c = c as usize;
    if c < slots.len() {
        slots[c].as_ref()
    } else {
        None
    }
}

#[tactic(auto, using(crate::proofs::Climbs::climbed_more))]
fn climb_from(
    alloc: Global,
    lineage: &Lineage,
    slots: &Vec<Option<ClassLayout>>,
    c: u16,
) -> Result<UnmadeClasses, AllocError>
    requires known { c < length lineage.now.lines }
    ensures { IfOk result (λ climb. IsClimb lineage.now slots.now.items c climb.path.items climb.above) }
{
    let mut path = Vec::new(alloc);
    let mut above = Some(c);
    'climb: while let Some(a) = above {
        if slot_at(slots, a).is_some() {
            return Ok(UnmadeClasses { path, above });
        }
        path.push(a)?;
        above = lineage.parent(a);
    }
    Ok(UnmadeClasses { path, above: None })
}

/// Whether the superclass, where there is one, is of the package of a class.
#[tactic(auto, unfolding(crate::specs::Layout::at_home))]
pub(crate) fn at_home(lineage: &Lineage, above: Option<u16>, c: u16) -> bool
    requires known { c < length lineage.now.lines }
    requires above_known { IfSome above (λ p. p < length lineage.now.lines) }
    ensures { result ≡ at_home lineage.now above c }
{
    match above {
        Some(p) => lineage.package_of(p) == lineage.package_of(c),
        None => false,
    }
}

pub(crate) fn public_above<'a>(up: Option<&'a ClassLayout>) -> &'a [Option<u16>]
    ensures { result.now ≡ (above_or_nothing (option_map (λ l. l.now) up.entry)).public }
{
    match up {
        Some(up) => up.public.as_slice(),
        None => &[],
    }
}

pub(crate) fn visible_above<'a>(up: Option<&'a ClassLayout>, home: bool) -> &'a [Option<u16>]
    ensures { result.now ≡ (if home then (above_or_nothing (option_map (λ l. l.now) up.entry)).visible else []) }
{
    match up {
        Some(up) if home => up.visible.as_slice(),
        _ => &[],
    }
}

/// What a class makes of the lists of its superclass.
#[tactic(auto, unfolding(crate::specs::Layout::class_layout_from))]
fn layout_from(
    alloc: Global,
    class: &NamedClass,
    up: Option<&ClassLayout>,
    home: bool,
) -> Result<ClassLayout, AllocError>
    requires sized { IsSized class.now }
    requires few { (above_or_nothing (option_map (λ l. l.now) up)).cells ≤ 536993790 }
    ensures { IfOk result (λ l. l ≡ class_layout_from class.now (above_or_nothing (option_map (λ l. l.now) up.entry)) home) }
{
    Ok(ClassLayout {
        public: overlay(alloc, &class.public, public_above(up))?,
        visible: overlay(alloc, &class.visible, visible_above(up, home))?,
        cells: class.own.len() as u32 + up.map_or(0, |up| up.cells),
    })
}

/// The layout of the superclass, where there is one.
fn slot_above<'a>(
    slots: &'a Vec<Option<ClassLayout>>,
    above: Option<u16>,
) -> Option<&'a ClassLayout>
    ensures { option_map (λ l. l.now) result ≡ option_and_then (slot_at slots.now.items) above }
{
    slot_at(slots, above?)
}

/// Makes the lists of a class from those of the class above it.
#[tactic(auto, using(crate::proofs::Fills::makes))]
fn make(
    alloc: Global,
    lineage: &Lineage,
    classes: &NamedClasses,
    slots: &mut Vec<Option<ClassLayout>>,
    above: Option<u16>,
    c: u16,
) -> Result<(), AllocError>
    requires known { HaveSuperclasses lineage.now classes.now }
    requires class { c < length classes.now }
    requires above_known { IfSome above (λ p. p < length classes.now) }
    requires step { chain lineage.now c ≡ c ∷ list_of (chain lineage.now) above }
    requires slots { AreLayouts lineage.now classes.now slots.now.items }
    requires filled { IfSome above (IsFilled lineage.now classes.now slots.now.items) }
    ensures { IfOk result (λ _. IsMade lineage.now classes.now slots.old.items slots.new.items c) }
{
    let home = at_home(lineage, above, c);
    let up = slot_above(slots, above);
    let made = layout_from(alloc, classes.at(c as usize), up, home)?;
    slots[c as usize] = Some(made);
    Ok(())
}

/// Makes the lists of a class, and before it those of its superclasses that are not yet made.
#[tactic(auto, using(crate::proofs::Fills::fills))]
fn fill(
    alloc: Global,
    lineage: &Lineage,
    classes: &NamedClasses,
    slots: &mut Vec<Option<ClassLayout>>,
    c: u16,
) -> Result<(), AllocError>
    requires known { HaveSuperclasses lineage.now classes.now }
    requires class { c < length classes.now }
    requires slots { AreLayouts lineage.now classes.now slots.now.items }
    ensures { IfOk result (λ _. IsMade lineage.now classes.now slots.old.items slots.new.items c) }
{
    let climb = climb_from(alloc, lineage, slots, c)?;
    let mut path = climb.path;
    let mut above = climb.above;
    lineage.facts();
    'descent: while let Some(next) = path.pop() {
        make(alloc, lineage, classes, slots, above, next)?;
        above = Some(next);
    }
    Ok(())
}

/// An empty slot for each class.
fn empty_slots(alloc: Global, n: usize) -> Result<Vec<Option<ClassLayout>>, AllocError>
    ensures { IfOk result (λ slots. slots.items ≡ replicate n None) }
{
    let mut slots = Vec::with_capacity(alloc, n)?;
    'slots: for _ in 0..n {
        slots.push(None)?;
    }
    Ok(slots)
}

/// The layouts in slots that are all filled.
#[tactic(auto, using(crate::proofs::Fills::slots_read))]
fn layouts_of(
    alloc: Global,
    slots: Vec<Option<ClassLayout>>,
) -> Result<Vec<ClassLayout>, AllocError>
    ensures { IfOk result (λ layouts. layouts.items ≡ filter_map (λ slot. slot) slots.items) }
{
    let mut layouts = Vec::with_capacity(alloc, slots.len())?;
    'slots: for slot in slots {
        if let Some(layout) = slot {
            layouts.push(layout)?;
        }
    }
    Ok(layouts)
}

/// The dispatch lists and the number of cells of each class, by number.
#[tactic(auto, using(crate::proofs::Fills::filled_in_turn))]
pub(crate) fn layouts(
    alloc: Global,
    lineage: &Lineage,
    classes: &NamedClasses,
) -> Result<Vec<ClassLayout>, AllocError>
    requires known { HaveSuperclasses lineage.now classes.now }
    ensures { IfOk result (λ all. all.items ≡ layouts lineage.now classes.now) }
{
    let count = classes.len();
    let mut slots = empty_slots(alloc, count)?;
    'classes: for c in 0..count {
        fill(alloc, lineage, classes, &mut slots, c as u16)?;
    }
    layouts_of(alloc, slots)
}
