ghost use Rattle.std.specs.Prelude.{◌≡◌, map, IfOk, ◌≤◌, length, All};
ghost use Rattle.jc_classes.specs.Outline.{line_of, AreLines};
ghost use Rattle.jc_resolve.specs.Due.{IsDue};
ghost use Rattle.jc_classes.specs.KnownClasses.{HasKnownLine};
ghost use Rattle.jc_classes.specs.Ancestor.{TellsAbove};
ghost use Rattle.jc_classes.specs.Lines.{lines_agree, lineage_of, TellsLines, HaveLines};

use crate::checks::{
    classes_have_supers, least_cycle, least_role, named_are_interfaces, supers_are_classes,
};
use crate::lineage_type::{Line, Lineage};
use jc_resolve::{LinkEnd, NamedClass, NamedClasses, refuse};
use std::alloc::{AllocError, Global};

/// A class or an interface with its superclass alone.
fn line_of(class: &NamedClass) -> Line
    ensures { result ≡ line_of class.now }
{
    Line {
        package: class.package,
        interface: class.interface,
        parent: class.parent,
    }
}

/// All classes, by number.
#[tactic(auto, using(crate::proofs::Outlines::lined_more))]
pub(crate) fn outline(alloc: Global, classes: &NamedClasses) -> Result<Vec<Line>, AllocError>
    ensures { IfOk result (λ lines. lines.items ≡ map line_of classes.now) }
{
    let mut lines = Vec::with_capacity(alloc, classes.len())?;
    'classes: for class in classes.as_slice() {
        lines.push(line_of(class))?;
    }
    Ok(lines)
}

/// No class and no role is at fault.
#[tactic(auto, unfolding(crate::specs::Lines::lines_agree))]
fn lines_agree(
    alloc: Global,
    classes: &NamedClasses,
    first: u16,
    roles: &[u8; 8],
) -> Result<(), LinkEnd>
    requires few { length classes.now ≤ 4096 }
    requires known { All (HasKnownLine classes.now) classes.now }
    ensures { IsDue (lines_agree classes.now first roles.now) result }
{
    supers_are_classes(classes)?;
    refuse(least_cycle(alloc, classes)?)?;
    refuse(least_role(alloc, classes, first, roles[1] as u16, roles.as_slice())?)?;
    classes_have_supers(classes, roles[0] as u16)?;
    named_are_interfaces(classes)?;
    Ok(())
}

/// The role bytes as numbers of classes.
fn numbers(roles: [u8; 8]) -> [u16; 8]
    ensures same { result ≡ roles }
    ensures eight { length roles ≡ 8 }
{
    roles.map(|role| role as u16)
}

/// The lines of the classes, where nothing is at fault.
#[tactic(auto, unfolding(crate::specs::Lines::lineage_of))]
fn outlined(
    alloc: Global,
    classes: &NamedClasses,
    first: u16,
    roles: [u8; 8],
) -> Result<Lineage, LinkEnd>
    requires few { length classes.now ≤ 4096 }
    requires known { All (HasKnownLine classes.now) classes.now }
    ensures value { IsDue (lineage_of classes.now first roles) result }
    ensures chains { IfOk result AreLines }
    ensures eight { IfOk result (λ t. length t.roles ≡ 8) }
{
    lines_agree(alloc, classes, first, &roles)?;
    let lines = outline(alloc, classes)?;
    Ok(Lineage::of(lines, numbers(roles)))
}

/// The classes with their superclasses alone, in which every chain of superclasses ends with object. The
/// first package has the first so many classes.
pub fn lineage(
    alloc: Global,
    classes: &NamedClasses,
    first: u16,
    roles: [u8; 8],
) -> Result<Lineage, LinkEnd>
    requires few { length classes.now ≤ 4096 }
    requires known { All (HasKnownLine classes.now) classes.now }
    ensures value { IsDue (lineage_of classes.now first roles) result }
    // The lines exactly where nothing is at fault; else the first condition by number that is broken, at
    // its least thing.
    ensures tells { TellsLines classes.now first roles result }
    ensures lines { IfOk result (HaveLines classes.now) }
    ensures eight { IfOk result (λ t. length t.roles ≡ 8) }
    // Ancestors and superinterfaces are what superclasses and extended interfaces lead to.
    ensures above { TellsAbove classes.now }
{
    outlined(alloc, classes, first, roles)
}
