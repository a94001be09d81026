ghost use Rattle.std.specs.Prelude.{◌≡◌, ◌≤◌, length, false, IfOk, IsTrue, All, slice_index_or, map};
ghost use Rattle.std.specs.List.{list_all};
ghost use Rattle.jc_resolve.specs.Fault.{link_place};
ghost use Rattle.first_fault.specs.Least.{least_of, least_from, refused};
ghost use Rattle.jc_classes.specs.KnownClasses.{HasKnownLine};
ghost use Rattle.jc_classes.specs.Ancestor.{is_above};
ghost use Rattle.jc_classes.specs.LineConditions.{numbered, cycle_fault, role_fault, is_class_number, super_fault, root_fault};
ghost use Rattle.jc_classes.specs.LineConditions.{named_interfaces, not_interface_fault};
ghost use Rattle.jc_classes.specs.Marks.{rests_on};
ghost use Rattle.jc_resolve.specs.Named.{is_interface};

use crate::climb::is_above;
use jc_base::{Iface, Ifaces};
use jc_resolve::{LinkFault, NamedClass, NamedClasses, lesser, refuse};
use std::alloc::{AllocError, Global};

fn is_settled(settled: &[bool], c: u16) -> bool
    ensures { result ≡ slice_index_or settled.now c false }
{
    matches!(settled.get(c as usize), Some(true))
}

fn all_settled(settled: &[bool], interfaces: &Ifaces) -> bool
    ensures { result ≡ list_all (λ i. slice_index_or settled.now i.class false) interfaces.now }
{
    let interfaces = interfaces.as_slice();
    interfaces.iter().all(|i| is_settled(settled, i.class))
}

/// Whether all that stands directly above a class or an interface is settled.
fn rests_on(settled: &[bool], class: &NamedClass) -> bool
    ensures { result ≡ rests_on settled.now class.now }
{
    if class.interface {
        return all_settled(settled, &class.interfaces);
    }
    match class.parent {
        Some(parent) => is_settled(settled, parent),
        None => true,
    }
}

/// Climbs from a class or an interface, unless it rests on what leads to no cycle.
#[tactic(auto, unfolding(crate::specs::LineConditions::cycle_fault))]
fn cycle_fault(
    alloc: Global,
    classes: &NamedClasses,
    rests: bool,
    c: u16,
    class: &NamedClass,
) -> Result<Option<LinkFault>, AllocError>
    requires known { All (HasKnownLine classes.now) classes.now }
    requires rests { IsTrue rests → is_above classes.now class.now.interface c c ≡ false }
    ensures { IfOk result (λ fault. fault ≡ cycle_fault classes.now (c, class.now)) }
{
    if rests || !is_above(alloc, classes, class.interface, c, c)? {
        return Ok(None);
    }
    Ok(Some(LinkFault::Cycle(c)))
}

/// The least class that is an ancestor of itself, or interface that is a superinterface of itself. In the
/// usual order of classes, a superclass before its subclasses, no climb is needed.
pub(crate) fn least_cycle(
    alloc: Global,
    classes: &NamedClasses,
) -> Result<Option<LinkFault>, AllocError>
    requires few { length classes.now ≤ 4096 }
    requires known { All (HasKnownLine classes.now) classes.now }
    ensures { IfOk result (λ fault. fault ≡ least_of link_place (cycle_fault classes.now) (numbered classes.now)) }
{
    let mut least = None;
    let mut settled = Vec::with_capacity(alloc, classes.len())?;
    'classes: for (c, class) in classes.as_slice().iter().enumerate() {
        let rests = rests_on(settled.as_slice(), class);
        least = lesser(least, cycle_fault(alloc, classes, rests, c as u16, class)?);
        settled.push(rests)?;
    }
    Ok(least)
}

#[tactic(auto, unfolding(crate::specs::LineConditions::role_fault))]
fn role_fault(
    alloc: Global,
    classes: &NamedClasses,
    first: u16,
    throwable: u16,
    k: u8,
    c: u16,
) -> Result<Option<LinkFault>, AllocError>
    requires { All (HasKnownLine classes.now) classes.now }
    ensures { IfOk result (λ fault. fault ≡ role_fault classes.now first throwable (k, c)) }
{
    if c >= first || !names_class(classes, c) {
        return Ok(Some(LinkFault::NoRole(k)));
    }
    if k < 2 || c == throwable || is_above(alloc, classes, false, throwable, c)? {
        return Ok(None);
    }
    Ok(Some(LinkFault::NoRole(k)))
}

/// The least role that no class has.
pub(crate) fn least_role(
    alloc: Global,
    classes: &NamedClasses,
    first: u16,
    throwable: u16,
    roles: &[u8],
) -> Result<Option<LinkFault>, AllocError>
    requires known { All (HasKnownLine classes.now) classes.now }
    requires few { length roles.now ≤ 8 }
    ensures { IfOk result (λ fault. fault ≡ least_of link_place (role_fault classes.now first throwable) (numbered roles.now)) }
{
    let mut least = None;
    'roles: for (k, c) in roles.iter().enumerate() {
        least = lesser(
            least,
            role_fault(alloc, classes, first, throwable, k as u8, *c as u16)?,
        );
    }
    Ok(least)
}

/// Whether a number is that of an interface.
#[tactic(auto, unfolding(jc_resolve::specs::Named::is_interface))]
fn is_interface(classes: &NamedClasses, c: u16) -> bool
    ensures { result ≡ is_interface classes.now c }
{
    match classes.as_slice().get(c as usize) {
        Some(class) => class.interface,
        None => false,
    }
}

/// Whether a number is that of a class, and no interface.
#[tactic(auto, unfolding(crate::specs::LineConditions::is_class_number))]
pub(crate) fn names_class(classes: &NamedClasses, c: u16) -> bool
    ensures { result ≡ is_class_number classes.now c }
{
    match classes.as_slice().get(c as usize) {
        Some(class) => !class.interface,
        None => false,
    }
}

#[tactic(auto, unfolding(crate::specs::LineConditions::super_fault))]
fn super_fault(classes: &NamedClasses, c: u16, class: &NamedClass) -> Option<LinkFault>
    ensures { result ≡ super_fault classes.now (c, class.now) }
{
    match class.parent {
        Some(parent) if is_interface(classes, parent) => Some(LinkFault::SuperIsInterface(c)),
        _ => None,
    }
}

/// No superclass is an interface.
pub(crate) fn supers_are_classes(classes: &NamedClasses) -> Result<(), LinkFault>
    requires { length classes.now ≤ 4096 }
    ensures { result ≡ refused (least_of link_place (super_fault classes.now) (numbered classes.now)) }
{
    let mut least = None;
    'classes: for (c, class) in classes.as_slice().iter().enumerate() {
        least = lesser(least, super_fault(classes, c as u16, class));
    }
    refuse(least)
}

#[tactic(auto, unfolding(crate::specs::LineConditions::root_fault))]
fn root_fault(object: u16, c: u16, class: &NamedClass) -> Option<LinkFault>
    ensures { result ≡ root_fault object (c, class.now) }
{
    if !class.interface && (c == object) == class.parent.is_some() {
        Some(LinkFault::NoSuper(c))
    } else {
        None
    }
}

/// Object has no superclass, and every other class has one.
pub(crate) fn classes_have_supers(classes: &NamedClasses, object: u16) -> Result<(), LinkFault>
    requires { length classes.now ≤ 4096 }
    ensures { result ≡ refused (least_of link_place (root_fault object) (numbered classes.now)) }
{
    let mut least = None;
    'classes: for (c, class) in classes.as_slice().iter().enumerate() {
        least = lesser(least, root_fault(object, c as u16, class));
    }
    refuse(least)
}

#[tactic(auto, unfolding(crate::specs::LineConditions::not_interface_fault))]
fn interface_fault(classes: &NamedClasses, c: u16, interface: &Iface) -> Option<LinkFault>
    ensures { result ≡ not_interface_fault classes.now (c, interface.now) }
{
    if names_class(classes, interface.class) {
        Some(LinkFault::NotInterface(c, interface.class))
    } else {
        None
    }
}

/// The least fault so far, when the interfaces that a class names were seen.
fn interface_faults(
    classes: &NamedClasses,
    c: u16,
    interfaces: &Ifaces,
    least: Option<LinkFault>,
) -> Option<LinkFault>
    ensures { result ≡ least_from link_place least (not_interface_fault classes.now) (map (λ i. (c, i)) interfaces.now) }
{
    let mut least = least;
    'interfaces: for interface in interfaces.as_slice() {
        least = lesser(least, interface_fault(classes, c, interface));
    }
    least
}

/// What classes implement and interfaces extend are interfaces.
pub(crate) fn named_are_interfaces(classes: &NamedClasses) -> Result<(), LinkFault>
    requires { length classes.now ≤ 4096 }
    ensures { result ≡ refused (least_of link_place (not_interface_fault classes.now) (named_interfaces classes.now)) }
{
    let mut least = None;
    'classes: for (c, class) in classes.as_slice().iter().enumerate() {
        least = interface_faults(classes, c as u16, &class.interfaces, least);
    }
    refuse(least)
}
