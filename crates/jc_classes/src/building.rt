ghost use Rattle.std.specs.Prelude.{◌≡◌, nat_lt, if◌then◌else◌, Some, None, ◌≤◌, IfOk};
ghost use Rattle.jc_resolve.specs.declared.fault.LinkFault.TheVariants.{InstanceLong};
ghost use Rattle.jc_resolve.specs.Fault.{link_place};
ghost use Rattle.first_fault.specs.Least.{least_of, refused};
ghost use Rattle.jc_classes.specs.KnownLines.{HaveSuperclasses};
ghost use Rattle.jc_classes.specs.Layout.{layouts};
ghost use Rattle.jc_classes.specs.TableConditions.{long_fault, class_numbers};
ghost use Rattle.jc_classes.specs.Tables.{methods_listed, record_from};

use crate::Lineage;
use crate::overlay::{ClassLayout, DispatchEntries};
use jc_base::{ClassRec, Dispatch, Iface, Ifaces, Items};
use jc_resolve::{LinkFault, NamedClass, NamedClasses, lesser, refuse};
use std::alloc::{AllocError, Global};

/// What is wrong with an instance of so many cells.
fn long_fault(c: u16, cells: u32) -> Option<LinkFault>
    ensures { result ≡ (if nat_lt 32767 cells then Some (InstanceLong c cells) else None) }
{
    if cells > 32767 {
        Some(LinkFault::InstanceLong(c, cells))
    } else {
        None
    }
}

/// No instance has more than 32,767 cells.
#[tactic(auto, using(crate::proofs::Folds::long_folds))]
pub(crate) fn instances_fit(
    lineage: &Lineage,
    classes: &NamedClasses,
    all: &[ClassLayout],
) -> Result<(), LinkFault>
    requires known { HaveSuperclasses lineage.now classes.now }
    requires layouts { all.now ≡ layouts lineage.now classes.now }
    ensures { result ≡ refused (least_of link_place (long_fault lineage.now classes.now) (class_numbers classes.now)) }
{
    let mut least = None;
    'classes: for c in 0..classes.len() {
        least = lesser(least, long_fault(c as u16, all[c].cells));
    }
    refuse(least)
}

/// The methods of a dispatch list without open entries.
#[tactic(auto, using(crate::proofs::Built::listing))]
fn methods_listed(alloc: Global, entries: &DispatchEntries) -> Result<Dispatch, AllocError>
    ensures { IfOk result (λ list. list ≡ methods_listed entries.now) }
{
    let mut list = Vec::with_capacity(alloc, entries.len())?;
    'entries: for entry in entries.as_slice() {
        if let Some(method) = *entry {
            list.push(method)?;
        }
    }
    Ok(Items::of(list))
}

fn copied<T: Copy>(alloc: Global, items: &Items<T>) -> Result<Items<T>, AllocError>
    ensures { IfOk result (λ list. list ≡ items.now) }
{
    Ok(Items::of(Vec::from_slice(alloc, items.as_slice())?))
}

#[tactic(auto, using(std::proofs::lemmas::List::take_more))]
fn copied_interfaces(alloc: Global, interfaces: &Ifaces) -> Result<Ifaces, AllocError>
    ensures { IfOk result (λ list. list ≡ interfaces.now) }
{
    let mut list = Vec::with_capacity(alloc, interfaces.len())?;
    'interfaces: for interface in interfaces.as_slice() {
        list.push(Iface {
            class: interface.class,
            tokens: copied(alloc, &interface.tokens)?,
        })?;
    }
    Ok(Items::of(list))
}

/// The record of a class with its lists.
#[tactic(auto, unfolding(crate::specs::Tables::record_from))]
pub(crate) fn record_from(
    alloc: Global,
    class: &NamedClass,
    layout: &ClassLayout,
) -> Result<ClassRec, AllocError>
    requires short { layout.now.cells ≤ 32767 }
    ensures { IfOk result (λ r. r ≡ record_from class.now layout.now) }
{
    Ok(ClassRec {
        package: class.package,
        interface: class.interface,
        parent: class.parent,
        cells: layout.cells as u16,
        own: copied(alloc, &class.own)?,
        implements: copied_interfaces(alloc, &class.interfaces)?,
        public: methods_listed(alloc, &layout.public)?,
        visible: methods_listed(alloc, &layout.visible)?,
    })
}
