ghost use Rattle.std.specs.Prelude.{◌≡◌, ◌<◌, All, Some, length, map, flat_map};
ghost use Rattle.std.specs.List.{list_all};
ghost use Rattle.jc_base.specs.declared.record.Iface.{Iface};
ghost use Rattle.jc_resolve.specs.Fault.{link_place};
ghost use Rattle.first_fault.specs.Least.{least_of, least_from, refused};
ghost use Rattle.jc_classes.specs.KnownLines.{AreInRange, HaveSuperclasses};
ghost use Rattle.jc_classes.specs.Layout.{layouts};
ghost use Rattle.jc_classes.specs.TableConditions.{serves, interface_type_fault, implemented_by, implementations_in, class_numbers};
ghost use Rattle.jc_classes.specs.Groups.{AreGroups};

use crate::Lineage;
use crate::groups::Group;
use crate::overlay::{ClassLayout, entry_at};
use crate::signatures::{method_in, same_sig};
use jc_base::{Iface, MethodRec, Methods};
use jc_resolve::{LinkFault, NamedClass, NamedClasses, lesser, refuse};

/// Whether a class has a public method of its signature at the token that serves a method of an interface.
fn serves(methods: &Methods, public: &[Option<u16>], iface: &Iface, method: &MethodRec) -> bool
    ensures { result ≡ serves methods.now public.now iface.now method.now }
{
    let token = method.token as usize;
    if iface.tokens.len() <= token {
        return false;
    }
    let public_token = *iface.tokens.at(token) as usize;
    match method_in(methods, entry_at(public, public_token)) {
        Some(found) => same_sig(&found.sig, &method.sig),
        None => false,
    }
}

#[tactic(auto, using(crate::proofs::Passing::testing))]
fn serves_all(methods: &Methods, group: &Group<'_>, public: &[Option<u16>], iface: &Iface) -> bool
    ensures { result ≡ list_all (serves methods.now public.now iface.now) group.now }
{
    let mut i = 0;
    'methods: while i < group.len() {
        if !serves(methods, public, iface, group.at(i)) {
            return false;
        }
        i += 1;
    }
    true
}

/// What is wrong with an interface that a class implements.
#[tactic(auto, using(crate::proofs::Implementing::groups_read))]
fn interface_fault(
    methods: &Methods,
    groups: &[Group<'_>],
    c: u16,
    public: &[Option<u16>],
    iface: &Iface,
) -> Option<LinkFault>
    requires grouped { AreGroups (length groups.now) methods.now groups.now }
    requires known { iface.now.class < length groups.now }
    ensures { result ≡ interface_type_fault methods.now (record { class = c; public = public.now; iface = iface.now }) }
{
    if serves_all(methods, &groups[iface.class as usize], public, iface) {
        None
    } else {
        Some(LinkFault::InterfaceType(c, iface.class))
    }
}

/// The least fault so far, when the interfaces that a class implements were seen; an interface implements none.
#[tactic(auto, using(crate::proofs::Implementing::implementation_folds))]
fn unserved_by(
    methods: &Methods,
    groups: &[Group<'_>],
    c: u16,
    public: &[Option<u16>],
    class: &NamedClass,
    least: Option<LinkFault>,
) -> Option<LinkFault>
    requires grouped { AreGroups (length groups.now) methods.now groups.now }
    requires known { All (λ (i : Iface). i.class < length groups.now) class.now.interfaces }
    ensures { result
        ≡ least_from link_place least (interface_type_fault methods.now)
        (map
        (λ (i : Iface). record { class = c; public = public.now; iface = i })
        (implemented_by (Some class.now))) }
{
    if class.interface {
        return least;
    }
    let mut least = least;
    'interfaces: for iface in class.interfaces.as_slice() {
        least = lesser(least, interface_fault(methods, groups, c, public, iface));
    }
    least
}

/// Each method of an implemented interface has a public token, with its signature.
#[tactic(auto, using(crate::proofs::Folds::folds))]
pub(crate) fn interfaces_served(
    lineage: &Lineage,
    classes: &NamedClasses,
    methods: &Methods,
    all: &[ClassLayout],
    groups: &[Group<'_>],
) -> Result<(), LinkFault>
    requires known { HaveSuperclasses lineage.now classes.now }
    requires layouts { all.now ≡ layouts lineage.now classes.now }
    requires grouped { AreGroups (length classes.now) methods.now groups.now }
    requires interfaces { AreInRange classes.now }
    ensures { result
        ≡ refused
        (least_of link_place (interface_type_fault methods.now)
        (flat_map (implementations_in lineage.now classes.now) (class_numbers classes.now))) }
{
    let mut least = None;
    'classes: for c in 0..classes.len() {
        let public = all[c].public.as_slice();
        least = unserved_by(methods, groups, c as u16, public, classes.at(c), least);
    }
    refuse(least)
}
