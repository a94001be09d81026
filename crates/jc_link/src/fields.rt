ghost use Rattle.std.specs.Prelude.{◌≡◌, ◌+◌, ◌≤◌, ◌<◌, [], IfOk, OnOk, length, slice_get, slice_index, Some};
ghost use Rattle.jc_base.specs.Class.{IsClass, object, parent_of};
ghost use Rattle.jc_base.specs.Linked.{cells_above};
ghost use Rattle.jc_resolve.specs.Counts.{class_total};
ghost use Rattle.jc_resolve.specs.Numbering.{numbered_classes};
ghost use Rattle.jc_link.specs.Fields.{FieldsFit, FieldsFitIn, AllFieldsFit, cells_before, class_sites, sites_of_classes, field_sites};
ghost use Rattle.jc_link.specs.Sites.{all_entered};
ghost use Rattle.jc_link.specs.Members.{as_of, kept_holder, kept_field, field_member};

use crate::entries::proper_referred;
use crate::sites::{Sites, Spot};
use cap_bytes::ClassReference;
use cap_package::Package;
use jc_base::{Classes, Member};
use jc_resolve::{Names, OwnField};
use std::alloc::{AllocError, Global};

/// How many cells the superclass of a class has.
fn cells_above(classes: &Classes, class: u16) -> u32
    requires { class < length classes.now.records }
    ensures { result ≡ cells_above classes.now (parent_of classes.now class) }
{
    if classes.is_interface(class) {
        return 0;
    }
    match classes.parent(class) {
        Some(parent) => classes.at(parent).cells as u32,
        None => 0,
    }
}

/// The cells of the fields of lesser tokens.
#[tactic(auto, using(crate::proofs::Rooms::taken_before, crate::proofs::Rooms::before_most))]
fn cells_before(fields: &[OwnField], token: u8) -> u32
    requires { cells_before fields.now 256 ≤ 32767 }
    ensures is { result ≡ cells_before fields.now token }
    ensures most { result ≤ cells_before fields.now 256 }
{
    let mut cells: u32 = 0;
    'fields: for field in fields {
        if field.token < token {
            cells += u32::from(field.kind.width());
        }
    }
    cells
}

/// Keeps the fields that a class has of its own.
fn enter_class(
    sites: &mut Sites,
    classes: &Classes,
    class: u16,
    own: &[OwnField],
) -> Result<(), AllocError>
    requires known { class < length classes.now.records }
    requires room { FieldsFit classes.now class own.now }
    ensures { OnOk result (sites.new ≡ all_entered sites.old (class_sites classes.now class own.now)) }
{
    let above = cells_above(classes, class);
    'fields: for field in own {
        let spot = Spot {
            owner: class,
            number: field.token as u16,
        };
        let member = Member::Field {
            class,
            cell: (above + cells_before(own, field.token)) as u16,
            kind: field.kind,
            ty: field.ty,
        };
        sites.enter(spot, member)?;
    }
    Ok(())
}

/// Keeps the fields of the classes of a package, the first of which has a number.
#[tactic(auto, using(crate::proofs::Rooms::entered_both, jc_resolve::proofs::TypedFields::own_fields_known))]
fn enter_package(
    sites: &mut Sites,
    names: &Names<'_, '_, '_>,
    classes: &Classes,
    number: u16,
    package: &Package<'_, '_>,
    first: u16,
) -> Result<(), AllocError>
    requires object { object classes.now ≡ slice_index names.now.roles 0 }
    requires few { length classes.now.records ≤ 4096 }
    requires at { slice_get names.now.packages number ≡ Some «package».now }
    requires known { first + length «package».now.classes ≤ length classes.now.records }
    requires room { FieldsFitIn names.now.packages classes.now number «package».now first «package».now.classes }
    ensures { OnOk result
        (sites.new
        ≡ all_entered sites.old
        (sites_of_classes names.now.packages classes.now number «package».now first
        «package».now.classes)) }
{
    // Its parts stand for it, so each class is described once.
    let _parts = package.parts();
    let mut c = first;
    'classes: for class in package.classes().iter() {
        enter_class(sites, classes, c, names.own_fields(number, class))?;
        c += 1;
    }
    Ok(())
}

/// The instance fields of all classes by class and token.
#[tactic(auto, using(crate::proofs::Rooms::entered_both))]
pub(crate) fn field_sites(
    alloc: Global,
    names: &Names<'_, '_, '_>,
    classes: &Classes,
) -> Result<Sites, AllocError>
    requires object { object classes.now ≡ slice_index names.now.roles 0 }
    requires few { length classes.now.records ≤ 4096 }
    requires count { length classes.now.records ≡ class_total names.now.packages }
    requires room { AllFieldsFit names.now.packages classes.now }
    ensures { IfOk result (λ sites. sites ≡ all_entered [] (field_sites names.now.packages classes.now)) }
{
    names.facts();
    let mut sites = Sites::new(alloc);
    let mut first: u16 = 0;
    'packages: for (k, package) in names.packages().iter().enumerate() {
        enter_package(&mut sites, names, classes, k as u16, package, first)?;
        first += package.classes().count();
    }
    Ok(sites)
}

/// The nearest class, among a class and its superclasses, that has a field with a token.
fn holder_of(classes: &Classes, sites: &Sites, class: u16, token: u8) -> Option<u16>
    requires { IsClass classes.now class }
    ensures { result ≡ kept_holder sites.now classes.now token class }
{
    let mut at = class;
    'climb: loop {
        let spot = Spot {
            owner: at,
            number: token as u16,
        };
        if sites.holds(spot) {
            return Some(at);
        }
        match classes.parent(at) {
            Some(parent) => at = parent,
            None => return None,
        }
    }
}

/// A field of a superclass as one of the class.
fn as_of(class: u16, member: Member) -> Member
    ensures { result ≡ as_of class member }
{
    match member {
        Member::Field { cell, kind, ty, .. } => Member::Field {
            class,
            cell,
            kind,
            ty,
        },
        _ => member,
    }
}

/// The field that a class has with a token.
fn field_of(classes: &Classes, sites: &Sites, class: u16, token: u8) -> Option<Member>
    requires { IsClass classes.now class }
    ensures { result ≡ kept_field sites.now classes.now token class }
{
    let holder = holder_of(classes, sites, class, token)?;
    let spot = Spot {
        owner: holder,
        number: token as u16,
    };
    let member = sites.only(spot)?;
    Some(as_of(class, member))
}

/// The field that an InstanceFieldref names, where the fields are known by class and token.
#[tactic(auto, unfolding(crate::specs::Members::field_member), using(crate::proofs::Holders::field_kept))]
pub(crate) fn field_member(
    names: &Names<'_, '_, '_>,
    classes: &Classes,
    sites: &Sites,
    package: u16,
    reference: ClassReference,
    token: u8,
) -> Option<Member>
    requires count { length classes.now.records ≡ length (numbered_classes names.now.packages) }
    requires sites { sites.now ≡ all_entered [] (field_sites names.now.packages classes.now) }
    ensures { result ≡ field_member names.now.packages classes.now «package» reference token }
{
    let class = proper_referred(names, classes, package, reference)?;
    field_of(classes, sites, class, token)
}
