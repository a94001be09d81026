ghost use Rattle.std.specs.Prelude.{◌≡◌, ◌<◌, [], IfSome, length};
ghost use Rattle.jc_base.specs.Class.{IsClass};
ghost use Rattle.jc_base.specs.Dispatch.{package_of};
ghost use Rattle.jc_resolve.specs.Numbering.{numbered_classes};
ghost use Rattle.jc_link.specs.Sites.{all_entered};
ghost use Rattle.jc_link.specs.Entries.{field_place, method_place};
ghost use Rattle.jc_link.specs.Members.{class_member, proper_referred, virtual_member, may_name, super_of, super_member, static_sites, static_at, static_member, call_member};

use crate::sites::{Sites, Spot};
use cap_bytes::ClassReference;
use cap_pool::StaticReference;
use jc_base::{Classes, Member, Statics};
use jc_resolve::{Names, RecordPlace};

/// The class or interface that a Classref names.
#[tactic(auto, unfolding(crate::specs::Members::class_member))]
pub(crate) fn class_member(
    names: &Names<'_, '_, '_>,
    package: u16,
    reference: ClassReference,
) -> Option<Member>
    ensures { result ≡ class_member names.now.packages «package» reference }
{
    let class = names.class_referred(package, reference)?;
    Some(Member::ClassOf { class })
}

/// The class to which a reference leads, if it is no interface.
#[tactic(auto, unfolding(crate::specs::Members::proper_referred))]
#[inline(always)]
pub(crate) fn proper_referred(
    names: &Names<'_, '_, '_>,
    classes: &Classes,
    package: u16,
    reference: ClassReference,
) -> Option<u16>
    requires { length classes.now.records ≡ length (numbered_classes names.now.packages) }
    ensures is { result ≡ proper_referred names.now.packages classes.now «package» reference }
    ensures class { IfSome result (IsClass classes.now) }
{
    let class = names.class_referred(package, reference)?;
    if classes.is_interface(class) {
        None
    } else {
        Some(class)
    }
}

/// The token of a class that a VirtualMethodref names.
#[tactic(auto, unfolding(crate::specs::Members::virtual_member, crate::specs::Members::virtual_by))]
pub(crate) fn virtual_member(
    names: &Names<'_, '_, '_>,
    classes: &Classes,
    package: u16,
    reference: ClassReference,
    token: u8,
) -> Option<Member>
    requires { length classes.now.records ≡ length (numbered_classes names.now.packages) }
    ensures { result ≡ virtual_member names.now.packages classes.now «package» reference token }
{
    let class = proper_referred(names, classes, package, reference)?;
    let _method = classes.entry_at(class, token)?;
    Some(Member::Virtual { class, token })
}

/// The package of a class or an interface.
fn package_of(classes: &Classes, class: u16) -> u16
    requires { class < length classes.now.records }
    ensures { result ≡ package_of classes.now class }
{
    classes.at(class).package
}

/// Whether a class may name a token of its superclass: a package-visible one only within the package.
fn may_name(classes: &Classes, class: u16, token: u8, parent: u16) -> bool
    requires class { class < length classes.now.records }
    requires parent { parent < length classes.now.records }
    ensures { result ≡ may_name classes.now class token parent }
{
    token < 128 || package_of(classes, parent) == package_of(classes, class)
}

/// The method that a class's superclass has for a token.
#[tactic(auto, unfolding(crate::specs::Members::super_of, crate::specs::Members::super_by))]
fn super_of(classes: &Classes, class: u16, token: u8) -> Option<Member>
    requires { IsClass classes.now class }
    ensures { result ≡ super_of classes.now token class }
{
    let parent = classes.parent(class)?;
    if !may_name(classes, class, token, parent) {
        return None;
    }
    let method = classes.entry_at(parent, token)?;
    Some(Member::Super { class, method })
}

/// The method of a superclass that a SuperMethodref names.
#[tactic(auto, unfolding(crate::specs::Members::super_member))]
pub(crate) fn super_member(
    names: &Names<'_, '_, '_>,
    classes: &Classes,
    package: u16,
    reference: ClassReference,
    token: u8,
) -> Option<Member>
    requires { length classes.now.records ≡ length (numbered_classes names.now.packages) }
    ensures { result ≡ super_member names.now.packages classes.now «package» reference token }
{
    let class = proper_referred(names, classes, package, reference)?;
    super_of(classes, class, token)
}

/// Where the static field stands to which a reference leads.
#[tactic(auto, unfolding(crate::specs::Entries::field_place))]
fn field_place(
    names: &Names<'_, '_, '_>,
    package: u16,
    reference: StaticReference,
) -> Option<RecordPlace>
    ensures { result ≡ field_place names.now.packages «package» reference }
{
    match reference {
        StaticReference::Internal(offset) => Some(RecordPlace { package, offset }),
        StaticReference::External {
            package: import,
            class,
            token,
        } => {
            let home = names.import_met(package, import)?;
            let offset = names.exported_field(home, class, token)?;
            Some(RecordPlace {
                package: home,
                offset,
            })
        }
    }
}

/// Where the method stands to which a reference leads.
#[tactic(auto, unfolding(crate::specs::Entries::method_place))]
fn method_place(
    names: &Names<'_, '_, '_>,
    package: u16,
    reference: StaticReference,
) -> Option<RecordPlace>
    ensures { result ≡ method_place names.now.packages «package» reference }
{
    match reference {
        StaticReference::Internal(offset) => Some(RecordPlace { package, offset }),
        StaticReference::External {
            package: import,
            class,
            token,
        } => {
            let home = names.import_met(package, import)?;
            let offset = names.exported_method(home, class, token)?;
            Some(RecordPlace {
                package: home,
                offset,
            })
        }
    }
}

/// The static field at a place.
#[tactic(auto, unfolding(crate::specs::Members::static_at), using(crate::proofs::SiteLaws::only_kept))]
fn static_at(statics: &Statics, sites: &Sites, place: RecordPlace) -> Option<Member>
    requires { sites.now ≡ all_entered [] (static_sites statics.now) }
    ensures { result ≡ static_at statics.now place }
{
    sites.only(Spot {
        owner: place.package,
        number: place.offset,
    })
}

/// The static field that a StaticFieldref names, where the static fields are known by their places.
#[tactic(auto, unfolding(crate::specs::Members::static_member))]
pub(crate) fn static_member(
    names: &Names<'_, '_, '_>,
    statics: &Statics,
    sites: &Sites,
    package: u16,
    reference: StaticReference,
) -> Option<Member>
    requires { sites.now ≡ all_entered [] (static_sites statics.now) }
    ensures { result ≡ static_member names.now.packages statics.now «package» reference }
{
    let place = field_place(names, package, reference)?;
    static_at(statics, sites, place)
}

/// The method that a StaticMethodref names.
#[tactic(auto, unfolding(crate::specs::Members::call_member))]
pub(crate) fn call_member(
    names: &Names<'_, '_, '_>,
    package: u16,
    reference: StaticReference,
) -> Option<Member>
    ensures { result ≡ call_member names.now.packages «package» reference }
{
    let place = method_place(names, package, reference)?;
    let method = names.method_at(place.package, place.offset)?;
    Some(Member::StaticCall { method })
}
