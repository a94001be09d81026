ghost use Rattle.std.specs.Prelude.{◌≤◌, length, IfOk, OnOk, List, ◌≡◌, All, ◌<◌, ℕ, slice_index};
ghost use Rattle.first_fault.specs.First.{AllEmpty};
ghost use Rattle.jc_base.specs.ByClass.{IsIndexOf};
ghost use Rattle.jc_link.specs.Arrays.{array_records, initial_cells};
ghost use Rattle.jc_link.specs.World.{TellsFirst, LinkTells, IsLinked, table_conditions, member_conditions, rest_conditions};
ghost use Rattle.jc_link.specs.World.{first_classes};
ghost use Rattle.jc_link.specs.Known.{AreNamesOf, IsTableOf, AreResolved, AreTaken};
ghost use Rattle.jc_resolve.specs.declared.naming.NamedClass.{NamedClass};
ghost use Rattle.jc_classes.specs.Ancestor.{TellsAbove};
ghost use Rattle.jc_classes.specs.Signatures.{TellsSame};
ghost use Rattle.jc_link.specs.OneEach.{LinkedNamesAreOne};
ghost use Rattle.jc_resolve.specs.Named.{infos_of};
ghost use Rattle.jc_base.specs.Linked.{AreLinkedClasses};
ghost use Rattle.jc_resolve.specs.Fault.{link_place};
ghost use Rattle.first_fault.specs.Least.{least_of, refused};
ghost use Rattle.jc_link.specs.Roles.{TellsRoles, role_fault, thrown_roles};
ghost use Rattle.jc_resolve.specs.Conditions.{conditions};

use crate::tabling::{Tabled, with_table};
use crate::{arrays, arrays_fit, handlers_fit, members, statics, statics_fit};
use cap_index::indexes;
use cap_package::Packages;
use jc_base::{
    Arrays, ClassIndex, Classes, Indexes, Infos, Lookups, Methods, Pools, Statics, World,
    concrete_decides, is_concrete,
};
use jc_resolve::{LinkEnd, LinkFault, Names, lesser, names, refuse};
use std::alloc::{AllocError, Global};

/// What stands on the classes of a world.
#[derive(Drop)]
struct Resolved {
    statics: Statics,
    pools: Pools,
}

/// Handlers, initial arrays and roles are as a world needs them.
fn rest_fits(names: &Names<'_, '_, '_>, classes: &Classes) -> Result<(), LinkEnd>
    requires names { AreNamesOf names.now.packages names.now.roles names.now }
    requires table { IsTableOf names.now.packages names.now.roles classes.now }
    ensures first { TellsFirst (rest_conditions names.now.packages names.now.roles) result }
    ensures arrays { OnOk result (length (array_records names.now.packages) ≤ 4096) }
    ensures cells { OnOk result (initial_cells (array_records names.now.packages) ≤ 32768) }
{
    names.facts();
    let packages = names.packages();
    handlers_fit(names, classes)?;
    arrays_fit(packages)?;
    roles_fit(classes, names.methods())?;
    Ok(())
}

/// The static fields of packages, and what their pool entries name.
fn resolve(alloc: Global, names: &Names<'_, '_, '_>, classes: &Classes) -> Result<Resolved, LinkEnd>
    requires names { AreNamesOf names.now.packages names.now.roles names.now }
    requires table { IsTableOf names.now.packages names.now.roles classes.now }
    ensures first { TellsFirst (member_conditions names.now.packages names.now.roles) result }
    ensures known { IfOk result (AreResolved names.now.packages names.now.roles) }
{
    names.facts();
    let packages = names.packages();
    statics_fit(packages)?;
    let statics = statics(alloc, names)?;
    let pools = members(alloc, names, classes, &statics)?;
    rest_fits(names, classes)?;
    Ok(Resolved { statics, pools })
}

/// What a world takes of packages besides.
#[derive(Drop)]
struct Taken<'a> {
    infos: Infos<'a>,
    arrays: Arrays,
    indexes: Indexes<'a>,
}

/// The Method infos, the initial arrays and the target indexes of packages.
fn take_lists<'a>(alloc: Global, names: &Names<'_, '_, 'a>) -> Result<Taken<'a>, AllocError>
    requires { AreNamesOf names.now.packages names.now.roles names.now }
    ensures { IfOk result (AreTaken names.now) }
{
    names.facts();
    let packages = names.packages();
    Ok(Taken {
        infos: infos(alloc, packages)?,
        arrays: arrays(alloc, packages)?,
        indexes: indexes(alloc, packages, names.methods())?,
    })
}

/// The world of packages by number, of which nothing is at fault.
fn made<'a>(
    alloc: Global,
    tabled: Tabled<'_, '_, 'a>,
    resolved: Resolved,
) -> Result<World<'a>, LinkEnd>
    requires names { AreNamesOf tabled.names.packages tabled.names.roles tabled.names }
    requires table { IsTableOf tabled.names.packages tabled.names.roles tabled.classes }
    requires resolved { AreResolved tabled.names.packages tabled.names.roles resolved }
    requires classes { AllEmpty (table_conditions tabled.names.packages tabled.names.roles) }
    requires members { AllEmpty (member_conditions tabled.names.packages tabled.names.roles) }
    ensures { LinkTells tabled.entry.names.packages tabled.entry.names.roles result }
{
    let taken = take_lists(alloc, &tabled.names)?;
    tabled.names.facts();
    let by_class = ClassIndex::of(alloc, &tabled.classes, tabled.names.methods())?;
    Ok(world_of(tabled, resolved, taken, by_class))
}

fn world_of<'a>(
    tabled: Tabled<'_, '_, 'a>,
    resolved: Resolved,
    taken: Taken<'a>,
    by_class: ClassIndex,
) -> World<'a>
    requires names { AreNamesOf tabled.names.packages tabled.names.roles tabled.names }
    requires table { IsTableOf tabled.names.packages tabled.names.roles tabled.classes }
    requires resolved { AreResolved tabled.names.packages tabled.names.roles resolved }
    requires classes { AllEmpty (table_conditions tabled.names.packages tabled.names.roles) }
    requires members { AllEmpty (member_conditions tabled.names.packages tabled.names.roles) }
    requires taken { AreTaken tabled.names taken }
    requires by_class { IsIndexOf tabled.classes tabled.names.methods by_class }
    ensures { IsLinked tabled.entry.names.packages tabled.entry.names.roles result }
{
    concrete_decides();
    let methods = tabled.names.into_methods();
    World::of(
        taken.infos,
        resolved.pools,
        tabled.classes,
        methods,
        resolved.statics,
        taken.arrays,
        Lookups {
            targets: taken.indexes,
            by_class,
        },
    )
}

/// The world of packages and the roles of classes, or the first condition that is broken.
pub fn link<'a>(
    alloc: Global,
    packages: &Packages<'_, 'a>,
    roles: [u8; 8],
) -> Result<World<'a>, LinkEnd>
    // The world exactly where nothing is at fault; else the first condition by number that is broken, at its
    // least thing.
    ensures tells { LinkTells packages.now roles result }
{
    let tabled = with_table(alloc, packages, roles)?;
    let resolved = resolve(alloc, &tabled.names, &tabled.classes)?;
    made(alloc, tabled, resolved)
}

/// What the words come to by which a world is told: in every world that `link` gives, each import of its packages names one
/// package, each class reference one class and each pool entry one member, which the world has for it. What is asked of the
/// classes above a class or an interface is asked of its ancestors, and two signatures are the same where they are equal.
pub fn linked_names_are_one()
    ensures names { LinkedNamesAreOne }
    ensures above { (cs : List NamedClass) → TellsAbove cs }
    ensures signatures { TellsSame }
{}

/// The infos of the packages' Method components, in order, borrowed from the packages.
pub(crate) fn infos<'a>(alloc: Global, packages: &Packages<'_, 'a>) -> Result<Infos<'a>, AllocError>
    ensures are { IfOk result (λ infos. infos ≡ infos_of packages.now) }
    ensures few { IfOk result (All (λ info. length info ≤ 65535)) }
{
    let mut infos = Infos::new(alloc);
    'packages: for package in packages.iter() {
        let methods = package.methods();
        infos.push(methods.info().bytes)?;
    }
    Ok(infos)
}

/// The class of a role.
fn role_of(classes: &Classes, role: u8) -> u16
    requires role { role < 8 }
    requires known { (k : ℕ) → k < 8 → slice_index classes.now.roles k < length classes.now.records }
    ensures is { result ≡ slice_index classes.now.roles role }
    ensures below { result < length classes.now.records }
{
    classes.role(role)
}

/// What is wrong with the class of a role.
#[tactic(auto, unfolding(crate::specs::Roles::role_fault))]
fn role_fault(classes: &Classes, methods: &Methods, role: u8) -> Option<LinkFault>
    requires role { role < 8 }
    requires known { (k : ℕ) → k < 8 → slice_index classes.now.roles k < length classes.now.records }
    requires links { AreLinkedClasses 16 classes.now methods.now }
    ensures { result ≡ role_fault classes.now methods.now role }
{
    if is_concrete(classes, methods, role_of(classes, role)) {
        None
    } else {
        Some(LinkFault::RoleAbstract(role))
    }
}

/// The classes that the machine throws are concrete.
pub fn roles_fit(classes: &Classes, methods: &Methods) -> Result<(), LinkFault>
    requires known { (k : ℕ) → k < 8 → slice_index classes.now.roles k < length classes.now.records }
    requires links { AreLinkedClasses 16 classes.now methods.now }
    ensures is { result ≡ refused (least_of link_place (role_fault classes.now methods.now) thrown_roles) }
    // Each of them is concrete; or the first role is named whose class is not.
    ensures tells { TellsRoles classes.now methods.now result }
{
    concrete_decides();
    let least = lesser(None, role_fault(classes, methods, 2));
    let least = lesser(least, role_fault(classes, methods, 3));
    let least = lesser(least, role_fault(classes, methods, 4));
    let least = lesser(least, role_fault(classes, methods, 5));
    let least = lesser(least, role_fault(classes, methods, 6));
    refuse(lesser(least, role_fault(classes, methods, 7)))
}

/// The classes and methods of packages by number.
pub(crate) fn named<'n, 'p, 'a>(
    alloc: Global,
    packages: &'n Packages<'p, 'a>,
    roles: [u8; 8],
) -> Result<Names<'n, 'p, 'a>, LinkEnd>
    ensures first { TellsFirst (conditions packages.now) result }
    ensures known { IfOk result (AreNamesOf packages.now roles) }
{
    names(alloc, packages, roles)
}

/// How many classes the first package has.
pub(crate) fn first_classes(packages: &Packages<'_, '_>) -> u16
    ensures { result ≡ first_classes packages.now }
{
    if packages.len() == 0 {
        return 0;
    }
    packages.at(0).classes().count()
}
