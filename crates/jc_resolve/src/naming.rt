ghost use Rattle.std.specs.Prelude.{◌≡◌, ◌≤◌, All, IfOk, length, slice_index};
ghost use Rattle.jc_resolve.specs.Named.{AreNamed, IsAgreed, IsSized, infos_of};
ghost use Rattle.jc_resolve.specs.NamedMethods.{HasFewHandlers};
ghost use Rattle.jc_resolve.specs.OwnPlaces.{HaveOwnPlaces};
ghost use Rattle.jc_resolve.specs.Due.{IsDue};
ghost use Rattle.jc_resolve.specs.Names.{HaveRecords, IsIndexed, TellsNames, TellsReferences, indexable, names_of};

use crate::class_index::{Index, index_packages};
use crate::class_records::class_records;
use crate::counts::{classes_few, methods_few, packages_few};
use crate::fault::LinkEnd;
use crate::field_records::PackageFields;
use crate::imports::check_imports;
use crate::method_records::methods_after;
use crate::names_type::Names;
use crate::reference_checks::besides_named;
use cap_package::Packages;
use first_fault::refuse;
use jc_base::{Ifaces, Items, MethodRec, Tys};
use std::alloc::Global;

/// A dispatch table of a class's own (JCVM 2.2, section 6.8.2).
#[derive(Drop)]
pub struct DispatchTable {
    /// The token of the first entry.
    pub base: u8,
    /// From that token on the numbers of methods; `None` keeps the entry of the superclass.
    pub entries: Items<Option<u16>>,
}

/// A class or an interface with each class and method that its records name by number.
#[derive(Drop)]
pub struct NamedClass {
    pub package: u16,
    pub interface: bool,
    /// The superclass; an interface has none.
    pub parent: Option<u16>,
    /// The interfaces that a class implements, with the public tokens that serve them, or those that an
    /// interface extends, without tokens.
    pub interfaces: Ifaces,
    pub public: DispatchTable,
    pub visible: DispatchTable,
    /// One type for each cell of its own instance fields, in the order of their tokens.
    pub own: Tys,
}

/// The classes and interfaces of all packages, by number.
pub type NamedClasses = Items<NamedClass>;

/// The packages with their classes and methods numbered, where they can be: there are not too many, nor too many classes or
/// methods, and each import is met.
#[tactic(auto, unfolding(crate::specs::Names::indexable))]
fn indexed<'n, 'p, 'a>(
    alloc: Global,
    packages: &'n Packages<'p, 'a>,
) -> Result<Index<'n, 'p, 'a>, LinkEnd>
    ensures { IsIndexed packages.now result }
{
    packages_few(packages)?;
    classes_few(packages)?;
    methods_few(packages)?;
    check_imports(packages)?;
    Ok(index_packages(alloc, packages)?)
}

/// The records of the methods, the classes and the fields of packages.
#[derive(Drop)]
struct Records {
    methods: Vec<MethodRec>,
    classes: Vec<NamedClass>,
    fields: Vec<PackageFields>,
}

/// The records of packages, where each class reference leads to a class. A reference is looked up where the record of a
/// method, a field or a class is made from it, and else alone; the least fault of all answers.
#[tactic(auto, using(crate::proofs::ReferenceOrder::all_looked))]
fn make_records<'x, 'n, 'p, 'a>(
    alloc: Global,
    index: &'x Index<'n, 'p, 'a>,
    packages: &'x Packages<'p, 'a>,
    roles: [u8; 8],
) -> Result<Records, LinkEnd>
    requires few { length packages.now ≤ 16 }
    requires index { index.now ≡ packages.now }
    ensures value { TellsReferences packages.now result }
    ensures have { IfOk result (HaveRecords packages.now roles) }
    ensures sized { IfOk result (λ x. All IsSized x.classes.items) }
    ensures few { IfOk result (λ _. All HasFewHandlers packages.now) }
{
    let mut least = None;
    let methods = methods_after(alloc, index, packages, roles, &mut least)?;
    let mut fields = Vec::new(alloc);
    let classes = class_records(alloc, index, packages, roles, &mut fields, &mut least)?;
    refuse(besides_named(index, packages, least))?;
    Ok(Records {
        methods,
        classes,
        fields,
    })
}

/// The names of packages, or the fault that is named.
#[tactic(auto, unfolding(crate::specs::Names::names_of, crate::specs::Names::checked))]
fn names_or_fault<'n, 'p, 'a>(
    alloc: Global,
    packages: &'n Packages<'p, 'a>,
    roles: [u8; 8],
) -> Result<Names<'n, 'p, 'a>, LinkEnd>
    ensures value { IsDue (names_of packages.now roles) result }
    ensures sized { IfOk result (λ n. All IsSized n.classes) }
    ensures agreed { IfOk result (λ _. All IsAgreed packages.now) }
    ensures few { IfOk result (λ _. All HasFewHandlers packages.now) }
{
    let index = indexed(alloc, packages)?;
    let made = make_records(alloc, &index, &*packages, roles)?;
    Ok(Names {
        index,
        roles,
        fields: Items::of(made.fields),
        classes: Items::of(made.classes),
        methods: Items::of(made.methods),
    })
}

/// The classes and methods of packages by number, or the first condition that is broken.
pub fn names<'n, 'p, 'a>(
    alloc: Global,
    packages: &'n Packages<'p, 'a>,
    roles: [u8; 8],
) -> Result<Names<'n, 'p, 'a>, LinkEnd>
    // The names of the packages, or the fault that is named; memory may want at any time.
    ensures value { IsDue (names_of packages.now roles) result }
    // Names exactly where nothing is at fault; else the first condition by number that is broken, at its
    // least thing.
    ensures tells { TellsNames packages.now result }
    // Everything that they name is a class or a method of theirs, and is as large as its component can tell.
    ensures named { IfOk result (λ n. AreNamed (infos_of packages.now) (slice_index roles 0) n.classes n.methods) }
    // No two classes, and no two methods of a package, have one place or the same numbers.
    ensures own { IfOk result (λ n. HaveOwnPlaces packages.now n.methods) }
{
    names_or_fault(alloc, packages, roles)
}
