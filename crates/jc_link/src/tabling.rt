ghost use Rattle.std.specs.Prelude.{IfOk};
ghost use Rattle.jc_link.specs.World.{TellsFirst, TableTells, class_conditions, table_conditions};
ghost use Rattle.jc_link.specs.Known.{AreNamesOf, IsTableOf};

use crate::linking::{first_classes, named};
use cap_package::Packages;
use jc_base::Classes;
use jc_classes::{lineage, tables};
use jc_resolve::{LinkEnd, Names};
use std::alloc::Global;

/// The table of the classes of packages that are named.
pub(crate) fn table(
    alloc: Global,
    packages: &Packages<'_, '_>,
    names: &Names<'_, '_, '_>,
    roles: [u8; 8],
) -> Result<Classes, LinkEnd>
    requires { AreNamesOf packages.now roles names.now }
    ensures first { TellsFirst (class_conditions packages.now roles) result }
    ensures known { IfOk result (IsTableOf packages.now roles) }
{
    names.facts();
    let classes = names.classes();
    let methods = names.methods();
    let first = first_classes(packages);
    let lineage = lineage(alloc, classes, first, roles)?;
    lineage.facts();
    let table = tables(alloc, &lineage, classes, methods)?;
    Ok(table)
}

/// Packages by number, with the table of their classes.
#[derive(Drop)]
pub(crate) struct Tabled<'n, 'p, 'a> {
    pub(crate) names: Names<'n, 'p, 'a>,
    pub(crate) classes: Classes,
}

/// The packages by number with the table of their classes.
pub(crate) fn with_table<'n, 'p, 'a>(
    alloc: Global,
    packages: &'n Packages<'p, 'a>,
    roles: [u8; 8],
) -> Result<Tabled<'n, 'p, 'a>, LinkEnd>
    ensures first { TellsFirst (table_conditions packages.now roles) result }
    ensures names { IfOk result (λ x. AreNamesOf packages.now roles x.names) }
    ensures table { IfOk result (λ x. IsTableOf packages.now roles x.classes) }
{
    let names = named(alloc, packages, roles)?;
    let classes = table(alloc, packages, &names, roles)?;
    Ok(Tabled { names, classes })
}

/// The classes and interfaces of all packages with their dispatch lists and their cells, where class object
/// and the classes that the machine throws have roles: numbers of classes of the first package.
pub fn class_table(
    alloc: Global,
    packages: &Packages<'_, '_>,
    roles: [u8; 8],
) -> Result<Classes, LinkEnd>
    // The table exactly where nothing is at fault with classes; else the first condition by number that is
    // broken, at its least thing.
    ensures tells { TableTells packages.now roles result }
{
    let tabled = with_table(alloc, packages, roles)?;
    Ok(tabled.classes)
}
