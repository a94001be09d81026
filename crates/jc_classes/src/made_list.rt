ghost use Rattle.std.specs.Prelude.{◌≡◌, ◌≤◌, ◌<◌, length, option_map, IfSome, All, IfOk, [], false};
ghost use Rattle.jc_resolve.specs.Named.{IsByteTable};
ghost use Rattle.jc_classes.specs.KnownLines.{HaveSuperclasses, AreInRange};
ghost use Rattle.jc_classes.specs.Entries.{overlaid};
ghost use Rattle.jc_classes.specs.Layout.{class_layout, layouts, public_entries, visible_entries};
ghost use Rattle.jc_classes.specs.TableConditions.{layout_above as lists_above, visible_above as visible_from, long_instances};
ghost use Rattle.jc_resolve.specs.Due.{IsDue};
ghost use Rattle.jc_classes.specs.Outline.{outline};
ghost use Rattle.jc_classes.specs.Lines.{HaveLines};
ghost use Rattle.jc_classes.specs.Signatures.{TellsSame};
ghost use Rattle.jc_classes.specs.Tables.{class_tables, classes_agree, tables_of, Links, TellsTableEnd};

use crate::Lineage;
use crate::building::{instances_fit, record_from};
use crate::groups::groups;
use crate::holes::no_holes;
use crate::interfaces::interfaces_served;
use crate::overlay::ClassLayout;
use crate::overrides::overrides_agree;
use crate::slots::{at_home, layouts, public_above, visible_above};
use jc_base::{Classes, Items, Methods};
use jc_resolve::{DispatchTable, LinkEnd, NamedClasses};
use std::alloc::{AllocError, Global};

/// A dispatch list of a class, with the inherited list and the class's own table, of which it is made.
#[derive(Clone, Copy)]
pub(crate) struct MadeList<'a> {
    pub(crate) table: &'a DispatchTable,
    pub(crate) inherited: &'a [Option<u16>],
    pub(crate) list: &'a [Option<u16>],
    ghost few: { IsByteTable table.now },
    ghost made: { list.now ≡ overlaid table.now inherited.now },
    ghost short: { length list.now ≤ 510 },
}

/// The lists of the superclass of a class, where there is one, among those of all classes.
#[tactic(auto, using(crate::proofs::Folds::above_in_all))]
fn layout_above<'a>(
    lineage: &Lineage,
    classes: &NamedClasses,
    all: &'a [ClassLayout],
    above: Option<u16>,
) -> Option<&'a ClassLayout>
    requires known { HaveSuperclasses lineage.now classes.now }
    requires layouts { all.now ≡ layouts lineage.now classes.now }
    requires above_known { IfSome above (λ p. p < length lineage.now.lines) }
    ensures { option_map (λ l. l.now) result ≡ option_map (class_layout lineage.now classes.now) above }
{
    match above {
        Some(p) => Some(&all[p as usize]),
        None => None,
    }
}

/// The public dispatch list of a class.
#[tactic(auto, using(crate::proofs::Folds::layouts_count))]
pub(crate) fn public_list<'a>(
    lineage: &Lineage,
    classes: &'a NamedClasses,
    all: &'a [ClassLayout],
    c: u16,
) -> MadeList<'a>
    requires known { HaveSuperclasses lineage.now classes.now }
    requires layouts { all.now ≡ layouts lineage.now classes.now }
    requires class { c < length classes.now }
    ensures inherited { result.inherited.now ≡ (lists_above lineage.now classes.now c).public }
    ensures list { result.list.now ≡ public_entries lineage.now classes.now c }
{
    let above = lineage.parent(c);
    let up = layout_above(lineage, classes, all, above);
    MadeList {
        table: &classes.at(c as usize).public,
        inherited: public_above(up),
        list: all[c as usize].public.as_slice(),
    }
}

/// The package-visible dispatch list of a class.
#[tactic(auto, using(crate::proofs::Folds::layouts_count))]
pub(crate) fn visible_list<'a>(
    lineage: &Lineage,
    classes: &'a NamedClasses,
    all: &'a [ClassLayout],
    c: u16,
) -> MadeList<'a>
    requires known { HaveSuperclasses lineage.now classes.now }
    requires layouts { all.now ≡ layouts lineage.now classes.now }
    requires class { c < length classes.now }
    ensures inherited { result.inherited.now ≡ visible_from lineage.now classes.now c }
    ensures list { result.list.now ≡ visible_entries lineage.now classes.now c }
{
    let above = lineage.parent(c);
    let up = layout_above(lineage, classes, all, above);
    let home = at_home(lineage, above, c);
    MadeList {
        table: &classes.at(c as usize).visible,
        inherited: visible_above(up, home),
        list: all[c as usize].visible.as_slice(),
    }
}

/// The table of classes whose lists are made.
#[tactic(auto, using(crate::proofs::Agreed::building))]
fn build(
    alloc: Global,
    lineage: &Lineage,
    classes: &NamedClasses,
    all: &[ClassLayout],
) -> Result<Classes, AllocError>
    requires outline { lineage.now ≡ outline classes.now lineage.now.roles }
    requires layouts { all.now ≡ layouts lineage.now classes.now }
    requires short { long_instances lineage.now classes.now ≡ [] }
    ensures { IfOk result (λ t. t ≡ class_tables lineage.now classes.now) }
{
    lineage.facts();
    let mut records = Vec::with_capacity(alloc, classes.len())?;
    'classes: for c in 0..classes.len() {
        records.push(record_from(alloc, classes.at(c), &all[c])?)?;
    }
    Ok(Classes::of(Items::of(records), lineage.roles()))
}

/// The table of classes of which nothing is at fault; the conditions are asked in the order of their numbers.
#[tactic(auto, using(crate::proofs::Agreed::telling), unfolding(crate::specs::Tables::tables_of, crate::specs::Tables::classes_agree))]
fn tables_or_fault(
    alloc: Global,
    lineage: &Lineage,
    classes: &NamedClasses,
    methods: &Methods,
) -> Result<Classes, LinkEnd>
    requires outline { lineage.now ≡ outline classes.now lineage.now.roles }
    requires known { HaveSuperclasses lineage.now classes.now }
    requires interfaces { AreInRange classes.now }
    requires methods { All (λ m. m.class < length classes.now) methods.now }
    ensures { IsDue (tables_of lineage.now classes.now methods.now) result }
{
    let all = layouts(alloc, lineage, classes)?;
    let groups = groups(alloc, methods, classes.len())?;
    let mut marks = vec![in alloc; false; classes.len()]?;
    let all = all.as_slice();
    no_holes(lineage, classes, methods, all, marks.as_mut_slice())?;
    overrides_agree(lineage, classes, methods, all)?;
    interfaces_served(lineage, classes, methods, all, groups.as_slice())?;
    instances_fit(lineage, classes, all)?;
    Ok(build(alloc, lineage, classes, all)?)
}

/// The dispatch lists, the cells and the interfaces of classes whose superclasses are known: their class
/// table.
pub fn tables(
    alloc: Global,
    lineage: &Lineage,
    classes: &NamedClasses,
    methods: &Methods,
) -> Result<Classes, LinkEnd>
    requires outline { lineage.now ≡ outline classes.now lineage.now.roles }
    requires known { HaveSuperclasses lineage.now classes.now }
    requires interfaces { AreInRange classes.now }
    requires methods { All (λ m. m.class < length classes.now) methods.now }
    requires lines { HaveLines classes.now lineage.now }
    ensures value { IsDue (tables_of lineage.now classes.now methods.now) result }
    // The table exactly where nothing is at fault; else the first condition by number that is broken, at
    // its least thing.
    ensures tells { TellsTableEnd lineage.now classes.now methods.now result }
    // What a world needs of its classes, where all that they name are numbers.
    ensures linked { IfOk result (λ table. Links lineage.now classes.now methods.now table) }
    // Signatures are compared exactly.
    ensures signatures { TellsSame }
{
    // Every chain of superclasses ends.
    lineage.facts();
    tables_or_fault(alloc, lineage, classes, methods)
}
