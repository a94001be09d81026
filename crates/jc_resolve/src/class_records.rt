ghost use Rattle.std.specs.Prelude.{◌≡◌, ◌≤◌, ◌++◌, length, map, flat_map, slice_index, All, IfOk, OnOk};
ghost use Rattle.cap_bytes.specs.Table.{numbers};
ghost use Rattle.cap_class.specs.ClassFormat.{Interface};
ghost use Rattle.cap_class.specs.ClassPart.{class_seen};
ghost use Rattle.cap_class.specs.Lists.{interfaces_left};
ghost use Rattle.first_fault.specs.Least.{least_from};
ghost use Rattle.jc_resolve.specs.Conditions.{super_references, references_of_class, references_of_classes, no_class_fault, named_in};
ghost use Rattle.jc_resolve.specs.Described.{IsDescribedOnce};
ghost use Rattle.jc_resolve.specs.Fault.{link_place};
ghost use Rattle.jc_resolve.specs.Homes.{object_at, records_at, least_at, resolved_at, named_class_at, classes_at};
ghost use Rattle.jc_resolve.specs.LookedUp.{references_for_classes};
ghost use Rattle.jc_resolve.specs.Named.{IsByteTable, IsSized};
ghost use Rattle.jc_resolve.specs.NamedClasses.{cells_of_fields, dispatch_entry, dispatch_table, no_table, parent_named};
ghost use Rattle.jc_resolve.specs.NamedClasses.{implemented_interfaces, interface_with, named_proper, named_class};
ghost use Rattle.jc_resolve.specs.Numbering.{numbered_class, numbered_classes};
ghost use Rattle.jc_resolve.specs.OwnFields.{cells_of_own, own_with_token, cells_over, tokens_end};
ghost use Rattle.jc_resolve.specs.TypedFields.{fields_after};

use crate::class_index::{Home, Index};
use crate::fault::{LinkFault, RecordPlace};
use crate::field_records::{OwnField, PackageFields, fields_of_package};
use crate::naming::{DispatchTable, NamedClass};
use crate::reference_checks::class_or_fault;
use cap_class::{ClassInfo, Interfaces};
use cap_package::Packages;
use jc_base::{Iface, Items, Kind, Ty};
use std::alloc::{AllocError, Global};

/// An entry of a dispatch table.
#[tactic(auto, unfolding(crate::specs::NamedClasses::dispatch_entry))]
fn entry_of(home: Home<'_, '_, '_, '_>, offset: u16) -> Option<u16>
    ensures { result ≡ dispatch_entry home.entry.index.now home.entry.number offset }
{
    if offset == 0xFFFF {
        return None;
    }
    home.index.method_at(RecordPlace {
        package: home.number,
        offset,
    })
}

/// A dispatch table of a class.
fn table_of(
    alloc: Global,
    home: Home<'_, '_, '_, '_>,
    base: u8,
    offsets: cap_bytes::Table<'_>,
) -> Result<DispatchTable, AllocError>
    requires { length (numbers offsets) ≤ 255 }
    ensures is { IfOk result
        (λ t. t ≡ dispatch_table home.entry.index.now home.entry.number base (numbers offsets.entry)) }
    ensures sized { IfOk result IsByteTable }
{
    let mut entries = Vec::with_capacity(alloc, offsets.len() as usize)?;
    'entries: for offset in offsets {
        entries.push(entry_of(home, offset))?;
    }
    Ok(DispatchTable {
        base,
        entries: Items::of(entries),
    })
}

/// The superclass of a record; 0xFFFF is none.
fn parent_named(
    home: Home<'_, '_, '_, '_>,
    super_ref: u16,
    least: &mut Option<LinkFault>,
) -> Option<u16>
    ensures is { result ≡ parent_named home.entry.index.now home.entry.number super_ref }
    ensures least { least.new ≡ least_at home.entry least.old (super_references super_ref) }
{
    if super_ref == 0xFFFF {
        return None;
    }
    class_or_fault(home, super_ref, least)
}

/// The interfaces of a record.
#[tactic(auto, unfolding(crate::specs::NamedClasses::interface_named))]
fn implemented_interfaces(
    alloc: Global,
    home: Home<'_, '_, '_, '_>,
    interfaces: Interfaces<'_>,
    least: &mut Option<LinkFault>,
) -> Result<Vec<Iface>, AllocError>
    ensures is { IfOk result
        (λ v.
        v.items
        ≡ implemented_interfaces home.entry.index.now home.entry.number (interfaces_left interfaces.entry)) }
    ensures least { OnOk result
        (least.new
        ≡ least_at home.entry least.old
        (map (λ (i : Interface). i.class_ref) (interfaces_left interfaces.entry))) }
{
    let mut named = Vec::new(alloc);
    'interfaces: for interface in interfaces {
        if let Some(class) = class_or_fault(home, interface.class_ref, least) {
            let tokens = Items::of(Vec::from_slice(alloc, interface.tokens)?);
            named.push(Iface { class, tokens })?;
        }
    }
    Ok(named)
}

/// Appends the types of a field's cells.
fn push_cells(cells: &mut Vec<Ty>, field: OwnField) -> Result<(), AllocError>
    ensures { OnOk result (cells.new.items ≡ cells.old.items ++ cells_of_own field) }
{
    cells.push(field.ty)?;
    if let Kind::Int = field.kind {
        cells.push(Ty::IntLow)?;
    }
    Ok(())
}

/// Appends the types of the cells of the fields with a token.
#[tactic(auto, using(crate::proofs::FieldSteps::token_steps))]
fn push_token(cells: &mut Vec<Ty>, fields: &[OwnField], token: u16) -> Result<(), AllocError>
    ensures { OnOk result
        (cells.new.items
        ≡ cells.old.items ++ flat_map cells_of_own (own_with_token fields.now token)) }
{
    'fields: for field in fields {
        if field.token as u16 == token {
            push_cells(cells, *field)?;
        }
    }
    Ok(())
}

/// The token after the greatest of the fields', which are bytes.
#[tactic(auto, unfolding(crate::specs::OwnFields::tokens_end))]
fn tokens_end(fields: &[OwnField]) -> u16
    ensures is { result ≡ tokens_end fields.now }
    ensures few { result ≤ 256 }
{
    let mut end: u16 = 0;
    'fields: for field in fields {
        end = end.max(field.token as u16 + 1);
    }
    end
}

/// The types of the cells of instance fields, in the order of the fields' tokens.
#[tactic(auto, using(crate::proofs::FieldOrder::placing))]
fn cells_of_fields(alloc: Global, fields: &[OwnField]) -> Result<Vec<Ty>, AllocError>
    ensures { IfOk result (λ v. v.items ≡ cells_over fields.now 0 256) }
{
    let mut cells = Vec::with_capacity(alloc, fields.len())?;
    'tokens: for token in 0..tokens_end(fields) {
        push_token(&mut cells, fields, token)?;
    }
    Ok(cells)
}

fn no_table(alloc: Global) -> DispatchTable
    ensures { result ≡ no_table }
{
    DispatchTable {
        base: 0,
        entries: Items::of(Vec::new(alloc)),
    }
}

/// An interface of a package with the interfaces that it extends.
fn interface_with(alloc: Global, package: u16, interfaces: Vec<Iface>) -> NamedClass
    ensures is { result ≡ interface_with «package» interfaces.items }
    ensures sized { IsSized result }
{
    NamedClass {
        package,
        interface: true,
        parent: None,
        interfaces: Items::of(interfaces),
        public: no_table(alloc),
        visible: no_table(alloc),
        own: Items::of(Vec::new(alloc)),
    }
}

/// A class with each class and method that its record names; its superclass, its interfaces and the types of its fields were
/// looked up.
fn named_proper(
    alloc: Global,
    home: Home<'_, '_, '_, '_>,
    fields: &PackageFields,
    class: ClassInfo<'_>,
    parent: Option<u16>,
    interfaces: Vec<Iface>,
) -> Result<NamedClass, AllocError>
    requires fields { fields.now ≡ resolved_at home }
    requires once { IsDescribedOnce (records_at home) (class_seen class) }
    requires parent { parent ≡ parent_named home.index.now home.number (class_seen class).super_ref }
    requires interfaces { interfaces.items ≡ implemented_interfaces home.index.now home.number (class_seen class).interfaces }
    ensures is { IfOk result
        (λ c.
        c
        ≡ named_proper home.entry.index.now (object_at home.entry)
        (numbered_class home.entry.number home.entry.of_package.now (class_seen class.entry))) }
    ensures sized { IfOk result IsSized }
{
    // It has no more fields than a component can tell.
    let _descriptor = home.of_package.descriptor();
    let public = table_of(alloc, home, class.public_base(), class.publics())?;
    let visible = table_of(alloc, home, class.package_base(), class.package_table())?;
    let own = cells_of_fields(alloc, fields.own_at(class.offset()))?;
    Ok(NamedClass {
        package: home.number,
        interface: false,
        parent,
        interfaces: Items::of(interfaces),
        public,
        visible,
        own: Items::of(own),
    })
}

/// A class or an interface with all that its record names.
#[tactic(auto, unfolding(crate::specs::NamedClasses::named_class), using(crate::proofs::NamedFaults::least_class))]
fn named_class(
    alloc: Global,
    home: Home<'_, '_, '_, '_>,
    fields: &PackageFields,
    class: ClassInfo<'_>,
    least: &mut Option<LinkFault>,
) -> Result<NamedClass, AllocError>
    requires fields { fields.now ≡ resolved_at home }
    requires once { IsDescribedOnce (records_at home) (class_seen class) }
    ensures is { IfOk result (λ c. c ≡ named_class_at home.entry (class_seen class.entry)) }
    ensures sized { IfOk result IsSized }
    ensures least { OnOk result
        (least.new ≡ least_at home.entry least.old (references_of_class (class_seen class.entry))) }
{
    let parent = parent_named(home, class.super_ref(), least);
    let interfaces = implemented_interfaces(alloc, home, class.interfaces(), least)?;
    if class.flags().is_interface() {
        Ok(interface_with(alloc, home.number, interfaces))
    } else {
        named_proper(alloc, home, fields, class, parent, interfaces)
    }
}

/// Appends the classes of a package.
#[tactic(auto, using(crate::proofs::NamedFaults::least_classes))]
fn push_classes(
    named: &mut Vec<NamedClass>,
    alloc: Global,
    home: Home<'_, '_, '_, '_>,
    fields: &PackageFields,
    least: &mut Option<LinkFault>,
) -> Result<(), AllocError>
    requires sized { All IsSized named.old.items }
    requires fields { fields.now ≡ resolved_at home }
    ensures is { OnOk result
        (named.new.items
        ≡ named.old.items ++ classes_at home.entry home.entry.of_package.now.classes) }
    ensures sized { OnOk result (All IsSized named.new.items) }
    ensures least { OnOk result
        (least.new ≡ least_at home.entry least.old (references_of_classes home.entry.of_package.now)) }
{
    // Its parts stand for it, so each class is described once.
    let _parts = home.of_package.parts();
    'classes: for class in home.of_package.classes().iter() {
        named.push(named_class(alloc, home, fields, class, least)?)?;
    }
    Ok(())
}

/// The classes of packages, and the fields of each package.
pub(crate) fn class_records<'x, 'n, 'p, 'a>(
    alloc: Global,
    index: &'x Index<'n, 'p, 'a>,
    packages: &'x Packages<'p, 'a>,
    roles: [u8; 8],
    fields: &mut Vec<PackageFields>,
    least: &mut Option<LinkFault>,
) -> Result<Vec<NamedClass>, AllocError>
    requires { length packages.now ≤ 16 }
    ensures is { IfOk result (λ v. v.items ≡ map (named_class index.now (slice_index roles 0)) (numbered_classes packages.now)) }
    ensures sized { IfOk result (λ v. All IsSized v.items) }
    ensures fields { OnOk result
        (fields.new.items
        ≡ fields.old.items ++ fields_after index.now (slice_index roles 0) 0 packages.now) }
    // Each reference of the Class component and each type of a field is looked up once.
    ensures least { OnOk result
        (least.new
        ≡ least_from link_place least.old
        (no_class_fault index.now)
        (named_in references_for_classes packages.now)) }
{
    let mut named = Vec::new(alloc);
    'packages: for (k, package) in packages.iter().enumerate() {
        let home = Home {
            index,
            roles,
            number: k as u16,
            of_package: package,
        };
        let of_package = fields_of_package(alloc, home, least)?;
        push_classes(&mut named, alloc, home, &of_package, least)?;
        fields.push(of_package)?;
    }
    Ok(named)
}
