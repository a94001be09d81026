ghost use Rattle.std.specs.Prelude.{◌≡◌, ◌+◌, ◌≤◌, ◌++◌, length, map, slice_get, slice_index, sum_by, All, IfOk, Some};
ghost use Rattle.jc_base.specs.Class.{ClassTable};
ghost use Rattle.jc_base.specs.Cell.{IsDeclared, width, AreElementsOf};
ghost use Rattle.jc_base.specs.Linked.{AreSlots, IsStatic};
ghost use Rattle.cap_package.specs.Places.{place_seen};
ghost use Rattle.cap_package.specs.StaticPlaces.{static_places};
ghost use Rattle.cap_method.specs.StaticPart.{statics_seen, array_seen};
ghost use Rattle.jc_link.specs.Arrays.{array_records, array_type, array_record};
ghost use Rattle.jc_resolve.specs.WorldTypes.{type_of};
ghost use Rattle.jc_link.specs.KnownFields.{AreStaticsKnown, StandApart};
ghost use Rattle.jc_link.specs.Statics.{cells_at, site, static_cells, static_record, records_from, static_records};

use crate::image::{element_words, words_at};
use cap_method::{ArrayInit, StaticPart};
use cap_package::{Package, Packages, StaticPlace};
use jc_base::{ArrayRec, Arrays, Initial, StaticRec, Statics, Ty};
use jc_resolve::{Names, kind_of};
use std::alloc::{AllocError, Global};

/// A package among all: its number, and the handle of its first initial array.
#[derive(Clone, Copy)]
struct NumberedPackage {
    package: u16,
    first: u32,
}

/// The static field at a place, whose first cell is the slot.
fn static_record(
    alloc: Global,
    home: NumberedPackage,
    slot: u16,
    statics: &StaticPart<'_>,
    place: StaticPlace,
    ty: Ty,
) -> Result<StaticRec, AllocError>
    ensures { IfOk result (λ r. r ≡ static_record slot (site home.«package» home.first (statics_seen statics.now) (place_seen place)) ty) }
{
    let kind = kind_of(place.ty);
    Ok(StaticRec {
        package: home.package,
        offset: place.offset,
        kind,
        ty,
        slot,
        initial: words_at(alloc, statics, home.first, kind, place.offset)?,
    })
}

/// Appends the static fields of a package, whose cells begin at a slot, and gives the slot after them.
fn push_statics(
    alloc: Global,
    records: &mut Vec<StaticRec>,
    package: &Package<'_, '_>,
    home: NumberedPackage,
    slot: u32,
    names: &Names<'_, '_, '_>,
) -> Result<u32, AllocError>
    requires at { slice_get names.now.packages home.«package» ≡ Some «package».now }
    requires cells { slot + sum_by cells_at (static_places «package».now) ≤ 32768 }
    ensures is { IfOk result
        (λ _.
        records.new.items
        ≡ records.old.items ++ records_from (type_of names.now.packages (slice_index names.now.roles 0)) slot
        (map (site home.«package» home.first «package».now.statics) (static_places «package».now))) }
    ensures next { IfOk result (λ next. next ≡ slot + sum_by cells_at (static_places «package».now)) }
    ensures known { IfOk result (λ _. AreStaticsKnown «package».now) }
{
    let statics = package.statics();
    let mut types = names.static_types(home.package);
    let mut slot = slot;
    'places: for place in package.static_places() {
        // There are as many types as places.
        if let Some((ty, others)) = types.split_first() {
            records.push(static_record(alloc, home, slot as u16, &statics, place, *ty)?)?;
            slot += u32::from(kind_of(place.ty).width());
            types = others;
        }
    }
    Ok(slot)
}

/// The static fields of all packages.
fn all_statics(
    alloc: Global,
    packages: &Packages<'_, '_>,
    names: &Names<'_, '_, '_>,
) -> Result<Statics, AllocError>
    requires named { packages.now ≡ names.now.packages }
    requires count { length packages.now ≤ 16 }
    requires cells { static_cells packages.now ≤ 32768 }
    ensures is { IfOk result (λ fields. fields ≡ static_records (type_of names.now.packages (slice_index names.now.roles 0)) packages.now) }
    ensures known { IfOk result (λ _. All AreStaticsKnown packages.now) }
{
    let mut records = Vec::new(alloc);
    let mut first: u32 = 1;
    let mut slot: u32 = 0;
    'packages: for n in 0..packages.len() {
        let package = packages.at(n);
        let home = NumberedPackage {
            package: n as u16,
            first,
        };
        slot = push_statics(alloc, &mut records, package, home, slot, names)?;
        first += package.statics().array_init_count() as u32;
    }
    Ok(Statics::of(records))
}

/// The static fields of all packages, by number.
#[tactic(auto, using(crate::proofs::FieldLists::slots_of, crate::proofs::FieldLists::cells_of_records))]
pub fn statics(alloc: Global, names: &Names<'_, '_, '_>) -> Result<Statics, AllocError>
    requires { static_cells names.now.packages ≤ 32768 }
    ensures is { IfOk result
        (λ fields.
        fields
        ≡ static_records
        (type_of names.now.packages (slice_index names.now.roles 0)) names.now.packages) }
    // Their cells are 0, 1 and so on without a gap.
    ensures slots { IfOk result (AreSlots 0) }
    ensures cells { IfOk result (λ fields. sum_by (λ f. width f.kind) fields ≤ 32768) }
    // No two stand at one place of one package.
    ensures apart { IfOk result StandApart }
    // Each has its type and its words, in any class table that has the classes of their types, where there
    // are no more initial arrays than a world has.
    ensures fields { IfOk result
        (λ fields.
        length (array_records names.now.packages) ≤ 4096
        → (t : ClassTable)
        → All (λ f. IsDeclared t f.ty) fields
        → All
        (IsStatic (length names.now.packages) t (array_records names.now.packages))
        fields) }
{
    names.facts();
    let fields = all_statics(alloc, names.packages(), names)?;
    Ok(fields)
}

/// The type of an array by the number of the type of its elements.
fn array_type(kind: u8) -> Ty
    ensures { result ≡ array_type kind }
{
    match kind {
        2 => Ty::ArrBool,
        3 => Ty::ArrByte,
        4 => Ty::ArrShort,
        _ => Ty::ArrInt,
    }
}

fn array_record(alloc: Global, array: &ArrayInit<'_>) -> Result<ArrayRec, AllocError>
    ensures { IfOk result (λ a. a ≡ array_record (array_seen array.now)) }
{
    Ok(ArrayRec {
        kind: array_type(array.kind),
        initial: Initial::of(element_words(alloc, array.kind, array.values)?),
    })
}

/// Appends the initial arrays of a package.
#[tactic(auto, using(crate::proofs::ArrayLists::same_elements))]
fn push_arrays(
    alloc: Global,
    records: &mut Vec<ArrayRec>,
    package: &Package<'_, '_>,
) -> Result<(), AllocError>
    ensures elements { IfOk result (λ _. All (λ a. AreElementsOf a.kind a.initial) (map array_record «package».now.statics.arrays)) }
    ensures is { IfOk result (λ _. records.new.items ≡ records.old.items ++ map array_record «package».now.statics.arrays) }
{
    'arrays: for array in package.statics().arrays() {
        records.push(array_record(alloc, &array)?)?;
    }
    Ok(())
}

/// The arrays that exist from the start, in the order of their handles.
pub fn arrays(alloc: Global, packages: &Packages<'_, '_>) -> Result<Arrays, AllocError>
    ensures is { IfOk result (λ arrays. arrays ≡ array_records packages.now) }
    // The words of each have the type of its elements.
    ensures elements { IfOk result (λ arrays. All (λ a. AreElementsOf a.kind a.initial) arrays) }
{
    let mut records = Vec::new(alloc);
    'packages: for n in 0..packages.len() {
        push_arrays(alloc, &mut records, packages.at(n))?;
    }
    Ok(Arrays::of(records))
}
