ghost use Rattle.std.specs.Prelude.{◌≡◌, ◌∷◌, [], ◌++◌, IfOk, OnOk, flat_map};
ghost use Rattle.cap_desc.specs.TypeLists.{types_left};
ghost use Rattle.jc_resolve.specs.Conditions.{reference_of_type, references_of_types_at};
ghost use Rattle.jc_resolve.specs.Homes.{object_at, description_at, least_at, type_class_at, type_at};
ghost use Rattle.jc_resolve.specs.WorldTypes.{cells_with, kind_of, signature_in, declared_signature};

use crate::class_index::Home;
use crate::fault::LinkFault;
use crate::reference_checks::class_or_fault;
use cap_desc::{TypeItem, Types};
use jc_base::{Items, Kind, Sig, Ty};
use std::alloc::{AllocError, Global};

/// The class as which a type knows what a reference names: object where that is an interface, or no class. One that names
/// no class is counted in the least fault so far.
fn type_class(home: Home<'_, '_, '_, '_>, reference: u16, least: &mut Option<LinkFault>) -> u16
    ensures is { result ≡ type_class_at home.entry reference }
    ensures least { least.new ≡ least_at home.entry least.old (reference ∷ []) }
{
    match class_or_fault(home, reference, least) {
        Some(class) if !home.index.is_interface(class) => class,
        _ => home.roles[0] as u16,
    }
}

/// The type of a value; void has none. A reference in it that names no class is counted in the least fault so far.
#[tactic(auto, unfolding(crate::specs::WorldTypes::type_of))]
pub(crate) fn type_of(
    home: Home<'_, '_, '_, '_>,
    item: TypeItem,
    least: &mut Option<LinkFault>,
) -> Ty
    ensures is { result ≡ type_at home.entry item }
    ensures least { least.new ≡ least_at home.entry least.old (reference_of_type item) }
{
    match item.nibble {
        TypeItem::INT => Ty::IntHigh,
        TypeItem::REFERENCE => Ty::Class(type_class(home, item.class_ref, least)),
        TypeItem::BOOLEAN_ARRAY => Ty::ArrBool,
        TypeItem::BYTE_ARRAY => Ty::ArrByte,
        TypeItem::SHORT_ARRAY => Ty::ArrShort,
        TypeItem::INT_ARRAY => Ty::ArrInt,
        TypeItem::REFERENCE_ARRAY => Ty::ArrRef(type_class(home, item.class_ref, least)),
        _ => Ty::Short,
    }
}

/// How a field keeps a value of a type.
#[tactic(auto, unfolding(crate::specs::WorldTypes::kind_of))]
pub fn kind_of(item: TypeItem) -> Kind
    ensures { result ≡ kind_of item }
{
    match item.nibble {
        TypeItem::BOOLEAN | TypeItem::BYTE => Kind::Byte,
        TypeItem::SHORT => Kind::Short,
        TypeItem::INT => Kind::Int,
        _ => Kind::Ref,
    }
}

/// Appends the types of the cells that a value of a type takes.
#[inline(always)]
fn push_cells(cells: &mut Vec<Ty>, item: TypeItem, ty: Ty) -> Result<(), AllocError>
    ensures { OnOk result (cells.new.items ≡ cells.old.items ++ cells_with item ty) }
{
    if item.nibble == TypeItem::INT {
        cells.push(Ty::IntHigh)?;
        cells.push(Ty::IntLow)?;
    } else {
        cells.push(ty)?;
    }
    Ok(())
}

/// The signature that types tell: the last is the result, and those before it the arguments.
#[tactic(auto, using(crate::proofs::NamedFaults::least_types))]
fn signature_in(
    alloc: Global,
    home: Home<'_, '_, '_, '_>,
    types: Types<'_>,
    least: &mut Option<LinkFault>,
) -> Result<Sig, AllocError>
    ensures is { IfOk result
        (λ s.
        s
        ≡ signature_in home.entry.index.now (object_at home.entry) home.entry.number
        (types_left types.entry)) }
    ensures least { OnOk result
        (least.new
        ≡ least_at home.entry least.old (flat_map reference_of_type (types_left types.entry))) }
{
    let mut args = Vec::new(alloc);
    let mut rest = types;
    let mut last = match rest.next() {
        Some(first) => first,
        None => {
            return Ok(Sig {
                args: Items::of(args),
                result: None,
            });
        }
    };
    'types: while let Some(next) = rest.next() {
        let ty = type_of(home, last, least);
        push_cells(&mut args, last, ty)?;
        last = next;
    }
    let ty = type_of(home, last, least);
    let result = if last.nibble == TypeItem::VOID {
        None
    } else {
        Some(ty)
    };
    Ok(Sig {
        args: Items::of(args),
        result,
    })
}

/// The signature of the method whose type descriptor stands at an offset.
#[tactic(auto, unfolding(crate::specs::WorldTypes::declared_signature))]
pub(crate) fn signature_of(
    alloc: Global,
    home: Home<'_, '_, '_, '_>,
    offset: u16,
    least: &mut Option<LinkFault>,
) -> Result<Sig, AllocError>
    ensures is { IfOk result
        (λ s.
        s
        ≡ declared_signature home.entry.index.now (object_at home.entry) home.entry.number
        (description_at home.entry) offset) }
    ensures least { OnOk result
        (least.new
        ≡ least_at home.entry least.old (references_of_types_at (description_at home.entry) offset)) }
{
    let descriptor = home.of_package.descriptor();
    match descriptor.types_at(offset) {
        Some(types) => signature_in(alloc, home, types, least),
        None => Ok(Sig {
            args: Items::of(Vec::new(alloc)),
            result: None,
        }),
    }
}
