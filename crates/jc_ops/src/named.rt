ghost use Rattle.std.specs.Prelude.{◌≡◌, ◌<◌, length, IfSome};
ghost use Rattle.jc_base.specs.declared.ty.Ty.TheVariants.{Class, ArrRef};
ghost use Rattle.jc_base.specs.World.{member_at};
ghost use Rattle.jc_ops.specs.Resolve.{byte_of, short_of, same_kind, static_field, instance_field, class_type, array_of, tested_type, returns, returned, result_returned};
ghost use Rattle.jc_ops.specs.Sound.{IsKnownMember};

use crate::fault::RuleFault;
use crate::operation::{InstanceField, Sort, StaticField};
use jc_base::{Kind, Member, Ty, World, is_reference, types_are_ordered};

/// An operand read as an unsigned byte.
#[inline(always)]
pub(crate) fn byte_of(x: i32) -> u8
    ensures { result ≡ byte_of x }
{
    (x.unsigned_abs() % 256) as u8
}

/// An operand read as an unsigned number of two bytes.
#[inline(always)]
pub(crate) fn short_of(x: i32) -> u16
    ensures { result ≡ short_of x }
{
    (x.unsigned_abs() % 65536) as u16
}

/// What the entry of a package's constant pool names, where there is one of this number.
#[inline(always)]
pub(crate) fn member(world: &World<'_>, package: u16, pool: u16) -> Option<Member>
    requires { «package» < length world.now.infos }
    ensures is { result ≡ member_at world.now «package» pool }
    ensures known { IfSome result (IsKnownMember world.now) }
{
    types_are_ordered(world.classes());
    if pool < world.pool_count(package) {
        Some(world.member(package, pool))
    } else {
        None
    }
}

#[inline(always)]
fn same_kind(a: Kind, b: Kind) -> bool
    ensures { result ≡ same_kind a b }
{
    match a {
        Kind::Ref => matches!(b, Kind::Ref),
        Kind::Byte => matches!(b, Kind::Byte),
        Kind::Short => matches!(b, Kind::Short),
        Kind::Int => matches!(b, Kind::Int),
    }
}

#[inline(always)]
pub(crate) fn static_field(
    world: &World<'_>,
    package: u16,
    pool: u16,
    kind: Kind,
) -> Result<StaticField, RuleFault>
    requires { «package» < length world.now.infos }
    ensures { result ≡ static_field pool kind (member_at world.now «package» pool) }
{
    match member(world, package, pool) {
        Some(
            Member::Static {
                slot,
                kind: found,
                ty,
            },
        ) if same_kind(kind, found) => Ok(StaticField {
            slot,
            kind: found,
            ty,
        }),
        _ => Err(RuleFault::BadMember(pool)),
    }
}

#[inline(always)]
pub(crate) fn instance_field(
    world: &World<'_>,
    package: u16,
    pool: u16,
    kind: Kind,
) -> Result<InstanceField, RuleFault>
    requires { «package» < length world.now.infos }
    ensures { result ≡ instance_field world.now.classes pool kind (member_at world.now «package» pool) }
{
    let object = world.role(0);
    match member(world, package, pool) {
        Some(
            Member::Field {
                class,
                cell,
                kind: found,
                ty,
            },
        ) if same_kind(kind, found) && class != object => Ok(InstanceField {
            class,
            cell,
            kind: found,
            ty,
        }),
        _ => Err(RuleFault::BadMember(pool)),
    }
}

/// An array of references of the class or interface that a pool entry names.
pub(crate) fn array_type(world: &World<'_>, package: u16, pool: u16) -> Result<Ty, RuleFault>
    requires { «package» < length world.now.infos }
    ensures { result ≡ class_type ArrRef pool (member_at world.now «package» pool) }
{
    match member(world, package, pool) {
        Some(Member::ClassOf { class }) => Ok(Ty::ArrRef(class)),
        _ => Err(RuleFault::BadMember(pool)),
    }
}

/// The array of primitives of a number: 10 boolean, 11 byte, 12 short, 13 int.
pub(crate) fn array_of(atype: u8) -> Ty
    ensures { result ≡ array_of atype }
{
    match atype {
        10 => Ty::ArrBool,
        11 => Ty::ArrByte,
        12 => Ty::ArrShort,
        _ => Ty::ArrInt,
    }
}

/// The type that is tested.
pub(crate) fn tested_type(
    world: &World<'_>,
    package: u16,
    atype: u8,
    pool: u16,
) -> Result<Ty, RuleFault>
    requires { «package» < length world.now.infos }
    ensures { result ≡ tested_type atype pool (member_at world.now «package» pool) }
{
    match atype {
        0 => match member(world, package, pool) {
            Some(Member::ClassOf { class }) => Ok(Ty::Class(class)),
            _ => Err(RuleFault::BadMember(pool)),
        },
        14 => array_type(world, package, pool),
        _ => Ok(array_of(atype)),
    }
}

/// Whether a result of this type is returned by the instruction.
fn returns(sort: Option<Sort>, result_type: Option<Ty>) -> bool
    ensures { result ≡ returns sort result_type }
{
    match sort {
        None => result_type.is_none(),
        Some(Sort::Reference) => matches!(result_type, Some(ty) if is_reference(ty)),
        Some(Sort::Short) => matches!(result_type, Some(Ty::Short)),
        Some(Sort::Int) => matches!(result_type, Some(Ty::IntHigh)),
    }
}

/// The type that the instruction returns at most.
fn returned(world: &World<'_>, sort: Option<Sort>) -> Ty
    ensures { result ≡ returned world.now.classes sort }
{
    match sort {
        None => Ty::Bottom,
        Some(Sort::Reference) => Ty::Class(world.role(0)),
        Some(Sort::Short) => Ty::Short,
        Some(Sort::Int) => Ty::IntHigh,
    }
}

/// The result of the method's own signature, where the instruction returns it.
pub(crate) fn result_returned(
    world: &World<'_>,
    sort: Option<Sort>,
    declared: Option<Ty>,
) -> Result<Option<Ty>, RuleFault>
    ensures { result ≡ result_returned world.now.classes sort declared }
{
    if returns(sort, declared) {
        Ok(declared)
    } else {
        Err(RuleFault::Mismatch {
            found: returned(world, sort),
            wanted: declared.unwrap_or(Ty::Bottom),
        })
    }
}
