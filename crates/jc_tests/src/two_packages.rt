ghost use Rattle.std.specs.Prelude.{◌≡◌, ◌∷◌, [], replicate, None, IfOk};
ghost use Rattle.jc_base.specs.ByClass.{IsIndexOf};
ghost use Rattle.jc_tests.specs.TwoPackages.{HasSampleSizes, interface_method, interface_record, static_method, methods, derived_class, records, classes, first_pool, second_pool, statics, arrays};

use crate::described::{class, instance_method, list};
use jc_base::*;
use std::alloc::{AllocError, Global};

static FIRST_INFO: [u8; 6] = [3, 120, 3, 120, 3, 120];

static SECOND_INFO: [u8; 10] = [3, 120, 3, 120, 3, 120, 3, 120, 3, 120];

fn interface_method(alloc: Global) -> Result<MethodRec, AllocError>
    ensures { IfOk result (λ m. m ≡ interface_method) }
{
    let mut method = instance_method(alloc, 0, 2, 0, 2, 0, 0)?;
    method.is_abstract = true;
    method.max_locals = 0;
    method.max_stack = 0;
    method.code_len = 0;
    Ok(method)
}

fn static_method(alloc: Global) -> Result<MethodRec, AllocError>
    ensures { IfOk result (λ m. m ≡ static_method) }
{
    let mut method = instance_method(alloc, 1, 4, 0, 0, 2, 6)?;
    method.is_static = true;
    method.nargs = 1;
    method.code_len = 4;
    let handler = Handler {
        start: 0,
        end: 2,
        entry: 2,
        index: 0,
        class: 1,
    };
    method.handlers = list(alloc, &[handler])?;
    Ok(method)
}

fn methods(alloc: Global) -> Result<Methods, AllocError>
    ensures { IfOk result (λ l. l ≡ methods) }
{
    let mut methods = Vec::new(alloc);
    methods.push(instance_method(alloc, 0, 0, 0, 0, 0, 0)?)?;
    methods.push(interface_method(alloc)?)?;
    methods.push(instance_method(alloc, 0, 3, 1, 3, 0, 2)?)?;
    methods.push(instance_method(alloc, 0, 3, 128, 3, 1, 4)?)?;
    methods.push(instance_method(alloc, 1, 4, 1, 0, 0, 0)?)?;
    methods.push(instance_method(alloc, 1, 4, 128, 0, 1, 2)?)?;
    methods.push(instance_method(alloc, 1, 5, 128, 1, 0, 4)?)?;
    methods.push(static_method(alloc)?)?;
    Ok(Items::of(methods))
}

fn derived_class(alloc: Global) -> Result<ClassRec, AllocError>
    ensures { IfOk result (λ r. r ≡ derived_class) }
{
    let mut derived = class(
        alloc,
        1,
        Some(3),
        3,
        &[Ty::IntHigh, Ty::IntLow],
        &[0, 4],
        &[5],
    )?;
    let interface = Iface {
        class: 2,
        tokens: list(alloc, &[1])?,
    };
    derived.implements = Items::of(vec![in alloc; interface]?);
    Ok(derived)
}

fn interface(alloc: Global) -> Result<ClassRec, AllocError>
    ensures { IfOk result (λ r. r ≡ interface_record) }
{
    let mut interface = class(alloc, 0, None, 0, &[], &[], &[])?;
    interface.interface = true;
    Ok(interface)
}

fn records(alloc: Global) -> Result<ClassRecs, AllocError>
    ensures { IfOk result (λ l. l ≡ records) }
{
    let mut records = Vec::new(alloc);
    records.push(class(alloc, 0, None, 0, &[], &[0], &[])?)?;
    records.push(class(alloc, 0, Some(0), 0, &[], &[0], &[])?)?;
    records.push(interface(alloc)?)?;
    records.push(class(alloc, 0, Some(0), 1, &[Ty::Short], &[0, 2], &[3])?)?;
    records.push(derived_class(alloc)?)?;
    records.push(class(alloc, 1, Some(4), 3, &[], &[0, 4], &[6])?)?;
    Ok(Items::of(records))
}

fn pools(alloc: Global) -> Result<Pools, AllocError>
    ensures { IfOk result (λ l. l ≡ first_pool ∷ second_pool ∷ []) }
{
    let first = list(alloc, &[Member::ClassOf { class: 0 }])?;
    let second = list(
        alloc,
        &[
            Member::ClassOf { class: 4 },
            Member::Field {
                class: 4,
                cell: 1,
                kind: Kind::Int,
                ty: Ty::IntHigh,
            },
            Member::Static {
                slot: 0,
                kind: Kind::Byte,
                ty: Ty::Short,
            },
            Member::Virtual { class: 4, token: 1 },
            Member::Virtual {
                class: 4,
                token: 128,
            },
            Member::Super {
                class: 4,
                method: 2,
            },
            Member::StaticCall { method: 7 },
        ],
    )?;
    Ok(Items::of(vec![in alloc; first, second]?))
}

fn statics(alloc: Global) -> Result<Statics, AllocError>
    ensures { IfOk result (λ l. l ≡ statics) }
{
    let byte = StaticRec {
        package: 1,
        offset: 2,
        kind: Kind::Byte,
        ty: Ty::Short,
        slot: 0,
        initial: list(alloc, &[65535])?,
    };
    let array = StaticRec {
        package: 1,
        offset: 0,
        kind: Kind::Ref,
        ty: Ty::ArrByte,
        slot: 1,
        initial: list(alloc, &[1])?,
    };
    Ok(Items::of(vec![in alloc; byte, array]?))
}

fn arrays(alloc: Global) -> Result<Arrays, AllocError>
    ensures { IfOk result (λ l. l ≡ arrays) }
{
    let array = ArrayRec {
        kind: Ty::ArrByte,
        initial: list(alloc, &[1, 65535])?,
    };
    Ok(Items::of(vec![in alloc; array]?))
}

fn infos<'a>(alloc: Global, first: &'a [u8], second: &'a [u8]) -> Result<Infos<'a>, AllocError>
    ensures { IfOk result (λ l. l ≡ first.now ∷ second.now ∷ []) }
{
    let mut infos = Infos::new(alloc);
    infos.push(first)?;
    infos.push(second)?;
    Ok(infos)
}

/// No method has a target index.
fn no_index<'a>(alloc: Global) -> Result<Indexes<'a>, AllocError>
    ensures { IfOk result (λ l. l ≡ replicate 8 None) }
{
    Ok(Items::of(vec![in alloc; None, None, None, None, None, None, None, None]?))
}

/// Its classes.
pub(crate) fn table(alloc: Global) -> Result<Classes, AllocError>
    ensures { IfOk result (λ t. t ≡ classes) }
{
    Ok(Classes::of(records(alloc)?, [0, 1, 1, 1, 1, 1, 1, 1]))
}

/// The index of its classes.
fn class_index(alloc: Global, table: &Classes, listed: &Methods) -> Result<ClassIndex, AllocError>
    requires table { table.now ≡ classes }
    requires methods { listed.now ≡ methods }
    ensures { IfOk result (IsIndexOf table.now listed.now) }
{
    ClassIndex::of(alloc, table, listed)
}

/// The world of the two packages.
pub(crate) fn world<'a>(alloc: Global) -> Result<World<'a>, AllocError>
    ensures { IfOk result HasSampleSizes }
{
    let indexes = no_index(alloc)?;
    let infos = infos(alloc, &FIRST_INFO, &SECOND_INFO)?;
    let table = table(alloc)?;
    let methods = methods(alloc)?;
    let pools = pools(alloc)?;
    let statics = statics(alloc)?;
    let arrays = arrays(alloc)?;
    let by_class = class_index(alloc, &table, &methods)?;
    let lookups = Lookups {
        targets: indexes,
        by_class,
    };
    Ok(World::of(infos, pools, table, methods, statics, arrays, lookups))
}
