ghost use Rattle.std.specs.Prelude.{◌≡◌, ◌<◌, ◌≤◌, ◌∷◌, [], None, false, All, length, IfOk, IsSomeAnd, slice_get};
ghost use Rattle.jc_base.specs.ByClass.{IsIndexOf};
ghost use Rattle.jc_base.specs.Linked.{IsHandler};
ghost use Rattle.jc_tests.specs.OneMethod.{arguments_of, classes, only_method};

use crate::caught::{Range, handler};
use crate::shape::Shape;
use jc_base::*;
use std::alloc::{AllocError, Global};

fn list<T: Copy>(alloc: Global, items: &[T]) -> Result<Items<T>, AllocError>
    ensures { IfOk result (λ l. l ≡ items.now) }
{
    Ok(Items::of(Vec::from_slice(alloc, items)?))
}

fn empty<T>(alloc: Global) -> Items<T>
    ensures { result ≡ [] }
{
    Items::of(Vec::new(alloc))
}

fn handlers(alloc: Global, ranges: &[Range], len: u16) -> Result<Handlers, AllocError>
    requires { 0 < len }
    ensures fit { IfOk result (λ hs. All (IsHandler classes (Member.ClassOf 1 ∷ []) len) hs) }
    ensures count { IfOk result (λ hs. length hs ≡ length ranges.now) }
{
    let mut items = Vec::new(alloc);
    'walk: for range in ranges {
        items.push(handler(*range, len))?;
    }
    Ok(Items::of(items))
}

fn class(alloc: Global, parent: Option<u16>, own: &[Ty]) -> Result<ClassRec, AllocError>
    requires { length own.now ≤ 255 }
    ensures { IfOk result
        (λ r.
        r
        ≡ record {
          «package» = 0;
          interface = false;
          parent = parent;
          cells = length own.now;
          own = own.now;
          implements = [];
          public = [];
          visible = [];
        }) }
{
    Ok(ClassRec {
        package: 0,
        interface: false,
        parent,
        cells: own.len() as u16,
        own: list(alloc, own)?,
        implements: empty(alloc),
        public: empty(alloc),
        visible: empty(alloc),
    })
}

/// The cells of the first class that extends throwable.
static OWN_CELLS: [Ty; 4] = [Ty::Short, Ty::IntHigh, Ty::IntLow, Ty::Class(0)];

fn records(alloc: Global) -> Result<ClassRecs, AllocError>
    ensures { IfOk result (λ l. l ≡ classes.records) }
{
    let mut records = Vec::new(alloc);
    records.push(class(alloc, None, &[])?)?;
    records.push(class(alloc, Some(0), &[])?)?;
    records.push(class(alloc, Some(1), &OWN_CELLS)?)?;
    records.push(class(alloc, Some(1), &[])?)?;
    Ok(Items::of(records))
}

fn table(alloc: Global) -> Result<Classes, AllocError>
    ensures { IfOk result (λ t. t ≡ classes) }
{
    Ok(Classes::of(records(alloc)?, [0, 1, 1, 1, 1, 1, 1, 1]))
}

fn arguments(alloc: Global, shape: Shape) -> Result<Tys, AllocError>
    ensures { IfOk result (λ l. l ≡ arguments_of shape) }
{
    match shape {
        Shape::Thrown => list(alloc, &[Ty::Class(2), Ty::Class(3)]),
        Shape::Shorts => list(alloc, &[Ty::Short, Ty::Short]),
        Shape::Object => list(alloc, &[Ty::Class(0)]),
        Shape::Wide => list(alloc, &[Ty::Short]),
        Shape::Ints => list(alloc, &[Ty::IntHigh, Ty::IntLow]),
    }
}

fn methods(alloc: Global, shape: Shape, len: u16, handlers: Handlers) -> Result<Methods, AllocError>
    ensures { IfOk result (λ l. l ≡ only_method shape len handlers ∷ []) }
{
    let method = MethodRec {
        package: 0,
        class: 0,
        token: 0,
        class_no: 0,
        method_no: 0,
        is_static: true,
        is_init: false,
        is_abstract: false,
        sig: Sig {
            args: arguments(alloc, shape)?,
            result: shape.result(),
        },
        nargs: shape.words(),
        max_locals: shape.locals(),
        max_stack: 2,
        code_at: 0,
        code_len: len,
        handlers,
    };
    Ok(Items::of(vec![in alloc; method]?))
}

fn infos<'a>(alloc: Global, code: &'a [u8]) -> Result<Infos<'a>, AllocError>
    ensures { IfOk result (λ l. l ≡ code.now ∷ []) }
{
    let mut infos = Infos::new(alloc);
    infos.push(code)?;
    Ok(infos)
}

fn pools(alloc: Global) -> Result<Pools, AllocError>
    ensures { IfOk result (λ l. l ≡ (Member.ClassOf 1 ∷ []) ∷ []) }
{
    let throwable = list(alloc, &[Member::ClassOf { class: 1 }])?;
    Ok(Items::of(vec![in alloc; throwable]?))
}

/// The method has no target index.
fn no_index<'a>(alloc: Global) -> Result<Indexes<'a>, AllocError>
    ensures { IfOk result (λ l. l ≡ None ∷ []) }
{
    Ok(Items::of(vec![in alloc; None]?))
}

/// The index of its classes.
fn class_index(alloc: Global, table: &Classes, methods: &Methods) -> Result<ClassIndex, AllocError>
    requires table { table.now ≡ classes }
    requires one { length methods.now ≤ 1 }
    requires known { All (λ m. m.class < 4) methods.now }
    ensures { IfOk result (IsIndexOf table.now methods.now) }
{
    ClassIndex::of(alloc, table, methods)
}

/// A world with one method of a shape, in the class object.
pub fn world<'a>(
    alloc: Global,
    shape: Shape,
    code: &'a [u8],
    ranges: &[Range],
) -> Result<World<'a>, AllocError>
    requires filled { 0 < length code.now }
    requires short { length code.now ≤ 32767 }
    requires few { length ranges.now ≤ 255 }
    ensures code { IfOk result (λ w. IsSomeAnd (slice_get w.methods 0) (λ m. 0 < m.code_len)) }
    ensures classes { IfOk result (λ w. w.classes ≡ classes) }
{
    let len = code.len() as u16;
    let handlers = handlers(alloc, ranges, len)?;
    let methods = methods(alloc, shape, len, handlers)?;
    let indexes = no_index(alloc)?;
    let table = table(alloc)?;
    let infos = infos(alloc, code)?;
    let pools = pools(alloc)?;
    let by_class = class_index(alloc, &table, &methods)?;
    let lookups = Lookups {
        targets: indexes,
        by_class,
    };
    Ok(World::of(
        infos,
        pools,
        table,
        methods,
        empty(alloc),
        empty(alloc),
        lookups,
    ))
}
