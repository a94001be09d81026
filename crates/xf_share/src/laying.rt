ghost use Rattle.std.specs.Prelude.{◌≡◌, ℕ, ◌+◌, ◌<◌, List, length, IfErr, IfOk, IsSomeAnd, slice_get, vec_len};
ghost use Rattle.cap_package.specs.PackageRecord.{PackageRecord};
ghost use Rattle.jc_control.specs.Method.{method_in};
ghost use Rattle.law_shared_world.specs.SharedCode.{IsSharedFor};
ghost use Rattle.xf_allot.specs.Sharing.{AnswersSharing};
ghost use Rattle.xf_share.specs.Ends.{HaveCardTypings, TellsOf};
ghost use Rattle.xf_share.specs.Numbering.{IsRenumbered, number_of};
ghost use Rattle.xf_last.specs.Fits.{FitsMethod};
ghost use Rattle.xf_last.specs.Last.{BeginsLast, EachFrom};
ghost use Rattle.xf_share.specs.Passes.{IsSharedAt};
ghost use Rattle.xf_share.specs.Unlaid.{TellsUnlaid, unlaid};

use crate::numbering::symbols_of;
use crate::sharing::ShareEnd;
use cap_bytes::{View, are_bytes};
use card_verify::verify_method;
use jc_base::{Ty, World};
use jc_decode::{Laid, Symbols, instructions_are_listed};
use law_share::sharing_is_one;
use std::alloc::{AllocError, Global};
use xf_allot::{Sharing, share_registers};
use xf_layout::{LayEnd, lay};

/// What is laid for each method of the last package, in the order of their numbers, and None for one without code.
pub(crate) fn lay_last(
    alloc: Global,
    world: &World<'_>,
    first: u16,
) -> Result<Vec<Option<Laid>>, ShareEnd>
    requires first { BeginsLast world.now first }
    requires accepted { HaveCardTypings world.now }
    ensures laid { IfOk result (λ laid. EachFrom (IsSharedAt world.now) first laid.items) }
    ensures all { IfOk result (λ laid. first + vec_len laid ≡ length world.now.methods) }
    ensures end { IfErr result (λ end. (packages : List PackageRecord) → TellsOf packages world.now end) }
{
    let mut laid = Vec::new(alloc);
    'methods: for number in first..world.method_count() {
        let element = match lay_method(alloc, world, number) {
            Ok(element) => element,
            Err(end) => return Err(unlaid(number, end)),
        };
        if laid.push(element).is_err() {
            return Err(ShareEnd::Memory);
        }
    }
    Ok(laid)
}

// What is laid for a method, if it has code.
fn lay_method(alloc: Global, world: &World<'_>, number: u16) -> Result<Option<Laid>, LayEnd>
    requires method { number < length world.now.methods }
    requires accepted { HaveCardTypings world.now }
    ensures laid { IfOk result (IsSharedAt world.now number) }
    ensures end { IfErr result (TellsUnlaid world.now number) }
{
    if world.method(number).code_len == 0 {
        return Ok(None);
    }
    match share_method(alloc, world, number) {
        Ok(sharing) => match lay_shared(alloc, world, number, &sharing) {
            Ok(laid) => Ok(Some(laid)),
            Err(end) => Err(end),
        },
        Err(error) => Err(error.into()),
    }
}

// The registers that a method's variables share, by the types of its registers in its least card typing.
fn share_method(
    alloc: Global,
    world: &World<'_>,
    number: u16,
) -> Result<Option<Sharing>, AllocError>
    requires code { IsSomeAnd (slice_get world.now.methods number) (λ r. 0 < r.code_len) }
    requires accepted { HaveCardTypings world.now }
    ensures { IsSomeAnd (method_in world.now number) (λ m. IfOk result (AnswersSharing world.now m)) }
{
    let rec = world.method(number);
    let mut types = vec![in alloc; Ty::Bottom; usize::from(rec.nargs + rec.max_locals)]?;
    let mut stack = vec![in alloc; Ty::Bottom; usize::from(rec.max_stack)]?;
    match verify_method(world, number, &mut types, &mut stack) {
        Ok(()) => share_registers(alloc, world, number, &types),
        Err(_) => unreachable!(),
    }
}

// The code of a method whose registers have the numbers that its variables share.
fn lay_shared(
    alloc: Global,
    world: &World<'_>,
    number: u16,
    sharing: &Option<Sharing>,
) -> Result<Laid, LayEnd>
    requires code { IsSomeAnd (slice_get world.now.methods number) (λ r. 0 < r.code_len) }
    requires accepted { HaveCardTypings world.now }
    requires sharing { IsSomeAnd (method_in world.now number) (λ m. AnswersSharing world.now m sharing.now) }
    ensures laid { IsSomeAnd (method_in world.now number) (λ m. IfOk result (IsSharedFor world.now m)) }
    ensures fits { IsSomeAnd (method_in world.now number) (λ m. IfOk result (FitsMethod m.rec)) }
    ensures end { IfErr result (TellsUnlaid world.now number) }
{
    instructions_are_listed();
    are_small(sharing);
    let rec = world.method(number);
    let code = View::of(world.code(number));
    are_bytes(code.bytes);
    match symbols_of(alloc, rec, code, sharing) {
        Ok(symbols) => lay_symbols(alloc, world, number, sharing, &symbols),
        Err(error) => Err(error.into()),
    }
}

// The bytes of the symbols of such a method.
fn lay_symbols(
    alloc: Global,
    world: &World<'_>,
    number: u16,
    sharing: &Option<Sharing>,
    symbols: &Symbols,
) -> Result<Laid, LayEnd>
    requires method { number < length world.now.methods }
    requires symbols { IsSomeAnd (method_in world.now number)
        (λ m. IsRenumbered world.now m sharing.now symbols.now) }
    ensures laid { IsSomeAnd (method_in world.now number) (λ m. IfOk result (IsSharedFor world.now m)) }
    ensures fits { IsSomeAnd (method_in world.now number) (λ m. IfOk result (FitsMethod m.rec)) }
    ensures end { IfErr result (TellsUnlaid world.now number) }
{
    instructions_are_listed();
    sharing_is_one();
    let _ = sharing;
    let _classes = world.classes();
    let _rec = world.method(number);
    let code = View::of(world.code(number));
    match lay(alloc, code, symbols) {
        Ok(laid) => Ok(laid),
        Err(end) => Err(end),
    }
}

/// The new numbers are bytes: a fact for proofs, and no work.
fn are_small(sharing: &Option<Sharing>)
    ensures { (x : ℕ) → x < 256 → number_of sharing.now x < 256 }
{
    if let Some(sharing) = sharing {
        are_bytes(sharing.numbers.as_slice());
    }
}

/// What is told of a method for which no code is laid.
pub(crate) fn unlaid(method: u16, end: LayEnd) -> ShareEnd
    ensures { result ≡ unlaid method end }
{
    match end {
        LayEnd::MethodLong(n) => ShareEnd::MethodLong { method, n },
        LayEnd::Memory => ShareEnd::Memory,
    }
}
