ghost use Rattle.std.specs.Prelude.{◌≡◌, ◌+◌, ◌^◌, ◌<◌, List, length, All, IfErr, IfOk, IsSomeAnd, slice_get, vec_len};
ghost use Rattle.cap_package.specs.PackageRecord.{PackageRecord};
ghost use Rattle.jc_control.specs.Method.{method_in};
ghost use Rattle.jc_decode.specs.Symbols.{IsRange, plain_size};
ghost use Rattle.law_transform.specs.Laid.{IsLaidFor};
ghost use Rattle.xf_pack.specs.Ends.{AreAcceptedLibraries, IsTypedLast, TellsOf};
ghost use Rattle.xf_last.specs.Fits.{FitsMethod};
ghost use Rattle.xf_last.specs.Last.{BeginsLast, EachFrom};
ghost use Rattle.xf_pack.specs.Passes.{IsLaidAt, IsRewrittenTo, IsTypedBy, IsTypingAt};
ghost use Rattle.xf_pack.specs.Unlaid.{TellsUnlaid};

use crate::transforming::TransformEnd;
use crate::unlaid::{LayingEnd, unlaid};
use cap_bytes::View;
use jc_base::World;
use jc_decode::{Laid, Symbols, instructions_are_listed};
use jc_rules::Typing;
use law_laid::laid_is_typed;
use std::alloc::Global;
use xf_code::rewrite;
use xf_homes::homes;
use xf_layout::lay;

/// What is laid for each method of the last package, by these typings, in the order of their numbers, and None for one without code.
pub(crate) fn lay_last(
    alloc: Global,
    world: &World<'_>,
    first: u16,
    typings: &[Option<Typing>],
) -> Result<Vec<Option<Laid>>, TransformEnd>
    requires first { BeginsLast world.now first }
    requires accepted { AreAcceptedLibraries world.now }
    requires typed { IsTypedLast world.now }
    requires typings { EachFrom (IsTypingAt world.now) first typings.now }
    requires all { first + length typings.now ≡ length world.now.methods }
    ensures laid { IfOk result (λ laid. EachFrom (IsLaidAt world.now) first laid.items) }
    ensures all { IfOk result (λ laid. first + vec_len laid ≡ length world.now.methods) }
    ensures end { IfErr result (λ end. (packages : List PackageRecord) → TellsOf packages world.now end) }
{
    // Their numbers are no more than `method_count` can answer.
    let _count = world.method_count();
    let mut laid = Vec::new(alloc);
    'methods: for (k, typing) in typings.iter().enumerate() {
        let number = first + k as u16;
        let element = match lay_method(alloc, world, number, typing) {
            Ok(element) => element,
            Err(end) => return Err(unlaid(number, end)),
        };
        if laid.push(element).is_err() {
            return Err(TransformEnd::Memory);
        }
    }
    Ok(laid)
}

// What is laid for a method, if it has code.
fn lay_method(
    alloc: Global,
    world: &World<'_>,
    number: u16,
    typing: &Option<Typing>,
) -> Result<Option<Laid>, LayingEnd>
    requires method { number < length world.now.methods }
    requires typing { IsTypingAt world.now number typing.now }
    ensures laid { IfOk result (IsLaidAt world.now number) }
    ensures end { IfErr result (TellsUnlaid world.now number) }
{
    match typing {
        Some(typing) => match lay_code(alloc, world, number, typing) {
            Ok(laid) => Ok(Some(laid)),
            Err(end) => Err(end),
        },
        None => Ok(None),
    }
}

// The homes of a method with code, its code with these in place of its locals, and that code in bytes.
fn lay_code(
    alloc: Global,
    world: &World<'_>,
    number: u16,
    typing: &Typing,
) -> Result<Laid, LayingEnd>
    requires code { IsSomeAnd (slice_get world.now.methods number) (λ r. 0 < r.code_len) }
    requires typing { IsSomeAnd (method_in world.now number) (λ m. IsTypedBy world.now m typing.now) }
    ensures laid { IsSomeAnd (method_in world.now number) (λ m. IfOk result (IsLaidFor world.now m)) }
    ensures sound { IsSomeAnd (method_in world.now number) (λ m. IfOk result (FitsMethod m.rec)) }
    ensures end { IfErr result (TellsUnlaid world.now number) }
{
    // Its record links to others of the world, its stack is counted by a byte, and so are the registers of its homes.
    let _max_stack = world.method(number).max_stack;
    match homes(alloc, world, number, typing) {
        Ok(homes) => {
            let _count = homes.count();
            match rewrite(alloc, &*world, number, &*typing, &homes) {
                Ok(symbols) => lay_symbols(alloc, world, number, &symbols),
                Err(end) => Err(end.into()),
            }
        }
        Err(end) => Err(end.into()),
    }
}

// The bytes of the symbols to which a method's code is rewritten.
fn lay_symbols(
    alloc: Global,
    world: &World<'_>,
    number: u16,
    symbols: &Symbols,
) -> Result<Laid, LayingEnd>
    requires method { number < length world.now.methods }
    requires symbols { IsSomeAnd (method_in world.now number) (IsRewrittenTo world.now symbols.now) }
    requires ranges { All (IsRange symbols.now.items) symbols.now.ranges }
    requires size { plain_size symbols.now.items < 2 ^ 32 }
    ensures laid { IsSomeAnd (method_in world.now number) (λ m. IfOk result (IsLaidFor world.now m)) }
    ensures sound { IsSomeAnd (method_in world.now number) (λ m. IfOk result (FitsMethod m.rec)) }
    ensures end { IfErr result (TellsUnlaid world.now number) }
{
    instructions_are_listed();
    laid_is_typed(world);
    let _rec = world.method(number);
    let code = View::of(world.code(number));
    match lay(alloc, code, symbols) {
        Ok(laid) => Ok(laid),
        Err(end) => Err(end.into()),
    }
}
