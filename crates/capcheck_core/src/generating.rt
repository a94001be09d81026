//! `gen`: a package from a number, in the form that a verifier on the card accepts, and the runs of its methods.
ghost use Rattle.std.specs.Prelude.{◌≡◌, ◌<◌, ◌+◌, ◌+ℤ◌, [], ◌∷◌, length, IfOk, OnErr};
ghost use Rattle.cap_gen.specs.Linked.{roles};
ghost use Rattle.cap_gen.specs.Methods.{method_info};
ghost use Rattle.cap_text.specs.Generate.{generate_request};
ghost use Rattle.jc_link.specs.World.{IsLinked};
ghost use Rattle.vm_offend.specs.Sized.{AreSized};
ghost use Rattle.xf_pack.specs.Transformed.{IsTransformed};
ghost use Rattle.capcheck_core.specs.Generate.{generated, run_of, short_ended, AreRun, GeneratesIn, Generates, BeginsRun, HaveEntries};
ghost use Rattle.capcheck_core.specs.Generate.{IsKeptOrBegun, IsNew, ComesOfRun, IsSumOfShorts, RunsAll, TellsParts};
ghost use Rattle.capcheck_core.specs.LentCard.{IsSameCard, words_of};
ghost use Rattle.capcheck_core.specs.Outside.{outside, card_words};
ghost use Rattle.capcheck_core.specs.Run.{HasLengths};
ghost use Rattle.xf_share.specs.Ends.{HaveCardTypings};

use crate::carding::Card;
use crate::defending::method_entered;
use crate::running::field_words;
use crate::storing::{in_order, store_parts};
use crate::transforming::untransformed;
use crate::verdict::Verdict;
use cap_files::Folder;
use cap_gen::{ROLES, generate, packages_link, parts_stand};
use cap_package::{OwnedParts, Package, Packages, agreed_package};
use cap_text::{Entry, Generate, generated};
use card_verify::{Accepted, CardRoom, accept};
use jc_base::World;
use jc_link::{LinkEnd, link};
use law_alike::starts_refuse_alike;
use law_sound::typed_code_never_fails;
use std::alloc::{AllocError, Global};
use vm_offend::start;
use vm_step::{Arg, Args, Plain, Value};
use xf_pack::transform_linked;

/// How many methods a generated package has.
const METHODS: u16 = 200;

/// The most steps that each of them may take.
const STEPS: u64 = 1000;

/// Generates a package from a number, stores it in the form that a verifier on the card accepts, and runs each of its
/// methods in the memory of the card.
pub(crate) fn generate_and_run<F: Folder>(
    alloc: Global,
    operands: &Generate<'_>,
    folder: &mut F,
    card: &mut Card<'_>,
) -> Verdict
    requires lengths { HasLengths (words_of card.old) }
    ensures answers { Generates (generate_request operands.now)
        (outside (F.folders folder.old) (words_of card.old))
        (outside (F.folders folder.new) (words_of card.new)) result }
    ensures same { IsSameCard card.old card.new }
{
    let Ok(parts) = generate(alloc, operands.seed) else {
        return Verdict::Memory;
    };
    let Ok(lent) = parts.lend(alloc) else {
        return Verdict::Memory;
    };
    parts_stand();
    packages_link();
    let source = agreed_package(&lent);
    let size = source.methods().info().bytes.len();
    let Ok(packages) = alone(alloc, source) else {
        return Verdict::Memory;
    };
    match link(alloc, &packages, ROLES) {
        Ok(world) => bring(alloc, operands, &packages, &world, size, folder, card),
        Err(LinkEnd::Fault(_)) => unreachable!(),
        Err(LinkEnd::Memory) => Verdict::Memory,
    }
}

// One package, without libraries.
fn alone<'p, 'a>(alloc: Global, only: Package<'p, 'a>) -> Result<Packages<'p, 'a>, AllocError>
    ensures { IfOk result (λ all. all ≡ only.entry ∷ []) }
{
    let mut all = Packages::new(alloc);
    all.push(only)?;
    Ok(all)
}

// Brings the package into the form that a verifier on the card accepts, and stores the parts, then the roles, and the Header
// last.
fn bring<F: Folder>(
    alloc: Global,
    operands: &Generate<'_>,
    packages: &Packages<'_, '_>,
    world: &World<'_>,
    size: usize,
    folder: &mut F,
    card: &mut Card<'_>,
) -> Verdict
    requires lengths { HasLengths (words_of card.old) }
    requires packages { packages.now ≡ generated operands.now.seed }
    requires linked { IsLinked packages.now roles world.now }
    requires size { size ≡ length (method_info operands.now.seed) }
    ensures answers { GeneratesIn (generate_request operands.now) world.now
        (outside (F.folders folder.old) (words_of card.old))
        (outside (F.folders folder.new) (words_of card.new)) result }
    ensures same { IsSameCard card.old card.new }
{
    packages_link();
    match transform_linked(alloc, packages, ROLES, world) {
        Ok(parts) => {
            let Ok(stores) = in_order(alloc, &parts, Some(&ROLES)) else {
                return Verdict::Memory;
            };
            match store_parts(folder, operands.out, &stores) {
                Ok(()) => run_stored(alloc, operands.seed, world, &parts, size, card),
                Err(_) => Verdict::StoreFault,
            }
        }
        Err(end) => untransformed(alloc, packages, world, end),
    }
}

// Links what was stored.
#[tactic(auto, using(crate::proofs::Generates::untold_there))]
fn run_stored(
    alloc: Global,
    seed: u32,
    world: &World<'_>,
    parts: &OwnedParts,
    size: usize,
    card: &mut Card<'_>,
) -> Verdict
    requires lengths { HasLengths (words_of card.old) }
    requires linked { IsLinked (generated seed) roles world.now }
    requires made { IsTransformed (generated seed) roles world.now parts.now }
    requires size { size ≡ length (method_info seed) }
    ensures answers { TellsParts seed world.now parts.now (words_of card.old)
        (words_of card.new) result }
    ensures same { IsSameCard card.old card.new }
{
    let Ok(lent) = parts.lend(alloc) else {
        return Verdict::Memory;
    };
    let made = agreed_package(&lent);
    let made_size = made.methods().info().bytes.len();
    let Ok(packages) = alone(alloc, made) else {
        return Verdict::Memory;
    };
    match link(alloc, &packages, ROLES) {
        Ok(new) => run_new(alloc, seed, world, parts, &new, size, made_size, card),
        Err(LinkEnd::Fault(_)) => unreachable!(),
        Err(LinkEnd::Memory) => Verdict::Memory,
    }
}

// Runs the methods of what was stored, and tells of it.
fn run_new(
    alloc: Global,
    _seed: u32,
    world: &World<'_>,
    _parts: &OwnedParts,
    new: &World<'_>,
    size: usize,
    made_size: usize,
    card: &mut Card<'_>,
) -> Verdict
    requires lengths { HasLengths (words_of card.old) }
    requires linked { IsLinked (generated _seed) roles world.now }
    requires made { IsNew _seed world.now _parts.now new.now made_size }
    requires size { size ≡ length (method_info _seed) }
    ensures answers { TellsParts _seed world.now _parts.now (words_of card.old)
        (words_of card.new) result }
    ensures same { IsSameCard card.old card.new }
{
    starts_refuse_alike(world);
    let _whole = world.classes();
    match sum_of(alloc, new, card.ram, card.heap, card.statics) {
        Ok(sum) => Verdict::done(generated(alloc, size, made_size, sum)),
        Err(_) => Verdict::Memory,
    }
}

// Accepts the world, runs each of its methods in the memory of the card, and tells the sum of the shorts that they return.
#[tactic(auto, using(crate::proofs::Cardings::number_below))]
fn sum_of(
    alloc: Global,
    world: &World<'_>,
    ram: &mut [u16],
    heap: &mut [u16],
    statics: &mut [u16],
) -> Result<i32, AllocError>
    requires card { HasLengths (card_words ram.old heap.old statics.old) }
    requires carded { HaveCardTypings world.now }
    requires entries { HaveEntries world.now }
    ensures runs { IfOk result (RunsAll world.now (card_words ram.new heap.new statics.new)) }
    ensures begun { OnErr result
        (IsKeptOrBegun world.now (card_words ram.old heap.old statics.old) (card_words ram.new heap.new statics.new)) }
{
    typed_code_never_fails(world);
    let mut room = CardRoom::new();
    match accept(world, &mut room) {
        Ok(accepted) => {
            let count = field_words(world);
            let (fields, _others) = statics.split_at_mut(count);
            run_all(alloc, &accepted, ram, heap, fields)
        }
        Err((method, _)) => {
            let _code = world.code(method);
            unreachable!()
        }
    }
}

// Runs the methods one after the other.
fn run_all(
    alloc: Global,
    accepted: &Accepted<'_>,
    ram: &mut [u16],
    heap: &mut [u16],
    statics: &mut [u16],
) -> Result<i32, AllocError>
    requires entries { HaveEntries accepted.now }
    requires sized { AreSized accepted.now ram.old heap.old statics.old }
    ensures runs { IfOk result (AreRun accepted.now (card_words ram.new heap.new statics.new)) }
    ensures begun { OnErr result
        (IsKeptOrBegun accepted.now (card_words ram.old heap.old statics.old) (card_words ram.new heap.new statics.new)) }
    ensures length { length statics.new ≡ length statics.old }
{
    let mut sum = 0i32;
    'methods: for number in 0..METHODS {
        let args = arguments(alloc, number)?;
        let ending = run_method(accepted, number, &args, ram, heap, statics);
        sum = with_short(number, sum, ending);
    }
    Ok(sum)
}

// The sum with the short that one more run returned.
fn with_short(count: u16, sum: i32, ending: Plain) -> i32
    requires few { count < 200 }
    requires sum { IsSumOfShorts count sum }
    ensures adds { result ≡ sum +ℤ short_ended ending }
    ensures sum { IsSumOfShorts (count + 1) result }
{
    sum + i32::from(short_of(ending))
}

// What is handed to the method with a number: the number, and 0 and 1 by fours in turn.
fn arguments<'a>(alloc: Global, number: u16) -> Result<Args<'a>, AllocError>
    ensures { IfOk result (λ args. args ≡ (run_of number).args) }
{
    let mut args = Args::new(alloc);
    args.push(Arg::Number(i32::from(number)))?;
    args.push(Arg::Number(i32::from(number / 4 % 2)))?;
    Ok(args)
}

// Runs the method with a number, and tells how its run ends or stands.
fn run_method(
    accepted: &Accepted<'_>,
    number: u16,
    args: &Args<'_>,
    ram: &mut [u16],
    heap: &mut [u16],
    statics: &mut [u16],
) -> Plain
    requires entry { BeginsRun accepted.now number }
    requires handed { args.now ≡ (run_of number).args }
    requires sized { AreSized accepted.now ram.old heap.old statics.old }
    ensures run { ComesOfRun accepted.now number (card_words ram.new heap.new statics.new) result }
    ensures sized { AreSized accepted.now ram.new heap.new statics.new }
{
    let entry = Entry {
        class_no: 0,
        method_no: number,
    };
    let Some(entry) = method_entered(accepted.world(), entry) else {
        unreachable!();
    };
    match start(accepted, entry, args, ram, heap, statics) {
        Ok(mut machine) => machine.run(accepted, ram, heap, statics, STEPS),
        Err(_) => unreachable!(),
    }
}

// The short that a run returned, and 0 where it returned none.
fn short_of(ending: Plain) -> i16
    ensures { result ≡ short_ended ending }
{
    match ending {
        Plain::Returned(Value::Short(short)) => short,
        _ => 0,
    }
}
