ghost use Rattle.std.specs.Prelude.{◌≡◌, ◌≤◌, Some, None, MatchResult, IfOk, IfErr, OnErr, map, string_bytes, ℤ, IfSome, IfNone};
ghost use Rattle.card_verify.specs.Answers.{AreAccepted};
ghost use Rattle.cap_text.specs.Room.{HasRoom, IsEmpty};
ghost use Rattle.cap_text.specs.Run.{run_request};
ghost use Rattle.cap_text.specs.Word.{argument_read};
ghost use Rattle.vm_offend.specs.Begun.{IsBegun};
ghost use Rattle.vm_offend.specs.Held.{IsRunOf};
ghost use Rattle.vm_offend.specs.Sized.{static_cells};
ghost use Rattle.vm_text.specs.Text.{most_text};
ghost use Rattle.xf_share.specs.Ends.{HaveCardTypings};
ghost use Rattle.capcheck_core.specs.Defend.{method_entered, run_fault};
ghost use Rattle.capcheck_core.specs.LentCard.{IsSameCard, words_of};
ghost use Rattle.capcheck_core.specs.Outside.{CardWords, card_words};
ghost use Rattle.capcheck_core.specs.Run.{bounded_request, IsCardKept, HasLengths, IsLeft, IsRun, StopsRun, RunsWithMemory, RunsWorldIn};
ghost use Rattle.capcheck_core.specs.Shorts.{IsShort, AreShorts, RefusesStart};

use crate::carding::Card;
use crate::defending::{lent, method_entered};
use crate::typing::number_of;
use crate::verdict::Verdict;
use crate::world::LastStep;
use arrayvec::ArrayVec;
use cap_files::Folder;
use cap_package::Packages;
use cap_text::{OwnedArg, Room, Run, write_not_started, write_refused_card};
use card_typing::CardFault;
use card_verify::{Accepted, CardRoom, accept};
use jc_base::World;
use std::alloc::{AllocError, Global};
use vm_offend::{Machine, sizes, start};
use vm_step::{Args, Ending, Plain, StartFault};
use vm_text::{LentRun, room, texts_are_alike, write_run};

/// A run that words ask for, with the most steps that it may take here.
#[derive(Clone, Copy)]
pub(crate) struct Bounded<'a> {
    pub run: &'a Run<'a>,
    pub steps: u64,
}

impl<'a> Bounded<'a> {
    /// The run with as many steps as the words ask for.
    pub(crate) fn asked(run: &'a Run<'a>) -> Bounded<'a>
        ensures { bounded_request result ≡ run_request run.now }
    {
        Bounded {
            run,
            steps: u64::from(run.budget),
        }
    }
}

/// The last step of `run`: it verifies all packages as a card does, and runs an entry of the last one in its memory.
#[derive(Clone, Copy)]
pub(crate) struct RunStep<'a> {
    pub run: &'a Run<'a>,
}

impl LastStep for RunStep<'_> {
    ghost use Rattle.cap_text.specs.Run.{run_request};
    ghost use Rattle.capcheck_core.specs.Run.{RunsWorld};
    ghost use Rattle.capcheck_core.specs.World.{of_world};

    ghost own = { λ s. of_world (RunsWorld (run_request s.run.now)) };

    fn take<F: Folder>(
        &self,
        alloc: Global,
        _packages: &Packages<'_, '_>,
        _roles: [u8; 8],
        world: &World<'_>,
        _folder: &mut F,
        card: &mut Card<'_>,
    ) -> Verdict {
        run_in_card(alloc, world, Bounded::asked(self.run), card)
    }
}

/// Why a run of a world does not begin.
#[derive(Clone, Copy)]
pub(crate) enum RunStop {
    /// The method of this number, the first of these, has no card typing.
    Refused(u16, CardFault),
    /// Something keeps the entry from beginning.
    NotStarted(StartFault),
}

// Verifies all packages of a world as a card does, and runs an entry of the last one in the memory of the card. What a
// run needs of other memory, for its arguments and its text, is taken before. From there on nothing can run out of memory.
fn run_in_card(alloc: Global, world: &World<'_>, run: Bounded<'_>, card: &mut Card<'_>) -> Verdict
    requires lengths { HasLengths (words_of card.old) }
    ensures runs { RunsWorldIn world.now (bounded_request run.entry) (words_of card.new) result }
    ensures kept { IsCardKept (words_of card.old) (words_of card.new) result }
    ensures same { IsSameCard card.old card.new }
{
    let Ok(args) = lent(alloc, &run.run.args) else {
        return Verdict::Memory;
    };
    let Ok(mut text) = room(alloc, world) else {
        return Verdict::Memory;
    };
    match run_verified(world, &run, &args, &mut text, card) {
        Ok(()) => Verdict::Done(text.into_text()),
        Err(stop) => not_run(world, &run, stop, text),
    }
}

// The verdict for a run that does not begin. Its line is written into the room of the text.
#[tactic(auto, using(crate::proofs::Cardings::number_below))]
fn not_run(world: &World<'_>, run: &Bounded<'_>, stop: RunStop, text: Room) -> Verdict
    requires stops { StopsRun world.now (bounded_request run.now) stop }
    requires empty { IsEmpty text }
    requires room { HasRoom text (most_text world.now) }
    ensures { (c : CardWords) → RunsWithMemory world.now (bounded_request run.now) c result }
{
    let mut text = text;
    match stop {
        RunStop::Refused(method, fault) => {
            let _code = world.code(method);
            write_refused_card(&mut text, number_of(world, method), fault);
            Verdict::Refused(text.into_text())
        }
        RunStop::NotStarted(fault) => {
            write_not_started(&mut text, fault);
            Verdict::Malformed(text.into_text())
        }
    }
}

/// Runs an entry that begins, of a world whose methods with code have card typings, in the memory of the card, and gives the
/// text of what comes of it. What it needs of other memory is taken before.
#[tactic(auto, using(crate::proofs::Cardings::number_below))]
pub(crate) fn run_carded(
    alloc: Global,
    world: &World<'_>,
    run: Bounded<'_>,
    card: &mut Card<'_>,
) -> Result<String, AllocError>
    requires lengths { HasLengths (words_of card.old) }
    requires carded { HaveCardTypings world.now }
    requires begins { run_fault world.now (bounded_request run) ≡ None }
    ensures runs { IfOk result
        (λ text. IsRun world.now (bounded_request run.entry) (words_of card.new) (string_bytes text)) }
    ensures kept { OnErr result (words_of card.new ≡ words_of card.old) }
    ensures same { IsSameCard card.old card.new }
{
    let args = lent(alloc, &run.run.args)?;
    let mut text = room(alloc, world)?;
    match run_verified(world, &run, &args, &mut text, card) {
        Ok(()) => Ok(text.into_text()),
        Err(RunStop::Refused(method, _)) => {
            let _code = world.code(method);
            unreachable!()
        }
        Err(RunStop::NotStarted(_)) => unreachable!(),
    }
}

// Verifies all packages, and runs the entry.
fn run_verified(
    world: &World<'_>,
    run: &Bounded<'_>,
    args: &Args<'_>,
    text: &mut Room,
    card: &mut Card<'_>,
) -> Result<(), RunStop>
    requires lengths { HasLengths (words_of card.old) }
    requires handed { args.now ≡ map argument_read run.now.run.now.args.items }
    requires empty { IsEmpty text.old }
    requires room { HasRoom text.old (most_text world.now) }
    ensures runs { MatchResult result
        (λ _. IsRun world.now (bounded_request run.now) (words_of card.new) text.new.text)
        (StopsRun world.now (bounded_request run.now)) }
    ensures kept { OnErr result (words_of card.new ≡ words_of card.old) }
    ensures room { IfErr result (λ _. text.new ≡ text.old) }
    ensures same { IsSameCard card.old card.new }
{
    let mut room = CardRoom::new();
    match accept(world, &mut room) {
        Ok(accepted) => match method_entered(world, run.run.entry) {
            Some(number) => run_entry(
                &accepted,
                run,
                number,
                args,
                text,
                card.ram,
                card.heap,
                card.statics,
            ),
            None => Err(RunStop::NotStarted(StartFault::NoEntry)),
        },
        Err((method, fault)) => Err(RunStop::Refused(method, fault)),
    }
}

// Runs the method of a number, with its static fields in the first words of those for them.
fn run_entry(
    accepted: &Accepted<'_>,
    run: &Bounded<'_>,
    number: u16,
    args: &Args<'_>,
    text: &mut Room,
    ram: &mut [u16],
    heap: &mut [u16],
    statics: &mut [u16],
) -> Result<(), RunStop>
    requires accepted { AreAccepted accepted.now }
    requires entered { method_entered accepted.now run.now.run.now.entry ≡ Some number }
    requires card { HasLengths (card_words ram.old heap.old statics.old) }
    requires handed { args.now ≡ map argument_read run.now.run.now.args.items }
    requires empty { IsEmpty text.old }
    requires room { HasRoom text.old (most_text accepted.now) }
    ensures runs { MatchResult result
        (λ _. IsRun accepted.now (bounded_request run.now) (card_words ram.new heap.new statics.new) text.new.text)
        (StopsRun accepted.now (bounded_request run.now)) }
    ensures kept { OnErr result (card_words ram.new heap.new statics.new ≡ card_words ram.old heap.old statics.old) }
    ensures room { IfErr result (λ _. text.new ≡ text.old) }
{
    let count = field_words(accepted.world());
    let (fields, _others) = statics.split_at_mut(count);
    match start(accepted, number, args, ram, heap, fields) {
        Ok(machine) => {
            go_on(accepted, run, number, machine, text, ram, heap, fields);
            Ok(())
        }
        Err(fault) => Err(RunStop::NotStarted(fault)),
    }
}

/// How many words the static fields of a world take: not more than a card has for them.
pub(crate) fn field_words(world: &World<'_>) -> usize
    ensures fields { result ≡ static_cells world.now }
    ensures most { result ≤ 32768 }
{
    let _limits = world.classes();
    sizes(world).statics
}

// Takes the steps of a run that has begun, and writes what comes of it.
fn go_on(
    accepted: &Accepted<'_>,
    run: &Bounded<'_>,
    number: u16,
    machine: Machine,
    text: &mut Room,
    ram: &mut [u16],
    heap: &mut [u16],
    statics: &mut [u16],
)
    requires entered { method_entered accepted.now run.now.run.now.entry ≡ Some number }
    requires begun { IsBegun accepted.now number (bounded_request run.now).args machine ram.old heap.old statics.old }
    requires run { IsRunOf accepted.now machine ram.old heap.old statics.old }
    requires empty { IsEmpty text.old }
    requires room { HasRoom text.old (most_text accepted.now) }
    ensures { IsLeft accepted.now (bounded_request run.now) (card_words ram.new heap.new statics.new) text.new.text }
{
    let mut machine = machine;
    let ending = machine.run(accepted, ram, heap, statics, run.steps);
    let world = accepted.world();
    texts_are_alike(world);
    let left = LentRun {
        machine,
        accepted,
        heap,
        statics,
    };
    write_run(text, world, &left, Ending::Plain(ending));
}

/// The most arguments that the compact header of a method can count.
pub const MOST_ARGS: usize = 15;

/// The arguments of a method of so many shorts, or the first reason why it does not start.
pub fn shorts(args: &[OwnedArg], wanted: u8) -> Result<ArrayVec<i16, MOST_ARGS>, StartFault>
    requires { wanted ≤ 15 }
    ensures found { IfOk result (λ v. AreShorts (map argument_read args.now) wanted v.items) }
    ensures fault { IfErr result (λ f. RefusesStart (map argument_read args.now) wanted f) }
{
    if args.len() != usize::from(wanted) {
        return Err(StartFault::ArgCount {
            said: args.len(),
            wanted: u16::from(wanted),
        });
    }
    let mut shorts = ArrayVec::new();
    for (n, arg) in args.iter().enumerate() {
        match short(arg) {
            Some(value) => shorts.push(value),
            None => return Err(StartFault::ArgKind(n as u16)),
        }
    }
    Ok(shorts)
}

fn short(arg: &OwnedArg) -> Option<i16>
    ensures found { IfSome result (λ value. IsShort (argument_read arg.now) value) }
    ensures none { IfNone result ((value : ℤ) → IsShort (argument_read arg.now) value → ⊥) }
{
    match arg {
        OwnedArg::Number(number) => i16::try_from(*number).ok(),
        OwnedArg::Null | OwnedArg::Bytes(_) => None,
    }
}
