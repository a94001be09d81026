ghost use Rattle.std.specs.Prelude.{◌≡◌, length};
ghost use Rattle.cap_text.specs.Request.{request_of};
ghost use Rattle.capcheck_core.specs.Answers.{Answers, IsVerdict};
ghost use Rattle.capcheck_core.specs.Completeness.{Completes};
ghost use Rattle.capcheck_core.specs.Headline.{Promises};
ghost use Rattle.capcheck_core.specs.LentCard.{IsSameCard, words_of};
ghost use Rattle.capcheck_core.specs.Outside.{outside, card_words};
ghost use Rattle.capcheck_core.specs.Report.{IsReported, seen};
ghost use Rattle.capcheck_core.specs.Run.{HasLengths};
ghost use Rattle.capcheck_core.specs.declared.verdict.Verdict.{Verdict};

use crate::assembling::AsmStep;
use crate::bounding::BoundStep;
use crate::carding::{Card, VerifyStep};
use crate::defending::DefendStep;
use crate::generating::generate_and_run;
use crate::load::Source;
use crate::package_step::{ListStep, ShowStep, over_package};
use crate::packing::PackStep;
use crate::probe::probe;
use crate::running::RunStep;
use crate::sharing::ShareStep;
use crate::transforming::TransformStep;
use crate::trying::TrialStep;
use crate::typing::CheckStep;
use crate::verdict::{Verdict, report};
use crate::world::{over_folders, over_places};
use cap_files::{Folder, Sink, Words};
use cap_text::{Command, read_command};
use std::alloc::Global;

/// Runs the command that the words spell over the folders, puts its text and answers its status.
/// The three slices are the memory of a card.
pub fn capcheck<F: Folder, K: Sink>(
    alloc: Global,
    words: &Words,
    folder: &mut F,
    out: &mut K,
    ram: &mut [u16],
    heap: &mut [u16],
    statics: &mut [u16],
) -> u8
    requires ram { length ram.old ≡ 32832 }
    requires heap { length heap.old ≡ 45056 }
    requires statics { length statics.old ≡ 32768 }
    ensures promised { Promises words.now
        (outside (F.folders folder.old) (card_words ram.old heap.old statics.old))
        (outside (F.folders folder.new) (card_words ram.new heap.new statics.new))
        (seen (K.received out.old) (K.faults out.old)) (seen (K.received out.new) (K.faults out.new)) result }
    ensures answered { (verdict : Verdict)
        × IsVerdict words.now
        (outside (F.folders folder.old) (card_words ram.old heap.old statics.old))
        (outside (F.folders folder.new) (card_words ram.new heap.new statics.new)) verdict
        × IsReported verdict
        (seen (K.received out.old) (K.faults out.old)) (seen (K.received out.new) (K.faults out.new)) result }
    ensures complete { Completes words.now (F.folders folder.old) (F.folders folder.new)
        (seen (K.received out.old) (K.faults out.old)) (seen (K.received out.new) (K.faults out.new)) result }
{
    let mut card = Card { ram, heap, statics };
    in_card(alloc, words, folder, out, &mut card)
}

// The same in the memory of a card that is lent as one.
fn in_card<F: Folder, K: Sink>(
    alloc: Global,
    words: &Words,
    folder: &mut F,
    out: &mut K,
    card: &mut Card<'_>,
) -> u8
    requires { HasLengths (words_of card.old) }
    ensures promised { Promises words.now
        (outside (F.folders folder.old) (words_of card.old))
        (outside (F.folders folder.new) (words_of card.new))
        (seen (K.received out.old) (K.faults out.old)) (seen (K.received out.new) (K.faults out.new)) result }
    ensures answered { (verdict : Verdict)
        × IsVerdict words.now
        (outside (F.folders folder.old) (words_of card.old))
        (outside (F.folders folder.new) (words_of card.new)) verdict
        × IsReported verdict
        (seen (K.received out.old) (K.faults out.old)) (seen (K.received out.new) (K.faults out.new)) result }
    ensures complete { Completes words.now (F.folders folder.old) (F.folders folder.new)
        (seen (K.received out.old) (K.faults out.old)) (seen (K.received out.new) (K.faults out.new)) result }
    ensures same { IsSameCard card.old card.new }
{
    let verdict = answer(alloc, words, folder, card);
    report(out, &verdict)
}

// What the command that the words spell decides.
#[tactic(auto, using(crate::proofs::Verdicts::asked, crate::proofs::Verdicts::without_memory))]
fn answer<F: Folder>(alloc: Global, words: &Words, folder: &mut F, card: &mut Card<'_>) -> Verdict
    requires { HasLengths (words_of card.old) }
    ensures is { IsVerdict words.now
        (outside (F.folders folder.old) (words_of card.old))
        (outside (F.folders folder.new) (words_of card.new)) result }
    ensures same { IsSameCard card.old card.new }
{
    match read_command(alloc, words) {
        Ok(Some(command)) => perform(alloc, &command, folder, card),
        Ok(None) => Verdict::Usage,
        Err(_) => Verdict::Memory,
    }
}

// What a command decides.
fn perform<F: Folder>(
    alloc: Global,
    command: &Command<'_>,
    folder: &mut F,
    card: &mut Card<'_>,
) -> Verdict
    requires { HasLengths (words_of card.old) }
    ensures answers { Answers (request_of command.now)
        (outside (F.folders folder.old) (words_of card.old))
        (outside (F.folders folder.new) (words_of card.new)) result }
    ensures same { IsSameCard card.old card.new }
{
    match command {
        Command::Probe(operands) => probe(alloc, folder, operands),
        Command::Show(of) => over_package(alloc, &ShowStep, of.dir, folder),
        Command::List(of) => over_package(alloc, &ListStep, of.dir, folder),
        Command::Asm(asked) => over_package(alloc, &AsmStep { asked }, asked.dir, folder),
        Command::Check(of) => over_folders(alloc, &CheckStep, of.dirs, folder, card),
        Command::Verify(of) => over_folders(alloc, &VerifyStep, of.dirs, folder, card),
        Command::Defend(run) => over_folders(alloc, &DefendStep { run }, run.dirs, folder, card),
        Command::Run(run) => over_folders(alloc, &RunStep { run }, run.dirs, folder, card),
        Command::Transform(asked) => {
            over_folders(alloc, &TransformStep { asked }, asked.dirs, folder, card)
        }
        Command::Share(asked) => {
            over_folders(alloc, &ShareStep { asked }, asked.dirs, folder, card)
        }
        Command::Trial(run) => over_folders(alloc, &TrialStep { run }, run.dirs, folder, card),
        Command::Generate(operands) => generate_and_run(alloc, operands, folder, card),
        Command::Bound(at) => over_folders(alloc, &BoundStep { at }, at.dirs, folder, card),
        Command::Pack(asked) => over_package(alloc, &PackStep { asked }, asked.dir, folder),
        Command::Install(of) => {
            over_places(alloc, &VerifyStep, Source::LoadFile, of.dirs, folder, card)
        }
    }
}
