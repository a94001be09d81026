ghost use Rattle.std.specs.Prelude.{◌∷◌, true, false, IfOk, IfSome, IfNone};
ghost use Rattle.cap_files.specs.WordsLeft.{words_left};
ghost use Rattle.cap_text.specs.Request.{IsRequest, IsUsage, NoneSuch, OneRequest, request_of};

use crate::generate::Generate;
use crate::operands::{AtEntry, OfDir, OfDirs, OutOfDir, OutOfDirs};
use crate::probe::Probe;
use crate::run::Run;
use cap_files::{Words, WordsIter};
use std::alloc::{AllocError, Global};

/// A command with its operands.
#[derive(Drop)]
pub enum Command<'a> {
    Probe(Probe<'a>),
    Show(OfDir<'a>),
    List(OfDir<'a>),
    Asm(OutOfDir<'a>),
    Check(OfDirs<'a>),
    Verify(OfDirs<'a>),
    Defend(Run<'a>),
    Run(Run<'a>),
    Transform(OutOfDirs<'a>),
    Share(OutOfDirs<'a>),
    Trial(Run<'a>),
    Generate(Generate<'a>),
    Bound(AtEntry<'a>),
    Pack(OutOfDir<'a>),
    Install(OfDirs<'a>),
}

/// The command that the words spell, where they spell one. The arguments of a run take memory.
#[tactic(auto, using(crate::proofs::Requests::one_request, crate::proofs::Requests::none_at_all))]
pub fn read_command<'a>(alloc: Global, words: &'a Words) -> Result<Option<Command<'a>>, AllocError>
    ensures found { IfOk result (λ o. IfSome o (λ c. IsRequest words.now (request_of c))) }
    ensures one { OneRequest words.now }
    ensures usage { IfOk result (λ o. IfNone o (IsUsage words.now)) }
{
    let mut operands = words.iter();
    let Some(name) = operands.next() else {
        return Ok(None);
    };
    if let Some(command) = read_with_arguments(alloc, name, operands)? {
        return Ok(Some(command));
    }
    Ok(read_without(name, operands))
}

// A command that takes arguments of a method, by its name and the words after it.
fn read_with_arguments<'a>(
    alloc: Global,
    name: &str,
    operands: WordsIter<'a>,
) -> Result<Option<Command<'a>>, AllocError>
    ensures found { IfOk result (λ o. IfSome o (λ c. IsRequest (name.now ∷ words_left operands.entry) (request_of c))) }
    ensures none { IfOk result (λ o. IfNone o (NoneSuch true (name.now ∷ words_left operands.entry))) }
{
    if name == "probe" {
        return Ok(Probe::read(alloc, operands)?.map(Command::Probe));
    }
    if name == "defend" {
        return Ok(Run::read(alloc, operands)?.map(Command::Defend));
    }
    if name == "run" {
        return Ok(Run::read(alloc, operands)?.map(Command::Run));
    }
    if name == "trial" {
        return Ok(Run::read(alloc, operands)?.map(Command::Trial));
    }
    Ok(None)
}

// Any other command, by its name and the words after it.
fn read_without<'a>(name: &str, operands: WordsIter<'a>) -> Option<Command<'a>>
    ensures found { IfSome result (λ c. IsRequest (name.now ∷ words_left operands.entry) (request_of c)) }
    ensures none { IfNone result (NoneSuch false (name.now ∷ words_left operands.entry)) }
{
    if name == "show" {
        return OfDir::read(operands).map(Command::Show);
    }
    if name == "list" {
        return OfDir::read(operands).map(Command::List);
    }
    if name == "check" {
        return OfDirs::read(operands).map(Command::Check);
    }
    if name == "verify" {
        return OfDirs::read(operands).map(Command::Verify);
    }
    if name == "install" {
        return OfDirs::read(operands).map(Command::Install);
    }
    if name == "asm" {
        return OutOfDir::read(operands).map(Command::Asm);
    }
    if name == "pack" {
        return OutOfDir::read(operands).map(Command::Pack);
    }
    if name == "transform" {
        return OutOfDirs::read(operands).map(Command::Transform);
    }
    if name == "share" {
        return OutOfDirs::read(operands).map(Command::Share);
    }
    if name == "bound" {
        return AtEntry::read(operands).map(Command::Bound);
    }
    if name == "gen" {
        return Generate::read(operands).map(Command::Generate);
    }
    None
}
