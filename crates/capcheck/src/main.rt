//! The program: it takes the words of its command line, the machine's folders and standard output and
//! the memory of a card, runs the command and ends with its status. It stands on `cap_files` and
//! `capcheck_core`.
#![tactic(auto)]

ghost use Rattle.std.specs.Prelude.{◌≡◌, ◌≤◌, map, drop, length, string_bytes, All, IfOk, MatchResult};
ghost use Rattle.std.specs.Vec.Iter.{into_iter_items};
ghost use Rattle.std.specs.IoError.{error_kind};
ghost use Rattle.capcheck.specs.declared.NoStart.TheVariants.{Memory};
ghost use Rattle.capcheck.specs.Start.{MayEndWith, in_32_bits, longest_from, start_by, status_of_no_start};

use cap_files::{DirFolder, OutSink, Words};
use capcheck_core::capcheck;
use std::alloc::{AllocError, Global};
use std::env::{self, Args};
use std::io;
use std::process::ExitCode;

/// The words of the card's three memories.
const RAM: usize = 32_832;

const HEAP: usize = 45_056;

const STATICS: usize = 32_768;

/// Why no command began.
#[derive(Clone, Copy)]
enum NoStart {
    /// There was no memory.
    Memory,
    /// The words could not be taken, as where one is not UTF-8.
    Words,
}

impl NoStart {
    fn status(self) -> u8
        ensures { result ≡ status_of_no_start self }
    {
        match self {
            NoStart::Memory => 6,
            NoStart::Words => 9,
        }
    }
}

impl From<AllocError> for NoStart {
    ghost from_gives = { λ _ end. end ≡ Memory };

    fn from(_: AllocError) -> NoStart {
        NoStart::Memory
    }
}

fn main(rt: HostRuntime) -> ExitCode {
    ExitCode::from(exit_status(run(&rt)))
}

/// The status that the program ends with: the command's, or that of what kept it from beginning.
fn exit_status(ended: Result<u8, NoStart>) -> u8
    ensures { MatchResult ended (λ status. result ≡ status) (λ end. result ≡ status_of_no_start end) }
{
    match ended {
        Ok(status) => status,
        Err(end) => end.status(),
    }
}

fn run(rt: &HostRuntime) -> Result<u8, NoStart> {
    run_words(rt, &words(rt)?)
}

/// Runs the command that the words spell, over the machine's folders and standard output.
fn run_words(rt: &HostRuntime, words: &Words) -> Result<u8, NoStart>
    ensures { IfOk result (MayEndWith words.now) }
{
    let alloc = rt.alloc();
    let mut folder = DirFolder::new(rt, alloc, longest(words))?;
    let mut out = OutSink::new(rt.stdout());
    let mut ram = vec![in alloc; 0u16; RAM]?;
    let mut heap = vec![in alloc; 0u16; HEAP]?;
    let mut statics = vec![in alloc; 0u16; STATICS]?;
    Ok(capcheck(
        alloc,
        words,
        &mut folder,
        &mut out,
        &mut ram,
        &mut heap,
        &mut statics,
    ))
}

fn words(rt: &HostRuntime) -> Result<Words, NoStart> {
    let arguments = env::args(rt).map_err(no_words)?;
    Ok(after_name(rt.alloc(), arguments)?)
}

/// The words after the program's name, which comes first.
fn after_name(alloc: Global, arguments: Args) -> Result<Words, AllocError>
    ensures { IfOk result (λ w. w ≡ map string_bytes (drop 1 (into_iter_items arguments))) }
{
    let mut left = arguments;
    let _name = left.next();
    let mut words = Words::new(alloc);
    'words: for word in left {
        words.push(word.as_str())?;
    }
    Ok(words)
}

fn no_words(error: io::Error) -> NoStart
    ensures { result ≡ start_by (error_kind error) }
{
    match error.kind() {
        io::ErrorKind::OutOfMemory => NoStart::Memory,
        _ => NoStart::Words,
    }
}

/// The length of the longest word in bytes.
fn longest(words: &Words) -> u32
    ensures value { result ≡ longest_from 0 words.now }
    ensures longest { All (λ word. in_32_bits (length word) ≤ result) words.now }
{
    let mut longest = 0;
    'words: for word in words.iter() {
        longest = longest.max(u32::try_from(word.len()).unwrap_or(u32::MAX));
    }
    longest
}
