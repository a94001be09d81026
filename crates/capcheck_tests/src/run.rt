ghost use Rattle.std.specs.Prelude.{◌≡◌, IfOk, length, vec_len};

use cap_files::{Folder, MemFolder, MemSink, Sink, SureFolder, SureSink, Words};
use capcheck_core::capcheck;
use std::alloc::{AllocError, Global};

/// Words of a memory, from a place on.
pub(crate) type Piece = (usize, &'static [u16]);

/// Words of the three memories of the card.
pub(crate) type Pieces = (Piece, Piece, Piece);

/// No words are looked at.
const NO_WORDS: Pieces = ((0, &[]), (0, &[]), (0, &[]));

/// What a command leaves: its text and its status, and words of the three memories of the card.
pub(crate) type Left<'a> = (&'a str, u8, Pieces);

/// A memory of the card, of so many words, that held something else.
fn memory(alloc: Global, words: usize) -> Result<Vec<u16>, AllocError>
    ensures { IfOk result (λ v. vec_len v ≡ words) }
{
    vec![in alloc; 0xA55Au16; words]
}

/// Whether words stand in a memory from their place on.
fn has(memory: &[u16], piece: Piece) -> bool {
    let (from, words) = piece;
    words
        .iter()
        .enumerate()
        .all(|(n, word)| memory.get(from.wrapping_add(n)) == Some(word))
}

fn words_of(alloc: Global, line: &str) -> Result<Words, AllocError> {
    let mut words = Words::new(alloc);
    for word in line.split(' ') {
        words.push(word)?;
    }
    Ok(words)
}

/// A status, and whether words stand in the memories that were looked at.
type End = (u8, bool);

fn over_statics<F: Folder, K: Sink>(
    alloc: Global,
    words: &Words,
    folder: &mut F,
    out: &mut K,
    ram: &mut [u16],
    heap: &mut [u16],
    left: Piece,
) -> Result<End, AllocError>
    requires ram { length ram.old ≡ 32832 }
    requires heap { length heap.old ≡ 45056 }
{
    let mut statics = memory(alloc, 32_768)?;
    let status = capcheck(alloc, words, folder, out, ram, heap, &mut statics);
    Ok((status, has(&statics, left)))
}

fn over_heap<F: Folder, K: Sink>(
    alloc: Global,
    words: &Words,
    folder: &mut F,
    out: &mut K,
    ram: &mut [u16],
    left: &Pieces,
) -> Result<End, AllocError>
    requires { length ram.old ≡ 32832 }
{
    let mut heap = memory(alloc, 45_056)?;
    let (status, kept) = over_statics(alloc, words, folder, out, ram, &mut heap, left.2)?;
    Ok((status, has(&heap, left.1) & kept))
}

fn over_ram<F: Folder, K: Sink>(
    alloc: Global,
    words: &Words,
    folder: &mut F,
    out: &mut K,
    left: &Pieces,
) -> Result<End, AllocError> {
    let mut ram = memory(alloc, 32_832)?;
    let (status, kept) = over_heap(alloc, words, folder, out, &mut ram, left)?;
    Ok((status, has(&ram, left.0) & kept))
}

/// Runs a command, its words parted by single spaces, on a card of its own.
fn run_over<F: Folder, K: Sink>(
    alloc: Global,
    line: &str,
    folder: &mut F,
    out: &mut K,
    left: &Pieces,
) -> Result<End, AllocError> {
    let words = words_of(alloc, line)?;
    over_ram(alloc, &words, folder, out, left)
}

/// Whether a command over a folder leaves this.
pub(crate) fn leaves(
    alloc: Global,
    line: &str,
    folder: &mut SureFolder,
    left: &Left<'_>,
) -> Result<bool, AllocError> {
    let (text, status, pieces) = left;
    let mut out = SureSink::new(alloc, 400)?;
    let (answer, kept) = run_over(alloc, line, folder, &mut out, pieces)?;
    Ok(kept & (answer == *status) & (out.received() == text.as_bytes()))
}

/// Whether a command over a folder gives this text and this status.
pub(crate) fn gives(
    alloc: Global,
    line: &str,
    folder: &mut SureFolder,
    text: &str,
    status: u8,
) -> Result<bool, AllocError> {
    leaves(alloc, line, folder, &(text, status, NO_WORDS))
}

/// The status and the text of a command over a folder.
pub(crate) fn said(
    alloc: Global,
    line: &str,
    folder: &mut SureFolder,
) -> Result<(u8, Vec<u8>), AllocError> {
    let mut out = SureSink::new(alloc, 400)?;
    let (status, _) = run_over(alloc, line, folder, &mut out, &NO_WORDS)?;
    let text = Vec::from_slice(alloc, out.received())?;
    Ok((status, text))
}

/// A command; which of its loads fails, which of its puts, and after how many bytes; the text that is received,
/// and the status.
pub(crate) type Failing = (&'static str, u32, u32, u32, &'static str, u8);

/// Whether a command over a folder gives this where devices fail so.
pub(crate) fn gives_failing(
    alloc: Global,
    folder: &mut MemFolder,
    failing: &Failing,
) -> Result<bool, AllocError> {
    let (line, load, put, keep, text, status) = failing;
    let mut out = MemSink::new(alloc, 1000)?;
    let listed = folder.fail_load(*load) & out.fail_put(*put, *keep);
    let (answer, _) = run_over(alloc, line, folder, &mut out, &NO_WORDS)?;
    Ok(listed & (answer == *status) & (out.received() == text.as_bytes()))
}
