ghost use Rattle.std.specs.Prelude.{length};

use crate::fitting::{are_items, are_ranges, size};
use cap_bytes::View;
use jc_decode::{Insn, Item, Laid, LaidHandler, Range, Sequence, Symbols, decode};
use std::alloc::{AllocError, Global};
use std::test::*;
use xf_layout::{LayEnd, lay};

/// Some of the items of a code.
#[derive(Clone, Copy)]
enum Piece {
    /// So many `nop`.
    Nops(u16),
    /// `sload` of a register.
    Load(u8),
    /// `goto_w` to a label.
    Goto(u16),
    Label(u16),
    /// The switch with which the source begins, to these labels, the default's first.
    Switch(&'static [u16]),
}

/// The code in which the switches stand: an slookupswitch of the keys 3 and 5.
static SOURCE: [u8; 13] = [117, 0, 0, 0, 2, 0, 3, 0, 0, 0, 5, 0, 0];

fn nop() -> Insn {
    Insn {
        op: 0,
        x: 0,
        y: 0,
        z: 0,
        len: 1,
    }
}

fn load(register: u8) -> Insn {
    Insn {
        op: 22,
        x: i32::from(register),
        y: 0,
        z: 0,
        len: 2,
    }
}

/// Appends the items of a piece; none for a switch that the source has not.
fn append(alloc: Global, items: &mut Vec<Item>, piece: Piece) -> Result<(), AllocError> {
    match piece {
        Piece::Nops(count) => {
            for _n in 0..count {
                items.push(Item::Plain(nop()))?;
            }
        }
        Piece::Load(register) => items.push(Item::Plain(load(register)))?,
        Piece::Goto(label) => items.push(Item::Branch { op: 168, label })?,
        Piece::Label(label) => items.push(Item::Label(label))?,
        Piece::Switch(labels) => {
            if let Ok(insn) = decode(View::of(&SOURCE), 0) {
                let labels = Sequence::of(Vec::from_slice(alloc, labels)?);
                items.push(Item::Switch {
                    insn,
                    at: 0,
                    labels,
                })?;
            }
        }
    }
    Ok(())
}

fn items(alloc: Global, pieces: &[Piece]) -> Result<Vec<Item>, AllocError> {
    let mut items = Vec::new(alloc);
    for piece in pieces {
        append(alloc, &mut items, *piece)?;
    }
    Ok(items)
}

fn symbols(alloc: Global, pieces: &[Piece], ranges: &[Range]) -> Result<Symbols, AllocError> {
    Ok(Symbols {
        items: Sequence::of(items(alloc, pieces)?),
        ranges: Sequence::of(Vec::from_slice(alloc, ranges)?),
        max_stack: 3,
        nargs: 1,
        max_locals: 2,
    })
}

/// What is laid, if the symbols may be.
#[tactic(auto, unfolding(crate::specs::Fitting::Covers, crate::specs::Fitting::Suits))]
fn laid(alloc: Global, symbols: &Symbols) -> Option<Laid> {
    let source = View::of(&SOURCE);
    let items = symbols.items.as_slice();
    if !are_items(source, items) || size(items).is_none() {
        return None;
    }
    if !are_ranges(items, symbols.ranges.as_slice()) {
        return None;
    }
    lay(alloc, source, symbols).ok()
}

/// Bytes that stand at a place.
type Bytes = (usize, &'static [u8]);

/// The pieces of a code, its length, and bytes of it.
type Code = (&'static [Piece], usize, &'static [Bytes]);

static CODES: [Code; 9] = [
    // a jump 127 bytes ahead, and one 128 bytes ahead, which is wide and leads 129 bytes then
    (
        &[
            Piece::Goto(1),
            Piece::Nops(125),
            Piece::Label(1),
            Piece::Nops(1),
        ],
        128,
        &[(0, &[112, 127, 0])],
    ),
    (
        &[
            Piece::Goto(1),
            Piece::Nops(126),
            Piece::Label(1),
            Piece::Nops(1),
        ],
        130,
        &[(0, &[168, 0, 129, 0])],
    ),
    // a jump 128 bytes back, and one 129 bytes back
    (
        &[Piece::Label(1), Piece::Nops(128), Piece::Goto(1)],
        130,
        &[(127, &[0, 112, 128])],
    ),
    (
        &[Piece::Label(1), Piece::Nops(129), Piece::Goto(1)],
        132,
        &[(128, &[0, 168, 255, 127])],
    ),
    // a jump over another, which has to be wide, so that the first has to be too
    (
        &[
            Piece::Goto(1),
            Piece::Goto(2),
            Piece::Nops(123),
            Piece::Label(1),
            Piece::Nops(5),
            Piece::Label(2),
            Piece::Nops(1),
        ],
        135,
        &[(0, &[168, 0, 129, 168, 0, 131, 0])],
    ),
    // the same where the second is short
    (
        &[
            Piece::Goto(1),
            Piece::Goto(2),
            Piece::Nops(123),
            Piece::Label(1),
            Piece::Nops(2),
            Piece::Label(2),
            Piece::Nops(1),
        ],
        130,
        &[(0, &[112, 127, 112, 127, 0])],
    ),
    // a switch to the end, to itself and to one place before it
    (
        &[
            Piece::Label(7),
            Piece::Nops(1),
            Piece::Label(4),
            Piece::Switch(&[9, 4, 7]),
            Piece::Nops(2),
            Piece::Label(9),
            Piece::Nops(1),
        ],
        17,
        &[(
            0,
            &[0, 117, 0, 15, 0, 2, 0, 3, 0, 0, 0, 5, 255, 255, 0, 0, 0],
        )],
    ),
    // the four first registers, and the next
    (
        &[
            Piece::Load(0),
            Piece::Load(1),
            Piece::Load(2),
            Piece::Load(3),
            Piece::Load(4),
        ],
        6,
        &[(0, &[28, 29, 30, 31, 22, 4])],
    ),
    (&[Piece::Label(1)], 0, &[]),
];

fn has_bytes(code: &[u8], (at, bytes): Bytes) -> bool {
    code.get(at..).is_some_and(|rest| rest.starts_with(bytes))
}

fn is_code(laid: &Laid, length: usize, bytes: &[Bytes]) -> bool {
    let code = laid.code.as_slice();
    code.len() == length && bytes.iter().all(|there| has_bytes(code, *there))
}

fn is_laid(alloc: Global, (pieces, length, bytes): Code) -> bool {
    match symbols(alloc, pieces, &[]) {
        Ok(symbols) => match laid(alloc, &symbols) {
            Some(laid) => is_code(&laid, length, bytes),
            None => false,
        },
        Err(_) => false,
    }
}

/// The number of the first code that is laid in another way, or the number of all.
fn first_wrong(alloc: Global) -> usize {
    for (n, code) in CODES.iter().enumerate() {
        if !is_laid(alloc, *code) {
            return n;
        }
    }
    CODES.len()
}

#[test]
fn jumps_and_switches_are_laid(rt: HostRuntime) {
    assert_eq!(rt; first_wrong(rt.alloc()), CODES.len());
}

/// Two loads with labels before, between and after them, and a return.
static COVERED: [Piece; 6] = [
    Piece::Label(1),
    Piece::Load(9),
    Piece::Label(2),
    Piece::Load(3),
    Piece::Label(3),
    Piece::Nops(1),
];

/// A range over both loads, one over the second with another entry, and one that covers nothing.
static RANGES: [Range; 3] = [
    Range {
        from: 1,
        to: 3,
        entry: 3,
        pool: 7,
    },
    Range {
        from: 2,
        to: 3,
        entry: 1,
        pool: 0,
    },
    Range {
        from: 2,
        to: 2,
        entry: 3,
        pool: 1,
    },
];

/// The start, the length, the entry and the caught class of each handler.
static HANDLERS: [(u16, u16, u16, u16); 3] = [(0, 3, 3, 7), (2, 1, 0, 0), (2, 0, 3, 1)];

fn is_handler(handler: &LaidHandler, expected: &(u16, u16, u16, u16)) -> bool {
    handler.start == expected.0
        && handler.length == expected.1
        && handler.entry == expected.2
        && handler.pool == expected.3
}

/// Whether each range becomes a handler, one that covers nothing one of no length, and the numbers stay.
fn are_handlers(laid: &Laid) -> bool {
    let handlers = laid.handlers.as_slice();
    handlers.len() == HANDLERS.len()
        && handlers
            .iter()
            .zip(HANDLERS.iter())
            .all(|(handler, expected)| is_handler(handler, expected))
        && laid.max_stack == 3
        && laid.nargs == 1
        && laid.max_locals == 2
}

fn become_handlers(alloc: Global) -> bool {
    match symbols(alloc, &COVERED, &RANGES) {
        Ok(symbols) => match laid(alloc, &symbols) {
            Some(laid) => are_handlers(&laid),
            None => false,
        },
        Err(_) => false,
    }
}

#[test]
fn ranges_become_handlers(rt: HostRuntime) {
    assert!(rt; become_handlers(rt.alloc()));
}

/// Code that is too long by one byte in its shortest forms, and what is told of it.
fn is_too_long(alloc: Global) -> bool {
    match symbols(
        alloc,
        &[Piece::Nops(32766), Piece::Load(3), Piece::Load(9)],
        &[],
    ) {
        Ok(symbols) => tells_length(alloc, &symbols, 32770),
        Err(_) => false,
    }
}

/// Whether the code of symbols is too long, and has this plain size.
#[tactic(auto, unfolding(crate::specs::Fitting::Covers, crate::specs::Fitting::Suits))]
fn tells_length(alloc: Global, symbols: &Symbols, expected: u32) -> bool {
    let source = View::of(&SOURCE);
    are_items(source, symbols.items.as_slice())
        && symbols.ranges.as_slice().is_empty()
        && size(symbols.items.as_slice()).is_some()
        && matches!(lay(alloc, source, symbols), Err(LayEnd::MethodLong(long)) if long == expected)
}

#[test]
fn code_is_too_long(rt: HostRuntime) {
    assert!(rt; is_too_long(rt.alloc()));
}
