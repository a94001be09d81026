ghost use Rattle.std.specs.Prelude.{◌≡◌, ◌≤◌, ◌<◌, ◌+◌, ◌++◌, length, OnOk, ◌*◌, take, OnErr};
ghost use Rattle.cap_laying.specs.HandlerTable.{AreInside, IsInside, entries_at, handler_entry, entry_bytes, is_in, stops, table_bytes};
ghost use Rattle.cap_laying.specs.MethodInfo.{AreSmallEntries, IsSmallEntry};
ghost use Rattle.cap_laying.specs.HeaderBytes.{header_bytes, header_size, is_compact};
ghost use Rattle.cap_laying.specs.Member.{numbers_of};
ghost use Rattle.cap_laying.specs.Catches.{catch_places};
ghost use Rattle.cap_laying.specs.Telling.{IsFew, AppendsDistances};

use crate::location_component::ToldPlaces;
use jc_decode::{Laid, LaidHandler};
use std::alloc::AllocError;

/// Whether the range of a handler lies in that of another.
fn is_in(handler: LaidHandler, outer: LaidHandler) -> bool
    ensures { result ≡ is_in handler outer }
{
    let end = u32::from(handler.start) + u32::from(handler.length);
    outer.start <= handler.start && end <= u32::from(outer.start) + u32::from(outer.length)
}

/// The stop bit of a handler, by the later ones of its method.
fn stops(handler: LaidHandler, later: &[LaidHandler]) -> bool
    ensures { result ≡ stops handler later.now }
{
    'others: for outer in later {
        if is_in(handler, *outer) {
            return false;
        }
    }
    true
}

/// Appends the entries of a method's handlers, whose code begins at an offset of the info. Each handler lies
/// in the code, and the code in an info of 65,535 bytes. Where there is no memory some of them may be
/// appended.
pub(crate) fn put_entries(
    start: u16,
    size: usize,
    handlers: &[LaidHandler],
    out: &mut Vec<u8>,
) -> Result<(), AllocError>
    requires inside { AreInside size handlers.now }
    requires end { start + size ≤ 65535 }
    ensures bytes { OnOk result (out.new.items ≡ out.old.items ++ table_bytes (entries_at start handlers.now)) }
    ensures small { OnOk result (AreSmallEntries (entries_at start handlers.now)) }
{
    let mut rest = handlers;
    'handlers: while let Some((handler, later)) = rest.split_first() {
        put_entry(start, size, *handler, stops(*handler, later), out)?;
        rest = later;
    }
    Ok(())
}

/// Appends an entry.
#[tactic(auto, using(crate::proofs::Appending::steps), unfolding(crate::specs::HandlerTable::entry_bytes))]
fn put_entry(
    start: u16,
    size: usize,
    handler: LaidHandler,
    stop: bool,
    out: &mut Vec<u8>,
) -> Result<(), AllocError>
    requires inside { IsInside size handler }
    requires end { start + size ≤ 65535 }
    ensures bytes { OnOk result (out.new.items ≡ out.old.items ++ entry_bytes (handler_entry start stop handler)) }
    ensures small { OnOk result (IsSmallEntry (handler_entry start stop handler)) }
{
    let active = if stop {
        0x8000 + handler.length
    } else {
        handler.length
    };
    out.extend_from_slice(&(start + handler.start).to_be_bytes())?;
    out.extend_from_slice(&active.to_be_bytes())?;
    out.extend_from_slice(&(start + handler.entry).to_be_bytes())?;
    out.extend_from_slice(&handler.pool.to_be_bytes())
}

/// Whether the numbers of a header fit a compact one.
pub(crate) fn is_compact(laid: &Laid) -> bool
    ensures { result ≡ is_compact (numbers_of laid.now) }
{
    laid.max_stack <= 15 && laid.nargs <= 15 && laid.max_locals <= 15
}

/// How many bytes the header of code has.
pub(crate) fn header_size(laid: &Laid) -> u16
    ensures { result ≡ header_size (numbers_of laid.now) }
{
    if is_compact(laid) { 2 } else { 4 }
}

/// Appends the header of code: compact where its numbers fit. Where there is no memory some of it may be
/// appended.
#[tactic(auto, unfolding(crate::specs::HeaderBytes::header_bytes))]
pub(crate) fn put_header(laid: &Laid, out: &mut Vec<u8>) -> Result<(), AllocError>
    ensures { OnOk result (out.new.items ≡ out.old.items ++ header_bytes (numbers_of laid.now)) }
{
    let (max_stack, nargs, max_locals) = (laid.max_stack, laid.nargs, laid.max_locals);
    if is_compact(laid) {
        out.extend_from_slice(&[max_stack, 16 * nargs + max_locals])
    } else {
        out.extend_from_slice(&[0x80, max_stack, nargs, max_locals])
    }
}

/// Tells the places of the pool numbers of caught classes in the entries of handlers, the first of which stands
/// at an offset of the info of the Method component. Where there is no memory some of them may be told.
#[tactic(auto, using(crate::proofs::Tellings::tells_none, crate::proofs::Tellings::begun_more, crate::proofs::Tellings::begun_then))]
pub fn tell_catches(
    start: u16,
    handlers: &[LaidHandler],
    told: &mut ToldPlaces,
) -> Result<(), AllocError>
    requires end { start + 8 * length handlers.now ≤ 65535 }
    requires order { told.old.last ≤ start }
    requires few { IsFew told.old }
    ensures told { OnOk result (AppendsDistances told.old (catch_places start handlers.now) told.new) }
    ensures few { OnOk result (IsFew told.new) }
    ensures last { OnOk result (told.new.last ≤ start + 8 * length handlers.now) }
    ensures begun { OnErr result (take (length told.old.bytes.items) told.new.bytes.items ≡ told.old.bytes.items) }
{
    let mut at = start;
    'handlers: for handler in handlers {
        let place = at + 6;
        at += 8;
        if handler.pool != 0 {
            told.tell(place)?;
        }
    }
    Ok(())
}
