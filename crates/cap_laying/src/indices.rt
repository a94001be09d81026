ghost use Rattle.std.specs.Prelude.{◌≡◌, ◌≤◌, ◌<◌, ◌+◌, length, take, OnOk, OnErr};
ghost use Rattle.cap_laying.specs.Indices.{HasIndexInside, index_by, indices};
ghost use Rattle.cap_laying.specs.Telling.{IsFew, AppendsDistances};
ghost use Rattle.jc_decode.specs.Encoding.{IsAllowed};
ghost use Rattle.jc_decode.specs.Listing.{listing};
ghost use Rattle.jc_decode.specs.PoolIndex.{bytes_of_index, pool_index};

use crate::location_component::ToldPlaces;
use cap_bytes::View;
use jc_decode::{IndexWidth, Insn, decode};
use std::alloc::AllocError;

/// Tells the places of the indices of a width, of the instructions of a code that begins at an offset of the
/// info of the Method component, after which the last place does not lie. Where there is no memory some of them may
/// be told.
#[tactic(auto, using(crate::proofs::Tellings::begun_then, jc_decode::proofs::Listing::listing_facts))]
pub fn tell_indices(
    width: IndexWidth,
    start: u16,
    code: View<'_>,
    told: &mut ToldPlaces,
) -> Result<(), AllocError>
    requires end { start + length code.bytes.now ≤ 65535 }
    requires order { told.old.last ≤ start }
    requires few { IsFew told.old }
    ensures few { OnOk result (IsFew told.new) }
    ensures told { OnOk result (AppendsDistances told.old (indices (bytes_of_index width) start (listing code.entry.bytes.now)) told.new) }
    ensures last { OnOk result (told.new.last ≤ start + length code.entry.bytes.now) }
    ensures begun { OnErr result (take (length told.old.bytes.items) told.new.bytes.items ≡ told.old.bytes.items) }
{
    let mut at: u16 = 0;
    'walk: while let Ok(insn) = decode(code, at) {
        tell_insn(width, start + at, insn, told)?;
        at += insn.len as u16;
    }
    Ok(())
}

/// Tells the place of the index of an instruction that stands at a place, where it has one of this width.
#[tactic(auto, using(crate::proofs::Tellings::tells_none))]
fn tell_insn(
    width: IndexWidth,
    place: u16,
    insn: Insn,
    told: &mut ToldPlaces,
) -> Result<(), AllocError>
    requires allowed { IsAllowed insn }
    requires room { HasIndexInside insn }
    requires end { place + insn.len ≤ 65535 }
    requires order { told.old.last ≤ place }
    requires few { IsFew told.old }
    ensures few { OnOk result (IsFew told.new) }
    ensures told { OnOk result (AppendsDistances told.old (index_by (bytes_of_index width) place (pool_index insn)) told.new) }
    ensures last { OnOk result (told.new.last ≤ place + insn.len) }
    ensures begun { OnErr result (take (length told.old.bytes.items) told.new.bytes.items ≡ told.old.bytes.items) }
{
    match insn.pool_index() {
        Some(index) if bytes_of(index.width) == bytes_of(width) => {
            told.tell(place + u16::from(index.at))
        }
        _ => Ok(()),
    }
}

fn bytes_of(width: IndexWidth) -> u8
    ensures { result ≡ bytes_of_index width }
{
    match width {
        IndexWidth::One => 1,
        IndexWidth::Two => 2,
    }
}
