ghost use Rattle.std.specs.Prelude.{◌≡◌, ◌<◌, ◌++◌, [], ◌∷◌, length, take, OnOk, OnErr, IfOk, ◌≤◌, ◌+◌, ◌*◌};
ghost use Rattle.cap_laying.specs.Distances.{distance_bytes};
ghost use Rattle.cap_laying.specs.Telling.{IsFew, AppendsDistances};
ghost use Rattle.byteorder.specs.Endian.{big_bytes};
ghost use Rattle.cap_laying.specs.Component.{component_bytes};
ghost use Rattle.cap_laying.specs.Blocks.{total_handlers};
ghost use Rattle.cap_laying.specs.Member.{methods_end_from, handlers_of, size_if};
ghost use Rattle.cap_laying.specs.NewPlaces.{AreSmallBodies, IsSmallIf};
ghost use Rattle.cap_laying.specs.References.{block_catches, indices_if, method_indices, references_info};
ghost use Rattle.cap_laying.specs.Catches.{catch_places};
ghost use Rattle.jc_decode.specs.PoolIndex.{bytes_of_index};

use crate::entries::header_size;
use crate::member::{Body, WrittenMember};
use crate::places::body_size;
use crate::{tell_catches, tell_indices};
use cap_bytes::View;
use jc_decode::IndexWidth;
use std::alloc::{AllocError, Global};

/// Places that are told by their distances.
#[derive(Drop)]
pub struct ToldPlaces {
    /// The last of them, and 0 before the first.
    pub last: u16,
    /// The distances so far.
    pub bytes: Vec<u8>,
}

impl ToldPlaces {
    /// No place.
    pub fn new(alloc: Global) -> ToldPlaces
        ensures last { result.last ≡ 0 }
        ensures bytes { result.bytes.items ≡ [] }
        ensures few { IsFew result }
    {
        ToldPlaces {
            last: 0,
            bytes: Vec::new(alloc),
        }
    }

    /// Tells one more place, which comes after the last. Where there is no memory the last place stays, and some bytes may
    /// be appended.
    #[tactic(auto, using(crate::proofs::Tellings::few_more))]
    pub fn tell(&mut self, place: u16) -> Result<(), AllocError>
        requires order { self.old.last < place }
        requires few { IsFew self.old }
        ensures told { OnOk result (AppendsDistances self.old (place ∷ []) self.new) }
        ensures few { OnOk result (IsFew self.new) }
        ensures begun { OnErr result (take (length self.old.bytes.items) self.new.bytes.items ≡ self.old.bytes.items) }
        ensures stays { OnErr result (self.new.last ≡ self.old.last) }
    {
        put_distance(place - self.last, &mut self.bytes)?;
        self.last = place;
        Ok(())
    }
}

/// Appends the bytes of a distance, or some of them where there is no memory.
#[tactic(auto, using(crate::proofs::Tellings::put_more, crate::proofs::Tellings::put_last))]
fn put_distance(distance: u16, out: &mut Vec<u8>) -> Result<(), AllocError>
    ensures put { OnOk result (out.new.items ≡ out.old.items ++ distance_bytes distance) }
    ensures begun { OnErr result (take (length out.old.items) out.new.items ≡ out.old.items) }
{
    let mut left = distance;
    'whole: while left >= 255 {
        out.push(255)?;
        left -= 255;
    }
    out.push(left as u8)?;
    Ok(())
}

/// The info of the component: the distances to the indices of one byte, and those to the indices of two.
#[tactic(auto, using(crate::proofs::Components::steps), unfolding(crate::specs::Component::component_bytes))]
pub fn component_info(
    alloc: Global,
    byte: &ToldPlaces,
    byte2: &ToldPlaces,
) -> Result<Vec<u8>, AllocError>
    requires byte { IsFew byte.now }
    requires byte2 { IsFew byte2.now }
    ensures { IfOk result (λ info. info.items ≡ component_bytes byte.now.bytes.items byte2.now.bytes.items) }
{
    let mut info = Vec::new(alloc);
    put_list(byte, &mut info)?;
    put_list(byte2, &mut info)?;
    Ok(info)
}

/// Appends a list after the number of its bytes.
#[tactic(auto, using(crate::proofs::Components::steps))]
fn put_list(told: &ToldPlaces, out: &mut Vec<u8>) -> Result<(), AllocError>
    requires { IsFew told.now }
    ensures { OnOk result (out.new.items ≡ out.old.items ++ (big_bytes 2 (length told.now.bytes.items) ++ told.now.bytes.items)) }
{
    let _last = told.last;
    out.extend_from_slice(&(told.bytes.len() as u16).to_be_bytes())?;
    out.extend_from_slice(&told.bytes)
}

/// The info of the ReferenceLocation component of methods that stand one after the other from a place on, after
/// a handler table of these blocks.
pub(crate) fn references(
    alloc: Global,
    start: u16,
    table: &[Option<WrittenMember<'_>>],
    blocks: &[WrittenMember<'_>],
) -> Result<Vec<u8>, AllocError>
    requires small { AreSmallBodies table.now }
    requires end { methods_end_from start table.now ≤ 65535 }
    requires few { total_handlers blocks.now ≤ 255 }
    requires order { 1 + 8 * total_handlers blocks.now ≤ start }
    ensures { IfOk result (λ r. r.items ≡ references_info start table.now blocks.now) }
{
    let mut byte = ToldPlaces::new(alloc);
    tell_methods(IndexWidth::One, start, table, &mut byte)?;
    let mut byte2 = ToldPlaces::new(alloc);
    tell_blocks(blocks, &mut byte2)?;
    tell_methods(IndexWidth::Two, start, table, &mut byte2)?;
    let info = component_info(alloc, &byte, &byte2)?;
    Ok(info)
}

/// Tells the places of the indices of a width in methods that stand one after the other from a place on.
fn tell_methods(
    width: IndexWidth,
    start: u16,
    table: &[Option<WrittenMember<'_>>],
    told: &mut ToldPlaces,
) -> Result<(), AllocError>
    requires small { AreSmallBodies table.now }
    requires end { methods_end_from start table.now ≤ 65535 }
    requires order { told.old.last ≤ start }
    requires few { IsFew told.old }
    ensures told { OnOk result (AppendsDistances told.old (method_indices (bytes_of_index width) start table.now) told.new) }
    ensures few { OnOk result (IsFew told.new) }
{
    let mut at = start;
    'methods: for slot in table {
        at = tell_slot(width, at, slot, told)?;
    }
    Ok(())
}

/// Tells those in a method that stands at a place, where there is one. The answer is the place after it.
#[tactic(auto, using(crate::proofs::Tellings::tells_none))]
fn tell_slot(
    width: IndexWidth,
    at: u16,
    slot: &Option<WrittenMember<'_>>,
    told: &mut ToldPlaces,
) -> Result<u16, AllocError>
    requires small { IsSmallIf slot.now }
    requires end { at + size_if slot.now ≤ 65535 }
    requires order { told.old.last ≤ at }
    requires few { IsFew told.old }
    ensures told { OnOk result (AppendsDistances told.old (indices_if (bytes_of_index width) at slot.now) told.new) }
    ensures few { OnOk result (IsFew told.new) }
    ensures last { OnOk result (told.new.last ≤ at + size_if slot.now) }
    ensures end { IfOk result (λ end. end ≡ at + size_if slot.now) }
{
    let Some(member) = slot else {
        return Ok(at);
    };
    let end = at + body_size(member.body) as u16;
    match member.body {
        Body::Code(laid) => {
            let code = View::of(laid.code.as_slice());
            tell_indices(width, at + header_size(laid), code, told)?;
            Ok(end)
        }
        Body::Header(_) => Ok(end),
    }
}

/// Tells the places of the pool numbers of caught classes in the handler table of these blocks.
fn tell_blocks(blocks: &[WrittenMember<'_>], told: &mut ToldPlaces) -> Result<(), AllocError>
    requires few { total_handlers blocks.now ≤ 255 }
    requires order { told.old.last ≤ 1 }
    requires told { IsFew told.old }
    ensures told { OnOk result (AppendsDistances told.old (block_catches 1 blocks.now) told.new) }
    ensures few { OnOk result (IsFew told.new) }
    ensures last { OnOk result (told.new.last ≤ 1 + 8 * total_handlers blocks.now) }
{
    let mut at = 1;
    'members: for block in blocks {
        at = tell_block(at, block.body, told)?;
    }
    Ok(())
}

/// Tells those of a method whose entries begin at a place. The answer is the place after them.
#[tactic(auto, using(crate::proofs::Tellings::tells_none))]
fn tell_block(at: u16, body: Body<'_>, told: &mut ToldPlaces) -> Result<u16, AllocError>
    requires end { at + 8 * length (handlers_of body) ≤ 65535 }
    requires order { told.old.last ≤ at }
    requires few { IsFew told.old }
    ensures told { OnOk result (AppendsDistances told.old (catch_places at (handlers_of body.entry)) told.new) }
    ensures few { OnOk result (IsFew told.new) }
    ensures last { OnOk result (told.new.last ≤ at + 8 * length (handlers_of body.entry)) }
    ensures end { IfOk result (λ end. end ≡ at + 8 * length (handlers_of body.entry)) }
{
    match body {
        Body::Code(laid) => {
            tell_catches(at, laid.handlers.as_slice(), told)?;
            Ok(at + 8 * laid.handlers.len() as u16)
        }
        Body::Header(_) => Ok(at),
    }
}
