ghost use Rattle.std.specs.Prelude.{◌≡◌, ◌≤◌, IfOk};
ghost use Rattle.cap_laying.specs.Blocks.{total_handlers};
ghost use Rattle.cap_laying.specs.Members.{MayBeWritten};
ghost use Rattle.cap_laying.specs.WrittenSeen.{WritesMethods};

use crate::blocks::{block_order, by_offset, handler_count, indexes, put_bodies, put_table};
use crate::location_component::references;
use crate::member::WrittenMember;
use crate::places::{end_of, news};
use cap_renewal::NewMethods;
use std::alloc::{AllocError, Global};

/// A Method component that is written anew.
#[derive(Drop)]
pub struct Written {
    /// Its info.
    pub info: Vec<u8>,
    /// The info of the ReferenceLocation component beside it.
    pub references: Vec<u8>,
    /// Where each method stands, by the offset at which it stood.
    pub news: NewMethods,
}

/// Writes the methods of a component anew, one after the other in the order of their former offsets, in an info
/// of `size` bytes whose handler table had at most `room` entries. There is no such component where its info
/// would have more than 65,535 bytes.
#[tactic(auto, using(crate::proofs::Owned::writing), unfolding(crate::specs::Members::written_size))]
pub fn write_methods(
    alloc: Global,
    size: usize,
    room: usize,
    members: &[WrittenMember<'_>],
) -> Result<Option<Written>, AllocError>
    requires { MayBeWritten size members.now }
    ensures { IfOk result (WritesMethods size room members.now) }
{
    let table = by_offset(alloc, size, members)?;
    let blocks = block_order(alloc, room, members)?;
    let total = handler_total(&blocks);
    let start = 1 + 8 * total;
    let end = match end_of(start, &table) {
        Some(end) => end,
        None => return Ok(None),
    };
    let indexes = indexes(alloc, size, &blocks)?;
    let news = news(alloc, start, &table, &indexes)?;
    let mut info = Vec::with_capacity(alloc, end)?;
    info.push(total as u8)?;
    put_table(&blocks, &news, &mut info)?;
    put_bodies(&table, &mut info)?;
    let references = references(alloc, start as u16, &table, &blocks)?;
    Ok(Some(Written {
        info,
        references,
        news,
    }))
}

/// How many handlers the methods have.
fn handler_total(blocks: &[WrittenMember<'_>]) -> usize
    requires { total_handlers blocks.now ≤ 255 }
    ensures { result ≡ total_handlers blocks.now }
{
    let mut total = 0;
    'members: for block in blocks {
        total += handler_count(block.body);
    }
    total
}
