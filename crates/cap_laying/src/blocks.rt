ghost use Rattle.std.specs.Prelude.{◌≡◌, ◌≤◌, ◌+◌, ◌++◌, IfOk, OnOk, length, ◌<◌};
ghost use Rattle.cap_laying.specs.Blocks.{ArePlacedBodies, IsPlacedBody, blocks, entries_of_blocks, firsts, handler_indexes};
ghost use Rattle.cap_laying.specs.Blocks.{total_handlers};
ghost use Rattle.cap_laying.specs.HandlerTable.{entries_at, table_bytes};
ghost use Rattle.cap_laying.specs.Member.{AreWithin, handlers_of, lead_size, bodies, body_bytes, by_offset};
ghost use Rattle.cap_laying.specs.MethodInfo.{AreSmallEntries};

use crate::entries::{header_size, put_entries, put_header};
use crate::member::{Body, WrittenMember};
use cap_renewal::NewMethods;
use std::alloc::{AllocError, Global};

/// The methods in the order of their blocks of handlers: first those that had handlers, in the order of the
/// former table of at most so many entries, then the others.
pub(crate) fn block_order<'a>(
    alloc: Global,
    room: usize,
    members: &[WrittenMember<'a>],
) -> Result<Vec<WrittenMember<'a>>, AllocError>
    ensures { IfOk result (λ b. b.items ≡ blocks room members.now) }
{
    let firsts = firsts(alloc, room, members)?;
    let mut blocks = Vec::new(alloc);
    'slots: for slot in &firsts {
        if let Some(member) = slot {
            blocks.push(*member)?;
        }
    }
    'members: for member in members {
        if member.handlers_from.is_none() {
            blocks.push(*member)?;
        }
    }
    Ok(blocks)
}

#[tactic(auto, unfolding(crate::specs::Blocks::firsts))]
fn firsts<'a>(
    alloc: Global,
    room: usize,
    members: &[WrittenMember<'a>],
) -> Result<Vec<Option<WrittenMember<'a>>>, AllocError>
    ensures { IfOk result (λ f. f.items ≡ firsts room members.now) }
{
    let mut table = vec![in alloc; None; room]?;
    'members: for member in members {
        if let Some(first) = member.handlers_from {
            if (first as usize) < table.len() {
                table[first as usize] = Some(*member);
            }
        }
    }
    Ok(table)
}

/// The handlers of a method.
pub(crate) fn handler_count(body: Body<'_>) -> usize
    ensures { result ≡ length (handlers_of body.entry) }
{
    match body {
        Body::Code(laid) => laid.handlers.len(),
        Body::Header(_) => 0,
    }
}

/// The number of the first entry of each method in the table of the blocks, by its former offset in an info of
/// so many bytes: 0 where it has none. There are at most 255 entries.
#[tactic(auto, unfolding(crate::specs::Blocks::handler_indexes))]
pub(crate) fn indexes(
    alloc: Global,
    size: usize,
    blocks: &[WrittenMember<'_>],
) -> Result<Vec<u16>, AllocError>
    requires within { AreWithin size blocks.now }
    requires few { total_handlers blocks.now ≤ 255 }
    ensures { IfOk result (λ i. i.items ≡ handler_indexes size blocks.now) }
{
    let mut indexes = vec![in alloc; 0; size]?;
    let mut before = 0;
    'members: for block in blocks {
        let count = handler_count(block.body) as u16;
        indexes[block.offset as usize] = if count == 0 { 0 } else { before };
        before += count;
    }
    Ok(indexes)
}

/// Appends the handler table of the methods in the order of their blocks. Where there is no memory some
/// entries may be appended.
pub(crate) fn put_table(
    blocks: &[WrittenMember<'_>],
    news: &NewMethods,
    out: &mut Vec<u8>,
) -> Result<(), AllocError>
    requires { ArePlacedBodies news.now blocks.now }
    ensures bytes { OnOk result (out.new.items ≡ out.old.items ++ table_bytes (entries_of_blocks news.now blocks.now)) }
    ensures small { OnOk result (AreSmallEntries (entries_of_blocks news.now blocks.now)) }
{
    'members: for block in blocks {
        put_block(news.offset(block.offset), block.body, out)?;
    }
    Ok(())
}

/// Appends the entries of a method that stands at an offset.
fn put_block(at: u16, body: Body<'_>, out: &mut Vec<u8>) -> Result<(), AllocError>
    requires { IsPlacedBody at body }
    ensures bytes { OnOk result (out.new.items
        ≡ out.old.items ++ table_bytes (entries_at (at + lead_size body.entry) (handlers_of body.entry))) }
    ensures small { OnOk result (AreSmallEntries (entries_at (at + lead_size body.entry) (handlers_of body.entry))) }
{
    match body {
        Body::Code(laid) => {
            let start = at + header_size(laid);
            put_entries(start, laid.code.len(), laid.handlers.as_slice(), out)
        }
        Body::Header(_) => Ok(()),
    }
}

/// The methods by the offsets at which they stood, in an info of so many bytes.
#[tactic(auto, unfolding(crate::specs::Member::by_offset))]
pub(crate) fn by_offset<'a>(
    alloc: Global,
    size: usize,
    members: &[WrittenMember<'a>],
) -> Result<Vec<Option<WrittenMember<'a>>>, AllocError>
    requires { AreWithin size members.now }
    ensures { IfOk result (λ table. table.items ≡ by_offset size members.now) }
{
    let mut table = vec![in alloc; None; size]?;
    'members: for member in members {
        table[member.offset as usize] = Some(*member);
    }
    Ok(table)
}

/// Appends the methods, one after the other. Where there is no memory some of them may be appended.
pub(crate) fn put_bodies(
    table: &[Option<WrittenMember<'_>>],
    out: &mut Vec<u8>,
) -> Result<(), AllocError>
    ensures { OnOk result (out.new.items ≡ out.old.items ++ bodies table.now) }
{
    'methods: for slot in table {
        if let Some(member) = slot {
            put_body(member.body, out)?;
        }
    }
    Ok(())
}

#[tactic(auto, using(crate::proofs::Appending::steps))]
fn put_body(body: Body<'_>, out: &mut Vec<u8>) -> Result<(), AllocError>
    ensures { OnOk result (out.new.items ≡ out.old.items ++ body_bytes body.entry) }
{
    match body {
        Body::Code(laid) => {
            put_header(laid, out)?;
            out.extend_from_slice(laid.code.as_slice())
        }
        Body::Header(header) => out.extend_from_slice(header),
    }
}
