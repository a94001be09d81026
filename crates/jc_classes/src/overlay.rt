ghost use Rattle.std.specs.Prelude.{◌≡◌, ◌≤◌, ◌<◌, length, max, IfOk, slice_get};
ghost use Rattle.std.specs.Option.{option_flatten};
ghost use Rattle.jc_resolve.specs.Named.{IsByteTable};
ghost use Rattle.jc_classes.specs.Entries.{reach, named_by, overlaid_at, overlaid};

use jc_base::Items;
use jc_resolve::DispatchTable;
use std::alloc::{AllocError, Global};

/// The entries of a dispatch list by token: the number of a method, or `None` where the entry is open.
pub type DispatchEntries = Items<Option<u16>>;

/// The dispatch lists of a class, and the number of cells of an instance.
#[derive(Drop)]
pub struct ClassLayout {
    pub public: DispatchEntries,
    pub visible: DispatchEntries,
    pub cells: u32,
}

/// The token after the last entry of a table, and 0 where it has none.
#[tactic(auto, unfolding(crate::specs::Entries::reach))]
pub(crate) fn reach(table: &DispatchTable) -> usize
    requires few { length table.now.entries ≤ 255 }
    ensures { result ≡ reach table.now }
{
    if table.entries.len() == 0 {
        0
    } else {
        table.base as usize + table.entries.len()
    }
}

/// The method that a table names for a token.
#[tactic(auto, unfolding(crate::specs::Entries::named_by))]
#[inline(always)]
fn named_by(table: &DispatchTable, token: usize) -> Option<u16>
    ensures { result ≡ named_by table.now token }
{
    let base = table.base as usize;
    if token < base || table.entries.len() <= token - base {
        None
    } else {
        *table.entries.at(token - base)
    }
}

/// The entry of a list at a token.
#[inline(always)]
pub(crate) fn entry_at(list: &[Option<u16>], token: usize) -> Option<u16>
    ensures { result ≡ option_flatten (slice_get list.now token) }
{
    if token < list.len() {
        list[token]
    } else {
        None
    }
}

#[tactic(auto, unfolding(crate::specs::Entries::overlaid_at))]
#[inline(always)]
fn overlaid_at(table: &DispatchTable, inherited: &[Option<u16>], token: usize) -> Option<u16>
    ensures { result ≡ overlaid_at table.now inherited.now token }
{
    match named_by(table, token) {
        Some(method) => Some(method),
        None => entry_at(inherited, token),
    }
}

/// The inherited list, overwritten and extended by a table.
#[tactic(auto, using(crate::proofs::Ranges::ranges, crate::proofs::Inherited::copies))]
pub(crate) fn overlay(
    alloc: Global,
    table: &DispatchTable,
    inherited: &[Option<u16>],
) -> Result<DispatchEntries, AllocError>
    requires few { IsByteTable table.now }
    ensures { IfOk result (λ entries. entries ≡ overlaid table.now inherited.now) }
{
    let end = reach(table);
    let mut entries = Vec::with_capacity(alloc, inherited.len().max(end))?;
    // What stands before and after the tokens of the table is inherited as it is.
    let first = (table.base as usize).min(inherited.len());
    entries.extend_from_slice(&inherited[..first])?;
    'tokens: for token in first..end {
        entries.push(overlaid_at(table, inherited, token))?;
    }
    let made = entries.len().min(inherited.len());
    entries.extend_from_slice(&inherited[made..])?;
    Ok(Items::of(entries))
}
