//! Whether items and ranges may be laid: what `lay` asks of its symbols, tried where the symbols are made.
ghost use Rattle.std.specs.Prelude.{◌≡◌, ◌≤◌, ◌+◌, All, IsTrue, Ok, IfSome, length, count_by, not};
ghost use Rattle.jc_decode.specs.Cases.{cases, with_default};
ghost use Rattle.jc_decode.specs.Decoding.{decoded};
ghost use Rattle.jc_decode.specs.Encoding.{Allows, IsAllowed};
ghost use Rattle.jc_decode.specs.Listing.{jumps};
ghost use Rattle.jc_decode.specs.Forms.{is_wide_jump};
ghost use Rattle.jc_decode.specs.Symbols.{is_label, place_of, plain_bytes, plain_size};
ghost use Rattle.xf_tests.specs.Fitting.{Covers, Stands, Suits};

use cap_bytes::View;
use jc_decode::{Insn, Item, Labels, Layout, Operand, Range, case, decode};

/// How many of the items are this label.
fn label_count(items: &[Item], label: u16) -> usize
    ensures value { result ≡ count_by (is_label label) items.now }
    ensures few { result ≤ length items.now }
{
    let Some((first, rest)) = items.split_first() else {
        return 0;
    };
    let after = label_count(rest, label);
    match first {
        Item::Label(here) => { if *here == label { 1 + after } else { after } }
        Item::Plain(_) | Item::Branch { .. } | Item::Switch { .. } => after,
    }
}

/// How many instructions stand before a label.
fn place_of(items: &[Item], label: u16) -> usize
    ensures value { result ≡ place_of label items.now }
    ensures few { result ≤ length items.now }
{
    let Some((first, rest)) = items.split_first() else {
        return 0;
    };
    match first {
        Item::Label(here) => {
            if *here == label {
                0
            } else {
                place_of(rest, label)
            }
        }
        Item::Plain(_) | Item::Branch { .. } | Item::Switch { .. } => 1 + place_of(rest, label),
    }
}

#[tactic(auto, unfolding(crate::specs::Fitting::Stands))]
fn is_once(items: &[Item], label: u16) -> bool
    ensures { IsTrue result → Stands items.now label }
{
    label_count(items, label) == 1
}

fn are_once(items: &[Item], labels: &[u16]) -> bool
    ensures { IsTrue result → All (Stands items.now) labels.now }
{
    'labels: for label in labels {
        if !is_once(items, *label) {
            return false;
        }
    }
    true
}

/// Whether this is the switch of the source but for its default.
fn is_of_source(source: View, insn: Insn, at: u16) -> bool
    requires { length source.bytes.now ≤ 32767 }
    ensures { IsTrue result → with_default insn.x (decoded source.entry.bytes.now at) ≡ Ok insn }
{
    match decode(source, at) {
        Ok(found) => {
            found.op == insn.op && found.y == insn.y && found.z == insn.z && found.len == insn.len
        }
        Err(_) => false,
    }
}

/// Whether a switch of the source has so many cases.
fn has_cases(source: View, insn: Insn, at: u16, count: u32) -> bool
    requires short { length source.bytes.now ≤ 32767 }
    requires table { with_default insn.x (decoded source.bytes.now at) ≡ Ok insn }
    ensures { IsTrue result → length (cases source.entry.bytes.now at insn) ≡ count }
{
    if case(source, at, insn, count).is_some() {
        return false;
    }
    count == 0 || case(source, at, insn, count - 1).is_some()
}

/// Whether an operand may be of this form; of the forms that occur here.
fn is_operand(form: Operand, value: i32) -> bool
    ensures { IsTrue result → Allows form value }
{
    match form {
        Operand::Absent => value == 0,
        Operand::U1 => 0 <= value && value <= 255,
        _ => false,
    }
}

/// Whether this is an instruction that names no place, of those that occur here.
fn is_plain(insn: Insn) -> bool
    ensures { IsTrue result → IsAllowed insn × IsTrue (not (jumps insn.op)) }
{
    match Layout::of(insn.op) {
        Ok(layout) => {
            !insn.jumps()
                && is_operand(layout.x, insn.x)
                && is_operand(layout.y, insn.y)
                && is_operand(layout.z, insn.z)
        }
        Err(_) => false,
    }
}

/// Whether these are one label more than a switch of the source has cases.
fn are_counted(source: View, insn: Insn, at: u16, labels: &[u16]) -> bool
    requires short { length source.bytes.now ≤ 32767 }
    requires table { with_default insn.x (decoded source.bytes.now at) ≡ Ok insn }
    ensures { IsTrue result → length labels.now ≡ length (cases source.entry.bytes.now at insn) + 1 }
{
    if labels.is_empty() || labels.len() > 100 {
        return false;
    }
    has_cases(source, insn, at, labels.len() as u32 - 1)
}

/// Whether this is a switch of the source with a label for its default and one for each case.
#[tactic(auto, unfolding(crate::specs::Fitting::Stands, crate::specs::Fitting::Suits))]
fn suits_switch(source: View, items: &[Item], insn: Insn, at: u16, labels: &Labels) -> bool
    requires { length source.bytes.now ≤ 32767 }
    ensures { IsTrue result → Suits source.entry.bytes.now items.now (Item.Switch insn at labels.now) }
{
    if !insn.is_switch() || !is_of_source(source, insn, at) {
        return false;
    }
    if !are_counted(source, insn, at, labels.as_slice()) {
        return false;
    }
    are_once(items, labels.as_slice())
}

fn is_wide_jump(op: u8) -> bool
    ensures { result ≡ is_wide_jump op }
{
    152 <= op && op <= 168
}

#[tactic(auto, unfolding(crate::specs::Fitting::Stands, crate::specs::Fitting::Suits))]
fn suits_branch(source: View, items: &[Item], op: u8, label: u16) -> bool
    ensures { IsTrue result → Suits source.entry.bytes.now items.now (Item.Branch op label) }
{
    is_wide_jump(op) && is_once(items, label)
}

#[tactic(auto, unfolding(crate::specs::Fitting::Suits))]
fn suits_plain(source: View, items: &[Item], insn: Insn) -> bool
    ensures { IsTrue result → Suits source.entry.bytes.now items.now (Item.Plain insn) }
{
    is_plain(insn)
}

#[tactic(auto, unfolding(crate::specs::Fitting::Suits))]
fn suits_label(source: View, items: &[Item], label: u16) -> bool
    ensures { IsTrue result → Suits source.entry.bytes.now items.now (Item.Label label) }
{
    true
}

/// Whether an item may be one of these items.
fn is_item(source: View, items: &[Item], item: &Item) -> bool
    requires { length source.bytes.now ≤ 32767 }
    ensures { IsTrue result → Suits source.entry.bytes.now items.now item.now }
{
    match item {
        Item::Plain(insn) => suits_plain(source, items, *insn),
        Item::Branch { op, label } => suits_branch(source, items, *op, *label),
        Item::Switch { insn, at, labels } => suits_switch(source, items, *insn, *at, labels),
        Item::Label(label) => suits_label(source, items, *label),
    }
}

/// Whether all may be items of code with the switches of the source.
pub(crate) fn are_items(source: View, items: &[Item]) -> bool
    requires { length source.bytes.now ≤ 32767 }
    ensures { IsTrue result → All (Suits source.entry.bytes.now items.now) items.now }
{
    'items: for item in items {
        if !is_item(source, items, item) {
            return false;
        }
    }
    true
}

/// Whether a range may be one of code with these items.
#[tactic(auto, unfolding(crate::specs::Fitting::Covers, crate::specs::Fitting::Stands))]
fn is_range(items: &[Item], range: Range) -> bool
    ensures { IsTrue result → Covers items.now range }
{
    is_once(items, range.from)
        && is_once(items, range.to)
        && is_once(items, range.entry)
        && place_of(items, range.from) <= place_of(items, range.to)
}

/// Whether all may be ranges of code with these items.
pub(crate) fn are_ranges(items: &[Item], ranges: &[Range]) -> bool
    ensures { IsTrue result → All (Covers items.now) ranges.now }
{
    'each: for range in ranges {
        if !is_range(items, *range) {
            return false;
        }
    }
    true
}

fn plain_bytes(item: &Item) -> u32
    ensures { result ≡ plain_bytes item.now }
{
    match item {
        Item::Plain(insn) => insn.plain_length(),
        Item::Branch { .. } => 3,
        Item::Switch { insn, .. } => insn.length(),
        Item::Label(_) => 0,
    }
}

/// The plain size, if it is a number of 32 bits.
pub(crate) fn size(items: &[Item]) -> Option<u32>
    ensures { IfSome result (λ n. n ≡ plain_size items.now) }
{
    let mut total: u32 = 0;
    'sum: for item in items {
        match total.checked_add(plain_bytes(item)) {
            Some(sum) => total = sum,
            None => return None,
        }
    }
    Some(total)
}
