ghost use Rattle.std.specs.Prelude.{◌≡◌, ◌++◌, ◌∷◌, [], slice_index_or, IfOk, OnOk};
ghost use Rattle.jc_control.specs.WellFormed.{HasInstruction};
ghost use Rattle.jc_decode.specs.declared.symbols.Item.TheVariants.{Label};
ghost use Rattle.jc_decode.specs.Forms.{wide};
ghost use Rattle.jc_decode.specs.Listing.{listing};
ghost use Rattle.law_renumbered.specs.Symbols.{item_of, items_from, labels_of};
ghost use Rattle.xf_share.specs.Numbering.{IsReadable, number_of};

use crate::numbering::renumbered;
use cap_bytes::View;
use jc_control::{Targets, place_of};
use jc_decode::{Instructions, Item, Placed, Sequence, target};
use std::alloc::{AllocError, Global};
use xf_allot::Sharing;

/// The items of a method's code, whose registers have other numbers: each instruction behind the label of its place, and the
/// label of the end.
pub(crate) fn items(
    alloc: Global,
    code: View<'_>,
    sharing: &Option<Sharing>,
) -> Result<Vec<Item>, AllocError>
    requires { IsReadable code.bytes.now }
    ensures { IfOk result
        (λ items. items.items
        ≡ items_from code.entry.bytes.now (number_of sharing.now) (listing code.entry.bytes.now)) }
{
    let mut items = Vec::new(alloc);
    'instructions: for placed in Instructions::of(code) {
        add(alloc, code, placed, sharing, &mut items)?;
    }
    items.push(Item::Label(code.bytes.len() as u16))?;
    Ok(items)
}

// Appends an instruction behind the label of its place.
fn add(
    alloc: Global,
    code: View<'_>,
    placed: Placed,
    sharing: &Option<Sharing>,
    items: &mut Vec<Item>,
) -> Result<(), AllocError>
    requires readable { IsReadable code.bytes.now }
    requires stands { HasInstruction code.bytes.now placed }
    ensures { OnOk result
        (items.new.items
        ≡ items.old.items
        ++ Label placed.place ∷ item_of code.entry.bytes.now (number_of sharing.now) placed ∷ []) }
{
    items.push(Item::Label(placed.place))?;
    let item = item(alloc, code, placed, sharing)?;
    items.push(item)?;
    Ok(())
}

// The item of an instruction.
fn item(
    alloc: Global,
    code: View<'_>,
    placed: Placed,
    sharing: &Option<Sharing>,
) -> Result<Item, AllocError>
    requires readable { IsReadable code.bytes.now }
    requires stands { HasInstruction code.bytes.now placed }
    ensures { IfOk result (λ item. item ≡ item_of code.entry.bytes.now (number_of sharing.now) placed) }
{
    if placed.insn.is_switch() {
        let labels = labels(alloc, code, placed)?;
        return Ok(Item::Switch {
            insn: placed.insn,
            at: placed.place,
            labels: Sequence::of(labels),
        });
    }
    if placed.insn.is_branch() {
        return Ok(Item::Branch {
            op: wide(placed.insn.op),
            label: first_label(code, placed),
        });
    }
    Ok(Item::Plain(renumbered(placed.insn, sharing)))
}

// The labels of the places to which an instruction may lead.
fn labels(alloc: Global, code: View<'_>, placed: Placed) -> Result<Vec<u16>, AllocError>
    requires readable { IsReadable code.bytes.now }
    requires stands { HasInstruction code.bytes.now placed }
    ensures { IfOk result (λ labels. labels.items ≡ labels_of code.entry.bytes.now placed) }
{
    let mut labels = Vec::new(alloc);
    'targets: for target in Targets::of(code, placed) {
        labels.push(place_of(target))?;
    }
    Ok(labels)
}

// The first of them.
fn first_label(code: View<'_>, placed: Placed) -> u16
    requires readable { IsReadable code.bytes.now }
    requires stands { HasInstruction code.bytes.now placed }
    ensures { result ≡ slice_index_or (labels_of code.entry.bytes.now placed) 0 0 }
{
    match target(code, placed, 0) {
        Some(target) => place_of(target),
        None => 0,
    }
}

// The wide form of a jump.
fn wide(op: u8) -> u8
    ensures { result ≡ wide op }
{
    if 96 <= op && op <= 112 { op + 56 } else { op }
}
