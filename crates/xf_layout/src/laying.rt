ghost use Rattle.std.specs.Prelude.{◌≡◌, ◌≤◌, ◌<◌, ◌^◌, ℕ, All, Err, IfOk, length, List, OnOk, slice_index};
ghost use Rattle.jc_decode.specs.Symbols.{IsItem, IsRange, plain_size};
ghost use Rattle.jc_decode.specs.Standing.{CodeStandsFor};
ghost use Rattle.xf_layout.specs.Shortest.{ReachesTooFar, StandsShortest};
ghost use Rattle.xf_layout.specs.Form.{IsForm, form_bytes};
ghost use Rattle.xf_layout.specs.Plan.{IsLayoutPlan};
ghost use Rattle.xf_layout.specs.Laid.{Adds, AreInReach, IsNearFrom, ItemsStand, labels_of};

use crate::cases::{distance, lay_switch};
use crate::form::Form;
use crate::handlers::handlers;
use crate::places::LabelPlaces;
use crate::plan::{LONGEST_CODE, LayoutPlan};
use cap_bytes::View;
use jc_decode::{
    Insn, Item, Laid, Sequence, Symbols, encode, listing_is_one, nothing_past_the_end, plain_size,
};
use std::alloc::{AllocError, Global};

/// Why symbols are not laid.
#[derive(Clone, Copy)]
pub enum LayEnd {
    /// The code is above the 32,767 bytes that a method may have, with the symbols' plain size.
    MethodLong(u32),
    Memory,
}

impl From<AllocError> for LayEnd {
    ghost use Rattle.xf_layout.specs.declared.laying.LayEnd.TheVariants.{Memory};

    ghost from_gives = { λ _ end. end ≡ Memory };

    fn from(_error: AllocError) -> LayEnd {
        LayEnd::Memory
    }
}

/// Lays code whose jumps go to labels in bytes, in the shortest forms of its instructions: loads and
/// stores of registers 0 to 3 have no operand, and each jump has an offset of one byte but for the least
/// set that needs two. A switch is that of the source with other offsets. Each range becomes a handler,
/// one that covers nothing too. Places and lengths are in bytes.
///
/// It takes time in proportion to the number of items, and for each jump that is wide to that of the items within 128 bytes.
pub fn lay(alloc: Global, source: View, symbols: &Symbols) -> Result<Laid, LayEnd>
    requires short { length source.bytes.now ≤ 32767 }
    requires items { All (IsItem source.bytes.now symbols.now.items) symbols.now.items }
    requires ranges { All (IsRange symbols.now.items) symbols.now.ranges }
    requires size { plain_size symbols.now.items < 2 ^ 32 }
    ensures stands { IfOk result (λ laid. CodeStandsFor source.entry.bytes.now symbols.now laid) }
    ensures shortest { IfOk result (λ laid. StandsShortest source.entry.bytes.now symbols.now laid) }
    ensures few { IfOk result (λ laid. length laid.code ≤ 32767) }
    ensures long { (n : ℕ) → result ≡ Err (LayEnd.MethodLong n)
        → ReachesTooFar symbols.now.items × (n ≡ plain_size symbols.now.items) }
{
    listing_is_one();
    nothing_past_the_end();
    let items = symbols.items.as_slice();
    let plan = LayoutPlan::of(alloc, items)?;
    if plan.end > LONGEST_CODE {
        return Err(LayEnd::MethodLong(plain_size(items)));
    }
    let code = lay_items(alloc, source, items, &plan)?;
    let handlers = handlers(alloc, symbols.ranges.as_slice(), &plan.places)?;
    Ok(Laid {
        code: Sequence::of(code),
        handlers: Sequence::of(handlers),
        max_stack: symbols.max_stack,
        nargs: symbols.nargs,
        max_locals: symbols.max_locals,
    })
}

/// The bytes of the items, one after the other.
pub fn lay_items(
    alloc: Global,
    source: View,
    items: &[Item],
    plan: &LayoutPlan,
) -> Result<Vec<u8>, AllocError>
    requires short { length source.bytes.now ≤ 32767 }
    requires items { All (IsItem source.bytes.now items.now) items.now }
    requires plan { IsLayoutPlan items.now plan.now }
    requires few { plan.now.end ≤ 32767 }
    ensures { IfOk result (λ code.
        ItemsStand source.entry.bytes.now (slice_index plan.now.places) code.items 0
        items.now plan.now.forms.items) }
{
    let mut code = Vec::with_capacity(alloc, plan.end as usize)?;
    'items: for (k, item) in items.iter().enumerate() {
        lay_item(alloc, source, item, plan.forms[k], &plan.places, &mut code)?;
    }
    Ok(code)
}

/// Appends the bytes of an item in its form.
fn lay_item(
    alloc: Global,
    source: View,
    item: &Item,
    form: Form,
    places: &LabelPlaces,
    code: &mut Vec<u8>,
) -> Result<(), AllocError>
    requires short { length source.bytes.now ≤ 32767 }
    requires item { (all : List Item) × IsItem source.bytes.now all item.now }
    requires form { IsForm item.now form }
    requires few { form_bytes form ≤ 32767 }
    requires here { length code.old.items ≤ 32767 }
    requires reached { AreInReach places.now (labels_of item.now) }
    requires near { IsNearFrom (slice_index places.now) (length code.old.items) form }
    ensures { OnOk result (Adds source.entry.bytes.now (slice_index places.now) item.now form
        code.old.items code.new.items) }
{
    match item {
        Item::Plain(insn) => encode(insn.short_form(), source, 0, code),
        Item::Branch { op, label } => {
            let offset = distance(code.len() as u32, places.at(*label));
            encode(Insn::jump(*op, form.is_wide(), offset), source, 0, code)
        }
        Item::Switch { insn, at, labels } => {
            lay_switch(alloc, source, *insn, *at, labels, places, code)
        }
        Item::Label(_) => Ok(()),
    }
}
