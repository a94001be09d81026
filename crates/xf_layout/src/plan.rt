ghost use Rattle.std.specs.Prelude.{◌<◌, ◌^◌, ℕ, List, All, IfOk};
ghost use Rattle.jc_decode.specs.Symbols.{IsItem, plain_size};
ghost use Rattle.xf_layout.specs.Plan.{IsLayoutPlan};

use crate::form::Form;
use crate::places::LabelPlaces;
use crate::settling::{settle, shortest_forms, widen};
use jc_decode::{Item, short_is_no_longer};
use std::alloc::{AllocError, Global};

/// The longest code of a method, in bytes.
pub const LONGEST_CODE: u32 = 32_767;

/// The form of each item, and where labels then stand.
#[derive(Drop)]
pub struct LayoutPlan {
    pub forms: Vec<Form>,
    pub places: LabelPlaces,
    /// Where the code ends.
    pub end: u32,
}

impl LayoutPlan {
    /// Makes jumps wide until every other one fits, or until the code is too long. What `settle` left short and does not fit
    /// becomes wide in turns, each of which goes over the items twice; one that makes no jump wide is the last.
    pub fn of(alloc: Global, items: &[Item]) -> Result<LayoutPlan, AllocError>
        requires items { (source : List ℕ) × All (IsItem source items.now) items.now }
        requires size { plain_size items.now < 2 ^ 32 }
        ensures { IfOk result (λ p. IsLayoutPlan items.now p) }
    {
        short_is_no_longer();
        let mut forms = shortest_forms(alloc, items)?;
        settle(alloc, items, &mut forms)?;
        let mut places = LabelPlaces::new(alloc, &forms)?;
        'turns: loop {
            let end = places.note(&forms);
            if end > LONGEST_CODE {
                return Ok(LayoutPlan { forms, places, end });
            }
            if widen(&mut forms, &places) == 0 {
                return Ok(LayoutPlan { forms, places, end });
            }
        }
    }
}
