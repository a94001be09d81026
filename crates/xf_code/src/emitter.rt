ghost use Rattle.std.specs.Prelude.{◌≡◌, [], ◌∷◌, ◌++◌, OnOk};
ghost use Rattle.xf_homes.specs.PlannedMethod.{source};
ghost use Rattle.xf_code.specs.NextReached.{AreNextReached};

use indexmap::IndexSet;
use jc_decode::Item;
use std::alloc::{AllocError, Global};
use xf_homes::{Home, Plan};

/// Items are appended, or there is no memory for them.
pub type Emitted = Result<(), AllocError>;

/// What emits the code of a method by its plan.
#[derive(Clone, Copy)]
pub struct Emitter<'a> {
    pub alloc: Global,
    pub plan: Plan<'a>,
    /// By place of the code, the first place from there on that control reaches, or the end of the code.
    pub next: &'a [u16],
    ghost reached: { AreNextReached (source plan) next.now },
}

/// Items so far, with tables of homes that are made anew for each local.
#[derive(Drop)]
pub struct Output {
    pub items: Vec<Item>,
    pub held: IndexSet<Home>,
    pub needed: IndexSet<Home>,
}

impl Output {
    pub fn new(alloc: Global) -> Output
        ensures { result.items.items ≡ [] }
    {
        Output {
            items: Vec::new(alloc),
            held: IndexSet::new(alloc),
            needed: IndexSet::new(alloc),
        }
    }
}

/// Appends an item.
pub fn put(items: &mut Vec<Item>, item: Item) -> Emitted
    ensures { OnOk result (items.new.items ≡ items.old.items ++ item ∷ []) }
{
    items.push(item)?;
    Ok(())
}
