ghost use Rattle.std.specs.Prelude.{◌≡◌, ◌<◌, length, replicate, slice_set, true, false, IfOk};
ghost use Rattle.jc_control.specs.Flags.{flag};

use std::alloc::{AllocError, Global};
use std::marker::Model;

/// A yes or no for each place of a method's code, and for its end.
#[derive(Drop)]
pub struct Flags {
    items: Vec<bool>,
}

impl Model for Flags {
    ghost use Rattle.std.specs.Prelude.{List, Bool};

    ghost Value = { List Bool };

    ghost view = { λ a. a.items.items };
}

impl Flags {
    /// So many flags, all of them no.
    pub fn new(alloc: Global, count: usize) -> Result<Flags, AllocError>
        ensures { IfOk result (λ f. f ≡ replicate count false) }
    {
        Ok(Flags {
            items: vec![in alloc; false; count]?,
        })
    }

    /// These flags, by place.
    pub fn of(items: Vec<bool>) -> Flags
        ensures { result ≡ items.items }
    {
        Flags { items }
    }

    /// The flag of a place; past the last one it is no.
    pub fn has(&self, place: u32) -> bool
        ensures { result ≡ flag self.now place }
    {
        self.items.get(place as usize).copied().unwrap_or(false)
    }

    /// Sets the flag of a place.
    pub fn set(&mut self, place: u16)
        requires { place < length self.old }
        ensures { self.new ≡ slice_set self.old place true }
    {
        self.items[usize::from(place)] = true;
    }
}
