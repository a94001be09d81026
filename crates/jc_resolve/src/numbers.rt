ghost use Rattle.std.specs.Prelude.{◌≡◌, ◌+◌, ◌<◌, IfOk, OnOk};
ghost use Rattle.jc_resolve.specs.Numbers.{none_numbered, number_by_place, added_entry, with_next};

use crate::fault::RecordPlace;
use indexmap::IndexMap;
use std::alloc::{AllocError, Global};
use std::marker::Model;

/// The numbers of things by their places, in the order in which they were numbered.
#[derive(Drop)]
pub(crate) struct Numbers {
    map: IndexMap<RecordPlace, u16>,
    next: u16,
}

impl Model for Numbers {
    ghost use Rattle.jc_resolve.specs.Numbers.{Numbered};

    ghost Value = { Numbered };

    ghost view = { λ n. record { entries = n.map.entries; next = n.next } };
}

impl Numbers {
    /// Nothing is numbered, and there is room for so many things.
    pub(crate) fn with_room(alloc: Global, count: usize) -> Result<Numbers, AllocError>
        ensures { IfOk result (λ numbers. numbers ≡ none_numbered) }
    {
        Ok(Numbers {
            map: IndexMap::with_capacity(alloc, count)?,
            next: 0,
        })
    }

    /// Keeps the next number at a place where none is kept.
    #[tactic(auto, unfolding(crate::specs::Numbers::added_entry), using(crate::proofs::Restored::restoring))]
    fn enter(&mut self, place: RecordPlace) -> Result<(), AllocError>
        ensures { OnOk result (self.new ≡ record { entries = added_entry self.old.entries place self.old.next; next = self.old.next }) }
    {
        if let Some(first) = self.map.insert(place, self.next)? {
            // It stays with the first thing there.
            self.map.insert(place, first)?;
        }
        Ok(())
    }

    /// Numbers the next thing, which stands at a place or at none.
    #[tactic(auto, unfolding(crate::specs::Numbers::with_next))]
    pub(crate) fn push(&mut self, place: Option<RecordPlace>) -> Result<(), AllocError>
        requires { self.old.next < 65535 }
        ensures numbers { OnOk result (self.new ≡ with_next self.old place) }
        ensures next { OnOk result (self.new.next ≡ self.old.next + 1) }
    {
        if let Some(place) = place {
            self.enter(place)?;
        }
        self.next += 1;
        Ok(())
    }

    /// The number of the first thing at a place.
    #[inline(always)]
    pub(crate) fn at(&self, place: RecordPlace) -> Option<u16>
        ensures { result ≡ number_by_place self.now.entries place }
    {
        self.map.get(&place).copied()
    }
}
