ghost use Rattle.std.specs.Prelude.{◌≡◌};
ghost use Rattle.offset_set.specs.Bits.{holds};
ghost use Rattle.offset_set.specs.Tallies.{none_counted, with_one, once, tallied, IsNearest};

use crate::offsets::Offsets;

/// Which offsets were counted, and which of them more than once.
#[derive(Drop)]
pub struct Tally {
    met: Offsets,
    repeated: Offsets,
}

impl Tally {
    /// No offset was counted.
    pub fn none() -> Tally
        ensures { tallied result ≡ none_counted }
    {
        Tally {
            met: Offsets::none(),
            repeated: Offsets::none(),
        }
    }

    /// Counts an offset.
    #[tactic(auto, unfolding(crate::specs::Tallies::with_one))]
    pub fn count(&mut self, offset: u16)
        ensures { tallied self.new ≡ with_one (tallied self.old) offset }
    {
        if self.met.has(offset) {
            self.repeated.insert(offset);
        }
        self.met.insert(offset);
    }

    /// The offsets that were counted.
    pub fn offsets(&self) -> &Offsets
        ensures { holds result.now ≡ (tallied self.now).met }
    {
        &self.met
    }

    /// Whether an offset was counted once.
    pub fn has_once(&self, offset: u16) -> bool
        ensures { result ≡ once (tallied self.now) offset }
    {
        self.met.has(offset) && !self.repeated.has(offset)
    }

    /// The nearest other offset that was counted, from an offset on.
    pub fn nearest(&self, offset: u16) -> Option<u16>
        ensures { IsNearest (tallied self.now) offset result }
    {
        if self.repeated.has(offset) {
            return Some(offset);
        }
        self.met.next_after(offset)
    }
}
