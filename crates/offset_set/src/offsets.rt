ghost use Rattle.std.specs.Prelude.{◌≡◌, ◌<◌, ◌^◌, slice_index};
ghost use Rattle.offset_set.specs.Bits.{holds};
ghost use Rattle.offset_set.specs.Sets.{nowhere, also, IsNext};

/// The words of 64 bits that have a bit for each offset.
const WORDS: usize = 1024;

/// A set of offsets.
#[derive(Drop)]
pub struct Offsets {
    words: [u64; WORDS],
}

impl Offsets {
    /// No offset.
    pub fn none() -> Offsets
        ensures { holds result ≡ nowhere }
    {
        Offsets { words: [0; WORDS] }
    }

    /// Adds an offset.
    pub fn insert(&mut self, offset: u16)
        ensures { holds self.new ≡ also offset (holds self.old) }
    {
        self.words[offset as usize / 64] |= 1 << (offset as u32 % 64);
    }

    /// Whether the set has an offset.
    pub fn has(&self, offset: u16) -> bool
        ensures { result ≡ holds self.now offset }
    {
        self.words[offset as usize / 64] >> (offset as u32 % 64) & 1 == 1
    }

    /// A word of bits.
    fn bits(&self, word: usize) -> u64
        requires { word < 1024 }
        ensures value { result ≡ slice_index self.now.words word }
        ensures short { result < 2 ^ 64 }
    {
        self.words[word]
    }

    /// The least offset of the set above an offset.
    pub fn next_after(&self, offset: u16) -> Option<u16>
        ensures { IsNext (holds self.now) offset result }
    {
        let first = offset as usize / 64;
        let above = self.bits(first) >> (offset as u32 % 64) >> 1;
        if above != 0 {
            return Some((offset as u32 + 1 + above.trailing_zeros()) as u16);
        }
        let mut word = first + 1;
        'words: while word < WORDS {
            let bits = self.bits(word);
            if bits != 0 {
                return Some((word as u32 * 64 + bits.trailing_zeros()) as u16);
            }
            word += 1;
        }
        None
    }
}
