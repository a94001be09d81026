ghost use Rattle.std.specs.Prelude.{◌≡◌, ◌<◌, ◌⊎◌, MatchBool};
ghost use Rattle.xf_live.specs.Set.{Has, weight, IsSmall, no_registers, IsEmpty, IsWith, IsUnion, IsMinus};

/// A set of registers: a bit for each of 256, in four words.
#[derive(Clone, Copy)]
pub struct RegisterSet {
    first: u64,
    second: u64,
    third: u64,
    fourth: u64,
}

impl RegisterSet {
    /// The empty set.
    pub fn new() -> RegisterSet
        ensures is { result ≡ no_registers }
        ensures empty { IsEmpty result }
        ensures small { IsSmall result }
    {
        RegisterSet {
            first: 0,
            second: 0,
            third: 0,
            fourth: 0,
        }
    }

    /// The set with one register more.
    pub fn with(self, register: u8) -> RegisterSet
        ensures { IsWith self register result }
    {
        let bit = 1u64 << (register % 64);
        match register / 64 {
            0 => RegisterSet {
                first: self.first | bit,
                ..self
            },
            1 => RegisterSet {
                second: self.second | bit,
                ..self
            },
            2 => RegisterSet {
                third: self.third | bit,
                ..self
            },
            _ => RegisterSet {
                fourth: self.fourth | bit,
                ..self
            },
        }
    }

    /// Whether the register is in the set.
    pub fn has(self, register: u8) -> bool
        ensures { MatchBool result (Has self register) (¬ (Has self register)) }
    {
        let word = match register / 64 {
            0 => self.first,
            1 => self.second,
            2 => self.third,
            _ => self.fourth,
        };
        (word >> (register % 64)) & 1 == 1
    }

    /// The registers of both.
    pub fn union(self, other: RegisterSet) -> RegisterSet
        ensures is { IsUnion self other result }
        ensures rises { (result ≡ self) ⊎ (weight self < weight result) }
        ensures small { IsSmall result }
    {
        RegisterSet {
            first: self.first | other.first,
            second: self.second | other.second,
            third: self.third | other.third,
            fourth: self.fourth | other.fourth,
        }
    }

    /// The registers of the first that are not in the other.
    pub fn minus(self, other: RegisterSet) -> RegisterSet
        ensures { IsMinus self other result }
    {
        RegisterSet {
            first: self.first & !other.first,
            second: self.second & !other.second,
            third: self.third & !other.third,
            fourth: self.fourth & !other.fourth,
        }
    }

    /// Whether they have the same registers.
    pub fn is(self, other: RegisterSet) -> bool
        ensures { MatchBool result (self ≡ other) (¬ (self ≡ other)) }
    {
        self.first == other.first
            && self.second == other.second
            && self.third == other.third
            && self.fourth == other.fourth
    }
}
