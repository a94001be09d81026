use std::alloc::AllocError;

/// Why a text is no listing, or its methods do not fit a package.
#[derive(Clone, Copy)]
pub enum AsmFault {
    /// The first line, counted from 1, with which the text begins no listing; the last line, where it has no line feed; or the
    /// one after the last, where `end` is missing.
    NotListing(usize),
    /// The first method, counted from 0, that is not the package's method with code of that number: another class
    /// number, method number or number of argument words, or one of the two is missing.
    OtherMethod(usize),
    /// The first method whose arguments and locals are above 255 words together, and how many they are.
    Registers(usize, u16),
    /// The first method with a handler whose range ends after the code or whose entry is not in it, and the number of
    /// the first such handler.
    HandlerRange(usize, usize),
    /// The first method whose code has no byte or more than 32,767, and how many it has.
    CodeLength(usize, usize),
    /// The package would have more than 255 handlers; how many.
    TooManyHandlers(usize),
}

/// Why a text is not assembled, or its methods not put into a package.
#[derive(Clone, Copy)]
pub enum AsmEnd {
    Fault(AsmFault),
    Memory,
}

impl From<AllocError> for AsmEnd {
    ghost use Rattle.std.specs.Prelude.{◌≡◌};
    ghost use Rattle.cap_listing.specs.declared.fault.AsmEnd.TheVariants.{Memory};

    ghost from_gives = { λ _ end. end ≡ Memory };

    fn from(_error: AllocError) -> AsmEnd {
        AsmEnd::Memory
    }
}
