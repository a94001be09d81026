use std::alloc::AllocError;

/// Why the bytes of a Load file are refused. Of several faults that one byte shows, the first of this list is told.
#[derive(Clone, Copy)]
pub enum StreamFault {
    /// A component begins with a tag that no component of a Load file has.
    NoTag(u8),
    /// A component begins with the second tag after the first, which does not come before it.
    Order(u8, u8),
    /// The contents of the blocks pass the room of so many bytes.
    Full(u32),
    /// A byte follows the ending.
    AfterEnd,
    /// The ending is missing, or a component is cut.
    Unfinished,
}

/// Why components are no Load file.
#[derive(Clone, Copy)]
pub enum BlocksEnd {
    /// It would have so many bytes, above 65,538.
    LoadLong(u32),
    /// There was no memory for it.
    Memory,
}

impl From<AllocError> for BlocksEnd {
    ghost use Rattle.std.specs.Prelude.{◌≡◌};
    ghost use Rattle.cap_load.specs.declared.fault.BlocksEnd.TheVariants.{Memory};

    ghost from_gives = { λ _ end. end ≡ Memory };

    fn from(_error: AllocError) -> BlocksEnd {
        BlocksEnd::Memory
    }
}

/// Why a loader gives no parts.
#[derive(Clone, Copy)]
pub enum FinishEnd {
    /// The bytes are refused.
    Fault(StreamFault),
    /// There was no memory for the list of parts.
    Memory,
}

impl From<AllocError> for FinishEnd {
    ghost use Rattle.std.specs.Prelude.{◌≡◌};
    ghost use Rattle.cap_load.specs.declared.fault.FinishEnd.TheVariants.{Memory};

    ghost from_gives = { λ _ end. end ≡ Memory };

    fn from(_error: AllocError) -> FinishEnd {
        FinishEnd::Memory
    }
}
