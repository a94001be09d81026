use jc_ops::Operation;

/// Where an edge of rewritten code begins.
#[derive(Clone, Copy)]
pub enum Origin {
    /// Before the method's first instruction.
    Start,
    /// At a place, after its operation.
    After(u16, Operation),
    /// Where a handler takes over, whose entry is this place.
    Entry(u16),
}
