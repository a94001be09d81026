use vm_step::StartFault;

/// How much of the stack the runs of an entry take at most.
#[derive(Clone, Copy)]
pub enum Bound {
    /// No chain of calls from the entry has a method twice: so many words of frames, and so many frames.
    Words { words: u32, frames: u16 },
    /// The least method that stands twice in one chain of calls from the entry.
    Cycle(u16),
}

/// Why there is no bound.
#[derive(Clone, Copy)]
pub enum BoundEnd {
    /// No run begins with the entry: `NoEntry` or `NotStatic`.
    Fault(StartFault),
    Memory,
}
