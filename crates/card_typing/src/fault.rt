use jc_decode::CodeEnd;
use jc_ops::RuleFault;

/// Why a method has no card typing, and where.
#[derive(Clone, Copy)]
pub struct CardFault {
    /// The place of the instruction, or the entry of the handler, as an offset in the method's code.
    pub place: u16,
    /// The number of stack cells that are kept with the registers.
    pub depth: u8,
    pub kind: CardKind,
}

/// What is wrong at the place of a `CardFault`.
#[derive(Clone, Copy)]
pub enum CardKind {
    /// No instruction is decoded here.
    Code(CodeEnd),
    /// The typing rule of the instruction refuses, or there is no room for the object that a handler catches.
    Rule(RuleFault),
    /// A target is fallen into with cells on the stack.
    StackAtTarget,
    /// A branch or switch leaves cells on the stack.
    StackAtBranch,
    /// A handler's entry is fallen into, or is a target.
    HandlerEntered,
    /// The branch or switch leads to this place, where no instruction begins.
    BadTarget(i32),
    /// The last instruction falls through.
    FallsOff,
    /// The handler of this number in the method's table is not well formed.
    BadHandler(u16),
    /// The entry of this number in the method's target index names no place where an instruction begins, or none above
    /// that of the entry before it.
    BadIndex(u32),
    /// The branch or switch leads to this place, which the target index lacks.
    NotIndexed(u16),
}
