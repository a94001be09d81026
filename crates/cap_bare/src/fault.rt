use jc_decode::CodeEnd;

/// Why a bare method has no typing, and at which place of its code.
#[derive(Clone, Copy)]
pub struct BareFault {
    /// The offset of an instruction from the first byte of the code.
    pub place: u16,
    pub kind: BareKind,
}

/// What fails at a place of a bare method.
#[derive(Clone, Copy)]
pub enum BareKind {
    /// No instruction of bare methods begins there, and the code goes on.
    Code(CodeEnd),
    /// The stack has fewer cells than the instruction takes.
    Underflow,
    /// The stack would have more cells than the method's greatest number.
    Overflow,
    /// The method has no register of this number.
    NoLocal(u8),
    /// The place is a target, and is fallen into with a stack that is not empty.
    StackAtTarget,
    /// The stack is not empty once the branch has popped its operands.
    StackAtBranch,
    /// The branch leads to this place, at which no instruction begins.
    BadTarget(i32),
    /// The last instruction of the code falls through.
    FallsOff,
}
