use jc_base::Ty;

/// Why the typing rule of an instruction refuses (Leroy 2002, section 2.2).
#[derive(Clone, Copy)]
pub enum RuleFault {
    /// The stack has too few cells.
    Underflow,
    /// The stack would pass the method's `max_stack`.
    Overflow,
    /// A cell or a register has a type that is not below the wanted one.
    Mismatch { found: Ty, wanted: Ty },
    /// The method has no register of this number.
    NoLocal(u8),
    /// One half of an int would be taken without the other.
    SplitInt,
    /// An object on which no constructor was called would be stored or carried over a branch.
    FreshKept,
    /// The constant pool entry of this number names no member that the instruction takes.
    BadMember(u16),
    /// `new` names this class, of which there are no objects.
    NotConcrete(u16),
    /// Two stacks that meet at a place have different depths, or cells with no type in common.
    StackMerge,
}
