ghost use Rattle.std.specs.Prelude.{◌≡◌};
ghost use Rattle.jc_decode.specs.Decoding.{with_operands};

/// One decoded instruction.
#[derive(Clone, Copy)]
pub struct Insn {
    /// The opcode.
    pub op: u8,
    /// The first operand, or 0 where there is none. Of a switch, the default's offset.
    pub x: i32,
    /// The second operand, or 0. Of a table switch `low`, of a lookup switch the number of pairs.
    pub y: i32,
    /// The third operand, or 0. Of a table switch `high`.
    pub z: i32,
    /// The number of its bytes, the opcode and the table of a switch among them.
    pub len: u32,
}

/// The operands of an instruction and the number of its bytes: numbers of one width, which need no memory on their way.
#[derive(Clone, Copy)]
pub(crate) struct Operands {
    pub x: i32,
    pub y: i32,
    pub z: i32,
    pub len: u32,
}

impl Operands {
    /// An instruction with these operands.
    #[inline(always)]
    pub(crate) fn of_opcode(self, op: u8) -> Insn
        ensures { result ≡ with_operands op self }
    {
        Insn {
            op,
            x: self.x,
            y: self.y,
            z: self.z,
            len: self.len,
        }
    }
}

/// An instruction and the place of its opcode in the method's code.
#[derive(Clone, Copy)]
pub struct Placed {
    pub place: u16,
    pub insn: Insn,
}

/// One case of a switch.
#[derive(Clone, Copy)]
pub struct Case {
    /// The value that is matched.
    pub key: i32,
    /// The distance of its target from the switch's opcode.
    pub offset: i16,
}

/// Why no instruction begins at a place.
#[derive(Clone, Copy)]
pub enum CodeEnd {
    /// The standard has no instruction of this opcode.
    NoOpcode(u8),
    /// The bytes end within the instruction, or before it.
    Cut,
    /// An instruction that this profile leaves out: `jsr`, `ret` and the two reserved opcodes.
    OutOfScope(u8),
    /// An operand that the instruction forbids, by its first byte.
    BadOperand(u8),
}
