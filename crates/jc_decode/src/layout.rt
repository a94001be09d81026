ghost use Rattle.std.specs.Prelude.{◌≡◌, IsTrue};
ghost use Rattle.jc_decode.specs.Layout.{layout_of, one, opcode, operand_width, total_width};

use self::Operand::{Absent, ArrayType, DupWords, SwapWords, TestedType};
use crate::insn::CodeEnd;

/// What stands at one of an instruction's three operands: its width, whether it is signed, and what it
/// may be.
#[derive(Clone, Copy)]
pub enum Operand {
    /// No operand.
    Absent,
    /// An unsigned byte.
    U1,
    /// An unsigned number of two bytes.
    U2,
    /// A signed byte.
    S1,
    /// A signed number of two bytes.
    S2,
    /// A signed number of four bytes.
    S4,
    /// The byte `mn` of `dup_x`: m from 1 to 4, and n either 0 or from m to m + 4.
    DupWords,
    /// The byte `mn` of `swap_x`: m and n are 1 or 2.
    SwapWords,
    /// The byte `atype` of `newarray`: 10 to 13.
    ArrayType,
    /// The byte `atype` of `checkcast` and `instanceof`: 0, or 10 to 14.
    TestedType,
}

/// The table after the operands of a switch.
#[derive(Clone, Copy)]
pub enum Cases {
    /// No table: the instruction is no switch.
    Absent,
    /// An offset for each number from the second operand to the third.
    Range,
    /// As many pairs of a key and an offset as the second operand says, by rising keys; the key is of
    /// this form.
    Pairs(Operand),
}

/// The operands of an instruction, in their order, and the table after them.
#[derive(Clone, Copy)]
pub struct Layout {
    pub x: Operand,
    pub y: Operand,
    pub z: Operand,
    pub cases: Cases,
}

/// What an opcode stands for.
#[derive(Clone, Copy)]
pub enum Opcode {
    /// An instruction with these operands.
    Instruction(Layout),
    /// An instruction that this profile leaves out.
    Reserved,
    /// The standard has none.
    Unused,
}

impl Operand {
    /// The number of its bytes.
    #[inline(always)]
    pub fn width(self) -> u32
        ensures { result ≡ operand_width self }
    {
        match self {
            Absent => 0,
            Operand::U2 | Operand::S2 => 2,
            Operand::S4 => 4,
            _ => 1,
        }
    }
}

impl Opcode {
    /// What an opcode stands for (JCVM 2.2, section 7.5).
    #[inline(always)]
    #[tactic(auto, using(crate::proofs::Opcodes::unused, crate::proofs::Opcodes::reserved))]
    fn of(op: u8) -> Opcode
        ensures { result ≡ opcode op }
    {
        match op {
            0..=184 => OPCODES[op as usize],
            254..=255 => RESERVED,
            _ => Opcode::Unused,
        }
    }
}

impl Layout {
    /// The operands of the instruction of this opcode.
    #[inline(always)]
    #[tactic(auto, unfolding(crate::specs::Layout::layout_of))]
    pub fn of(op: u8) -> Result<Layout, CodeEnd>
        ensures { result ≡ layout_of op }
    {
        match Opcode::of(op) {
            Opcode::Instruction(layout) => Ok(layout),
            Opcode::Reserved => Err(CodeEnd::OutOfScope(op)),
            Opcode::Unused => Err(CodeEnd::NoOpcode(op)),
        }
    }

    /// Whether there is no operand but the first, and no table.
    #[inline(always)]
    pub(crate) fn has_one(self) -> bool
        ensures { IsTrue result → self ≡ one self.x }
    {
        match self.y {
            Absent => match self.z {
                Absent => matches!(self.cases, Cases::Absent),
                _ => false,
            },
            _ => false,
        }
    }

    /// The number of bytes of the three operands together, at most twelve.
    pub fn width(self) -> u32
        ensures { result ≡ total_width self }
    {
        self.x.width() + self.y.width() + self.z.width()
    }
}

const RESERVED: Opcode = Opcode::Reserved;

pub(crate) const NO_OPERANDS: Layout = Layout {
    x: Absent,
    y: Absent,
    z: Absent,
    cases: Cases::Absent,
};

const PLAIN: Opcode = Opcode::Instruction(NO_OPERANDS);

const U1: Opcode = Opcode::Instruction(Layout {
    x: Operand::U1,
    ..NO_OPERANDS
});

const U2: Opcode = Opcode::Instruction(Layout {
    x: Operand::U2,
    ..NO_OPERANDS
});

const S1: Opcode = Opcode::Instruction(Layout {
    x: Operand::S1,
    ..NO_OPERANDS
});

const S2: Opcode = Opcode::Instruction(Layout {
    x: Operand::S2,
    ..NO_OPERANDS
});

const S4: Opcode = Opcode::Instruction(Layout {
    x: Operand::S4,
    ..NO_OPERANDS
});

const U1_S1: Opcode = Opcode::Instruction(Layout {
    x: Operand::U1,
    y: Operand::S1,
    ..NO_OPERANDS
});

const U1_S2: Opcode = Opcode::Instruction(Layout {
    x: Operand::U1,
    y: Operand::S2,
    ..NO_OPERANDS
});

const U1_U2_U1: Opcode = Opcode::Instruction(Layout {
    x: Operand::U1,
    y: Operand::U2,
    z: Operand::U1,
    cases: Cases::Absent,
});

const DUP_X: Opcode = Opcode::Instruction(Layout {
    x: DupWords,
    ..NO_OPERANDS
});

const SWAP_X: Opcode = Opcode::Instruction(Layout {
    x: SwapWords,
    ..NO_OPERANDS
});

const ARRAY: Opcode = Opcode::Instruction(Layout {
    x: ArrayType,
    ..NO_OPERANDS
});

const TYPE_U2: Opcode = Opcode::Instruction(Layout {
    x: TestedType,
    y: Operand::U2,
    ..NO_OPERANDS
});

const TABLE_SHORT: Opcode = Opcode::Instruction(Layout {
    x: Operand::S2,
    y: Operand::S2,
    z: Operand::S2,
    cases: Cases::Range,
});

const TABLE_INT: Opcode = Opcode::Instruction(Layout {
    x: Operand::S2,
    y: Operand::S4,
    z: Operand::S4,
    cases: Cases::Range,
});

const LOOKUP_SHORT: Opcode = Opcode::Instruction(Layout {
    x: Operand::S2,
    y: Operand::U2,
    z: Absent,
    cases: Cases::Pairs(Operand::S2),
});

const LOOKUP_INT: Opcode = Opcode::Instruction(Layout {
    x: Operand::S2,
    y: Operand::U2,
    z: Absent,
    cases: Cases::Pairs(Operand::S4),
});

/// What each opcode up to the last instruction stands for.
static OPCODES: [Opcode; 185] = [
    // 0: nop
    PLAIN,
    // 1: aconst_null
    PLAIN,
    // 2: sconst_m1
    PLAIN,
    PLAIN,
    PLAIN,
    PLAIN,
    PLAIN,
    PLAIN,
    PLAIN,
    // 9: iconst_m1
    PLAIN,
    PLAIN,
    PLAIN,
    PLAIN,
    PLAIN,
    PLAIN,
    PLAIN,
    // 16: bspush
    S1,
    S2,
    S1,
    S2,
    S4,
    // 21: aload
    U1,
    U1,
    U1,
    // 24: aload_0
    PLAIN,
    PLAIN,
    PLAIN,
    PLAIN,
    PLAIN,
    PLAIN,
    PLAIN,
    PLAIN,
    PLAIN,
    PLAIN,
    PLAIN,
    PLAIN,
    // 36: aaload
    PLAIN,
    PLAIN,
    PLAIN,
    PLAIN,
    // 40: astore
    U1,
    U1,
    U1,
    // 43: astore_0
    PLAIN,
    PLAIN,
    PLAIN,
    PLAIN,
    PLAIN,
    PLAIN,
    PLAIN,
    PLAIN,
    PLAIN,
    PLAIN,
    PLAIN,
    PLAIN,
    // 55: aastore
    PLAIN,
    PLAIN,
    PLAIN,
    PLAIN,
    // 59: pop
    PLAIN,
    PLAIN,
    PLAIN,
    PLAIN,
    DUP_X,
    SWAP_X,
    // 65: sadd
    PLAIN,
    PLAIN,
    PLAIN,
    PLAIN,
    PLAIN,
    PLAIN,
    PLAIN,
    PLAIN,
    PLAIN,
    PLAIN,
    PLAIN,
    PLAIN,
    PLAIN,
    PLAIN,
    PLAIN,
    PLAIN,
    PLAIN,
    PLAIN,
    PLAIN,
    PLAIN,
    PLAIN,
    PLAIN,
    PLAIN,
    PLAIN,
    // 89: sinc
    U1_S1,
    U1_S1,
    // 91: s2b
    PLAIN,
    PLAIN,
    PLAIN,
    PLAIN,
    PLAIN,
    // 96: ifeq
    S1,
    S1,
    S1,
    S1,
    S1,
    S1,
    S1,
    S1,
    // 104: if_acmpeq
    S1,
    S1,
    S1,
    S1,
    S1,
    S1,
    S1,
    S1,
    // 112: goto
    S1,
    // 113: jsr
    RESERVED,
    RESERVED,
    // 115: stableswitch
    TABLE_SHORT,
    TABLE_INT,
    LOOKUP_SHORT,
    LOOKUP_INT,
    // 119: areturn
    PLAIN,
    PLAIN,
    PLAIN,
    PLAIN,
    // 123: getstatic_a
    U2,
    U2,
    U2,
    U2,
    U2,
    U2,
    U2,
    U2,
    // 131: getfield_a
    U1,
    U1,
    U1,
    U1,
    U1,
    U1,
    U1,
    U1,
    // 139: invokevirtual
    U2,
    U2,
    U2,
    U1_U2_U1,
    // 143: new
    U2,
    ARRAY,
    U2,
    PLAIN,
    // 147: athrow
    PLAIN,
    TYPE_U2,
    TYPE_U2,
    U1_S2,
    U1_S2,
    // 152: ifeq_w
    S2,
    S2,
    S2,
    S2,
    S2,
    S2,
    S2,
    S2,
    // 160: if_acmpeq_w
    S2,
    S2,
    S2,
    S2,
    S2,
    S2,
    S2,
    S2,
    // 168: goto_w
    S2,
    // 169: getfield_a_w
    U2,
    U2,
    U2,
    U2,
    // 173: getfield_a_this
    U1,
    U1,
    U1,
    U1,
    // 177: putfield_a_w
    U2,
    U2,
    U2,
    U2,
    // 181: putfield_a_this
    U1,
    U1,
    U1,
    U1,
];
