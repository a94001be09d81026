ghost use Rattle.std.specs.Prelude.{◌≡◌, ◌≤◌, length, IfOk, Ok};
ghost use Rattle.jc_decode.specs.Decoding.{decoded, FitsLayout, IsWithin};
ghost use Rattle.jc_decode.specs.Layout.{layout_of};
ghost use Rattle.cap_bare.specs.Code.{fetched};
ghost use Rattle.cap_bare.specs.Format.{instruction_format, resolved, instruction_of, FitsFormat};

use self::BareFormat::{Constant, Implied, Increments, Loads, Stores};
use crate::instruction::Instruction;
use crate::instruction::Instruction::{
    Binary, Compare, Duplicate, Goto, Load, Negate, Nop, Pop, Push, Return, Store, Test, ToByte,
};
use cap_bytes::View;
use jc_decode::{CodeEnd, Insn, decode};
use jc_ops::{Operator, Order};

/// The numbers in the header of a bare method, each at most 15, since the compact header of a method has four
/// bits for each (Java Card 2.2 VM Specification, section 6.9).
#[derive(Clone, Copy)]
pub struct Bare {
    /// The number of arguments.
    pub nargs: u8,
    /// The number of local variables, without the arguments.
    pub max_locals: u8,
    /// The most cells that the operand stack may hold.
    pub max_stack: u8,
}

/// The instruction that begins at a place, of those that bare methods have.
#[tactic(auto, unfolding(crate::specs::Code::fetched))]
pub fn fetch(code: View<'_>, place: u16) -> Result<Insn, CodeEnd>
    requires { length code.bytes.now ≤ 32767 }
    ensures value { result ≡ fetched code.entry.bytes.now place }
    ensures decoded { IfOk result (λ i. decoded code.entry.bytes.now place ≡ Ok i) }
    ensures within { IfOk result (λ i. IsWithin code.entry.bytes.now place i) }
    ensures operands { IfOk result (λ i. FitsLayout i (layout_of i.op)) }
{
    if let Some(opcode) = code.u1(u32::from(place)) {
        if BareFormat::of(opcode).is_none() {
            return Err(CodeEnd::OutOfScope(opcode));
        }
    }
    decode(code, place)
}

/// How an opcode and its operands make an instruction of a bare method.
#[derive(Clone, Copy)]
pub enum BareFormat {
    /// The opcode alone says it.
    Implied(Instruction),
    /// The operand is the short to push.
    Constant,
    /// The operand is the register to load.
    Loads,
    /// The operand is the register to store into.
    Stores,
    /// The operands are a register and what is added to it.
    Increments,
}

impl BareFormat {
    /// How this opcode makes an instruction, where bare methods have it.
    pub fn of(opcode: u8) -> Option<BareFormat>
        ensures { result ≡ instruction_format opcode }
    {
        if (opcode as usize) < FORMATS.len() {
            FORMATS[opcode as usize]
        } else {
            None
        }
    }

    /// The instruction with these operands.
    fn resolved(self, insn: Insn) -> Instruction
        requires { FitsFormat self insn }
        ensures { result ≡ resolved self insn }
    {
        match self {
            BareFormat::Implied(instruction) => instruction,
            BareFormat::Constant => Instruction::Push(insn.x as i16),
            BareFormat::Loads => Instruction::Load(insn.x as u8),
            BareFormat::Stores => Instruction::Store(insn.x as u8),
            BareFormat::Increments => Instruction::Increment(insn.x as u8, insn.y as i16),
        }
    }
}

/// What the instruction does, where bare methods have its opcode.
pub fn instruction_of(insn: Insn) -> Instruction
    requires { FitsLayout insn (layout_of insn.op) }
    ensures { result ≡ instruction_of insn }
{
    match BareFormat::of(insn.op) {
        Some(format) => format.resolved(insn),
        None => Instruction::Nop,
    }
}

/// The instructions of bare methods, by opcode.
static FORMATS: [Option<BareFormat>; 121] = [
    // 0: nop
    Some(Implied(Nop)),
    None,
    // 2: sconst_m1
    Some(Implied(Push(-1))),
    Some(Implied(Push(0))),
    Some(Implied(Push(1))),
    Some(Implied(Push(2))),
    Some(Implied(Push(3))),
    Some(Implied(Push(4))),
    Some(Implied(Push(5))),
    None,
    None,
    None,
    None,
    None,
    None,
    None,
    // 16: bspush
    Some(Constant),
    // 17: sspush
    Some(Constant),
    None,
    None,
    None,
    None,
    // 22: sload
    Some(Loads),
    None,
    None,
    None,
    None,
    None,
    // 28: sload_0
    Some(Implied(Load(0))),
    Some(Implied(Load(1))),
    Some(Implied(Load(2))),
    Some(Implied(Load(3))),
    None,
    None,
    None,
    None,
    None,
    None,
    None,
    None,
    None,
    // 41: sstore
    Some(Stores),
    None,
    None,
    None,
    None,
    None,
    // 47: sstore_0
    Some(Implied(Store(0))),
    Some(Implied(Store(1))),
    Some(Implied(Store(2))),
    Some(Implied(Store(3))),
    None,
    None,
    None,
    None,
    None,
    None,
    None,
    None,
    // 59: pop
    Some(Implied(Pop)),
    None,
    // 61: dup
    Some(Implied(Duplicate)),
    None,
    None,
    None,
    // 65: sadd
    Some(Implied(Binary(Operator::Add))),
    None,
    // 67: ssub
    Some(Implied(Binary(Operator::Subtract))),
    None,
    // 69: smul
    Some(Implied(Binary(Operator::Multiply))),
    None,
    None,
    None,
    None,
    None,
    // 75: sneg
    Some(Implied(Negate)),
    None,
    // 77: sshl
    Some(Implied(Binary(Operator::ShiftLeft))),
    None,
    // 79: sshr
    Some(Implied(Binary(Operator::ShiftRight))),
    None,
    // 81: sushr
    Some(Implied(Binary(Operator::ShiftRightUnsigned))),
    None,
    // 83: sand
    Some(Implied(Binary(Operator::And))),
    None,
    // 85: sor
    Some(Implied(Binary(Operator::Or))),
    None,
    // 87: sxor
    Some(Implied(Binary(Operator::ExclusiveOr))),
    None,
    // 89: sinc
    Some(Increments),
    None,
    // 91: s2b
    Some(Implied(ToByte)),
    None,
    None,
    None,
    None,
    // 96: ifeq
    Some(Implied(Test(Order::Equal))),
    Some(Implied(Test(Order::NotEqual))),
    Some(Implied(Test(Order::Less))),
    Some(Implied(Test(Order::GreaterOrEqual))),
    Some(Implied(Test(Order::Greater))),
    Some(Implied(Test(Order::LessOrEqual))),
    None,
    None,
    None,
    None,
    // 106: if_scmpeq
    Some(Implied(Compare(Order::Equal))),
    Some(Implied(Compare(Order::NotEqual))),
    Some(Implied(Compare(Order::Less))),
    Some(Implied(Compare(Order::GreaterOrEqual))),
    Some(Implied(Compare(Order::Greater))),
    Some(Implied(Compare(Order::LessOrEqual))),
    // 112: goto
    Some(Implied(Goto)),
    None,
    None,
    None,
    None,
    None,
    None,
    None,
    // 120: sreturn
    Some(Implied(Return)),
];
