ghost use Rattle.std.specs.Prelude.{◌≡◌};
ghost use Rattle.cap_bare.specs.Effects.{register_of, cells_taken, cells_given};
ghost use Rattle.cap_bare.specs.Machine.{binary};

use jc_ops::{Operator, Order};
use vm_arithmetic::of_shorts;

/// What is computed of two shorts, of which the second was on top of the stack.
pub fn binary(operator: Operator, first: i16, second: i16) -> i16
    ensures { result ≡ binary operator first second }
{
    match of_shorts(operator, first, second) {
        Some(value) => value,
        None => 0,
    }
}

/// What an instruction of a bare method does, with its operands.
#[derive(Clone, Copy)]
pub enum Instruction {
    /// `nop`
    Nop,
    /// `sconst_<s>`, `bspush`, `sspush`: pushes this short.
    Push(i16),
    /// `sload`, `sload_<n>`: pushes what this register holds.
    Load(u8),
    /// `sstore`, `sstore_<n>`: pops a short into this register.
    Store(u8),
    /// `sinc`: adds this short to this register.
    Increment(u8, i16),
    /// `pop`
    Pop,
    /// `dup`
    Duplicate,
    /// `sneg`
    Negate,
    /// `s2b`: the low eight bits of the short on top, as a signed byte.
    ToByte,
    /// Computes with the two shorts on top.
    Binary(Operator),
    /// `if<cond>`: compares the short on top with 0, and goes to its target where that holds.
    Test(Order),
    /// `if_scmp<cond>`: compares the two shorts on top, and goes to its target where that holds.
    Compare(Order),
    /// `goto`
    Goto,
    /// `sreturn`
    Return,
}

impl Instruction {
    /// The register that it names.
    pub fn register(self) -> Option<u8>
        ensures { result ≡ register_of self }
    {
        match self {
            Instruction::Load(x) | Instruction::Store(x) | Instruction::Increment(x, _) => Some(x),
            _ => None,
        }
    }

    /// How many cells it takes from the stack.
    pub fn taken(self) -> usize
        ensures { result ≡ cells_taken self }
    {
        match self {
            Instruction::Store(_) | Instruction::Pop | Instruction::Duplicate => 1,
            Instruction::Negate
            | Instruction::ToByte
            | Instruction::Test(_)
            | Instruction::Return => 1,
            Instruction::Binary(_) | Instruction::Compare(_) => 2,
            _ => 0,
        }
    }

    /// How many cells it gives to the stack.
    pub fn given(self) -> usize
        ensures { result ≡ cells_given self }
    {
        match self {
            Instruction::Push(_) | Instruction::Load(_) => 1,
            Instruction::Negate | Instruction::ToByte | Instruction::Binary(_) => 1,
            Instruction::Duplicate => 2,
            _ => 0,
        }
    }
}
