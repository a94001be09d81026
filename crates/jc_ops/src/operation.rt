ghost use Rattle.std.specs.Prelude.{◌≡◌};
ghost use Rattle.jc_ops.specs.Next.{falls_from, jumps_from, ends_at};

use jc_base::{Kind, Ty};

/// What an instruction loads, stores or returns, by the letter of its name.
#[derive(Clone, Copy)]
pub enum Sort {
    Reference,
    Short,
    Int,
}

/// The two sorts of numbers: a short is one cell, an int two.
#[derive(Clone, Copy)]
pub enum Width {
    Short,
    Int,
}

/// What a constant pushes.
#[derive(Clone, Copy)]
pub enum Constant {
    /// `nop` pushes nothing.
    Nothing,
    Null,
    Short(i32),
    Int(i32),
}

/// `pop`, `pop2`, `dup`, `dup2`, `dup_x` and `swap_x`, whose numbers count cells from the top.
#[derive(Clone, Copy)]
pub enum Move {
    Pop,
    PopTwo,
    Duplicate,
    DuplicateTwo,
    /// A copy of the top cells goes under the first of them, as many as are told, or on top.
    CopyUnder { copied: u8, under: u8 },
    /// The top cells change places with the cells under them.
    Exchange { top: u8, under: u8 },
}

/// What is computed of two numbers (JCVM 2.2, section 7.5, from `sadd` to `ixor`).
#[derive(Clone, Copy)]
pub enum Operator {
    Add,
    Subtract,
    Multiply,
    Divide,
    Remainder,
    ShiftLeft,
    ShiftRight,
    ShiftRightUnsigned,
    And,
    Or,
    ExclusiveOr,
}

/// What is computed of the numbers on top of the stack: of two, the negative of one, a conversion, or which of two ints is greater.
#[derive(Clone, Copy)]
pub enum Arithmetic {
    Binary(Operator, Width),
    Negate(Width),
    ShortToByte,
    ShortToInt,
    IntToByte,
    IntToShort,
    CompareInts,
}

/// How two numbers, or a number and zero, are compared.
#[derive(Clone, Copy)]
pub enum Order {
    Equal,
    NotEqual,
    Less,
    GreaterOrEqual,
    Greater,
    LessOrEqual,
}

/// How two references, or a reference and null, are compared.
#[derive(Clone, Copy)]
pub enum Sameness {
    Equal,
    Different,
}

/// What a branch asks: nothing, a short against zero, a reference against null, two references, two shorts.
#[derive(Clone, Copy)]
pub enum Branch {
    Always,
    Zero(Order),
    Null(Sameness),
    References(Sameness),
    Shorts(Order),
}

/// Where the object of a field stands: on the stack, or in register 0.
#[derive(Clone, Copy)]
pub enum Holder {
    Stack,
    This,
}

/// A static field: its first cell among the static cells of all packages, and the type of that cell.
#[derive(Clone, Copy)]
pub struct StaticField {
    pub slot: u16,
    pub kind: Kind,
    pub ty: Ty,
}

/// An instance field: its first cell among all cells of an object of the class, and the type of that cell.
#[derive(Clone, Copy)]
pub struct InstanceField {
    pub class: u16,
    pub cell: u16,
    pub kind: Kind,
    pub ty: Ty,
}

/// How the method that runs is chosen.
#[derive(Clone, Copy)]
pub enum Choice {
    /// By the receiver's class: the entry at a token of the dispatch lists, where the named class has the callee.
    Virtual { class: u16, token: u8 },
    /// The callee itself: a method of the superclass, a private method or a constructor.
    Special,
    /// The callee itself, which takes no receiver.
    Static,
    /// By the receiver's class: the method that serves the interface's token. The argument words are counted
    /// with the receiver.
    Interface { class: u16, token: u8, words: u8 },
}

/// What a call names: the method whose signature it has, by number, and what is wanted of a receiver.
#[derive(Clone, Copy)]
pub struct Callee {
    pub method: u16,
    pub receiver: Option<Want>,
    pub choice: Choice,
}

/// What a test of an object's type does: `checkcast` throws, and `instanceof` gives a short.
#[derive(Clone, Copy)]
pub enum TypeTest {
    Cast,
    InstanceOf,
}

/// What an instruction does, with all that its operands name in a world (JCVM 2.2, section 7.5). The distances
/// of branches and the cases of switches stay with the instruction.
#[derive(Clone, Copy)]
pub enum Operation {
    Constant(Constant),
    /// From a register, or from it and the next.
    Load(Sort, u8),
    /// Into a register, or into it and the next.
    Store(Sort, u8),
    Increment {
        width: Width,
        register: u8,
        amount: i32,
    },
    Move(Move),
    Arithmetic(Arithmetic),
    /// By the kind of the elements.
    ArrayRead(Kind),
    ArrayWrite(Kind),
    ArrayLength,
    Branch(Branch),
    /// By the width of the key.
    Switch(Width),
    StaticRead(StaticField),
    StaticWrite(StaticField),
    FieldRead(InstanceField, Holder),
    FieldWrite(InstanceField, Holder),
    Call(Callee),
    /// An object of the class, made at this place.
    New {
        place: u16,
        class: u16,
    },
    /// The type of the array; its elements may be of an interface, as itself.
    NewArray(Ty),
    Throw,
    /// The class or the array that is tested, an interface as itself.
    TypeTest(TypeTest, Ty),
    /// The result of the method's signature, where there is one.
    Return(Option<Ty>),
}

impl Operation {
    /// Whether the instruction after may come next.
    pub fn falls(self) -> bool
        ensures { result ≡ falls_from self }
    {
        match self {
            Operation::Branch(Branch::Always)
            | Operation::Switch(_)
            | Operation::Return(_)
            | Operation::Throw => false,
            _ => true,
        }
    }

    /// Whether the instruction names places to go to.
    pub fn jumps(self) -> bool
        ensures { result ≡ jumps_from self }
    {
        matches!(self, Operation::Branch(_) | Operation::Switch(_))
    }

    /// Whether the method ends here, or is left for a handler.
    pub fn ends(self) -> bool
        ensures { result ≡ ends_at self }
    {
        matches!(self, Operation::Return(_) | Operation::Throw)
    }
}

/// Where an instruction stands: its method, by number, and its offset in the method's code.
#[derive(Clone, Copy)]
pub struct Site {
    pub method: u16,
    pub place: u16,
}

/// What is wanted of the type of one cell or register.
#[derive(Clone, Copy)]
pub enum Want {
    /// A value of this type.
    Value(Ty),
    /// A reference that may be kept in a register.
    Storable,
    /// An array of bytes or of booleans.
    ByteArray,
    /// An array of any kind.
    AnyArray,
    /// No half of an int.
    Whole,
    /// An object of this class, or one that a constructor of the class is yet to make ready.
    Receiver(u16),
}
