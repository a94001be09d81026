ghost use Rattle.std.specs.Prelude.{◌≡◌};
ghost use Rattle.jc_ops.specs.Row.{row_at};

use crate::operation::{
    Arithmetic, Branch, Constant, Holder, Move, Operation, Operator, Order, Sameness, Sort,
    TypeTest, Width,
};
use jc_base::Kind;

/// By which instruction a method is called.
#[derive(Clone, Copy)]
pub(crate) enum Invocation {
    Virtual,
    Special,
    Static,
    Interface,
}

/// What an instruction is by its opcode alone: an operation, or one that its operands complete.
#[derive(Clone, Copy)]
pub(crate) enum Row {
    Plain(Operation),
    PushShort,
    PushInt,
    Load(Sort),
    Store(Sort),
    Increment(Width),
    CopyUnder,
    Exchange,
    StaticRead(Kind),
    StaticWrite(Kind),
    FieldRead(Kind, Holder),
    FieldWrite(Kind, Holder),
    Call(Invocation),
    New,
    NewNumbers,
    NewReferences,
    TypeTest(TypeTest),
    /// By what is returned; none is void.
    Return(Option<Sort>),
}

/// By opcode (JCVM 2.2, section 7.5), up to the last instruction's.
static ROWS: [Row; 185] = [
    // nop, aconst_null
    Row::Plain(Operation::Constant(Constant::Nothing)),
    Row::Plain(Operation::Constant(Constant::Null)),
    // sconst_m1 to sconst_5
    Row::Plain(Operation::Constant(Constant::Short(-1))),
    Row::Plain(Operation::Constant(Constant::Short(0))),
    Row::Plain(Operation::Constant(Constant::Short(1))),
    Row::Plain(Operation::Constant(Constant::Short(2))),
    Row::Plain(Operation::Constant(Constant::Short(3))),
    Row::Plain(Operation::Constant(Constant::Short(4))),
    Row::Plain(Operation::Constant(Constant::Short(5))),
    // iconst_m1 to iconst_5
    Row::Plain(Operation::Constant(Constant::Int(-1))),
    Row::Plain(Operation::Constant(Constant::Int(0))),
    Row::Plain(Operation::Constant(Constant::Int(1))),
    Row::Plain(Operation::Constant(Constant::Int(2))),
    Row::Plain(Operation::Constant(Constant::Int(3))),
    Row::Plain(Operation::Constant(Constant::Int(4))),
    Row::Plain(Operation::Constant(Constant::Int(5))),
    // bspush, sspush
    Row::PushShort,
    Row::PushShort,
    // bipush, sipush, iipush
    Row::PushInt,
    Row::PushInt,
    Row::PushInt,
    // aload, sload, iload
    Row::Load(Sort::Reference),
    Row::Load(Sort::Short),
    Row::Load(Sort::Int),
    // aload_0 to aload_3
    Row::Plain(Operation::Load(Sort::Reference, 0)),
    Row::Plain(Operation::Load(Sort::Reference, 1)),
    Row::Plain(Operation::Load(Sort::Reference, 2)),
    Row::Plain(Operation::Load(Sort::Reference, 3)),
    // sload_0 to sload_3
    Row::Plain(Operation::Load(Sort::Short, 0)),
    Row::Plain(Operation::Load(Sort::Short, 1)),
    Row::Plain(Operation::Load(Sort::Short, 2)),
    Row::Plain(Operation::Load(Sort::Short, 3)),
    // iload_0 to iload_3
    Row::Plain(Operation::Load(Sort::Int, 0)),
    Row::Plain(Operation::Load(Sort::Int, 1)),
    Row::Plain(Operation::Load(Sort::Int, 2)),
    Row::Plain(Operation::Load(Sort::Int, 3)),
    // aaload, baload, saload, iaload
    Row::Plain(Operation::ArrayRead(Kind::Ref)),
    Row::Plain(Operation::ArrayRead(Kind::Byte)),
    Row::Plain(Operation::ArrayRead(Kind::Short)),
    Row::Plain(Operation::ArrayRead(Kind::Int)),
    // astore, sstore, istore
    Row::Store(Sort::Reference),
    Row::Store(Sort::Short),
    Row::Store(Sort::Int),
    // astore_0 to astore_3
    Row::Plain(Operation::Store(Sort::Reference, 0)),
    Row::Plain(Operation::Store(Sort::Reference, 1)),
    Row::Plain(Operation::Store(Sort::Reference, 2)),
    Row::Plain(Operation::Store(Sort::Reference, 3)),
    // sstore_0 to sstore_3
    Row::Plain(Operation::Store(Sort::Short, 0)),
    Row::Plain(Operation::Store(Sort::Short, 1)),
    Row::Plain(Operation::Store(Sort::Short, 2)),
    Row::Plain(Operation::Store(Sort::Short, 3)),
    // istore_0 to istore_3
    Row::Plain(Operation::Store(Sort::Int, 0)),
    Row::Plain(Operation::Store(Sort::Int, 1)),
    Row::Plain(Operation::Store(Sort::Int, 2)),
    Row::Plain(Operation::Store(Sort::Int, 3)),
    // aastore, bastore, sastore, iastore
    Row::Plain(Operation::ArrayWrite(Kind::Ref)),
    Row::Plain(Operation::ArrayWrite(Kind::Byte)),
    Row::Plain(Operation::ArrayWrite(Kind::Short)),
    Row::Plain(Operation::ArrayWrite(Kind::Int)),
    // pop, pop2, dup, dup2
    Row::Plain(Operation::Move(Move::Pop)),
    Row::Plain(Operation::Move(Move::PopTwo)),
    Row::Plain(Operation::Move(Move::Duplicate)),
    Row::Plain(Operation::Move(Move::DuplicateTwo)),
    // dup_x, swap_x
    Row::CopyUnder,
    Row::Exchange,
    // sadd, iadd
    Row::Plain(Operation::Arithmetic(Arithmetic::Binary(Operator::Add, Width::Short))),
    Row::Plain(Operation::Arithmetic(Arithmetic::Binary(Operator::Add, Width::Int))),
    // ssub, isub
    Row::Plain(Operation::Arithmetic(Arithmetic::Binary(Operator::Subtract, Width::Short))),
    Row::Plain(Operation::Arithmetic(Arithmetic::Binary(Operator::Subtract, Width::Int))),
    // smul, imul
    Row::Plain(Operation::Arithmetic(Arithmetic::Binary(Operator::Multiply, Width::Short))),
    Row::Plain(Operation::Arithmetic(Arithmetic::Binary(Operator::Multiply, Width::Int))),
    // sdiv, idiv
    Row::Plain(Operation::Arithmetic(Arithmetic::Binary(Operator::Divide, Width::Short))),
    Row::Plain(Operation::Arithmetic(Arithmetic::Binary(Operator::Divide, Width::Int))),
    // srem, irem
    Row::Plain(Operation::Arithmetic(Arithmetic::Binary(Operator::Remainder, Width::Short))),
    Row::Plain(Operation::Arithmetic(Arithmetic::Binary(Operator::Remainder, Width::Int))),
    // sneg, ineg
    Row::Plain(Operation::Arithmetic(Arithmetic::Negate(Width::Short))),
    Row::Plain(Operation::Arithmetic(Arithmetic::Negate(Width::Int))),
    // sshl, ishl
    Row::Plain(Operation::Arithmetic(Arithmetic::Binary(Operator::ShiftLeft, Width::Short))),
    Row::Plain(Operation::Arithmetic(Arithmetic::Binary(Operator::ShiftLeft, Width::Int))),
    // sshr, ishr
    Row::Plain(Operation::Arithmetic(Arithmetic::Binary(Operator::ShiftRight, Width::Short))),
    Row::Plain(Operation::Arithmetic(Arithmetic::Binary(Operator::ShiftRight, Width::Int))),
    // sushr, iushr
    Row::Plain(Operation::Arithmetic(Arithmetic::Binary(
        Operator::ShiftRightUnsigned,
        Width::Short,
    ))),
    Row::Plain(Operation::Arithmetic(Arithmetic::Binary(Operator::ShiftRightUnsigned, Width::Int))),
    // sand, iand
    Row::Plain(Operation::Arithmetic(Arithmetic::Binary(Operator::And, Width::Short))),
    Row::Plain(Operation::Arithmetic(Arithmetic::Binary(Operator::And, Width::Int))),
    // sor, ior
    Row::Plain(Operation::Arithmetic(Arithmetic::Binary(Operator::Or, Width::Short))),
    Row::Plain(Operation::Arithmetic(Arithmetic::Binary(Operator::Or, Width::Int))),
    // sxor, ixor
    Row::Plain(Operation::Arithmetic(Arithmetic::Binary(Operator::ExclusiveOr, Width::Short))),
    Row::Plain(Operation::Arithmetic(Arithmetic::Binary(Operator::ExclusiveOr, Width::Int))),
    // sinc, iinc
    Row::Increment(Width::Short),
    Row::Increment(Width::Int),
    // s2b, s2i, i2b, i2s, icmp
    Row::Plain(Operation::Arithmetic(Arithmetic::ShortToByte)),
    Row::Plain(Operation::Arithmetic(Arithmetic::ShortToInt)),
    Row::Plain(Operation::Arithmetic(Arithmetic::IntToByte)),
    Row::Plain(Operation::Arithmetic(Arithmetic::IntToShort)),
    Row::Plain(Operation::Arithmetic(Arithmetic::CompareInts)),
    // ifeq, ifne, iflt, ifge, ifgt, ifle
    Row::Plain(Operation::Branch(Branch::Zero(Order::Equal))),
    Row::Plain(Operation::Branch(Branch::Zero(Order::NotEqual))),
    Row::Plain(Operation::Branch(Branch::Zero(Order::Less))),
    Row::Plain(Operation::Branch(Branch::Zero(Order::GreaterOrEqual))),
    Row::Plain(Operation::Branch(Branch::Zero(Order::Greater))),
    Row::Plain(Operation::Branch(Branch::Zero(Order::LessOrEqual))),
    // ifnull, ifnonnull
    Row::Plain(Operation::Branch(Branch::Null(Sameness::Equal))),
    Row::Plain(Operation::Branch(Branch::Null(Sameness::Different))),
    // if_acmpeq, if_acmpne
    Row::Plain(Operation::Branch(Branch::References(Sameness::Equal))),
    Row::Plain(Operation::Branch(Branch::References(Sameness::Different))),
    // if_scmpeq, if_scmpne, if_scmplt, if_scmpge, if_scmpgt, if_scmple
    Row::Plain(Operation::Branch(Branch::Shorts(Order::Equal))),
    Row::Plain(Operation::Branch(Branch::Shorts(Order::NotEqual))),
    Row::Plain(Operation::Branch(Branch::Shorts(Order::Less))),
    Row::Plain(Operation::Branch(Branch::Shorts(Order::GreaterOrEqual))),
    Row::Plain(Operation::Branch(Branch::Shorts(Order::Greater))),
    Row::Plain(Operation::Branch(Branch::Shorts(Order::LessOrEqual))),
    // goto
    Row::Plain(Operation::Branch(Branch::Always)),
    // jsr, ret: no instruction of this profile
    Row::Plain(Operation::Constant(Constant::Nothing)),
    Row::Plain(Operation::Constant(Constant::Nothing)),
    // stableswitch, itableswitch
    Row::Plain(Operation::Switch(Width::Short)),
    Row::Plain(Operation::Switch(Width::Int)),
    // slookupswitch, ilookupswitch
    Row::Plain(Operation::Switch(Width::Short)),
    Row::Plain(Operation::Switch(Width::Int)),
    // areturn, sreturn, ireturn, return
    Row::Return(Some(Sort::Reference)),
    Row::Return(Some(Sort::Short)),
    Row::Return(Some(Sort::Int)),
    Row::Return(None),
    // getstatic_a, getstatic_b, getstatic_s, getstatic_i
    Row::StaticRead(Kind::Ref),
    Row::StaticRead(Kind::Byte),
    Row::StaticRead(Kind::Short),
    Row::StaticRead(Kind::Int),
    // putstatic_a, putstatic_b, putstatic_s, putstatic_i
    Row::StaticWrite(Kind::Ref),
    Row::StaticWrite(Kind::Byte),
    Row::StaticWrite(Kind::Short),
    Row::StaticWrite(Kind::Int),
    // getfield_a, getfield_b, getfield_s, getfield_i
    Row::FieldRead(Kind::Ref, Holder::Stack),
    Row::FieldRead(Kind::Byte, Holder::Stack),
    Row::FieldRead(Kind::Short, Holder::Stack),
    Row::FieldRead(Kind::Int, Holder::Stack),
    // putfield_a, putfield_b, putfield_s, putfield_i
    Row::FieldWrite(Kind::Ref, Holder::Stack),
    Row::FieldWrite(Kind::Byte, Holder::Stack),
    Row::FieldWrite(Kind::Short, Holder::Stack),
    Row::FieldWrite(Kind::Int, Holder::Stack),
    // invokevirtual, invokespecial, invokestatic, invokeinterface
    Row::Call(Invocation::Virtual),
    Row::Call(Invocation::Special),
    Row::Call(Invocation::Static),
    Row::Call(Invocation::Interface),
    // new, newarray, anewarray
    Row::New,
    Row::NewNumbers,
    Row::NewReferences,
    // arraylength, athrow
    Row::Plain(Operation::ArrayLength),
    Row::Plain(Operation::Throw),
    // checkcast, instanceof
    Row::TypeTest(TypeTest::Cast),
    Row::TypeTest(TypeTest::InstanceOf),
    // sinc_w, iinc_w
    Row::Increment(Width::Short),
    Row::Increment(Width::Int),
    // ifeq_w, ifne_w, iflt_w, ifge_w, ifgt_w, ifle_w
    Row::Plain(Operation::Branch(Branch::Zero(Order::Equal))),
    Row::Plain(Operation::Branch(Branch::Zero(Order::NotEqual))),
    Row::Plain(Operation::Branch(Branch::Zero(Order::Less))),
    Row::Plain(Operation::Branch(Branch::Zero(Order::GreaterOrEqual))),
    Row::Plain(Operation::Branch(Branch::Zero(Order::Greater))),
    Row::Plain(Operation::Branch(Branch::Zero(Order::LessOrEqual))),
    // ifnull_w, ifnonnull_w
    Row::Plain(Operation::Branch(Branch::Null(Sameness::Equal))),
    Row::Plain(Operation::Branch(Branch::Null(Sameness::Different))),
    // if_acmpeq_w, if_acmpne_w
    Row::Plain(Operation::Branch(Branch::References(Sameness::Equal))),
    Row::Plain(Operation::Branch(Branch::References(Sameness::Different))),
    // if_scmpeq_w, if_scmpne_w, if_scmplt_w, if_scmpge_w, if_scmpgt_w, if_scmple_w
    Row::Plain(Operation::Branch(Branch::Shorts(Order::Equal))),
    Row::Plain(Operation::Branch(Branch::Shorts(Order::NotEqual))),
    Row::Plain(Operation::Branch(Branch::Shorts(Order::Less))),
    Row::Plain(Operation::Branch(Branch::Shorts(Order::GreaterOrEqual))),
    Row::Plain(Operation::Branch(Branch::Shorts(Order::Greater))),
    Row::Plain(Operation::Branch(Branch::Shorts(Order::LessOrEqual))),
    // goto_w
    Row::Plain(Operation::Branch(Branch::Always)),
    // getfield_a_w, getfield_b_w, getfield_s_w, getfield_i_w
    Row::FieldRead(Kind::Ref, Holder::Stack),
    Row::FieldRead(Kind::Byte, Holder::Stack),
    Row::FieldRead(Kind::Short, Holder::Stack),
    Row::FieldRead(Kind::Int, Holder::Stack),
    // getfield_a_this, getfield_b_this, getfield_s_this, getfield_i_this
    Row::FieldRead(Kind::Ref, Holder::This),
    Row::FieldRead(Kind::Byte, Holder::This),
    Row::FieldRead(Kind::Short, Holder::This),
    Row::FieldRead(Kind::Int, Holder::This),
    // putfield_a_w, putfield_b_w, putfield_s_w, putfield_i_w
    Row::FieldWrite(Kind::Ref, Holder::Stack),
    Row::FieldWrite(Kind::Byte, Holder::Stack),
    Row::FieldWrite(Kind::Short, Holder::Stack),
    Row::FieldWrite(Kind::Int, Holder::Stack),
    // putfield_a_this, putfield_b_this, putfield_s_this, putfield_i_this
    Row::FieldWrite(Kind::Ref, Holder::This),
    Row::FieldWrite(Kind::Byte, Holder::This),
    Row::FieldWrite(Kind::Short, Holder::This),
    Row::FieldWrite(Kind::Int, Holder::This),
];

impl Row {
    /// The row of an opcode. What is no instruction does nothing, as `nop`: none is decoded.
    #[inline(always)]
    pub(crate) fn of(op: u8) -> Row
        ensures { result ≡ row_at op }
    {
        if op < 185 {
            ROWS[op as usize]
        } else {
            Row::Plain(Operation::Constant(Constant::Nothing))
        }
    }
}
