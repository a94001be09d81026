ghost use Rattle.std.specs.Prelude.{IsTrue};
ghost use Rattle.jc_base.specs.Order.{IsKnown};

use jc_base::{Classes, Ty};
use jc_decode::CodeEnd;
use jc_ops::RuleFault;

/// A number for each type, to compare by.
pub(crate) fn number_of(ty: Ty) -> u64 {
    match ty {
        Ty::Bottom => 0,
        Ty::Short => 1,
        Ty::IntHigh => 2,
        Ty::IntLow => 3,
        Ty::Null => 4,
        Ty::ArrBool => 5,
        Ty::ArrByte => 6,
        Ty::ArrShort => 7,
        Ty::ArrInt => 8,
        Ty::Top => 9,
        Ty::Class(c) => 1_000_000 + c as u64,
        Ty::ArrRef(c) => 2_000_000 + c as u64,
        Ty::Fresh { place, class } => 3_000_000 + place as u64 * 100_000 + class as u64,
    }
}

pub(crate) fn is_same(a: &[Ty], b: &[Ty]) -> bool {
    if a.len() != b.len() {
        return false;
    }
    for (i, ty) in a.iter().enumerate() {
        match b.get(i) {
            Some(other) if number_of(*ty) == number_of(*other) => (),
            _ => return false,
        }
    }
    true
}

pub(crate) fn is_same_fault(a: RuleFault, b: RuleFault) -> bool {
    match a {
        RuleFault::Underflow => matches!(b, RuleFault::Underflow),
        RuleFault::Overflow => matches!(b, RuleFault::Overflow),
        RuleFault::Mismatch { found, wanted } => match b {
            RuleFault::Mismatch {
                found: other_found,
                wanted: other_wanted,
            } => is_same(&[found, wanted], &[other_found, other_wanted]),
            _ => false,
        },
        RuleFault::NoLocal(x) => matches!(b, RuleFault::NoLocal(y) if x == y),
        RuleFault::SplitInt => matches!(b, RuleFault::SplitInt),
        RuleFault::FreshKept => matches!(b, RuleFault::FreshKept),
        RuleFault::BadMember(x) => matches!(b, RuleFault::BadMember(y) if x == y),
        RuleFault::NotConcrete(x) => matches!(b, RuleFault::NotConcrete(y) if x == y),
        RuleFault::StackMerge => matches!(b, RuleFault::StackMerge),
    }
}

pub(crate) fn is_same_end(a: CodeEnd, b: CodeEnd) -> bool {
    match a {
        CodeEnd::NoOpcode(op) => matches!(b, CodeEnd::NoOpcode(other) if op == other),
        CodeEnd::Cut => matches!(b, CodeEnd::Cut),
        CodeEnd::OutOfScope(op) => matches!(b, CodeEnd::OutOfScope(other) if op == other),
        CodeEnd::BadOperand(byte) => matches!(b, CodeEnd::BadOperand(other) if byte == other),
    }
}

pub(crate) fn is_known(classes: &Classes, ty: Ty) -> bool
    ensures { IsTrue result → IsKnown classes.now ty }
{
    match ty {
        Ty::Class(c) => classes.is_class(c),
        Ty::ArrRef(c) => classes.is_class(c),
        Ty::Fresh { class, .. } => classes.is_class(class),
        _ => true,
    }
}
