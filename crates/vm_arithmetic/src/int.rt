ghost use Rattle.std.specs.Prelude.{◌≡◌, ◌<◌};
ghost use Rattle.std.specs.Int.{w32, cast_unsigned, int_wrapping_neg};
ghost use Rattle.vm_arithmetic.specs.Arithmetic.{of_ints, shift_count};

use jc_ops::Operator;

/// The result for two ints, of which the second was on top of the stack; `None` where the divisor is
/// zero.
pub fn of_ints(operator: Operator, first: i32, second: i32) -> Option<i32>
    ensures { result ≡ of_ints operator first second }
{
    match operator {
        Operator::Add => Some(first.wrapping_add(second)),
        Operator::Subtract => Some(first.wrapping_sub(second)),
        Operator::Multiply => Some(first.wrapping_mul(second)),
        Operator::Divide | Operator::Remainder if second == 0 => None,
        Operator::Divide => Some(first.wrapping_div(second)),
        Operator::Remainder => Some(first.wrapping_rem(second)),
        Operator::ShiftLeft => Some(first << shift_count(second)),
        Operator::ShiftRight => Some(first >> shift_count(second)),
        Operator::ShiftRightUnsigned => Some(shifted_right_unsigned(first, second)),
        Operator::And => Some(first & second),
        Operator::Or => Some(first | second),
        Operator::ExclusiveOr => Some(first ^ second),
    }
}

/// The negative of an int, which wraps: that of the least int is itself.
pub fn negate_int(value: i32) -> i32
    ensures { result ≡ int_wrapping_neg w32 value }
{
    value.wrapping_neg()
}

/// Zeros come in from the left.
fn shifted_right_unsigned(value: i32, by: i32) -> i32
    ensures { Some result ≡ of_ints Operator.ShiftRightUnsigned value by }
{
    (value.cast_unsigned() >> shift_count(by)).cast_signed()
}

fn shift_count(by: i32) -> u32
    ensures value { result ≡ shift_count (cast_unsigned w32 by) }
    ensures small { result < 32 }
{
    by.cast_unsigned() & 31
}
