ghost use Rattle.std.specs.Prelude.{◌≡◌, ◌<◌};
ghost use Rattle.std.specs.Int.{w16, cast_unsigned, int_wrapping_neg};
ghost use Rattle.vm_arithmetic.specs.Arithmetic.{of_shorts, succeeds, low_short, shift_count};

use jc_ops::{Operator, Order};

/// The result for two shorts, of which the second was on top of the stack; `None` where the divisor
/// is zero.
pub fn of_shorts(operator: Operator, first: i16, second: i16) -> Option<i16>
    ensures { result ≡ of_shorts operator first second }
{
    match operator {
        Operator::Add => Some(first.wrapping_add(second)),
        Operator::Subtract => Some(first.wrapping_sub(second)),
        Operator::Multiply => Some(first.wrapping_mul(second)),
        Operator::Divide | Operator::Remainder if second == 0 => None,
        Operator::Divide => Some(first.wrapping_div(second)),
        Operator::Remainder => Some(first.wrapping_rem(second)),
        Operator::ShiftLeft => Some(shifted_left(first, second)),
        Operator::ShiftRight => Some(shifted_right(first, second)),
        Operator::ShiftRightUnsigned => Some(shifted_right_unsigned(first, second)),
        Operator::And => Some(first & second),
        Operator::Or => Some(first | second),
        Operator::ExclusiveOr => Some(first ^ second),
    }
}

/// The negative of a short, which wraps: that of the least short is itself.
pub fn negate_short(value: i16) -> i16
    ensures { result ≡ int_wrapping_neg w16 value }
{
    value.wrapping_neg()
}

/// Whether a comparison holds of two shorts.
pub fn succeeds(order: Order, first: i16, second: i16) -> bool
    ensures { result ≡ succeeds order first second }
{
    match order {
        Order::Equal => first == second,
        Order::NotEqual => first != second,
        Order::Less => first < second,
        Order::GreaterOrEqual => first >= second,
        Order::Greater => first > second,
        Order::LessOrEqual => first <= second,
    }
}

fn shifted_left(value: i16, by: i16) -> i16
    ensures { Some result ≡ of_shorts Operator.ShiftLeft value by }
{
    low_short((i32::from(value) << shift_count(by)).cast_unsigned())
}

fn shifted_right(value: i16, by: i16) -> i16
    ensures { Some result ≡ of_shorts Operator.ShiftRight value by }
{
    low_short((i32::from(value) >> shift_count(by)).cast_unsigned())
}

/// Zeros come in from the left.
fn shifted_right_unsigned(value: i16, by: i16) -> i16
    ensures { Some result ≡ of_shorts Operator.ShiftRightUnsigned value by }
{
    low_short(i32::from(value).cast_unsigned() >> shift_count(by))
}

fn shift_count(by: i16) -> u32
    ensures value { result ≡ shift_count (cast_unsigned w16 by) }
    ensures small { result < 32 }
{
    u32::from(by.cast_unsigned() & 31)
}

/// The short of the low sixteen bits.
fn low_short(word: u32) -> i16
    ensures { result ≡ low_short word }
{
    ((word & 0xffff) as u16).cast_signed()
}
