use jc_ops::{Operator, Order};
use vm_arithmetic::{
    compare_ints, high_word, int_of_words, int_to_byte, int_to_short, low_word, negate_int,
    negate_short, of_ints, of_shorts, short_to_byte, succeeds,
};

struct ShortRow {
    operator: Operator,
    first: i16,
    second: i16,
    result: Option<i16>,
}

struct IntRow {
    operator: Operator,
    first: i32,
    second: i32,
    result: Option<i32>,
}

static SHORTS: [ShortRow; 43] = [
    ShortRow {
        operator: Operator::Add,
        first: 32767,
        second: 1,
        result: Some(-32768),
    },
    ShortRow {
        operator: Operator::Add,
        first: -32768,
        second: -1,
        result: Some(32767),
    },
    ShortRow {
        operator: Operator::Add,
        first: 0,
        second: 0,
        result: Some(0),
    },
    ShortRow {
        operator: Operator::Subtract,
        first: -32768,
        second: 1,
        result: Some(32767),
    },
    ShortRow {
        operator: Operator::Subtract,
        first: 0,
        second: -32768,
        result: Some(-32768),
    },
    ShortRow {
        operator: Operator::Multiply,
        first: 32767,
        second: 2,
        result: Some(-2),
    },
    ShortRow {
        operator: Operator::Multiply,
        first: -32768,
        second: -1,
        result: Some(-32768),
    },
    ShortRow {
        operator: Operator::Multiply,
        first: 0,
        second: -32768,
        result: Some(0),
    },
    ShortRow {
        operator: Operator::Divide,
        first: 7,
        second: 2,
        result: Some(3),
    },
    ShortRow {
        operator: Operator::Divide,
        first: -7,
        second: 2,
        result: Some(-3),
    },
    ShortRow {
        operator: Operator::Divide,
        first: -32768,
        second: -1,
        result: Some(-32768),
    },
    ShortRow {
        operator: Operator::Divide,
        first: 5,
        second: 0,
        result: None,
    },
    ShortRow {
        operator: Operator::Divide,
        first: 0,
        second: 5,
        result: Some(0),
    },
    ShortRow {
        operator: Operator::Remainder,
        first: 7,
        second: -3,
        result: Some(1),
    },
    ShortRow {
        operator: Operator::Remainder,
        first: -7,
        second: 3,
        result: Some(-1),
    },
    ShortRow {
        operator: Operator::Remainder,
        first: -32768,
        second: -1,
        result: Some(0),
    },
    ShortRow {
        operator: Operator::Remainder,
        first: 0,
        second: 0,
        result: None,
    },
    ShortRow {
        operator: Operator::ShiftLeft,
        first: -1,
        second: 0,
        result: Some(-1),
    },
    ShortRow {
        operator: Operator::ShiftLeft,
        first: 1,
        second: 15,
        result: Some(-32768),
    },
    ShortRow {
        operator: Operator::ShiftLeft,
        first: 1,
        second: 16,
        result: Some(0),
    },
    ShortRow {
        operator: Operator::ShiftLeft,
        first: 1,
        second: 31,
        result: Some(0),
    },
    ShortRow {
        operator: Operator::ShiftLeft,
        first: 1,
        second: 32,
        result: Some(1),
    },
    ShortRow {
        operator: Operator::ShiftLeft,
        first: 1,
        second: -1,
        result: Some(0),
    },
    ShortRow {
        operator: Operator::ShiftRight,
        first: -32768,
        second: 0,
        result: Some(-32768),
    },
    ShortRow {
        operator: Operator::ShiftRight,
        first: -32768,
        second: 15,
        result: Some(-1),
    },
    ShortRow {
        operator: Operator::ShiftRight,
        first: -32768,
        second: 16,
        result: Some(-1),
    },
    ShortRow {
        operator: Operator::ShiftRight,
        first: 32767,
        second: 15,
        result: Some(0),
    },
    ShortRow {
        operator: Operator::ShiftRight,
        first: -2,
        second: 31,
        result: Some(-1),
    },
    ShortRow {
        operator: Operator::ShiftRight,
        first: -2,
        second: 32,
        result: Some(-2),
    },
    ShortRow {
        operator: Operator::ShiftRight,
        first: 32767,
        second: -1,
        result: Some(0),
    },
    ShortRow {
        operator: Operator::ShiftRightUnsigned,
        first: -1,
        second: 0,
        result: Some(-1),
    },
    ShortRow {
        operator: Operator::ShiftRightUnsigned,
        first: -1,
        second: 15,
        result: Some(-1),
    },
    ShortRow {
        operator: Operator::ShiftRightUnsigned,
        first: -1,
        second: 16,
        result: Some(-1),
    },
    ShortRow {
        operator: Operator::ShiftRightUnsigned,
        first: -1,
        second: 31,
        result: Some(1),
    },
    ShortRow {
        operator: Operator::ShiftRightUnsigned,
        first: -1,
        second: 32,
        result: Some(-1),
    },
    ShortRow {
        operator: Operator::ShiftRightUnsigned,
        first: -1,
        second: -1,
        result: Some(1),
    },
    ShortRow {
        operator: Operator::ShiftRightUnsigned,
        first: 32767,
        second: 15,
        result: Some(0),
    },
    ShortRow {
        operator: Operator::And,
        first: -1,
        second: 127,
        result: Some(127),
    },
    ShortRow {
        operator: Operator::And,
        first: -32768,
        second: 32767,
        result: Some(0),
    },
    ShortRow {
        operator: Operator::Or,
        first: -32768,
        second: 32767,
        result: Some(-1),
    },
    ShortRow {
        operator: Operator::Or,
        first: 0,
        second: 0,
        result: Some(0),
    },
    ShortRow {
        operator: Operator::ExclusiveOr,
        first: -1,
        second: -1,
        result: Some(0),
    },
    ShortRow {
        operator: Operator::ExclusiveOr,
        first: 0,
        second: -32768,
        result: Some(-32768),
    },
];

static INTS: [IntRow; 41] = [
    IntRow {
        operator: Operator::Add,
        first: 2147483647,
        second: 1,
        result: Some(-2147483648),
    },
    IntRow {
        operator: Operator::Add,
        first: -2147483648,
        second: -1,
        result: Some(2147483647),
    },
    IntRow {
        operator: Operator::Add,
        first: 0,
        second: 0,
        result: Some(0),
    },
    IntRow {
        operator: Operator::Subtract,
        first: -2147483648,
        second: 1,
        result: Some(2147483647),
    },
    IntRow {
        operator: Operator::Subtract,
        first: 0,
        second: -2147483648,
        result: Some(-2147483648),
    },
    IntRow {
        operator: Operator::Multiply,
        first: 65536,
        second: 65536,
        result: Some(0),
    },
    IntRow {
        operator: Operator::Multiply,
        first: -2147483648,
        second: -1,
        result: Some(-2147483648),
    },
    IntRow {
        operator: Operator::Multiply,
        first: 0,
        second: -1,
        result: Some(0),
    },
    IntRow {
        operator: Operator::Divide,
        first: 7,
        second: 2,
        result: Some(3),
    },
    IntRow {
        operator: Operator::Divide,
        first: -7,
        second: 2,
        result: Some(-3),
    },
    IntRow {
        operator: Operator::Divide,
        first: -2147483648,
        second: -1,
        result: Some(-2147483648),
    },
    IntRow {
        operator: Operator::Divide,
        first: 1,
        second: 0,
        result: None,
    },
    IntRow {
        operator: Operator::Divide,
        first: 0,
        second: 5,
        result: Some(0),
    },
    IntRow {
        operator: Operator::Remainder,
        first: 7,
        second: -3,
        result: Some(1),
    },
    IntRow {
        operator: Operator::Remainder,
        first: -7,
        second: 3,
        result: Some(-1),
    },
    IntRow {
        operator: Operator::Remainder,
        first: -2147483648,
        second: -1,
        result: Some(0),
    },
    IntRow {
        operator: Operator::Remainder,
        first: 1,
        second: 0,
        result: None,
    },
    IntRow {
        operator: Operator::ShiftLeft,
        first: 5,
        second: 0,
        result: Some(5),
    },
    IntRow {
        operator: Operator::ShiftLeft,
        first: 1,
        second: 15,
        result: Some(32768),
    },
    IntRow {
        operator: Operator::ShiftLeft,
        first: 1,
        second: 16,
        result: Some(65536),
    },
    IntRow {
        operator: Operator::ShiftLeft,
        first: 1,
        second: 31,
        result: Some(-2147483648),
    },
    IntRow {
        operator: Operator::ShiftLeft,
        first: 1,
        second: 32,
        result: Some(1),
    },
    IntRow {
        operator: Operator::ShiftLeft,
        first: 1,
        second: -1,
        result: Some(-2147483648),
    },
    IntRow {
        operator: Operator::ShiftRight,
        first: -2147483648,
        second: 0,
        result: Some(-2147483648),
    },
    IntRow {
        operator: Operator::ShiftRight,
        first: -65536,
        second: 15,
        result: Some(-2),
    },
    IntRow {
        operator: Operator::ShiftRight,
        first: -65536,
        second: 16,
        result: Some(-1),
    },
    IntRow {
        operator: Operator::ShiftRight,
        first: -2147483648,
        second: 31,
        result: Some(-1),
    },
    IntRow {
        operator: Operator::ShiftRight,
        first: 2147483647,
        second: 31,
        result: Some(0),
    },
    IntRow {
        operator: Operator::ShiftRight,
        first: -2,
        second: 32,
        result: Some(-2),
    },
    IntRow {
        operator: Operator::ShiftRight,
        first: 8,
        second: -1,
        result: Some(0),
    },
    IntRow {
        operator: Operator::ShiftRightUnsigned,
        first: -1,
        second: 0,
        result: Some(-1),
    },
    IntRow {
        operator: Operator::ShiftRightUnsigned,
        first: -1,
        second: 15,
        result: Some(131071),
    },
    IntRow {
        operator: Operator::ShiftRightUnsigned,
        first: -1,
        second: 16,
        result: Some(65535),
    },
    IntRow {
        operator: Operator::ShiftRightUnsigned,
        first: -1,
        second: 31,
        result: Some(1),
    },
    IntRow {
        operator: Operator::ShiftRightUnsigned,
        first: -1,
        second: 32,
        result: Some(-1),
    },
    IntRow {
        operator: Operator::ShiftRightUnsigned,
        first: -1,
        second: -1,
        result: Some(1),
    },
    IntRow {
        operator: Operator::And,
        first: -1,
        second: 127,
        result: Some(127),
    },
    IntRow {
        operator: Operator::And,
        first: -2147483648,
        second: 2147483647,
        result: Some(0),
    },
    IntRow {
        operator: Operator::Or,
        first: -2147483648,
        second: 2147483647,
        result: Some(-1),
    },
    IntRow {
        operator: Operator::ExclusiveOr,
        first: -1,
        second: -1,
        result: Some(0),
    },
    IntRow {
        operator: Operator::ExclusiveOr,
        first: 0,
        second: -2147483648,
        result: Some(-2147483648),
    },
];

/// The number of the first row that is wrong, and the number of rows where none is.
fn first_wrong_short(rows: &[ShortRow]) -> usize {
    match rows.iter().position(|row| of_shorts(row.operator, row.first, row.second) != row.result) {
        Some(n) => n,
        None => rows.len(),
    }
}

fn first_wrong_int(rows: &[IntRow]) -> usize {
    match rows.iter().position(|row| of_ints(row.operator, row.first, row.second) != row.result) {
        Some(n) => n,
        None => rows.len(),
    }
}

/// Numbers with their bytes and shorts.
static BYTES: [(i16, i16); 6] = [
    (127, 127),
    (128, -128),
    (-129, 127),
    (255, -1),
    (-32768, 0),
    (0, 0),
];

static INT_BYTES: [(i32, i16); 5] = [
    (128, -128),
    (256, 0),
    (-1, -1),
    (-2147483648, 0),
    (2147483647, -1),
];

static INT_SHORTS: [(i32, i16); 5] = [
    (32768, -32768),
    (65535, -1),
    (65536, 0),
    (-2147483648, 0),
    (2147483647, -1),
];

static COMPARED: [(i32, i32, i16); 5] = [
    (-2147483648, 2147483647, -1),
    (2147483647, -2147483648, 1),
    (0, 0, 0),
    (-1, 0, -1),
    (1, -1, 1),
];

fn conversions_are_right() -> bool {
    BYTES.iter().all(|row| short_to_byte(row.0) == row.1)
        && INT_BYTES.iter().all(|row| int_to_byte(row.0) == row.1)
        && INT_SHORTS.iter().all(|row| int_to_short(row.0) == row.1)
        && COMPARED
            .iter()
            .all(|row| compare_ints(row.0, row.1) == row.2)
}

fn words_are_right() -> bool {
    int_of_words(0x8000, 0) == -2147483648
        && int_of_words(0x7fff, 0xffff) == 2147483647
        && high_word(-2) == 0xffff
        && low_word(-2) == 0xfffe
        && negate_short(-32768) == -32768
        && negate_int(-2147483648) == -2147483648
}

fn orders_are_right() -> bool {
    succeeds(Order::Less, -32768, 32767)
        && succeeds(Order::Equal, -1, -1)
        && succeeds(Order::NotEqual, -1, 1)
        && succeeds(Order::GreaterOrEqual, 0, 0)
        && !succeeds(Order::Greater, -1, 0)
        && !succeeds(Order::LessOrEqual, 1, 0)
}

#[test]
fn shorts_at_their_edges(rt: HostRuntime) {
    assert_eq!(rt; first_wrong_short(&SHORTS), SHORTS.len());
}

#[test]
fn ints_at_their_edges(rt: HostRuntime) {
    assert_eq!(rt; first_wrong_int(&INTS), INTS.len());
}

#[test]
fn conversions_comparisons_and_words(rt: HostRuntime) {
    assert!(rt; conversions_are_right() && words_are_right() && orders_are_right());
}
