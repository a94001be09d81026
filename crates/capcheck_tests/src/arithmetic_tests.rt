use crate::runs::{Ends, end_of};

/// Opcodes of two operands, the operands, and the result.
static OF_TWO: [(u8, i16, i16, i16); 13] = [
    (0x41, 32767, 1, -32768),
    (0x43, -32768, 1, 32767),
    (0x45, 300, 300, 24464),
    (0x4D, 1, 33, 2),
    (0x4D, 3, 15, -32768),
    (0x4D, 1, 16, 0),
    (0x4F, -8, 1, -4),
    (0x4F, -1, 31, -1),
    (0x51, -1, 1, -1),
    (0x51, -1, 17, 32767),
    (0x53, 12, 10, 8),
    (0x55, 12, 10, 14),
    (0x57, 12, 10, 6),
];

/// `sload_0`, `sload_1`, the opcode, `sreturn`.
fn is_two(row: &(u8, i16, i16, i16)) -> bool {
    let info = [0, 2, 0x20, 0x1C, 0x1D, row.0, 0x78];
    end_of(&info, &[row.1, row.2], 4) == Ends::Returned(row.3)
}

/// Opcodes of one operand, the operand, and the result.
static OF_ONE: [(u8, i16, i16); 4] = [
    (0x4B, -32768, -32768),
    (0x4B, 5, -5),
    (0x5B, 128, -128),
    (0x5B, 383, 127),
];

/// `sload_0`, the opcode, `sreturn`.
fn is_one(row: &(u8, i16, i16)) -> bool {
    let info = [0, 1, 0x10, 0x1C, row.0, 0x78];
    end_of(&info, &[row.1], 3) == Ends::Returned(row.2)
}

#[test]
fn arithmetic_wraps_and_shifts_by_five_bits(rt: HostRuntime) {
    assert!(rt; OF_TWO.iter().all(is_two) && OF_ONE.iter().all(is_one));
}

/// The conditional opcodes that compare two shorts, with what the method returns where the first is below the
/// second, the same, and above it. The opcode ten below compares with 0.
static CONDITIONS: [(u8, i16, i16, i16); 6] = [
    (0x6A, 0, 1, 0),
    (0x6B, 1, 0, 1),
    (0x6C, 1, 0, 0),
    (0x6D, 0, 1, 1),
    (0x6E, 0, 0, 1),
    (0x6F, 1, 1, 0),
];

/// `sload_0`, `sload_1`, the opcode over `sconst_0` and `sreturn`, `sconst_1`, `sreturn`.
fn compares(row: &(u8, i16, i16, i16)) -> bool {
    let info = [0, 2, 0x20, 0x1C, 0x1D, row.0, 4, 0x03, 0x78, 0x04, 0x78];
    end_of(&info, &[-1, 1], 9) == Ends::Returned(row.1)
        && end_of(&info, &[7, 7], 9) == Ends::Returned(row.2)
        && end_of(&info, &[2, -2], 9) == Ends::Returned(row.3)
}

/// The same with 0 for the second short.
fn tests_zero(row: &(u8, i16, i16, i16)) -> bool {
    let info = [
        0,
        1,
        0x10,
        0x1C,
        row.0.wrapping_sub(10),
        4,
        0x03,
        0x78,
        0x04,
        0x78,
    ];
    end_of(&info, &[-9], 9) == Ends::Returned(row.1)
        && end_of(&info, &[0], 9) == Ends::Returned(row.2)
        && end_of(&info, &[9], 9) == Ends::Returned(row.3)
}

#[test]
fn branches_are_taken_where_their_condition_holds(rt: HostRuntime) {
    assert!(rt; CONDITIONS.iter().all(compares) && CONDITIONS.iter().all(tests_zero));
}
