use crate::runs::{Ends, end_of};

/// One argument, and its successor: `sload_0`, `sconst_1`, `sadd`, `sreturn`.
static SUCCESSOR: [u8; 7] = [0, 2, 0x10, 0x1C, 0x04, 0x41, 0x78];

/// An argument, a budget, and how the successor then ends.
static SUCCESSORS: [(i16, u64, Ends); 5] = [
    (41, 10, Ends::Returned(42)),
    (32767, 10, Ends::Returned(-32768)),
    (41, 3, Ends::Spent),
    (41, 4, Ends::Returned(42)),
    (41, 0, Ends::Spent),
];

fn is_successor(row: &(i16, u64, Ends)) -> bool {
    end_of(&SUCCESSOR, &[row.0], row.1) == row.2
}

#[test]
fn successor_is_run_within_its_budget(rt: HostRuntime) {
    assert!(rt; SUCCESSORS.iter().all(is_successor));
}

/// The sum of the numbers from 1 to the argument, by a loop over a local variable.
static SUM: [u8; 19] = [
    0, 2, 0x11, 0x03, 0x30, 0x1C, 0x65, 0x0B, 0x1D, 0x1C, 0x41, 0x30, 0x59, 0x00, 0xFF, 0x70, 0xF6,
    0x1D, 0x78,
];

static SUMS: [(i16, u64, Ends); 3] = [
    (5, 100, Ends::Returned(15)),
    (0, 6, Ends::Returned(0)),
    (0, 5, Ends::Spent),
];

fn is_sum(row: &(i16, u64, Ends)) -> bool {
    end_of(&SUM, &[row.0], row.1) == row.2
}

/// Methods without arguments, and what they return: a register that was never written, constants.
static CONSTANTS: [([u8; 6], i16); 4] = [
    ([0, 1, 0x01, 0x1C, 0x00, 0x78], 0),
    ([0, 1, 0x00, 0x10, 0x80, 0x78], -128),
    ([0, 2, 0x00, 0x04, 0x3D, 0x78], 1),
    ([0, 1, 0x00, 0x02, 0x00, 0x78], -1),
];

fn is_constant(row: &([u8; 6], i16)) -> bool {
    end_of(&row.0, &[], 9) == Ends::Returned(row.1)
}

/// `sload 0`, `sstore 1`, `sload 1`, `sreturn`; and `sspush 0x1234`, `sreturn`.
fn are_wide() -> bool {
    end_of(&[0, 1, 0x11, 0x16, 0, 0x29, 1, 0x16, 1, 0x78], &[9], 9) == Ends::Returned(9)
        && end_of(&[0, 1, 0x00, 0x11, 0x12, 0x34, 0x78], &[], 9) == Ends::Returned(0x1234)
}

#[test]
fn registers_and_loops(rt: HostRuntime) {
    assert!(rt; SUMS.iter().all(is_sum) && CONSTANTS.iter().all(is_constant) && are_wide());
}
