use crate::filling::Held;
use crate::rows::{Row, rows_hold};
use std::alloc::AllocError;

static METHODS: [Row; 7] = [
    // one argument of class 0 or 3, void, and one local, which no place sets before it is read
    (
        "check T",
        Held::Second(
            (
                b"\x06\x60\x00\x21",
                b"\x01\x11",
                b"\x19\x66\x04\x19\x93\x18\x2C\x70\xF9",
            ),
            false,
        ),
        "refused package 0 method 0.1 place 0 Mismatch found top wanted class 0\n",
        1,
    ),
    (
        "check T",
        Held::Second(
            (
                b"\x06\x60\x02\x01",
                b"\x01\x11",
                b"\x19\x66\x04\x19\x93\x18\x2C\x70\xF9",
            ),
            false,
        ),
        "refused package 0 method 0.1 place 0 Mismatch found top wanted class 0\n",
        1,
    ),
    // new, dup, a condition, and only then the constructor
    (
        "check T",
        Held::Second(
            (
                b"\x02\x41",
                b"\x03\x10",
                b"\x8F\x00\x00\x3D\x1C\x60\x05\x04\x70\x03\x03\x8C\x00\x00\x3B\x7A",
            ),
            true,
        ),
        "refused package 0 method 0.1 place 5 FreshKept\n",
        1,
    ),
    // dup_x of one cell, with half an int below it, and of more cells than it looks at
    (
        "check T",
        Held::Second((b"\x01\x10", b"\x06\x00", b"\x0A\x03\x3F\x12\x7A"), false),
        "refused package 0 method 0.1 place 2 SplitInt\n",
        1,
    ),
    (
        "check T",
        Held::Second((b"\x01\x10", b"\x06\x00", b"\x0A\x0A\x3F\x21\x7A"), false),
        "refused package 0 method 0.1 place 2 BadOperand 33\n",
        1,
    ),
    // dup_x of two cells over two ints, and a switch whose one key is the least int
    (
        "check T",
        Held::Second((b"\x01\x10", b"\x06\x00", b"\x0A\x0A\x3F\x24\x7A"), false),
        "typed 2 methods\n",
        0,
    ),
    (
        "check T",
        Held::Second(
            (
                b"\x01\x10",
                b"\x02\x00",
                b"\x0A\x74\x00\x0D\x80\x00\x00\x00\x80\x00\x00\x00\x00\x0D\x7A",
            ),
            false,
        ),
        "typed 2 methods\n",
        0,
    ),
];

#[test]
fn check_names_the_method_without_a_typing(rt: HostRuntime) -> Result<(), AllocError> {
    rows_hold(&rt, rt.alloc(), &METHODS)
}
