use crate::changes::Change;
use crate::components::{DESCRIPTOR, METHOD};

/// What makes the second method of package T one with a handler: its local holds its first argument, of class 2, and then
/// its second, of class 3, which is thrown, caught, and given back from the local as of class 1.
pub const HANDLED: [Change<'static>; 8] = [
    Change::Splice(METHOD, 12, 22, b"\x18\x2D\x19\x2D\x1A\x93\x3B\x1A\x77"),
    Change::Splice(METHOD, 10, 12, b"\x01\x21"),
    Change::Splice(METHOD, 3, 4, b"\x01\x00\x13\x80\x04\x00\x17\x00\x00"),
    Change::Splice(
        DESCRIPTOR,
        111,
        114,
        b"\x0F\x60\x01\x66\x00\x20\x60\x00\xC0",
    ),
    Change::Byte(DESCRIPTOR, 41, 1),
    Change::Byte(DESCRIPTOR, 39, 9),
    Change::Byte(DESCRIPTOR, 35, 15),
    Change::Byte(DESCRIPTOR, 23, 9),
];
