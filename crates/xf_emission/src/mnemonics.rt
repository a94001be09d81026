//! The opcodes that rewritten code is written with, by their mnemonics (JCVM 2.2, section 7.5).

pub const ALOAD: u8 = 21;

pub const SLOAD: u8 = 22;

pub const ILOAD: u8 = 23;

pub const ASTORE: u8 = 40;

pub const SSTORE: u8 = 41;

pub const ISTORE: u8 = 42;

pub const POP: u8 = 59;

pub const POP2: u8 = 60;

pub const SWAP_X: u8 = 64;

/// The first of the conditionals, in the order of which the wide ones stand too.
pub const IFEQ: u8 = 96;
/// The last of the jumps with an offset of one byte.
pub const GOTO: u8 = 112;

pub const IFEQ_W: u8 = 152;

pub const GOTO_W: u8 = 168;

/// The first that reads a field, in the order of which those of `this` stand too.
pub const GETFIELD_A: u8 = 131;

pub const GETFIELD_A_THIS: u8 = 173;
/// The first that writes a field, in the order of which those of `this` stand too.
pub const PUTFIELD_A: u8 = 135;

pub const PUTFIELD_A_THIS: u8 = 181;
