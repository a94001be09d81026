//! An instruction that is known to begin at a place, as a step of a machine reads it: nothing is tested again.
ghost use Rattle.std.specs.Prelude.{◌≡◌, ◌≤◌, length, Ok, Some, pos, unwrap_or};
ghost use Rattle.cap_bytes.specs.Number.{number_at};
ghost use Rattle.std.specs.Result.{result_unwrap_or};
ghost use Rattle.jc_decode.specs.Layout.{layout_of};
ghost use Rattle.jc_decode.specs.Decoding.{decoded, within_bytes};
ghost use Rattle.jc_decode.specs.Untested.{untested_operand, untested_end, untested_operands, known_layout, untested};

use crate::decoding::reach;
use crate::insn::{Insn, Operands};
use crate::layout::{Cases, Layout, NO_OPERANDS, Operand};
use crate::reading::Reading;
use cap_bytes::View;

/// The instruction at a place of a method's code at which one is known to begin: the one that `decode` gives, found without
/// its tests of operands and keys. Where none begins, what is given means nothing.
#[inline(always)]
pub fn decode_known(code: View, at: u16) -> Option<Insn>
    requires { length code.bytes.now ≤ 65535 }
    ensures { (i : Insn) → decoded code.entry.bytes.now at ≡ Ok i → result ≡ Some i }
{
    Some(insn_known(code, u32::from(at)))
}

/// It always gives an instruction, so that no other way meets this one.
#[inline(always)]
#[tactic(auto, unfolding(crate::specs::Untested::untested))]
fn insn_known(code: View, at: u32) -> Insn
    requires short { length code.bytes.now ≤ 65535 }
    requires place { at ≤ 65535 }
    ensures { result ≡ untested code.entry.bytes.now at }
{
    let op = byte(code, at);
    operands_known(code, at, op).of_opcode(op)
}

/// The operands of the instruction of an opcode, none where it has none.
#[inline(always)]
fn layout_known(op: u8) -> Layout
    ensures { result ≡ known_layout (layout_of op) }
{
    Layout::of(op).unwrap_or(NO_OPERANDS)
}

#[inline(always)]
fn operands_known(code: View, at: u32, op: u8) -> Operands
    requires short { length code.bytes.now ≤ 65535 }
    requires place { at ≤ 65535 }
    ensures { result ≡ untested_operands (known_layout (layout_of op)) code.entry.bytes.now at }
{
    let x = at + 1;
    match Reading::of(op) {
        Reading::Plain => with_one(0, 1),
        Reading::Byte => with_one(i32::from(byte(code, x)), 2),
        Reading::SignedByte => with_one(i32::from(byte(code, x).cast_signed()), 2),
        Reading::Short => with_one(i32::from(two(code, x)), 3),
        Reading::SignedShort => with_one(i32::from(two(code, x).cast_signed()), 3),
        Reading::More => with_more(code, at, op),
    }
}

/// One operand alone.
#[inline(always)]
fn with_one(x: i32, len: u32) -> Operands
    ensures { result ≡ record { x = x; y = pos 0; z = pos 0; len = len } }
{
    Operands { x, y: 0, z: 0, len }
}

/// Of an instruction with any operands. The layout is read again, so that none is handed over in memory.
#[inline(never)]
fn with_more(code: View, at: u32, op: u8) -> Operands
    requires short { length code.bytes.now ≤ 65535 }
    requires place { at ≤ 65535 }
    ensures { result ≡ untested_operands (known_layout (layout_of op)) code.entry.bytes.now at }
{
    let layout = layout_known(op);
    let operands = at + 1;
    let x = layout.x.read_apart(code, operands);
    let y = layout.y.read_next(code, operands + layout.x.width());
    let z = layout
        .z
        .read_next(code, operands + layout.x.width() + layout.y.width());
    Operands {
        x,
        y,
        z,
        len: end_of_cases(layout.cases, code, operands + layout.width(), y, z) - at,
    }
}

/// The place after a switch's table, which begins at this place.
#[inline(always)]
fn end_of_cases(cases: Cases, code: View, table: u32, y: i32, z: i32) -> u32
    requires short { length code.bytes.now ≤ 65535 }
    requires near { table ≤ 65548 }
    ensures value { result ≡ untested_end cases code.entry.bytes.now table y z }
    ensures after { table ≤ result }
{
    match cases {
        Cases::Absent => table,
        Cases::Range => reached(
            code,
            table,
            u64::from(table) + 2 * (u64::from(z.abs_diff(y)) + 1),
        ),
        Cases::Pairs(key) => reached(
            code,
            table,
            u64::from(table) + u64::from(key.width() + 2) * u64::from(y.unsigned_abs()),
        ),
    }
}

/// A place that is not before another, where the bytes reach to it, and else that other.
#[inline(never)]
fn reached(code: View, table: u32, end: u64) -> u32
    requires short { length code.bytes.now ≤ 65535 }
    requires order { table ≤ end }
    ensures value { result ≡ result_unwrap_or (within_bytes code.entry.bytes.now end) table }
    ensures after { table ≤ result }
{
    reach(code, end).unwrap_or(table)
}

impl Operand {
    /// What the bytes at a place mean, where there may be no operand.
    #[inline(always)]
    fn read_next(self, code: View, at: u32) -> i32
        ensures { result ≡ untested_operand self code.entry.bytes.now at }
    {
        match self {
            Operand::Absent => 0,
            _ => self.read_apart(code, at),
        }
    }

    /// What the bytes at a place mean, read in one place for all.
    #[inline(never)]
    fn read_apart(self, code: View, at: u32) -> i32
        ensures { result ≡ untested_operand self code.entry.bytes.now at }
    {
        self.read_known(code, at)
    }

    /// What the bytes at a place mean.
    #[inline(always)]
    pub(crate) fn read_known(self, code: View, at: u32) -> i32
        ensures { result ≡ untested_operand self code.entry.bytes.now at }
    {
        match self {
            Operand::Absent => 0,
            Operand::U2 => i32::from(two(code, at)),
            Operand::S1 => i32::from(byte(code, at).cast_signed()),
            Operand::S2 => i32::from(two(code, at).cast_signed()),
            Operand::S4 => code.u4(at).unwrap_or(0).cast_signed(),
            Operand::U1
            | Operand::DupWords
            | Operand::SwapWords
            | Operand::ArrayType
            | Operand::TestedType => i32::from(byte(code, at)),
        }
    }
}

/// The byte at a place, or 0 past the end.
#[inline(always)]
fn byte(code: View, at: u32) -> u8
    ensures { result ≡ unwrap_or (number_at 1 at code.entry.bytes.now) 0 }
{
    code.u1(at).unwrap_or(0)
}

/// The number of two bytes at a place, or 0 where they do not reach.
#[inline(always)]
fn two(code: View, at: u32) -> u16
    ensures { result ≡ unwrap_or (number_at 2 at code.entry.bytes.now) 0 }
{
    code.u2(at).unwrap_or(0)
}
