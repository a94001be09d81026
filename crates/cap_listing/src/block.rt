ghost use Rattle.std.specs.Prelude.{◌≡◌, ◌++◌, ◌-ℤ◌, pos, OnOk};
ghost use Rattle.jc_decode.specs.declared.layout.Operand.TheVariants.{S2};
ghost use Rattle.jc_decode.specs.declared.layout.Cases.TheVariants.{Range, Pairs};
ghost use Rattle.jc_decode.specs.Decoding.{FitsOperand};
ghost use Rattle.jc_decode.specs.Listing.{jumps};
ghost use Rattle.cap_listing.specs.Numbers.{after_operand, between, block_of, first_number, kept, kept_bytes, later_bytes, read_first, table_of};

use jc_decode::{Cases, Insn, Layout, Operand};
use std::alloc::AllocError;

/// A number, where it lies between two others, and else 0.
fn between(low: i32, high: i32, number: i64) -> i32
    ensures { result ≡ between low high number }
{
    if i64::from(low) <= number && number <= i64::from(high) {
        number as i32
    } else {
        0
    }
}

/// The number, where the operand may have it, and else 0.
fn kept(operand: Operand, number: i64) -> i32
    ensures value { result ≡ kept operand number }
    ensures fits { FitsOperand operand result }
{
    match operand {
        Operand::Absent => 0,
        Operand::S1 => between(-128, 127, number),
        Operand::S2 => between(-32768, 32767, number),
        Operand::S4 => between(-2147483648, 2147483647, number),
        Operand::U2 => between(0, 65535, number),
        _ => between(0, 255, number),
    }
}

/// Appends the bytes of an operand with this number.
fn push_kept(operand: Operand, number: i64, out: &mut Vec<u8>) -> Result<(), AllocError>
    ensures { OnOk result (out.new.items ≡ out.old.items ++ kept_bytes operand number) }
{
    operand.write(kept(operand, number), out)
}

/// The first of some numbers, or 0, and those after the number of an operand.
fn take_number(operand: Operand, numbers: &[i32]) -> (i32, &[i32])
    ensures first { result.0 ≡ first_number numbers.now }
    ensures rest { result.1.now ≡ after_operand operand numbers.now }
{
    let Some((first, rest)) = numbers.split_first() else {
        return (0, &[]);
    };
    match operand {
        Operand::Absent => (*first, numbers),
        _ => (*first, rest),
    }
}

/// Appends the bytes of an operand with this number, which has 32 bits.
fn push_operand(operand: Operand, number: i32, out: &mut Vec<u8>) -> Result<(), AllocError>
    ensures { OnOk result (out.new.items ≡ out.old.items ++ kept_bytes operand number) }
{
    push_kept(operand, i64::from(number), out)?;
    Ok(())
}

/// Appends the offset of a target.
fn push_target(place: u16, target: i32, out: &mut Vec<u8>) -> Result<(), AllocError>
    ensures { OnOk result (out.new.items ≡ out.old.items ++ kept_bytes S2 (target -ℤ pos place)) }
{
    push_kept(Operand::S2, read_first(true, place, target), out)?;
    Ok(())
}

/// Appends the offsets of targets.
fn push_range(place: u16, numbers: &[i32], out: &mut Vec<u8>) -> Result<(), AllocError>
    ensures { OnOk result (out.new.items ≡ out.old.items ++ table_of Range place numbers.now) }
{
    'targets: for target in numbers {
        push_target(place, *target, out)?;
    }
    Ok(())
}

/// Appends keys, each with the offset of a target.
fn push_pairs(
    key: Operand,
    place: u16,
    numbers: &[i32],
    out: &mut Vec<u8>,
) -> Result<(), AllocError>
    ensures { OnOk result (out.new.items ≡ out.old.items ++ table_of (Pairs key) place numbers.now) }
{
    'pairs: for n in 0..numbers.len() / 2 {
        push_operand(key, numbers[2 * n], out)?;
        push_target(place, numbers[2 * n + 1], out)?;
    }
    Ok(())
}

/// Appends a table of cases.
fn push_table(kind: Cases, place: u16, numbers: &[i32], out: &mut Vec<u8>) -> Result<(), AllocError>
    ensures { OnOk result (out.new.items ≡ out.old.items ++ table_of kind place numbers.now) }
{
    match kind {
        Cases::Absent => Ok(()),
        Cases::Range => push_range(place, numbers, out),
        Cases::Pairs(key) => push_pairs(key, place, numbers, out),
    }
}

/// Whether an instruction of this opcode names places to go to.
fn jumps(op: u8) -> bool
    ensures { result ≡ jumps op }
{
    let insn = Insn {
        op,
        x: 0,
        y: 0,
        z: 0,
        len: 1,
    };
    insn.jumps()
}

/// The distance from a place to where the first number leads, or the number itself.
fn read_first(jumps: bool, place: u16, number: i32) -> i64
    ensures { result ≡ read_first jumps place number }
{
    if jumps {
        i64::from(number) - i64::from(place)
    } else {
        i64::from(number)
    }
}

/// Appends the operands after the first, and the table.
#[tactic(auto, using(crate::proofs::Appending::steps))]
fn push_later(
    layout: Layout,
    place: u16,
    numbers: &[i32],
    out: &mut Vec<u8>,
) -> Result<(), AllocError>
    ensures { OnOk result (out.new.items ≡ out.old.items ++ later_bytes layout place numbers.now) }
{
    let (second, rest) = take_number(layout.y, numbers);
    push_operand(layout.y, second, out)?;
    let (third, table) = take_number(layout.z, rest);
    push_operand(layout.z, third, out)?;
    push_table(layout.cases, place, table, out)?;
    Ok(())
}

/// Appends the bytes of an instruction of this opcode at a place, whose numbers these are.
#[tactic(auto, using(crate::proofs::Appending::steps))]
pub(crate) fn push_block(
    place: u16,
    op: u8,
    numbers: &[i32],
    out: &mut Vec<u8>,
) -> Result<(), AllocError>
    ensures { OnOk result (out.new.items ≡ out.old.items ++ block_of place op numbers.now) }
{
    let layout = match Layout::of(op) {
        Ok(layout) => layout,
        Err(_) => return Ok(()),
    };
    out.push(op)?;
    let (first, rest) = take_number(layout.x, numbers);
    push_kept(layout.x, read_first(jumps(op), place, first), out)?;
    push_later(layout, place, rest, out)?;
    Ok(())
}
