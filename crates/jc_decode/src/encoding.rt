ghost use Rattle.std.specs.Prelude.{◌≡◌, ◌≤◌, ◌+◌, ◌++◌, length, take, drop, OnOk, OnErr, IsTrue, Ok};
ghost use Rattle.jc_decode.specs.Decoding.{decoded, FitsOperand};
ghost use Rattle.jc_decode.specs.Layout.{total_width};
ghost use Rattle.jc_decode.specs.Cases.{HasTable, is_table};
ghost use Rattle.jc_decode.specs.Forms.{length_of};
ghost use Rattle.jc_decode.specs.Encoding.{operand_bytes, head_bytes, AllowsBy, table_bytes, encoding, IsAllowed, ReadsBack};

use crate::insn::Insn;
use crate::layout::{Cases, Layout, Operand};
use cap_bytes::{View, are_bytes};
use std::alloc::AllocError;

/// Appends an instruction's bytes. Of a switch, the table is the one in `code` at `at`, where `decode`
/// gives the same switch but for its default. The instruction's own `len` is read of a switch alone.
/// Where there is no memory nothing is appended.
pub fn encode(insn: Insn, code: View, at: u16, to: &mut Vec<u8>) -> Result<(), AllocError>
    requires short { length code.bytes.now ≤ 65535 }
    requires operands { IsAllowed insn }
    requires table { HasTable code.bytes.now at insn }
    ensures appended { OnOk result (to.new.items ≡ to.old.items ++ encoding code.entry.bytes.now at insn) }
    ensures read_back { ReadsBack code.entry.bytes.now at insn (encoding code.entry.bytes.now at insn) }
    ensures same_bytes { decoded code.entry.bytes.now at ≡ Ok insn
        → encoding code.entry.bytes.now at insn ≡ take insn.len (drop at code.entry.bytes.now) }
    ensures long { length (encoding code.entry.bytes.now at insn) ≡ length_of insn }
    ensures unchanged { OnErr result (to.new.items ≡ to.old.items) }
{
    are_bytes(code.bytes);
    let before = to.len();
    let result = append(insn, code, at, to);
    if result.is_err() {
        to.truncate(before);
    }
    result
}

/// Appends an instruction's bytes, or some of them where there is no memory.
#[tactic(auto, using(crate::proofs::Appending::steps), unfolding(crate::specs::Encoding::encoding))]
fn append(insn: Insn, code: View, at: u16, to: &mut Vec<u8>) -> Result<(), AllocError>
    requires short { length code.bytes.now ≤ 65535 }
    requires operands { IsAllowed insn }
    requires table { HasTable code.bytes.now at insn }
    ensures appended { OnOk result (to.new.items ≡ to.old.items ++ encoding code.entry.bytes.now at insn) }
    ensures begun { OnErr result (take (length to.old.items) to.new.items ≡ to.old.items) }
{
    let Ok(layout) = Layout::of(insn.op) else {
        return Ok(());
    };
    append_head(layout, insn, to)?;
    append_table(layout, insn, code, at, to)
}

/// Appends the opcode and the operands, or some of them where there is no memory.
#[tactic(auto, using(crate::proofs::Appending::steps))]
fn append_head(layout: Layout, insn: Insn, to: &mut Vec<u8>) -> Result<(), AllocError>
    requires { AllowsBy insn (Ok layout) }
    ensures appended { OnOk result (to.new.items ≡ to.old.items ++ head_bytes layout insn) }
    ensures begun { OnErr result (take (length to.old.items) to.new.items ≡ to.old.items) }
{
    to.push(insn.op)?;
    layout.x.write(insn.x, to)?;
    layout.y.write(insn.y, to)?;
    layout.z.write(insn.z, to)
}

fn append_table(
    layout: Layout,
    insn: Insn,
    code: View,
    at: u16,
    to: &mut Vec<u8>,
) -> Result<(), AllocError>
    requires reach { IsTrue (is_table layout.cases) → at + insn.len ≤ length code.bytes.now }
    requires order { IsTrue (is_table layout.cases) → 1 + total_width layout ≤ insn.len }
    requires short { length code.bytes.now ≤ 65535 }
    ensures appended { OnOk result (to.new.items ≡ to.old.items ++ table_bytes layout code.entry.bytes.now at insn) }
    ensures unchanged { OnErr result (to.new.items ≡ to.old.items) }
{
    if let Cases::Absent = layout.cases {
        return Ok(());
    }
    let start = u32::from(at) + 1 + layout.width();
    let end = u32::from(at) + insn.len;
    to.extend_from_slice(&code.bytes[start as usize..end as usize])
}

impl Operand {
    /// Appends an operand's bytes. Where there is no memory nothing is appended.
    pub fn write(self, value: i32, to: &mut Vec<u8>) -> Result<(), AllocError>
        requires { FitsOperand self value }
        ensures appended { OnOk result (to.new.items ≡ to.old.items ++ operand_bytes self value) }
        ensures unchanged { OnErr result (to.new.items ≡ to.old.items) }
    {
        match self {
            Operand::Absent => Ok(()),
            Operand::S1 => Ok(to.push((value as i8).cast_unsigned())?),
            Operand::S2 => to.extend_from_slice(&(value as i16).cast_unsigned().to_be_bytes()),
            Operand::S4 => to.extend_from_slice(&value.cast_unsigned().to_be_bytes()),
            Operand::U2 => to.extend_from_slice(&(value as u16).to_be_bytes()),
            _ => Ok(to.push(value as u8)?),
        }
    }
}
