ghost use Rattle.std.specs.Prelude.{◌≤ℤ◌, IsTrue, ◌≡◌, ◌+◌, ◌*◌, ◌^◌, ◌<◌, ◌≤◌, ◌-◌, length, IfOk, IfErr, Ok, Err};
ghost use Rattle.cap_bytes.specs.Number.{number_at};
ghost use Rattle.jc_decode.specs.Layout.{layout_of, one, operand_width};
ghost use Rattle.jc_decode.specs.Decoding.{allows, or_cut, within_bytes, bad_operand, operand_at, pair_width, key_at, rises, pairs_end, table_end, decoded, decoded_as, decoded_by, is_tested, with_operands_or, Begins, FitsLayout, IsWithin};
ghost use Rattle.jc_decode.specs.Cases.{cases, is_table_switch, KeysRise};
ghost use Rattle.jc_decode.specs.Refusal.{RefusesBytes};
ghost use Rattle.jc_decode.specs.Encoding.{IsAllowed};

use crate::insn::{CodeEnd, Insn, Operands};
use crate::layout::{Cases, Layout, Operand};
use cap_bytes::{View, are_bytes};

/// The instruction that begins at a place of a method's code, of at most 65,535 bytes.
///
/// The reasons for none are tried in this order: `OutOfScope` and `NoOpcode` by the opcode; `Cut` where
/// the bytes do not reach, also where there is none at the place; `BadOperand` with the first byte of
/// the first operand that the instruction forbids. Of a table switch that is `high` where it is below
/// `low`, of a lookup switch a key that is not above the one before it.
#[inline(always)]
pub fn decode(code: View, at: u16) -> Result<Insn, CodeEnd>
    requires { length code.bytes.now ≤ 65535 }
    ensures value { result ≡ decoded code.entry.bytes.now at }
    ensures begins { IfOk result (λ i. Begins code.entry.bytes.now at i) }
    ensures given { (i : Insn) → Begins code.entry.bytes.now at i → result ≡ Ok i }
    ensures refused { IfErr result (λ e. RefusesBytes code.entry.bytes.now at e) }
    ensures told { (e : CodeEnd) → RefusesBytes code.entry.bytes.now at e → result ≡ Err e }
    ensures operands { IfOk result (λ i. FitsLayout i (layout_of i.op)) }
    ensures allowed { IfOk result (λ i. IsAllowed i) }
    ensures order { IfOk result (λ i. IsTrue (is_table_switch i.op) → i.y ≤ℤ i.z) }
    ensures rising { IfOk result (λ i. KeysRise (cases code.entry.bytes.now at i)) }
    ensures within { IfOk result (λ i. IsWithin code.entry.bytes.now at i) }
{
    are_bytes(code.bytes);
    insn_at(code, u32::from(at))
}

#[inline(always)]
#[tactic(auto, unfolding(crate::specs::Decoding::decoded))]
fn insn_at(code: View, at: u32) -> Result<Insn, CodeEnd>
    requires short { length code.bytes.now ≤ 65535 }
    requires place { at ≤ 65535 }
    ensures { result ≡ decoded code.entry.bytes.now at }
{
    let op = u1(code, at)?;
    Ok(operands(code, at, op)?.of_opcode(op))
}

/// The operands of an opcode at a place.
#[inline(always)]
fn operands(code: View, at: u32, op: u8) -> Result<Operands, CodeEnd>
    requires short { length code.bytes.now ≤ 65535 }
    requires place { at ≤ 65535 }
    ensures { with_operands_or op result ≡ decoded_by op (layout_of op) code.entry.bytes.now at }
{
    let layout = Layout::of(op)?;
    if layout.has_one() {
        with_one(code, at, op, layout.x)
    } else {
        with_more(code, at, op)
    }
}

/// Of an opcode with no operand but the first.
#[inline(always)]
fn with_one(code: View, at: u32, op: u8, x: Operand) -> Result<Operands, CodeEnd>
    requires short { length code.bytes.now ≤ 65535 }
    requires place { at ≤ 65535 }
    ensures { with_operands_or op result ≡ decoded_as op (one x) code.entry.bytes.now at }
{
    let _end = reach(code, u64::from(at + 1 + x.width()))?;
    let operand = x.read_within(code, at + 1)?;
    Ok(Operands {
        x: operand,
        y: 0,
        z: 0,
        len: 1 + x.width(),
    })
}

/// Of an opcode with any operands. The layout is read again, so that none is handed over in memory.
#[inline(never)]
fn with_more(code: View, at: u32, op: u8) -> Result<Operands, CodeEnd>
    requires short { length code.bytes.now ≤ 65535 }
    requires place { at ≤ 65535 }
    ensures { with_operands_or op result ≡ decoded_by op (layout_of op) code.entry.bytes.now at }
{
    let layout = Layout::of(op)?;
    let operands = at + 1;
    let table = reach(code, u64::from(operands + layout.width()))?;
    let x = layout.x.read(code, operands)?;
    let y = layout.y.read(code, operands + layout.x.width())?;
    let z = layout
        .z
        .read(code, operands + layout.x.width() + layout.y.width())?;
    let end = end_of_table(layout, code, table, y, z)?;
    Ok(Operands {
        x,
        y,
        z,
        len: end - at,
    })
}

#[inline(always)]
fn u1(code: View, at: u32) -> Result<u8, CodeEnd>
    ensures { result ≡ or_cut (number_at 1 at code.entry.bytes.now) }
{
    code.u1(at).ok_or(CodeEnd::Cut)
}

#[inline(always)]
fn u2(code: View, at: u32) -> Result<u16, CodeEnd>
    ensures { result ≡ or_cut (number_at 2 at code.entry.bytes.now) }
{
    code.u2(at).ok_or(CodeEnd::Cut)
}

/// The place, if the code reaches to it.
#[inline(always)]
pub(crate) fn reach(code: View, end: u64) -> Result<u32, CodeEnd>
    requires { length code.bytes.now ≤ 65535 }
    ensures value { result ≡ within_bytes code.entry.bytes.now end }
    ensures within { IfOk result (λ e. (e ≡ end) × (e ≤ length code.entry.bytes.now)) }
{
    if end <= code.bytes.len() as u64 {
        Ok(end as u32)
    } else {
        Err(CodeEnd::Cut)
    }
}

/// The refusal of the operand that begins at a place.
#[inline(never)]
fn refusal(code: View, at: u32) -> CodeEnd
    ensures { result ≡ bad_operand code.entry.bytes.now at }
{
    code.u1(at).map_or(CodeEnd::Cut, CodeEnd::BadOperand)
}

impl Operand {
    /// Whether its bytes are tested.
    #[inline(always)]
    fn is_tested(self) -> bool
        ensures { result ≡ is_tested self }
    {
        matches!(
            self,
            Operand::DupWords | Operand::SwapWords | Operand::ArrayType | Operand::TestedType
        )
    }

    /// The operand at a place from which the code reaches to its end.
    #[inline(always)]
    #[tactic(auto, using(crate::proofs::UntestedReads::read_within))]
    fn read_within(self, code: View, at: u32) -> Result<i32, CodeEnd>
        requires { at + operand_width self ≤ length code.bytes.now }
        ensures { result ≡ operand_at self code.entry.bytes.now at }
    {
        if self.is_tested() {
            self.read(code, at)
        } else {
            Ok(self.read_known(code, at))
        }
    }

    /// The operand at a place.
    #[inline(never)]
    fn read(self, code: View, at: u32) -> Result<i32, CodeEnd>
        ensures { result ≡ operand_at self code.entry.bytes.now at }
    {
        match self {
            Operand::Absent => Ok(0),
            Operand::U1 => Ok(i32::from(u1(code, at)?)),
            Operand::U2 => Ok(i32::from(u2(code, at)?)),
            Operand::S1 => Ok(i32::from(u1(code, at)?.cast_signed())),
            Operand::S2 => Ok(i32::from(u2(code, at)?.cast_signed())),
            Operand::S4 => Ok(code.u4(at).ok_or(CodeEnd::Cut)?.cast_signed()),
            Operand::DupWords | Operand::SwapWords | Operand::ArrayType | Operand::TestedType => {
                let byte = u1(code, at)?;
                if self.allows(byte) {
                    Ok(i32::from(byte))
                } else {
                    Err(CodeEnd::BadOperand(byte))
                }
            }
        }
    }

    /// Whether this may be the byte of the operand.
    fn allows(self, byte: u8) -> bool
        ensures { result ≡ allows self byte }
    {
        let (m, n) = (byte / 16, byte % 16);
        match self {
            Operand::DupWords => 1 <= m && m <= 4 && (n == 0 || m <= n && n <= m + 4),
            Operand::SwapWords => 1 <= m && m <= 2 && 1 <= n && n <= 2,
            Operand::ArrayType => 10 <= byte && byte <= 13,
            Operand::TestedType => byte == 0 || 10 <= byte && byte <= 14,
            _ => true,
        }
    }

    /// The key of the n-th pair of a table of pairs.
    pub(crate) fn key(self, code: View, table: u32, n: u32) -> i32
        requires { table + pair_width self * n < 2 ^ 32 }
        ensures { result ≡ key_at self code.entry.bytes.now table n }
    {
        self.read(code, table + (self.width() + 2) * n).unwrap_or(0)
    }

    /// Whether the n-th key of a table of pairs is above the one before it.
    fn is_risen(self, code: View, table: u32, n: u32) -> bool
        requires after_one { 1 ≤ n }
        requires inside { table + pair_width self * n < 2 ^ 32 }
        ensures { result ≡ rises self code.entry.bytes.now table n }
    {
        self.key(code, table, n - 1) < self.key(code, table, n)
    }
}

/// The place after a switch's table, which begins at this place.
fn end_of_table(layout: Layout, code: View, table: u32, y: i32, z: i32) -> Result<u32, CodeEnd>
    requires short { length code.bytes.now ≤ 65535 }
    requires inside { table ≤ length code.bytes.now }
    requires farther { operand_width layout.z ≤ table }
    ensures value { result ≡ table_end layout code.entry.bytes.now table y z }
    ensures within { IfOk result (λ e. (table ≤ e) × (e ≤ length code.entry.bytes.now)) }
{
    match layout.cases {
        Cases::Absent => Ok(table),
        Cases::Range => {
            if z < y {
                Err(refusal(code, table - layout.z.width()))
            } else {
                reach(code, u64::from(table) + 2 * (u64::from(z.abs_diff(y)) + 1))
            }
        }
        Cases::Pairs(key) => end_of_pairs(key, code, table, y.unsigned_abs()),
    }
}

/// The place after this many pairs, the first of which begins at `table`.
#[tactic(auto, using(crate::proofs::Pairs::pairs_facts))]
fn end_of_pairs(key: Operand, code: View, table: u32, count: u32) -> Result<u32, CodeEnd>
    requires { length code.bytes.now ≤ 65535 }
    ensures value { result ≡ pairs_end key code.entry.bytes.now table count }
    ensures within { IfOk result (λ e. (table ≤ e) × (e ≤ length code.entry.bytes.now)) }
{
    let width = key.width() + 2;
    let end = reach(code, u64::from(table) + u64::from(width) * u64::from(count))?;
    'pairs: for n in 1..count {
        if !key.is_risen(code, table, n) {
            return Err(refusal(code, table + width * n));
        }
    }
    Ok(end)
}
