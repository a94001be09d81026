ghost use Rattle.std.specs.Prelude.{◌≡◌, ◌≢◌, ◌+◌, ◌≤◌, ◌<◌, ℕ, Ok, length, slice_get, false, IsTrue, if◌then◌else◌};
ghost use Rattle.std.specs.Option.{option_map};
ghost use Rattle.jc_decode.specs.Decoding.{decoded};
ghost use Rattle.jc_decode.specs.Cases.{cases, leading, offset_place, with_offset, HasTable, is_switch};
ghost use Rattle.jc_decode.specs.Encoding.{IsAllowed};
ghost use Rattle.jc_decode.specs.Forms.{essence, is_near, is_wide_jump, jump_to, length_of};
ghost use Rattle.jc_decode.specs.Listing.{is_branch};
ghost use Rattle.jc_decode.specs.Symbols.{jump};

use crate::insn::Insn;
use crate::layout::{Cases, Layout};
use cap_bytes::{View, are_bytes};

/// Gives the n-th case of the switch at a place of a method's code this offset, and changes nothing
/// else. `decode` gives `insn` there, and it has more than n cases.
pub fn set_case(code: &mut [u8], at: u16, insn: Insn, n: u32, offset: i16)
    requires short { length code.old ≤ 65535 }
    requires decoded { decoded code.old at ≡ Ok insn }
    requires counted { n < length (cases code.old at insn) }
    ensures insn { decoded code.new at ≡ Ok insn }
    ensures changed { slice_get (cases code.new at insn) n ≡ option_map (leading offset) (slice_get (cases code.old at insn) n) }
    ensures others { (k : ℕ) → k ≢ n → slice_get (cases code.new at insn) k ≡ slice_get (cases code.old at insn) k }
    ensures bytes { code.new ≡ with_offset code.old (offset_place at insn n) offset }
{
    let place = offset_place(at, insn, n);
    write_offset(code, place, offset);
}

/// The place of the offset of the n-th case.
fn offset_place(at: u16, insn: Insn, n: u32) -> u32
    requires { offset_place at insn n ≤ 65535 }
    ensures { result ≡ offset_place at insn n }
{
    let layout = match Layout::of(insn.op) {
        Ok(layout) => layout,
        Err(_) => return u32::from(at),
    };
    let table = u32::from(at) + 1 + layout.width();
    match layout.cases {
        Cases::Absent => table,
        Cases::Range => table + 2 * n,
        Cases::Pairs(key) => table + (key.width() + 2) * n + key.width(),
    }
}

fn write_offset(code: &mut [u8], place: u32, offset: i16)
    requires { place + 2 ≤ length code.old }
    ensures { code.new ≡ with_offset code.old place offset }
{
    let start = place as usize;
    let bytes = offset.cast_unsigned().to_be_bytes();
    code[start..start + 2].copy_from_slice(&bytes);
}

impl Insn {
    /// The jump whose wide form has this opcode, over a distance: in that form, or in the short one.
    pub fn jump(op: u8, is_wide: bool, distance: i16) -> Insn
        requires op { IsTrue (is_wide_jump op) }
        requires near { is_wide ≡ false → IsTrue (is_near distance) }
        ensures value { result ≡ jump_to op is_wide distance }
        ensures same { essence result ≡ essence (jump op) }
        ensures allowed { IsAllowed result }
        ensures jumps { IsTrue (is_branch result.op) }
        ensures only { is_switch result.op ≡ false }
        ensures long { length_of result ≡ (if is_wide then 3 else 2) }
    {
        jump_to(op, is_wide, distance)
    }

    /// This switch of the code at a place, with another default.
    pub fn with_default(self, code: View, at: u16, offset: i16) -> Insn
        requires short { length code.bytes.now ≤ 65535 }
        requires switch { IsTrue (is_switch self.op) }
        requires table { HasTable code.bytes.now at self }
        ensures value { result ≡ record self { x = offset } }
        ensures same { essence result ≡ essence self }
        ensures allowed { IsAllowed result }
        ensures table { HasTable code.entry.bytes.now at result }
        ensures cases { cases code.entry.bytes.now at result ≡ cases code.entry.bytes.now at self }
        ensures few { length (cases code.entry.bytes.now at self) ≤ 65535 }
        ensures long { length_of result ≡ self.len }
    {
        are_bytes(code.bytes);
        self.leading(offset)
    }

    fn leading(self, offset: i16) -> Insn
        ensures { result ≡ record self { x = offset } }
    {
        Insn {
            x: i32::from(offset),
            ..self
        }
    }
}

fn jump_to(op: u8, is_wide: bool, distance: i16) -> Insn
    requires { IsTrue (is_wide_jump op) }
    ensures { result ≡ jump_to op is_wide distance }
{
    Insn {
        op: if is_wide { op } else { op - 56 },
        x: i32::from(distance),
        y: 0,
        z: 0,
        len: 0,
    }
}
