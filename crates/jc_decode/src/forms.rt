ghost use Rattle.std.specs.Prelude.{◌≡◌, ℕ, List, Ok, IsTrue};
ghost use Rattle.jc_decode.specs.Decoding.{decoded};
ghost use Rattle.jc_decode.specs.Encoding.{IsAllowed};
ghost use Rattle.jc_decode.specs.Listing.{jumps};
ghost use Rattle.jc_decode.specs.Forms.{essence, first_short, names_register, is_register_move, length_of, plain_length, short_form};

use crate::insn::Insn;
use crate::layout::{Cases, Layout};

impl Insn {
    /// Whether this loads or stores a register, with its number as an operand or in the opcode.
    pub fn is_register_move(self) -> bool
        ensures { result ≡ is_register_move self.op }
    {
        21 <= self.op && self.op <= 35 || 40 <= self.op && self.op <= 54
    }

    /// A load or store of one of the first four registers as the instruction of one byte for it, as
    /// `aload_2` for `aload 2`. Any other instruction stays as it is.
    pub fn short_form(self) -> Insn
        ensures value { result ≡ short_form self }
        ensures same { IsAllowed self → essence result ≡ essence self }
        ensures allowed { IsAllowed self → IsAllowed result }
        ensures jumps { jumps result.op ≡ jumps self.op }
    {
        self.in_one_byte()
    }

    fn in_one_byte(self) -> Insn
        ensures { result ≡ short_form self }
    {
        let register = self.x.unsigned_abs();
        if has_register(self.op) && register <= 3 {
            Insn {
                op: first_short(self.op) + register as u8,
                x: 0,
                ..self
            }
        } else {
            self
        }
    }

    /// The number of its bytes: by the opcode, and of a switch with its table.
    pub fn length(self) -> u32
        ensures value { result ≡ length_of self }
        ensures own { (code : List ℕ) (at : ℕ) → decoded code at ≡ Ok self → result ≡ self.len }
    {
        match Layout::of(self.op) {
            Ok(layout) => match layout.cases {
                Cases::Absent => 1 + layout.width(),
                _ => self.len,
            },
            Err(_) => 1,
        }
    }

    /// The number of its bytes where a load or store of any register has its operand and each jump an
    /// offset of two bytes.
    pub fn plain_length(self) -> u32
        ensures { result ≡ plain_length self }
    {
        if self.is_register_move() {
            2
        } else if self.is_branch() {
            3
        } else {
            self.length()
        }
    }
}

/// The opcode of the load or store of register 0 that has no operand, where `op` is that with one.
fn first_short(op: u8) -> u8
    requires { IsTrue (names_register op) }
    ensures { result ≡ first_short op }
{
    if op <= 23 {
        24 + 4 * (op - 21)
    } else {
        43 + 4 * (op - 40)
    }
}

/// Whether this is the opcode of a load or store whose operand is a register.
fn has_register(op: u8) -> bool
    ensures { result ≡ names_register op }
{
    21 <= op && op <= 23 || 40 <= op && op <= 42
}
