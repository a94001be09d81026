ghost use Rattle.std.specs.Prelude.{◌≡◌, ◌<◌, ◌+◌, ℕ, List, Ok, Some, IfSome, unsigned_abs};
ghost use Rattle.cap_bytes.specs.Number.{number_at};
ghost use Rattle.jc_decode.specs.Decoding.{decoded};
ghost use Rattle.jc_decode.specs.Encoding.{IsAllowed};
ghost use Rattle.jc_decode.specs.PoolIndex.{pool_index, bytes_of_index, has_short_index, has_index, has_second_index};

use crate::insn::Insn;

/// How many bytes an instruction's index into the constant pool takes.
#[derive(Clone, Copy)]
pub enum IndexWidth {
    One,
    Two,
}

/// Where an instruction has its index into the constant pool, and which entry it names.
#[derive(Clone, Copy)]
pub struct PoolIndex {
    /// The distance of the first byte of the index from the opcode.
    pub at: u8,
    pub width: IndexWidth,
    /// The number of the entry.
    pub entry: u16,
}

impl Insn {
    /// The index into the constant pool that is among the instruction's operands (sections 6.11 and 7.5
    /// of the specification). The two bytes after an atype of 10 to 13 of `checkcast` and `instanceof`
    /// are no index.
    pub fn pool_index(self) -> Option<PoolIndex>
        requires { IsAllowed self }
        ensures value { result ≡ pool_index self }
        ensures stands { (code : List ℕ) (at : ℕ) → decoded code at ≡ Ok self
            → IfSome result (λ i. number_at (bytes_of_index i.width) (at + i.at) code ≡ Some i.entry) }
    {
        self.index_of()
    }

    #[tactic(auto, using(crate::proofs::PoolIndices::index_facts))]
    fn index_of(self) -> Option<PoolIndex>
        requires { IsAllowed self }
        ensures { result ≡ pool_index self }
    {
        if has_short_index(self.op) {
            Some(index(1, IndexWidth::One, self.x))
        } else if has_index(self.op) {
            Some(index(1, IndexWidth::Two, self.x))
        } else if has_second_index(self) {
            Some(index(2, IndexWidth::Two, self.y))
        } else {
            None
        }
    }
}

/// The index that is an operand at a distance from the opcode.
fn index(at: u8, width: IndexWidth, operand: i32) -> PoolIndex
    requires { unsigned_abs operand < 65536 }
    ensures { result ≡ record { at = at; width = width; entry = unsigned_abs operand } }
{
    PoolIndex {
        at,
        width,
        entry: operand.unsigned_abs() as u16,
    }
}

/// The instructions on fields of objects whose index has one byte.
fn has_short_index(op: u8) -> bool
    ensures { result ≡ has_short_index op }
{
    131 <= op && op <= 138 || 173 <= op && op <= 176 || 181 <= op && op <= 184
}

/// The other instructions whose first operand is an index.
fn has_index(op: u8) -> bool
    ensures { result ≡ has_index op }
{
    let names_member = 123 <= op && op <= 130 || 139 <= op && op <= 141;
    let makes = op == 143 || op == 145;
    names_member || makes || 169 <= op && op <= 172 || 177 <= op && op <= 180
}

/// The instructions whose second operand is an index.
fn has_second_index(insn: Insn) -> bool
    ensures { result ≡ has_second_index insn }
{
    let atype = insn.x.unsigned_abs();
    insn.op == 142 || 148 <= insn.op && insn.op <= 149 && (atype == 0 || atype == 14)
}
