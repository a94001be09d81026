ghost use Rattle.std.specs.Prelude.{◌≡◌, ◌<◌, ◌^◌, ◌≤◌, ◌*◌, length};
ghost use Rattle.jc_decode.specs.Symbols.{plain_bytes, plain_size};
ghost use Rattle.jc_decode.specs.CodeSize.{plain_code_size};

use crate::symbols::Item;
use crate::{Instructions, code_end, instructions_are_listed};
use cap_bytes::View;

/// The plain size of some items: what their code takes where a load or store of any register has its
/// operand and each jump is wide.
pub fn plain_size(items: &[Item]) -> u32
    requires { plain_size items.now < 2 ^ 32 }
    ensures { result ≡ plain_size items.now }
{
    items.iter().map(|item| plain_bytes(item)).sum()
}

fn plain_bytes(item: &Item) -> u32
    ensures { result ≡ plain_bytes item.now }
{
    match item {
        Item::Plain(insn) => insn.plain_length(),
        Item::Branch { .. } => 3,
        Item::Switch { insn, .. } => insn.length(),
        Item::Label(_) => 0,
    }
}

/// The plain size of a method's code: 2 bytes for each load or store of a register, 3 for each conditional or goto, and
/// the length of any other instruction; bytes from a place where decoding stops count one each.
pub fn plain_code_size(code: View<'_>) -> u32
    requires { length code.bytes.now ≤ 32767 }
    ensures size { result ≡ plain_code_size code.entry.bytes.now }
    ensures least { length code.entry.bytes.now ≤ result }
    ensures most { result ≤ 3 * length code.entry.bytes.now }
{
    instructions_are_listed();
    let (end, _) = code_end(code);
    let mut size = 0;
    'walk: for placed in Instructions::of(code) {
        size += placed.insn.plain_length();
    }
    size + (code.bytes.len() as u32 - u32::from(end))
}
