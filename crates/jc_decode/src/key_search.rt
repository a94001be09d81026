//! The case of a switch for a key: of a table of offsets by its number, of a table of pairs by halving.
ghost use Rattle.std.specs.Prelude.{◌≡◌, ◌+◌, ◌*◌, ◌≤◌, ◌≤ℤ◌, Ok, find, map, length};
ghost use Rattle.std.specs.List.{range_with_len};
ghost use Rattle.cap_bytes.specs.Bytes.{AreBytes};
ghost use Rattle.jc_decode.specs.Decoding.{decoded, pair_width, range_count};
ghost use Rattle.jc_decode.specs.Cases.{cases, pair_case, range_case};
ghost use Rattle.jc_decode.specs.Keys.{has_key, IsPlaceOfKey, PairsRise};

use crate::cases::{pair_case, range_case};
use crate::insn::{Case, Insn};
use crate::layout::{Cases, Layout, Operand};
use cap_bytes::{View, are_bytes};

/// The case with a key of the switch that `decode` gives at a place: no two have the same. None where there is none, or
/// `insn` is no switch.
#[tactic(auto, unfolding(crate::specs::Cases::cases))]
pub fn case_of_key(code: View, at: u16, insn: Insn, key: i32) -> Option<Case>
    requires short { length code.bytes.now ≤ 65535 }
    requires decoded { decoded code.bytes.now at ≡ Ok insn }
    ensures { result ≡ find (has_key key) (cases code.entry.bytes.now at insn) }
{
    are_bytes(code.bytes);
    let Ok(layout) = Layout::of(insn.op) else {
        return None;
    };
    let table = u32::from(at) + 1 + layout.width();
    match layout.cases {
        Cases::Absent => None,
        Cases::Range => case_in_range(code, table, insn, key),
        Cases::Pairs(form) => case_of_pair(form, code, table, insn.y.unsigned_abs(), key),
    }
}

/// The case with a key, in a table of an offset for each number from low to high.
fn case_in_range(code: View, table: u32, insn: Insn, key: i32) -> Option<Case>
    requires order { insn.y ≤ℤ insn.z }
    requires inside { table + 2 * range_count insn.y insn.z ≤ 65535 }
    ensures { result
        ≡ find (has_key key) (map (range_case code.entry.bytes.now table insn.y) (range_with_len 0 (range_count insn.y insn.z))) }
{
    if insn.y <= key && key <= insn.z {
        Some(range_case(code, table, insn, key.abs_diff(insn.y)))
    } else {
        None
    }
}

/// The case with a key, in a table of so many pairs whose keys rise.
fn case_of_pair(form: Operand, code: View, table: u32, count: u32, key: i32) -> Option<Case>
    requires inside { table + pair_width form * count ≤ 65535 }
    requires rising { PairsRise form code.bytes.now table count }
    requires bytes { AreBytes code.bytes.now }
    ensures { result ≡ find (has_key key) (map (pair_case code.entry.bytes.now table form) (range_with_len 0 count)) }
{
    match place_of_key(form, code, table, count, key) {
        Some(n) => Some(pair_case(code, table, form, n)),
        None => None,
    }
}

/// The number of the pair with a key, in a table of so many pairs whose keys rise.
fn place_of_key(form: Operand, code: View, table: u32, count: u32, key: i32) -> Option<u32>
    requires inside { table + pair_width form * count ≤ 65535 }
    requires rising { PairsRise form code.bytes.now table count }
    ensures { IsPlaceOfKey form code.entry.bytes.now table count key result }
{
    let mut low = 0;
    let mut high = count;
    'halves: while low < high {
        let middle = low + (high - low) / 2;
        let found = form.key(code, table, middle);
        if found < key {
            low = middle + 1;
        } else if key < found {
            high = middle;
        } else {
            return Some(middle);
        }
    }
    None
}
