ghost use Rattle.std.specs.Prelude.{Ok, ◌≤ℤ◌, unsigned_abs, FitsSigned, ◌≡◌, ◌+◌, ◌*◌, ◌<◌, ◌≤◌, length, slice_get};
ghost use Rattle.std.specs.Int.{w16};
ghost use Rattle.jc_decode.specs.Decoding.{decoded, pair_width, range_count};
ghost use Rattle.jc_decode.specs.Cases.{offset_at, cases, range_case, pair_case, HasTable, is_switch};
ghost use Rattle.jc_decode.specs.Listing.{falls, is_branch, jumps, target, targets};

use crate::insn::{Case, Insn, Placed};
use crate::layout::{Cases, Layout, Operand};
use cap_bytes::{View, are_bytes};

impl Insn {
    /// Whether this is a jump with one target: a conditional or goto, short or wide.
    pub fn is_branch(self) -> bool
        ensures { result ≡ is_branch self.op }
    {
        96 <= self.op && self.op <= 112 || 152 <= self.op && self.op <= 168
    }

    /// Whether this is a switch.
    #[tactic(auto, using(crate::proofs::Switches::switch_facts))]
    pub fn is_switch(self) -> bool
        ensures { result ≡ is_switch self.op }
    {
        115 <= self.op && self.op <= 118
    }

    /// Whether this names places to go to.
    pub fn jumps(self) -> bool
        ensures { result ≡ jumps self.op }
    {
        self.is_branch() || self.is_switch()
    }

    /// Whether the instruction after may come next: not after goto, a switch, a return or athrow.
    pub fn falls(self) -> bool
        ensures { result ≡ falls self.op }
    {
        !(self.op == 112 || 115 <= self.op && self.op <= 122 || self.op == 147 || self.op == 168)
    }
}

/// The n-th case of the switch `insn` at a place, by the table's order: none where there are not more
/// than n cases or `insn` is no switch. The default's offset may differ from the one in the code.
#[tactic(auto, unfolding(crate::specs::Cases::cases))]
pub fn case(code: View, at: u16, insn: Insn, n: u32) -> Option<Case>
    requires short { length code.bytes.now ≤ 65535 }
    requires table { HasTable code.bytes.now at insn }
    ensures { result ≡ slice_get (cases code.entry.bytes.now at insn) n }
{
    let Ok(layout) = Layout::of(insn.op) else {
        return None;
    };
    let table = u32::from(at) + 1 + layout.width();
    match layout.cases {
        Cases::Absent => None,
        Cases::Range => {
            if n <= insn.z.abs_diff(insn.y) {
                Some(range_case(code, table, insn, n))
            } else {
                None
            }
        }
        Cases::Pairs(key) => {
            if n < insn.y.unsigned_abs() {
                Some(pair_case(code, table, key, n))
            } else {
                None
            }
        }
    }
}

pub(crate) fn range_case(code: View, table: u32, insn: Insn, n: u32) -> Case
    requires order { insn.y ≤ℤ insn.z }
    requires counted { n < range_count insn.y insn.z }
    requires inside { table + 2 * n ≤ 65535 }
    ensures { result ≡ range_case code.entry.bytes.now table insn.y n }
{
    Case {
        key: (i64::from(insn.y) + i64::from(n)) as i32,
        offset: offset(code, table + 2 * n),
    }
}

pub(crate) fn pair_case(code: View, table: u32, key: Operand, n: u32) -> Case
    requires inside { table + pair_width key * n ≤ 65535 }
    ensures { result ≡ pair_case code.entry.bytes.now table key n }
{
    let pair = table + (key.width() + 2) * n;
    Case {
        key: key.key(code, table, n),
        offset: offset(code, pair + key.width()),
    }
}

fn offset(code: View, at: u32) -> i16
    ensures { result ≡ offset_at code.entry.bytes.now at }
{
    code.u2(at).unwrap_or(0).cast_signed()
}

/// The n-th place that an instruction may jump to, as a distance from the code's first byte: a
/// branch's target, or of a switch the default's and then those of its cases in order. It may lie
/// outside the code.
#[tactic(auto, using(crate::proofs::Targets::target_facts))]
pub fn target(code: View, placed: Placed, n: u32) -> Option<i32>
    requires short { length code.bytes.now ≤ 65535 }
    requires decoded { decoded code.bytes.now placed.place ≡ Ok placed.insn }
    ensures { result ≡ slice_get (targets code.entry.bytes.now placed) n }
{
    are_bytes(code.bytes);
    let insn = placed.insn;
    if !insn.jumps() {
        return None;
    }
    if n == 0 {
        return Some(hop(placed.place, insn.x));
    }
    let case = case(code, placed.place, insn, n - 1)?;
    Some(hop(placed.place, i32::from(case.offset)))
}

/// The place so far from another.
fn hop(place: u16, offset: i32) -> i32
    requires { FitsSigned w16 offset }
    ensures { result ≡ target place offset }
{
    i32::from(place) + offset
}
