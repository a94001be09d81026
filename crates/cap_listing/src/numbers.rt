ghost use Rattle.std.specs.Prelude.{◌≡◌, ◌++◌, ◌≤◌, ◌+◌, Ok, length, OnOk};
ghost use Rattle.jc_decode.specs.Decoding.{decoded};
ghost use Rattle.jc_decode.specs.Cases.{cases};
ghost use Rattle.cap_listing.specs.Numbers.{shown, shown_operand, shown_first, shown_case, shown_cases, numbers_of};

use crate::line::push_number;
use cap_bytes::View;
use jc_decode::{Case, Cases, Insn, Layout, Operand, case};
use std::alloc::AllocError;

/// Appends an operand as it is shown, where there is one.
#[tactic(auto, using(crate::proofs::Appending::steps))]
fn push_operand(operand: Operand, value: i64, out: &mut Vec<u8>) -> Result<(), AllocError>
    ensures { OnOk result (out.new.items ≡ out.old.items ++ shown (shown_operand operand value)) }
{
    match operand {
        Operand::Absent => Ok(()),
        _ => push_number(value, out),
    }
}

/// The first operand, or the place to which it leads.
fn first(jumps: bool, place: u16, value: i32) -> i64
    ensures { result ≡ shown_first jumps place value }
{
    if jumps {
        i64::from(place) + i64::from(value)
    } else {
        i64::from(value)
    }
}

/// Appends a case as it is shown.
#[tactic(auto, using(crate::proofs::Appending::steps))]
fn push_case(cases: Cases, place: u16, case: Case, out: &mut Vec<u8>) -> Result<(), AllocError>
    ensures { OnOk result (out.new.items ≡ out.old.items ++ shown (shown_case cases place case)) }
{
    let target = i64::from(place) + i64::from(case.offset);
    match cases {
        Cases::Absent => Ok(()),
        Cases::Range => push_number(target, out),
        Cases::Pairs(_) => {
            push_number(i64::from(case.key), out)?;
            push_number(target, out)
        }
    }
}

/// Appends the cases of the instruction `insn`, which stands at `at` in the code, as they are shown at a place.
fn push_cases(
    kind: Cases,
    place: u16,
    insn: Insn,
    code: View,
    at: u16,
    out: &mut Vec<u8>,
) -> Result<(), AllocError>
    requires short { length code.bytes.now ≤ 65535 }
    requires decodes { decoded code.bytes.now at ≡ Ok insn }
    ensures { OnOk result (out.new.items ≡ out.old.items ++ shown (shown_cases kind place (cases code.entry.bytes.now at insn))) }
{
    'cases: for n in 0..65536_u32 {
        match case(code, at, insn, n) {
            Some(found) => push_case(kind, place, found, out)?,
            None => return Ok(()),
        }
    }
    Ok(())
}

/// Appends the numbers of the instruction `insn`, which stands at `at` in the code, as they are shown at a place.
#[tactic(auto, using(crate::proofs::Appending::numbers_none, crate::proofs::Appending::append_none))]
pub(crate) fn push_numbers(
    place: u16,
    insn: Insn,
    code: View,
    at: u16,
    out: &mut Vec<u8>,
) -> Result<(), AllocError>
    requires short { length code.bytes.now ≤ 65535 }
    requires decodes { decoded code.bytes.now at ≡ Ok insn }
    ensures { OnOk result (out.new.items ≡ out.old.items ++ shown (numbers_of place insn (cases code.entry.bytes.now at insn))) }
{
    let layout = match Layout::of(insn.op) {
        Ok(layout) => layout,
        Err(_) => return Ok(()),
    };
    push_operand(layout.x, first(insn.jumps(), place, insn.x), out)?;
    push_operand(layout.y, i64::from(insn.y), out)?;
    push_operand(layout.z, i64::from(insn.z), out)?;
    push_cases(layout.cases, place, insn, code, at, out)?;
    Ok(())
}
