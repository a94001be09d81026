ghost use Rattle.std.specs.Prelude.{◌≡◌, map, IfOk};
ghost use Rattle.jc_decode.specs.Forms.{with_operand};
ghost use Rattle.law_renumbered.specs.Instruction.{uses_register, renumbered_instruction};
ghost use Rattle.xf_share.specs.Numbering.{number_of, IsReadable, locals_of, symbols_of};
ghost use Rattle.law_renumbered.specs.Symbols.{range_of};

use crate::items::items;
use cap_bytes::View;
use jc_base::{Handler, MethodRec};
use jc_decode::{Insn, Range, Sequence, Symbols};
use std::alloc::{AllocError, Global};
use xf_allot::Sharing;

/// An instruction with the register that it names, if any, under its new number.
pub(crate) fn renumbered(insn: Insn, sharing: &Option<Sharing>) -> Insn
    ensures { result ≡ renumbered_instruction (number_of sharing.now) insn }
{
    if !uses_register(insn) {
        return insn;
    }
    let named = with_operand(insn);
    let register = (named.x.unsigned_abs() % 256) as u8;
    Insn {
        x: i32::from(number_of(sharing, register)),
        ..named
    }
}

// The new number of a register, where a method's variables share registers.
fn number_of(sharing: &Option<Sharing>, register: u8) -> u8
    ensures { result ≡ number_of sharing.now register }
{
    match sharing {
        Some(sharing) => match sharing.numbers.get(usize::from(register)) {
            Some(number) => *number,
            None => 0,
        },
        None => register,
    }
}

// Whether it names a register: a load, a store, `sinc`, `iinc` or a wide form of these two.
fn uses_register(insn: Insn) -> bool
    ensures { result ≡ uses_register insn.op }
{
    insn.is_register_move() || matches!(insn.op, 89 | 90 | 150 | 151)
}

// A load or store with the register in its opcode as the one with an operand.
fn with_operand(insn: Insn) -> Insn
    ensures { result ≡ with_operand insn }
{
    if 24 <= insn.op && insn.op <= 35 {
        return Insn {
            op: 21 + (insn.op - 24) / 4,
            x: i32::from((insn.op - 24) % 4),
            ..insn
        };
    }
    if 43 <= insn.op && insn.op <= 54 {
        return Insn {
            op: 40 + (insn.op - 43) / 4,
            x: i32::from((insn.op - 43) % 4),
            ..insn
        };
    }
    insn
}

/// A method's code with a label at each place, in which its registers have the numbers that its variables share.
pub(crate) fn symbols_of(
    alloc: Global,
    rec: &MethodRec,
    code: View<'_>,
    sharing: &Option<Sharing>,
) -> Result<Symbols, AllocError>
    requires { IsReadable code.bytes.now }
    ensures { IfOk result (λ symbols. symbols ≡ symbols_of rec.now code.entry.bytes.now sharing.now) }
{
    let items = items(alloc, code, sharing)?;
    let ranges = ranges(alloc, rec.handlers.as_slice())?;
    Ok(Symbols {
        items: Sequence::of(items),
        ranges: Sequence::of(ranges),
        max_stack: rec.max_stack,
        nargs: rec.nargs,
        max_locals: locals_of(rec, sharing),
    })
}

// The ranges of handlers, in their order.
fn ranges(alloc: Global, handlers: &[Handler]) -> Result<Vec<Range>, AllocError>
    ensures { IfOk result (λ ranges. ranges.items ≡ map range_of handlers.now) }
{
    let mut ranges = Vec::new(alloc);
    'handlers: for handler in handlers {
        ranges.push(range_of(*handler))?;
    }
    Ok(ranges)
}

fn range_of(handler: Handler) -> Range
    ensures { result ≡ range_of handler }
{
    Range {
        from: handler.start,
        to: handler.end,
        entry: handler.entry,
        pool: handler.index,
    }
}

// How many registers the method then has beyond its arguments.
fn locals_of(rec: &MethodRec, sharing: &Option<Sharing>) -> u8
    ensures { result ≡ locals_of rec.now sharing.now }
{
    match sharing {
        Some(sharing) => sharing.locals,
        None => rec.max_locals,
    }
}
