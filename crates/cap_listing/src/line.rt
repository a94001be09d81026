ghost use Rattle.std.specs.Prelude.{◌≡◌, ◌++◌, ◌∷◌, [], ◌≤◌, Ok, length, map, OnOk};
ghost use Rattle.std.specs.Fmt.{signed_decimal, decimal};
ghost use Rattle.jc_decode.specs.Decoding.{decoded};
ghost use Rattle.jc_decode.specs.Names.{name};
ghost use Rattle.jc_decode.specs.Cases.{cases};
ghost use Rattle.cap_listing.specs.Words.{joined, spaced};
ghost use Rattle.cap_listing.specs.Numbers.{numbers_of};
ghost use Rattle.cap_listing.specs.Text.{heading_words, bytes_words, handler_words};

use crate::method::Heading;
use crate::numbers::push_numbers;
use cap_bytes::View;
use itoa::Buffer;
use jc_decode::{Insn, LaidHandler, opcode_name};
use std::alloc::{AllocError, Global};

/// Appends a word after a space.
fn push_word(word: &[u8], out: &mut Vec<u8>) -> Result<(), AllocError>
    ensures { OnOk result (out.new.items ≡ out.old.items ++ 32 ∷ word.now) }
{
    out.push(b' ')?;
    out.extend_from_slice(word)
}

/// Appends a number.
fn push_decimal(number: u32, out: &mut Vec<u8>) -> Result<(), AllocError>
    ensures { OnOk result (out.new.items ≡ out.old.items ++ decimal number) }
{
    out.extend_from_slice(Buffer::new().format(number).as_bytes())
}

/// Appends a number after a space.
fn push_count(number: u32, out: &mut Vec<u8>) -> Result<(), AllocError>
    ensures { OnOk result (out.new.items ≡ out.old.items ++ 32 ∷ decimal number) }
{
    push_word(Buffer::new().format(number).as_bytes(), out)
}

/// Appends a number after a space, which may be negative.
pub(crate) fn push_number(number: i64, out: &mut Vec<u8>) -> Result<(), AllocError>
    ensures { OnOk result (out.new.items ≡ out.old.items ++ 32 ∷ signed_decimal number) }
{
    push_word(Buffer::new().format(number).as_bytes(), out)
}

/// Appends a word and a number, each after a space.
#[tactic(auto, using(crate::proofs::Appending::steps))]
fn push_named(word: &[u8], number: u8, out: &mut Vec<u8>) -> Result<(), AllocError>
    ensures { OnOk result (out.new.items ≡ out.old.items ++ spaced (word.now ∷ decimal number ∷ [])) }
{
    push_word(word, out)?;
    push_count(u32::from(number), out)
}

/// Appends the first line of a method, without its line feed.
#[tactic(auto, using(crate::proofs::Appending::steps))]
pub(crate) fn push_heading(heading: Heading, out: &mut Vec<u8>) -> Result<(), AllocError>
    ensures { OnOk result (out.new.items ≡ out.old.items ++ joined (heading_words heading)) }
{
    out.extend_from_slice(b"method")?;
    push_count(u32::from(heading.class_no), out)?;
    out.push(b'.')?;
    push_decimal(u32::from(heading.method_no), out)?;
    push_named(b"stack", heading.max_stack, out)?;
    push_named(b"args", heading.nargs, out)?;
    push_named(b"locals", heading.max_locals, out)
}

/// Appends the line of the instruction `insn`, which stands at `at` in the code, as it is listed at a place.
#[tactic(auto, using(crate::proofs::Appending::steps))]
pub(crate) fn push_instruction(
    place: u16,
    insn: Insn,
    code: View,
    at: u16,
    out: &mut Vec<u8>,
) -> Result<(), AllocError>
    requires short { length code.bytes.now ≤ 65535 }
    requires decodes { decoded code.bytes.now at ≡ Ok insn }
    ensures { OnOk result (out.new.items
        ≡ out.old.items
        ++ joined (decimal place ∷ name insn.op ∷ map signed_decimal (numbers_of place insn (cases code.entry.bytes.now at insn)))) }
{
    push_decimal(u32::from(place), out)?;
    push_word(opcode_name(insn.op).as_bytes(), out)?;
    push_numbers(place, insn, code, at, out)
}

/// Appends the line of the bytes at which no instruction is decoded.
#[tactic(auto, using(crate::proofs::Appending::steps))]
pub(crate) fn push_bytes(
    alloc: Global,
    place: u16,
    bytes: &[u8],
    out: &mut Vec<u8>,
) -> Result<(), AllocError>
    ensures { OnOk result (out.new.items ≡ out.old.items ++ joined (bytes_words place bytes.now)) }
{
    let digits = hex::encode(alloc, bytes)?;
    out.extend_from_slice(b"bytes")?;
    push_count(u32::from(place), out)?;
    push_word(digits.as_bytes(), out)
}

/// Appends the line of a handler.
#[tactic(auto, using(crate::proofs::Appending::steps))]
pub(crate) fn push_handler(handler: LaidHandler, out: &mut Vec<u8>) -> Result<(), AllocError>
    ensures { OnOk result (out.new.items ≡ out.old.items ++ joined (handler_words handler)) }
{
    out.extend_from_slice(b"handler")?;
    push_count(u32::from(handler.start), out)?;
    push_count(u32::from(handler.start) + u32::from(handler.length), out)?;
    push_count(u32::from(handler.entry), out)?;
    push_count(u32::from(handler.pool), out)
}
