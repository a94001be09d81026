ghost use Rattle.std.specs.Prelude.{◌≡◌, ◌≤◌, ◌∷◌, ◌++◌, ℕ, ℤ, List, map, decimal, IfOk, ◌≢◌, ◌+◌, ◌↔◌, length, IfSome, IfNone, IsTrue};
ghost use Rattle.std.specs.Fmt.{signed_decimal};
ghost use Rattle.jc_decode.specs.declared.insn.Insn.{Insn};
ghost use Rattle.jc_decode.specs.declared.symbols.LaidHandler.{LaidHandler};
ghost use Rattle.cap_bytes.specs.Bytes.{AreBytes};
ghost use Rattle.cap_listing.specs.declared.method.ListedMethod.{ListedMethod};
ghost use Rattle.hex.specs.Hex.{encode_lower};
ghost use Rattle.cap_listing.specs.Words.{IsPlain, joined};
ghost use Rattle.cap_listing.specs.Numbers.{AreShown};
ghost use Rattle.cap_listing.specs.Text.{IsMethod, IsHeading, IsHandler, head_words, heading_of, handler_words, bytes_words};
ghost use Rattle.cap_listing.specs.Text.{heading_words};
ghost use Rattle.cap_listing.specs.Reading.{IsOne, block_words};
ghost use Rattle.cap_listing.specs.Lines.{IsInstructionLine, IsBytesLine};

use crate::block::push_block;
use crate::cut::{byte, count, cut, cut_word, number};
use crate::line::{push_bytes, push_handler, push_heading, push_instruction};
use crate::method::Heading;
use cap_bytes::{View, are_bytes};
use hex::FromHexError;
use jc_decode::{LaidHandler, decode, opcode_named};
use std::alloc::{AllocError, Global};

/// The second of some words, and those after it.
fn second_word(words: &[u8]) -> (&[u8], &[u8])
    ensures { (v w : List ℕ) (ws : List (List ℕ)) → IsPlain v → IsPlain w → words.now ≡ joined (v ∷ w ∷ ws)
        → (result.0.now ≡ w) × (result.1.now ≡ joined ws) }
{
    let (_, rest) = cut_word(words);
    cut_word(rest)
}

/// The two numbers that a full stop stands between.
fn name_in(word: &[u8]) -> (u16, u16)
    ensures { (m n : ℕ) → m ≤ 65535 → n ≤ 65535 → word.now ≡ decimal m ++ 46 ∷ decimal n → (result.0 ≡ m) × (result.1 ≡ n) }
{
    match cut(b'.', word) {
        Some((first, second)) => (count(first), count(second)),
        None => (0, 0),
    }
}

/// The numbers of the method whose first line this is, and any others where it is none.
pub(crate) fn heading_in(line: &[u8]) -> Heading
    ensures fits { IsHeading result }
    ensures given { (m : ListedMethod) → IsMethod m → line.now ≡ joined (head_words m) → result ≡ heading_of m }
{
    let (name, after_name) = second_word(line);
    let (max_stack, after_stack) = second_word(after_name);
    let (nargs, after_args) = second_word(after_stack);
    let (max_locals, _) = second_word(after_args);
    let (class_no, method_no) = name_in(name);
    let max_stack = byte(max_stack);
    let nargs = byte(nargs);
    let max_locals = byte(max_locals);
    Heading {
        class_no,
        method_no,
        max_stack,
        nargs,
        max_locals,
    }
}

/// The handler whose line this is, and any other where it is none.
pub(crate) fn handler_in(line: &[u8]) -> LaidHandler
    ensures fits { IsHandler result }
    ensures given { (h : LaidHandler) → IsHandler h → line.now ≡ joined (handler_words h) → result ≡ h }
{
    let (start, after_start) = second_word(line);
    let (end, after_end) = cut_word(after_start);
    let (entry, after_entry) = cut_word(after_end);
    let (pool, _) = cut_word(after_entry);
    let start = count(start);
    let length = count(end).saturating_sub(start);
    let entry = count(entry);
    let pool = count(pool);
    LaidHandler {
        start,
        length,
        entry,
        pool,
    }
}

/// The bytes that digits write, and any others where they write none.
fn bytes_of_digits(alloc: Global, digits: &[u8]) -> Result<Vec<u8>, AllocError>
    ensures { IfOk result (λ v. (bytes : List ℕ) → AreBytes bytes → digits.now ≡ encode_lower bytes → v.items ≡ bytes) }
{
    match hex::decode(alloc, digits) {
        Ok(bytes) => Ok(bytes),
        Err(end) => match end {
            FromHexError::OutOfMemory => Err(AllocError),
            _ => Ok(Vec::new(alloc)),
        },
    }
}

/// The bytes whose line this is, at which no instruction is decoded, and any others where it is none.
pub(crate) fn bytes_in(alloc: Global, line: &[u8]) -> Result<Vec<u8>, AllocError>
    ensures { IfOk result (λ v. (place : ℕ) (bytes : List ℕ) → place ≤ 65535 → AreBytes bytes
        → line.now ≡ joined (bytes_words place bytes) → v.items ≡ bytes) }
{
    let (_, after_place) = second_word(line);
    let (digits, _) = cut_word(after_place);
    let bytes = bytes_of_digits(alloc, digits)?;
    Ok(bytes)
}

/// The numbers that some words write, and any others where one writes none.
fn numbers_in(alloc: Global, words: &[u8]) -> Result<Vec<i32>, AllocError>
    ensures { IfOk result (λ v. (ns : List ℤ) → AreShown ns → words.now ≡ joined (map signed_decimal ns) → v.items ≡ ns) }
{
    let mut numbers = Vec::new(alloc);
    let mut rest = words;
    'words: while !rest.is_empty() {
        let (word, after) = cut_word(rest);
        numbers.push(number(word))?;
        rest = after;
    }
    Ok(numbers)
}

/// The bytes of the instruction at a place whose line this is, and any others where it is none.
pub(crate) fn block_in(alloc: Global, place: u16, line: &[u8]) -> Result<Vec<u8>, AllocError>
    ensures { IfOk result (λ v. (bytes : List ℕ) (i : Insn) → IsOne bytes i → line.now ≡ joined (block_words place bytes i)
        → v.items ≡ bytes) }
{
    let (name, after_name) = second_word(line);
    let numbers = numbers_in(alloc, after_name)?;
    let op = opcode_named(name).unwrap_or(0);
    let mut bytes = Vec::new(alloc);
    push_block(place, op, numbers.as_slice(), &mut bytes)?;
    Ok(bytes)
}

/// Whether a line is the first of a method with these numbers.
fn is_heading_line(alloc: Global, heading: Heading, line: &[u8]) -> Result<bool, AllocError>
    ensures { IfOk result (λ good. IsTrue good ↔ (line.now ≡ joined (heading_words heading))) }
{
    let mut shown = Vec::new(alloc);
    push_heading(heading, &mut shown)?;
    Ok(line == shown.as_slice())
}

/// The numbers of the method whose first line this is, where it is one.
pub(crate) fn heading_of(alloc: Global, line: &[u8]) -> Result<Option<Heading>, AllocError>
    ensures found { IfOk result (λ o. IfSome o (λ h. IsHeading h × (line.now ≡ joined (heading_words h)))) }
    ensures none { IfOk result (λ o. IfNone o ((m : ListedMethod) → IsMethod m → line.now ≢ joined (head_words m))) }
{
    let heading = heading_in(line);
    let good = is_heading_line(alloc, heading, line)?;
    if good { Ok(Some(heading)) } else { Ok(None) }
}

/// Whether a line is that of a handler.
fn is_handler_line(alloc: Global, handler: LaidHandler, line: &[u8]) -> Result<bool, AllocError>
    ensures { IfOk result (λ good. IsTrue good ↔ (line.now ≡ joined (handler_words handler))) }
{
    let mut shown = Vec::new(alloc);
    push_handler(handler, &mut shown)?;
    Ok(line == shown.as_slice())
}

/// The handler whose line this is, where it is one.
pub(crate) fn handler_of(alloc: Global, line: &[u8]) -> Result<Option<LaidHandler>, AllocError>
    ensures found { IfOk result (λ o. IfSome o (λ h. IsHandler h × (line.now ≡ joined (handler_words h)))) }
    ensures none { IfOk result (λ o. IfNone o ((h : LaidHandler) → IsHandler h → line.now ≢ joined (handler_words h))) }
{
    let handler = handler_in(line);
    let good = is_handler_line(alloc, handler, line)?;
    if good { Ok(Some(handler)) } else { Ok(None) }
}

/// Whether a line is that of these bytes at a place, at which no instruction is decoded.
fn is_bytes_line(alloc: Global, place: u16, bytes: &[u8], line: &[u8]) -> Result<bool, AllocError>
    requires { length bytes.now ≤ 65535 }
    ensures { IfOk result (λ good. IsTrue good ↔ IsBytesLine place bytes.now line.now) }
{
    are_bytes(bytes);
    if bytes.is_empty() || decode(View::of(bytes), 0).is_ok() {
        return Ok(false);
    }
    let mut shown = Vec::new(alloc);
    push_bytes(alloc, place, bytes, &mut shown)?;
    Ok(line == shown.as_slice())
}

/// The bytes whose line this is at a place of a code, at which no instruction is decoded, where it is one.
pub(crate) fn bytes_of(
    alloc: Global,
    place: u16,
    line: &[u8],
) -> Result<Option<Vec<u8>>, AllocError>
    ensures found { IfOk result (λ o. IfSome o (λ v. IsBytesLine place v.items line.now × (place + length v.items ≤ 65535))) }
    ensures none { IfOk result (λ o. IfNone o ((bytes : List ℕ) → IsBytesLine place bytes line.now → place + length bytes ≤ 65535 → ⊥)) }
{
    let bytes = bytes_in(alloc, line)?;
    if bytes.len() > 65535 - place as usize {
        return Ok(None);
    }
    let good = is_bytes_line(alloc, place, bytes.as_slice(), line)?;
    if good { Ok(Some(bytes)) } else { Ok(None) }
}

/// Whether a line is that of the instruction of these bytes at a place.
fn is_instruction_line(
    alloc: Global,
    place: u16,
    bytes: &[u8],
    line: &[u8],
) -> Result<bool, AllocError>
    requires { length bytes.now ≤ 65535 }
    ensures { IfOk result (λ good. IsTrue good ↔ IsInstructionLine place bytes.now line.now) }
{
    are_bytes(bytes);
    match decode(View::of(bytes), 0) {
        Ok(insn) if insn.len as usize == bytes.len() => {
            let mut shown = Vec::new(alloc);
            push_instruction(place, insn, View::of(bytes), 0, &mut shown)?;
            Ok(line == shown.as_slice())
        }
        _ => Ok(false),
    }
}

/// The bytes of the instruction whose line this is at a place of a code, where it is one.
pub(crate) fn instruction_of(
    alloc: Global,
    place: u16,
    line: &[u8],
) -> Result<Option<Vec<u8>>, AllocError>
    ensures found { IfOk result (λ o. IfSome o (λ v. IsInstructionLine place v.items line.now × (place + length v.items ≤ 65535))) }
    ensures none { IfOk result (λ o. IfNone o ((bytes : List ℕ) → IsInstructionLine place bytes line.now
        → place + length bytes ≤ 65535 → ⊥)) }
{
    let bytes = block_in(alloc, place, line)?;
    if bytes.len() > 65535 - place as usize {
        return Ok(None);
    }
    let good = is_instruction_line(alloc, place, bytes.as_slice(), line)?;
    if good { Ok(Some(bytes)) } else { Ok(None) }
}
