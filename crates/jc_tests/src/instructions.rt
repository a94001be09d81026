ghost use Rattle.std.specs.Prelude.{◌≡◌, ◌≤◌, ◌<◌, IsTrue, Ok, length};
ghost use Rattle.jc_decode.specs.Decoding.{decoded};
ghost use Rattle.jc_decode.specs.Cases.{cases};

use crate::compared::is_same_end;
use cap_bytes::View;
use jc_decode::*;
use std::alloc::{AllocError, Global};

/// No instruction has this opcode.
const NONE: u32 = 0;
/// The instruction is left out.
const OUT: u32 = 99;

/// The number of bytes of the instruction of each opcode, in rows of ten, as chapter 7 of the
/// specification gives its format; of a switch with one offset, or with no pair.
static LENGTHS: [u32; 256] = [
    1, 1, 1, 1, 1, 1, 1, 1, 1, 1, // nop, aconst_null, sconst_m1 .. sconst_5, iconst_m1
    1, 1, 1, 1, 1, 1, 2, 3, 2, 3, // iconst_0 .. iconst_5, bspush, sspush, bipush, sipush
    5, 2, 2, 2, 1, 1, 1, 1, 1, 1, // iipush, aload, sload, iload, aload_0 .. sload_1
    1, 1, 1, 1, 1, 1, 1, 1, 1, 1, // sload_2 .. iload_3, aaload, baload, saload, iaload
    2, 2, 2, 1, 1, 1, 1, 1, 1, 1, // astore, sstore, istore, astore_0 .. sstore_2
    1, 1, 1, 1, 1, 1, 1, 1, 1, 1, // sstore_3 .. istore_3, aastore, bastore, sastore, iastore, pop
    1, 1, 1, 2, 2, 1, 1, 1, 1, 1, // pop2, dup, dup2, dup_x, swap_x, sadd, iadd, ssub, isub, smul
    1, 1, 1, 1, 1, 1, 1, 1, 1, 1, // imul, sdiv, idiv, srem, irem, sneg, ineg, sshl, ishl, sshr
    1, 1, 1, 1, 1, 1, 1, 1, 1, 3, // ishr, sushr, iushr, sand, iand, sor, ior, sxor, ixor, sinc
    3, 1, 1, 1, 1, 1, 2, 2, 2, 2, // iinc, s2b, s2i, i2b, i2s, icmp, ifeq, ifne, iflt, ifge
    2, 2, 2, 2, 2, 2, 2, 2, 2, 2, // ifgt, ifle, ifnull, ifnonnull, if_acmpeq .. if_scmpge
    2, 2, 2, OUT, OUT, 9, 13, 5, 5, 1, // if_scmpgt, if_scmple, goto, jsr, ret, the switches, areturn
    1, 1, 1, 3, 3, 3, 3, 3, 3, 3, // sreturn, ireturn, return, getstatic_a .. putstatic_s
    3, 2, 2, 2, 2, 2, 2, 2, 2, 3, // putstatic_i, getfield_a .. putfield_i, invokevirtual
    3, 3, 5, 3, 2, 3, 1, 1, 4, 4, // invokespecial, invokestatic, invokeinterface, new .. instanceof
    4, 4, 3, 3, 3, 3, 3, 3, 3, 3, // sinc_w, iinc_w, ifeq_w .. if_acmpeq_w
    3, 3, 3, 3, 3, 3, 3, 3, 3, 3, // if_acmpne_w .. goto_w, getfield_a_w
    3, 3, 3, 2, 2, 2, 2, 3, 3, 3, // getfield_b_w .. getfield_i_this, putfield_a_w ..
    3, 2, 2, 2, 2, NONE, NONE, NONE, NONE, NONE, // putfield_i_w, putfield_a_this .. putfield_i_this
    NONE, NONE, NONE, NONE, NONE, NONE, NONE, NONE, NONE, NONE, NONE, NONE, NONE, NONE, NONE, NONE,
    NONE, NONE, NONE, NONE, NONE, NONE, NONE, NONE, NONE, NONE, NONE, NONE, NONE, NONE, NONE, NONE,
    NONE, NONE, NONE, NONE, NONE, NONE, NONE, NONE, NONE, NONE, NONE, NONE, NONE, NONE, NONE, NONE,
    NONE, NONE, NONE, NONE, NONE, NONE, NONE, NONE, NONE, NONE, NONE, NONE, NONE, NONE, NONE, NONE,
    OUT, OUT,
];

/// A short table switch: default 5, low -1, high 0, offsets 16 and -2.
const TABLE: [u8; 11] = [115, 0, 5, 0xFF, 0xFF, 0, 0, 0, 16, 0xFF, 0xFE];
/// An int lookup switch: default -3, the pairs of -2 and 7, and of 65,536 and 9.
const LOOKUP: [u8; 17] = [
    118, 0xFF, 0xFD, 0, 2, 0xFF, 0xFF, 0xFF, 0xFE, 0, 7, 0, 1, 0, 0, 0, 9,
];

/// The bytes of an instruction, and its three operands, or why there is none.
type Read = (&'static [u8], Result<(i32, i32, i32), CodeEnd>);

static READ: [Read; 15] = [
    // bspush, iipush, sinc, invokeinterface, ifeq_w
    (&[16, 0xFF], Ok((-1, 0, 0))),
    (&[20, 0x80, 0, 0, 1], Ok((-2_147_483_647, 0, 0))),
    (&[89, 0xFE, 0xFF], Ok((254, -1, 0))),
    (&[142, 3, 0xFF, 0xFE, 200], Ok((3, 65_534, 200))),
    (&[152, 0x80, 0], Ok((-32_768, 0, 0))),
    // dup_x 2, 4; then 2, 1 and 0, 1
    (&[63, 0x24], Ok((0x24, 0, 0))),
    (&[63, 0x21], Err(CodeEnd::BadOperand(0x21))),
    (&[63, 0x01], Err(CodeEnd::BadOperand(0x01))),
    // swap_x 1, 3
    (&[64, 0x13], Err(CodeEnd::BadOperand(0x13))),
    // newarray 14, checkcast 9
    (&[144, 14], Err(CodeEnd::BadOperand(14))),
    (&[148, 9, 0, 0], Err(CodeEnd::BadOperand(9))),
    // a cut is told before a forbidden operand
    (&[148, 9, 0], Err(CodeEnd::Cut)),
    // a stableswitch from 2 to -2
    (
        &[115, 0, 0, 0, 2, 0xFF, 0xFE],
        Err(CodeEnd::BadOperand(0xFF)),
    ),
    // an slookupswitch whose second key is not above the first
    (
        &[117, 0, 0, 0, 2, 3, 4, 0, 9, 3, 4, 0, 9],
        Err(CodeEnd::BadOperand(3)),
    ),
    // an itableswitch from the least int to the least int: one case
    (
        &[116, 0, 0, 0x80, 0, 0, 0, 0x80, 0, 0, 0, 0, 7],
        Ok((0, i32::MIN, i32::MIN)),
    ),
];

/// Zero operands, with the first one that the instruction allows.
fn first_operand(op: u8) -> u8 {
    match op {
        63 => 0x10,
        64 => 0x11,
        144 => 10,
        _ => 0,
    }
}

/// The number of bytes that an opcode is given, with `NONE` and `OUT`.
fn length_of(op: u8) -> Option<u32> {
    let bytes = [op, first_operand(op), 0, 0, 0, 0, 0, 0, 0, 0, 0, 0, 0];
    match decode(View::of(&bytes), 0) {
        Ok(insn) => Some(insn.len),
        Err(CodeEnd::NoOpcode(byte)) if byte == op => Some(NONE),
        Err(CodeEnd::OutOfScope(byte)) if byte == op => Some(OUT),
        Err(_) => None,
    }
}

/// The first opcode that is given another length.
fn first_wrong_length() -> Option<usize> {
    LENGTHS
        .iter()
        .enumerate()
        .position(|(op, length)| length_of(op as u8) != Some(*length))
}

#[test]
fn every_opcode_has_its_length(rt: HostRuntime) {
    assert_eq!(rt; first_wrong_length(), None);
}

/// Whether the instruction at the start of these bytes is read, or refused, so.
fn is_read(bytes: &[u8], expected: Result<(i32, i32, i32), CodeEnd>) -> bool {
    if bytes.len() > 100 {
        return false;
    }
    match decode(View::of(bytes), 0) {
        Ok(insn) => matches!(expected, Ok((x, y, z)) if insn.x == x && insn.y == y && insn.z == z),
        Err(end) => matches!(expected, Err(other) if is_same_end(end, other)),
    }
}

fn is_row(row: &Read) -> bool {
    is_read(row.0, row.1)
}

/// Whether an instruction is cut at each length before its own.
fn is_cut(bytes: &[u8]) -> bool {
    (0..bytes.len()).all(|n| is_read(bytes.get(..n).unwrap_or(bytes), Err(CodeEnd::Cut)))
}

fn are_switches() -> bool {
    is_read(&TABLE, Ok((5, -1, 0)))
        && is_read(&LOOKUP, Ok((-3, 2, 0)))
        && is_cut(&TABLE)
        && is_cut(&LOOKUP)
}

#[test]
fn operands_are_read_with_their_signs_or_named(rt: HostRuntime) {
    assert_eq!(rt; READ.iter().position(|row| !is_row(row)), None);
}

#[test]
fn switches_are_read_whole_or_cut(rt: HostRuntime) {
    assert!(rt; are_switches());
}

/// `nop`, and the short table switch at place 1 with its default 5.
const PLACED: [u8; 12] = [0, 115, 0, 5, 0xFF, 0xFF, 0, 0, 0, 16, 0xFF, 0xFE];

/// Numbers of cases, with where the switch leads.
static TARGETS: [(u32, Option<i32>); 4] = [(0, Some(6)), (1, Some(17)), (2, Some(-1)), (3, None)];

/// The targets of a switch that stands at place 1.
fn target_of(code: &[u8], n: u32) -> Option<i32>
    requires { length code.now ≤ 65535 }
{
    let code = View::of(code);
    match decode(code, 1) {
        Ok(insn) => target(code, Placed { place: 1, insn }, n),
        Err(_) => None,
    }
}

fn is_led(row: &(u32, Option<i32>)) -> bool {
    target_of(&PLACED, row.0) == row.1
}

/// Whether the lookup switch has its two cases and no third.
fn has_cases() -> bool {
    let code = View::of(&LOOKUP);
    match decode(code, 0) {
        Ok(insn) => {
            matches!(case(code, 0, insn, 0), Some(Case { key: -2, offset: 7 }))
                && matches!(
                    case(code, 0, insn, 1),
                    Some(Case {
                        key: 65_536,
                        offset: 9
                    })
                )
                && case(code, 0, insn, 2).is_none()
        }
        Err(_) => false,
    }
}

#[test]
fn a_switch_leads_to_its_default_and_its_cases(rt: HostRuntime) {
    assert!(rt; TARGETS.iter().all(is_led) && has_cases());
}

/// Whether the switch at place 0 has a second case.
fn has_second(code: &[u8], insn: Insn) -> bool
    requires short { length code.now ≤ 65535 }
    requires decoded { decoded code.now 0 ≡ Ok insn }
    ensures { IsTrue result → 1 < length (cases code.now 0 insn) }
{
    case(View::of(code), 0, insn, 1).is_some()
}

/// The lookup switch with another offset for its second case.
fn with_offset() -> [u8; 17] {
    let mut code = LOOKUP;
    if let Ok(insn) = decode(View::of(&code), 0) {
        if has_second(&code, insn) {
            set_case(&mut code, 0, insn, 1, -2);
        }
    }
    code
}

#[test]
fn one_offset_is_set(rt: HostRuntime) {
    let mut expected = LOOKUP;
    expected[15] = 0xFF;
    expected[16] = 0xFE;
    assert!(rt; with_offset() == expected);
}

/// `nop`, `sspush`, `goto`, and a byte that is no opcode.
const LISTED: [u8; 8] = [0, 17, 1, 2, 112, 0xFC, 185, 0];

fn next_place(walk: &mut Instructions<'_>) -> Option<u16> {
    match walk.next() {
        Some(placed) => Some(placed.place),
        None => None,
    }
}

fn are_listed() -> bool {
    let mut walk = Instructions::of(View::of(&LISTED));
    next_place(&mut walk) == Some(0)
        && next_place(&mut walk) == Some(1)
        && next_place(&mut walk) == Some(4)
        && next_place(&mut walk).is_none()
        && matches!(code_end(View::of(&LISTED)), (6, CodeEnd::NoOpcode(185)))
}

#[test]
fn instructions_follow_one_another(rt: HostRuntime) {
    assert!(rt; are_listed());
}

/// Appends what the instruction at the start of these bytes is encoded as.
fn encode_first(bytes: &[u8], to: &mut Vec<u8>) -> Result<(), AllocError> {
    let code = View::of(bytes);
    if bytes.len() < 100 {
        if let Ok(insn) = decode(code, 0) {
            return encode(insn, code, 0, to);
        }
    }
    Ok(())
}

fn is_encoded(alloc: Global, bytes: &[u8]) -> Result<bool, AllocError> {
    let mut to = Vec::new(alloc);
    encode_first(bytes, &mut to)?;
    Ok(to.as_slice() == bytes)
}

static ENCODED: [&[u8]; 4] = [
    &[20, 1, 2, 3, 4],
    &[142, 3, 0xFF, 0xFE, 200],
    &TABLE,
    &LOOKUP,
];

/// The first of them that is encoded otherwise.
fn first_wrong_bytes(alloc: Global) -> Result<Option<usize>, AllocError> {
    for (n, bytes) in ENCODED.iter().enumerate() {
        if !is_encoded(alloc, bytes)? {
            return Ok(Some(n));
        }
    }
    Ok(None)
}

#[test]
fn what_is_encoded_are_the_bytes_that_were_decoded(rt: HostRuntime) -> Result<(), AllocError> {
    assert_eq!(rt; first_wrong_bytes(rt.alloc())?, None);
    Ok(())
}
