ghost use Rattle.cap_text.specs.Room.{HasRoom, Writes, WritesAtMost};
ghost use Rattle.cap_text.specs.Rule.{type_text, rule_fault_text};
ghost use Rattle.cap_text.specs.Flow.{place_text, flow_end_text};
ghost use Rattle.cap_text.specs.Bare.{code_end_text, bare_kind_text, bad_target_text};
ghost use Rattle.cap_text.specs.Card.{card_kind_text, card_fault_text};

use crate::room::Room;
use cap_bare::BareKind;
use card_typing::{CardFault, CardKind};
use jc_base::Ty;
use jc_decode::CodeEnd;
use jc_flow::FlowEnd;
use jc_rules::RuleFault;

// A type.
fn write_type(room: &mut Room, ty: Ty)
    requires { HasRoom room.old 23 }
    ensures writes { Writes room.old room.new (type_text ty) }
    ensures few { WritesAtMost room.old room.new 23 }
{
    match ty {
        Ty::Bottom => room.write("bottom"),
        Ty::Short => room.write("short"),
        Ty::IntHigh => room.write("inthigh"),
        Ty::IntLow => room.write("intlow"),
        Ty::Null => room.write("null"),
        Ty::Class(class) => room.write_named("class", class),
        Ty::ArrBool => room.write("array boolean"),
        Ty::ArrByte => room.write("array byte"),
        Ty::ArrShort => room.write("array short"),
        Ty::ArrInt => room.write("array int"),
        Ty::ArrRef(class) => room.write_named("array class", class),
        Ty::Fresh { place, class } => {
            room.write_named("fresh", place);
            room.write_named(" class", class);
        }
        Ty::Top => room.write("top"),
    }
}

/// Writes why the typing rule of an instruction refuses, in at most 69 bytes.
pub(crate) fn write_rule_fault(room: &mut Room, fault: RuleFault)
    requires { HasRoom room.old 69 }
    ensures writes { Writes room.old room.new (rule_fault_text fault) }
    ensures few { WritesAtMost room.old room.new 69 }
{
    match fault {
        RuleFault::Underflow => room.write("Underflow"),
        RuleFault::Overflow => room.write("Overflow"),
        RuleFault::Mismatch { found, wanted } => {
            room.write("Mismatch found ");
            write_type(room, found);
            room.write(" wanted ");
            write_type(room, wanted);
        }
        RuleFault::NoLocal(register) => room.write_named("NoLocal", u16::from(register)),
        RuleFault::SplitInt => room.write("SplitInt"),
        RuleFault::FreshKept => room.write("FreshKept"),
        RuleFault::BadMember(entry) => room.write_named("BadMember", entry),
        RuleFault::NotConcrete(class) => room.write_named("NotConcrete", class),
        RuleFault::StackMerge => room.write("StackMerge"),
    }
}

/// Writes a place, in at most 12 bytes; what is wrong there comes after it.
pub(crate) fn write_place(room: &mut Room, place: u16)
    requires { HasRoom room.old 12 }
    ensures writes { Writes room.old room.new (place_text place) }
    ensures few { WritesAtMost room.old room.new 12 }
{
    room.write("place ");
    room.write_number(place);
    room.write(" ");
}

/// Writes where a method has no dataflow typing and why, in at most 81 bytes.
pub(crate) fn write_flow_end(room: &mut Room, end: FlowEnd)
    requires { HasRoom room.old 81 }
    ensures writes { Writes room.old room.new (flow_end_text end) }
    ensures few { WritesAtMost room.old room.new 81 }
{
    match end {
        FlowEnd::NoTyping(place, fault) => {
            write_place(room, place);
            write_rule_fault(room, fault);
        }
        FlowEnd::Code(place, end) => {
            write_place(room, place);
            write_code_end(room, end);
        }
        FlowEnd::BadTarget(place, target) => {
            write_place(room, place);
            write_bad_target(room, target);
        }
        FlowEnd::FallsOff(place) => {
            write_place(room, place);
            room.write("FallsOff");
        }
        FlowEnd::BadHandler(entry, number) => {
            write_place(room, entry);
            room.write_named("BadHandler", number);
        }
        FlowEnd::Memory => {}
    }
}

/// Writes why no instruction is decoded, in at most 16 bytes.
pub(crate) fn write_code_end(room: &mut Room, end: CodeEnd)
    requires { HasRoom room.old 16 }
    ensures writes { Writes room.old room.new (code_end_text end) }
    ensures few { WritesAtMost room.old room.new 16 }
{
    match end {
        CodeEnd::NoOpcode(opcode) => room.write_named("NoOpcode", u16::from(opcode)),
        CodeEnd::Cut => room.write("Cut"),
        CodeEnd::OutOfScope(opcode) => room.write_named("OutOfScope", u16::from(opcode)),
        CodeEnd::BadOperand(byte) => room.write_named("BadOperand", u16::from(byte)),
    }
}

/// Writes that a branch leads to a place where no instruction begins, in at most 21 bytes.
pub(crate) fn write_bad_target(room: &mut Room, target: i32)
    requires { HasRoom room.old 21 }
    ensures writes { Writes room.old room.new (bad_target_text target) }
    ensures few { WritesAtMost room.old room.new 21 }
{
    room.write("BadTarget ");
    room.write_signed(target);
}

/// Writes why a bare method is refused, in at most 21 bytes.
pub(crate) fn write_bare_kind(room: &mut Room, kind: BareKind)
    requires { HasRoom room.old 21 }
    ensures writes { Writes room.old room.new (bare_kind_text kind) }
    ensures few { WritesAtMost room.old room.new 21 }
{
    match kind {
        BareKind::Code(end) => write_code_end(room, end),
        BareKind::Underflow => room.write("Underflow"),
        BareKind::Overflow => room.write("Overflow"),
        BareKind::NoLocal(register) => room.write_named("NoLocal", u16::from(register)),
        BareKind::StackAtTarget => room.write("StackAtTarget"),
        BareKind::StackAtBranch => room.write("StackAtBranch"),
        BareKind::BadTarget(target) => write_bad_target(room, target),
        BareKind::FallsOff => room.write("FallsOff"),
    }
}

// What is wrong at a place.
fn write_kind(room: &mut Room, kind: CardKind)
    requires { HasRoom room.old 69 }
    ensures writes { Writes room.old room.new (card_kind_text kind) }
    ensures few { WritesAtMost room.old room.new 69 }
{
    match kind {
        CardKind::Code(end) => write_code_end(room, end),
        CardKind::Rule(fault) => write_rule_fault(room, fault),
        CardKind::StackAtTarget => room.write("StackAtTarget"),
        CardKind::StackAtBranch => room.write("StackAtBranch"),
        CardKind::HandlerEntered => room.write("HandlerEntered"),
        CardKind::BadTarget(target) => write_bad_target(room, target),
        CardKind::FallsOff => room.write("FallsOff"),
        CardKind::BadHandler(number) => room.write_named("BadHandler", number),
        CardKind::BadIndex(entry) => {
            room.write("BadIndex ");
            room.write_long(u64::from(entry));
        }
        CardKind::NotIndexed(target) => room.write_named("NotIndexed", target),
    }
}

/// Writes where the verifier on the card refuses a method and why, in at most 81 bytes.
pub(crate) fn write_card_fault(room: &mut Room, fault: CardFault)
    requires { HasRoom room.old 81 }
    ensures writes { Writes room.old room.new (card_fault_text fault) }
    ensures few { WritesAtMost room.old room.new 81 }
{
    write_place(room, fault.place);
    write_kind(room, fault.kind);
}
