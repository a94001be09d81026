ghost use Rattle.std.specs.Prelude.{◌≤◌, length};

use cap_bare::{BareKind, bare_method, bare_verify};
use cap_bytes::{FormKind, View};
use cap_package::PackFault;
use jc_decode::CodeEnd;

/// The place and kind of the refusal of an info's method.
fn refusal_of(info: &[u8]) -> Option<(u16, BareKind)>
    requires { length info.now ≤ 65535 }
{
    let method = match bare_method(View::of(info)) {
        Ok(method) => method,
        Err(_) => return None,
    };
    match bare_verify(method.code, method.bare) {
        Ok(()) => None,
        Err(fault) => Some((fault.place, fault.kind)),
    }
}

/// Targets inside an instruction and before the code.
fn has_flawed_targets() -> bool {
    let inside = refusal_of(&[0, 2, 0x00, 0x11, 0x00, 0x05, 0x70, 0xFE, 0x78]);
    let before = refusal_of(&[0, 1, 0x00, 0x70, 0xFF, 0x11]);
    matches!(inside, Some((3, BareKind::BadTarget(1))))
        && matches!(before, Some((0, BareKind::BadTarget(-1))))
}

/// An instruction that is cut, one that bare methods leave out, an opcode that nothing has.
fn has_flawed_code() -> bool {
    let cut = refusal_of(&[0, 1, 0x00, 0x04, 0x11, 0x00]);
    let reference = refusal_of(&[0, 1, 0x00, 0x04, 0x01, 0x70, 0x09]);
    let unknown = refusal_of(&[0, 1, 0x00, 0xC8]);
    matches!(cut, Some((1, BareKind::Code(CodeEnd::Cut))))
        && matches!(reference, Some((1, BareKind::Code(CodeEnd::OutOfScope(1)))))
        && matches!(
            unknown,
            Some((0, BareKind::Code(CodeEnd::OutOfScope(0xC8))))
        )
}

#[test]
fn flaws_are_named_at_the_least_place(rt: HostRuntime) {
    assert!(rt; has_flawed_targets() && has_flawed_code());
}

/// Ends of the code that are reached, and stacks at targets and branches.
fn has_refused_flow() -> bool {
    let falls = refusal_of(&[0, 2, 0x00, 0x04, 0x04, 0x41]);
    let backward = refusal_of(&[0, 2, 0x00, 0x04, 0x04, 0x41, 0x3B, 0x70, 0xFD]);
    let forward = refusal_of(&[0, 2, 0x00, 0x03, 0x60, 0x03, 0x04, 0x04, 0x78]);
    let branch = refusal_of(&[0, 1, 0x00, 0x04, 0x70, 0x02, 0x78]);
    matches!(falls, Some((2, BareKind::FallsOff)))
        && matches!(backward, Some((1, BareKind::StackAtTarget)))
        && matches!(forward, Some((4, BareKind::StackAtTarget)))
        && matches!(branch, Some((1, BareKind::StackAtBranch)))
}

/// Too few cells, too many, and a register that is none.
fn has_refused_limits() -> bool {
    let under = refusal_of(&[0, 1, 0x01, 0x3B, 0x78]);
    let over = refusal_of(&[0, 1, 0x00, 0x04, 0x04, 0x78]);
    let local = refusal_of(&[0, 1, 0x10, 0x1D, 0x78]);
    matches!(under, Some((0, BareKind::Underflow)))
        && matches!(over, Some((1, BareKind::Overflow)))
        && matches!(local, Some((0, BareKind::NoLocal(1))))
}

#[test]
fn states_are_refused_where_they_are_met(rt: HostRuntime) {
    assert!(rt; has_refused_flow() && has_refused_limits());
}

/// The kind and place of the fault of an info that breaks its format.
fn form_of(info: &[u8]) -> Option<(FormKind, u32)>
    requires { length info.now ≤ 65535 }
{
    match bare_method(View::of(info)) {
        Err(PackFault::Form(fault)) if fault.part == 7 => Some((fault.kind, fault.at)),
        _ => None,
    }
}

fn has_bad_values() -> bool {
    let handlers = form_of(&[1, 2, 0x10, 0x1C, 0x04, 0x41, 0x78]);
    let flags = form_of(&[0, 0x12, 0x10, 0x1C, 0x04, 0x41, 0x78]);
    let alone = form_of(&[1]);
    matches!(handlers, Some((FormKind::BadValue, 3)))
        && matches!(flags, Some((FormKind::BadValue, 4)))
        && matches!(alone, Some((FormKind::BadValue, 3)))
}

fn has_cuts() -> bool {
    let nothing = form_of(&[]);
    let count = form_of(&[0]);
    let header = form_of(&[0, 2]);
    matches!(nothing, Some((FormKind::Cut, 3)))
        && matches!(count, Some((FormKind::Cut, 4)))
        && matches!(header, Some((FormKind::Cut, 5)))
}

fn has_no_code() -> bool {
    matches!(
        bare_method(View::of(&[0, 2, 0x10])),
        Err(PackFault::MethodLength(1, 0))
    )
}

#[test]
fn files_are_refused_at_the_first_item(rt: HostRuntime) {
    assert!(rt; has_bad_values() && has_cuts() && has_no_code());
}
