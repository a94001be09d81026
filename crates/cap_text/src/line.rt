ghost use Rattle.std.specs.Prelude.{◌≡◌, IfOk, codes, string_bytes};
ghost use Rattle.cap_text.specs.Line.{malformed_line, malformed_stream_line, not_linked_line, not_started_line, refused_bare_line};
ghost use Rattle.cap_text.specs.Line.{methods_line, method_text, refused_flow_line, refused_card_line, bare_ending_line, bound_line};
ghost use Rattle.cap_text.specs.Line.{cycle_line};
ghost use Rattle.cap_text.specs.Room.{HasRoom, Writes, WritesAtMost};
ghost use Rattle.cap_text.specs.Shared.{shared_line};
ghost use Rattle.cap_text.specs.Trial.{trial_text};
ghost use Rattle.cap_text.specs.Packed.{packed_line, load_limit_line};
ghost use Rattle.cap_text.specs.Start.{start_fault_text};

use crate::fault::Shown;
use crate::refusals::{write_bare_kind, write_card_fault, write_flow_end};
use crate::room::Room;
use cap_bare::{BareEnd, BareFault};
use cap_load::StreamFault;
use cap_package::PackFault;
use card_typing::CardFault;
use jc_flow::FlowEnd;
use jc_link::LinkFault;
use std::alloc::{AllocError, Global};
use vm_step::StartFault;

/// The most bytes of the line for a bare method that is refused.
const MOST_BARE: usize = 42;

/// The most bytes of the line for a method that is refused.
const MOST_REFUSED: usize = 123;

/// The most bytes of the line for an entry that does not start.
const MOST_NOT_STARTED: usize = 48;

/// A method by the numbers of its package, of its class in the package's Descriptor, and of itself in
/// the class, each from 0.
#[derive(Clone, Copy)]
pub struct MethodNumber {
    pub package: u16,
    pub class_no: u16,
    pub method_no: u16,
}

// A method, in at most 32 bytes.
fn write_method(room: &mut Room, method: MethodNumber)
    requires { HasRoom room.old 32 }
    ensures writes { Writes room.old room.new (method_text method) }
    ensures few { WritesAtMost room.old room.new 32 }
{
    room.write("package ");
    room.write_number(method.package);
    room.write(" method ");
    room.write_number(method.class_no);
    room.write(".");
    room.write_number(method.method_no);
}

/// The line for a package, by its number, whose parts are malformed.
pub fn malformed(alloc: Global, number: u16, fault: PackFault) -> Result<String, AllocError>
    ensures { IfOk result (λ t. string_bytes t ≡ malformed_line number fault) }
{
    format!(in alloc; "malformed package {number} {}\n", Shown(fault))
}

/// The line for a package, by its number, whose Load file is refused.
pub fn malformed_stream(
    alloc: Global,
    number: u16,
    fault: StreamFault,
) -> Result<String, AllocError>
    ensures { IfOk result (λ t. string_bytes t ≡ malformed_stream_line number fault) }
{
    format!(in alloc; "malformed package {number} {}\n", Shown(fault))
}

/// The line for packages that make no world with the roles.
pub fn not_linked(alloc: Global, fault: LinkFault) -> Result<String, AllocError>
    ensures { IfOk result (λ t. string_bytes t ≡ not_linked_line fault) }
{
    format!(in alloc; "not linked {}\n", Shown(fault))
}

/// The line for an entry that does not start.
pub fn not_started(alloc: Global, fault: StartFault) -> Result<String, AllocError>
    ensures { IfOk result (λ t. string_bytes t ≡ not_started_line fault) }
{
    let mut room = Room::new(alloc, MOST_NOT_STARTED)?;
    write_not_started(&mut room, fault);
    Ok(room.into_text())
}

/// Writes the line for an entry that does not start, in at most 48 bytes. It needs no further memory.
pub fn write_not_started(room: &mut Room, fault: StartFault)
    requires { HasRoom room.old 48 }
    ensures { Writes room.old room.new (not_started_line fault) }
{
    room.write("not started ");
    write_start_fault(room, fault);
    room.write("\n");
}

/// The line for a bare method that the verifier refuses.
pub fn refused_bare(alloc: Global, fault: BareFault) -> Result<String, AllocError>
    ensures { IfOk result (λ t. string_bytes t ≡ refused_bare_line fault) }
{
    let mut room = Room::new(alloc, MOST_BARE)?;
    room.write("refused place ");
    room.write_number(fault.place);
    room.write(" ");
    write_bare_kind(&mut room, fault.kind);
    room.write("\n");
    Ok(room.into_text())
}

/// The line for a package whose methods with code, of which there are `count`, all have a dataflow
/// typing.
pub fn typed(alloc: Global, count: u16) -> Result<String, AllocError>
    ensures { IfOk result (λ t. string_bytes t ≡ methods_line (codes "typed ") count) }
{
    format!(in alloc; "typed {count} methods\n")
}

/// The line for a method without a dataflow typing; it is empty where there was no memory.
pub fn refused_flow(alloc: Global, method: MethodNumber, end: FlowEnd) -> Result<String, AllocError>
    ensures { IfOk result (λ t. string_bytes t ≡ refused_flow_line method end) }
{
    let mut room = Room::new(alloc, MOST_REFUSED)?;
    match end {
        FlowEnd::Memory => {}
        _ => {
            room.write("refused ");
            write_method(&mut room, method);
            room.write(" ");
            write_flow_end(&mut room, end);
            room.write("\n");
        }
    }
    Ok(room.into_text())
}

/// The line for packages whose methods with code, of which there are `count`, all have a card typing.
pub fn accepted(alloc: Global, count: u16) -> Result<String, AllocError>
    ensures { IfOk result (λ t. string_bytes t ≡ methods_line (codes "accepted ") count) }
{
    format!(in alloc; "accepted {count} methods\n")
}

/// The line for a method without a card typing.
pub fn refused_card(
    alloc: Global,
    method: MethodNumber,
    fault: CardFault,
) -> Result<String, AllocError>
    ensures { IfOk result (λ t. string_bytes t ≡ refused_card_line method fault) }
{
    let mut room = Room::new(alloc, MOST_REFUSED)?;
    write_refused_card(&mut room, method, fault);
    Ok(room.into_text())
}

/// Writes the line for a method without a card typing, in at most 123 bytes. It needs no further memory.
pub fn write_refused_card(room: &mut Room, method: MethodNumber, fault: CardFault)
    requires { HasRoom room.old 123 }
    ensures { Writes room.old room.new (refused_card_line method fault) }
{
    room.write("refused ");
    write_method(room, method);
    room.write(" ");
    write_card_fault(room, fault);
    room.write("\n");
}

/// The line for how a run of a bare method ends.
pub fn bare_ending(alloc: Global, end: BareEnd) -> Result<String, AllocError>
    ensures { IfOk result (λ t. string_bytes t ≡ bare_ending_line end) }
{
    match end {
        BareEnd::Returned(value) => format!(in alloc; "returned short {value}\n"),
        BareEnd::Spent => format!(in alloc; "spent\n"),
    }
}

/// The line for a package whose methods with code, of which there are `count`, had so many registers beside their arguments,
/// and now have fewer or as many.
pub fn shared(alloc: Global, count: u16, before: u32, after: u32) -> Result<String, AllocError>
    ensures { IfOk result (λ t. string_bytes t ≡ shared_line count before after) }
{
    format!(in alloc; "shared {count} methods {before} to {after} registers\n")
}

/// The text for a run of a package, of which `source` tells, and one of the package in the form that a verifier on the card
/// accepts, of which `target` tells.
pub fn tried(alloc: Global, source: &str, target: &str) -> Result<String, AllocError>
    ensures { IfOk result (λ t. string_bytes t ≡ trial_text source.now target.now) }
{
    format!(in alloc; "source\n{source}target\n{target}")
}

/// The line for an entry whose runs take so many words of frames, and so many frames, at most.
pub fn bounded(alloc: Global, words: u32, frames: u16) -> Result<String, AllocError>
    ensures { IfOk result (λ t. string_bytes t ≡ bound_line words frames) }
{
    format!(in alloc; "bound {words} words {frames} frames\n")
}

/// The line for an entry from which calls come to a method again, by its numbers in its package's Descriptor.
pub fn cycle(alloc: Global, class_no: u16, method_no: u16) -> Result<String, AllocError>
    ensures { IfOk result (λ t. string_bytes t ≡ cycle_line class_no method_no) }
{
    format!(in alloc; "cycle method {class_no}.{method_no}\n")
}

/// The line for a package that is packed into a Load file of so many blocks and bytes.
pub fn packed(alloc: Global, blocks: usize, bytes: usize) -> Result<String, AllocError>
    ensures { IfOk result (λ t. string_bytes t ≡ packed_line blocks bytes) }
{
    format!(in alloc; "packed {blocks} blocks {bytes} bytes\n")
}

/// The line for a Load file that would have so many bytes, more than a part may have.
pub fn limit_load(alloc: Global, size: u32) -> Result<String, AllocError>
    ensures { IfOk result (λ t. string_bytes t ≡ load_limit_line size) }
{
    format!(in alloc; "limit LoadLong {size}\n")
}

/// Writes why an entry does not start, in at most 35 bytes.
pub(crate) fn write_start_fault(room: &mut Room, fault: StartFault)
    requires { HasRoom room.old 35 }
    ensures writes { Writes room.old room.new (start_fault_text fault) }
    ensures few { WritesAtMost room.old room.new 35 }
{
    match fault {
        StartFault::NoEntry => room.write("NoEntry"),
        StartFault::NotStatic => room.write("NotStatic"),
        StartFault::ArgCount { said, wanted } => {
            room.write("ArgCount ");
            room.write_long(said as u64);
            room.write(" ");
            room.write_number(wanted);
        }
        StartFault::ArgKind(number) => room.write_named("ArgKind", number),
        StartFault::ArgRoom(number) => room.write_named("ArgRoom", number),
    }
}
