ghost use Rattle.std.specs.Prelude.{◌≡◌, ◌≤◌, length, Ok};
ghost use Rattle.jc_decode.specs.Decoding.{decoded};
ghost use Rattle.cap_bare.specs.Typing.{BareTyping, IsCompact, register_count};
ghost use Rattle.cap_bare.specs.Machine.{RunAnswers, after, branch_target, entered, step, IsSafe};
ghost use Rattle.cap_bare.specs.Leading.{state_in_frame, stepped};

use crate::format::{Bare, fetch, instruction_of};
use crate::frame::{Frame, Lead};
use cap_bytes::View;
use jc_decode::{Placed, target};

/// How the run of a bare method ends.
#[derive(Clone, Copy)]
pub enum BareEnd {
    /// The method returned this short.
    Returned(i16),
    /// No ending is reached within the budget.
    Spent,
}

/// What one step comes to.
#[derive(Clone, Copy)]
pub enum Progress {
    /// The next instruction is at this place.
    At(u16),
    /// The method returned this short.
    Ended(i16),
}

/// Runs a method that `bare_verify` accepts, for at most `budget` steps: an instruction is one step.
pub fn bare_run(code: View<'_>, bare: Bare, args: &[i16], budget: u64) -> BareEnd
    requires filled { 1 ≤ length code.bytes.now }
    requires short { length code.bytes.now ≤ 32767 }
    requires compact { IsCompact bare }
    requires accepted { BareTyping code.bytes.now bare }
    requires arguments { length args.now ≡ bare.nargs }
    ensures { RunAnswers result (after budget code.entry.bytes.now bare (entered bare args.now)) }
{
    let mut frame = Frame::entered(bare, args);
    let mut place = 0;
    'steps: for _taken in 0..budget {
        match step(code, bare, &mut frame, place) {
            Progress::At(next) => place = next,
            Progress::Ended(value) => return BareEnd::Returned(value),
        }
    }
    BareEnd::Spent
}

/// Takes one step of a run that meets no fault.
fn step(code: View<'_>, bare: Bare, frame: &mut Frame, place: u16) -> Progress
    requires short { length code.bytes.now ≤ 32767 }
    requires compact { IsCompact bare }
    requires safe { IsSafe code.bytes.now bare (state_in_frame place frame.old) }
    requires registers { length frame.old.registers ≡ register_count bare }
    ensures { stepped result frame.new ≡ step code.entry.bytes.now bare (state_in_frame place frame.old) }
{
    let insn = match fetch(code, place) {
        Ok(insn) => insn,
        Err(_) => unreachable!(),
    };
    let target = branch_target(code, Placed { place, insn });
    match frame.act(instruction_of(insn), target, place + insn.len as u16) {
        Lead::To(next) => Progress::At(next as u16),
        Lead::Gives(value) => Progress::Ended(value),
    }
}

/// The place that an instruction names, if it names one.
fn branch_target(code: View<'_>, placed: Placed) -> i32
    requires short { length code.bytes.now ≤ 32767 }
    requires decoded { decoded code.bytes.now placed.place ≡ Ok placed.insn }
    ensures { result ≡ branch_target code.entry.bytes.now placed }
{
    match target(code, placed, 0) {
        Some(target) => target,
        None => 0,
    }
}
