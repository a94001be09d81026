ghost use Rattle.std.specs.Prelude.{◌<◌, IfOk, IsSomeAnd, slice_get};
ghost use Rattle.card_typing.specs.Typing.{IsLeastCardTyping};
ghost use Rattle.jc_control.specs.Method.{method_in};
ghost use Rattle.jc_control.specs.Subject.{method, world_of};
ghost use Rattle.xf_allot.specs.Allotting.{AreAllottedBy};
ghost use Rattle.xf_allot.specs.Sharing.{AnswersSharing, Shares};
ghost use Rattle.xf_allot.specs.Subject.{IsSubject};

use crate::allotting::{Allotment, allot};
use crate::building::Building;
use jc_base::{Ty, World};
use jc_control::Subject;
use std::alloc::{AllocError, Global};
use xf_live::find_interference;

/// The registers that the variables of a method share.
#[derive(Drop)]
pub struct Sharing {
    /// The new number of each register, in their order. That of an argument is its own.
    pub numbers: Vec<u8>,
    /// How many registers there are then beyond the arguments.
    pub locals: u8,
}

/// The registers that the variables of a method with code share, by the types of its registers in its least card typing. None where
/// the method keeps its registers: one that is no argument is of no value's type, or half an int without the other.
pub fn share_registers(
    alloc: Global,
    world: &World<'_>,
    method: u16,
    types: &[Ty],
) -> Result<Option<Sharing>, AllocError>
    requires code { IsSomeAnd (slice_get world.now.methods method) (λ m. 0 < m.code_len) }
    requires typed { IsSomeAnd (method_in world.now method) (λ m. IsLeastCardTyping world.now m types.now) }
    ensures { IsSomeAnd (method_in world.now method) (λ m. IfOk result (AnswersSharing world.now m)) }
{
    let subject = Subject::of(world, method);
    let _classes = subject.world.classes();
    share(alloc, &subject, types)
}

// The same of a method that is looked at.
fn share(alloc: Global, subject: &Subject<'_>, types: &[Ty]) -> Result<Option<Sharing>, AllocError>
    requires subject { IsSubject subject.now }
    requires typed { IsLeastCardTyping (world_of subject.now) (method subject.now) types.now }
    ensures { IfOk result (AnswersSharing (world_of subject.now) (method subject.now)) }
{
    let _classes = subject.world.classes();
    let graph = Building::of(alloc, subject)?;
    let found = find_interference(alloc, graph.uses.as_slice(), graph.edges.as_slice())?;
    match allot(alloc, subject, &found, types)? {
        Some(allotment) => Ok(Some(shared(subject, types, allotment))),
        None => Ok(None),
    }
}

// What the variables are given, as the new number of each register.
fn shared(subject: &Subject<'_>, types: &[Ty], allotment: Allotment) -> Sharing
    requires subject { IsSubject subject.now }
    requires typed { IsLeastCardTyping (world_of subject.now) (method subject.now) types.now }
    requires allotted { AreAllottedBy (world_of subject.now) (method subject.now) types.now allotment }
    ensures { Shares (world_of subject.now) (method subject.now) result }
{
    let _classes = subject.world.classes();
    let _ = types;
    let arguments = subject.rec.nargs;
    let locals = allotment.end(arguments) - arguments;
    Sharing {
        numbers: allotment.numbers,
        locals,
    }
}
