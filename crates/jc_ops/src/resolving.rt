ghost use Rattle.std.specs.Prelude.{◌≡◌, ◌<◌, length, IfOk, IsSomeAnd, slice_get};
ghost use Rattle.jc_base.specs.World.{member_at};
ghost use Rattle.jc_ops.specs.Resolve.{Resolves, ResolvesAt, new_object};
ghost use Rattle.jc_ops.specs.Sound.{IsSound};

use crate::calls::callee;
use crate::fault::RuleFault;
use crate::named::{
    array_of, array_type, byte_of, instance_field, member, result_returned, short_of, static_field,
    tested_type,
};
use crate::operation::{Constant, Move, Operation, Site};
use crate::row::Row;
use jc_base::{Member, MethodRec, World, concrete_decides};
use jc_decode::Insn;

/// The object that the `new` at the place makes, of a concrete class.
fn new_object(
    world: &World<'_>,
    package: u16,
    place: u16,
    pool: u16,
) -> Result<Operation, RuleFault>
    requires { «package» < length world.now.infos }
    ensures { result ≡ new_object world.now place pool (member_at world.now «package» pool) }
{
    match member(world, package, pool) {
        Some(Member::ClassOf { class }) if world.is_concrete(class) => {
            Ok(Operation::New { place, class })
        }
        Some(Member::ClassOf { class }) => Err(RuleFault::NotConcrete(class)),
        _ => Err(RuleFault::BadMember(pool)),
    }
}

/// The operation of an instruction of a method's code, whatever its operands name.
#[inline(never)]
fn resolved_apart(
    world: &World<'_>,
    method: &MethodRec,
    place: u16,
    insn: Insn,
) -> Result<Operation, RuleFault>
    requires { method.now.package < length world.now.infos }
    ensures { Resolves world.now method.now place insn result }
{
    let package = method.package;
    let pool = short_of(insn.x);
    let byte = byte_of(insn.x);
    match Row::of(insn.op) {
        Row::Plain(operation) => Ok(operation),
        Row::PushShort => Ok(Operation::Constant(Constant::Short(insn.x))),
        Row::PushInt => Ok(Operation::Constant(Constant::Int(insn.x))),
        Row::Load(sort) => Ok(Operation::Load(sort, byte)),
        Row::Store(sort) => Ok(Operation::Store(sort, byte)),
        Row::Increment(width) => Ok(Operation::Increment {
            width,
            register: byte,
            amount: insn.y,
        }),
        Row::CopyUnder => Ok(Operation::Move(Move::CopyUnder {
            copied: byte / 16,
            under: byte % 16,
        })),
        Row::Exchange => Ok(Operation::Move(Move::Exchange {
            top: byte / 16,
            under: byte % 16,
        })),
        Row::StaticRead(kind) => static_field(world, package, pool, kind).map(
            Operation::StaticRead,
        ),
        Row::StaticWrite(kind) => static_field(world, package, pool, kind).map(
            Operation::StaticWrite,
        ),
        Row::FieldRead(kind, holder) => instance_field(world, package, pool, kind).map(
            |field| Operation::FieldRead(field, holder),
        ),
        Row::FieldWrite(kind, holder) => instance_field(world, package, pool, kind).map(
            |field| Operation::FieldWrite(field, holder),
        ),
        Row::Call(by) => callee(world, package, insn, by).map(Operation::Call),
        Row::New => new_object(world, package, place, pool),
        Row::NewNumbers => Ok(Operation::NewArray(array_of(byte))),
        Row::NewReferences => array_type(world, package, pool).map(Operation::NewArray),
        Row::TypeTest(test) => tested_type(world, package, byte, short_of(insn.y)).map(
            |ty| Operation::TypeTest(test, ty),
        ),
        Row::Return(sort) => result_returned(world, sort, method.sig.result).map(Operation::Return),
    }
}

/// The operation of an instruction of a method's code. What names nothing of the world comes from the opcode and its
/// operands here, and all else out of line, so that what comes of it lies in memory alone.
#[inline(always)]
fn resolved(
    world: &World<'_>,
    method: &MethodRec,
    place: u16,
    insn: Insn,
) -> Result<Operation, RuleFault>
    requires { method.now.package < length world.now.infos }
    ensures { Resolves world.now method.now place insn result }
{
    match Row::of(insn.op) {
        Row::Plain(operation) => Ok(operation),
        Row::PushShort => Ok(Operation::Constant(Constant::Short(insn.x))),
        Row::PushInt => Ok(Operation::Constant(Constant::Int(insn.x))),
        Row::Load(sort) => Ok(Operation::Load(sort, byte_of(insn.x))),
        Row::Store(sort) => Ok(Operation::Store(sort, byte_of(insn.x))),
        Row::Increment(width) => Ok(Operation::Increment {
            width,
            register: byte_of(insn.x),
            amount: insn.y,
        }),
        _ => resolved_apart(world, method, place, insn),
    }
}

/// The operation of the instruction at a site, with all that its operands name, or the fault where they name
/// nothing that it takes: `BadMember` or `NotConcrete`, and `Mismatch` of a return that is not the signature's.
#[inline(always)]
pub fn resolve(world: &World<'_>, site: Site, insn: Insn) -> Result<Operation, RuleFault>
    requires { site.method < length world.now.methods }
    ensures resolves { ResolvesAt world.now site insn result }
    // What the operation speaks of is in the world.
    ensures sound { IsSomeAnd (slice_get world.now.methods site.method)
        (λ m. IfOk result (IsSound world.now m site.place)) }
{
    let _classes = world.classes();
    concrete_decides();
    resolved(world, world.method(site.method), site.place, insn)
}
