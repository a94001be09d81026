ghost use Rattle.std.specs.Prelude.{◌≡◌, ◌<◌, length, IfSome, Some};
ghost use Rattle.jc_base.specs.declared.record.Member.TheVariants.{Super, StaticCall};
ghost use Rattle.jc_base.specs.Linked.{lacks_code};
ghost use Rattle.jc_base.specs.World.{member_at};
ghost use Rattle.jc_ops.specs.Resolve.{virtual_callee, special_callee, static_callee, interface_callee, is_described, only, described};
ghost use Rattle.jc_ops.specs.Resolve.{callee, own_receiver};

use crate::fault::RuleFault;
use crate::named::{byte_of, member, short_of};
use crate::operation::{Callee, Choice, Want};
use crate::row::Invocation;
use jc_base::{Member, MethodRec, Ty, World};
use jc_decode::Insn;

/// The method of a dispatch list's entry. An array may be the receiver of a method of object.
fn virtual_callee(world: &World<'_>, package: u16, pool: u16) -> Result<Callee, RuleFault>
    requires { «package» < length world.now.infos }
    ensures { result ≡ virtual_callee world.now pool (member_at world.now «package» pool) }
{
    let Some(Member::Virtual { class, token }) = member(world, package, pool) else {
        return Err(RuleFault::BadMember(pool));
    };
    let Some(method) = world.classes().entry_at(class, token) else {
        return Err(RuleFault::BadMember(pool));
    };
    if class == world.role(0) && world.method(method).is_abstract {
        return Err(RuleFault::BadMember(pool));
    }
    Ok(Callee {
        method,
        receiver: Some(Want::Value(Ty::Class(class))),
        choice: Choice::Virtual { class, token },
    })
}

/// Whether a method has no code: an abstract one, or one of an interface.
fn lacks_code(world: &World<'_>, method: &MethodRec) -> bool
    requires { method.now.class < length world.now.classes.records }
    ensures { result ≡ lacks_code world.now.classes method.now }
{
    method.is_abstract || world.classes().is_interface(method.class)
}

/// What receives a method that is called without dispatch.
fn own_receiver(method: &MethodRec) -> Want
    ensures { result ≡ own_receiver method.now }
{
    if method.is_init {
        Want::Receiver(method.class)
    } else {
        Want::Value(Ty::Class(method.class))
    }
}

/// The method of a superclass, or a private method or a constructor.
fn special_callee(world: &World<'_>, package: u16, pool: u16) -> Result<Callee, RuleFault>
    requires { «package» < length world.now.infos }
    ensures { result ≡ special_callee world.now pool (member_at world.now «package» pool) }
{
    match member(world, package, pool) {
        Some(Member::Super { class, method }) if !lacks_code(world, world.method(method)) => {
            Ok(Callee {
                method,
                receiver: Some(Want::Value(Ty::Class(class))),
                choice: Choice::Special,
            })
        }
        Some(Member::StaticCall { method: number }) => {
            let method = world.method(number);
            if method.is_static || lacks_code(world, method) {
                return Err(RuleFault::BadMember(pool));
            }
            Ok(Callee {
                method: number,
                receiver: Some(own_receiver(method)),
                choice: Choice::Special,
            })
        }
        _ => Err(RuleFault::BadMember(pool)),
    }
}

fn static_callee(world: &World<'_>, package: u16, pool: u16) -> Result<Callee, RuleFault>
    requires { «package» < length world.now.infos }
    ensures { result ≡ static_callee world.now pool (member_at world.now «package» pool) }
{
    let Some(Member::StaticCall { method: number }) = member(world, package, pool) else {
        return Err(RuleFault::BadMember(pool));
    };
    let method = world.method(number);
    if !method.is_static || method.is_init || lacks_code(world, method) {
        return Err(RuleFault::BadMember(pool));
    }
    Ok(Callee {
        method: number,
        receiver: None,
        choice: Choice::Static,
    })
}

/// Whether the interface describes the method under the token.
fn is_described(method: &MethodRec, interface: u16, token: u8) -> bool
    ensures { result ≡ is_described interface token method.now }
{
    method.class == interface && method.token == token
}

/// The number of the method that the interface describes under the token, where there is one only.
fn only_described(world: &World<'_>, interface: u16, token: u8) -> Option<u16>
    requires { interface < length world.now.classes.records }
    ensures is { result ≡ only (described world.now.methods interface token) }
    ensures inside { IfSome result (λ n. n < length world.now.methods) }
{
    let bounds = world.method_bounds(interface);
    let mut found = None;
    'methods: for n in bounds.first..bounds.end {
        if is_described(world.method(n), interface, token) {
            match found {
                Some(_) => return None,
                None => found = Some(n),
            }
        }
    }
    found
}

/// The method that an interface describes; its argument words and the receiver are `words`.
fn interface_callee(
    world: &World<'_>,
    package: u16,
    pool: u16,
    words: u8,
    token: u8,
) -> Result<Callee, RuleFault>
    requires { «package» < length world.now.infos }
    ensures { result ≡ interface_callee world.now pool words token (member_at world.now «package» pool) }
{
    let Some(Member::ClassOf { class }) = member(world, package, pool) else {
        return Err(RuleFault::BadMember(pool));
    };
    if !world.classes().is_interface(class) {
        return Err(RuleFault::BadMember(pool));
    }
    let Some(method) = only_described(world, class, token) else {
        return Err(RuleFault::BadMember(pool));
    };
    if world.method(method).sig.args.len() + 1 != words as usize {
        return Err(RuleFault::BadMember(pool));
    }
    Ok(Callee {
        method,
        receiver: Some(Want::Value(Ty::Class(world.role(0)))),
        choice: Choice::Interface {
            class,
            token,
            words,
        },
    })
}

/// The method that is called.
pub(crate) fn callee(
    world: &World<'_>,
    package: u16,
    insn: Insn,
    by: Invocation,
) -> Result<Callee, RuleFault>
    requires { «package» < length world.now.infos }
    ensures { result ≡ callee world.now «package» insn by }
{
    match by {
        Invocation::Virtual => virtual_callee(world, package, short_of(insn.x)),
        Invocation::Special => special_callee(world, package, short_of(insn.x)),
        Invocation::Static => static_callee(world, package, short_of(insn.x)),
        Invocation::Interface => interface_callee(
            world,
            package,
            short_of(insn.y),
            byte_of(insn.x),
            byte_of(insn.z),
        ),
    }
}
