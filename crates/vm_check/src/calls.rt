ghost use Rattle.std.specs.Prelude.{◌≡◌, ◌+◌, ◌<◌, reverse, IfSome, Option, Some, All};
ghost use Rattle.std.specs.List.{list_all};
ghost use Rattle.jc_base.specs.Order.{IsKnown};
ghost use Rattle.jc_ops.specs.declared.operation.Operation.TheVariants as ops;
ghost use Rattle.jc_ops.specs.Sound.{IsKnownWant, receiver_count};
ghost use Rattle.jc_rules.specs.Demand.{satisfies};
ghost use Rattle.jc_rules.specs.Known.{IsKnownCallee};
ghost use Rattle.jc_rules.specs.Rule.{cells_wanted, call_demands, demands};
ghost use Rattle.vm_step.specs.Tests.{types_of, unmet};
ghost use Rattle.vm_check.specs.Shaped.{CanTest};

use crate::demands::cell_meets;
use jc_base::{Ty, World};
use jc_ops::{Callee, Want};
use vm_step::Fault;
use vm_store::Store;

/// The arguments of a call from the last one on, and the receiver under them.
pub fn call_fault<S: Store>(store: &S, world: &World<'_>, callee: Callee) -> Option<Fault>
    requires well { S.well store.now }
    requires tested { CanTest S.Cell.cells world.now (S.state store.now) }
    requires known { IsKnownCallee world.now callee }
    ensures { result ≡ unmet S.Cell.cells world.now (demands world.now (ops.Call callee)) (S.state store.now) }
{
    let args = world.method(callee.method).sig.args.as_slice();
    if store.depth() < args.len() + receiver_count(callee.receiver) {
        Some(Fault::StackFault)
    } else if cells_hold(store, world, args, callee.receiver) {
        None
    } else {
        Some(Fault::TypeFault)
    }
}

/// Whether the cells on top are as a call wants them.
fn cells_hold<S: Store>(store: &S, world: &World<'_>, args: &[Ty], receiver: Option<Want>) -> bool
    requires well { S.well store.now }
    requires tested { CanTest S.Cell.cells world.now (S.state store.now) }
    requires args { All (IsKnown world.now.classes) args.now }
    requires receiver { IfSome receiver (IsKnownWant world.now.classes) }
    ensures { result
        ≡ list_all
        (satisfies world.now.classes (types_of S.Cell.cells world.now (S.state store.now)))
        (call_demands args.now receiver) }
{
    if !arguments_hold(store, world, args) {
        return false;
    }
    match receiver {
        Some(want) => cell_meets(store, world, args.len(), want),
        None => true,
    }
}

/// The cells of a receiver.
fn receiver_count(receiver: Option<Want>) -> usize
    ensures { result ≡ receiver_count receiver }
{
    match receiver {
        Some(_) => 1,
        None => 0,
    }
}

/// Whether the cells on top have the types of arguments, the last one on top.
fn arguments_hold<S: Store>(store: &S, world: &World<'_>, args: &[Ty]) -> bool
    requires well { S.well store.now }
    requires tested { CanTest S.Cell.cells world.now (S.state store.now) }
    requires known { All (IsKnown world.now.classes) args.now }
    ensures { result
        ≡ list_all
        (satisfies world.now.classes (types_of S.Cell.cells world.now (S.state store.now)))
        (cells_wanted 0 (reverse args.now)) }
{
    'arguments: for n in 0..args.len() {
        if !cell_meets(store, world, n, Want::Value(args[args.len() - 1 - n])) {
            return false;
        }
    }
    true
}
