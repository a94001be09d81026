//! Returns (JCVM 2.2, section 3.5).
ghost use Rattle.std.specs.Prelude.{◌≡◌, ◌+◌, ◌<◌, ◌≤◌, [], ◌∷◌, length};
ghost use Rattle.vm_store.specs.State.{IsRunning, nth, top, without_top};
ghost use Rattle.vm_step.specs.Methods.{code_at, max_stack_of, instruction_at};
ghost use Rattle.vm_step.specs.Settled.{given_to, return_place};
ghost use Rattle.vm_run.specs.Known.{KnowsAt, CanResume};
ghost use Rattle.vm_run.specs.Turn.{with_ending};

use crate::known::{Known, fetch};
use crate::outcome::{finish, go_to};
use jc_base::World;
use vm_step::{Ending, Plain, Value};
use vm_store::Store;

/// The place after the call at which the frame on top stands.
fn place_after<S: Store>(store: &S, world: &World<'_>, known: Known<'_>) -> u32
    requires well { S.well store.now }
    requires running { IsRunning (S.state store.now) }
    requires method { (top (S.state store.now)).method < length world.now.methods }
    requires call { KnowsAt world.now known (top (S.state store.now)).method (top (S.state store.now)).place }
    ensures value { result
        ≡ return_place (instruction_at (code_at world.now (top (S.state store.now)).method) (top (S.state store.now)).place) }
    ensures short { result ≤ 32767 }
    ensures most { max_stack_of world.now (top (S.state store.now)).method ≤ 255 }
{
    let _most = world.method(store.method()).max_stack;
    match fetch(world, known, store.method(), store.place()) {
        Some(call) => u32::from(call.place) + call.insn.len,
        None => 0,
    }
}

/// The method on top ends without a value.
pub fn give_nothing<S: Store>(store: &mut S, world: &World<'_>, known: Known<'_>) -> Option<Ending>
    requires well { S.well store.old }
    requires running { IsRunning (S.state store.old) }
    requires caller { IsRunning (without_top (S.state store.old))
        → CanResume S.stack_room world.now known 0 (without_top (S.state store.old)) }
    ensures outcome { with_ending result (S.state store.new)
        ≡ given_to S.Cell.cells world.now Value.Void [] (without_top (S.state store.old)) }
    ensures well { S.well store.new }
    ensures fixed { S.fixed store.new ≡ S.fixed store.old }
{
    store.leave();
    if store.frame_count() == 0 {
        return finish(store, Ending::Plain(Plain::Returned(Value::Void)));
    }
    let next = place_after(store, world, known);
    go_to(store, world, next)
}

/// The method on top ends with a value of one cell, which lies on top of its operand stack.
pub fn give_cell<S: Store>(
    store: &mut S,
    world: &World<'_>,
    known: Known<'_>,
    value: Value,
) -> Option<Ending>
    requires well { S.well store.old }
    requires running { IsRunning (S.state store.old) }
    requires cells { 1 ≤ length (top (S.state store.old)).stack }
    requires caller { IsRunning (without_top (S.state store.old))
        → CanResume S.stack_room world.now known 1 (without_top (S.state store.old)) }
    ensures outcome { with_ending result (S.state store.new)
        ≡ given_to
        S.Cell.cells
        world.now
        value
        (nth S.Cell.cells (top (S.state store.old)).stack 0 ∷ [])
        (without_top (S.state store.old)) }
    ensures well { S.well store.new }
    ensures fixed { S.fixed store.new ≡ S.fixed store.old }
{
    let cell = store.cell(0);
    store.leave();
    if store.frame_count() == 0 {
        return finish(store, Ending::Plain(Plain::Returned(value)));
    }
    let next = place_after(store, world, known);
    store.push(cell);
    go_to(store, world, next)
}

/// The method on top ends with an int, whose low half lies on top of its operand stack.
pub fn give_int<S: Store>(
    store: &mut S,
    world: &World<'_>,
    known: Known<'_>,
    value: Value,
) -> Option<Ending>
    requires well { S.well store.old }
    requires running { IsRunning (S.state store.old) }
    requires cells { 2 ≤ length (top (S.state store.old)).stack }
    requires caller { IsRunning (without_top (S.state store.old))
        → CanResume S.stack_room world.now known 2 (without_top (S.state store.old)) }
    ensures outcome { with_ending result (S.state store.new)
        ≡ given_to
        S.Cell.cells
        world.now
        value
        (nth S.Cell.cells (top (S.state store.old)).stack 1 ∷ nth S.Cell.cells (top (S.state store.old)).stack 0 ∷ [])
        (without_top (S.state store.old)) }
    ensures well { S.well store.new }
    ensures fixed { S.fixed store.new ≡ S.fixed store.old }
{
    let low = store.cell(0);
    let high = store.cell(1);
    store.leave();
    if store.frame_count() == 0 {
        return finish(store, Ending::Plain(Plain::Returned(value)));
    }
    let next = place_after(store, world, known);
    store.push(high);
    store.push(low);
    go_to(store, world, next)
}
