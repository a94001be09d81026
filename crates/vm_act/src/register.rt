ghost use Rattle.std.specs.Prelude.{◌≡◌, ◌+◌, ◌<◌, ◌≤◌, length, ◌++◌, take};
ghost use Rattle.vm_store.specs.State.{IsRunning, top, with_stack};
ghost use Rattle.vm_step.specs.Numbers.{number_width, int_in};
ghost use Rattle.vm_step.specs.Values.{with_load, with_store, with_increment, with_move, constant_cells, with_constant};
ghost use Rattle.vm_act.specs.Widths.{sort_width};
ghost use Rattle.vm_act.specs.Moves.{move_asks, move_adds, move_drops};

use crate::arithmetic::{push_int, push_short};
use jc_ops::{Constant, Move, Sort, Width};
use vm_arithmetic::{high_word, int_of_words, int_to_short, low_word, short_of_word};
use vm_store::{CellForm, CellKind, Store};

/// Pushes what a register holds, or it and the next.
pub fn load<S: Store>(store: &mut S, sort: Sort, register: u8)
    requires well { S.well store.old }
    requires running { IsRunning (S.state store.old) }
    requires registers { register + sort_width sort ≤ length (top (S.state store.old)).registers }
    requires room { length (top (S.state store.old)).stack + sort_width sort ≤ S.stack_room }
    ensures state { S.state store.new ≡ with_load S.Cell.cells sort register (S.state store.old) }
    ensures well { S.well store.new }
    ensures fixed { S.fixed store.new ≡ S.fixed store.old }
{
    let register = u16::from(register);
    match sort {
        Sort::Reference => {
            let cell = store.register(register).loaded(CellKind::Reference);
            store.push(cell);
        }
        Sort::Short => {
            let cell = store.register(register).loaded(CellKind::Short);
            store.push(cell);
        }
        Sort::Int => {
            let high = store.register(register).loaded(CellKind::High);
            let low = store.register(register + 1).loaded(CellKind::Low);
            store.push(high);
            store.push(low);
        }
    }
}

/// Pops a value into a register, or into it and the next.
pub fn store_top<S: Store>(store: &mut S, sort: Sort, register: u8)
    requires well { S.well store.old }
    requires running { IsRunning (S.state store.old) }
    requires registers { register + sort_width sort ≤ length (top (S.state store.old)).registers }
    requires cells { sort_width sort ≤ length (top (S.state store.old)).stack }
    ensures state { S.state store.new ≡ with_store S.Cell.cells sort register (S.state store.old) }
    ensures well { S.well store.new }
    ensures fixed { S.fixed store.new ≡ S.fixed store.old }
{
    let register = u16::from(register);
    match sort {
        Sort::Int => {
            let low = store.cell(0);
            let high = store.cell(1);
            store.discard(2);
            store.set_register(register, high);
            store.set_register(register + 1, low);
        }
        _ => {
            let cell = store.cell(0);
            store.discard(1);
            store.set_register(register, cell);
        }
    }
}

/// Adds to the number in a register, or in it and the next.
pub fn increment<S: Store>(store: &mut S, width: Width, register: u8, amount: i32)
    requires well { S.well store.old }
    requires running { IsRunning (S.state store.old) }
    requires registers { register + number_width width ≤ length (top (S.state store.old)).registers }
    ensures state { S.state store.new ≡ with_increment S.Cell.cells width register amount (S.state store.old) }
    ensures well { S.well store.new }
    ensures fixed { S.fixed store.new ≡ S.fixed store.old }
{
    let register = u16::from(register);
    match width {
        Width::Short => {
            let number = short_of_word(store.register(register).word());
            let number = number.wrapping_add(int_to_short(amount));
            store.set_register(register, S::Cell::short(number));
        }
        Width::Int => {
            let number = int_in(store, register).wrapping_add(amount);
            store.set_register(register, S::Cell::high(high_word(number)));
            store.set_register(register + 1, S::Cell::low(low_word(number)));
        }
    }
}

/// The int in a register and the next.
fn int_in<S: Store>(store: &S, register: u16) -> i32
    requires well { S.well store.now }
    requires running { IsRunning (S.state store.now) }
    requires there { register + 1 < length (top (S.state store.now)).registers }
    requires few { register < 256 }
    ensures { result ≡ int_in S.Cell.cells (top (S.state store.now)).registers register }
{
    int_of_words(
        store.register(register).word(),
        store.register(register + 1).word(),
    )
}

/// Moves cells on the operand stack.
#[tactic(auto, using(crate::proofs::Copies::copied_under))]
pub fn move_cells<S: Store>(store: &mut S, moved: Move)
    requires well { S.well store.old }
    requires running { IsRunning (S.state store.old) }
    requires cells { move_asks moved ≤ length (top (S.state store.old)).stack }
    requires room { length (top (S.state store.old)).stack + move_adds moved ≤ S.stack_room + move_drops moved }
    ensures state { S.state store.new ≡ with_move moved (S.state store.old) }
    ensures well { S.well store.new }
    ensures fixed { S.fixed store.new ≡ S.fixed store.old }
{
    match moved {
        Move::Pop => store.discard(1),
        Move::PopTwo => store.discard(2),
        Move::Duplicate => copy(store, 1),
        Move::DuplicateTwo => copy(store, 2),
        Move::CopyUnder { copied, under } => {
            copy(store, copied as usize);
            store.rotate(copied as usize + under as usize, copied as usize);
        }
        Move::Exchange { top, under } => {
            store.rotate(top as usize + under as usize, top as usize);
        }
    }
}

/// Pushes copies of the top cells, in their order.
fn copy<S: Store>(store: &mut S, count: usize)
    requires well { S.well store.old }
    requires running { IsRunning (S.state store.old) }
    requires cells { count ≤ length (top (S.state store.old)).stack }
    requires room { length (top (S.state store.old)).stack + count ≤ S.stack_room }
    ensures state { S.state store.new
        ≡ with_stack (S.state store.old) (take count (top (S.state store.old)).stack ++ (top (S.state store.old)).stack) }
    ensures well { S.well store.new }
    ensures fixed { S.fixed store.new ≡ S.fixed store.old }
{
    'copies: for _n in 0..count {
        // The next cell to be copied has come down by one.
        let cell = store.cell(count - 1);
        store.push(cell);
    }
}

/// Pushes a constant.
pub fn push_constant<S: Store>(store: &mut S, constant: Constant)
    requires well { S.well store.old }
    requires running { IsRunning (S.state store.old) }
    requires room { length (top (S.state store.old)).stack + length (constant_cells S.Cell.cells constant) ≤ S.stack_room }
    ensures state { S.state store.new ≡ with_constant S.Cell.cells constant (S.state store.old) }
    ensures well { S.well store.new }
    ensures fixed { S.fixed store.new ≡ S.fixed store.old }
{
    match constant {
        Constant::Nothing => {}
        Constant::Null => store.push(S::Cell::reference(0)),
        Constant::Short(number) => push_short(store, int_to_short(number)),
        Constant::Int(number) => push_int(store, number),
    }
}
