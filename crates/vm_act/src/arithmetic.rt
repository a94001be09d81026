ghost use Rattle.std.specs.Prelude.{◌≡◌, ◌+◌, ◌≤◌, length, IfSome, ◌<◌};
ghost use Rattle.vm_store.specs.State.{IsRunning, top};
ghost use Rattle.vm_step.specs.Act.{goes};
ghost use Rattle.vm_step.specs.Numbers.{number_width, number_cells, replaced, handle_at, short_at, int_on, pushed};
ghost use Rattle.vm_step.specs.Values.{arithmetic_act};
ghost use Rattle.vm_act.specs.Lead.{goes_unless};
ghost use Rattle.vm_act.specs.Widths.{computed_of, computed_to};
ghost use Rattle.jc_ops.specs.declared.operation.Width.TheVariants as widths;
ghost use Rattle.jc_ops.specs.declared.operation.Arithmetic.TheVariants as arithmetic;

use jc_ops::{Arithmetic, Operator, Width};
use vm_arithmetic::{
    compare_ints, high_word, int_of_words, int_to_byte, int_to_short, low_word, negate_int,
    negate_short, of_ints, of_shorts, short_of_word, short_to_byte,
};
use vm_step::Exception;
use vm_store::{CellForm, Store};

/// Puts a number in place of those that it is computed of, or tells what is thrown instead.
pub fn compute<S: Store>(store: &mut S, computed: Arithmetic) -> Option<Exception>
    requires well { S.well store.old }
    requires running { IsRunning (S.state store.old) }
    requires cells { computed_of computed ≤ length (top (S.state store.old)).stack }
    requires room { length (top (S.state store.old)).stack + computed_to computed ≤ S.stack_room + computed_of computed }
    ensures act { arithmetic_act S.Cell.cells computed (S.state store.old) ≡ goes_unless result (S.state store.new) }
    ensures stays { IfSome result (λ _. S.state store.new ≡ S.state store.old) }
    ensures well { S.well store.new }
    ensures fixed { S.fixed store.new ≡ S.fixed store.old }
{
    match computed {
        Arithmetic::Binary(operator, width) => combine(store, operator, width),
        Arithmetic::Negate(width) => {
            negate(store, width);
            None
        }
        Arithmetic::ShortToByte => {
            let number = short_to_byte(short_on(store, 0));
            replace_by_short(store, 1, number);
            None
        }
        Arithmetic::ShortToInt => {
            let number = i32::from(short_on(store, 0));
            replace_by_int(store, 1, number);
            None
        }
        Arithmetic::IntToByte => {
            let number = int_to_byte(int_on(store, 0));
            replace_by_short(store, 2, number);
            None
        }
        Arithmetic::IntToShort => {
            let number = int_to_short(int_on(store, 0));
            replace_by_short(store, 2, number);
            None
        }
        Arithmetic::CompareInts => {
            let number = compare_ints(int_on(store, 2), int_on(store, 0));
            replace_by_short(store, 4, number);
            None
        }
    }
}

/// The result for two numbers, of which the second is on top; an exception where the divisor is zero.
fn combine<S: Store>(store: &mut S, operator: Operator, width: Width) -> Option<Exception>
    requires well { S.well store.old }
    requires running { IsRunning (S.state store.old) }
    requires cells { number_width width + number_width width ≤ length (top (S.state store.old)).stack }
    requires room { length (top (S.state store.old)).stack ≤ S.stack_room + number_width width }
    ensures act { arithmetic_act S.Cell.cells (arithmetic.Binary operator width) (S.state store.old)
        ≡ goes_unless result (S.state store.new) }
    ensures stays { IfSome result (λ _. S.state store.new ≡ S.state store.old) }
    ensures well { S.well store.new }
    ensures fixed { S.fixed store.new ≡ S.fixed store.old }
{
    match width {
        Width::Short => match of_shorts(operator, short_on(store, 1), short_on(store, 0)) {
            Some(number) => {
                replace_by_short(store, 2, number);
                None
            }
            None => Some(Exception::Arithmetic),
        },
        Width::Int => match of_ints(operator, int_on(store, 2), int_on(store, 0)) {
            Some(number) => {
                replace_by_int(store, 4, number);
                None
            }
            None => Some(Exception::Arithmetic),
        },
    }
}

/// Puts the negative of a number in its place.
fn negate<S: Store>(store: &mut S, width: Width)
    requires well { S.well store.old }
    requires running { IsRunning (S.state store.old) }
    requires cells { number_width width ≤ length (top (S.state store.old)).stack }
    requires room { length (top (S.state store.old)).stack ≤ S.stack_room }
    ensures act { arithmetic_act S.Cell.cells (arithmetic.Negate width) (S.state store.old) ≡ goes (S.state store.new) }
    ensures well { S.well store.new }
    ensures fixed { S.fixed store.new ≡ S.fixed store.old }
{
    match width {
        Width::Short => {
            let number = negate_short(short_on(store, 0));
            replace_by_short(store, 1, number);
        }
        Width::Int => {
            let number = negate_int(int_on(store, 0));
            replace_by_int(store, 2, number);
        }
    }
}

/// Puts a short in place of so many cells.
fn replace_by_short<S: Store>(store: &mut S, taken: usize, number: i16)
    requires well { S.well store.old }
    requires running { IsRunning (S.state store.old) }
    requires cells { taken ≤ length (top (S.state store.old)).stack }
    requires room { length (top (S.state store.old)).stack + 1 ≤ S.stack_room + taken }
    ensures state { S.state store.new ≡ replaced (S.state store.old) taken (number_cells S.Cell.cells widths.Short number) }
    ensures well { S.well store.new }
    ensures fixed { S.fixed store.new ≡ S.fixed store.old }
{
    store.discard(taken);
    push_short(store, number);
}

/// Puts an int in place of so many cells.
fn replace_by_int<S: Store>(store: &mut S, taken: usize, number: i32)
    requires well { S.well store.old }
    requires running { IsRunning (S.state store.old) }
    requires cells { taken ≤ length (top (S.state store.old)).stack }
    requires room { length (top (S.state store.old)).stack + 2 ≤ S.stack_room + taken }
    ensures state { S.state store.new ≡ replaced (S.state store.old) taken (number_cells S.Cell.cells widths.Int number) }
    ensures well { S.well store.new }
    ensures fixed { S.fixed store.new ≡ S.fixed store.old }
{
    store.discard(taken);
    push_int(store, number);
}

/// The handle in a cell, by its number from the top; it is 0 for null.
pub fn handle_on<S: Store>(store: &S, n: usize) -> u16
    requires well { S.well store.now }
    requires running { IsRunning (S.state store.now) }
    requires there { n < length (top (S.state store.now)).stack }
    ensures { result ≡ handle_at S.Cell.cells (top (S.state store.now)).stack n }
{
    store.cell(n).word()
}

/// The short in a cell, by its number from the top.
pub fn short_on<S: Store>(store: &S, n: usize) -> i16
    requires well { S.well store.now }
    requires running { IsRunning (S.state store.now) }
    requires there { n < length (top (S.state store.now)).stack }
    ensures { result ≡ short_at S.Cell.cells (top (S.state store.now)).stack n }
{
    short_of_word(store.cell(n).word())
}

/// The int whose low half lies under so many cells.
pub fn int_on<S: Store>(store: &S, n: u8) -> i32
    requires well { S.well store.now }
    requires running { IsRunning (S.state store.now) }
    requires there { n + 1 < length (top (S.state store.now)).stack }
    ensures { result ≡ int_on S.Cell.cells (top (S.state store.now)).stack n }
{
    int_of_words(
        store.cell(n as usize + 1).word(),
        store.cell(n as usize).word(),
    )
}

/// Pushes a short.
pub fn push_short<S: Store>(store: &mut S, number: i16)
    requires well { S.well store.old }
    requires running { IsRunning (S.state store.old) }
    requires room { length (top (S.state store.old)).stack < S.stack_room }
    ensures state { S.state store.new ≡ pushed (S.state store.old) (number_cells S.Cell.cells widths.Short number) }
    ensures well { S.well store.new }
    ensures fixed { S.fixed store.new ≡ S.fixed store.old }
{
    store.push(S::Cell::short(number));
}

/// Pushes the two halves of an int, the high one first.
pub fn push_int<S: Store>(store: &mut S, number: i32)
    requires well { S.well store.old }
    requires running { IsRunning (S.state store.old) }
    requires room { length (top (S.state store.old)).stack + 1 < S.stack_room }
    ensures state { S.state store.new ≡ pushed (S.state store.old) (number_cells S.Cell.cells widths.Int number) }
    ensures well { S.well store.new }
    ensures fixed { S.fixed store.new ≡ S.fixed store.old }
{
    store.push(S::Cell::high(high_word(number)));
    store.push(S::Cell::low(low_word(number)));
}
