//! The frame of the entry.
ghost use Rattle.std.specs.Prelude.{◌≡◌, ◌+◌, ◌<◌, ◌≤◌, [], ◌∷◌, length, filter, None, IsTrue};
ghost use Rattle.jc_base.specs.Cell.{AreWhole};
ghost use Rattle.vm_store.specs.State.{IsRunning, top, with_top};
ghost use Rattle.vm_store.specs.Layout.{overwritten};
ghost use Rattle.vm_step.specs.Numbers.{number_cells};
ghost use Rattle.vm_step.specs.Arguments.{argument_of};
ghost use Rattle.vm_step.specs.Start.{argument_cells, cells_handed, arrays_made, first_misfit, fits, is_parameter};

use crate::refusal::is_parameter;
use jc_base::Ty;
use jc_ops::Width;
use vm_arithmetic::{high_word, low_word};
use vm_step::{Arg, Args};
use vm_store::{CellForm, Store};

/// Writes one cell into a register, and tells the next register.
#[tactic(auto, using(crate::proofs::WritesInOrder::cell_written))]
fn hand_cell<S: Store>(store: &mut S, x: u16, cell: S::Cell) -> u16
    requires well { S.well store.old }
    requires running { IsRunning (S.state store.old) }
    requires there { x + 1 ≤ length (top (S.state store.old)).registers }
    requires few { x < 255 }
    ensures next { result ≡ x + 1 }
    ensures state { S.state store.new
        ≡ with_top
        (S.state store.old)
        (record (top (S.state store.old)) { registers = overwritten (top (S.state store.old)).registers x (cell ∷ []) }) }
    ensures well { S.well store.new }
    ensures fixed { S.fixed store.new ≡ S.fixed store.old }
{
    store.set_register(x, cell);
    x + 1
}

/// Writes the two cells of an int into a register and the next, and tells the register after them.
#[tactic(auto, using(crate::proofs::WritesInOrder::two_written))]
fn hand_int<S: Store>(store: &mut S, x: u16, number: i32) -> u16
    requires well { S.well store.old }
    requires running { IsRunning (S.state store.old) }
    requires there { x + 2 ≤ length (top (S.state store.old)).registers }
    requires few { x + 2 ≤ 255 }
    ensures next { result ≡ x + 2 }
    ensures state { S.state store.new
        ≡ with_top
        (S.state store.old)
        (record (top (S.state store.old))
        { registers = overwritten (top (S.state store.old)).registers x (number_cells S.Cell.cells Width.Int number) }) }
    ensures well { S.well store.new }
    ensures fixed { S.fixed store.new ≡ S.fixed store.old }
{
    store.set_register(x, S::Cell::high(high_word(number)));
    store.set_register(x + 1, S::Cell::low(low_word(number)));
    x + 2
}

/// Writes the cells of an argument into registers from x on, and tells the register after them.
fn hand_argument<S: Store>(store: &mut S, x: u16, arg: Arg<'_>, ty: Ty, objects: u16) -> u16
    requires well { S.well store.old }
    requires running { IsRunning (S.state store.old) }
    requires fits { IsTrue (fits (argument_of arg) ty) }
    requires there { x + length (argument_cells S.Cell.cells objects (argument_of arg) ty)
        ≤ length (top (S.state store.old)).registers }
    requires few { x + length (argument_cells S.Cell.cells objects (argument_of arg) ty) ≤ 255 }
    requires handle { objects < 65535 }
    ensures next { result ≡ x + length (argument_cells S.Cell.cells objects (argument_of arg.entry) ty) }
    ensures state { S.state store.new
        ≡ with_top
        (S.state store.old)
        (record (top (S.state store.old)) {
          registers = overwritten
              (top (S.state store.old)).registers
              x
              (argument_cells S.Cell.cells objects (argument_of arg.entry) ty);
        }) }
    ensures well { S.well store.new }
    ensures fixed { S.fixed store.new ≡ S.fixed store.old }
{
    match arg {
        Arg::Number(number) => match ty {
            Ty::Short => hand_cell(store, x, S::Cell::short(number as i16)),
            _ => hand_int(store, x, number),
        },
        Arg::Null => hand_cell(store, x, S::Cell::reference(0)),
        Arg::Bytes(_) => hand_cell(store, x, S::Cell::reference(objects + 1)),
    }
}

/// Writes the cells of all arguments into the first registers of the frame on top.
pub fn hand_arguments<S: Store>(store: &mut S, types: &[Ty], args: &Args<'_>, objects: u16)
    requires well { S.well store.old }
    requires running { IsRunning (S.state store.old) }
    requires whole { AreWhole types.now }
    requires registers { length types.now ≤ length (top (S.state store.old)).registers }
    requires few { length types.now ≤ 255 }
    requires count { length args.now ≡ length (filter is_parameter types.now) }
    requires fit { first_misfit 0 args.now (filter is_parameter types.now) ≡ None }
    requires handles { objects + length args.now < 65535 }
    ensures state { S.state store.new
        ≡ with_top
        (S.state store.old)
        (record (top (S.state store.old)) {
          registers = overwritten
              (top (S.state store.old)).registers
              0
              (cells_handed S.Cell.cells objects args.now (filter is_parameter types.now));
        }) }
    ensures well { S.well store.new }
    ensures fixed { S.fixed store.new ≡ S.fixed store.old }
{
    let mut x = 0;
    let mut n = 0;
    let mut made = objects;
    'types: for ty in types {
        if !is_parameter(*ty) {
            continue;
        }
        let arg = args.at(n);
        x = hand_argument(store, x, arg, *ty, made);
        made += arrays_made(arg);
        n += 1;
    }
}

/// How many arrays are made for an argument.
fn arrays_made(arg: Arg<'_>) -> u16
    ensures { result ≡ arrays_made (argument_of arg.entry) }
{
    match arg {
        Arg::Bytes(_) => 1,
        _ => 0,
    }
}
