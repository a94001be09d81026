ghost use Rattle.std.specs.Prelude.{◌≡◌};
ghost use Rattle.jc_base.specs.Class.{IsClass, object};
ghost use Rattle.jc_base.specs.Order.{IsKnown};
ghost use Rattle.jc_ops.specs.declared.operation.Width.TheVariants as widths;
ghost use Rattle.jc_ops.specs.declared.operation.Holder.TheVariants as holders;
ghost use Rattle.jc_ops.specs.Sound.{IsKnownWant, IsMove};
ghost use Rattle.jc_rules.specs.Known.{IsKnownOperation};
ghost use Rattle.jc_rules.specs.Rule.{a_reference, number, two_numbers, demands, load_demands, store_demands, increment_demands, move_demands, arithmetic_demands, array_wanted, array_read_demands, array_write_demands, branch_demands, field_read_demands, field_write_demands, value_wanted};
ghost use Rattle.vm_step.specs.Tests.{fault_before, unmet};
ghost use Rattle.vm_check.specs.Shaped.{CanTest};

use crate::calls::call_fault;
use crate::demands::unmet;
use jc_base::{Kind, Ty, World};
use jc_ops::{Arithmetic, Branch, Holder, Move, Operation, Sort, Want, Width};
use jc_rules::Demand;
use vm_step::Fault;
use vm_store::{CellForm, Store, register_count};

const SHORT: Want = Want::Value(Ty::Short);

const INT_LOW: Want = Want::Value(Ty::IntLow);

const INT_HIGH: Want = Want::Value(Ty::IntHigh);

/// What is wrong with the frame on top for an operation, on a machine that tests what it does.
pub fn fault_before<S: Store>(store: &S, world: &World<'_>, operation: Operation) -> Option<Fault>
    requires well { S.well store.now }
    requires tested { CanTest S.Cell.cells world.now (S.state store.now) }
    requires known { IsKnownOperation world.now operation }
    ensures { result ≡ fault_before S.Cell.cells world.now operation (S.state store.now) }
{
    if S::Cell::checks() {
        unmet_by(store, world, operation)
    } else {
        None
    }
}

/// The first of what is wrong: the registers, the depth of the stack, then the cells.
fn unmet_by<S: Store>(store: &S, world: &World<'_>, operation: Operation) -> Option<Fault>
    requires well { S.well store.now }
    requires tested { CanTest S.Cell.cells world.now (S.state store.now) }
    requires known { IsKnownOperation world.now operation }
    ensures { result ≡ unmet S.Cell.cells world.now (demands world.now operation) (S.state store.now) }
{
    match operation {
        Operation::Constant(_) | Operation::StaticRead(_) | Operation::New { .. } => None,
        Operation::Load(sort, register) => load_fault(store, world, sort, register),
        Operation::Store(sort, register) => store_fault(store, world, sort, register),
        Operation::Increment {
            width,
            register,
            ..
        } => increment_fault(store, world, width, register),
        Operation::Move(moved) => move_fault(store, world, moved),
        Operation::Arithmetic(computed) => arithmetic_fault(store, world, computed),
        Operation::ArrayRead(kind) => array_read_fault(store, world, kind),
        Operation::ArrayWrite(kind) => array_write_fault(store, world, kind),
        Operation::ArrayLength => unmet(store, world, &[Demand::Cell(0, Want::AnyArray)]),
        Operation::Branch(branch) => branch_fault(store, world, branch),
        Operation::Switch(width) => number_fault(store, world, width),
        Operation::StaticWrite(field) => value_fault(store, world, field.ty),
        Operation::FieldRead(field, holder) => field_read_fault(store, world, holder, field.class),
        Operation::FieldWrite(field, Holder::Stack) => {
            object_write_fault(store, world, field.class, field.ty)
        }
        Operation::FieldWrite(field, Holder::This) => {
            this_write_fault(store, world, field.class, field.ty)
        }
        Operation::Call(callee) => call_fault(store, world, callee),
        Operation::NewArray(_) => unmet(store, world, &[Demand::Cell(0, SHORT)]),
        Operation::Throw => {
            let thrown = Want::Value(Ty::Class(world.role(1)));
            unmet(store, world, &[Demand::Cell(0, thrown)])
        }
        Operation::TypeTest(..) => unmet(store, world, &[Demand::Cell(0, reference(world))]),
        Operation::Return(Some(ty)) => value_fault(store, world, ty),
        Operation::Return(None) => None,
    }
}

/// A reference to an object or an array.
fn reference(world: &World<'_>) -> Want
    ensures is { result ≡ a_reference world.now.classes }
    ensures known { IsKnownWant world.now.classes result }
{
    let _classes = world.classes();
    Want::Value(Ty::Class(world.role(0)))
}

/// A register, or two, that hold what is loaded.
fn load_fault<S: Store>(store: &S, world: &World<'_>, sort: Sort, register: u8) -> Option<Fault>
    requires well { S.well store.now }
    requires tested { CanTest S.Cell.cells world.now (S.state store.now) }
    ensures { result ≡ unmet S.Cell.cells world.now (load_demands world.now.classes sort register) (S.state store.now) }
{
    match sort {
        Sort::Reference => {
            let held = Demand::Held(register, Ty::Class(world.role(0)));
            unmet(store, world, &[Demand::Registers(register, 1), held])
        }
        Sort::Short => increment_fault(store, world, Width::Short, register),
        Sort::Int => increment_fault(store, world, Width::Int, register),
    }
}

/// A register, or two, and a value on top.
fn store_fault<S: Store>(store: &S, world: &World<'_>, sort: Sort, register: u8) -> Option<Fault>
    requires well { S.well store.now }
    requires tested { CanTest S.Cell.cells world.now (S.state store.now) }
    ensures { result ≡ unmet S.Cell.cells world.now (store_demands sort register) (S.state store.now) }
{
    match sort {
        Sort::Reference => unmet(
            store,
            world,
            &[
                Demand::Registers(register, 1),
                Demand::Cell(0, Want::Storable),
            ],
        ),
        Sort::Short => unmet(
            store,
            world,
            &[Demand::Registers(register, 1), Demand::Cell(0, SHORT)],
        ),
        Sort::Int => unmet(
            store,
            world,
            &[
                Demand::Registers(register, 2),
                Demand::Cell(0, INT_LOW),
                Demand::Cell(1, INT_HIGH),
            ],
        ),
    }
}

/// A register, or two, that hold a number.
fn increment_fault<S: Store>(
    store: &S,
    world: &World<'_>,
    width: Width,
    register: u8,
) -> Option<Fault>
    requires well { S.well store.now }
    requires tested { CanTest S.Cell.cells world.now (S.state store.now) }
    ensures { result ≡ unmet S.Cell.cells world.now (increment_demands width register) (S.state store.now) }
{
    match width {
        Width::Short => unmet(
            store,
            world,
            &[
                Demand::Registers(register, 1),
                Demand::Held(register, Ty::Short),
            ],
        ),
        Width::Int => int_in_fault(store, world, register),
    }
}

/// Two registers that hold an int. No method has a register 256.
fn int_in_fault<S: Store>(store: &S, world: &World<'_>, register: u8) -> Option<Fault>
    requires well { S.well store.now }
    requires tested { CanTest S.Cell.cells world.now (S.state store.now) }
    ensures { result ≡ unmet S.Cell.cells world.now (increment_demands widths.Int register) (S.state store.now) }
{
    // A method has 255 registers at most, and so the last number has no next one.
    let _count = register_count(world, store.method());
    if register == 255 {
        return Some(Fault::LocalFault);
    }
    unmet(
        store,
        world,
        &[
            Demand::Registers(register, 2),
            Demand::Held(register, Ty::IntHigh),
            Demand::Held(register + 1, Ty::IntLow),
        ],
    )
}

/// Cells that are cut through no int.
fn move_fault<S: Store>(store: &S, world: &World<'_>, moved: Move) -> Option<Fault>
    requires well { S.well store.now }
    requires tested { CanTest S.Cell.cells world.now (S.state store.now) }
    requires known { IsMove moved }
    ensures { result ≡ unmet S.Cell.cells world.now (move_demands moved) (S.state store.now) }
{
    match moved {
        Move::Pop | Move::Duplicate => unmet(store, world, &[Demand::Cell(0, Want::Whole)]),
        Move::PopTwo | Move::DuplicateTwo => {
            unmet(store, world, &[Demand::Depth(2), Demand::Cut(2)])
        }
        Move::CopyUnder { copied, under } => unmet(
            store,
            world,
            &[
                Demand::Depth(copied),
                Demand::Cut(copied),
                Demand::Depth(under),
                Demand::Cut(under),
            ],
        ),
        Move::Exchange { top, under } => unmet(
            store,
            world,
            &[
                Demand::Depth(top),
                Demand::Cut(top),
                Demand::Depth(top + under),
                Demand::Cut(top + under),
            ],
        ),
    }
}

/// The numbers that are computed with.
fn arithmetic_fault<S: Store>(store: &S, world: &World<'_>, computed: Arithmetic) -> Option<Fault>
    requires well { S.well store.now }
    requires tested { CanTest S.Cell.cells world.now (S.state store.now) }
    ensures { result ≡ unmet S.Cell.cells world.now (arithmetic_demands computed) (S.state store.now) }
{
    match computed {
        Arithmetic::Binary(_, width) => two_numbers_fault(store, world, width),
        Arithmetic::Negate(width) => number_fault(store, world, width),
        Arithmetic::ShortToByte | Arithmetic::ShortToInt => {
            number_fault(store, world, Width::Short)
        }
        Arithmetic::IntToByte | Arithmetic::IntToShort => number_fault(store, world, Width::Int),
        Arithmetic::CompareInts => two_numbers_fault(store, world, Width::Int),
    }
}

/// A number on top.
fn number_fault<S: Store>(store: &S, world: &World<'_>, width: Width) -> Option<Fault>
    requires well { S.well store.now }
    requires tested { CanTest S.Cell.cells world.now (S.state store.now) }
    ensures { result ≡ unmet S.Cell.cells world.now (number width 0) (S.state store.now) }
{
    match width {
        Width::Short => unmet(store, world, &[Demand::Cell(0, SHORT)]),
        Width::Int => unmet(
            store,
            world,
            &[Demand::Cell(0, INT_LOW), Demand::Cell(1, INT_HIGH)],
        ),
    }
}

/// A number on top and one under it.
fn two_numbers_fault<S: Store>(store: &S, world: &World<'_>, width: Width) -> Option<Fault>
    requires well { S.well store.now }
    requires tested { CanTest S.Cell.cells world.now (S.state store.now) }
    ensures { result ≡ unmet S.Cell.cells world.now (two_numbers width) (S.state store.now) }
{
    match width {
        Width::Short => unmet(
            store,
            world,
            &[Demand::Cell(0, SHORT), Demand::Cell(1, SHORT)],
        ),
        Width::Int => unmet(
            store,
            world,
            &[
                Demand::Cell(0, INT_LOW),
                Demand::Cell(1, INT_HIGH),
                Demand::Cell(2, INT_LOW),
                Demand::Cell(3, INT_HIGH),
            ],
        ),
    }
}

/// The array of the elements of a kind.
fn array_wanted(world: &World<'_>, kind: Kind) -> Want
    ensures is { result ≡ array_wanted world.now.classes kind }
    ensures known { IsKnownWant world.now.classes result }
{
    let _classes = world.classes();
    match kind {
        Kind::Ref => Want::Value(Ty::ArrRef(world.role(0))),
        Kind::Byte => Want::ByteArray,
        Kind::Short => Want::Value(Ty::ArrShort),
        Kind::Int => Want::Value(Ty::ArrInt),
    }
}

/// An index, and an array under it.
fn array_read_fault<S: Store>(store: &S, world: &World<'_>, kind: Kind) -> Option<Fault>
    requires well { S.well store.now }
    requires tested { CanTest S.Cell.cells world.now (S.state store.now) }
    ensures { result ≡ unmet S.Cell.cells world.now (array_read_demands world.now.classes kind) (S.state store.now) }
{
    let array = array_wanted(world, kind);
    unmet(
        store,
        world,
        &[Demand::Cell(0, SHORT), Demand::Cell(1, array)],
    )
}

/// A value, an index under it, and an array under that.
fn array_write_fault<S: Store>(store: &S, world: &World<'_>, kind: Kind) -> Option<Fault>
    requires well { S.well store.now }
    requires tested { CanTest S.Cell.cells world.now (S.state store.now) }
    ensures { result ≡ unmet S.Cell.cells world.now (array_write_demands world.now.classes kind) (S.state store.now) }
{
    let array = array_wanted(world, kind);
    match kind {
        Kind::Ref => unmet(
            store,
            world,
            &[
                Demand::Cell(0, reference(world)),
                Demand::Cell(1, SHORT),
                Demand::Cell(2, array),
            ],
        ),
        Kind::Byte | Kind::Short => unmet(
            store,
            world,
            &[
                Demand::Cell(0, SHORT),
                Demand::Cell(1, SHORT),
                Demand::Cell(2, array),
            ],
        ),
        Kind::Int => unmet(
            store,
            world,
            &[
                Demand::Cell(0, INT_LOW),
                Demand::Cell(1, INT_HIGH),
                Demand::Cell(2, SHORT),
                Demand::Cell(3, array),
            ],
        ),
    }
}

/// What a branch compares.
fn branch_fault<S: Store>(store: &S, world: &World<'_>, branch: Branch) -> Option<Fault>
    requires well { S.well store.now }
    requires tested { CanTest S.Cell.cells world.now (S.state store.now) }
    ensures { result ≡ unmet S.Cell.cells world.now (branch_demands world.now.classes branch) (S.state store.now) }
{
    let reference = reference(world);
    match branch {
        Branch::Always => None,
        Branch::Zero(_) => number_fault(store, world, Width::Short),
        Branch::Null(_) => unmet(store, world, &[Demand::Cell(0, reference)]),
        Branch::References(_) => unmet(
            store,
            world,
            &[Demand::Cell(0, reference), Demand::Cell(1, reference)],
        ),
        Branch::Shorts(_) => two_numbers_fault(store, world, Width::Short),
    }
}

/// A value of a declared type on top.
fn value_fault<S: Store>(store: &S, world: &World<'_>, ty: Ty) -> Option<Fault>
    requires well { S.well store.now }
    requires tested { CanTest S.Cell.cells world.now (S.state store.now) }
    requires known { IsKnown world.now.classes ty }
    ensures { result ≡ unmet S.Cell.cells world.now (value_wanted ty) (S.state store.now) }
{
    match ty {
        Ty::IntHigh => number_fault(store, world, Width::Int),
        _ => unmet(store, world, &[Demand::Cell(0, Want::Value(ty))]),
    }
}

/// An object of a class.
fn field_read_fault<S: Store>(
    store: &S,
    world: &World<'_>,
    holder: Holder,
    class: u16,
) -> Option<Fault>
    requires well { S.well store.now }
    requires tested { CanTest S.Cell.cells world.now (S.state store.now) }
    requires class { IsClass world.now.classes class }
    ensures { result ≡ unmet S.Cell.cells world.now (field_read_demands holder class) (S.state store.now) }
{
    let object = Ty::Class(class);
    match holder {
        Holder::Stack => unmet(store, world, &[Demand::Cell(0, Want::Value(object))]),
        Holder::This => unmet(
            store,
            world,
            &[Demand::Registers(0, 1), Demand::Held(0, object)],
        ),
    }
}

/// A value on top, and an object under it.
fn object_write_fault<S: Store>(store: &S, world: &World<'_>, class: u16, ty: Ty) -> Option<Fault>
    requires well { S.well store.now }
    requires tested { CanTest S.Cell.cells world.now (S.state store.now) }
    requires class { IsClass world.now.classes class }
    requires ty { IsKnown world.now.classes ty }
    ensures { result ≡ unmet S.Cell.cells world.now (field_write_demands holders.Stack class ty) (S.state store.now) }
{
    let object = Want::Value(Ty::Class(class));
    match ty {
        Ty::IntHigh => unmet(
            store,
            world,
            &[
                Demand::Cell(0, INT_LOW),
                Demand::Cell(1, INT_HIGH),
                Demand::Cell(2, object),
            ],
        ),
        _ => unmet(
            store,
            world,
            &[Demand::Cell(0, Want::Value(ty)), Demand::Cell(1, object)],
        ),
    }
}

/// A value on top, and an object in register 0.
fn this_write_fault<S: Store>(store: &S, world: &World<'_>, class: u16, ty: Ty) -> Option<Fault>
    requires well { S.well store.now }
    requires tested { CanTest S.Cell.cells world.now (S.state store.now) }
    requires class { IsClass world.now.classes class }
    requires ty { IsKnown world.now.classes ty }
    ensures { result ≡ unmet S.Cell.cells world.now (field_write_demands holders.This class ty) (S.state store.now) }
{
    let object = Demand::Held(0, Ty::Class(class));
    match ty {
        Ty::IntHigh => unmet(
            store,
            world,
            &[
                Demand::Registers(0, 1),
                Demand::Cell(0, INT_LOW),
                Demand::Cell(1, INT_HIGH),
                object,
            ],
        ),
        _ => unmet(
            store,
            world,
            &[
                Demand::Registers(0, 1),
                Demand::Cell(0, Want::Value(ty)),
                object,
            ],
        ),
    }
}
