//! The demands of operations, tested on the frame on top.
ghost use Rattle.std.specs.Prelude.{◌≡◌, ◌+◌, ◌-◌, ◌<◌, ◌&&◌, ◌∷◌, [], nat_lt, slice_get, IfSome};
ghost use Rattle.std.specs.List.{list_all};
ghost use Rattle.jc_base.specs.Order.{IsKnown};
ghost use Rattle.jc_ops.specs.declared.operation.Want.TheVariants as wants;
ghost use Rattle.jc_rules.specs.Demand.{AreKnownDemands, IsKnownDemand, satisfies, met_at, is_low, is_high};
ghost use Rattle.jc_rules.specs.Footprint.{registers_asked, cells_asked};
ghost use Rattle.jc_ops.specs.Sound.{IsKnownWant};
ghost use Rattle.vm_step.specs.Tests.{types_of, unmet};
ghost use Rattle.vm_check.specs.Shaped.{CanTest};

use jc_base::{Ty, World};
use jc_ops::Want;
use jc_rules::{Demand, meets};
use vm_step::Fault;
use vm_store::{Store, register_count};

/// A register out of range, then too few cells, then a cell that is not as wanted or a cut through an int.
#[inline(always)]
pub fn unmet<S: Store>(store: &S, world: &World<'_>, demands: &[Demand]) -> Option<Fault>
    requires well { S.well store.now }
    requires tested { CanTest S.Cell.cells world.now (S.state store.now) }
    requires demands { AreKnownDemands world.now.classes demands.now }
    ensures { result ≡ unmet S.Cell.cells world.now demands.now (S.state store.now) }
{
    if ask_more_registers(demands, register_count(world, store.method())) {
        Some(Fault::LocalFault)
    } else if ask_more_cells(demands, store.depth()) {
        Some(Fault::StackFault)
    } else if all_hold(store, world, demands) {
        None
    } else {
        Some(Fault::TypeFault)
    }
}

/// Whether demands ask for more registers than there are.
#[inline(always)]
fn ask_more_registers(demands: &[Demand], count: usize) -> bool
    ensures { result ≡ nat_lt count (registers_asked demands.now) }
{
    'demands: for demand in demands {
        if count < registers_of(*demand) {
            return true;
        }
    }
    false
}

/// The register that a demand names, counted from 1.
#[inline(always)]
fn registers_of(demand: Demand) -> usize
    ensures { result ≡ registers_asked (demand ∷ []) }
{
    match demand {
        Demand::Registers(x, n) => x as usize + n as usize,
        Demand::Held(x, _) => x as usize + 1,
        _ => 0,
    }
}

/// Whether demands ask for more cells than there are.
#[inline(always)]
fn ask_more_cells(demands: &[Demand], count: usize) -> bool
    ensures { result ≡ nat_lt count (cells_asked demands.now) }
{
    'demands: for demand in demands {
        if count < cells_of(*demand) {
            return true;
        }
    }
    false
}

/// The cell that a demand names, counted from 1 at the top.
#[inline(always)]
fn cells_of(demand: Demand) -> usize
    ensures { result ≡ cells_asked (demand ∷ []) }
{
    match demand {
        Demand::Depth(n) => n as usize,
        Demand::Cell(n, _) => n as usize + 1,
        _ => 0,
    }
}

#[inline(always)]
fn all_hold<S: Store>(store: &S, world: &World<'_>, demands: &[Demand]) -> bool
    requires well { S.well store.now }
    requires tested { CanTest S.Cell.cells world.now (S.state store.now) }
    requires demands { AreKnownDemands world.now.classes demands.now }
    ensures { result ≡ list_all (satisfies world.now.classes (types_of S.Cell.cells world.now (S.state store.now))) demands.now }
{
    'demands: for demand in demands {
        if !satisfies(store, world, *demand) {
            return false;
        }
    }
    true
}

/// Whether one demand holds.
#[inline(always)]
fn satisfies<S: Store>(store: &S, world: &World<'_>, demand: Demand) -> bool
    requires well { S.well store.now }
    requires tested { CanTest S.Cell.cells world.now (S.state store.now) }
    requires demand { IsKnownDemand world.now.classes demand }
    ensures { result ≡ satisfies world.now.classes (types_of S.Cell.cells world.now (S.state store.now)) demand }
{
    match demand {
        Demand::Registers(x, n) => {
            x as usize + n as usize <= register_count(world, store.method())
        }
        Demand::Depth(n) => n as usize <= store.depth(),
        Demand::Cell(n, want) => cell_meets(store, world, n as usize, want),
        Demand::Cut(n) => {
            let above = type_on(store, world, n.saturating_sub(1) as usize);
            let below = type_on(store, world, n as usize);
            !(is_low(above) && is_high(below))
        }
        Demand::Held(x, ty) => register_has(store, world, x, ty),
    }
}

/// Whether a cell, by its number from the top, is there and as wanted.
#[inline(always)]
pub fn cell_meets<S: Store>(store: &S, world: &World<'_>, n: usize, want: Want) -> bool
    requires well { S.well store.now }
    requires tested { CanTest S.Cell.cells world.now (S.state store.now) }
    requires want { IsKnownWant world.now.classes want }
    ensures { result
        ≡ met_at
        world.now.classes
        want
        (slice_get (types_of S.Cell.cells world.now (S.state store.now)).stack n) }
{
    match type_on(store, world, n) {
        Some(found) => meets(world.classes(), want, found),
        None => false,
    }
}

/// Whether the value of a register has a type.
#[inline(always)]
fn register_has<S: Store>(store: &S, world: &World<'_>, x: u8, ty: Ty) -> bool
    requires well { S.well store.now }
    requires tested { CanTest S.Cell.cells world.now (S.state store.now) }
    requires known { IsKnown world.now.classes ty }
    ensures { result
        ≡ met_at
        world.now.classes
        (wants.Value ty)
        (slice_get (types_of S.Cell.cells world.now (S.state store.now)).regs x) }
{
    if register_count(world, store.method()) <= x as usize {
        return false;
    }
    let found = store.type_of(world.classes(), store.register(u16::from(x)));
    meets(world.classes(), Want::Value(ty), found)
}

fn is_low(found: Option<Ty>) -> bool
    ensures { result ≡ is_low found }
{
    matches!(found, Some(Ty::IntLow))
}

fn is_high(found: Option<Ty>) -> bool
    ensures { result ≡ is_high found }
{
    matches!(found, Some(Ty::IntHigh))
}

/// The least type of a cell, by its number from the top, where it is there.
#[inline(always)]
fn type_on<S: Store>(store: &S, world: &World<'_>, n: usize) -> Option<Ty>
    requires well { S.well store.now }
    requires tested { CanTest S.Cell.cells world.now (S.state store.now) }
    ensures value { result ≡ slice_get (types_of S.Cell.cells world.now (S.state store.now)).stack n }
    ensures known { IfSome result (IsKnown world.now.classes) }
{
    if n < store.depth() {
        Some(store.type_of(world.classes(), store.cell(n)))
    } else {
        None
    }
}
