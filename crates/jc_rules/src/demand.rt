ghost use Rattle.std.specs.Prelude.{◌≤◌, length, ◌≡◌, ◌↔◌, ◌<◌, reverse, IsTrue, slice_get, MatchOption, MatchResult, IfSome, IsSomeAnd};
ghost use Rattle.jc_base.specs.Class.{IsClass, object};
ghost use Rattle.jc_base.specs.Order.{IsKnown};
ghost use Rattle.jc_base.specs.declared.ty.Ty.TheVariants.{IntLow, IntHigh};
ghost use Rattle.jc_ops.specs.declared.operation.Want.TheVariants.{Value};
ghost use Rattle.jc_ops.specs.Sound.{IsKnownWant};
ghost use Rattle.jc_rules.specs.Demand.{SatisfiesAll, AreKnownDemands, AreKnown, frame, Meets, Satisfies, IsFirstUnmet, refusal};
ghost use Rattle.jc_rules.specs.Demand.{demand_fault, IsKnownDemand, IsArrayOrNull, IsHalf, IsFreshOf, Splits, refused_at};
ghost use Rattle.jc_rules.specs.Demand.{is_array_or_null, is_half, is_fresh_of, meets};

use jc_base::{Classes, Ty, World, below, same_type};
use jc_ops::{RuleFault, Want};

/// The types of a method's registers and of its operand stack before the instruction at a place.
#[derive(Clone, Copy)]
pub struct HeldFrame<'a> {
    pub(crate) regs: &'a [Ty],
    /// With its top last.
    pub(crate) stack: &'a [Ty],
    ghost few: { length stack.now ≤ 255 },
}

/// One thing that an instruction asks before it changes anything. Cells are counted from the top of
/// the stack, from 0.
#[derive(Clone, Copy)]
pub enum Demand {
    /// The method has so many registers from this one on.
    Registers(u8, u8),
    /// The stack has so many cells.
    Depth(u8),
    /// The stack has the cell, and it is as wanted.
    Cell(u8, Want),
    /// No int lies across the cut below this many cells.
    Cut(u8),
    /// The register holds a value of this type.
    Held(u8, Ty),
}

/// The registers and the stack that an instruction finds, in a world.
#[derive(Clone, Copy)]
pub struct Before<'a> {
    pub world: &'a World<'a>,
    pub regs: &'a [Ty],
    pub stack: &'a [Ty],
}

impl Before<'_> {
    /// Checks the demands in order; the fault is that of the first that is not met.
    #[inline(always)]
    pub fn check(&self, demands: &[Demand]) -> Result<(), RuleFault>
        requires frame { AreKnown self.now.world.now.classes (frame self.now) }
        requires demands { AreKnownDemands self.now.world.now.classes demands.now }
        ensures { MatchResult result
            (λ _. SatisfiesAll self.now.world.now.classes (frame self.now) demands.now)
            (IsFirstUnmet self.now.world.now.classes (frame self.now) demands.now) }
    {
        'demands: for demand in demands {
            if let Some(fault) = self.broken(*demand) {
                return Err(fault);
            }
        }
        Ok(())
    }

    /// The fault of a demand, where it is not met.
    #[inline(always)]
    pub fn broken(&self, demand: Demand) -> Option<RuleFault>
        requires frame { AreKnown self.now.world.now.classes (frame self.now) }
        requires demand { IsKnownDemand self.now.world.now.classes demand }
        ensures { MatchOption result
            (Satisfies self.now.world.now.classes (frame self.now) demand)
            (λ fault.
            ¬ (Satisfies self.now.world.now.classes (frame self.now) demand)
            × (fault ≡ demand_fault self.now.world.now.classes (frame self.now) demand)) }
    {
        if self.plainly_holds(demand) {
            None
        } else {
            self.fault_of(demand)
        }
    }

    /// The same, where it is not plain.
    #[cold]
    #[inline(never)]
    fn fault_of(&self, demand: Demand) -> Option<RuleFault>
        requires frame { AreKnown self.now.world.now.classes (frame self.now) }
        requires demand { IsKnownDemand self.now.world.now.classes demand }
        ensures { MatchOption result
            (Satisfies self.now.world.now.classes (frame self.now) demand)
            (λ fault.
            ¬ (Satisfies self.now.world.now.classes (frame self.now) demand)
            × (fault ≡ demand_fault self.now.world.now.classes (frame self.now) demand)) }
    {
        match demand {
            Demand::Registers(x, n) if x as usize + n as usize <= self.regs.len() => None,
            Demand::Registers(x, _) => Some(RuleFault::NoLocal(x)),
            Demand::Depth(n) if n as usize <= self.stack.len() => None,
            Demand::Depth(_) => Some(RuleFault::Underflow),
            Demand::Cell(n, want) => judged(
                self.world.classes(),
                want,
                self.cell(n),
                RuleFault::Underflow,
            ),
            Demand::Cut(n) if self.splits(n) => Some(RuleFault::SplitInt),
            Demand::Cut(_) => None,
            Demand::Held(x, ty) => judged(
                self.world.classes(),
                Want::Value(ty),
                self.reg(x),
                RuleFault::NoLocal(x),
            ),
        }
    }

    /// Whether the demand is met, as most are; of a cut nothing is asked here.
    #[inline(always)]
    fn plainly_holds(&self, demand: Demand) -> bool
        requires frame { AreKnown self.now.world.now.classes (frame self.now) }
        requires demand { IsKnownDemand self.now.world.now.classes demand }
        ensures { IsTrue result → Satisfies self.now.world.now.classes (frame self.now) demand }
    {
        match demand {
            Demand::Registers(x, n) => x as usize + n as usize <= self.regs.len(),
            Demand::Depth(n) => n as usize <= self.stack.len(),
            Demand::Cell(n, want) => is_wanted(self.world.classes(), want, self.cell(n)),
            Demand::Held(x, ty) => { is_wanted(self.world.classes(), Want::Value(ty), self.reg(x)) }
            Demand::Cut(_) => false,
        }
    }

    /// Whether an int lies across the cut below the `n`-th cell.
    fn splits(&self, n: u8) -> bool
        ensures { IsTrue result ↔ Splits (reverse self.now.stack.now) n }
    {
        matches!(self.cell(n.saturating_sub(1)), Some(Ty::IntLow))
            && matches!(self.cell(n), Some(Ty::IntHigh))
    }

    /// The cell under `n` others.
    #[inline(always)]
    pub fn cell(&self, n: u8) -> Option<Ty>
        ensures { result ≡ slice_get (reverse self.now.stack.now) n }
    {
        let n = n as usize;
        if n < self.stack.len() {
            Some(self.stack[self.stack.len() - 1 - n])
        } else {
            None
        }
    }

    /// The type in a register, if the method has it.
    #[inline(always)]
    pub fn reg(&self, x: u8) -> Option<Ty>
        ensures { result ≡ slice_get self.now.regs.now x }
    {
        self.regs.get(x as usize).copied()
    }
}

/// Whether what is found is as wanted. Mostly it is the very type that is wanted, and the order of types is not asked.
#[inline(always)]
pub fn meets(classes: &Classes, want: Want, found: Ty) -> bool
    requires want_known { IsKnownWant classes.now want }
    requires found_known { IsKnown classes.now found }
    requires object_known { IsClass classes.now (object classes.now) }
    ensures is { IsTrue result ↔ Meets classes.now want found }
    ensures computed { result ≡ meets classes.now want found }
{
    if is_very(want, found) {
        true
    } else {
        meets_in_order(classes, want, found)
    }
}

/// Whether this very type is wanted.
#[inline(always)]
fn is_very(want: Want, found: Ty) -> bool
    ensures { IsTrue result → want ≡ Value found }
{
    match want {
        Want::Value(wanted) => same_type(found, wanted),
        _ => false,
    }
}

/// Whether what is found is as wanted, by the order of types.
#[inline(never)]
fn meets_in_order(classes: &Classes, want: Want, found: Ty) -> bool
    requires want_known { IsKnownWant classes.now want }
    requires found_known { IsKnown classes.now found }
    requires object_known { IsClass classes.now (object classes.now) }
    ensures is { IsTrue result ↔ Meets classes.now want found }
    ensures computed { result ≡ meets classes.now want found }
{
    match want {
        Want::Value(wanted) => below(classes, found, wanted),
        Want::Storable => below(classes, found, Ty::Class(classes.role(0))),
        Want::ByteArray => below(classes, found, Ty::ArrByte) || below(classes, found, Ty::ArrBool),
        Want::AnyArray => is_array_or_null(found),
        Want::Whole => !is_half(found),
        Want::Receiver(class) => is_fresh_of(class, found)
            || below(classes, found, Ty::Class(class)),
    }
}

/// The fault of a cell or register that is not there, or not as wanted.
#[inline(always)]
fn judged(classes: &Classes, want: Want, found: Option<Ty>, absent: RuleFault) -> Option<RuleFault>
    requires want_known { IsKnownWant classes.now want }
    requires found_known { IfSome found (IsKnown classes.now) }
    requires object_known { IsClass classes.now (object classes.now) }
    ensures { MatchOption result
        (IsSomeAnd found (Meets classes.now want))
        (λ fault.
        ¬ (IsSomeAnd found (Meets classes.now want))
        × (fault ≡ refused_at classes.now want absent found)) }
{
    match found {
        None => Some(absent),
        Some(found) if meets(classes, want, found) => None,
        Some(found) => Some(refusal(classes, want, found)),
    }
}

/// Whether something was found, and is as wanted.
#[inline(always)]
fn is_wanted(classes: &Classes, want: Want, found: Option<Ty>) -> bool
    requires want_known { IsKnownWant classes.now want }
    requires found_known { IfSome found (IsKnown classes.now) }
    requires object_known { IsClass classes.now (object classes.now) }
    ensures { IsTrue result → IsSomeAnd found (Meets classes.now want) }
{
    matches!(found, Some(found) if meets(classes, want, found))
}

fn is_array_or_null(found: Ty) -> bool
    ensures is { IsTrue result ↔ IsArrayOrNull found }
    ensures computed { result ≡ is_array_or_null found }
{
    matches!(
        found,
        Ty::Bottom
            | Ty::Null
            | Ty::ArrBool
            | Ty::ArrByte
            | Ty::ArrShort
            | Ty::ArrInt
            | Ty::ArrRef(_)
    )
}

fn is_half(found: Ty) -> bool
    ensures is { IsTrue result ↔ IsHalf found }
    ensures computed { result ≡ is_half found }
{
    matches!(found, Ty::IntHigh | Ty::IntLow)
}

fn is_fresh_of(class: u16, found: Ty) -> bool
    ensures is { IsTrue result ↔ IsFreshOf class found }
    ensures computed { result ≡ is_fresh_of class found }
{
    match found {
        Ty::Fresh { class: of, .. } => of == class,
        _ => false,
    }
}

/// The fault of what was found where it is not as wanted.
fn refusal(classes: &Classes, want: Want, found: Ty) -> RuleFault
    ensures { result ≡ refusal classes.now want found }
{
    match want {
        Want::Value(wanted) => RuleFault::Mismatch { found, wanted },
        Want::Storable => match found {
            Ty::Fresh { .. } => RuleFault::FreshKept,
            _ => RuleFault::Mismatch {
                found,
                wanted: Ty::Class(classes.role(0)),
            },
        },
        Want::ByteArray | Want::AnyArray => RuleFault::Mismatch {
            found,
            wanted: Ty::ArrByte,
        },
        Want::Whole => RuleFault::SplitInt,
        Want::Receiver(class) => RuleFault::Mismatch {
            found,
            wanted: Ty::Class(class),
        },
    }
}
