ghost use Rattle.std.specs.Prelude.{◌≡◌, ◌<◌, drop, length, slice_index_or, IfNone, IfSome, MatchBool, ◌+◌, ◌≤◌, map, All};
ghost use Rattle.jc_base.specs.declared.ty.Ty.TheVariants.{Bottom, IntHigh};
ghost use Rattle.law_share.specs.Variable.{IsWhole, Interferes};
ghost use Rattle.xf_allot.specs.Variable.{HasNone, IsFirstOf, allotted_of, variable_of};
ghost use Rattle.jc_control.specs.Subject.{method, world_of};
ghost use Rattle.law_share.specs.Sharing.{FitsBeside, IsLeastFit};
ghost use Rattle.xf_allot.specs.Allotting.{AllFit, IsSized, LiesBefore, MeetsOne};
ghost use Rattle.xf_allot.specs.Graph.{AreFound};

use jc_base::{Ty, same_type};
use jc_control::Subject;
use xf_live::Interference;

/// What a method keeps in a register that is no argument, or in two.
#[derive(Clone, Copy)]
pub(crate) struct Variable {
    /// The first of its registers.
    pub(crate) register: u8,
    /// How many it has: an int takes two.
    pub(crate) width: u8,
    /// The type of the first.
    pub(crate) ty: Ty,
}

/// A variable, and the first of the registers that it is given.
#[derive(Clone, Copy)]
pub(crate) struct Allotted {
    pub(crate) variable: Variable,
    pub(crate) at: u8,
}

/// The variable whose registers begin at one of a method, by the types of its registers; none where that type is of no value,
/// or is one half of an int without the other.
pub(crate) fn variable_at(types: &[Ty], register: u8) -> Option<Variable>
    requires { register < length types.now }
    ensures some { IfSome result (IsFirstOf register (drop register types.now)) }
    ensures none { IfNone result (HasNone register (drop register types.now)) }
{
    let ty = types[usize::from(register)];
    if same_type(ty, Ty::IntHigh) {
        return int_at(types, register);
    }
    if !is_whole(ty) {
        return None;
    }
    Some(Variable {
        register,
        width: 1,
        ty,
    })
}

// Whether a type is one of a value that is in one register alone.
fn is_whole(ty: Ty) -> bool
    ensures { MatchBool result (IsWhole ty) (¬ (IsWhole ty)) }
{
    !matches!(ty, Ty::Top | Ty::Bottom | Ty::IntHigh | Ty::IntLow)
}

// The int whose registers begin there, where the second has its low half.
fn int_at(types: &[Ty], register: u8) -> Option<Variable>
    requires inside { register < length types.now }
    requires high { slice_index_or types.now register Bottom ≡ IntHigh }
    ensures some { IfSome result (IsFirstOf register (drop register types.now)) }
    ensures none { IfNone result (HasNone register (drop register types.now)) }
{
    let low = usize::from(register) + 1;
    if low >= types.len() {
        return None;
    }
    if !same_type(types[low], Ty::IntLow) {
        return None;
    }
    Some(Variable {
        register,
        width: 2,
        ty: Ty::IntHigh,
    })
}

/// The least registers that a variable may have beside those that others have, all of which lie before its own.
pub(crate) fn least_fit(
    subject: &Subject<'_>,
    found: &Interference,
    before: &[Allotted],
    variable: Variable,
) -> u8
    requires found { AreFound (world_of subject.now) (method subject.now) found.now }
    requires variable { IsSized variable }
    requires before { All (LiesBefore variable.register) before.now }
    requires from { subject.now.rec.now.nargs ≤ variable.register }
    ensures least { IsLeastFit (world_of subject.now) (method subject.now) (map allotted_of before.now) (variable_of variable) result }
    ensures most { result ≤ variable.register }
{
    let mut at = subject.rec.nargs;
    'registers: while at < variable.register {
        if fits(subject, found, before, variable, at) {
            return at;
        }
        at += 1;
    }
    at
}

// Whether a variable may have the registers from a number on beside those that others have.
fn fits(
    subject: &Subject<'_>,
    found: &Interference,
    before: &[Allotted],
    variable: Variable,
    at: u8,
) -> bool
    requires found { AreFound (world_of subject.now) (method subject.now) found.now }
    requires variable { IsSized variable }
    requires before { All (LiesBefore variable.register) before.now }
    requires at { at ≤ variable.register }
    ensures { MatchBool result
        (AllFit (world_of subject.now) (method subject.now) variable at before.now)
        (¬ (AllFit (world_of subject.now) (method subject.now) variable at before.now)) }
{
    'others: for other in before {
        if !fits_beside(subject, found, *other, variable, at) {
            return false;
        }
    }
    true
}

// Whether it may have them beside those of one.
fn fits_beside(
    subject: &Subject<'_>,
    found: &Interference,
    other: Allotted,
    variable: Variable,
    at: u8,
) -> bool
    requires found { AreFound (world_of subject.now) (method subject.now) found.now }
    requires variable { IsSized variable }
    requires other { LiesBefore variable.register other }
    requires at { at ≤ variable.register }
    ensures { MatchBool result
        (FitsBeside (world_of subject.now) (method subject.now) (variable_of variable) at (allotted_of other))
        (¬ (FitsBeside (world_of subject.now) (method subject.now) (variable_of variable) at (allotted_of other))) }
{
    if other.at + other.variable.width <= at {
        return true;
    }
    if at + variable.width <= other.at {
        return true;
    }
    if other.at != at {
        return false;
    }
    if other.variable.width != variable.width {
        return false;
    }
    if !same_type(other.variable.ty, variable.ty) {
        return false;
    }
    !interfere(subject, found, other.variable, variable)
}

// Whether two variables interfere.
fn interfere(subject: &Subject<'_>, found: &Interference, first: Variable, second: Variable) -> bool
    requires found { AreFound (world_of subject.now) (method subject.now) found.now }
    requires first { IsSized first }
    requires second { IsSized second }
    ensures { MatchBool result
        (Interferes (world_of subject.now) (method subject.now) (variable_of first) (variable_of second))
        (¬ (Interferes (world_of subject.now) (method subject.now) (variable_of first) (variable_of second))) }
{
    'registers: for register in first.register..first.register + first.width {
        if meets(subject, found, register, second) {
            return true;
        }
    }
    false
}

// Whether a register may not become one with one of a variable's.
fn meets(subject: &Subject<'_>, found: &Interference, register: u8, variable: Variable) -> bool
    requires found { AreFound (world_of subject.now) (method subject.now) found.now }
    requires variable { IsSized variable }
    ensures { MatchBool result
        (MeetsOne (world_of subject.now) (method subject.now) register (variable_of variable))
        (¬ (MeetsOne (world_of subject.now) (method subject.now) register (variable_of variable))) }
{
    let _ = subject;
    'registers: for other in variable.register..variable.register + variable.width {
        if found.has(register, other) {
            return true;
        }
    }
    false
}
