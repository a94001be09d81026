ghost use Rattle.std.specs.Prelude.{◌≡◌, ◌+◌, ◌==◌, ◌&&◌, ◌↔◌, ◌≤◌, length, IsTrue};
ghost use Rattle.jc_base.specs.Class.{IsClass, chain, height};
ghost use Rattle.jc_base.specs.Order.{Below, IsJoin, IsKnown, StaysOrRises, IsAntisymmetric, IsMonotone, rises_left, is_below, is_on_chain, is_reference, is_above_arrays, common, join_of, join_of_others};

use crate::class::Classes;
use crate::ty::Ty;

/// Whether a type is below another: whether what has the one type has the other. Both conditions say
/// that a type names classes of the table, and no interface.
pub fn below(classes: &Classes, a: Ty, b: Ty) -> bool
    requires a_known { IsKnown classes.now a }
    requires b_known { IsKnown classes.now b }
    ensures is { IsTrue result ↔ Below classes.now a b }
    ensures computed { result ≡ is_below classes.now a b }
    // No two different types are below each other.
    ensures apart { IsAntisymmetric classes.now a b }
    // A type rises at most as often as its class chains are long, and three times more.
    ensures rises { IsTrue result → StaysOrRises classes.now a b }
    ensures seldom { rises_left classes.now a ≤ height classes.now + 3 }
{
    // The facts that hold of each table of classes.
    let _ = classes.records();
    is_below(classes, a, b)
}

/// The least type above two types, under the conditions of `below`.
pub fn join(classes: &Classes, a: Ty, b: Ty) -> Ty
    requires a_known { IsKnown classes.now a }
    requires b_known { IsKnown classes.now b }
    ensures is { IsJoin classes.now a b result }
    ensures known { IsKnown classes.now result }
    ensures computed { result ≡ join_of classes.now a b }
    // It rises with both.
    ensures monotone { IsMonotone classes.now a b result }
{
    let _ = classes.records();
    join_of(classes, a, b)
}

#[tactic(auto, unfolding(crate::specs::Order::is_below))]
fn is_below(classes: &Classes, a: Ty, b: Ty) -> bool
    requires a_known { IsKnown classes.now a }
    requires b_known { IsKnown classes.now b }
    ensures { result ≡ is_below classes.now a b }
{
    match a {
        Ty::Bottom => true,
        Ty::Short => matches!(b, Ty::Short | Ty::Top),
        Ty::IntHigh => matches!(b, Ty::IntHigh | Ty::Top),
        Ty::IntLow => matches!(b, Ty::IntLow | Ty::Top),
        Ty::Null => is_reference(b) || matches!(b, Ty::Null | Ty::Top),
        Ty::Class(c) => match b {
            Ty::Class(d) => is_on_chain(classes, d, c),
            _ => matches!(b, Ty::Top),
        },
        Ty::ArrBool => matches!(b, Ty::ArrBool) || is_above_arrays(classes, b),
        Ty::ArrByte => matches!(b, Ty::ArrByte) || is_above_arrays(classes, b),
        Ty::ArrShort => matches!(b, Ty::ArrShort) || is_above_arrays(classes, b),
        Ty::ArrInt => matches!(b, Ty::ArrInt) || is_above_arrays(classes, b),
        Ty::ArrRef(c) => match b {
            Ty::ArrRef(d) => is_on_chain(classes, d, c),
            _ => is_above_arrays(classes, b),
        },
        Ty::Fresh { place, class } => match b {
            Ty::Fresh {
                place: other,
                class: other_class,
            } => place == other && class == other_class,
            _ => matches!(b, Ty::Top),
        },
        Ty::Top => matches!(b, Ty::Top),
    }
}

/// Whether every array is below a type that is no array.
fn is_above_arrays(classes: &Classes, b: Ty) -> bool
    ensures { result ≡ is_above_arrays classes.now b }
{
    match b {
        Ty::Class(d) => d == classes.role(0),
        Ty::Top => true,
        _ => false,
    }
}

/// Whether a type is a class or an array.
pub fn is_reference(a: Ty) -> bool
    ensures { result ≡ is_reference a }
{
    match a {
        Ty::Class(_) | Ty::ArrBool | Ty::ArrByte | Ty::ArrShort | Ty::ArrInt | Ty::ArrRef(_) =>
            true,
        _ => false,
    }
}

/// Whether class d is class c or one of its superclasses.
fn is_on_chain(classes: &Classes, d: u16, c: u16) -> bool
    requires { IsClass classes.now c }
    ensures { result ≡ is_on_chain classes.now d c }
{
    let mut at = c;
    'climb: loop {
        if at == d {
            return true;
        }
        match classes.parent(at) {
            Some(p) => at = p,
            None => return false,
        }
    }
}

/// The number of classes on the chain of a class.
fn depth(classes: &Classes, c: u16) -> usize
    requires { IsClass classes.now c }
    ensures { result ≡ length (chain classes.now c) }
{
    let mut at = c;
    let mut n = 1;
    'climb: while let Some(p) = classes.parent(at) {
        at = p;
        n += 1;
    }
    n
}

/// The nearest class that is on the chains of both. The deeper one climbs, so each chain is walked
/// twice at most.
fn common(classes: &Classes, c: u16, d: u16) -> u16
    requires c_known { IsClass classes.now c }
    requires d_known { IsClass classes.now d }
    ensures { result ≡ common classes.now c d }
{
    let mut a = c;
    let mut b = d;
    let mut a_depth = depth(classes, a);
    let mut b_depth = depth(classes, b);
    'climb: while a != b {
        if a_depth < b_depth {
            match classes.parent(b) {
                Some(p) => b = p,
                None => return b,
            }
            b_depth -= 1;
        } else {
            match classes.parent(a) {
                Some(p) => a = p,
                None => return a,
            }
            a_depth -= 1;
        }
    }
    a
}

#[tactic(auto, unfolding(crate::specs::Order::join_of))]
fn join_of(classes: &Classes, a: Ty, b: Ty) -> Ty
    requires a_known { IsKnown classes.now a }
    requires b_known { IsKnown classes.now b }
    ensures { result ≡ join_of classes.now a b }
{
    match a {
        Ty::Class(c) => match b {
            Ty::Class(d) => Ty::Class(common(classes, c, d)),
            _ => join_of_others(classes, a, b),
        },
        Ty::ArrRef(c) => match b {
            Ty::ArrRef(d) => Ty::ArrRef(common(classes, c, d)),
            _ => join_of_others(classes, a, b),
        },
        _ => join_of_others(classes, a, b),
    }
}

/// The join of two types that are not both classes, and not both arrays of classes.
fn join_of_others(classes: &Classes, a: Ty, b: Ty) -> Ty
    requires a_known { IsKnown classes.now a }
    requires b_known { IsKnown classes.now b }
    ensures { result ≡ join_of_others classes.now a b }
{
    if is_below(classes, a, b) {
        b
    } else if is_below(classes, b, a) {
        a
    } else if is_reference(a) && is_reference(b) {
        Ty::Class(classes.role(0))
    } else {
        Ty::Top
    }
}
