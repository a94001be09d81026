ghost use Rattle.std.specs.Prelude.{◌≡◌, ◌<◌, ◌↔◌, if◌then◌else◌, length, IsTrue, ◌≤◌, false};
ghost use Rattle.jc_base.specs.Class.{is_interface, IsClass};
ghost use Rattle.jc_base.specs.Interface.{is_or_extends, implements, implemented};
ghost use Rattle.vm_step.specs.Instance.{IsSubtype, IsInstance, IsRecorded, IsNamed, is_object, is_subtype, is_instance};
ghost use Rattle.std.specs.List.{list_any};
ghost use Rattle.vm_step.specs.Searched.{AreLeft};

use jc_base::{Ty, World, below, interfaces_decide};
use vm_store::ObjectKind;

/// The most classes and interfaces of a world.
const CLASSES: usize = 4096;

/// Whether what is of one class or interface is of another, both by number.
pub fn is_subtype(world: &World<'_>, of: u16, above: u16) -> bool
    requires of { of < length world.now.classes.records }
    requires above { above < length world.now.classes.records }
    ensures is { IsTrue result ↔ IsSubtype world.now.classes of above }
    ensures computed { result ≡ is_subtype world.now.classes of above }
{
    interfaces_decide(world);
    let classes = world.classes();
    if classes.is_interface(above) {
        implements_or_extends(world, of, above)
    } else if classes.is_interface(of) {
        above == classes.role(0)
    } else {
        below(classes, Ty::Class(of), Ty::Class(above))
    }
}

/// Whether an object is an instance of a class, of an interface or of an array type: what `checkcast`,
/// `instanceof` and `aastore` ask. An interface stands in the type as itself.
pub fn is_instance(world: &World<'_>, kind: ObjectKind, ty: Ty) -> bool
    requires kind { IsRecorded world.now.classes kind }
    requires ty { IsNamed world.now.classes ty }
    ensures is { IsTrue result ↔ IsInstance world.now.classes kind ty }
    ensures computed { result ≡ is_instance world.now.classes kind ty }
{
    match kind {
        ObjectKind::Instance(class) => match ty {
            Ty::Class(above) => is_subtype(world, class, above),
            _ => false,
        },
        ObjectKind::References(class) => match ty {
            Ty::ArrRef(above) => is_subtype(world, class, above),
            _ => is_object(world, ty),
        },
        ObjectKind::Booleans => matches!(ty, Ty::ArrBool) || is_object(world, ty),
        ObjectKind::Bytes => matches!(ty, Ty::ArrByte) || is_object(world, ty),
        ObjectKind::Shorts => matches!(ty, Ty::ArrShort) || is_object(world, ty),
        ObjectKind::Ints => matches!(ty, Ty::ArrInt) || is_object(world, ty),
    }
}

/// Of an interface: whether a class implements it, or another interface is it or extends it.
fn implements_or_extends(world: &World<'_>, of: u16, above: u16) -> bool
    requires of { of < length world.now.classes.records }
    ensures { result
        ≡ (if is_interface world.now.classes of
        then is_or_extends world.now.classes of above
        else implements world.now.classes of above) }
{
    let mut searched = [false; CLASSES];
    if world.classes().is_interface(of) {
        extends(world, of, above, &mut searched)
    } else {
        implements(world, of, above, &mut searched)
    }
}

/// Whether a type is that of every object and array.
fn is_object(world: &World<'_>, ty: Ty) -> bool
    ensures { result ≡ is_object world.now.classes ty }
{
    match ty {
        Ty::Class(class) => class == world.role(0),
        _ => false,
    }
}

/// Whether an interface is the one that is sought, or extends it. No interface is searched twice, however often it is named.
pub fn extends(world: &World<'_>, interface: u16, sought: u16, searched: &mut [bool]) -> bool
    requires known { interface < length world.now.classes.records }
    requires room { length world.now.classes.records ≤ length searched.old }
    requires left { AreLeft world.now.classes sought searched.old }
    ensures is { result ≡ is_or_extends world.now.classes interface sought }
    ensures left { result ≡ false → AreLeft world.now.classes sought searched.new }
{
    interfaces_decide(world);
    if interface == sought {
        return true;
    }
    if searched[interface as usize] {
        return false;
    }
    let record = world.class(interface);
    if !record.interface {
        return false;
    }
    'extended: for extended in record.implements.as_slice() {
        if extends(world, extended.class, sought, searched) {
            return true;
        }
    }
    searched[interface as usize] = true;
    false
}

/// Whether a class itself names the interface that is sought, or one that extends it.
fn names(world: &World<'_>, class: u16, sought: u16, searched: &mut [bool]) -> bool
    requires class { IsClass world.now.classes class }
    requires room { length world.now.classes.records ≤ length searched.old }
    requires left { AreLeft world.now.classes sought searched.old }
    ensures is { result
        ≡ list_any (λ i. is_or_extends world.now.classes i sought) (implemented world.now.classes class) }
    ensures left { result ≡ false → AreLeft world.now.classes sought searched.new }
{
    'named: for named in world.class(class).implements.as_slice() {
        if extends(world, named.class, sought, searched) {
            return true;
        }
    }
    false
}

/// Whether a class or one of its superclasses implements the interface that is sought.
pub fn implements(world: &World<'_>, class: u16, sought: u16, searched: &mut [bool]) -> bool
    requires class { IsClass world.now.classes class }
    requires room { length world.now.classes.records ≤ length searched.old }
    requires left { AreLeft world.now.classes sought searched.old }
    ensures { result ≡ implements world.now.classes class sought }
{
    let mut at = class;
    'climb: loop {
        if names(world, at, sought, searched) {
            return true;
        }
        match world.classes().parent(at) {
            Some(parent) => at = parent,
            None => return false,
        }
    }
}
