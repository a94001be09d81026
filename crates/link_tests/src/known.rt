ghost use Rattle.std.specs.Prelude.{◌≡◌, ◌≤◌, ◌<◌, length, IfSome, IsTrue, All};
ghost use Rattle.jc_base.specs.declared.record.Iface.{Iface};
ghost use Rattle.jc_base.specs.declared.record.MethodRec.{MethodRec};
ghost use Rattle.jc_resolve.specs.Named.{package_of, IsByteTable, IsSized};
ghost use Rattle.jc_classes.specs.KnownClasses.{HasKnownLine};
ghost use Rattle.jc_classes.specs.KnownLines.{AreInRange};

use jc_base::{Iface, Ifaces, MethodRec, Methods};
use jc_resolve::{DispatchTable, NamedClass, NamedClasses};

fn is_number(count: usize, interface: &Iface) -> bool
    ensures { IsTrue result → interface.now.class < count }
{
    (interface.class as usize) < count
}

fn are_numbers(count: usize, interfaces: &Ifaces) -> bool
    ensures { IsTrue result → All (λ (i : Iface). i.class < count) interfaces.now }
{
    interfaces.as_slice().iter().all(|i| is_number(count, i))
}

#[tactic(auto, unfolding(jc_resolve::specs::Named::package_of))]
fn package_of(classes: &NamedClasses, c: u16) -> u16
    ensures { result ≡ package_of classes.now c }
{
    match classes.as_slice().get(c as usize) {
        Some(class) => class.package,
        None => 0,
    }
}

fn has_super(classes: &NamedClasses, class: &NamedClass) -> bool
    ensures { IsTrue result → IfSome class.now.parent (λ p. (p < length classes.now) × (package_of classes.now p ≤ class.now.package)) }
{
    match class.parent {
        Some(p) => (p as usize) < classes.len() && package_of(classes, p) <= class.package,
        None => true,
    }
}

fn is_known(classes: &NamedClasses, class: &NamedClass) -> bool
    ensures { IsTrue result → HasKnownLine classes.now class.now }
{
    has_super(classes, class) && are_numbers(classes.len(), &class.interfaces)
}

pub(crate) fn are_known(classes: &NamedClasses) -> bool
    ensures { IsTrue result → All (HasKnownLine classes.now) classes.now }
{
    classes
        .as_slice()
        .iter()
        .all(|class| is_known(classes, class))
}

fn has_interfaces(count: usize, class: &NamedClass) -> bool
    ensures { IsTrue result → All (λ (i : Iface). i.class < count) class.now.interfaces }
{
    are_numbers(count, &class.interfaces)
}

pub(crate) fn name_interfaces(classes: &NamedClasses) -> bool
    ensures { IsTrue result → AreInRange classes.now }
{
    let count = classes.len();
    classes
        .as_slice()
        .iter()
        .all(|class| has_interfaces(count, class))
}

fn is_byte_table(table: &DispatchTable) -> bool
    ensures { IsTrue result → IsByteTable table.now }
{
    let base = table.base as usize;
    base <= 255 && table.entries.len() <= 255
}

fn is_sized(class: &NamedClass) -> bool
    ensures { IsTrue result → IsSized class.now }
{
    is_byte_table(&class.public) && is_byte_table(&class.visible) && class.own.len() <= 131070
}

pub(crate) fn are_sized(classes: &NamedClasses) -> bool
    ensures { IsTrue result → All IsSized classes.now }
{
    classes.as_slice().iter().all(|class| is_sized(class))
}

fn is_of_class(count: usize, method: &MethodRec) -> bool
    ensures { IsTrue result → method.now.class < count }
{
    (method.class as usize) < count
}

pub(crate) fn are_of_classes(methods: &Methods, count: usize) -> bool
    ensures { IsTrue result → All (λ (m : MethodRec). m.class < count) methods.now }
{
    methods.as_slice().iter().all(|m| is_of_class(count, m))
}
