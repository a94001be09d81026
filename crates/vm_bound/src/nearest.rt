ghost use Rattle.std.specs.Prelude.{◌≡◌, ◌==◌, MatchOption, None, Some, find, is_some};
ghost use Rattle.jc_base.specs.Class.{IsClass};
ghost use Rattle.vm_bound.specs.Blocks.{named, IsNearest};

use jc_base::{Iface, World};

/// The nearest class whose own entry serves an interface for a class.
pub(crate) fn nearest_class(world: &World<'_>, interface: u16, class: u16) -> Option<u16>
    requires { IsClass world.now.classes class }
    ensures { IsNearest world.now.classes interface class result }
{
    let mut at = class;
    'climb: loop {
        if names(world, interface, at) {
            return Some(at);
        }
        match world.classes().parent(at) {
            Some(parent) => at = parent,
            None => return None,
        }
    }
}

/// Whether a class names an interface itself.
fn names(world: &World<'_>, interface: u16, class: u16) -> bool
    ensures { result ≡ is_some (named world.now.classes interface class) }
{
    named(world, interface, class).is_some()
}

/// The entry for an interface that a class names itself.
pub(crate) fn named<'w>(world: &'w World<'_>, interface: u16, class: u16) -> Option<&'w Iface>
    ensures { MatchOption result
        (named world.now.classes interface class ≡ None) (λ entry. named world.now.classes interface class ≡ Some entry.now) }
{
    if class >= world.class_count() {
        return None;
    }
    first(world.class(class).implements.as_slice(), interface)
}

/// The first entry for an interface.
fn first(entries: &[Iface], interface: u16) -> Option<&Iface>
    ensures { MatchOption result
        (find (λ e. e.class == interface) entries.now ≡ None)
        (λ entry. find (λ e. e.class == interface) entries.now ≡ Some entry.now) }
{
    'entries: for entry in entries {
        if entry.class == interface {
            return Some(entry);
        }
    }
    None
}
