ghost use Rattle.std.specs.Prelude.{◌≡◌, ◌++◌, map, replicate, false, [], ◌∷◌, MatchOption, IfOk, OnOk, All, slice_index_or};
ghost use Rattle.jc_classes.specs.KnownClasses.{HasKnownLine};
ghost use Rattle.jc_classes.specs.Ancestor.{above, is_above};
ghost use Rattle.jc_classes.specs.Marks.{mark, mark_all};

use jc_base::Ifaces;
use jc_resolve::NamedClasses;
use std::alloc::{AllocError, Global};
use std::marker::Model;

/// The classes or interfaces that a climb has found, and those of them from which it has still to climb.
#[derive(Drop)]
struct Climb {
    marked: Vec<bool>,
    pending: Vec<u16>,
}

impl Model for Climb {
    ghost use Rattle.jc_classes.specs.Marks.{MarkedNumbers};

    ghost Value = { MarkedNumbers };

    ghost view = { λ a. record { marked = a.marked.items; pending = a.pending.items } };
}

impl Climb {
    fn new(alloc: Global, count: usize) -> Result<Climb, AllocError>
        ensures { IfOk result (λ climb. climb ≡ record { marked = replicate count false; pending = [] }) }
    {
        let marked = vec![in alloc; false; count]?;
        Ok(Climb {
            marked,
            pending: Vec::new(alloc),
        })
    }

    fn mark(&mut self, c: u16) -> Result<(), AllocError>
        ensures { OnOk result (self.new ≡ mark self.old c) }
    {
        if let Some(false) = self.marked.get(c as usize) {
            self.marked[c as usize] = true;
            self.pending.push(c)?;
        }
        Ok(())
    }

    fn mark_interfaces(&mut self, interfaces: &Ifaces) -> Result<(), AllocError>
        ensures { OnOk result (self.new ≡ mark_all self.old (map (λ i. i.class) interfaces.now)) }
    {
        'interfaces: for interface in interfaces.as_slice() {
            self.mark(interface.class)?;
        }
        Ok(())
    }

    /// Marks what stands directly above a class or an interface, among interfaces or among classes.
    #[tactic(auto, unfolding(crate::specs::Ancestor::superclass, crate::specs::Ancestor::extended))]
    fn mark_above(
        &mut self,
        classes: &NamedClasses,
        interfaces: bool,
        c: u16,
    ) -> Result<(), AllocError>
        ensures { OnOk result (self.new ≡ mark_all self.old (above classes.now interfaces c)) }
    {
        let class = match classes.as_slice().get(c as usize) {
            Some(class) if class.interface == interfaces => class,
            _ => return Ok(()),
        };
        if interfaces {
            return self.mark_interfaces(&class.interfaces);
        }
        match class.parent {
            Some(parent) => self.mark(parent),
            None => Ok(()),
        }
    }

    fn next(&mut self) -> Option<u16>
        ensures marked { self.new.marked ≡ self.old.marked }
        ensures pending { MatchOption result (self.old.pending ≡ []) (λ c. self.old.pending ≡ self.new.pending ++ c ∷ []) }
    {
        self.pending.pop()
    }

    fn has(&self, c: u16) -> bool
        ensures { result ≡ slice_index_or self.now.marked c false }
    {
        matches!(self.marked.get(c as usize), Some(true))
    }
}

/// Whether a class or an interface stands above another: whether it is an ancestor or a superinterface.
pub(crate) fn is_above(
    alloc: Global,
    classes: &NamedClasses,
    interfaces: bool,
    a: u16,
    c: u16,
) -> Result<bool, AllocError>
    requires { All (HasKnownLine classes.now) classes.now }
    ensures { IfOk result (λ b. b ≡ is_above classes.now interfaces a c) }
{
    let mut climb = Climb::new(alloc, classes.len())?;
    climb.mark_above(classes, interfaces, c)?;
    'pending: while let Some(next) = climb.next() {
        climb.mark_above(classes, interfaces, next)?;
    }
    Ok(climb.has(a))
}
