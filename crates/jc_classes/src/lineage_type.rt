ghost use Rattle.std.specs.Prelude.{◌≡◌, ◌<◌, ◌∷◌, length, Some, IfSome};
ghost use Rattle.jc_base.specs.Class.{list_of};
ghost use Rattle.jc_classes.specs.Outline.{AreLines, chain, package_of, parent_in_line, parent_of};

use std::marker::Model;

/// A class or an interface by its package and its superclass.
#[derive(Clone, Copy)]
pub(crate) struct Line {
    pub(crate) package: u16,
    pub(crate) interface: bool,
    pub(crate) parent: Option<u16>,
}

impl Line {
    /// The superclass; an interface has none.
    fn superclass(&self) -> Option<u16>
        ensures { result ≡ parent_in_line (Some self.now) }
    {
        if self.interface { None } else { self.parent }
    }
}

/// The classes and interfaces of all packages by number, each with its package and its superclass
/// alone, and the classes of the eight roles.
#[derive(Drop)]
pub struct Lineage {
    lines: Vec<Line>,
    roles: [u16; 8],
}

impl Model for Lineage {
    ghost use Rattle.jc_classes.specs.Outline.{LineTable};

    ghost Value = { LineTable };

    ghost use Rattle.jc_classes.specs.Outline.{AreLines};

    ghost view = { λ x. record { lines = x.lines.items; roles = x.roles } };

    ghost invariant = { λ x. AreLines (record { lines = x.lines.items; roles = x.roles }) };
}

impl Lineage {
    /// The classes of these lines, of which every chain of superclasses ends with object.
    pub(crate) fn of(lines: Vec<Line>, roles: [u16; 8]) -> Lineage
        requires { AreLines (record { lines = lines.items; roles = roles }) }
        ensures { result ≡ record { lines = lines.items; roles = roles } }
    {
        Lineage { lines, roles }
    }

    /// How many classes and interfaces there are.
    pub fn len(&self) -> usize
        ensures { result ≡ length self.now.lines }
    {
        self.lines.len()
    }

    /// Does nothing: it says that every chain of superclasses ends with object.
    pub fn facts(&self)
        ensures { AreLines self.now }
    {
        let _ = &self.lines;
    }

    /// The package of a class or an interface.
    pub fn package_of(&self, c: u16) -> u16
        requires { c < length self.now.lines }
        ensures { result ≡ package_of self.now c }
    {
        self.lines[c as usize].package
    }

    /// The superclass of a class; an interface has none.
    pub fn parent(&self, c: u16) -> Option<u16>
        requires { c < length self.now.lines }
        ensures is { result ≡ parent_of self.now c }
        ensures known { IfSome result (λ p. p < length self.now.lines) }
        ensures step { chain self.now c ≡ c ∷ list_of (chain self.now) result }
    {
        self.lines[c as usize].superclass()
    }

    /// The classes of the eight roles.
    pub fn roles(&self) -> [u16; 8]
        ensures { result ≡ self.now.roles }
    {
        self.roles
    }
}
