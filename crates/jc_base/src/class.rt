ghost use Rattle.std.specs.Prelude.{◌≡◌, ◌<◌, ◌^◌, ◌↔◌, length, IsTrue, IfSome, IfNone, slice_get, slice_index, ◌++◌, ◌∷◌, [], List};
ghost use Rattle.std.specs.Prelude.{OnOk, OnErr, ◌+◌};
ghost use Rattle.jc_base.specs.Class.{AreClasses, IsClass, IsNextOnChain, IsEndOfChain, parent_of, is_interface};
ghost use Rattle.jc_base.specs.Dispatch.{entry_at, public_of, visible_of};

use crate::list::ClassRecs;
use crate::record::ClassRec;
use std::alloc::{AllocError, Global};
use std::marker::Model;
use std::sync::ledger::{Blank, Book, Ledger, Share};

/// The classes and interfaces of all packages by number, with the classes of the eight roles.
#[derive(Drop)]
pub struct Classes {
    records: ClassRecs,
    roles: [u16; 8],
}

impl Model for Classes {
    ghost use Rattle.jc_base.specs.Class.{ClassTable, AreClasses};

    ghost Value = { ClassTable };

    ghost view = { λ a. record { records = a.records; roles = a.roles } };

    ghost invariant = { λ a. AreClasses (record { records = a.records; roles = a.roles }) };
}

impl Classes {
    /// The table of these records, in which every class is a subclass of object.
    pub fn of(records: ClassRecs, roles: [u16; 8]) -> Classes
        requires { AreClasses (record { records = records; roles = roles }) }
        ensures { result ≡ record { records = records; roles = roles } }
    {
        Classes { records, roles }
    }

    /// How many classes and interfaces there are.
    pub fn len(&self) -> usize
        ensures { result ≡ length self.now.records }
    {
        self.records.len()
    }

    /// The records, by number.
    pub fn records(&self) -> &ClassRecs
        ensures is { result.now ≡ self.now.records }
        ensures chains { AreClasses self.now }
    {
        &self.records
    }

    /// The record of a class or an interface, by its number.
    pub fn at(&self, n: u16) -> &ClassRec
        requires { n < length self.now.records }
        ensures is { slice_get self.now.records n ≡ Some result.now }
        ensures chains { AreClasses self.now }
        ensures few { length self.now.records < 2 ^ 63 }
    {
        &self.records.as_slice()[n as usize]
    }

    /// Whether a number is that of an interface.
    pub fn is_interface(&self, n: u16) -> bool
        requires { n < length self.now.records }
        ensures { result ≡ is_interface self.now n }
    {
        self.at(n).interface
    }

    /// Whether a number names a class, and no interface.
    pub fn is_class(&self, n: u16) -> bool
        ensures { IsTrue result ↔ IsClass self.now n }
    {
        (n as usize) < self.len() && !self.is_interface(n)
    }

    /// The superclass of a class; object has none.
    pub fn parent(&self, c: u16) -> Option<u16>
        requires { IsClass self.now c }
        ensures is { result ≡ parent_of self.now c }
        ensures climbs { IfSome result (IsNextOnChain self.now c) }
        ensures ends { IfNone result (IsEndOfChain self.now c) }
        ensures chains { AreClasses self.now }
        ensures few { length self.now.records < 2 ^ 63 }
    {
        self.at(c).parent
    }

    /// The method at a token of a class's own dispatch lists, which is package-visible from 128 on.
    #[tactic(auto, unfolding(crate::specs::Dispatch::entry_at))]
    pub fn entry_at(&self, c: u16, token: u8) -> Option<u16>
        requires { c < length self.now.records }
        ensures { result ≡ entry_at self.now c token }
    {
        if token < 128 {
            self.public_entry(c, token)
        } else {
            self.visible_entry(c, token - 128)
        }
    }

    /// The method at a public token of a class.
    #[tactic(auto, unfolding(crate::specs::Dispatch::public_of))]
    pub fn public_entry(&self, c: u16, token: u8) -> Option<u16>
        requires { c < length self.now.records }
        ensures { result ≡ slice_get (public_of self.now c) token }
    {
        self.at(c).public.as_slice().get(token as usize).copied()
    }

    /// The method at a package-visible token of a class, the first of which counts as 0.
    #[tactic(auto, unfolding(crate::specs::Dispatch::visible_of))]
    pub fn visible_entry(&self, c: u16, n: u8) -> Option<u16>
        requires { c < length self.now.records }
        ensures { result ≡ slice_get (visible_of self.now c) n }
    {
        self.at(c).visible.as_slice().get(n as usize).copied()
    }

    /// The class of a role.
    pub fn role(&self, k: u8) -> u16
        requires { k < 8 }
        ensures { result ≡ slice_index self.now.roles k }
    {
        self.roles[k as usize]
    }

    /// The classes of the eight roles.
    pub fn roles(&self) -> [u16; 8]
        ensures { result ≡ self.now.roles }
    {
        self.roles
    }
}

/// The infos of the Method components of a world's packages, in order, borrowed from the packages.
#[derive(Drop)]
pub struct Infos<'a> {
    items: Vec<&'a [u8]>,
}

impl<'a> Model for Infos<'a> {
    ghost use Rattle.std.specs.Prelude.{List, ℕ, map};

    ghost Value = { List (List ℕ) };

    ghost view = { λ a. map (λ b. b.now) a.items.items };
}

impl<'a> Infos<'a> {
    /// No info yet.
    pub fn new(alloc: Global) -> Infos<'a>
        ensures { result ≡ [] }
    {
        Infos {
            items: Vec::new(alloc),
        }
    }

    /// Appends the info of the next package. Out of memory, the list is as before.
    pub fn push(&mut self, info: &'a [u8]) -> Result<(), AllocError>
        ensures ok { OnOk result (self.new ≡ self.old ++ info.now ∷ []) }
        ensures err { OnErr result (self.new ≡ self.old) }
    {
        self.items.push(info)?;
        Ok(())
    }

    /// How many packages there are.
    pub fn len(&self) -> usize
        ensures { result ≡ length self.now }
    {
        self.items.len()
    }

    /// The info of a package, by its number.
    pub fn at(&self, n: usize) -> &'a [u8]
        requires { n < length self.now }
        ensures { slice_get self.now n ≡ Some result.now }
    {
        self.items[n]
    }
}

/// How many steps were taken, a number that takes no bytes. Only `tick` changes it.
#[derive(Drop)]
pub struct Steps<L: Ledger> {
    book: Book<L>,
    share: Share<L>,
}

impl<L: Ledger> Model for Steps<L> {
    ghost use Rattle.std.specs.Prelude.{ℕ, ◌<◌};

    ghost Value = { ℕ };

    ghost view = { λ s. s.book.total };

    ghost invariant = { λ s. 0 < s.share.parts };
}

impl<L: Ledger> Steps<L> {
    /// No step yet, in a new ledger of one part.
    pub fn none(blank: Blank) -> Steps<L>
        requires name { blank.name ≡ L.name }
        requires parts { blank.parts ≡ L.parts }
        requires one { blank.parts ≡ 1 }
        ensures { result ≡ 0 }
    {
        let (book, share) = blank.open::<L>();
        Steps { book, share }
    }

    /// Counts one step more.
    pub fn tick(&mut self)
        ensures { self.new ≡ self.old + 1 }
    {
        self.book.add(&mut self.share, 1);
    }
}
