ghost use Rattle.std.specs.Prelude.{◌≡◌, ◌<◌, [], ◌∷◌, ◌++◌, IsNone, IfOk, OnOk, OnErr, Some, length, slice_get};
ghost use Rattle.std.specs.Option.{option_copied};
ghost use Rattle.cap_components.specs.Parts.{held};

use cap_bytes::Part;
use std::alloc::{AllocError, Global};
use std::marker::Model;

/// A borrowed file of a package's folder.
#[derive(Clone, Copy)]
struct LentPart<'a> {
    part: Part,
    bytes: &'a [u8],
}

/// The files of a package's folder, borrowed: a list of parts and their bytes, each part at most
/// once, in the order in which they were pushed (section 6.1 of the specification).
#[derive(Drop)]
pub struct Parts<'a> {
    items: Vec<LentPart<'a>>,
}

impl<'a> Model for Parts<'a> {
    ghost use Rattle.std.specs.Prelude.{List};
    ghost use Rattle.cap_components.specs.Parts.{Lent};

    ghost Value = { List Lent };

    ghost use Rattle.cap_components.specs.Inside.{lent_list};
    ghost use Rattle.cap_components.specs.Parts.{HasEachOnce};

    ghost view = { λ p. lent_list p.items.items };

    ghost invariant = { λ p. HasEachOnce (lent_list p.items.items) };
}

impl<'a> Parts<'a> {
    /// No part.
    pub fn new(alloc: Global) -> Parts<'a>
        ensures { result ≡ [] }
    {
        Parts {
            items: Vec::new(alloc),
        }
    }

    /// How many parts there are.
    pub fn len(&self) -> usize
        ensures { result ≡ length self.now }
    {
        self.items.len()
    }

    /// The n-th part and its bytes.
    pub fn at(&self, n: usize) -> (Part, &'a [u8])
        requires { n < length self.now }
        ensures { slice_get self.now n ≡ Some (record { part = result.0.0; bytes = result.1.now }) }
    {
        let lent = self.items[n];
        (lent.part, lent.bytes)
    }

    /// The bytes of a part, where it is there.
    pub fn get(&self, part: Part) -> Option<&'a [u8]>
        ensures { option_copied result ≡ held self.now part.0 }
    {
        for lent in &self.items {
            if lent.part.0 == part.0 {
                return Some(lent.bytes);
            }
        }
        None
    }

    /// Appends a part that is not there. After an error the list is as before.
    pub fn push(&mut self, part: Part, bytes: &'a [u8]) -> Result<(), AllocError>
        requires { IsNone (held self.old part.0) }
        ensures ok { OnOk result (self.new ≡ self.old ++ record { part = part.0; bytes = bytes.now } ∷ []) }
        ensures err { OnErr result (self.new ≡ self.old) }
    {
        self.items.push(LentPart { part, bytes })?;
        Ok(())
    }
}

/// A file of a package's folder with bytes of its own.
#[derive(Drop)]
struct OwnedPart {
    part: Part,
    bytes: Vec<u8>,
}

/// The files of a package's folder with bytes of their own: a list of parts and their bytes, each
/// part at most once, in the order in which they were put (section 6.1 of the specification).
#[derive(Drop)]
pub struct OwnedParts {
    items: Vec<OwnedPart>,
}

impl Model for OwnedParts {
    ghost use Rattle.std.specs.Prelude.{List};
    ghost use Rattle.cap_components.specs.Parts.{Lent};

    ghost Value = { List Lent };

    ghost use Rattle.cap_components.specs.Inside.{owned_list};
    ghost use Rattle.cap_components.specs.Parts.{HasEachOnce};

    ghost view = { λ p. owned_list p.items.items };

    ghost invariant = { λ p. HasEachOnce (owned_list p.items.items) };
}

impl OwnedParts {
    /// No part.
    pub fn new(alloc: Global) -> OwnedParts
        ensures { result ≡ [] }
    {
        OwnedParts {
            items: Vec::new(alloc),
        }
    }

    /// How many parts there are.
    pub fn len(&self) -> usize
        ensures { result ≡ length self.now }
    {
        self.items.len()
    }

    /// The n-th part and its bytes.
    pub fn at(&self, n: usize) -> (Part, &[u8])
        requires { n < length self.now }
        ensures { slice_get self.now n ≡ Some (record { part = result.0.0; bytes = result.1.now }) }
    {
        let owned = &self.items[n];
        (owned.part, &owned.bytes)
    }

    /// The bytes of a part, where it is there.
    pub fn get(&self, part: Part) -> Option<&[u8]>
        ensures { option_copied result ≡ held self.now part.0 }
    {
        for owned in &self.items {
            if owned.part.0 == part.0 {
                return Some(&owned.bytes);
            }
        }
        None
    }

    /// Appends a part that is not there. After an error the list is as before, and the bytes are
    /// dropped.
    pub fn put(&mut self, part: Part, bytes: Vec<u8>) -> Result<(), AllocError>
        requires { IsNone (held self.old part.0) }
        ensures ok { OnOk result (self.new ≡ self.old ++ record { part = part.0; bytes = bytes.items } ∷ []) }
        ensures err { OnErr result (self.new ≡ self.old) }
    {
        self.items.push(OwnedPart { part, bytes })?;
        Ok(())
    }

    /// The same list, borrowed.
    pub fn lend(&self, alloc: Global) -> Result<Parts<'_>, AllocError>
        ensures { IfOk result (λ parts. parts ≡ self.now) }
    {
        let mut items = Vec::new(alloc);
        for owned in &self.items {
            items.push(LentPart {
                part: owned.part,
                bytes: &owned.bytes,
            })?;
        }
        Ok(Parts { items })
    }
}
