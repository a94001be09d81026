ghost use Rattle.std.specs.Prelude.{◌≡◌, ◌<◌, ◌≤◌, ◌-◌, [], ◌∷◌, ◌++◌, List, IfOk, OnOk, OnErr, Some, length, slice_get, take};
ghost use Rattle.cap_components.specs.PackageRecord.{PackageRecord};
ghost use Rattle.cap_package.specs.PackagesLeft.{packages_left};
ghost use Rattle.std.specs.Iterator.{YieldsFirstRef, item_count};

use cap_bytes::View;
use cap_components::Components;
use std::alloc::{AllocError, Global};
use std::marker::Model;

/// Packages in the order of a command's folders: a list.
#[derive(Drop)]
pub struct Packages<'p, 'a> {
    items: Vec<Package<'p, 'a>>,
}

impl<'p, 'a> Model for Packages<'p, 'a> {
    ghost use Rattle.std.specs.Prelude.{List};
    ghost use Rattle.cap_components.specs.PackageRecord.{PackageRecord};

    ghost Value = { List PackageRecord };

    ghost view = { λ p. p.items.items };
}

impl<'p, 'a> Packages<'p, 'a> {
    /// No package.
    pub fn new(alloc: Global) -> Packages<'p, 'a>
        ensures { result ≡ [] }
    {
        Packages {
            items: Vec::new(alloc),
        }
    }

    /// How many packages there are.
    pub fn len(&self) -> usize
        ensures { result ≡ length self.now }
    {
        self.items.len()
    }

    /// The n-th package.
    pub fn at(&self, n: usize) -> &Package<'p, 'a>
        requires { n < length self.now }
        ensures { slice_get self.now n ≡ Some result.now }
    {
        &self.items[n]
    }

    /// The packages in order.
    pub fn iter(&self) -> PackagesIter<'_, 'p, 'a>
        ensures { packages_left result ≡ self.now }
    {
        PackagesIter {
            packages: self.items.as_slice(),
            given: 0,
        }
    }

    /// Those before the n-th, in order.
    pub fn before(&self, n: usize) -> PackagesIter<'_, 'p, 'a>
        requires { n ≤ length self.now }
        ensures { packages_left result ≡ take n self.now }
    {
        PackagesIter {
            packages: &self.items.as_slice()[..n],
            given: 0,
        }
    }

    /// Appends a package. After an error the list is as before.
    pub fn push(&mut self, package: Package<'p, 'a>) -> Result<(), AllocError>
        ensures ok { OnOk result (self.new ≡ self.old ++ «package».entry ∷ []) }
        ensures err { OnErr result (self.new ≡ self.old) }
    {
        self.items.push(package)?;
        Ok(())
    }

    /// All packages but the last, in their order; of no packages none.
    pub fn libraries(&self, alloc: Global) -> Result<Packages<'p, 'a>, AllocError>
        ensures is { IfOk result (λ kept. kept ≡ take (length self.now - 1) self.now) }
        // Those before the last, where there is one.
        ensures before { IfOk result
            (λ kept.
            (libraries : List PackageRecord) (last : PackageRecord)
            → self.now ≡ libraries ++ last ∷ []
            → kept ≡ libraries) }
    {
        let mut libraries = Packages::new(alloc);
        let kept = &self.items.as_slice()[..self.items.len().saturating_sub(1)];
        'packages: for package in kept {
            libraries.push(Package { all: package.all })?;
        }
        Ok(libraries)
    }
}

/// Packages in order: those that are left.
#[derive(Clone, Copy)]
pub struct PackagesIter<'x, 'p, 'a> {
    pub(crate) packages: &'x [Package<'p, 'a>],
    /// How many were given.
    pub(crate) given: usize,
}

impl<'x, 'p, 'a> Iterator for PackagesIter<'x, 'p, 'a> {
    type Item = &'x Package<'p, 'a>;

    ghost next_gives = { YieldsFirstRef packages_left };

    ghost remaining = { item_count packages_left };

    #[tactic(auto, using(crate::proofs::Given::giving))]
    fn next(&mut self) -> Option<&'x Package<'p, 'a>> {
        let packages = self.packages;
        let package = packages.get(self.given)?;
        self.given += 1;
        Some(package)
    }
}

/// A custom component of a package.
#[derive(Clone, Copy)]
pub struct Custom<'a> {
    /// 5 to 16 bytes.
    pub aid: &'a [u8],
    /// Its info, which is empty where the Directory gives it the size 0 and it is absent.
    pub info: View<'a>,
}

/// A package whose parts agree (chapter 6 of the specification). It borrows its parts.
#[derive(Drop)]
pub struct Package<'p, 'a> {
    pub(crate) all: Components<'p, 'a>,
}

impl<'p, 'a> Model for Package<'p, 'a> {
    ghost use Rattle.cap_components.specs.PackageRecord.{PackageRecord};

    ghost Value = { PackageRecord };

    ghost use Rattle.cap_components.specs.ComponentsSeen.{components_seen};
    ghost use Rattle.cap_components.specs.Infos.{HaveInfos};
    ghost use Rattle.cap_package.specs.Agreement.{IsPackage};

    ghost view = { λ p. components_seen p.all };

    ghost invariant = { λ p. IsPackage (components_seen p.all) × HaveInfos p.all };
}
