ghost use Rattle.std.specs.Prelude.{◌≡◌};
ghost use Rattle.jc_resolve.specs.Described.{place_at};
ghost use Rattle.jc_resolve.specs.Fault.{link_place};

use first_fault::{Fault, Place};
use std::alloc::AllocError;
use std::hash::{Hash, Hasher};

/// Where a record stands: its package, and its offset in a component of it.
#[derive(Clone, Copy, PartialEq, Eq)]
pub struct RecordPlace {
    pub package: u16,
    pub offset: u16,
}

impl RecordPlace {
    /// Where a record stands of a package that stands for itself.
    pub(crate) fn of_own(offset: u16) -> RecordPlace
        ensures { result ≡ place_at offset }
    {
        RecordPlace { package: 0, offset }
    }
}

// Both numbers in one write, which takes half the time of two.
impl Hash for RecordPlace {
    ghost use Rattle.std.specs.Prelude.{◌+◌, ◌*◌};
    ghost use Rattle.std.specs.Hash as fed;
    ghost use Rattle.std.specs.Cmp.Rules.{hashing};
    ghost use Rattle.std.proofs.Common.{rules};
    ghost use Rattle.jc_resolve.specs.declared.fault.RecordPlace.{RecordPlace};

    ghost hash_input = { λ (place : RecordPlace). fed.u32 (place.«package» * 65536 + place.offset) };

    ghost respects_eq = { Prim.search (hashing, rules) };

    fn hash<H: Hasher>(&self, state: &mut H) {
        state.write_u32(self.package as u32 * 65536 + self.offset as u32);
    }
}

/// Why packages and roles make no world: the first condition that is broken, at the least thing that
/// breaks it. Classes and packages are named by their numbers.
#[derive(Clone, Copy)]
pub enum LinkFault {
    /// So many packages: none, or more than 16.
    TooManyPackages(u32),
    /// So many classes, above 4,096.
    TooManyClasses(u32),
    /// So many methods, above 32,768.
    TooManyMethods(u32),
    /// The package, and the position of an import that no earlier package meets.
    NoPackage(u16, u8),
    /// The package, and a class reference in it that names no class.
    NoClass(u16, u16),
    /// The superclass of this class is an interface.
    SuperIsInterface(u16),
    /// A class that is its own ancestor, or an interface that is its own superinterface.
    Cycle(u16),
    /// The role of this number has no class that can have it.
    NoRole(u8),
    /// A class without superclass that is not object, or object with one.
    NoSuper(u16),
    /// The class, and a class that it names as an interface.
    NotInterface(u16, u16),
    /// The class, and the token of a dispatch entry without a method; of a package-visible entry 128 and
    /// its position.
    Hole(u16, u16),
    /// The class, and the token of a dispatch entry whose signature is not the superclass's.
    OverrideType(u16, u16),
    /// The class, and an interface that it does not serve.
    InterfaceType(u16, u16),
    /// The class, and the number of its cells, above 32,767.
    InstanceLong(u16, u32),
    /// So many static cells, above 32,768.
    TooManyStatics(u32),
    /// The package, and the number of a pool entry that does not have exactly one member.
    NoMember(u16, u16),
    /// The package, and the number of a handler that catches no class below throwable.
    BadCatch(u16, u16),
    /// The initial arrays do not fit: their number, or else their cells.
    NoRoom(u32),
    /// The class of this role is not concrete.
    RoleAbstract(u8),
}

/// Why packages were not linked.
#[derive(Clone, Copy)]
pub enum LinkEnd {
    Fault(LinkFault),
    Memory,
}

impl From<AllocError> for LinkEnd {
    ghost use Rattle.std.specs.Prelude.{◌≡◌};
    ghost use Rattle.jc_resolve.specs.declared.fault.LinkEnd.TheVariants.{Memory};

    ghost from_gives = { λ _ e. e ≡ Memory };

    fn from(_error: AllocError) -> LinkEnd {
        LinkEnd::Memory
    }
}

impl From<LinkFault> for LinkEnd {
    ghost use Rattle.std.specs.Prelude.{◌≡◌};
    ghost use Rattle.jc_resolve.specs.declared.fault.LinkEnd.TheVariants.{Fault};

    ghost from_gives = { λ f e. e ≡ Fault f };

    fn from(fault: LinkFault) -> LinkEnd {
        LinkEnd::Fault(fault)
    }
}

impl Fault for LinkFault {
    ghost place_of = { link_place };

    #[tactic(auto, unfolding(crate::specs::Fault::link_place))]
    fn place(self) -> Place {
        match self {
            LinkFault::TooManyPackages(n) => Place::one(n),
            LinkFault::TooManyClasses(n) => Place::one(n),
            LinkFault::TooManyMethods(n) => Place::one(n),
            LinkFault::NoPackage(package, import) => Place::two(package as u32, import as u32),
            LinkFault::NoClass(package, reference) => Place::two(package as u32, reference as u32),
            LinkFault::SuperIsInterface(class) => Place::one(class as u32),
            LinkFault::Cycle(class) => Place::one(class as u32),
            LinkFault::NoRole(role) => Place::one(role as u32),
            LinkFault::NoSuper(class) => Place::one(class as u32),
            LinkFault::NotInterface(class, interface) => {
                Place::two(class as u32, interface as u32)
            }
            LinkFault::Hole(class, token) => Place::two(class as u32, token as u32),
            LinkFault::OverrideType(class, token) => Place::two(class as u32, token as u32),
            LinkFault::InterfaceType(class, interface) => {
                Place::two(class as u32, interface as u32)
            }
            LinkFault::InstanceLong(class, cells) => Place::two(class as u32, cells),
            LinkFault::TooManyStatics(cells) => Place::one(cells),
            LinkFault::NoMember(package, entry) => Place::two(package as u32, entry as u32),
            LinkFault::BadCatch(package, handler) => Place::two(package as u32, handler as u32),
            LinkFault::NoRoom(n) => Place::one(n),
            LinkFault::RoleAbstract(role) => Place::one(role as u32),
        }
    }
}
