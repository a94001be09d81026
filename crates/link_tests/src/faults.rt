ghost use Rattle.link_tests.specs.Told.{numbers_of, HasNumbers, TellsNumbers};

use jc_resolve::{LinkEnd, LinkFault};

/// A fault's name and what it names.
pub type Told = (&'static str, u32, u32);

#[tactic(auto, unfolding(crate::specs::Told::numbers_of))]
fn named_fault(fault: LinkFault) -> Told
    ensures { HasNumbers (numbers_of fault) result }
{
    match fault {
        LinkFault::TooManyPackages(n) => ("TooManyPackages", n, 0),
        LinkFault::TooManyClasses(n) => ("TooManyClasses", n, 0),
        LinkFault::TooManyMethods(n) => ("TooManyMethods", n, 0),
        LinkFault::NoPackage(package, import) => ("NoPackage", package as u32, import as u32),
        LinkFault::NoClass(package, reference) => ("NoClass", package as u32, reference as u32),
        LinkFault::SuperIsInterface(class) => ("SuperIsInterface", class as u32, 0),
        LinkFault::Cycle(class) => ("Cycle", class as u32, 0),
        LinkFault::NoRole(role) => ("NoRole", role as u32, 0),
        LinkFault::NoSuper(class) => ("NoSuper", class as u32, 0),
        LinkFault::NotInterface(class, named) => ("NotInterface", class as u32, named as u32),
        LinkFault::Hole(class, token) => ("Hole", class as u32, token as u32),
        LinkFault::OverrideType(class, token) => ("OverrideType", class as u32, token as u32),
        LinkFault::InterfaceType(class, named) => ("InterfaceType", class as u32, named as u32),
        LinkFault::InstanceLong(class, cells) => ("InstanceLong", class as u32, cells),
        LinkFault::TooManyStatics(cells) => ("TooManyStatics", cells, 0),
        LinkFault::NoMember(package, entry) => ("NoMember", package as u32, entry as u32),
        LinkFault::BadCatch(package, handler) => ("BadCatch", package as u32, handler as u32),
        LinkFault::NoRoom(n) => ("NoRoom", n, 0),
        LinkFault::RoleAbstract(role) => ("RoleAbstract", role as u32, 0),
    }
}

/// Why packages were not linked: the fault's name and what it names.
pub fn named(end: LinkEnd) -> Told
    ensures { TellsNumbers end result }
{
    match end {
        LinkEnd::Fault(fault) => named_fault(fault),
        LinkEnd::Memory => ("Memory", 0, 0),
    }
}
