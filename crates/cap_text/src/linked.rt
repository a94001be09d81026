ghost use Rattle.std.specs.Prelude.{◌≡◌, Some};
ghost use Rattle.cap_text.specs.Linked.{link_fault_text};
ghost use Rattle.cap_text.specs.Printed.{printed_text};

use crate::fault::Shown;
use crate::printed::Printed;
use jc_link::LinkFault;
use std::fmt;

impl fmt::Display for Shown<LinkFault> {
    ghost output = { λ x. Some (link_fault_text x.0) };

    fn fmt<W: fmt::Write>(&self, f: &mut fmt::Formatter<W>) -> fmt::Result {
        write!(f, "{}", Shown(printed(self.0)))
    }
}

fn printed(fault: LinkFault) -> Printed
    ensures { printed_text result ≡ link_fault_text fault }
{
    match fault {
        LinkFault::TooManyPackages(n) => Printed::One("TooManyPackages", n as u64),
        LinkFault::TooManyClasses(n) => Printed::One("TooManyClasses", n as u64),
        LinkFault::TooManyMethods(n) => Printed::One("TooManyMethods", n as u64),
        LinkFault::NoPackage(home, import) => Printed::Two("NoPackage", home as u64, import as u64),
        LinkFault::NoClass(home, reference) => {
            Printed::Two("NoClass", home as u64, reference as u64)
        }
        LinkFault::SuperIsInterface(class) => Printed::One("SuperIsInterface", class as u64),
        LinkFault::Cycle(class) => Printed::One("Cycle", class as u64),
        LinkFault::NoRole(role) => Printed::One("NoRole", role as u64),
        LinkFault::NoSuper(class) => Printed::One("NoSuper", class as u64),
        LinkFault::NotInterface(class, other) => {
            Printed::Two("NotInterface", class as u64, other as u64)
        }
        LinkFault::Hole(class, token) => Printed::Two("Hole", class as u64, token as u64),
        LinkFault::OverrideType(class, token) => {
            Printed::Two("OverrideType", class as u64, token as u64)
        }
        LinkFault::InterfaceType(class, other) => {
            Printed::Two("InterfaceType", class as u64, other as u64)
        }
        LinkFault::InstanceLong(class, n) => Printed::Two("InstanceLong", class as u64, n as u64),
        LinkFault::TooManyStatics(n) => Printed::One("TooManyStatics", n as u64),
        LinkFault::NoMember(home, entry) => Printed::Two("NoMember", home as u64, entry as u64),
        LinkFault::BadCatch(home, handler) => Printed::Two("BadCatch", home as u64, handler as u64),
        LinkFault::NoRoom(n) => Printed::One("NoRoom", n as u64),
        LinkFault::RoleAbstract(role) => Printed::One("RoleAbstract", role as u64),
    }
}
