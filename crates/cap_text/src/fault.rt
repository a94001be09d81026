ghost use Rattle.std.specs.Prelude.{◌≡◌, Some};
ghost use Rattle.cap_text.specs.Fault.{form_kind_name, pack_fault_text, stream_fault_text};
ghost use Rattle.cap_text.specs.Printed.{printed_text};

use crate::printed::Printed;
use cap_bytes::FormKind;
use cap_load::StreamFault;
use cap_package::PackFault;
use std::fmt;

/// A value as capcheck prints it: the variant's name, and then its numbers and names, each after
/// one space.
#[derive(Clone, Copy)]
pub struct Shown<T>(pub T);

impl fmt::Display for Shown<PackFault> {
    ghost output = { λ x. Some (pack_fault_text x.0) };

    fn fmt<W: fmt::Write>(&self, f: &mut fmt::Formatter<W>) -> fmt::Result {
        write!(f, "{}", Shown(printed(self.0)))
    }
}

fn printed(fault: PackFault) -> Printed
    ensures { printed_text result ≡ pack_fault_text fault }
{
    match fault {
        PackFault::Form(form) => {
            Printed::Kind(
                "Form",
                form.part as u64,
                form.at as u64,
                kind_name(form.kind),
            )
        }
        PackFault::MissingPart(part) => Printed::One("MissingPart", part as u64),
        PackFault::SizeDisagrees(part, said, found) => {
            Printed::Three("SizeDisagrees", part as u64, said as u64, found as u64)
        }
        PackFault::MethodOverlaps(first, second) => {
            Printed::Two("MethodOverlaps", first as u64, second as u64)
        }
        PackFault::MethodOutside(at) => Printed::One("MethodOutside", at as u64),
        PackFault::CountDisagrees(what, said, found) => {
            Printed::Three(
                "CountDisagrees",
                what.number() as u64,
                said as u64,
                found as u64,
            )
        }
        PackFault::HandlerOutside(number) => Printed::One("HandlerOutside", number as u64),
        PackFault::StaticOverlaps(first, second) => {
            Printed::Two("StaticOverlaps", first as u64, second as u64)
        }
        PackFault::NoMethodAt(at) => Printed::One("NoMethodAt", at as u64),
        PackFault::ClassUndescribed(at) => Printed::One("ClassUndescribed", at as u64),
        PackFault::TooManyRegisters(at, n) => Printed::Two("TooManyRegisters", at as u64, n as u64),
        PackFault::BadType(at) => Printed::One("BadType", at as u64),
        PackFault::StaticOutside(at) => Printed::One("StaticOutside", at as u64),
        PackFault::MethodLength(at, n) => Printed::Two("MethodLength", at as u64, n as u64),
        PackFault::NoStaticAt(at) => Printed::One("NoStaticAt", at as u64),
        PackFault::PartTooLong(part) => Printed::One("PartTooLong", part as u64),
    }
}

impl fmt::Display for Shown<StreamFault> {
    ghost output = { λ x. Some (stream_fault_text x.0) };

    fn fmt<W: fmt::Write>(&self, f: &mut fmt::Formatter<W>) -> fmt::Result {
        write!(f, "{}", Shown(printed_stream(self.0)))
    }
}

fn printed_stream(fault: StreamFault) -> Printed
    ensures { printed_text result ≡ stream_fault_text fault }
{
    match fault {
        StreamFault::NoTag(tag) => Printed::One("NoTag", tag as u64),
        StreamFault::Order(first, second) => Printed::Two("Order", first as u64, second as u64),
        StreamFault::Full(room) => Printed::One("Full", room as u64),
        StreamFault::AfterEnd => Printed::Alone("AfterEnd"),
        StreamFault::Unfinished => Printed::Alone("Unfinished"),
    }
}

fn kind_name(kind: FormKind) -> &'static str
    ensures { result.now ≡ form_kind_name kind }
{
    match kind {
        FormKind::Cut => "Cut",
        FormKind::WrongTag => "WrongTag",
        FormKind::BadMagic => "BadMagic",
        FormKind::BadVersion => "BadVersion",
        FormKind::Trailing => "Trailing",
        FormKind::BadValue => "BadValue",
        FormKind::Remote => "Remote",
    }
}
