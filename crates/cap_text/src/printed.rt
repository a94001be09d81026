ghost use Rattle.std.specs.Prelude.{Some};
ghost use Rattle.cap_text.specs.Printed.{printed_text};

use crate::fault::Shown;
use std::fmt;

/// A fault by its name and its numbers, in the order of its fields. A fault of a format has the name of
/// its kind last.
#[derive(Clone, Copy)]
pub(crate) enum Printed {
    Alone(&'static str),
    One(&'static str, u64),
    Two(&'static str, u64, u64),
    Three(&'static str, u64, u64, u64),
    Kind(&'static str, u64, u64, &'static str),
}

impl fmt::Display for Shown<Printed> {
    ghost output = { λ x. Some (printed_text x.0) };

    fn fmt<W: fmt::Write>(&self, f: &mut fmt::Formatter<W>) -> fmt::Result {
        match self.0 {
            Printed::Alone(name) => f.write_str(name),
            Printed::One(name, a) => write!(f, "{name} {a}"),
            Printed::Two(name, a, b) => write!(f, "{name} {a} {b}"),
            Printed::Three(name, a, b, c) => write!(f, "{name} {a} {b} {c}"),
            Printed::Kind(name, a, b, kind) => write!(f, "{name} {a} {b} {kind}"),
        }
    }
}
