ghost use Rattle.std.specs.Prelude.{◌≡◌, ◌↔◌, ℕ, ◌+◌, ◌≤◌};
ghost use Rattle.jc_rules.specs.Footprint.{registers_asked};
ghost use Rattle.jc_rules.specs.Rule.{demands};
ghost use Rattle.xf_allot.specs.Uses.{IsIn, AreUsesOf, read_by, size, words, written_by};
ghost use Rattle.xf_live.specs.Set.{Has};

use jc_base::World;
use jc_ops::{Holder, Operation, Sort, Width};
use xf_live::{RegisterSet, Uses};

/// Registers one after the other.
#[derive(Clone, Copy)]
pub(crate) struct Span {
    pub(crate) first: u8,
    pub(crate) count: u8,
}

/// What a node reads and writes that reads and writes nothing.
pub(crate) fn no_uses() -> Uses
    ensures reads { (x : ℕ) → ¬ (Has result.reads x) }
    ensures writes { (x : ℕ) → ¬ (Has result.writes x) }
{
    Uses {
        reads: RegisterSet::new(),
        writes: RegisterSet::new(),
    }
}

/// The registers that an operation reads, and those that it writes.
pub(crate) fn uses_of(world: &World<'_>, operation: Operation) -> Uses
    requires { registers_asked (demands world.now operation) ≤ 255 }
    ensures { AreUsesOf world.now operation result }
{
    let _ = world;
    Uses {
        reads: set_of(read_by(operation)),
        writes: set_of(written_by(operation)),
    }
}

// The registers that it reads.
fn read_by(operation: Operation) -> Span
    ensures { result ≡ read_by operation }
{
    match operation {
        Operation::Load(sort, register) => Span {
            first: register,
            count: words(sort),
        },
        Operation::Increment {
            width,
            register,
            ..
        } => Span {
            first: register,
            count: size(width),
        },
        Operation::FieldRead(_, Holder::This) | Operation::FieldWrite(_, Holder::This) => {
            Span { first: 0, count: 1 }
        }
        _ => Span { first: 0, count: 0 },
    }
}

// The registers that it writes.
fn written_by(operation: Operation) -> Span
    ensures { result ≡ written_by operation }
{
    match operation {
        Operation::Store(sort, register) => Span {
            first: register,
            count: words(sort),
        },
        Operation::Increment {
            width,
            register,
            ..
        } => Span {
            first: register,
            count: size(width),
        },
        _ => Span { first: 0, count: 0 },
    }
}

// How many registers a value takes.
fn words(sort: Sort) -> u8
    ensures { result ≡ words sort }
{
    match sort {
        Sort::Int => 2,
        _ => 1,
    }
}

// How many registers a number takes.
fn size(width: Width) -> u8
    ensures { result ≡ size width }
{
    match width {
        Width::Short => 1,
        Width::Int => 2,
    }
}

// These registers.
pub(crate) fn set_of(span: Span) -> RegisterSet
    requires { span.first + span.count ≤ 255 }
    ensures { (x : ℕ) → Has result x ↔ IsIn span x }
{
    let mut set = RegisterSet::new();
    'registers: for register in span.first..span.first + span.count {
        set = set.with(register);
    }
    set
}
