ghost use Rattle.std.specs.Prelude.{◌≡◌};
ghost use Rattle.vm_store.specs.Cells.{Cells, tagged, words, zero_cell, loaded_as};

use crate::cell::{Cell, CellKind};

/// A form in which a machine keeps a cell: tagged with its kind, or as a bare word of 16 bits.
pub trait CellForm: Copy {
    ghost cells: { Cells Self };

    /// Whether a machine of such cells tests what it does.
    fn checks() -> bool
        ensures { result ≡ cells.checks };

    /// The 16 bits of the cell: a short, one half of an int, or a handle.
    fn word(self) -> u16
        ensures { result ≡ cells.word self };

    /// A register that no argument fills.
    fn empty() -> Self
        ensures { result ≡ cells.empty };

    fn short(number: i16) -> Self
        ensures { result ≡ cells.short number };

    /// The high 16 bits of an int.
    fn high(bits: u16) -> Self
        ensures { result ≡ cells.high bits };

    /// The low 16 bits of an int.
    fn low(bits: u16) -> Self
        ensures { result ≡ cells.low bits };

    fn reference(handle: u16) -> Self
        ensures { result ≡ cells.reference handle };

    /// A reference to an object on which no constructor was called yet.
    fn fresh(handle: u16, place: u16) -> Self
        ensures { result ≡ cells.fresh handle place };

    /// As a load pushes it: an empty register is read as zero or null.
    fn loaded(self, kind: CellKind) -> Self
        ensures { result ≡ cells.loaded kind self };

    /// Once a constructor was called on the object that the `new` at the place made.
    fn ready(self, place: u16) -> Self
        ensures { result ≡ cells.ready place self };
}

/// The cell of a new object: zero or null.
pub fn zero<C: CellForm>(kind: CellKind) -> C
    ensures { result ≡ zero_cell C.cells kind }
{
    match kind {
        CellKind::Reference => C::reference(0),
        CellKind::Short => C::short(0),
        CellKind::High => C::high(0),
        CellKind::Low => C::low(0),
    }
}

impl CellForm for Cell {
    ghost cells = { tagged };

    fn checks() -> bool {
        true
    }

    fn word(self) -> u16 {
        match self {
            Cell::Empty => 0,
            Cell::Short(number) => number.cast_unsigned(),
            Cell::High(bits) | Cell::Low(bits) => bits,
            Cell::Ref(handle) | Cell::Fresh { handle, .. } => handle,
        }
    }

    fn empty() -> Cell {
        Cell::Empty
    }

    fn short(number: i16) -> Cell {
        Cell::Short(number)
    }

    fn high(bits: u16) -> Cell {
        Cell::High(bits)
    }

    fn low(bits: u16) -> Cell {
        Cell::Low(bits)
    }

    fn reference(handle: u16) -> Cell {
        Cell::Ref(handle)
    }

    fn fresh(handle: u16, place: u16) -> Cell {
        Cell::Fresh { handle, place }
    }

    fn loaded(self, kind: CellKind) -> Cell {
        match self {
            Cell::Empty => read_empty(kind),
            held => held,
        }
    }

    fn ready(self, place: u16) -> Cell {
        match self {
            Cell::Fresh {
                handle,
                place: made_at,
            } if made_at == place => Cell::Ref(handle),
            held => held,
        }
    }
}

/// An empty register, as a load for a kind reads it.
fn read_empty(kind: CellKind) -> Cell
    ensures { result ≡ loaded_as kind Cell.Empty }
{
    match kind {
        CellKind::Reference => Cell::Ref(0),
        CellKind::Short => Cell::Short(0),
        CellKind::High => Cell::High(0),
        CellKind::Low => Cell::Low(0),
    }
}

impl CellForm for u16 {
    ghost cells = { words };

    fn checks() -> bool {
        false
    }

    fn word(self) -> u16 {
        self
    }

    fn empty() -> u16 {
        0
    }

    fn short(number: i16) -> u16 {
        number.cast_unsigned()
    }

    fn high(bits: u16) -> u16 {
        bits
    }

    fn low(bits: u16) -> u16 {
        bits
    }

    fn reference(handle: u16) -> u16 {
        handle
    }

    fn fresh(handle: u16, _place: u16) -> u16 {
        handle
    }

    fn loaded(self, _kind: CellKind) -> u16 {
        self
    }

    fn ready(self, _place: u16) -> u16 {
        self
    }
}
