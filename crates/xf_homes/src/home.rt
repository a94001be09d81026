ghost use Rattle.std.specs.Prelude.{◌≡◌, slice_get};
ghost use Rattle.xf_homes.specs.Hashed.{home_code, type_code};
ghost use Rattle.xf_homes.specs.Value.{type_width, value_of, value_in_cells};
ghost use Rattle.xf_homes.specs.Walk.{same_home};

use jc_base::{Ty, same_type};
use std::hash::{Hash, Hasher};

/// A slot and the type of a value that is kept there. The slots are the registers of the method and, after them, the
/// cells of its stack from the bottom; an int stands at the slot of its high half, as `IntHigh`.
#[derive(Clone, Copy)]
pub struct Home {
    pub slot: u16,
    pub ty: Ty,
}

impl Home {
    /// The number of registers that it takes.
    pub fn width(self) -> u8
        ensures { result ≡ type_width self.ty }
    {
        match self.ty {
            Ty::IntHigh => 2,
            _ => 1,
        }
    }

    /// Whether both are the same.
    pub fn is(self, other: Home) -> bool
        ensures { result ≡ same_home self other }
    {
        self.slot == other.slot && same_type(self.ty, other.ty)
    }
}

impl PartialEq for Home {
    ghost use Rattle.xf_homes.specs.Walk.{same_home};
    ghost use Rattle.xf_homes.specs.Equal.{homes-partial};

    ghost eq = { λ a b. same_home b a };

    ghost laws = { homes-partial };

    fn eq(&self, other: &Home) -> bool {
        other.is(*self)
    }
}

impl Eq for Home {
    ghost use Rattle.xf_homes.specs.Equal.{homes-equivalence};

    ghost laws = { homes-equivalence };
}

/// A number by which types mostly differ.
fn type_code(ty: Ty) -> u32
    ensures { result ≡ type_code ty }
{
    match ty {
        Ty::Class(class) => u32::from(class),
        Ty::ArrRef(class) => 65536 + u32::from(class),
        Ty::Fresh { place, .. } => 131072 + u32::from(place),
        Ty::Short => 196608,
        Ty::IntHigh => 196609,
        Ty::Null => 196610,
        Ty::ArrBool => 196611,
        Ty::ArrByte => 196612,
        Ty::ArrShort => 196613,
        Ty::ArrInt => 196614,
        _ => 196615,
    }
}

// Slot and type in one write, which takes half the time of two.
impl Hash for Home {
    ghost use Rattle.std.specs.Hash as fed;
    ghost use Rattle.xf_homes.specs.declared.home.Home.{Home};
    ghost use Rattle.xf_homes.specs.Hashed.{home_code};
    ghost use Rattle.xf_homes.specs.Equal.{homes-coded};

    ghost hash_input = { λ (home : Home). fed.u64 (home_code home) };

    ghost respects_eq = { homes-coded };

    fn hash<H: Hasher>(&self, state: &mut H) {
        state.write_u64(u64::from(self.slot) * 262144 + u64::from(type_code(self.ty)));
    }
}

/// The value that begins with a cell, by its type and that of the next, if one does.
pub fn value_of(first: Option<Ty>, next: Option<Ty>) -> Option<Ty>
    ensures { result ≡ value_of first next }
{
    match first {
        Some(Ty::IntHigh) => match next {
            Some(Ty::IntLow) => Some(Ty::IntHigh),
            _ => None,
        },
        Some(Ty::IntLow | Ty::Top) => None,
        other => other,
    }
}

fn cell_at(cells: &[Ty], n: usize) -> Option<Ty>
    ensures { result ≡ slice_get cells.now n }
{
    cells.get(n).copied()
}

/// The value that begins with the cell of this number, if one does.
#[tactic(auto, unfolding(crate::specs::Value::value_in_cells))]
pub fn value_at(cells: &[Ty], n: u16) -> Option<Ty>
    ensures { result ≡ value_in_cells cells.now n }
{
    let n = n as usize;
    value_of(cell_at(cells, n), cell_at(cells, n + 1))
}
