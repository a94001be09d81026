ghost use Rattle.std.specs.Prelude.{◌≡◌, ◌≤◌, IfOk, slice_get};
ghost use Rattle.xf_homes.specs.Order.{register_sum, begins_from, IsCount};
ghost use Rattle.xf_homes.specs.Walk.{register_from};

use crate::home::Home;
use indexmap::IndexSet;
use jc_base::Ty;
use std::alloc::{AllocError, Global};
use std::marker::Model;

/// The homes of a method, in the order of their registers.
#[derive(Drop)]
pub struct Homes {
    homes: IndexSet<Home>,
    /// By number the first register of each.
    registers: Vec<u8>,
    count: u8,
}

impl Model for Homes {
    ghost use Rattle.std.specs.Prelude.{List};
    ghost use Rattle.xf_homes.specs.declared.home.Home.{Home};
    ghost use Rattle.xf_homes.specs.Order.{AreCounted};

    ghost Value = { List Home };

    ghost view = { λ a. a.homes.keys };

    ghost invariant = { λ a. AreCounted a.homes.keys a.registers.items a.count };
}

/// By number the first register of each home.
fn begins(alloc: Global, homes: &[Home]) -> Result<Vec<u8>, AllocError>
    requires { register_sum homes.now ≤ 255 }
    ensures { IfOk result (λ registers. registers.items ≡ begins_from 0 homes.now) }
{
    let mut registers = Vec::with_capacity(alloc, homes.len())?;
    let mut register = 0;
    'homes: for home in homes {
        registers.push(register)?;
        register += home.width();
    }
    Ok(registers)
}

fn register_at(registers: &[u8], number: usize) -> Option<u8>
    ensures { result ≡ slice_get registers.now number }
{
    registers.get(number).copied()
}

impl Homes {
    pub(crate) fn of(alloc: Global, homes: IndexSet<Home>, count: u8) -> Result<Homes, AllocError>
        requires { IsCount homes.keys count }
        ensures { IfOk result (λ found. found ≡ homes.keys) }
    {
        let registers = begins(alloc, homes.as_slice())?;
        Ok(Homes {
            homes,
            registers,
            count,
        })
    }

    /// The register of a home, the first of two for an int: where the homes before it end. No other pair has one.
    pub fn register(&self, slot: u16, ty: Ty) -> Option<u8>
        ensures { result ≡ register_from 0 self.now (record { slot = slot; ty = ty }) }
    {
        match self.homes.get_index_of(&Home { slot, ty }) {
            Some(number) => register_at(self.registers.as_slice(), number),
            None => None,
        }
    }

    /// How many registers the homes take.
    pub fn count(&self) -> u8
        ensures { result ≡ register_sum self.now }
    {
        self.count
    }
}
