ghost use Rattle.std.specs.Prelude.{◌≡◌, ◌≤◌, ◌+◌, [], length, IfOk, OnOk, OnErr};
ghost use Rattle.jc_control.specs.Method.{IsMethodOf};
ghost use Rattle.xf_homes.specs.Subject.{walked};
ghost use Rattle.xf_homes.specs.Plan.{register, home_of, local, needed, cells_from, stack_homes, depth, is_leader, operation};
ghost use Rattle.xf_homes.specs.PlannedMethod.{source};

use crate::{Home, HomeWalk, Homes, value_at};
use indexmap::IndexSet;
use jc_base::Ty;
use jc_decode::Placed;
use jc_ops::{Operation, RuleFault, Site, resolve};
use std::alloc::{AllocError, Global};

/// The homes of a method by place, as its least typing tells them.
#[derive(Clone, Copy)]
pub struct Plan<'a> {
    pub walk: HomeWalk<'a>,
    pub homes: &'a Homes,
}

/// The home of a value at a slot.
pub fn home_of(slot: u16, value: Option<Ty>) -> Option<Home>
    ensures { result ≡ home_of slot value }
{
    value.map(|ty| Home { slot, ty })
}

/// The homes of the values that begin with the cells of a stack, the bottom first, at slots from a slot on.
fn cells_from(alloc: Global, slot: u16, cells: &[Ty]) -> Result<Vec<Home>, AllocError>
    requires few { slot + length cells.now ≤ 65535 }
    ensures { IfOk result (λ hs. hs.items ≡ cells_from slot cells.now 0 (length cells.now)) }
{
    let mut homes = Vec::new(alloc);
    'cells: for n in 0..cells.len() as u16 {
        let Some(home) = home_of(slot + n, value_at(cells, n)) else {
            continue;
        };
        homes.push(home)?;
    }
    Ok(homes)
}

impl Plan<'_> {
    /// The register of a home, of an int the first of two.
    pub fn register(&self, home: Home) -> u8
        ensures { result ≡ register (source self.now) home }
    {
        self.homes.register(home.slot, home.ty).unwrap_or(0)
    }

    /// The home in which a local stands at a place that control reaches, where it has a type.
    pub fn local(&self, place: u16, x: u16) -> Option<Home>
        ensures { result ≡ local (source self.now) place x }
    {
        home_of(x, self.walk.local(place, x))
    }

    /// The homes in which a local has to stand at a place, that of its type there first, in place of what the list had. Where
    /// there is no memory the list is empty.
    #[tactic(auto, unfolding(crate::specs::Plan::needed))]
    pub fn needed(&self, place: u16, x: u16, to: &mut IndexSet<Home>) -> Result<(), AllocError>
        ensures is { OnOk result (to.new.keys ≡ needed (source self.now) place x) }
        ensures empty { OnErr result (to.new.keys ≡ []) }
    {
        to.clear();
        self.walk.keep_local(to, place, x)
    }

    /// The homes of the values on the stack at a place, the bottom first.
    #[tactic(auto, unfolding(crate::specs::Plan::stack_homes))]
    pub fn stack_homes(&self, alloc: Global, place: u16) -> Result<Vec<Home>, AllocError>
        ensures { IfOk result (λ hs. hs.items ≡ stack_homes (source self.now) place) }
    {
        match self.walk.typing.state(place) {
            Some(state) => cells_from(alloc, self.walk.registers(), state.stack()),
            None => Ok(Vec::new(alloc)),
        }
    }

    /// The depth of the stack at a place, in cells.
    pub fn depth(&self, place: u16) -> u16
        ensures is { result ≡ depth (source self.now) place }
        ensures few { result ≤ 255 }
    {
        match self.walk.typing.state(place) {
            Some(state) => state.stack().len() as u16,
            None => 0,
        }
    }

    /// Whether control comes together at the place.
    pub fn is_leader(&self, place: u16) -> bool
        ensures { result ≡ is_leader (source self.now) place }
    {
        self.walk.control.is_leader(place)
    }

    /// The operation of the instruction at a place.
    pub fn operation(&self, placed: Placed) -> Result<Operation, RuleFault>
        requires { IsMethodOf self.now.walk.world.now (walked self.now.walk) }
        ensures { result ≡ operation (source self.now) placed }
    {
        let site = Site {
            method: self.walk.number,
            place: placed.place,
        };
        resolve(self.walk.world, site, placed.insn)
    }
}
