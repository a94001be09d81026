ghost use Rattle.std.specs.Prelude.{◌≡◌, ◌↔◌, ◌<◌, length, IsTrue, IfOk};
ghost use Rattle.jc_control.specs.WellFormed.{IsPlace};
ghost use Rattle.vm_step.specs.Methods.{code_at, instruction_at};
ghost use Rattle.vm_step.specs.Settled.{is_there, is_target_place};
ghost use Rattle.vm_run.specs.Marked.{AreMarked};

use crate::known::code;
use jc_base::World;
use jc_control::{Flags, instruction_places};
use jc_decode::instructions_are_listed;
use std::alloc::{AllocError, Global};
use std::marker::Model;

/// For each method of a world, the places of its code at which an instruction begins: found once, so that a step
/// walks along no code.
#[derive(Drop)]
pub struct MarkedPlaces {
    methods: Vec<Flags>,
}

impl Model for MarkedPlaces {
    ghost use Rattle.std.specs.Prelude.{List, Bool};

    ghost Value = { List (List Bool) };

    ghost view = { λ a. a.methods.items };
}

impl MarkedPlaces {
    /// The places of all methods of a world.
    pub fn of(alloc: Global, world: &World<'_>) -> Result<MarkedPlaces, AllocError>
        ensures { IfOk result (λ p. AreMarked world.now p) }
    {
        let mut methods = Vec::with_capacity(alloc, world.method_count() as usize)?;
        'methods: for n in 0..world.method_count() {
            let flags = instruction_places(alloc, code(world, n))?;
            methods.push_reserved(flags);
        }
        Ok(MarkedPlaces { methods })
    }

    /// Whether the flag of a place of a method's code is set.
    fn is_marked(&self, world: &World<'_>, method: u16, place: u32) -> bool
        requires marked { AreMarked world.now self.now }
        requires known { method < length world.now.methods }
        ensures { IsTrue result ↔ IsPlace (code_at world.now method) place }
    {
        self.methods[method as usize].has(place)
    }

    /// Whether an instruction of a method's code begins at the place.
    pub fn has(&self, world: &World<'_>, method: u16, place: u32) -> bool
        requires marked { AreMarked world.now self.now }
        requires known { method < length world.now.methods }
        ensures is { IsTrue result ↔ IsPlace (code_at world.now method) place }
        ensures found { result ≡ is_there (instruction_at (code_at world.now method) place) }
    {
        instructions_are_listed();
        self.is_marked(world, method, place)
    }

    /// The same of a place that may lie before the code.
    pub fn has_target(&self, world: &World<'_>, method: u16, to: i64) -> bool
        requires marked { AreMarked world.now self.now }
        requires known { method < length world.now.methods }
        ensures { result ≡ is_target_place (code_at world.now method) to }
    {
        instructions_are_listed();
        let _short = code(world, method);
        if to < 0 || 65535 < to {
            return false;
        }
        self.has(world, method, to as u32)
    }
}
