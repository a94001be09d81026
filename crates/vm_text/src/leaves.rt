ghost use Rattle.std.specs.Prelude.{◌≡◌, ◌<◌, length, Some, slice_get, option_map, option_and_then};

use jc_base::{Ty, World};
use vm_defend::State;
use vm_step::Value;

/// What a machine tells of the state that a run has left.
pub trait Leaves {
    ghost use Rattle.jc_base.specs.World.{Linked};
    ghost use Rattle.vm_text.specs.Left.{Readout};

    /// What is read of it, in a world.
    ghost left: { Linked → Self → Readout };

    /// A run in the world has left it.
    ghost IsLeft: { Linked → Self → Type 0 };

    /// How many static fields the world has.
    fn static_count(&self, world: &World<'_>) -> u16
        requires { IsLeft world.now self.now }
        ensures all { result ≡ length (left world.now self.now).statics }
        ensures of_world { result ≡ length world.now.statics };

    /// The value of a static field, by its number in the world.
    fn static_value(&self, world: &World<'_>, n: u16) -> Value
        requires run { IsLeft world.now self.now }
        requires field { n < length world.now.statics }
        ensures { slice_get (left world.now self.now).statics n ≡ Some result };

    /// The type of the array of a handle; none where this is no array of numbers.
    fn array_kind(&self, world: &World<'_>, handle: u16) -> Option<Ty>
        requires { IsLeft world.now self.now }
        ensures { result ≡ option_map (λ a. a.ty) ((left world.now self.now).array handle) };

    /// How many elements such an array has.
    fn array_length(&self, world: &World<'_>, handle: u16) -> Option<u16>
        requires { IsLeft world.now self.now }
        ensures { result ≡ option_map (λ a. length a.elements) ((left world.now self.now).array handle) };

    /// The number in an element of such an array; none outside of it.
    fn array_value(&self, world: &World<'_>, handle: u16, element: u16) -> Option<i32>
        requires { IsLeft world.now self.now }
        ensures { result ≡ option_and_then (λ a. slice_get a.elements element) ((left world.now self.now).array handle) };
}

impl Leaves for State {
    ghost use Rattle.vm_store.specs.Cells.{tagged};
    ghost use Rattle.vm_defend.specs.Held.{IsRunOf};
    ghost use Rattle.vm_text.specs.Left.{left_by};

    ghost left = { λ w s. left_by tagged w s.state };

    ghost IsLeft = { λ w s. IsRunOf w s };

    fn static_count(&self, world: &World<'_>) -> u16 {
        world.static_count()
    }

    fn static_value(&self, world: &World<'_>, n: u16) -> Value {
        State::static_value(self, world, n)
    }

    fn array_kind(&self, _world: &World<'_>, handle: u16) -> Option<Ty> {
        State::array_kind(self, handle)
    }

    fn array_length(&self, _world: &World<'_>, handle: u16) -> Option<u16> {
        State::array_length(self, handle)
    }

    fn array_value(&self, _world: &World<'_>, handle: u16, element: u16) -> Option<i32> {
        State::array_value(self, handle, element)
    }
}
