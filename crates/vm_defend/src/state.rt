ghost use Rattle.std.specs.Prelude.{◌≡◌, ◌<◌, length, None, Some};
ghost use Rattle.vm_store.specs.Cells.{tagged};
ghost use Rattle.vm_step.specs.Run.{Continues};
ghost use Rattle.vm_defend.specs.Held.{answer, IsRunOf, reached};
ghost use Rattle.vm_defend.specs.Safe.{GoesSafely};

use crate::reading::{class_of, length_of, number_at, numbers_of, value_at};
use jc_base::{Ty, World};
use law_sound::typed_code_never_fails;
use std::marker::Model;
use vm_run::{Known, MarkedPlaces};
use vm_step::{Ending, Plain, Value};
use vm_store::TaggedStore;

/// A run: the state that it has reached, in memory that was taken once for 64 frames, 4,096 objects, 32,768 cells of
/// objects and the static fields; how it ended, once it has; and where in the code of each method instructions begin.
#[derive(Drop)]
pub struct State {
    store: TaggedStore,
    places: MarkedPlaces,
    ending: Option<Ending>,
}

impl Model for State {
    ghost use Rattle.vm_defend.specs.Held.{Held};

    ghost Value = { Held };

    ghost view = { λ s. record { state = s.store; ending = s.ending; places = s.places } };
}

impl State {
    ghost use Rattle.vm_defend.specs.Held.{IsRunOf, reached};
    ghost use Rattle.vm_defend.specs.Reading.{static_value, object_class, array_kind, array_length, array_value};

    /// A run before its first step.
    pub(crate) fn of(store: TaggedStore, places: MarkedPlaces) -> State
        ensures { result ≡ record { state = store; ending = None; places = places } }
    {
        State {
            store,
            places,
            ending: None,
        }
    }

    /// Takes at most so many steps.
    #[tactic(auto, using(crate::proofs::Safely::spent_or))]
    pub(crate) fn go_on(&mut self, world: &World<'_>, budget: u64) -> Ending
        requires { IsRunOf world.now self.old }
        ensures answer { result ≡ answer self.new.ending }
        ensures runs { Continues tagged world.now budget (reached self.old) (reached self.new) }
        ensures run { IsRunOf world.now self.new }
    {
        match self.ending {
            Some(ending) => ending,
            None => {
                let known = Known::Marked(&self.places);
                self.ending = vm_run::run(&mut self.store, world, known, budget);
                self.ending.unwrap_or(Ending::Plain(Plain::Spent))
            }
        }
    }

    /// The value of a static field, by its number in the world.
    pub fn static_value(&self, world: &World<'_>, n: u16) -> Value
        requires run { IsRunOf world.now self.now }
        requires field { n < length world.now.statics }
        ensures { static_value tagged world.now n self.now.state ≡ Some result }
    {
        let _slots = world.classes();
        let field = world.static_field(n);
        value_at(&self.store, field.slot, field.kind)
    }

    /// The class of the object of a handle; none where this is an array, or no object.
    pub fn object_class(&self, handle: u16) -> Option<u16>
        ensures { result ≡ object_class self.now.state handle }
    {
        class_of(&self.store, handle)
    }

    /// The type of the array of a handle; none where this is no array of booleans, bytes, shorts or ints.
    pub fn array_kind(&self, handle: u16) -> Option<Ty>
        ensures { result ≡ array_kind self.now.state handle }
    {
        numbers_of(&self.store, handle)
    }

    /// How many elements such an array has.
    pub fn array_length(&self, handle: u16) -> Option<u16>
        ensures { result ≡ array_length self.now.state handle }
    {
        length_of(&self.store, handle)
    }

    /// The number in an element of such an array; none outside of it.
    pub fn array_value(&self, handle: u16, element: u16) -> Option<i32>
        ensures { result ≡ array_value tagged self.now.state handle element }
    {
        number_at(&self.store, handle, element)
    }
}

/// Takes at most so many steps of a run that was begun in this world. After `Spent` it may go on; after another ending it
/// takes no step, and answers that ending again. Where each method with code of the world has a dataflow typing, it answers
/// no fault.
pub fn run(world: &World<'_>, state: &mut State, budget: u64) -> Ending
    requires { IsRunOf world.now state.old }
    ensures answer { result ≡ answer state.new.ending }
    ensures runs { Continues tagged world.now budget (reached state.old) (reached state.new) }
    ensures run { IsRunOf world.now state.new }
    ensures safe { GoesSafely world.now state.old state.new result }
{
    typed_code_never_fails(world);
    state.go_on(world, budget)
}
