ghost use Rattle.vm_check.specs.Machine.{KeepsShape, KnowsTypes, TestsReach, StepsStay, StepsEnd};
ghost use Rattle.vm_run.specs.Verified.{HasRoomToCatch, AreVerified};
ghost use Rattle.vm_store.specs.Cells.{words};

use crate::words::WordStore;
use jc_base::World;
use jc_ops::operations_are_sound;
use jc_rules::footprint_laws;
use law_erasure::{typed_states_apply, words_run_alike};
use law_sound::typed_code_never_fails;
use vm_check::Machine;
use vm_run::Turning;
use vm_store::{TaggedStore, states_erase};

impl<'w, 'r, 'h, 's> Machine for WordStore<'w, 'r, 'h, 's> {
    ghost use Rattle.vm_offend.specs.Typed.{AreTypedWords};

    ghost keeps = { AreTypedWords };

    fn tests_suffice(world: &World<'_>)
        ensures shape { KeepsShape (AreTypedWords world.now) world.now }
        ensures known { KnowsTypes words (AreTypedWords world.now) world.now }
        ensures reaches { TestsReach 255 words (AreTypedWords world.now) world.now }
        ensures stays { StepsStay words (AreTypedWords world.now) world.now }
        ensures ends { StepsEnd words (AreTypedWords world.now) world.now }
    {
        let _classes = world.classes();
        operations_are_sound(world);
        footprint_laws(world);
        states_erase(world);
        words_run_alike(world);
        typed_states_apply(world);
        typed_code_never_fails(world);
        TaggedStore::tests_suffice(world);
    }
}

impl<'w, 'r, 'h, 's> Turning for WordStore<'w, 'r, 'h, 's> {
    ghost use Rattle.vm_offend.specs.Typed.{AreTypedWords};

    fn steps_stand(world: &World<'_>)
        ensures room { HasRoomToCatch 255 words.checks }
        ensures verified { AreVerified 255 words (AreTypedWords world.now) world.now }
    {
        let _classes = world.classes();
        states_erase(world);
        words_run_alike(world);
        typed_code_never_fails(world);
        TaggedStore::tests_suffice(world);
    }
}
