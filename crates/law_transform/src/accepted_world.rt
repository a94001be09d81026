ghost use Rattle.law_transform.specs.Bytes.{CodesAreBytes};
ghost use Rattle.law_transform.specs.AcceptedWorld.{LaidIsAccepted};
ghost use Rattle.law_transform.specs.LikeEndings.{CounterpartsEndAlike, LaidAreCounterparts, LaidEndAlike, StartsAreMet, StepsAreMet};

use cap_bytes::are_bytes;
use card_typing::card_laws;
use jc_base::World;
use jc_control::instructions_are_placed;
use jc_decode::instructions_are_listed;
use jc_ops::operations_are_sound;
use law_alike::{starts_refuse_alike, steps_are_alike, typed_states_stay};
use law_groups::{
    groups_are_entered, groups_catch, groups_run, groups_stand_at_steps, places_are_renamed,
};
use law_laid::{
    catches_by_pool, laid_is_typed, methods_are_kept, operations_are_kept, typings_are_kept,
};
use law_relink::{laid_methods_stand, links_again};
use law_rewritten_typing::rewritten_is_typed;
use law_sound::{arguments_are_handed, typed_code_never_fails};
use xf_emission::live_are_kept;

/// The code of each method is made of bytes: a fact for proofs, which only the slices of bytes themselves tell.
pub fn codes_are_bytes(world: &World<'_>)
    ensures { CodesAreBytes world.now }
{
    'methods: for number in 0..world.method_count() {
        are_bytes(world.code(number));
    }
}

/// Where the libraries are accepted and the last package is written with what is laid for its methods, they make a world again,
/// in which each method with code has a card typing.
pub fn laid_is_accepted(world: &World<'_>)
    ensures { LaidIsAccepted world.now }
{
    instructions_are_listed();
    instructions_are_placed();
    live_are_kept();
    typings_are_kept();
    links_again();
    laid_methods_stand();
    codes_are_bytes(world);
    rewritten_is_typed(world);
    laid_is_typed(world);
    let _classes = world.classes();
}

/// Where each method with code is kept in another world, or rewritten there by its least typing, each run of the other ends
/// as one of this world does: each step of this world is met there, by at least one step and at most 2,000, beside which the
/// states stand again, frame beside frame.
pub fn worlds_end_alike(world: &World<'_>)
    ensures alike { CounterpartsEndAlike world.now }
    ensures steps { StepsAreMet world.now }
    ensures starts { StartsAreMet world.now }
{
    operations_are_kept();
    operations_are_sound(world);
    typed_code_never_fails(world);
    arguments_are_handed(world);
    steps_are_alike(world);
    typed_states_stay(world);
    starts_refuse_alike(world);
    places_are_renamed(world);
    groups_catch(world);
    groups_are_entered(world);
    groups_run(world);
    let _ = world.classes().records();
}

/// So it is with the world that accepted libraries make with a package that is written with what is laid for its methods.
pub fn laid_end_alike(world: &World<'_>)
    ensures alike { LaidEndAlike world.now }
    ensures counterparts { LaidAreCounterparts world.now }
{
    instructions_are_listed();
    instructions_are_placed();
    live_are_kept();
    typings_are_kept();
    methods_are_kept();
    operations_are_kept();
    operations_are_sound(world);
    catches_by_pool();
    laid_methods_stand();
    groups_stand_at_steps();
    codes_are_bytes(world);
    rewritten_is_typed(world);
    laid_is_typed(world);
    card_laws(world);
    worlds_end_alike(world);
    let _classes = world.classes();
}
