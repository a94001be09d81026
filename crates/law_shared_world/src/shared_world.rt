ghost use Rattle.law_shared_world.specs.Laws.{InStepKeepsAlike, SharedWorldEndsInStep};

use card_typing::card_laws;
use jc_base::World;
use law_laid::typings_are_kept;
use law_relink::{laid_methods_stand, links_again};
use law_renumbered::{renumbered_is_renamed, shared_numbers_serve};
use law_share::{
    kept_are_renamed, renamed_are_typed, renamed_end_alike, shared_have_types, sharing_is_one,
};
use law_sound::typed_code_never_fails;

/// Where each method with code has a card typing, and the last package is written with registers that variables share, the
/// packages make a world again: each method with code has a card typing there and no more registers, and each run ends in step
/// with the former one.
pub fn shared_world_ends_in_step(world: &World<'_>)
    ensures { SharedWorldEndsInStep world.now }
{
    links_again();
    laid_methods_stand();
    typings_are_kept();
    card_laws(world);
    typed_code_never_fails(world);
    sharing_is_one();
    shared_numbers_serve(world);
    renumbered_is_renamed(world);
    kept_are_renamed(world);
    renamed_are_typed(world);
    renamed_end_alike(world);
    shared_have_types(world);
    let _classes = world.classes();
}

/// What ends alike with one world does so with each that ends in step with it: so does a package that `transform` made, once its
/// methods share registers.
pub fn in_step_keeps_alike()
    ensures { InStepKeepsAlike }
{}
