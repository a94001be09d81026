ghost use Rattle.card_verify.specs.Answers.{AreAccepted, IsFirstRefused};
ghost use Rattle.capcheck_core.specs.Verify.{StopsAtRefused, AcceptsWorld};

use crate::typing::number_of;
use crate::verdict::Verdict;
use crate::world::LastStep;
use cap_files::Folder;
use cap_package::Packages;
use cap_text::{accepted, refused_card};
use card_typing::CardFault;
use card_verify::{CardRoom, accept};
use jc_base::World;
use law_sound::typed_code_never_fails;
use std::alloc::Global;

/// The words of the card's three memories, lent for a command: those for frames, for objects and for static fields.
#[derive(Drop)]
pub struct Card<'c> {
    pub ram: &'c mut [u16],
    pub heap: &'c mut [u16],
    pub statics: &'c mut [u16],
}

/// The last step of `verify`: it verifies each method with code of all packages as a card does.
#[derive(Clone, Copy)]
pub(crate) struct VerifyStep;

impl LastStep for VerifyStep {
    ghost use Rattle.capcheck_core.specs.Verify.{VerifiesWorld};
    ghost use Rattle.capcheck_core.specs.World.{of_world};

    ghost own = { λ _. of_world VerifiesWorld };

    #[tactic(auto, using(crate::proofs::Cardings::refused_world))]
    fn take<F: Folder>(
        &self,
        alloc: Global,
        _packages: &Packages<'_, '_>,
        _roles: [u8; 8],
        world: &World<'_>,
        _folder: &mut F,
        _card: &mut Card<'_>,
    ) -> Verdict {
        let mut room = CardRoom::new();
        match accept(world, &mut room) {
            Ok(_) => counted(alloc, world),
            Err((number, fault)) => uncarded(alloc, world, number, fault),
        }
    }
}

// The verdict for a world whose methods are all accepted: how many they are.
fn counted(alloc: Global, world: &World<'_>) -> Verdict
    requires { AreAccepted world.now }
    ensures { AcceptsWorld world.now result }
{
    typed_code_never_fails(world);
    let mut count = 0u16;
    'methods: for number in 0..world.method_count() {
        count += u16::from(world.method(number).code_len > 0);
    }
    Verdict::done(accepted(alloc, count))
}

/// The verdict for the first method that is refused.
#[tactic(auto, using(crate::proofs::Cardings::number_below))]
pub fn uncarded(alloc: Global, world: &World<'_>, number: u16, fault: CardFault) -> Verdict
    requires { IsFirstRefused world.now number fault }
    ensures { StopsAtRefused world.now result }
{
    let _code = world.code(number);
    Verdict::refused(refused_card(alloc, number_of(world, number), fault))
}
