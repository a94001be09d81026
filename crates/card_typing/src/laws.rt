ghost use Rattle.jc_control.specs.Method.{Method, IsMethodOf};
ghost use Rattle.card_typing.specs.Place.{IsTarget};
ghost use Rattle.card_typing.specs.Laws.{CardIsFlow, MetIsBelow, MetIsSound, MetIsOne, RefusedStateIsOne, PassCountIsOne, RefusalDenies, RefusalIsOne, RuleIsOfRecord, FlawsAreTold, QuietIsLeast};

use jc_base::World;
use jc_control::{first_flaw_is_one, flaws_decide, instructions_are_placed};
use jc_decode::instructions_are_listed;
use jc_rules::{rule_falls, rule_laws, rule_raises};

/// What card typings have to do with dataflow typings, with the states that the verifier on the card meets, with its
/// refusals, of which a method has one at most, and with a pass that raises no register; and the rule at a site is that by
/// the record of its method.
pub fn card_laws(world: &World<'_>)
    ensures flow { CardIsFlow world.now }
    ensures met { (m : Method) → IsMethodOf world.now m → MetIsBelow world.now m (IsTarget m) }
    ensures sound { (m : Method) → IsMethodOf world.now m → MetIsSound world.now m (IsTarget m) }
    ensures one_met { (m : Method) → IsMethodOf world.now m → MetIsOne world.now m (IsTarget m) }
    ensures refused { RefusalDenies world.now }
    ensures one { RefusalIsOne world.now }
    ensures told { FlawsAreTold world.now }
    ensures one_state { (m : Method) → IsMethodOf world.now m → RefusedStateIsOne world.now m (IsTarget m) }
    ensures one_count { (m : Method) → IsMethodOf world.now m → PassCountIsOne world.now m (IsTarget m) }
    ensures quiet { (m : Method) → IsMethodOf world.now m → QuietIsLeast world.now m (IsTarget m) }
    ensures records { RuleIsOfRecord world.now }
{
    rule_laws(world);
    rule_falls(world);
    rule_raises(world);
    flaws_decide();
    first_flaw_is_one();
    instructions_are_listed();
    instructions_are_placed();
    let _object = world.classes().at(world.role(0));
}
