use card_verify::{Accepted, CardRoom, accept};
use jc_base::World;
use jc_tests::{Shape, world};
use std::alloc::{AllocError, Global};
use vm_bound::{Bound, BoundEnd, bound};
use vm_step::StartFault;

/// `sload_0`, `sload_1`, `sadd`, `sreturn`.
const SUM: &[u8] = &[28, 29, 65, 120];

/// Three words of the frame's own, two argument words and two cells of the operand stack; there is no second method.
fn is_bounded(alloc: Global, accepted: &Accepted<'_>) -> bool {
    let only = matches!(
        bound(alloc, accepted, 0),
        Ok(Bound::Words {
            words: 7,
            frames: 1,
        })
    );
    let none = matches!(
        bound(alloc, accepted, 1),
        Err(BoundEnd::Fault(StartFault::NoEntry))
    );
    only && none
}

fn is_bounded_in(alloc: Global, world: &World<'_>) -> bool {
    let mut room = CardRoom::new();
    match accept(world, &mut room) {
        Err(_) => false,
        Ok(accepted) => is_bounded(alloc, &accepted),
    }
}

fn holds(alloc: Global) -> Result<bool, AllocError> {
    let world = world(alloc, Shape::Shorts, SUM, &[])?;
    Ok(is_bounded_in(alloc, &world))
}

#[test]
fn one_method_takes_its_own_frame(rt: HostRuntime) -> Result<(), AllocError> {
    assert_eq!(rt; holds(rt.alloc())?, true);
    Ok(())
}
