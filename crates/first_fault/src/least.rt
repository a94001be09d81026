ghost use Rattle.std.specs.Prelude.{◌≡◌, Some};
ghost use Rattle.std.specs.Iterator.{IsFinite};
ghost use Rattle.first_fault.specs.Least.{lesser, refused};
ghost use Rattle.first_fault.specs.LeastFound.{FindsLeast};

use crate::place::Fault;

/// The fault that is named of the least so far and another.
#[cold]
#[inline(never)]
#[tactic(auto, unfolding(crate::specs::Least::lesser))]
fn lesser_of<F: Fault>(least: Option<F>, fault: F) -> Option<F>
    ensures { result ≡ lesser F.place_of least (Some fault) }
{
    match least {
        Some(least) if !fault.place().comes_before(least.place()) => Some(least),
        _ => Some(fault),
    }
}

/// The fault that is named, when one more thing was seen that may be at fault: the least so far stays
/// where it is as low.
#[tactic(auto, unfolding(crate::specs::Least::lesser))]
#[inline(always)]
pub fn lesser<F: Fault>(least: Option<F>, fault: Option<F>) -> Option<F>
    ensures { result ≡ lesser F.place_of least fault }
{
    // Where nothing is at fault, as mostly, this is short and takes no call.
    match fault {
        Some(fault) => lesser_of(least, fault),
        None => least,
    }
}

/// Keeps the fault that is named, when one more thing was seen that may be at fault.
#[tactic(auto, unfolding(crate::specs::Least::lesser))]
#[inline(always)]
pub fn keep_lesser<F: Fault>(least: &mut Option<F>, fault: Option<F>)
    ensures { least.new ≡ lesser F.place_of least.old fault }
{
    // Where nothing is at fault nothing is written.
    if let Some(found) = fault {
        *least = lesser_of(*least, found);
    }
}

/// The least fault so far, when the things of an iterator were asked what is wrong with each.
#[inline(always)]
pub fn least_from<F: Fault, I: Iterator, C: Fn(I::Item) -> Option<F>>(
    least: Option<F>,
    things: I,
    fault: C,
) -> Option<F>
    requires can { I.can_next things }
    requires ends { IsFinite (I.remaining things) }
    requires callable { C.IsAlwaysCallable fault }
    ensures { FindsLeast I.next_gives things F.place_of least (C.post fault) result }
{
    let mut least = least;
    'things: for thing in things {
        keep_lesser(&mut least, fault(thing));
    }
    least
}

/// A condition holds unless a fault of it is named.
pub fn refuse<F: Fault>(least: Option<F>) -> Result<(), F>
    ensures { result ≡ refused least }
{
    match least {
        Some(fault) => Err(fault),
        None => Ok(()),
    }
}
