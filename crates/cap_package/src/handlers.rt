ghost use Rattle.std.specs.Prelude.{◌≡◌, ◌≤◌, length, fold};
ghost use Rattle.cap_method.specs.MethodPart.{handlers_left, handlers};
ghost use Rattle.cap_desc.specs.MemberRecords.{method_seen};
ghost use Rattle.cap_package.specs.HandlerChecks.{is_within, claim_fault, numbered_fault};
ghost use Rattle.std.specs.List.{enumerate_from};
ghost use Rattle.cap_package.specs.HandlerClaims.{claims_seen, none_claimed, claim_one, claim_table, is_home};
ghost use Rattle.cap_desc.specs.MembersLeft.{methods_but_left};
ghost use Rattle.cap_components.specs.Order.{least_of, least_from, refused};

use cap_bytes::View;
use cap_components::{PackFault, code_end, code_start, refuse};
use cap_desc::{MethodInfo, MethodsBut};
use cap_method::{HandlerEntries, HandlerInfo, MethodPart};
use first_fault::{keep_lesser, least_from};
use offset_set::{Offsets, Tally};

/// The entries of the handler table as methods claim them.
#[derive(Drop)]
pub(crate) struct HandlerClaims {
    /// The numbers of the entries that are claimed.
    owned: Tally,
    /// Those that do not lie in the code of a method that claims them.
    strays: Offsets,
}

/// Whether the range and the code of an entry lie in a method's code.
fn is_within(info: View<'_>, handler: HandlerInfo, method: &MethodInfo) -> bool
    ensures { result ≡ is_within info.entry.bytes.now handler (method_seen method.now) }
{
    let start = code_start(info, method);
    let end = code_end(info, method);
    let range_end = handler.start as u32 + handler.length as u32;
    let entry = handler.entry as u32;
    start <= handler.start as u32 && range_end <= end && start <= entry && entry < end
}

impl HandlerClaims {
    /// No entry is claimed.
    pub(crate) fn none() -> HandlerClaims
        ensures { claims_seen result ≡ none_claimed }
    {
        HandlerClaims {
            owned: Tally::none(),
            strays: Offsets::none(),
        }
    }

    /// A method claims an entry, or does not.
    #[tactic(auto, unfolding(crate::specs::HandlerClaims::claim_one))]
    fn claim(&mut self, info: View<'_>, number: u16, handler: HandlerInfo, method: &MethodInfo)
        ensures { claims_seen self.new
            ≡ claim_one info.entry.bytes.now (method_seen method.now) (claims_seen self.old) (number, handler) }
    {
        let place = number as u32;
        let first = method.handler_index as u32;
        if first <= place && place < first + method.handler_count as u32 {
            self.owned.count(number);
            if !is_within(info, handler, method) {
                self.strays.insert(number);
            }
        }
    }

    /// A method claims its entries of the handler table.
    pub(crate) fn claim_table(
        &mut self,
        info: View<'_>,
        handlers: HandlerEntries<'_>,
        method: &MethodInfo,
    )
        requires { length (handlers_left handlers) ≤ 255 }
        ensures { claims_seen self.new
            ≡ claim_table info.entry.bytes.now
            (enumerate_from 0 (handlers_left handlers.entry))
            (claims_seen self.old)
            (method_seen method.now) }
    {
        let mut number: u16 = 0;
        'handlers: for handler in handlers {
            self.claim(info, number, handler, method);
            number += 1;
        }
    }

    /// Whether the entry with a number has one owner, in whose code it lies.
    pub(crate) fn has_home(&self, number: u16) -> bool
        ensures { result ≡ is_home (claims_seen self.now) number }
    {
        self.owned.has_once(number) && !self.strays.has(number)
    }
}

#[tactic(auto, unfolding(crate::specs::HandlerChecks::claim_fault))]
fn claim_fault(count: u8, method: &MethodInfo) -> Option<PackFault>
    ensures { result ≡ claim_fault count (method_seen method.now) }
{
    let first = method.handler_index as u32;
    let outside = method.handler_count != 0 && (count as u32) < first + method.handler_count as u32;
    outside.then_some(PackFault::HandlerOutside(first.max(count as u32)))
}

/// The entries of the handler table as the described methods claim them.
#[tactic(auto, using(crate::proofs::HandlerHomes::claims_nothing))]
fn claimed(methods: &MethodPart<'_>, described: MethodsBut<'_, '_>) -> HandlerClaims
    ensures { claims_seen result
        ≡ fold
        (claim_table methods.now.info.bytes.now (enumerate_from 0 (handlers methods.now)))
        none_claimed
        (methods_but_left described.entry) }
{
    let info = methods.info();
    let mut entries = HandlerClaims::none();
    'methods: for method in described {
        // Most methods have no handlers.
        if method.handler_count != 0 {
            entries.claim_table(info, methods.handlers(), &method);
        }
    }
    entries
}

/// The least fault of the entries of the table.
#[tactic(auto, using(crate::proofs::HandlerHomes::homes_told, crate::proofs::HandlerHomes::no_entries))]
fn entry_faults(methods: &MethodPart<'_>, described: MethodsBut<'_, '_>) -> Option<PackFault>
    ensures { result
        ≡ least_of
        (numbered_fault methods.now.info.bytes.now (methods_but_left described.entry))
        (enumerate_from 0 (handlers methods.now)) }
{
    let count = methods.handler_count();
    // Where the table is empty, no entry is at fault, whatever the methods claim.
    if count == 0 {
        return None;
    }
    let entries = claimed(methods, described);
    let mut least = None;
    let mut number: u16 = 0;
    'handlers: for _ in methods.handlers() {
        let homeless = !entries.has_home(number);
        let fault = homeless.then_some(PackFault::HandlerOutside(number as u32));
        keep_lesser(&mut least, fault);
        number += 1;
    }
    let _count = count;
    least
}

/// Exactly one method owns each entry of the handler table, in whose code it lies, and no method claims an
/// entry after the table.
#[tactic(auto, using(first_fault::proofs::LeastFound::least_by))]
pub(crate) fn handlers_at_home(
    methods: &MethodPart<'_>,
    described: MethodsBut<'_, '_>,
) -> Result<(), PackFault>
    ensures { result ≡ refused (least_from
        (least_of (numbered_fault methods.now.info.bytes.now (methods_but_left described.entry)) (enumerate_from 0 (handlers methods.now)))
        (claim_fault (length (handlers methods.now))) (methods_but_left described.entry)) }
{
    let count = methods.handler_count();
    let least = entry_faults(methods, described);
    refuse(least_from(least, described, |method| claim_fault(count, &method)))
}
