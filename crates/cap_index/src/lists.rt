ghost use Rattle.std.specs.Prelude.{◌≡◌, ◌≤◌, [], length, drop, slice_get, IfSome, option_map};
ghost use Rattle.cap_bytes.specs.Taking.{Takes, PassesOver, Reads, same};
ghost use Rattle.cap_bytes.specs.Grammar.{repeat};
ghost use Rattle.cap_bytes.specs.Spelling.{info_of};
ghost use Rattle.cap_index.specs.IndexFormat.{list_info, index_info};
ghost use Rattle.cap_frame.specs.Framed.{info_bytes};
ghost use Rattle.cap_index.specs.Component.{index_in, lists_in};

use cap_bytes::{Cursor, FormFault, FormKind, View};
use cap_package::Package;
use jc_base::TargetIndex;
use std::marker::Model;

/// The tag of the component.
pub(crate) const INDEX: u8 = 128;

/// The lists of a target index, one a method with code: those that are left.
#[derive(Drop)]
pub(crate) struct Lists<'a> {
    items: Cursor<'a>,
    left: u16,
}

impl<'a> Model for Lists<'a> {
    ghost use Rattle.std.specs.Prelude.{List, ℕ, []};
    ghost use Rattle.cap_bytes.specs.Grammar.{repeat};
    ghost use Rattle.cap_bytes.specs.Taking.{Gives, given};
    ghost use Rattle.cap_index.specs.IndexFormat.{list_info};

    ghost Value = { List (List ℕ) };

    ghost view = { λ x. given [] (repeat x.left list_info) x.items };

    ghost invariant = { λ x. Gives (repeat x.left list_info) x.items };
}

impl<'a> Lists<'a> {
    /// No list.
    #[tactic(auto, using(cap_bytes::proofs::Loops::yielding))]
    pub(crate) fn none() -> Lists<'a>
        ensures { result ≡ [] }
    {
        Lists {
            items: Cursor::of(View::of(&[]), INDEX),
            left: 0,
        }
    }

    /// The list of the next method with code.
    #[tactic(auto, using(cap_bytes::proofs::Loops::yielding))]
    pub(crate) fn next(&mut self) -> Option<TargetIndex<'a>>
        ensures first { result ≡ slice_get self.old 0 }
        ensures rest { self.new ≡ drop 1 self.old }
    {
        if self.left == 0 {
            return None;
        }
        let mut items = self.items;
        match list(&mut items) {
            Ok(places) => {
                *self = Lists {
                    items,
                    left: self.left - 1,
                };
                Some(places)
            }
            Err(_) => None,
        }
    }
}

/// The places of one method.
fn list<'a>(items: &mut Cursor<'a>) -> Result<TargetIndex<'a>, FormFault>
    ensures { Takes same list_info items.old result items.new }
{
    let count = items.u2()?;
    let bytes = items.piece(count as u32 * 2)?;
    Ok(TargetIndex::of(bytes))
}

/// Passes over the places of so many methods.
#[tactic(auto, using(cap_bytes::proofs::Loops::passing))]
fn pass_lists(items: &mut Cursor<'_>, count: u16) -> Result<(), FormFault>
    ensures { PassesOver (repeat count list_info) items.old result items.new }
{
    'methods: for _ in 0..count {
        list(items)?;
    }
    Ok(())
}

/// The lists of the info of a target index for so many methods with code.
#[tactic(auto, using(cap_bytes::proofs::Loops::yielding), unfolding(cap_bytes::specs::Reading::reading))]
pub(crate) fn read_lists(info: View<'_>, methods: u16) -> Result<Lists<'_>, FormFault>
    requires { length info.bytes.now ≤ 65535 }
    ensures { Reads same (info_of 128) (index_info methods) info.entry.bytes.now result }
{
    let mut items = Cursor::of(info, INDEX);
    let place = items;
    let stated = items.u2()?;
    if stated != methods {
        return Err(place.fault(FormKind::BadValue));
    }
    let first = items;
    pass_lists(&mut items, methods)?;
    items.end()?;
    Ok(Lists {
        items: first,
        left: methods,
    })
}

/// The application identifier of a target index.
const INDEX_AID: [u8; 6] = [0xF0, 0x6C, 0x65, 0x72, 0x6F, 0x79];

/// The info of a package's target index, where it has one.
fn index_in<'a>(package: &Package<'_, 'a>) -> Option<View<'a>>
    ensures is { option_map info_bytes result ≡ index_in «package».now }
    ensures few { IfSome result (λ info. length info.bytes.now ≤ 65535) }
{
    let custom = package.custom(INDEX)?;
    if custom.aid == INDEX_AID.as_slice() {
        Some(custom.info)
    } else {
        None
    }
}

/// The lists of a package's target index for so many methods with code, and none where it has no index that is well
/// formed.
pub(crate) fn lists_in<'a>(package: &Package<'_, 'a>, methods: u16) -> Lists<'a>
    ensures { result ≡ lists_in methods (index_in «package».now) }
{
    match index_in(package) {
        Some(info) => match read_lists(info, methods) {
            Ok(lists) => lists,
            Err(_) => Lists::none(),
        },
        None => Lists::none(),
    }
}
