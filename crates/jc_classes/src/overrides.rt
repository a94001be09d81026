ghost use Rattle.std.specs.Prelude.{◌≡◌, ◌≤◌, ◌<◌, length, flat_map};
ghost use Rattle.jc_resolve.specs.Fault.{link_place};
ghost use Rattle.first_fault.specs.Least.{least_of, least_from, refused};
ghost use Rattle.jc_classes.specs.KnownLines.{HaveSuperclasses};
ghost use Rattle.jc_classes.specs.Layout.{layouts};
ghost use Rattle.jc_classes.specs.TableConditions.{override_fault, replacements_from, replacements_in, class_numbers};

use crate::Lineage;
use crate::made_list::{MadeList, public_list, visible_list};
use crate::overlay::{ClassLayout, reach};
use crate::signatures::same_signature;
use jc_base::Methods;
use jc_resolve::{LinkFault, NamedClasses, lesser, refuse};

/// What is wrong with an entry that replaces an inherited one.
#[tactic(auto, unfolding(crate::specs::TableConditions::override_fault))]
#[inline(always)]
fn override_fault(
    methods: &Methods,
    c: u16,
    token: u16,
    inherited: Option<u16>,
    method: Option<u16>,
) -> Option<LinkFault>
    ensures { result ≡ override_fault methods.now (record { class = c; token = token; inherited = inherited; method = method }) }
{
    if same_signature(methods, method, inherited) {
        None
    } else {
        Some(LinkFault::OverrideType(c, token))
    }
}

/// The least fault so far, when a list was compared with the inherited one of which it is made. Outside the tokens of
/// its table it has what it inherits.
#[tactic(auto, using(crate::proofs::Folds::replacements_next, crate::proofs::Inherited::replaced))]
fn overrides_in(
    methods: &Methods,
    c: u16,
    first: u16,
    lists: MadeList<'_>,
    least: Option<LinkFault>,
) -> Option<LinkFault>
    requires { first ≤ 128 }
    ensures { result
        ≡ least_from link_place least
        (override_fault methods.now)
        (replacements_from c first lists.entry.inherited.now lists.entry.list.now) }
{
    let inherited = lists.inherited;
    let list = lists.list;
    let end = reach(lists.table).min(inherited.len()).min(list.len());
    let mut least = least;
    'tokens: for i in lists.table.base as usize..end {
        let token = first + i as u16;
        least = lesser(
            least,
            override_fault(methods, c, token, inherited[i], list[i]),
        );
    }
    least
}

/// The least fault so far, when the lists of a class were compared with those of its superclass.
#[tactic(auto, using(crate::proofs::Folds::least_both))]
fn overrides_of(
    lineage: &Lineage,
    classes: &NamedClasses,
    methods: &Methods,
    all: &[ClassLayout],
    c: u16,
    least: Option<LinkFault>,
) -> Option<LinkFault>
    requires known { HaveSuperclasses lineage.now classes.now }
    requires layouts { all.now ≡ layouts lineage.now classes.now }
    requires class { c < length classes.now }
    ensures { result ≡ least_from link_place least (override_fault methods.now) (replacements_in lineage.now classes.now c) }
{
    let public = public_list(lineage, classes, all, c);
    let visible = visible_list(lineage, classes, all, c);
    let least = overrides_in(methods, c, 0, public, least);
    overrides_in(methods, c, 128, visible, least)
}

/// Each entry that replaces an inherited one has its signature.
#[tactic(auto, using(crate::proofs::Folds::folds))]
pub(crate) fn overrides_agree(
    lineage: &Lineage,
    classes: &NamedClasses,
    methods: &Methods,
    all: &[ClassLayout],
) -> Result<(), LinkFault>
    requires known { HaveSuperclasses lineage.now classes.now }
    requires layouts { all.now ≡ layouts lineage.now classes.now }
    ensures { result
        ≡ refused
        (least_of link_place (override_fault methods.now)
        (flat_map (replacements_in lineage.now classes.now) (class_numbers classes.now))) }
{
    let mut least = None;
    'classes: for c in 0..classes.len() {
        least = overrides_of(lineage, classes, methods, all, c as u16, least);
    }
    refuse(least)
}
