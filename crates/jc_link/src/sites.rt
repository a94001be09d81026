ghost use Rattle.std.specs.Prelude.{◌≡◌, [], OnOk, IfOk, map, is_some};
ghost use Rattle.std.specs.Option.{option_flatten};
ghost use Rattle.jc_link.specs.Sites.{kept_at, added_entry, all_entered};
ghost use Rattle.jc_link.specs.Members.{static_sites};

use indexmap::IndexMap;
use jc_base::{Member, Statics};
use std::alloc::{AllocError, Global};
use std::hash::{Hash, Hasher};
use std::marker::Model;

/// Where a member is described: an offset in the static field image of a package, or a token of a class.
#[derive(Clone, Copy, PartialEq, Eq)]
pub(crate) struct Spot {
    /// The number of the package, or of the class.
    pub(crate) owner: u16,
    /// The offset, or the token.
    pub(crate) number: u16,
}

// Both numbers in one write, which takes half the time of two.
impl Hash for Spot {
    ghost use Rattle.std.specs.Prelude.{◌+◌, ◌*◌};
    ghost use Rattle.std.specs.Hash as fed;
    ghost use Rattle.std.specs.Cmp.Rules.{hashing};
    ghost use Rattle.std.proofs.Common.{rules};
    ghost use Rattle.jc_link.specs.declared.sites.Spot.{Spot};

    ghost hash_input = { λ (spot : Spot). fed.u32 (spot.owner * 65536 + spot.number) };

    ghost respects_eq = { Prim.search (hashing, rules) };

    fn hash<H: Hasher>(&self, state: &mut H) {
        state.write_u32(self.owner as u32 * 65536 + self.number as u32);
    }
}

/// The members by their spots; `None` where there are several.
#[derive(Drop)]
pub(crate) struct Sites {
    map: IndexMap<Spot, Option<Member>>,
}

impl Model for Sites {
    ghost use Rattle.std.specs.Prelude.{List, Option};
    ghost use Rattle.jc_base.specs.declared.record.Member.{Member};
    ghost use Rattle.jc_link.specs.declared.sites.Spot.{Spot};

    ghost Value = { List (Spot × Option Member) };

    ghost view = { λ n. n.map.entries };
}

impl Sites {
    pub(crate) fn new(alloc: Global) -> Sites
        ensures { result ≡ [] }
    {
        Sites {
            map: IndexMap::new(alloc),
        }
    }

    /// Keeps one more member.
    pub(crate) fn enter(&mut self, spot: Spot, member: Member) -> Result<(), AllocError>
        ensures { OnOk result (self.new ≡ added_entry self.old (record { spot = spot; member = member })) }
    {
        if let Some(_before) = self.map.insert(spot, Some(member))? {
            // There are several.
            self.map.insert(spot, None)?;
        }
        Ok(())
    }

    /// The member at a spot, where it is the only one.
    pub(crate) fn only(&self, spot: Spot) -> Option<Member>
        ensures { result ≡ option_flatten (kept_at self.now spot) }
    {
        *self.map.get(&spot)?
    }

    /// Whether there is a member at a spot.
    pub(crate) fn holds(&self, spot: Spot) -> bool
        ensures { result ≡ is_some (kept_at self.now spot) }
    {
        self.map.contains_key(&spot)
    }
}

/// The static fields of all packages by their places.
pub(crate) fn static_sites(alloc: Global, statics: &Statics) -> Result<Sites, AllocError>
    ensures { IfOk result (λ sites. sites ≡ all_entered [] (static_sites statics.now)) }
{
    let mut sites = Sites {
        map: IndexMap::with_capacity(alloc, statics.len())?,
    };
    'fields: for field in statics.as_slice() {
        let spot = Spot {
            owner: field.package,
            number: field.offset,
        };
        let member = Member::Static {
            slot: field.slot,
            kind: field.kind,
            ty: field.ty,
        };
        sites.enter(spot, member)?;
    }
    Ok(sites)
}
