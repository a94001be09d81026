ghost use Rattle.std.specs.Prelude.{◌≡◌, ◌≤◌, [], ◌++◌, All, IfOk, IfSome, OnOk, Some, None, is_none, filter_map, if◌then◌else◌, length, slice_index};
ghost use Rattle.std.specs.Option.{option_to_list};
ghost use Rattle.cap_pool.specs.Pool.{entries, entry_seen};
ghost use Rattle.jc_base.specs.Linked.{AreLinkedClasses, IsMember};
ghost use Rattle.jc_resolve.specs.Counts.{class_total};
ghost use Rattle.jc_resolve.specs.Due.{IsDue};
ghost use Rattle.jc_resolve.specs.declared.fault.LinkFault.TheVariants.{NoMember};
ghost use Rattle.jc_resolve.specs.Fault.{link_place};
ghost use Rattle.first_fault.specs.Least.{least_from, least_of};
ghost use Rattle.jc_link.specs.Fields.{HasCellsOf, field_sites};
ghost use Rattle.jc_link.specs.Sites.{all_entered};
ghost use Rattle.jc_link.specs.Members.{static_sites, member_referred, member_of};
ghost use Rattle.jc_link.specs.Naming.{NamesEach};
ghost use Rattle.jc_link.specs.Pools.{places_from, pool_places, member_fault, pools, pools_of, TellsPools};

use crate::entries::{call_member, class_member, static_member, super_member, virtual_member};
use crate::fields::{field_member, field_sites};
use crate::sites::{Sites, static_sites};
use cap_pool::{Pool, PoolEntry, PoolReference};
use first_fault::keep_lesser;
use jc_base::{Classes, Items, Member, Pools, Statics};
use jc_resolve::{LinkEnd, LinkFault, Names, refuse};
use std::alloc::{AllocError, Global};

/// Members by where they are described.
#[derive(Drop)]
struct MemberSites {
    statics: Sites,
    fields: Sites,
}

/// The member that a package names by what an entry refers to.
#[tactic(auto, using(crate::proofs::KnownMembers::counted))]
fn member_referred(
    names: &Names<'_, '_, '_>,
    classes: &Classes,
    statics: &Statics,
    tables: &MemberSites,
    package: u16,
    reference: PoolReference,
) -> Option<Member>
    requires count { length classes.now.records ≡ class_total names.now.packages }
    requires statics { tables.now.statics ≡ all_entered [] (static_sites statics.now) }
    requires fields { tables.now.fields ≡ all_entered [] (field_sites names.now.packages classes.now) }
    ensures { result ≡ member_referred names.now.packages classes.now statics.now «package» reference }
{
    match reference {
        PoolReference::Class(class) => class_member(names, package, class),
        PoolReference::InstanceField { class, token } => {
            field_member(names, classes, &tables.fields, package, class, token)
        }
        PoolReference::VirtualMethod { class, token } => {
            virtual_member(names, classes, package, class, token)
        }
        PoolReference::SuperMethod { class, token } => {
            super_member(names, classes, package, class, token)
        }
        PoolReference::StaticField(field) => {
            static_member(names, statics, &tables.statics, package, field)
        }
        PoolReference::StaticMethod(method) => call_member(names, package, method),
    }
}

/// The member that an entry of a package names: it is there.
#[tactic(auto, unfolding(crate::specs::Members::member_of))]
fn member_of(
    names: &Names<'_, '_, '_>,
    classes: &Classes,
    statics: &Statics,
    tables: &MemberSites,
    package: u16,
    entry: PoolEntry,
) -> Option<Member>
    requires cells { HasCellsOf names.now.classes (slice_index names.now.roles 0) classes.now }
    requires linked { AreLinkedClasses (length names.now.packages) classes.now names.now.methods }
    requires statics { tables.now.statics ≡ all_entered [] (static_sites statics.now) }
    requires fields { tables.now.fields ≡ all_entered [] (field_sites names.now.packages classes.now) }
    ensures is { result ≡ member_of names.now.packages classes.now statics.now «package» (entry_seen entry) }
    ensures linked { IfSome result (IsMember classes.now names.now.methods statics.now) }
{
    // These are read for what is known of them: a token, for one, is a byte.
    names.facts();
    let _records = classes.records();
    let _token = entry.token();
    member_referred(names, classes, statics, tables, package, entry.reference())
}

/// What is wrong with an entry, where it has no member.
#[inline(always)]
fn missing(package: u16, number: u16, member: Option<Member>) -> Option<LinkFault>
    ensures { result ≡ if is_none member then Some (NoMember «package» number) else None }
{
    match member {
        Some(_) => None,
        None => Some(LinkFault::NoMember(package, number)),
    }
}

/// Keeps what an entry names.
#[inline(always)]
fn keep(members: &mut Vec<Member>, member: Option<Member>) -> Result<(), AllocError>
    ensures { OnOk result (members.new.items ≡ members.old.items ++ option_to_list member) }
{
    if let Some(member) = member {
        members.push(member)?;
    }
    Ok(())
}

/// What the entries of a package's pool name, and the least fault so far: an entry that does not have exactly one
/// member.
#[tactic(auto, unfolding(crate::specs::Pools::member_fault), using(crate::proofs::KnownMembers::All_kept))]
fn pool_members(
    alloc: Global,
    names: &Names<'_, '_, '_>,
    classes: &Classes,
    statics: &Statics,
    tables: &MemberSites,
    package: u16,
    pool: &Pool<'_>,
    least: Option<LinkFault>,
) -> Result<(Vec<Member>, Option<LinkFault>), AllocError>
    requires cells { HasCellsOf names.now.classes (slice_index names.now.roles 0) classes.now }
    requires linked { AreLinkedClasses (length names.now.packages) classes.now names.now.methods }
    requires statics { tables.now.statics ≡ all_entered [] (static_sites statics.now) }
    requires fields { tables.now.fields ≡ all_entered [] (field_sites names.now.packages classes.now) }
    ensures fault { IfOk result
        (λ r.
        r.1
        ≡ least_from link_place least
        (member_fault names.now.packages classes.now statics.now)
        (places_from «package» 0 (entries pool.now))) }
    ensures members { IfOk result
        (λ r.
        r.0.items
        ≡ filter_map
        (member_of names.now.packages classes.now statics.now «package»)
        (entries pool.now)) }
    ensures linked { IfOk result (λ r. All (IsMember classes.now names.now.methods statics.now) r.0.items) }
    ensures few { IfOk result (λ r. length r.0.items ≤ 65535) }
{
    let mut members = Vec::with_capacity(alloc, pool.count() as usize)?;
    let mut least = least;
    let mut number: u16 = 0;
    'entries: for entry in pool.iter() {
        let member = member_of(names, classes, statics, tables, package, entry);
        keep_lesser(&mut least, missing(package, number, member));
        keep(&mut members, member)?;
        number += 1;
    }
    Ok((members, least))
}

/// What the entries of all pools name, and the least entry that does not have exactly one member.
#[tactic(auto, using(crate::proofs::Leasts::least_entries))]
fn named(
    alloc: Global,
    names: &Names<'_, '_, '_>,
    classes: &Classes,
    statics: &Statics,
    tables: &MemberSites,
) -> Result<(Pools, Option<LinkFault>), AllocError>
    requires cells { HasCellsOf names.now.classes (slice_index names.now.roles 0) classes.now }
    requires linked { AreLinkedClasses (length names.now.packages) classes.now names.now.methods }
    requires statics { tables.now.statics ≡ all_entered [] (static_sites statics.now) }
    requires fields { tables.now.fields ≡ all_entered [] (field_sites names.now.packages classes.now) }
    ensures pools { IfOk result (λ r. r.0 ≡ pools names.now.packages classes.now statics.now) }
    ensures fault { IfOk result
        (λ r.
        r.1
        ≡ least_of link_place
        (member_fault names.now.packages classes.now statics.now)
        (pool_places names.now.packages)) }
    ensures linked { IfOk result (λ r. All (All (IsMember classes.now names.now.methods statics.now)) r.0) }
    ensures few { IfOk result (λ r. All (λ pool. length pool ≤ 65535) r.0) }
{
    names.facts();
    let mut pools = Vec::with_capacity(alloc, names.packages().len())?;
    let mut least = None;
    'packages: for (k, package) in names.packages().iter().enumerate() {
        let pool = package.pool();
        let (members, least_then) = pool_members(
            alloc, names, classes, statics, tables, k as u16, &pool, least,
        )?;
        least = least_then;
        pools.push(Items::of(members))?;
    }
    Ok((Items::of(pools), least))
}

/// What the entries of the packages' constant pools name, by package and pool number.
#[tactic(auto, unfolding(crate::specs::Pools::pools_of))]
fn pools_of(
    alloc: Global,
    names: &Names<'_, '_, '_>,
    classes: &Classes,
    statics: &Statics,
) -> Result<Pools, LinkEnd>
    requires cells { HasCellsOf names.now.classes (slice_index names.now.roles 0) classes.now }
    requires linked { AreLinkedClasses (length names.now.packages) classes.now names.now.methods }
    ensures value { IsDue (pools_of names.now.packages classes.now statics.now) result }
    ensures linked { IfOk result (λ pools. All (All (IsMember classes.now names.now.methods statics.now)) pools) }
    ensures few { IfOk result (λ pools. All (λ pool. length pool ≤ 65535) pools) }
{
    names.facts();
    let tables = MemberSites {
        statics: static_sites(alloc, statics)?,
        fields: field_sites(alloc, names, classes)?,
    };
    let (pools, least) = named(alloc, names, classes, statics, &tables)?;
    refuse(least)?;
    Ok(pools)
}

/// What the entries of the packages' constant pools name, by package and pool number.
pub fn members(
    alloc: Global,
    names: &Names<'_, '_, '_>,
    classes: &Classes,
    statics: &Statics,
) -> Result<Pools, LinkEnd>
    requires cells { HasCellsOf names.now.classes (slice_index names.now.roles 0) classes.now }
    requires linked { AreLinkedClasses (length names.now.packages) classes.now names.now.methods }
    ensures value { IsDue (pools_of names.now.packages classes.now statics.now) result }
    // The pools exactly where each entry has one member; else the least entry that does not.
    ensures tells { TellsPools names.now.packages classes.now statics.now result }
    // Each entry names one member, which the pools have; the entry that is told names none.
    ensures names { NamesEach names.now.packages classes.now statics.now result }
    // What is named is there.
    ensures linked { IfOk result (λ pools. All (All (IsMember classes.now names.now.methods statics.now)) pools) }
    ensures each { IfOk result (λ pools. length pools ≡ length names.now.packages) }
    ensures few { IfOk result (λ pools. All (λ pool. length pool ≤ 65535) pools) }
{
    pools_of(alloc, names, classes, statics)
}
