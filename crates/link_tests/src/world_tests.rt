use crate::lending::lent;
use crate::library_and_user::{LIBRARY, LIBRARY_ROLES, USER};
use crate::reading::{owned, read};
use cap_package::{OwnedParts, Packages};
use cap_tests::{PLAIN, PLAIN_ROLES};
use jc_base::{Handler, Kind, Member, StaticRec, World};
use jc_link::{class_table, link};
use std::alloc::{AllocError, Global};

/// The kind of a member, and what it names.
type Named = (&'static str, u32, u32);

/// What the entries of the user's pool name.
const MEMBERS: [Named; 10] = [
    ("ClassOf", 2, 0),
    ("Virtual", 3, 0),
    ("Virtual", 3, 1),
    ("Virtual", 3, 128),
    ("Super", 3, 1),
    ("Static", 0, 0),
    ("StaticCall", 3, 0),
    ("Field", 3, 0),
    ("ClassOf", 3, 0),
    ("ClassOf", 2, 0),
];

fn names_of(member: Member) -> Named {
    match member {
        Member::ClassOf { class } => ("ClassOf", class as u32, 0),
        Member::Field { class, cell, .. } => ("Field", class as u32, cell as u32),
        Member::Virtual { class, token } => ("Virtual", class as u32, token as u32),
        Member::Super { class, method } => ("Super", class as u32, method as u32),
        Member::Static { slot, .. } => ("Static", slot as u32, 0),
        Member::StaticCall { method } => ("StaticCall", method as u32, 0),
    }
}

fn has_member(world: &World<'_>, n: u16, want: Named) -> bool {
    world.package_count() == 2 && n < world.pool_count(1) && names_of(world.member(1, n)) == want
}

/// The members of the user's pool.
fn has_members(world: &World<'_>) -> bool {
    let mut n = 0u16;
    for want in MEMBERS.iter() {
        if !has_member(world, n, *want) {
            return false;
        }
        n = n.wrapping_add(1);
    }
    world.package_count() == 2 && world.pool_count(1) == n
}

/// The dispatch lists of a class are these.
fn has_lists(world: &World<'_>, class: u16, public: &[u16], visible: &[u16]) -> bool {
    if class >= world.class_count() {
        return false;
    }
    let record = world.class(class);
    record.public.as_slice() == public && record.visible.as_slice() == visible
}

/// The code of the user's method with a handler.
static CODE: [u8; 5] = [0x04, 0x78, 0x3B, 0x03, 0x78];

fn is_handler(handler: &Handler) -> bool {
    handler.start == 0 && handler.end == 2 && handler.entry == 2 && handler.class == 2
}

/// The user's method with a handler.
fn has_handler(world: &World<'_>) -> bool {
    if world.method_count() != 7 {
        return false;
    }
    let handlers = world.method(5).handlers.as_slice();
    world.code(5) == CODE.as_slice() && handlers.len() == 1 && handlers.iter().all(is_handler)
}

/// The user's class, below throwable.
fn has_class(world: &World<'_>) -> bool {
    world.class_count() == 4
        && has_lists(world, 2, &[1], &[2])
        && has_lists(world, 3, &[4, 5], &[6])
        && world.class(3).cells == 1
        && world.is_concrete(3)
}

/// The world of the library and its user.
fn is_linked(alloc: Global, packages: &Packages<'_, '_>) -> bool {
    match link(alloc, packages, LIBRARY_ROLES) {
        Ok(world) => has_members(&world) && has_class(&world) && has_handler(&world),
        Err(_) => false,
    }
}

/// The table of its classes.
fn has_table(alloc: Global, packages: &Packages<'_, '_>) -> bool {
    match class_table(alloc, packages, LIBRARY_ROLES) {
        Ok(table) => table.len() == 4,
        Err(_) => false,
    }
}

fn are_linked(alloc: Global, packages: &[OwnedParts]) -> Result<bool, AllocError> {
    let parts = lent(alloc, packages)?;
    let packages = read(alloc, &parts)?;
    Ok(is_linked(alloc, &packages) && has_table(alloc, &packages))
}

fn both_are_linked(alloc: Global) -> Result<bool, AllocError> {
    let packages = owned(alloc, &[(&LIBRARY, &[]), (&USER, &[])])?;
    are_linked(alloc, &packages)
}

#[test]
fn a_library_and_its_user_have_their_members_classes_and_handlers(
    rt: HostRuntime,
) -> Result<(), AllocError> {
    assert!(rt; both_are_linked(rt.alloc())?);
    Ok(())
}

/// A short in cell 0, of value 7.
fn is_seven(field: &StaticRec) -> bool {
    matches!(field.kind, Kind::Short)
        && field.slot == 0
        && field.initial.as_slice() == [7].as_slice()
}

/// The world of package T: eight classes, two methods and one static cell.
fn is_plain(world: &World<'_>) -> bool {
    world.class_count() == 8
        && world.method_count() == 2
        && world.static_count() == 1
        && is_seven(world.static_field(0))
}

fn links_plain(alloc: Global, packages: &Packages<'_, '_>) -> bool {
    match link(alloc, packages, PLAIN_ROLES) {
        Ok(world) => is_plain(&world),
        Err(_) => false,
    }
}

fn link_plain(alloc: Global, packages: &[OwnedParts]) -> Result<bool, AllocError> {
    let parts = lent(alloc, packages)?;
    let packages = read(alloc, &parts)?;
    Ok(links_plain(alloc, &packages))
}

fn plain_is_linked(alloc: Global) -> Result<bool, AllocError> {
    let packages = owned(alloc, &[(&PLAIN, &[])])?;
    link_plain(alloc, &packages)
}

#[test]
fn a_plain_package_has_its_static_field(rt: HostRuntime) -> Result<(), AllocError> {
    assert!(rt; plain_is_linked(rt.alloc())?);
    Ok(())
}
