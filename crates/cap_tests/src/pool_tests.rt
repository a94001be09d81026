use crate::samples::{LOCATIONS, POOL, TWO_EXPORTS};
use cap_bytes::{ClassReference, View};
use cap_pool::{Pool, PoolEntry, PoolReference, StaticReference, export, locations, pool};

/// Whether the n-th entry of the sample refers to what stands there.
fn refers(n: usize, entry: PoolEntry) -> bool {
    match entry.reference() {
        PoolReference::Class(ClassReference::Internal(offset)) => n == 0 && offset == 12,
        PoolReference::InstanceField {
            class: ClassReference::Internal(offset),
            token,
        } => n == 1 && offset == 12 && token == 1,
        PoolReference::VirtualMethod {
            class: ClassReference::Internal(offset),
            token,
        } => n == 2 && offset == 12 && token == 0x82,
        PoolReference::SuperMethod {
            class: ClassReference::External { package, class },
            token,
        } => n == 3 && package == 0 && class == 1 && token == 2,
        PoolReference::StaticField(StaticReference::Internal(offset)) => n == 4 && offset == 4,
        PoolReference::StaticMethod(
            StaticReference::External {
                package,
                class,
                token,
            },
        ) => n == 5 && package == 1 && class == 2 && token == 3,
        _ => false,
    }
}

/// Whether a pool has one entry of each kind, in the order of their tags.
fn has_each_kind(pool: &Pool<'_>) -> bool {
    pool.info().bytes.len() == 26
        && pool.count() == 6
        && pool.iter().count() == 6
        && pool
            .iter()
            .enumerate()
            .position(|(n, entry)| !refers(n, entry))
            .is_none()
        && pool.at(6).is_none()
}

fn is_pool() -> bool {
    match pool(View::of(&POOL[3..])) {
        Ok(pool) => has_each_kind(&pool),
        Err(_) => false,
    }
}

fn is_export() -> bool {
    match export(View::of(&TWO_EXPORTS[3..])) {
        Ok(export) => {
            export.class(0).is_some_and(|class| class.method_count == 2)
                && export
                    .class(1)
                    .is_some_and(|class| class.class_offset == 30)
                && export.class(2).is_none()
                && export.field(0, 0) == Some(6)
                && export.field(0, 1) == None
                && export.method(0, 1) == Some(0x120)
                && export.method(1, 0) == None
        }
        Err(_) => false,
    }
}

fn are_locations() -> bool {
    match locations(View::of(&LOCATIONS[3..])) {
        Ok(locations) => {
            locations.byte_count() == 3
                && locations.byte(2) == Some(7)
                && locations.byte(3) == None
                && locations.byte2(0) == Some(9)
                && locations.bytes2().len() == 2
        }
        Err(_) => false,
    }
}

#[test]
fn a_pool_an_export_and_locations_give_their_entries(rt: HostRuntime) {
    assert!(rt; is_pool() && is_export() && are_locations());
}
