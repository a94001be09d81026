ghost use Rattle.std.specs.Prelude.{◌≡◌, ◌≤◌, ◌+◌, length, map};
ghost use Rattle.cap_bytes.specs.Spelling.{Stands};
ghost use Rattle.cap_pool.specs.Pool.{entries, entry_seen};
ghost use Rattle.cap_pool.specs.PoolFormat.{pool_info};
ghost use Rattle.cap_bytes.specs.Edit.{patched_all};
ghost use Rattle.cap_bytes.specs.Renewal.{Renews};
ghost use Rattle.cap_renewal.specs.NewMethods.{to};
ghost use Rattle.cap_renewal.specs.PoolEdits.{entry_edits, pool_edits, renewed_entry};

use crate::new_methods::{NewMethods, are_small};
use cap_bytes::{are_bytes, patch, patches_renew};
use cap_pool::{Pool, PoolEntry, PoolReference, StaticReference};

/// Renews the offsets of the package's own static methods in the info of the ConstantPool component,
/// which is then that of the same entries with the new offsets. No other byte changes.
pub fn renew_pool(pool: &Pool<'_>, news: &NewMethods, info: &mut [u8])
    requires { Stands pool_info info.old (entries pool.now) }
    ensures renewed { Renews (pool_edits (to news.now) (entries pool.now)) info.old info.new }
    ensures stands { Stands pool_info info.new (map (renewed_entry (to news.now)) (entries pool.now)) }
{
    are_bytes(info);
    are_small(news);
    patches_renew();
    let mut at = 2;
    'entries: for entry in pool.iter() {
        write_entry(&entry, news, at, info);
        at += 4;
    }
}

/// Renews the offset in an entry that stands at a place, where it names a static method of the package.
fn write_entry(entry: &PoolEntry, news: &NewMethods, at: usize, info: &mut [u8])
    requires { at + 4 ≤ length info.old }
    ensures value { info.new ≡ patched_all (entry_edits (to news.now) at (entry_seen entry.now)) info.old }
    ensures long { length info.new ≡ length info.old }
{
    if let PoolReference::StaticMethod(StaticReference::Internal(offset)) = entry.reference() {
        patch(info, at + 2, news.offset(offset));
    }
}
