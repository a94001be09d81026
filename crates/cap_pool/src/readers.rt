ghost use Rattle.std.specs.Prelude.{◌≡◌, ◌≤◌, length, IfOk, IfErr};
ghost use Rattle.cap_bytes.specs.Exact.{IsExact};
ghost use Rattle.cap_bytes.specs.Spelling.{info_of, Stands, Breaks};
ghost use Rattle.cap_bytes.specs.Taking.{Reads};
ghost use Rattle.cap_pool.specs.Pool.{entries};
ghost use Rattle.cap_pool.specs.PoolFormat.{pool_info};
ghost use Rattle.cap_pool.specs.Export.{export_seen};
ghost use Rattle.cap_pool.specs.ExportFormat.{export_info};
ghost use Rattle.cap_pool.specs.LocationFormat.{locations_info};
ghost use Rattle.cap_pool.specs.Locations.{location_items};

use crate::export_record::{Export, class};
use crate::lists::{ExportedClasses, PoolEntries};
use crate::location_record::Locations;
use crate::pool_record::{Pool, entry};
use cap_bytes::{Cursor, FormFault, View};

/// The tag of the component.
const CONSTANT_POOL: u8 = 5;

/// Reads the info of a ConstantPool component.
#[tactic(auto, using(cap_bytes::proofs::Laws::whole))]
pub fn pool(info: View<'_>) -> Result<Pool<'_>, FormFault>
    requires { length info.bytes.now ≤ 65535 }
    ensures found { IfOk result (λ x. Stands pool_info info.entry.bytes.now (entries x)) }
    ensures fault { IfErr result (λ e. Breaks (info_of 5) pool_info info.entry.bytes.now 0 e) }
    ensures exact { IsExact (info_of 5) pool_info info.entry.bytes.now }
    ensures info { IfOk result (λ x. x.info ≡ info.entry) }
{
    read_pool(info)
}

/// The items of the ConstantPool component.
#[tactic(auto, using(cap_bytes::proofs::Loops::passing, cap_bytes::proofs::Loops::yielding), unfolding(cap_bytes::specs::Reading::reading))]
fn read_pool(info: View<'_>) -> Result<Pool<'_>, FormFault>
    requires { length info.bytes.now ≤ 65535 }
    ensures value { Reads entries (info_of 5) pool_info info.entry.bytes.now result }
    ensures info { IfOk result (λ x. x.info ≡ info.entry) }
{
    let mut items = Cursor::of(info, CONSTANT_POOL);
    let left = items.u2()?;
    let entries = PoolEntries { items, left };
    'entries: for _ in 0..left {
        entry(&mut items)?;
    }
    items.end()?;
    Ok(Pool { info, entries })
}

/// The tag of the component.
const EXPORT: u8 = 10;

/// Reads the info of an Export component.
#[tactic(auto, using(cap_bytes::proofs::Laws::whole))]
pub fn export(info: View<'_>) -> Result<Export<'_>, FormFault>
    requires { length info.bytes.now ≤ 65535 }
    ensures found { IfOk result (λ x. Stands export_info info.entry.bytes.now (export_seen x)) }
    ensures fault { IfErr result (λ e. Breaks (info_of 10) export_info info.entry.bytes.now 0 e) }
    ensures exact { IsExact (info_of 10) export_info info.entry.bytes.now }
    ensures info { IfOk result (λ x. x.info ≡ info.entry) }
{
    read_export(info)
}

/// The items of the Export component.
#[tactic(auto, using(cap_bytes::proofs::Loops::passing, cap_bytes::proofs::Loops::yielding), unfolding(cap_bytes::specs::Reading::reading))]
fn read_export(info: View<'_>) -> Result<Export<'_>, FormFault>
    requires { length info.bytes.now ≤ 65535 }
    ensures value { Reads export_seen (info_of 10) export_info info.entry.bytes.now result }
    ensures info { IfOk result (λ x. x.info ≡ info.entry) }
{
    let mut items = Cursor::of(info, EXPORT);
    let left = items.u1()?;
    let classes = ExportedClasses { items, left };
    'classes: for _ in 0..left {
        class(&mut items)?;
    }
    items.end()?;
    Ok(Export { info, classes })
}

/// The tag of the component.
const REFERENCE_LOCATION: u8 = 9;

/// Reads the info of a ReferenceLocation component: its shape alone, not where the distances lead.
#[tactic(auto, using(cap_bytes::proofs::Laws::whole))]
pub fn locations(info: View<'_>) -> Result<Locations<'_>, FormFault>
    requires { length info.bytes.now ≤ 65535 }
    ensures found { IfOk result (λ x. Stands locations_info info.entry.bytes.now (location_items x)) }
    ensures fault { IfErr result (λ e. Breaks (info_of 9) locations_info info.entry.bytes.now 0 e) }
    ensures exact { IsExact (info_of 9) locations_info info.entry.bytes.now }
    ensures info { IfOk result (λ x. x.info ≡ info.entry) }
{
    read_locations(info)
}

/// The items of the ReferenceLocation component.
#[tactic(auto, unfolding(cap_bytes::specs::Reading::reading))]
fn read_locations(info: View<'_>) -> Result<Locations<'_>, FormFault>
    requires { length info.bytes.now ≤ 65535 }
    ensures value { Reads location_items (info_of 9) locations_info info.entry.bytes.now result }
    ensures info { IfOk result (λ x. x.info ≡ info.entry) }
{
    let mut items = Cursor::of(info, REFERENCE_LOCATION);
    let byte_count = items.u2()?;
    let byte = items.piece(byte_count as u32)?;
    let byte2_count = items.u2()?;
    let byte2 = items.piece(byte2_count as u32)?;
    items.end()?;
    Ok(Locations {
        info,
        byte,
        byte_count,
        byte2,
        byte2_count,
    })
}
