ghost use Rattle.std.specs.Prelude.{map, IfOk};
ghost use Rattle.cap_renewal.specs.Files.{IsRenewed, IsRenewedIf, file_seen};
ghost use Rattle.cap_frame.specs.AppletFormat.{applets_info};
ghost use Rattle.cap_pool.specs.ExportFormat.{export_info};
ghost use Rattle.cap_pool.specs.PoolFormat.{pool_info};
ghost use Rattle.cap_renewal.specs.AppletEdits.{applets_edits, renewed_applet};
ghost use Rattle.cap_renewal.specs.ExportEdits.{export_edits, renewed_exported};
ghost use Rattle.cap_renewal.specs.NewMethods.{to};
ghost use Rattle.cap_renewal.specs.PoolEdits.{pool_edits, renewed_entry};

use crate::members::file_of;
use crate::{NewMethods, renew_applets, renew_export, renew_pool};
use cap_package::Package;
use std::alloc::{AllocError, Global};

/// The file of the Applet component with the new offsets of the install methods, where the package has one.
pub fn applet_file(
    alloc: Global,
    package: &Package<'_, '_>,
    news: &NewMethods,
) -> Result<Option<Vec<u8>>, AllocError>
    ensures { IfOk result (λ file. IsRenewedIf «package».now.parts 3 applets_info (map (renewed_applet (to news.now)))
        (applets_edits (to news.now)) «package».now.applets (file_seen file)) }
{
    let _parts = package.parts();
    let Some(applets) = package.applets() else {
        return Ok(None);
    };
    let mut info = applets.info().bytes.to_vec(alloc)?;
    renew_applets(&applets, news, info.as_mut_slice());
    Ok(Some(file_of(alloc, 3, &info)?))
}

/// The file of the ConstantPool component with the new offsets of the package's own static methods.
pub fn pool_file(
    alloc: Global,
    package: &Package<'_, '_>,
    news: &NewMethods,
) -> Result<Vec<u8>, AllocError>
    ensures { IfOk result (λ file. IsRenewed «package».now.parts 5 pool_info (map (renewed_entry (to news.now)))
        (pool_edits (to news.now)) «package».now.pool file.items) }
{
    let pool = package.pool();
    let mut info = pool.info().bytes.to_vec(alloc)?;
    renew_pool(&pool, news, info.as_mut_slice());
    file_of(alloc, 5, &info)
}

/// The file of the Export component with the new offsets of the exported static methods, where the package has one.
pub fn export_file(
    alloc: Global,
    package: &Package<'_, '_>,
    news: &NewMethods,
) -> Result<Option<Vec<u8>>, AllocError>
    ensures { IfOk result (λ file. IsRenewedIf «package».now.parts 10 export_info (map (renewed_exported (to news.now)))
        (export_edits (to news.now)) «package».now.export (file_seen file)) }
{
    let _parts = package.parts();
    let Some(export) = package.export() else {
        return Ok(None);
    };
    let mut info = export.info().bytes.to_vec(alloc)?;
    renew_export(&export, news, info.as_mut_slice());
    Ok(Some(file_of(alloc, 10, &info)?))
}
