ghost use Rattle.std.specs.Prelude.{map};
ghost use Rattle.cap_bytes.specs.Spelling.{Stands};
ghost use Rattle.cap_pool.specs.Export.{export_seen as exported};
ghost use Rattle.cap_pool.specs.ExportFormat.{export_info};
ghost use Rattle.cap_bytes.specs.Renewal.{Renews};
ghost use Rattle.cap_renewal.specs.ExportEdits.{export_edits, renewed_exported};
ghost use Rattle.cap_renewal.specs.NewMethods.{to};
ghost use Rattle.cap_frame.specs.AppletFormat.{applets_info};
ghost use Rattle.cap_frame.specs.Applets.{applets_of};
ghost use Rattle.cap_renewal.specs.AppletEdits.{applets_edits, renewed_applet};

use crate::new_methods::{NewMethods, are_small};
use crate::tables::renew_table;
use cap_bytes::{are_bytes, patch, patches_renew};
use cap_frame::Applets;
use cap_pool::Export;

/// Renews the offsets of the static methods in the info of the Export component, which is then that of
/// the same classes with the new offsets. No other byte changes.
pub fn renew_export(export: &Export<'_>, news: &NewMethods, info: &mut [u8])
    requires { Stands export_info info.old (exported export.now) }
    ensures renewed { Renews (export_edits (to news.now) (exported export.now)) info.old info.new }
    ensures stands { Stands export_info info.new (map (renewed_exported (to news.now)) (exported export.now)) }
{
    are_bytes(info);
    are_small(news);
    patches_renew();
    let mut at = 1;
    'classes: for class in export.iter() {
        let methods = at + 4 + 2 * class.fields.len() as usize;
        renew_table(class.methods, news, methods, info);
        at = methods + 2 * class.methods.len() as usize;
    }
}

/// Renews the offsets of the install methods in the info of the Applet component, which is then that of the
/// same applets with the new offsets. No other byte changes.
pub fn renew_applets(applets: &Applets<'_>, news: &NewMethods, info: &mut [u8])
    requires { Stands applets_info info.old (applets_of applets.now) }
    ensures renewed { Renews (applets_edits (to news.now) (applets_of applets.now)) info.old info.new }
    ensures stands { Stands applets_info info.new (map (renewed_applet (to news.now)) (applets_of applets.now)) }
{
    are_bytes(info);
    are_small(news);
    patches_renew();
    let mut at = 1;
    'applets: for applet in applets.iter() {
        at += 1 + applet.aid.len();
        patch(info, at, news.offset(applet.install));
        at += 2;
    }
}
