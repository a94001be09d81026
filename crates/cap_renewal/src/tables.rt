ghost use Rattle.std.specs.Prelude.{◌≡◌, ◌≤◌, ◌+◌, ◌*◌, length, map};
ghost use Rattle.cap_bytes.specs.Table.{numbers};
ghost use Rattle.cap_bytes.specs.Edit.{patched_all};
ghost use Rattle.cap_renewal.specs.Along.{table_edits};
ghost use Rattle.cap_renewal.specs.NewMethods.{to};
ghost use Rattle.cap_bytes.specs.declared.fault.Format.{Format};
ghost use Rattle.cap_bytes.specs.Spelling.{Stands};
ghost use Rattle.cap_class.specs.ClassFormat.{classes_info};
ghost use Rattle.cap_class.specs.ClassPart.{class_seen, records};
ghost use Rattle.cap_bytes.specs.Renewal.{Renews};
ghost use Rattle.cap_renewal.specs.ClassEdits.{class_edits, classes_edits, renewed_class};
ghost use Rattle.cap_renewal.specs.Rooms.{TablesFit};

use crate::new_methods::{NewMethods, are_small};
use cap_bytes::{Table, are_bytes, patch, patches_renew};
use cap_class::{ClassInfo, ClassPart};

/// Renews the offsets of methods in a table that stands at a place of a component's info.
#[tactic(auto, using(crate::proofs::Steps::one_edit))]
pub(crate) fn renew_table(table: Table<'_>, news: &NewMethods, start: usize, info: &mut [u8])
    requires { start + 2 * length (numbers table) ≤ length info.old }
    ensures value { info.new ≡ patched_all (table_edits (to news.now) start (numbers table.entry)) info.old }
    ensures long { length info.new ≡ length info.old }
{
    let mut at = start;
    'offsets: for offset in table {
        patch(info, at, news.offset(offset));
        at += 2;
    }
}

/// Renews the offsets in the dispatch tables in the info of the Class component, in either format. The info
/// is then that of the same records with the new offsets. No other byte changes.
pub fn renew_classes(classes: &ClassPart<'_>, news: &NewMethods, info: &mut [u8])
    requires { (format : Format) × Stands (classes_info format) info.old (records classes.now) }
    ensures renewed { Renews (classes_edits (to news.now) (records classes.now)) info.old info.new }
    ensures stands { (format : Format) → Stands (classes_info format) info.old (records classes.now)
        → Stands (classes_info format) info.new (map (renewed_class (to news.now)) (records classes.now)) }
{
    are_bytes(info);
    are_small(news);
    patches_renew();
    'classes: for class in classes.iter() {
        write_class(&class, news, info);
    }
}

/// Renews the offsets in the dispatch tables of a record. An interface has none.
#[tactic(auto, using(crate::proofs::Steps::interface_kept, crate::proofs::Steps::two_tables))]
fn write_class(class: &ClassInfo<'_>, news: &NewMethods, info: &mut [u8])
    requires { TablesFit (length info.old) (class_seen class.now) }
    ensures value { info.new ≡ patched_all (class_edits (to news.now) (class_seen class.now)) info.old }
    ensures long { length info.new ≡ length info.old }
{
    if class.flags().is_interface() {
        return;
    }
    let publics = class.publics();
    let start = class.offset() as usize + 10;
    renew_table(publics, news, start, info);
    let visible = start + 2 * publics.len() as usize;
    renew_table(class.package_table(), news, visible, info);
}
