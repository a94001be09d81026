ghost use Rattle.std.specs.Prelude.{◌≤◌, length};

use cap_bytes::{FormFault, FormKind, Format, Part, View};
use cap_class::classes;
use cap_desc::descriptor;
use cap_frame::{applets, directory, frame, header, imports};
use cap_method::{methods, statics};
use cap_pool::{export, locations, pool};

/// The component, the offset and the kind of a fault, or `READ`.
pub(crate) type Told = (u8, u32, &'static str);

/// No fault.
pub(crate) const READ: Told = (0, 0, "read");

fn kind_name(kind: FormKind) -> &'static str {
    match kind {
        FormKind::Cut => "Cut",
        FormKind::WrongTag => "WrongTag",
        FormKind::BadMagic => "BadMagic",
        FormKind::BadVersion => "BadVersion",
        FormKind::Trailing => "Trailing",
        FormKind::BadValue => "BadValue",
        FormKind::Remote => "Remote",
    }
}

pub(crate) fn named(fault: FormFault) -> Told {
    (fault.part, fault.at, kind_name(fault.kind))
}

/// The first fault in the info of a component in format 2.2.
pub(crate) fn info_fault(part: Part, info: View<'_>) -> Told
    requires { length info.bytes.now ≤ 65535 }
{
    info_fault_in(Format::V22, part, info)
}

/// The first fault in the info of a component in a format.
pub(crate) fn info_fault_in(format: Format, part: Part, info: View<'_>) -> Told
    requires { length info.bytes.now ≤ 65535 }
{
    let fault = match part.0 {
        1 => header(info).err(),
        2 => directory(info, format).err(),
        3 => applets(info).err(),
        4 => imports(info).err(),
        5 => pool(info).err(),
        6 => classes(info, format).err(),
        7 => methods(info).err(),
        8 => statics(info).err(),
        9 => locations(info).err(),
        10 => export(info).err(),
        _ => descriptor(info).err(),
    };
    match fault {
        Some(fault) => named(fault),
        None => READ,
    }
}

/// The first fault in the file of a component.
pub(crate) fn file_fault(part: Part, file: &[u8]) -> Told {
    match frame(file, part) {
        Ok(info) => info_fault(part, info),
        Err(fault) => named(fault),
    }
}

/// The fault of a file with one byte changed.
pub(crate) fn changed_fault(part: Part, file: &[u8], at: usize, byte: u8) -> Told {
    let mut copy = [0u8; 100];
    if file.len() > 100 || at >= file.len() {
        return (0, 0, "no such byte");
    }
    copy[..file.len()].copy_from_slice(file);
    copy[at] = byte;
    file_fault(part, &copy[..file.len()])
}

/// A file with one byte more.
pub(crate) fn longer(file: &[u8]) -> [u8; 101]
    requires { length file.now ≤ 100 }
{
    let mut longer = [0u8; 101];
    longer[..file.len()].copy_from_slice(file);
    longer
}

/// Whether the info of a component ends too early at each length before its own, but for some.
pub(crate) fn ends_early(part: Part, info: &[u8], whole: &[usize]) -> bool {
    if info.len() > 100 {
        return false;
    }
    for n in 0..info.len() {
        let want = if whole.contains(&n) {
            READ
        } else {
            (part.0, 3 + n as u32, "Cut")
        };
        if info_fault(part, View::of(&info[..n])) != want {
            return false;
        }
    }
    true
}

/// Whether the file of a component ends too early at each length before its own.
fn is_cut(part: Part, file: &[u8]) -> bool {
    if file.len() > 100 {
        return false;
    }
    for n in 0..file.len() {
        if file_fault(part, &file[..n]) != (part.0, n as u32, "Cut") {
            return false;
        }
    }
    true
}

/// Whether a byte after the file of a component is named, and one after its info.
fn is_trailed(part: Part, file: &[u8]) -> bool {
    if file.len() < 3 || file.len() > 100 {
        return false;
    }
    let longer = longer(file);
    let end = file.len() + 1;
    let trailing = (part.0, file.len() as u32, "Trailing");
    file_fault(part, &longer[..end]) == trailing
        && info_fault(part, View::of(&longer[3..end])) == trailing
}

/// Whether the file of a component is read whole, and neither cut nor with one byte more.
pub(crate) fn is_exact(part: Part, file: &[u8]) -> bool {
    file.len() >= 3
        && file.len() <= 100
        && file_fault(part, file) == READ
        && is_cut(part, file)
        && ends_early(part, &file[3..], &[])
        && is_trailed(part, file)
}
