ghost use Rattle.std.specs.Prelude.{◌≡◌, ◌≤◌, length, IfOk, IfErr};
ghost use Rattle.cap_bytes.specs.Exact.{IsExact};
ghost use Rattle.cap_bytes.specs.Spelling.{info_of, Stands, Breaks};
ghost use Rattle.cap_bytes.specs.Taking.{Takes, Reads, same, bytes};
ghost use Rattle.cap_frame.specs.Header.{header_items};
ghost use Rattle.cap_frame.specs.HeaderFormat.{magic, version, name_info, header_info};
ghost use Rattle.cap_frame.specs.Directory.{custom_seen, customs_left, image_sizes_seen, directory_items};
ghost use Rattle.cap_frame.specs.DirectoryFormat.{custom_info, after_tag, customs_info, none, size_count, image_sizes_info};
ghost use Rattle.cap_frame.specs.DirectoryFormat.{directory_info};
ghost use Rattle.cap_frame.specs.Tags.{named_in};
ghost use Rattle.cap_frame.specs.ImportFormat.{imports_info};
ghost use Rattle.cap_frame.specs.Imports.{packages};
ghost use Rattle.cap_frame.specs.AppletFormat.{applet_info, applets_info};
ghost use Rattle.cap_frame.specs.Applets.{applet_seen, applets_of};

use crate::applet_record::{AppletInfo, Applets};
use crate::directory_record::{CustomEntry, Directory, ImageSizes};
use crate::header_record::{Header, HeaderFlags};
use crate::import_record::{Imports, package_info};
use crate::lists::{AppletInfos, CustomEntries, PackageInfos};
use cap_bytes::{Cursor, FormFault, FormKind, Format, View};

/// The tag of the component.
const HEADER: u8 = 1;

/// Reads the info of a Header component.
#[tactic(auto, using(cap_bytes::proofs::Laws::whole))]
pub fn header(info: View<'_>) -> Result<Header<'_>, FormFault>
    requires { length info.bytes.now ≤ 65535 }
    ensures found { IfOk result (λ x. Stands header_info info.entry.bytes.now (header_items x)) }
    ensures fault { IfErr result (λ e. Breaks (info_of 1) header_info info.entry.bytes.now 0 e) }
    ensures exact { IsExact (info_of 1) header_info info.entry.bytes.now }
    ensures info { IfOk result (λ x. x.info ≡ info.entry) }
{
    read_header(info)
}

/// The items of the Header component.
#[tactic(auto, unfolding(cap_bytes::specs::Reading::reading))]
fn read_header(info: View<'_>) -> Result<Header<'_>, FormFault>
    requires { length info.bytes.now ≤ 65535 }
    ensures value { Reads header_items (info_of 1) header_info info.entry.bytes.now result }
    ensures info { IfOk result (λ x. x.info ≡ info.entry) }
{
    let mut items = Cursor::of(info, HEADER);
    magic(&mut items)?;
    let format = version(&mut items)?;
    let flags = HeaderFlags::of(items.u1()?);
    let package = package_info(&mut items)?;
    let name = name(&mut items, format)?;
    items.end()?;
    Ok(Header {
        info,
        format,
        flags,
        package,
        name,
    })
}

/// The magic number.
#[tactic(auto, unfolding(crate::specs::HeaderFormat::magic))]
fn magic(items: &mut Cursor<'_>) -> Result<u32, FormFault>
    ensures { Takes same magic items.old result items.new }
{
    let place = *items;
    let first = items.u4()?;
    if first != 0xDECA_FFED {
        return Err(place.fault(FormKind::BadMagic));
    }
    Ok(first)
}

/// The format's version: its minor number, and then its major one.
#[tactic(auto, unfolding(crate::specs::HeaderFormat::version))]
fn version(items: &mut Cursor<'_>) -> Result<Format, FormFault>
    ensures { Takes same version items.old result items.new }
{
    let minor_place = *items;
    let minor = items.u1()?;
    if minor != 1 && minor != 2 {
        return Err(minor_place.fault(FormKind::BadVersion));
    }
    let major_place = *items;
    if items.u1()? != 2 {
        return Err(major_place.fault(FormKind::BadVersion));
    }
    Ok(if minor == 1 { Format::V21 } else { Format::V22 })
}

/// The package's name.
#[tactic(auto, unfolding(crate::specs::HeaderFormat::name_info))]
fn name<'a>(items: &mut Cursor<'a>, format: Format) -> Result<&'a [u8], FormFault>
    ensures { Takes bytes (name_info format) items.old result items.new }
{
    match format {
        Format::V21 => Ok(&[]),
        Format::V22 => {
            let length = items.u1()?;
            items.piece(length as u32)
        }
    }
}

/// The tag of the component.
const DIRECTORY: u8 = 2;

/// Reads the info of a Directory component in the format that the Header names.
#[tactic(auto, using(cap_bytes::proofs::Laws::whole))]
pub fn directory(info: View<'_>, format: Format) -> Result<Directory<'_>, FormFault>
    requires { length info.bytes.now ≤ 65535 }
    ensures found { IfOk result (λ x. Stands (directory_info format) info.entry.bytes.now (directory_items x)) }
    ensures fault { IfErr result (λ e. Breaks (info_of 2) (directory_info format) info.entry.bytes.now 0 e) }
    ensures exact { IsExact (info_of 2) (directory_info format) info.entry.bytes.now }
    ensures info { IfOk result (λ x. x.info ≡ info.entry) }
{
    read_directory(info, format)
}

/// The items of the Directory component.
#[tactic(auto, using(cap_bytes::proofs::Loops::yielding), unfolding(cap_bytes::specs::Reading::reading))]
fn read_directory(info: View<'_>, format: Format) -> Result<Directory<'_>, FormFault>
    requires { length info.bytes.now ≤ 65535 }
    ensures value { Reads directory_items (info_of 2) (directory_info format) info.entry.bytes.now result }
    ensures info { IfOk result (λ x. x.info ≡ info.entry) }
{
    let mut items = Cursor::of(info, DIRECTORY);
    let sizes = items.table(size_count(format))?;
    let image = image_sizes(&mut items)?;
    let import_count = items.u1()?;
    let applet_count = items.u1()?;
    let customs = customs(&mut items)?;
    items.end()?;
    Ok(Directory {
        info,
        sizes,
        image,
        import_count,
        applet_count,
        customs,
    })
}

/// How many components have a size.
fn size_count(format: Format) -> u16
    ensures { result ≡ size_count format }
{
    match format {
        Format::V21 => 11,
        Format::V22 => 12,
    }
}

/// What the Directory says of the static image.
fn image_sizes(items: &mut Cursor<'_>) -> Result<ImageSizes, FormFault>
    ensures { Takes image_sizes_seen image_sizes_info items.old result items.new }
{
    Ok(ImageSizes {
        image_size: items.u2()?,
        array_init_count: items.u2()?,
        array_init_size: items.u2()?,
    })
}

/// The custom components after the byte that counts them, no two of one tag.
#[tactic(auto, using(cap_bytes::proofs::Loops::yielding, crate::proofs::Customs::naming, crate::proofs::Customs::customs_known))]
fn customs<'a>(items: &mut Cursor<'a>) -> Result<CustomEntries<'a>, FormFault>
    ensures { Takes customs_left customs_info items.old result items.new }
{
    let left = items.u1()?;
    let first = *items;
    let mut named = [false; 256];
    'customs: for _ in 0..left {
        let custom = new_custom(items, &named)?;
        named[custom.tag as usize] = true;
    }
    Ok(CustomEntries { items: first, left })
}

/// The next custom component, whose tag is none of those that are named.
fn new_custom<'a>(items: &mut Cursor<'a>, named: &[bool; 256]) -> Result<CustomEntry<'a>, FormFault>
    ensures { Takes custom_seen (custom_info (named_in named.now)) items.old result items.new }
{
    let place = *items;
    let tag = items.u1()?;
    if tag < 128 || named[tag as usize] {
        return Err(place.fault(FormKind::BadValue));
    }
    after_tag(items, tag)
}

/// The next custom component, where nothing is asked of its tag but that it is from 128.
pub(crate) fn custom_info<'a>(items: &mut Cursor<'a>) -> Result<CustomEntry<'a>, FormFault>
    ensures { Takes custom_seen (custom_info none) items.old result items.new }
{
    let place = *items;
    let tag = items.u1()?;
    if tag < 128 {
        return Err(place.fault(FormKind::BadValue));
    }
    after_tag(items, tag)
}

/// What stands after a custom component's tag.
fn after_tag<'a>(items: &mut Cursor<'a>, tag: u8) -> Result<CustomEntry<'a>, FormFault>
    ensures { Takes custom_seen (after_tag tag) items.old result items.new }
{
    let size = items.u2()?;
    let aid = items.aid()?;
    Ok(CustomEntry { tag, size, aid })
}

/// The tag of the component.
const IMPORT: u8 = 4;

/// Reads the info of an Import component.
#[tactic(auto, using(cap_bytes::proofs::Laws::whole))]
pub fn imports(info: View<'_>) -> Result<Imports<'_>, FormFault>
    requires { length info.bytes.now ≤ 65535 }
    ensures found { IfOk result (λ x. Stands imports_info info.entry.bytes.now (packages x)) }
    ensures fault { IfErr result (λ e. Breaks (info_of 4) imports_info info.entry.bytes.now 0 e) }
    ensures exact { IsExact (info_of 4) imports_info info.entry.bytes.now }
    ensures info { IfOk result (λ x. x.info ≡ info.entry) }
{
    read_imports(info)
}

/// The items of the Import component.
#[tactic(auto, using(cap_bytes::proofs::Loops::passing, cap_bytes::proofs::Loops::yielding), unfolding(cap_bytes::specs::Reading::reading))]
fn read_imports(info: View<'_>) -> Result<Imports<'_>, FormFault>
    requires { length info.bytes.now ≤ 65535 }
    ensures value { Reads packages (info_of 4) imports_info info.entry.bytes.now result }
    ensures info { IfOk result (λ x. x.info ≡ info.entry) }
{
    let mut items = Cursor::of(info, IMPORT);
    let left = items.u1()?;
    let packages = PackageInfos { items, left };
    'packages: for _ in 0..left {
        package_info(&mut items)?;
    }
    items.end()?;
    Ok(Imports { info, packages })
}

/// The tag of the component.
const APPLET: u8 = 3;

/// Reads the info of an Applet component.
#[tactic(auto, using(cap_bytes::proofs::Laws::whole))]
pub fn applets(info: View<'_>) -> Result<Applets<'_>, FormFault>
    requires { length info.bytes.now ≤ 65535 }
    ensures found { IfOk result (λ x. Stands applets_info info.entry.bytes.now (applets_of x)) }
    ensures fault { IfErr result (λ e. Breaks (info_of 3) applets_info info.entry.bytes.now 0 e) }
    ensures exact { IsExact (info_of 3) applets_info info.entry.bytes.now }
    ensures info { IfOk result (λ x. x.info ≡ info.entry) }
{
    read_applets(info)
}

/// The items of the Applet component.
#[tactic(auto, using(cap_bytes::proofs::Loops::passing, cap_bytes::proofs::Loops::yielding), unfolding(cap_bytes::specs::Reading::reading))]
fn read_applets(info: View<'_>) -> Result<Applets<'_>, FormFault>
    requires { length info.bytes.now ≤ 65535 }
    ensures value { Reads applets_of (info_of 3) applets_info info.entry.bytes.now result }
    ensures info { IfOk result (λ x. x.info ≡ info.entry) }
{
    let mut items = Cursor::of(info, APPLET);
    let left = items.u1()?;
    let applets = AppletInfos { items, left };
    'applets: for _ in 0..left {
        applet_info(&mut items)?;
    }
    items.end()?;
    Ok(Applets { info, applets })
}

/// The next applet.
pub(crate) fn applet_info<'a>(items: &mut Cursor<'a>) -> Result<AppletInfo<'a>, FormFault>
    ensures { Takes applet_seen applet_info items.old result items.new }
{
    let aid = items.aid()?;
    let install = items.u2()?;
    Ok(AppletInfo { aid, install })
}
