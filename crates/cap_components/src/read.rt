ghost use Rattle.std.specs.Prelude.{◌≡◌, ◌≤◌, length, Ok, IfOk, IfSome};
ghost use Rattle.cap_frame.specs.Framed.{info_bytes};
ghost use Rattle.cap_frame.specs.Header.{header_items};
ghost use Rattle.cap_frame.specs.HeaderFormat.{header_info};
ghost use Rattle.cap_frame.specs.Directory.{directory_items};
ghost use Rattle.cap_frame.specs.DirectoryFormat.{directory_info};
ghost use Rattle.cap_frame.specs.Imports.{packages};
ghost use Rattle.cap_frame.specs.ImportFormat.{imports_info};
ghost use Rattle.cap_frame.specs.Applets.{applets_of};
ghost use Rattle.cap_frame.specs.AppletFormat.{applets_info};
ghost use Rattle.cap_pool.specs.Pool.{entries};
ghost use Rattle.cap_pool.specs.PoolFormat.{pool_info};
ghost use Rattle.cap_pool.specs.Export.{export_seen as exported};
ghost use Rattle.cap_pool.specs.ExportFormat.{export_info};
ghost use Rattle.cap_pool.specs.Locations.{location_items};
ghost use Rattle.cap_pool.specs.LocationFormat.{locations_info};
ghost use Rattle.cap_class.specs.ClassPart.{records};
ghost use Rattle.cap_class.specs.ClassFormat.{classes_info};
ghost use Rattle.cap_method.specs.StaticPart.{statics_seen};
ghost use Rattle.cap_method.specs.StaticFormat.{statics_info};
ghost use Rattle.cap_components.specs.Descriptions.{description};
ghost use Rattle.cap_components.specs.Components.{AnswersAs, info_in, read_part, read_if_held, read_methods, read_description};
ghost use Rattle.cap_components.specs.MethodsSeen.{methods_seen};
ghost use Rattle.cap_components.specs.IfThere.{seen_if};
ghost use Rattle.cap_components.specs.Openings.{GivesOpening};

use crate::components::Opening;
use crate::fault::PackFault;
use crate::parts::Parts;
use cap_bytes::{Format, Part, View};
use cap_class::ClassPart;
use cap_desc::DescPart;
use cap_frame::{Applets, Directory, Header, Imports, applets, directory, frame, header, imports};
use cap_method::{MethodPart, StaticPart};
use cap_pool::{Export, Locations, Pool, export, locations, pool};

/// The info of the component with a tag.
#[tactic(auto, using(crate::proofs::Infos::read_or_refused), unfolding(crate::specs::Components::info_in))]
pub fn info_in<'a>(parts: &Parts<'a>, tag: u8) -> Result<View<'a>, PackFault>
    ensures value { AnswersAs info_bytes result (info_in parts.now tag) }
    ensures few { IfOk result (λ info. length info.bytes.now ≤ 65535) }
{
    match parts.get(Part(tag)) {
        None => Err(PackFault::MissingPart(tag)),
        Some(bytes) => Ok(frame(bytes, Part(tag))?),
    }
}

/// The Header component.
#[tactic(auto, using(crate::proofs::Infos::read_or_refused), unfolding(crate::specs::Components::read_part))]
pub fn header_in<'a>(parts: &Parts<'a>) -> Result<Header<'a>, PackFault>
    ensures value { AnswersAs header_items result (read_part header_info 1 parts.now) }
    ensures info { IfOk result (λ x. info_in parts.now 1 ≡ Ok x.info.bytes.now) }
{
    Ok(header(info_in(parts, 1)?)?)
}

/// The Directory component in a format.
#[tactic(auto, using(crate::proofs::Infos::read_or_refused), unfolding(crate::specs::Components::read_part))]
pub fn directory_in<'a>(parts: &Parts<'a>, format: Format) -> Result<Directory<'a>, PackFault>
    ensures value { AnswersAs directory_items result (read_part (directory_info format) 2 parts.now) }
    ensures info { IfOk result (λ x. info_in parts.now 2 ≡ Ok x.info.bytes.now) }
{
    Ok(directory(info_in(parts, 2)?, format)?)
}

/// The Header, and the Directory in the format that it names.
#[tactic(auto, unfolding(crate::specs::Components::read_directory))]
pub fn opening_in<'a>(parts: &Parts<'a>) -> Result<Opening<'a>, PackFault>
    ensures { GivesOpening parts.now result }
{
    let header = header_in(parts)?;
    let directory = directory_in(parts, header.format())?;
    Ok(Opening { header, directory })
}

/// The Import component.
#[tactic(auto, using(crate::proofs::Infos::read_or_refused), unfolding(crate::specs::Components::read_part))]
pub fn imports_in<'a>(parts: &Parts<'a>) -> Result<Imports<'a>, PackFault>
    ensures value { AnswersAs packages result (read_part imports_info 4 parts.now) }
    ensures info { IfOk result (λ x. info_in parts.now 4 ≡ Ok x.info.bytes.now) }
{
    Ok(imports(info_in(parts, 4)?)?)
}

/// The ConstantPool component.
#[tactic(auto, using(crate::proofs::Infos::read_or_refused), unfolding(crate::specs::Components::read_part))]
pub fn pool_in<'a>(parts: &Parts<'a>) -> Result<Pool<'a>, PackFault>
    ensures value { AnswersAs entries result (read_part pool_info 5 parts.now) }
    ensures info { IfOk result (λ x. info_in parts.now 5 ≡ Ok x.info.bytes.now) }
{
    Ok(pool(info_in(parts, 5)?)?)
}

/// The Class component in a format.
#[tactic(auto, using(crate::proofs::Infos::read_or_refused), unfolding(crate::specs::Components::read_part))]
pub fn classes_in<'a>(parts: &Parts<'a>, format: Format) -> Result<ClassPart<'a>, PackFault>
    ensures value { AnswersAs records result (read_part (classes_info format) 6 parts.now) }
    ensures info { IfOk result (λ x. info_in parts.now 6 ≡ Ok x.info.bytes.now) }
{
    Ok(cap_class::classes(info_in(parts, 6)?, format)?)
}

/// The StaticField component.
#[tactic(auto, using(crate::proofs::Infos::read_or_refused), unfolding(crate::specs::Components::read_part))]
pub fn statics_in<'a>(parts: &Parts<'a>) -> Result<StaticPart<'a>, PackFault>
    ensures value { AnswersAs statics_seen result (read_part statics_info 8 parts.now) }
    ensures info { IfOk result (λ x. info_in parts.now 8 ≡ Ok x.info.bytes.now) }
{
    Ok(cap_method::statics(info_in(parts, 8)?)?)
}

/// The ReferenceLocation component.
#[tactic(auto, using(crate::proofs::Infos::read_or_refused), unfolding(crate::specs::Components::read_part))]
pub fn locations_in<'a>(parts: &Parts<'a>) -> Result<Locations<'a>, PackFault>
    ensures value { AnswersAs location_items result (read_part locations_info 9 parts.now) }
    ensures info { IfOk result (λ x. info_in parts.now 9 ≡ Ok x.info.bytes.now) }
{
    Ok(locations(info_in(parts, 9)?)?)
}

/// The Method component.
#[tactic(auto, using(crate::proofs::Infos::read_or_refused), unfolding(crate::specs::Components::read_methods))]
pub fn methods_in<'a>(parts: &Parts<'a>) -> Result<MethodPart<'a>, PackFault>
    ensures { AnswersAs methods_seen result (read_methods parts.now) }
{
    Ok(cap_method::methods(info_in(parts, 7)?)?)
}

/// The Descriptor component.
#[tactic(auto, using(crate::proofs::Infos::read_or_refused), unfolding(crate::specs::Components::read_description))]
pub fn descriptor_in<'a>(parts: &Parts<'a>) -> Result<DescPart<'a>, PackFault>
    ensures { AnswersAs description result (read_description parts.now) }
{
    Ok(cap_desc::descriptor(info_in(parts, 11)?)?)
}

/// The Applet component.
#[tactic(auto, using(crate::proofs::Infos::read_or_refused), unfolding(crate::specs::Components::read_part))]
fn held_applets<'a>(parts: &Parts<'a>) -> Result<Applets<'a>, PackFault>
    ensures value { AnswersAs applets_of result (read_part applets_info 3 parts.now) }
    ensures info { IfOk result (λ x. info_in parts.now 3 ≡ Ok x.info.bytes.now) }
{
    Ok(applets(info_in(parts, 3)?)?)
}

/// The Applet component, where it is there.
#[tactic(auto, unfolding(crate::specs::Components::read_if_held))]
pub fn applets_in<'a>(parts: &Parts<'a>) -> Result<Option<Applets<'a>>, PackFault>
    ensures value { AnswersAs (seen_if applets_of) result (read_if_held applets_info 3 parts.now) }
    ensures info { IfOk result (λ o. IfSome o (λ x. info_in parts.now 3 ≡ Ok x.info.bytes.now)) }
{
    if parts.get(Part(3)).is_none() {
        return Ok(None);
    }
    Ok(Some(held_applets(parts)?))
}

/// The Export component.
#[tactic(auto, using(crate::proofs::Infos::read_or_refused), unfolding(crate::specs::Components::read_part))]
fn held_export<'a>(parts: &Parts<'a>) -> Result<Export<'a>, PackFault>
    ensures value { AnswersAs exported result (read_part export_info 10 parts.now) }
    ensures info { IfOk result (λ x. info_in parts.now 10 ≡ Ok x.info.bytes.now) }
{
    Ok(export(info_in(parts, 10)?)?)
}

/// The Export component, where it is there.
#[tactic(auto, unfolding(crate::specs::Components::read_if_held))]
pub fn export_in<'a>(parts: &Parts<'a>) -> Result<Option<Export<'a>>, PackFault>
    ensures value { AnswersAs (seen_if exported) result (read_if_held export_info 10 parts.now) }
    ensures info { IfOk result (λ o. IfSome o (λ x. info_in parts.now 10 ≡ Ok x.info.bytes.now)) }
{
    if parts.get(Part(10)).is_none() {
        return Ok(None);
    }
    Ok(Some(held_export(parts)?))
}
