ghost use Rattle.std.specs.Prelude.{◌≡◌};
ghost use Rattle.cap_frame.specs.Directory.{directory_items};
ghost use Rattle.cap_components.specs.Components.{read_directory};
ghost use Rattle.cap_components.specs.Openings.{GivesOpening};
ghost use Rattle.cap_components.specs.Order.{least_of, least_from, refused};
ghost use Rattle.cap_components.specs.PartChecks.{components, optional, custom_tags, absent_fault, sized_fault, missing, form_fault};
ghost use Rattle.cap_components.specs.PartChecks.{size_fault};

use crate::components::Opening;
use crate::fault::PackFault;
use crate::parts::Parts;
use crate::read::info_in;
use cap_bytes::Part;
use cap_frame::Directory;
use first_fault::{least_from, lesser, refuse};

#[tactic(auto, unfolding(crate::specs::PartChecks::absent_fault))]
fn absent_fault(parts: &Parts<'_>, tag: u8) -> Option<PackFault>
    ensures { result ≡ absent_fault parts.now tag }
{
    let absent = parts.get(Part(tag)).is_none();
    absent.then_some(PackFault::MissingPart(tag))
}

#[tactic(auto, unfolding(crate::specs::PartChecks::sized_fault))]
fn sized_fault(parts: &Parts<'_>, directory: &Directory<'_>, tag: u8) -> Option<PackFault>
    ensures { result ≡ sized_fault parts.now (directory_items directory.now) tag }
{
    let size = directory.size(tag)?;
    if size == 0 {
        return None;
    }
    absent_fault(parts, tag)
}

/// The least of some parts that is absent.
#[tactic(auto, using(first_fault::proofs::LeastFound::least_slice))]
fn absent_among(parts: &Parts<'_>, tags: &[u8]) -> Option<PackFault>
    ensures { result ≡ least_of (absent_fault parts.now) tags.now }
{
    least_from(None, tags.iter(), |tag| absent_fault(parts, *tag))
}

/// The least fault so far, when the parts were compared with the Directory's sizes.
#[tactic(auto, using(first_fault::proofs::LeastFound::least_by_number))]
fn absent_sized(
    parts: &Parts<'_>,
    directory: &Directory<'_>,
    least: Option<PackFault>,
) -> Option<PackFault>
    ensures { result ≡ least_from (least_from least (sized_fault parts.now (directory_items directory.now)) optional)
        (sized_fault parts.now (directory_items directory.now)) (custom_tags (directory_items directory.now)) }
{
    let applet = lesser(least, sized_fault(parts, directory, 3));
    let least = lesser(applet, sized_fault(parts, directory, 10));
    least_from(least, directory.customs(), |custom| {
        sized_fault(parts, directory, custom.tag)
    })
}

/// Every part that must be there is.
#[tactic(auto, unfolding(crate::specs::Components::read_directory))]
pub(crate) fn none_missing(
    parts: &Parts<'_>,
    opening: &Result<Opening<'_>, PackFault>,
) -> Result<(), PackFault>
    requires { GivesOpening parts.now opening.now }
    ensures { result ≡ refused (missing parts.now (read_directory parts.now)) }
{
    let least = absent_among(parts, &[1, 2, 4, 5, 6, 7, 8, 9, 11]);
    match opening {
        Ok(opening) => refuse(absent_sized(parts, &opening.directory, least)),
        Err(_) => refuse(least),
    }
}

#[tactic(auto, unfolding(crate::specs::PartChecks::form_fault))]
fn form_fault(parts: &Parts<'_>, tag: u8) -> Option<PackFault>
    ensures { result ≡ form_fault parts.now tag }
{
    parts.get(Part(tag))?;
    info_in(parts, tag).err()
}

/// Every custom component that is there has its format.
#[tactic(auto, using(first_fault::proofs::LeastFound::least_by_number))]
pub fn customs_formed(parts: &Parts<'_>, directory: &Directory<'_>) -> Result<(), PackFault>
    ensures { result ≡ refused (least_of (form_fault parts.now) (custom_tags (directory_items directory.now))) }
{
    refuse(least_from(None, directory.customs(), |custom| {
        form_fault(parts, custom.tag)
    }))
}

#[tactic(auto, unfolding(crate::specs::PartChecks::size_fault))]
fn size_fault(parts: &Parts<'_>, directory: &Directory<'_>, tag: u8) -> Option<PackFault>
    ensures { result ≡ size_fault parts.now (directory_items directory.now) tag }
{
    let said = directory.size(tag)?;
    let info = info_in(parts, tag).ok()?;
    let found = info.bytes.len() as u16;
    (said != found).then_some(PackFault::SizeDisagrees(tag, said, found))
}

/// The Directory's size of every part is the part's own.
#[tactic(auto, using(first_fault::proofs::LeastFound::least_by_number))]
pub fn sizes_agree(parts: &Parts<'_>, directory: &Directory<'_>) -> Result<(), PackFault>
    ensures { result ≡ refused (least_from (least_of (size_fault parts.now (directory_items directory.now)) components)
        (size_fault parts.now (directory_items directory.now)) (custom_tags (directory_items directory.now))) }
{
    let least = size_faults(parts, directory, &[1, 2, 3, 4, 5, 6, 7, 8, 9, 10, 11]);
    refuse(least_from(least, directory.customs(), |custom| {
        size_fault(parts, directory, custom.tag)
    }))
}

/// The least fault of the sizes of some parts.
#[tactic(auto, using(first_fault::proofs::LeastFound::least_slice))]
fn size_faults(parts: &Parts<'_>, directory: &Directory<'_>, tags: &[u8]) -> Option<PackFault>
    ensures { result ≡ least_of (size_fault parts.now (directory_items directory.now)) tags.now }
{
    least_from(None, tags.iter(), |tag| size_fault(parts, directory, *tag))
}
