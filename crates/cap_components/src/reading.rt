ghost use Rattle.std.specs.Prelude.{◌≡◌, IfOk};
ghost use Rattle.offset_set.specs.Bits.{holds};
ghost use Rattle.cap_class.specs.ClassPart.{records};
ghost use Rattle.cap_components.specs.Components.{AnswersAs};
ghost use Rattle.cap_components.specs.ComponentsSeen.{components_seen};
ghost use Rattle.cap_components.specs.Infos.{HaveInfos};
ghost use Rattle.cap_components.specs.Openings.{IsOpening, GivesOpening};
ghost use Rattle.cap_components.specs.PackageRecord.{names_interface};
ghost use Rattle.cap_components.specs.ReadPackage.{read_package, read_whole};

use crate::components::{Components, Opening};
use crate::fault::PackFault;
use crate::part_checks::none_missing;
use crate::parts::Parts;
use crate::read::{
    applets_in, classes_in, descriptor_in, export_in, imports_in, locations_in, methods_in,
    opening_in, pool_in, statics_in,
};
use cap_class::ClassPart;
use offset_set::Offsets;

/// The components of a package, in the order of their tags.
pub fn read_package<'p, 'a>(parts: &'p Parts<'a>) -> Result<Components<'p, 'a>, PackFault>
    ensures value { AnswersAs components_seen result (read_package parts.now) }
    ensures parts { IfOk result (λ all. all.parts.now ≡ parts.now) }
    ensures infos { IfOk result (λ all. HaveInfos all) }
{
    read_opened(parts, opening_in(parts))
}

/// The components of a package of which no part that must be there is absent, where the Header and the Directory were
/// read.
#[tactic(auto, unfolding(crate::specs::ReadPackage::read_whole))]
pub fn read_whole_opened<'p, 'a>(
    parts: &'p Parts<'a>,
    opening: Result<Opening<'a>, PackFault>,
) -> Result<Components<'p, 'a>, PackFault>
    requires { GivesOpening parts.now opening }
    ensures value { AnswersAs components_seen result (read_whole parts.now) }
    ensures parts { IfOk result (λ all. all.parts.now ≡ parts.now) }
    ensures infos { IfOk result (λ all. HaveInfos all) }
{
    none_missing(parts, &opening)?;
    read_opened(parts, opening)
}

/// The components of a package whose Header and Directory were read.
#[tactic(auto, using(crate::proofs::Saying::unopened))]
fn read_opened<'p, 'a>(
    parts: &'p Parts<'a>,
    opening: Result<Opening<'a>, PackFault>,
) -> Result<Components<'p, 'a>, PackFault>
    requires { GivesOpening parts.now opening }
    ensures value { AnswersAs components_seen result (read_package parts.now) }
    ensures parts { IfOk result (λ all. all.parts.now ≡ parts.now) }
    ensures infos { IfOk result (λ all. HaveInfos all) }
{
    read_after(parts, opening?)
}

/// The components after the Header and the Directory.
#[tactic(auto, unfolding(crate::specs::ReadPackage::read_package, crate::specs::ReadPackage::read_after))]
fn read_after<'p, 'a>(
    parts: &'p Parts<'a>,
    opening: Opening<'a>,
) -> Result<Components<'p, 'a>, PackFault>
    requires { IsOpening parts.now opening }
    ensures value { AnswersAs components_seen result (read_package parts.now) }
    ensures parts { IfOk result (λ all. all.parts.now ≡ parts.now) }
    ensures infos { IfOk result (λ all. HaveInfos all) }
{
    let Opening { header, directory } = opening;
    Ok(Components {
        parts,
        header,
        directory,
        applets: applets_in(parts)?,
        imports: imports_in(parts)?,
        pool: pool_in(parts)?,
        classes: classes_in(parts, header.format())?,
        methods: methods_in(parts)?,
        statics: statics_in(parts)?,
        locations: locations_in(parts)?,
        export: export_in(parts)?,
        descriptor: descriptor_in(parts)?,
    })
}

/// Where the records of interfaces stand.
pub fn interface_offsets(classes: &ClassPart<'_>) -> Offsets
    ensures { holds result ≡ names_interface (records classes.now) }
{
    let mut offsets = Offsets::none();
    'classes: for class in classes.iter() {
        if class.flags().is_interface() {
            offsets.insert(class.offset());
        }
    }
    offsets
}
