ghost use Rattle.std.specs.Prelude.{◌≡◌, ◌≤◌, length, option_map, map};
ghost use Rattle.offset_set.specs.Tallies.{tallied, tally_of};
ghost use Rattle.cap_method.specs.StaticPart.{statics_seen};
ghost use Rattle.cap_desc.specs.MemberRecords.{field_seen};
ghost use Rattle.cap_desc.specs.MembersLeft.{fields_of_left};
ghost use Rattle.cap_components.specs.declared.fault.PackFault.TheVariants.{StaticOverlaps};
ghost use Rattle.cap_components.specs.Order.{least_of, least_from, refused};
ghost use Rattle.cap_package.specs.Pairs.{pairs};
ghost use Rattle.cap_components.specs.Descriptions.{description};
ghost use Rattle.cap_package.specs.StaticChecks.{image_offset, width_of, place_in, share_pair, is_in_image, image_fault, array_kinds};
ghost use Rattle.cap_package.specs.StaticChecks.{kind_at, filled_fault};
ghost use Rattle.cap_package.specs.Places.{place_seen};
ghost use Rattle.cap_package.specs.StaticPlaces.{places_left};
ghost use Rattle.cap_package.specs.Reaches.{reach_by, static_start, static_end};

use arrayvec::ArrayVec;
use byteorder::{BigEndian, ByteOrder};
use cap_components::{PackFault, field_type, refuse};
use cap_desc::{DescPart, FieldInfo, FieldsOf, TypeItem};
use cap_method::StaticPart;
use first_fault::{keep_lesser, least_from};
use offset_set::Tally;

/// The places in the image of the static fields that are left.
#[derive(Clone, Copy, Drop)]
pub struct StaticPlaces<'a> {
    pub(crate) descriptor: DescPart<'a>,
    pub(crate) fields: FieldsOf<'a>,
}

/// Where a static field stands in the image, and of which type it is.
#[derive(Clone, Copy)]
pub struct StaticPlace {
    pub offset: u16,
    pub ty: TypeItem,
}

impl Iterator for StaticPlaces<'_> {
    type Item = StaticPlace;

    ghost use Rattle.std.specs.Iterator.{YieldsFirstBy, item_count};
    ghost use Rattle.cap_package.specs.Places.{place_seen};
    ghost use Rattle.cap_package.specs.StaticPlaces.{places_left};

    ghost next_gives = { YieldsFirstBy place_seen places_left };

    ghost remaining = { item_count places_left };

    #[inline(always)]
    fn next(&mut self) -> Option<StaticPlace> {
        'fields: loop {
            let field = self.fields.next()?;
            if let Some(place) = place_in(&self.descriptor, &field) {
                return Some(place);
            }
        }
    }
}

/// The most initial arrays that two bytes can count.
const MOST_ARRAYS: usize = 65535;

/// As many as nearly every package has: room for their types is soon cleared.
const FEW_ARRAYS: usize = 255;

/// The offset of a static field in the image.
pub(crate) fn image_offset(field: &FieldInfo) -> u16
    ensures { result ≡ image_offset (field_seen field.now) }
{
    BigEndian::read_u16(&field.bytes[1..])
}

/// The bytes of a value of a type in the image.
fn width_of(ty: TypeItem) -> u32
    ensures { result ≡ width_of ty }
{
    match ty.nibble {
        TypeItem::BOOLEAN | TypeItem::BYTE => 1,
        TypeItem::INT => 4,
        _ => 2,
    }
}

/// Where a static field stands in the image, and of which type it is.
#[tactic(auto, unfolding(crate::specs::StaticChecks::place_in))]
#[inline(always)]
pub(crate) fn place_in(descriptor: &DescPart<'_>, field: &FieldInfo) -> Option<StaticPlace>
    ensures { option_map place_seen result ≡ place_in (description descriptor.now) (field_seen field.now) }
{
    let ty = field_type(descriptor, field.ty)?;
    if !field.flags.is_static() {
        return None;
    }
    Some(StaticPlace {
        offset: image_offset(field),
        ty,
    })
}

/// Where the static fields begin in the image.
#[tactic(auto, using(offset_set::proofs::Tallying::all_counted))]
fn static_starts(places: StaticPlaces<'_>) -> Tally
    ensures { tallied result ≡ tally_of (map static_start (places_left places.entry)) }
{
    let mut starts = Tally::none();
    'places: for place in places {
        starts.count(place.offset);
    }
    starts
}

/// Whether a static field reaches to the next one.
fn reaches(place: &StaticPlace, next: Option<u16>) -> Option<PackFault>
    ensures { result ≡ reach_by StaticOverlaps place.now.offset (static_end (place_seen place.now)) next }
{
    let next = next?;
    let overlaps = (next as u32) < place.offset as u32 + width_of(place.ty);
    overlaps.then_some(PackFault::StaticOverlaps(place.offset, next))
}

/// No two static fields share a byte. An overlap is one of neighbours: each field is asked whether it reaches to the
/// nearest other that begins from its own place on.
#[tactic(auto, using(crate::proofs::Overlaps::static_neighbours))]
pub(crate) fn statics_apart(places: StaticPlaces<'_>) -> Result<(), PackFault>
    ensures { result
        ≡ refused
        (least_of
        (share_pair (description places.entry.descriptor))
        (pairs (fields_of_left places.entry.fields))) }
{
    let starts = static_starts(places);
    let mut least = None;
    'places: for place in places {
        let next = starts.nearest(place.offset);
        keep_lesser(&mut least, reaches(&place, next));
    }
    refuse(least)
}

/// Whether a place lies in the part of the image for its kind.
#[inline(always)]
fn is_in_image(statics: &StaticPart<'_>, place: &StaticPlace) -> bool
    ensures { result ≡ is_in_image (statics_seen statics.now) (place_seen place.now) }
{
    let offset = place.offset as u32;
    let references_end = 2 * statics.reference_count() as u32;
    if place.ty.nibble >= TypeItem::REFERENCE {
        offset % 2 == 0 && offset + 2 <= references_end
    } else {
        references_end <= offset && offset + width_of(place.ty) <= statics.image_size() as u32
    }
}

#[tactic(auto, unfolding(crate::specs::StaticChecks::image_fault))]
#[inline(always)]
fn image_fault(
    statics: &StaticPart<'_>,
    descriptor: &DescPart<'_>,
    field: &FieldInfo,
) -> Option<PackFault>
    ensures { result ≡ image_fault (statics_seen statics.now) (description descriptor.now) (field_seen field.now) }
{
    let place = place_in(descriptor, field)?;
    (!is_in_image(statics, &place)).then_some(PackFault::StaticOutside(place.offset))
}

/// The types of the initial arrays, in the order in which they fill the references.
fn array_kinds<const MOST: usize>(statics: &StaticPart<'_>) -> ArrayVec<u8, MOST>
    requires { length (statics_seen statics.now).arrays ≤ MOST }
    ensures { result.items ≡ array_kinds (statics_seen statics.now).arrays }
{
    let count = statics.array_init_count();
    let mut kinds = ArrayVec::new();
    'arrays: for array in statics.arrays() {
        kinds.push(array.kind);
    }
    let _count = count;
    kinds
}

/// The type of the initial array that fills the reference at an offset, if one does.
#[tactic(auto, unfolding(crate::specs::StaticChecks::kind_at))]
fn kind_at(kinds: &[u8], offset: u16) -> Option<u8>
    ensures { result ≡ kind_at kinds.now offset }
{
    if offset % 2 == 0 {
        kinds.get(offset as usize / 2).copied()
    } else {
        None
    }
}

#[tactic(auto, unfolding(crate::specs::StaticChecks::filled_fault))]
#[inline(always)]
fn filled_fault(kinds: &[u8], descriptor: &DescPart<'_>, field: &FieldInfo) -> Option<PackFault>
    ensures { result ≡ filled_fault kinds.now (description descriptor.now) (field_seen field.now) }
{
    let kind = kind_at(kinds, image_offset(field))?;
    let place = place_in(descriptor, field)?;
    let differs = place.ty.nibble as u16 != kind as u16 + 8;
    differs.then_some(PackFault::StaticOutside(place.offset))
}

/// The least fault so far, when the fields were compared with initial arrays of these types.
#[tactic(auto, using(first_fault::proofs::LeastFound::least_by))]
fn filled_by(
    kinds: &[u8],
    descriptor: &DescPart<'_>,
    fields: FieldsOf<'_>,
    least: Option<PackFault>,
) -> Option<PackFault>
    ensures { result ≡ least_from least (filled_fault kinds.now (description descriptor.now)) (fields_of_left fields.entry) }
{
    least_from(least, fields, |field| {
        filled_fault(kinds, descriptor, &field)
    })
}

/// The least fault so far, when the fields were compared with the initial arrays that fill their references.
fn filled_faults(
    statics: &StaticPart<'_>,
    descriptor: &DescPart<'_>,
    fields: FieldsOf<'_>,
    least: Option<PackFault>,
) -> Option<PackFault>
    ensures { result
        ≡ least_from least
        (filled_fault (array_kinds (statics_seen statics.now).arrays) (description descriptor.now))
        (fields_of_left fields.entry) }
{
    let count = statics.array_init_count() as usize;
    if count == 0 {
        // No field is one that an array fills.
        return least;
    }
    if count <= FEW_ARRAYS {
        let kinds = array_kinds::<FEW_ARRAYS>(statics);
        return filled_by(kinds.as_slice(), descriptor, fields, least);
    }
    let kinds = array_kinds::<MOST_ARRAYS>(statics);
    filled_by(kinds.as_slice(), descriptor, fields, least)
}

/// Each static field lies in the part of the image for its kind, and is of the type of its initial array.
#[tactic(auto, using(first_fault::proofs::LeastFound::least_by))]
pub(crate) fn statics_in_image(
    statics: &StaticPart<'_>,
    descriptor: &DescPart<'_>,
    fields: FieldsOf<'_>,
) -> Result<(), PackFault>
    ensures { result ≡ refused (least_from
        (least_of (image_fault (statics_seen statics.now) (description descriptor.now)) (fields_of_left fields.entry))
        (filled_fault (array_kinds (statics_seen statics.now).arrays) (description descriptor.now)) (fields_of_left fields.entry)) }
{
    let least = least_from(None, fields, |field| {
        image_fault(statics, descriptor, &field)
    });
    refuse(filled_faults(statics, descriptor, fields, least))
}
