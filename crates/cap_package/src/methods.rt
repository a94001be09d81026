ghost use Rattle.std.specs.Prelude.{◌≡◌, ◌≤◌, length, map};
ghost use Rattle.offset_set.specs.Bits.{holds};
ghost use Rattle.cap_desc.specs.MembersLeft.{fields_of_left, methods_but_left};
ghost use Rattle.cap_package.specs.NameChecks.{is_class_at};
ghost use Rattle.cap_class.specs.ClassPart.{records};
ghost use Rattle.cap_package.specs.StaticChecks.{is_static_at};
ghost use Rattle.offset_set.specs.Tallies.{tallied, tally_of};
ghost use Rattle.cap_desc.specs.MemberRecords.{method_seen};
ghost use Rattle.cap_components.specs.declared.fault.PackFault.TheVariants.{MethodOverlaps};
ghost use Rattle.cap_components.specs.Order.{least_of, refused};
ghost use Rattle.cap_package.specs.Pairs.{pairs};
ghost use Rattle.cap_package.specs.MethodChecks.{overlap_pair, outside_fault};
ghost use Rattle.cap_package.specs.Reaches.{reach_by, method_start, method_end};

use crate::statics::image_offset;
use cap_bytes::View;
use cap_class::ClassPart;
use cap_components::{PackFault, code_end, refuse};
use cap_desc::{FieldsOf, MethodInfo, MethodsBut};
use first_fault::{keep_lesser, least_from};
use offset_set::{Offsets, Tally};

/// Where class records start.
#[tactic(auto, using(crate::proofs::OffsetLaws::filling))]
pub(crate) fn class_starts(classes: &ClassPart<'_>) -> Offsets
    ensures { holds result ≡ is_class_at (records classes.now) }
{
    let mut starts = Offsets::none();
    'classes: for class in classes.iter() {
        starts.insert(class.offset());
    }
    starts
}

/// Where static fields stand in the image.
#[tactic(auto, using(crate::proofs::OffsetLaws::filling))]
pub(crate) fn static_offsets(fields: FieldsOf<'_>) -> Offsets
    ensures { holds result ≡ is_static_at (fields_of_left fields.entry) }
{
    let mut offsets = Offsets::none();
    'fields: for field in fields {
        if field.flags.is_static() {
            offsets.insert(image_offset(&field));
        }
    }
    offsets
}

/// Where the described methods begin.
#[tactic(auto, using(offset_set::proofs::Tallying::all_counted))]
pub(crate) fn method_starts(described: MethodsBut<'_, '_>) -> Tally
    ensures { tallied result ≡ tally_of (map method_start (methods_but_left described.entry)) }
{
    let mut starts = Tally::none();
    'methods: for method in described {
        starts.count(method.method_offset);
    }
    starts
}

/// Whether a method reaches to the next one.
fn reaches(info: View<'_>, method: &MethodInfo, next: Option<u16>) -> Option<PackFault>
    requires { length info.bytes.now ≤ 65535 }
    ensures { result
        ≡ reach_by MethodOverlaps
        (method_seen method.now).method_offset
        (method_end info.entry.bytes.now (method_seen method.now))
        next }
{
    let next = next?;
    let end = code_end(info, method).min(info.bytes.len() as u32);
    ((next as u32) < end).then_some(PackFault::MethodOverlaps(method.method_offset, next))
}

/// No two described methods share a byte of the info. An overlap is one of neighbours: each method is asked whether it
/// reaches to the nearest other that begins from its own place on.
#[tactic(auto, using(crate::proofs::Overlaps::method_neighbours))]
pub(crate) fn methods_apart(
    info: View<'_>,
    described: MethodsBut<'_, '_>,
    starts: &Tally,
) -> Result<(), PackFault>
    requires short { length info.bytes.now ≤ 65535 }
    requires starts { tallied starts.now ≡ tally_of (map method_start (methods_but_left described)) }
    ensures { result ≡ refused (least_of (overlap_pair info.entry.bytes.now) (pairs (methods_but_left described.entry))) }
{
    let mut least = None;
    'methods: for method in described {
        let next = starts.nearest(method.method_offset);
        keep_lesser(&mut least, reaches(info, &method, next));
    }
    refuse(least)
}

/// Whether a method stands outside the place for methods.
#[tactic(auto, unfolding(crate::specs::MethodChecks::outside_fault))]
fn outside_fault(info: View<'_>, handler_count: u8, method: &MethodInfo) -> Option<PackFault>
    requires { length info.bytes.now ≤ 65535 }
    ensures { result ≡ outside_fault info.entry.bytes.now handler_count (method_seen method.now) }
{
    let table_end = 1 + 8 * handler_count as u32;
    let offset = method.method_offset;
    let outside = (offset as u32) < table_end || (info.bytes.len() as u32) < code_end(info, method);
    outside.then_some(PackFault::MethodOutside(offset))
}

/// No described method begins in the handler table or reaches past the info.
#[tactic(auto, using(first_fault::proofs::LeastFound::least_by))]
pub(crate) fn methods_inside(
    info: View<'_>,
    handler_count: u8,
    described: MethodsBut<'_, '_>,
) -> Result<(), PackFault>
    requires { length info.bytes.now ≤ 65535 }
    ensures { result ≡ refused (least_of (outside_fault info.entry.bytes.now handler_count) (methods_but_left described.entry)) }
{
    refuse(least_from(None, described, |method| {
        outside_fault(info, handler_count, &method)
    }))
}
