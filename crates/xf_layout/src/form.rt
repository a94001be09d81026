ghost use Rattle.std.specs.Prelude.{◌≡◌, ◌≤◌, slice_index, if◌then◌else◌};
ghost use Rattle.jc_decode.specs.Forms.{is_near};
ghost use Rattle.xf_layout.specs.Form.{form_bytes};
ghost use Rattle.xf_layout.specs.Places.{IsInRoom};
ghost use Rattle.xf_layout.specs.Widening.{is_short_jump, is_wide, shortest, widened_form};

use crate::places::LabelPlaces;
use jc_decode::Item;

/// The form of an item in code that is laid.
#[derive(Clone, Copy)]
pub enum Form {
    /// An instruction that is no jump, of so many bytes.
    Fixed(u32),
    /// A jump to a label: wide, with an offset of two bytes, or short, with one of one byte.
    Jump { label: u16, is_wide: bool },
    /// A label, which takes no byte.
    Mark(u16),
}

impl Form {
    /// The shortest form of an item.
    pub(crate) fn shortest(item: &Item) -> Form
        ensures { result ≡ shortest item.now }
    {
        match item {
            Item::Plain(insn) => Form::Fixed(insn.short_form().length()),
            Item::Branch { label, .. } => Form::Jump {
                label: *label,
                is_wide: false,
            },
            Item::Switch { insn, .. } => Form::Fixed(insn.length()),
            Item::Label(label) => Form::Mark(*label),
        }
    }

    /// The number of its bytes.
    pub(crate) fn bytes(self) -> u32
        ensures { result ≡ form_bytes self }
    {
        match self {
            Form::Fixed(bytes) => bytes,
            Form::Jump { is_wide: true, .. } => 3,
            Form::Jump { .. } => 2,
            Form::Mark(_) => 0,
        }
    }

    /// Whether this is a wide jump.
    pub(crate) fn is_wide(self) -> bool
        ensures { result ≡ is_wide self }
    {
        matches!(self, Form::Jump { is_wide: true, .. })
    }

    /// A number above that of its label, if it has one, and no less than another.
    pub(crate) fn room(self, least: usize) -> usize
        ensures inside { IsInRoom result self }
        ensures least { least ≤ result }
    {
        match self {
            Form::Mark(label) if least <= usize::from(label) => usize::from(label) + 1,
            _ => least,
        }
    }

    /// 1 of a short jump, and else 0.
    pub(crate) fn short_jumps(self) -> usize
        ensures { result ≡ (if is_short_jump self then 1 else 0) }
    {
        match self {
            Form::Jump { is_wide, .. } => usize::from(!is_wide),
            _ => 0,
        }
    }

    /// The form at a place: a jump is wide where it was, or where its label stands too far away.
    pub(crate) fn widened(self, places: &LabelPlaces, at: u32) -> Form
        ensures { result ≡ widened_form (slice_index places.now) at self }
    {
        match self {
            Form::Jump { label, is_wide } => {
                let is_near = is_near(i64::from(places.at(label)) - i64::from(at));
                Form::Jump {
                    label,
                    is_wide: is_wide || !is_near,
                }
            }
            other => other,
        }
    }
}

/// Whether an offset fits into one byte.
fn is_near(distance: i64) -> bool
    ensures { result ≡ is_near distance }
{
    -128 <= distance && distance <= 127
}
