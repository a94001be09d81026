ghost use Rattle.std.specs.Prelude.{◌≡◌, ◌≤◌, length, IfOk, IfErr, option_map, slice_get};
ghost use Rattle.std.specs.Iterator.{YieldsFirstBy, item_count};
ghost use Rattle.cap_bytes.specs.Exact.{IsExact};
ghost use Rattle.cap_bytes.specs.Spelling.{info_of, Stands, Breaks};
ghost use Rattle.cap_bytes.specs.Taking.{Takes, Reads, bytes};
ghost use Rattle.cap_method.specs.StaticFormat.{is_whole, array_init_info, array_inits, non_default_values, statics_info};
ghost use Rattle.cap_method.specs.StaticPart.{array_seen, arrays_left, statics_seen};

use crate::static_part::{ArrayInits, StaticPart};
use cap_bytes::{Cursor, FormFault, FormKind, View};

/// The values of an array that a static field holds at first (section 6.10 of the specification).
#[derive(Clone, Copy)]
pub struct ArrayInit<'a> {
    /// The type of the elements: 2 boolean, 3 byte, 4 short, 5 int.
    pub kind: u8,
    /// The elements, one after the other, the highest byte of each first.
    pub values: &'a [u8],
}

/// The tag of the component.
const STATIC_FIELD: u8 = 8;

/// Whether so many bytes are whole elements of a primitive type.
fn whole(kind: u8, count: u16) -> bool
    ensures { result ≡ is_whole kind count }
{
    match kind {
        5 => count % 4 == 0,
        4 => count % 2 == 0,
        _ => true,
    }
}

/// The next initial array.
fn array_init<'a>(items: &mut Cursor<'a>) -> Result<ArrayInit<'a>, FormFault>
    ensures { Takes array_seen array_init_info items.old result items.new }
{
    let place = *items;
    let kind = items.u1()?;
    if kind < 2 || kind > 5 {
        return Err(place.fault(FormKind::BadValue));
    }
    let place = *items;
    let count = items.u2()?;
    if !whole(kind, count) {
        return Err(place.fault(FormKind::BadValue));
    }
    let values = items.piece(u32::from(count))?;
    Ok(ArrayInit { kind, values })
}

/// The initial arrays after their count, which no more than the references can be.
#[tactic(auto, using(cap_bytes::proofs::Loops::passing, cap_bytes::proofs::Loops::yielding))]
fn array_inits<'a>(
    items: &mut Cursor<'a>,
    reference_count: u16,
) -> Result<ArrayInits<'a>, FormFault>
    ensures { Takes arrays_left (array_inits reference_count) items.old result items.new }
{
    let place = *items;
    let left = items.u2()?;
    if left > reference_count {
        return Err(place.fault(FormKind::BadValue));
    }
    let first = *items;
    'arrays: for _ in 0..left {
        array_init(items)?;
    }
    Ok(ArrayInits { items: first, left })
}

/// The values after their count.
fn non_default_values<'a>(items: &mut Cursor<'a>) -> Result<&'a [u8], FormFault>
    ensures values { Takes bytes non_default_values items.old result items.new }
    ensures few { IfOk result (λ v. length v.now ≤ 65535) }
{
    let count = items.u2()?;
    items.piece(u32::from(count))
}

/// The items of the component.
#[tactic(auto, unfolding(cap_bytes::specs::Reading::reading))]
fn read(info: View<'_>) -> Result<StaticPart<'_>, FormFault>
    requires { length info.bytes.now ≤ 65535 }
    ensures value { Reads statics_seen (info_of 8) statics_info info.entry.bytes.now result }
    ensures info { IfOk result (λ x. x.info ≡ info.entry) }
{
    let mut items = Cursor::of(info, STATIC_FIELD);
    let image_size = items.u2()?;
    let reference_count = items.u2()?;
    let arrays = array_inits(&mut items, reference_count)?;
    let default_value_count = items.u2()?;
    let values = non_default_values(&mut items)?;
    items.end()?;
    Ok(StaticPart {
        info,
        image_size,
        reference_count,
        arrays,
        default_value_count,
        values,
    })
}

/// The StaticField component that the info is, or the first item that breaks its format.
#[tactic(auto, using(cap_bytes::proofs::Laws::whole))]
pub fn statics(info: View<'_>) -> Result<StaticPart<'_>, FormFault>
    requires { length info.bytes.now ≤ 65535 }
    ensures found { IfOk result (λ x. Stands statics_info info.entry.bytes.now (statics_seen x)) }
    ensures fault { IfErr result (λ e. Breaks (info_of 8) statics_info info.entry.bytes.now 0 e) }
    ensures exact { IsExact (info_of 8) statics_info info.entry.bytes.now }
    ensures info { IfOk result (λ x. x.info ≡ info.entry) }
{
    read(info)
}

impl<'a> Iterator for ArrayInits<'a> {
    type Item = ArrayInit<'a>;

    ghost next_gives = { YieldsFirstBy array_seen arrays_left };

    ghost remaining = { item_count arrays_left };

    #[tactic(auto, using(cap_bytes::proofs::Loops::yielding))]
    fn next(&mut self) -> Option<ArrayInit<'a>> {
        self.left = self.left.checked_sub(1)?;
        array_init(&mut self.items).ok()
    }
}

impl<'a> StaticPart<'a> {
    /// The info that the component was read from.
    pub fn info(&self) -> View<'a>
        ensures { result ≡ self.now.info }
    {
        self.info
    }

    /// The bytes of the image, as the component says.
    pub fn image_size(&self) -> u16
        ensures { result ≡ (statics_seen self.now).image_size }
    {
        self.image_size
    }

    /// The references at the image's beginning.
    pub fn reference_count(&self) -> u16
        ensures { result ≡ (statics_seen self.now).reference_count }
    {
        self.reference_count
    }

    /// The arrays that the first references name.
    #[tactic(auto, using(cap_bytes::proofs::Loops::yielding))]
    pub fn array_init_count(&self) -> u16
        ensures { result ≡ length (statics_seen self.now).arrays }
    {
        self.arrays.left
    }

    /// The bytes of zeros after the references.
    pub fn default_value_count(&self) -> u16
        ensures { result ≡ (statics_seen self.now).default_value_count }
    {
        self.default_value_count
    }

    /// The bytes of values after the zeros.
    pub fn non_default_value_count(&self) -> u16
        ensures { result ≡ length (statics_seen self.now).values }
    {
        self.values.len() as u16
    }

    /// The initial arrays, in order.
    pub fn arrays(&self) -> ArrayInits<'a>
        ensures arrays { arrays_left result ≡ (statics_seen self.now).arrays }
        ensures few { length (statics_seen self.now).arrays ≤ 65535 }
    {
        // Their number is one that `array_init_count` can answer.
        let _count = self.array_init_count();
        self.arrays
    }

    /// The n-th initial array, from 0.
    pub fn array(&self, n: u16) -> Option<ArrayInit<'a>>
        ensures { option_map array_seen result ≡ slice_get (statics_seen self.now).arrays n }
    {
        self.arrays().nth(n as usize)
    }

    /// The values after the zeros.
    pub fn values(&self) -> &'a [u8]
        ensures { result.now ≡ (statics_seen self.now).values }
    {
        self.values
    }
}
