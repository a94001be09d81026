ghost use Rattle.std.specs.Prelude.{◌≡◌, ◌≤◌, length, map, sum_by, OnOk, ◌/◌, ◌∷◌, [], IfOk, slice_index};
ghost use Rattle.cap_method.specs.StaticPart.{array_seen, statics_seen};
ghost use Rattle.cap_package.specs.StaticPlaces.{static_places};
ghost use Rattle.first_fault.specs.Least.{refused};
ghost use Rattle.jc_link.specs.Words.{element_words, signed};
ghost use Rattle.jc_link.specs.Arrays.{array_record, array_records, initial_cells};
ghost use Rattle.jc_link.specs.Statics.{cells_at, static_cells};
ghost use Rattle.jc_link.specs.Room.{statics_fault, arrays_fault};
ghost use Rattle.jc_link.specs.Image.{image, references, word_at, words_at};
ghost use Rattle.jc_base.specs.Index.{words_of_bytes};

use byteorder::{BigEndian, ByteOrder};
use cap_method::{ArrayInit, StaticPart};
use cap_package::{Package, Packages};
use jc_base::{Initial, Kind};
use jc_resolve::{LinkFault, kind_of};
use std::alloc::{AllocError, Global};

/// The initial arrays of a world, and the cells of them and of the static fields.
const MOST_ARRAYS: u32 = 4096;

const MOST_CELLS: u32 = 32768;

/// The static cells of a package.
#[tactic(auto, using(crate::proofs::Counts::places_few))]
fn cells_of_package(package: &Package<'_, '_>) -> u32
    ensures is { result ≡ sum_by cells_at (static_places «package».now) }
    ensures few { result ≤ 262140 }
{
    let mut total: u32 = 0;
    'places: for place in package.static_places() {
        total += u32::from(kind_of(place.ty).width());
    }
    total
}

/// The static cells of all packages.
#[tactic(auto, using(crate::proofs::Counts::static_cells_more))]
fn static_cells(packages: &Packages<'_, '_>) -> u32
    requires { length packages.now ≤ 16 }
    ensures { result ≡ static_cells packages.now }
{
    let mut total: u32 = 0;
    'packages: for n in 0..packages.len() {
        total += cells_of_package(packages.at(n));
    }
    total
}

/// The cells of an initial array.
#[tactic(auto, using(crate::proofs::ArrayLists::words_length))]
fn cells_of_array(array: &ArrayInit<'_>) -> usize
    ensures { result ≡ length (element_words (array_seen array.now).kind (array_seen array.now).values) }
{
    if array.kind <= BYTE {
        array.values.len()
    } else {
        array.values.len() / 2
    }
}

/// The cells of the initial arrays of a package.
#[tactic(auto, using(crate::proofs::Counts::array_cells_few))]
fn array_cells_of_package(statics: &StaticPart<'_>) -> u32
    ensures is { result ≡ initial_cells (map array_record (statics_seen statics.now).arrays) }
    ensures few { result ≤ 65535 }
{
    let mut total: u32 = 0;
    'arrays: for array in statics.arrays() {
        total += cells_of_array(&array) as u32;
    }
    total
}

/// The cells of the initial arrays of all packages.
#[tactic(auto, using(crate::proofs::Counts::array_cells_more))]
fn array_cells(packages: &Packages<'_, '_>) -> u32
    requires { length packages.now ≤ 16 }
    ensures { result ≡ initial_cells (array_records packages.now) }
{
    let mut total: u32 = 0;
    'packages: for n in 0..packages.len() {
        total += array_cells_of_package(&packages.at(n).statics());
    }
    total
}

/// How many initial arrays there are.
#[tactic(auto, using(crate::proofs::Counts::array_count_more))]
fn array_count(packages: &Packages<'_, '_>) -> u32
    requires { length packages.now ≤ 16 }
    ensures { result ≡ length (array_records packages.now) }
{
    let mut total: u32 = 0;
    'packages: for n in 0..packages.len() {
        total += packages.at(n).statics().array_init_count() as u32;
    }
    total
}

/// The static fields have no more cells than a world.
pub fn statics_fit(packages: &Packages<'_, '_>) -> Result<(), LinkFault>
    requires { length packages.now ≤ 16 }
    ensures is { result ≡ refused (statics_fault packages.now) }
    ensures few { OnOk result (static_cells packages.now ≤ 32768) }
{
    let cells = static_cells(packages);
    if cells > MOST_CELLS {
        return Err(LinkFault::TooManyStatics(cells));
    }
    Ok(())
}

/// The initial arrays are no more than a world has, and have no more cells.
pub fn arrays_fit(packages: &Packages<'_, '_>) -> Result<(), LinkFault>
    requires { length packages.now ≤ 16 }
    ensures is { result ≡ refused (arrays_fault packages.now) }
    ensures few { OnOk result (length (array_records packages.now) ≤ 4096) }
    ensures cells { OnOk result (initial_cells (array_records packages.now) ≤ 32768) }
{
    let count = array_count(packages);
    if count > MOST_ARRAYS {
        return Err(LinkFault::NoRoom(count));
    }
    let cells = array_cells(packages);
    if cells > MOST_CELLS {
        return Err(LinkFault::NoRoom(cells));
    }
    Ok(())
}

/// A handle is a word.
const MOST_HANDLE: u32 = 65535;

/// The byte of the image at an offset.
#[tactic(auto, using(crate::proofs::ImageBytes::byte_in_zeros, crate::proofs::ImageBytes::byte_in_values))]
fn byte_at(statics: &StaticPart<'_>, offset: u32) -> u8
    ensures { result ≡ slice_index (image (statics_seen statics.now)) offset }
{
    let zeros = 2 * statics.reference_count() as u32 + statics.default_value_count() as u32;
    if offset < zeros {
        return 0;
    }
    let place = (offset - zeros) as usize;
    statics.values().get(place).copied().unwrap_or(0)
}

/// The word that two bytes of the image spell.
fn word_at(statics: &StaticPart<'_>, offset: u32) -> u16
    requires { offset ≤ 65537 }
    ensures { result ≡ word_at (image (statics_seen statics.now)) offset }
{
    BigEndian::read_u16(&[byte_at(statics, offset), byte_at(statics, offset + 1)])
}

/// The handle in the reference at an offset of the image, and 0 where it is null.
#[tactic(auto, using(crate::proofs::ImageBytes::handle_in, crate::proofs::ImageBytes::handle_past))]
fn reference_at(statics: &StaticPart<'_>, first: u32, offset: u16) -> u16
    ensures { result ≡ slice_index (references first (statics_seen statics.now)) (offset / 2) }
{
    let number = offset / 2;
    if number < statics.array_init_count() {
        first.saturating_add(number as u32).min(MOST_HANDLE) as u16
    } else {
        0
    }
}

fn one_word(alloc: Global, word: u16) -> Result<Initial, AllocError>
    ensures { IfOk result (λ ws. ws ≡ word ∷ []) }
{
    Ok(Initial::of(vec![in alloc; word]?))
}

/// The initial words of a field of a kind at an offset of the image, where the package's first initial
/// array has a handle.
pub(crate) fn words_at(
    alloc: Global,
    statics: &StaticPart<'_>,
    first: u32,
    kind: Kind,
    offset: u16,
) -> Result<Initial, AllocError>
    ensures { IfOk result (λ ws. ws ≡ words_at first (statics_seen statics.now) kind offset) }
{
    let place = offset as u32;
    match kind {
        Kind::Ref => one_word(alloc, reference_at(statics, first, offset)),
        Kind::Byte => one_word(alloc, signed(byte_at(statics, place))),
        Kind::Short => one_word(alloc, word_at(statics, place)),
        Kind::Int => {
            let high = word_at(statics, place);
            let low = word_at(statics, place + 2);
            Ok(Initial::of(vec![in alloc; high, low]?))
        }
    }
}

/// The type of elements that take one byte each, boolean being the other one.
pub(crate) const BYTE: u8 = 3;

/// A byte as a word, its sign in the upper half.
pub(crate) fn signed(byte: u8) -> u16
    ensures { result ≡ signed byte }
{
    if byte < 128 {
        byte as u16
    } else {
        0xFF00 + byte as u16
    }
}

/// Each byte as a word.
fn signed_words(alloc: Global, bytes: &[u8]) -> Result<Vec<u16>, AllocError>
    ensures { IfOk result (λ ws. ws.items ≡ map signed bytes.now) }
{
    let mut words = Vec::with_capacity(alloc, bytes.len())?;
    'bytes: for byte in bytes {
        words.push(signed(*byte))?;
    }
    Ok(words)
}

/// The words that bytes spell, two each.
fn wide_words(alloc: Global, bytes: &[u8]) -> Result<Vec<u16>, AllocError>
    ensures { IfOk result (λ ws. ws.items ≡ words_of_bytes bytes.now) }
{
    let mut words = Vec::with_capacity(alloc, bytes.len() / 2)?;
    let mut rest = bytes;
    'pairs: while let [high, low, others @ ..] = rest {
        words.push(BigEndian::read_u16(&[*high, *low]))?;
        rest = others;
    }
    Ok(words)
}

/// The words of the elements of an array of a type.
pub(crate) fn element_words(alloc: Global, kind: u8, bytes: &[u8]) -> Result<Vec<u16>, AllocError>
    ensures { IfOk result (λ ws. ws.items ≡ element_words kind bytes.now) }
{
    if kind <= BYTE {
        signed_words(alloc, bytes)
    } else {
        wide_words(alloc, bytes)
    }
}
