ghost use Rattle.std.specs.Prelude.{◌≡◌, All, IfOk, map, slice_index};
ghost use Rattle.jc_decode.specs.Symbols.{handler};
ghost use Rattle.xf_layout.specs.Laid.{IsPlacedRange};

use crate::places::LabelPlaces;
use jc_decode::{LaidHandler, Range};
use std::alloc::{AllocError, Global};

/// The handlers of the ranges, in their order.
pub fn handlers(
    alloc: Global,
    ranges: &[Range],
    places: &LabelPlaces,
) -> Result<Vec<LaidHandler>, AllocError>
    requires { All (IsPlacedRange places.now) ranges.now }
    ensures { IfOk result (λ hs. hs.items ≡ map (handler (slice_index places.now)) ranges.now) }
{
    let mut handlers = Vec::with_capacity(alloc, ranges.len())?;
    'ranges: for range in ranges {
        handlers.push(handler(*range, places))?;
    }
    Ok(handlers)
}

fn handler(range: Range, places: &LabelPlaces) -> LaidHandler
    requires { IsPlacedRange places.now range }
    ensures { result ≡ handler (slice_index places.now) range }
{
    let start = places.at(range.from);
    LaidHandler {
        start: start as u16,
        length: (places.at(range.to) - start) as u16,
        entry: places.at(range.entry) as u16,
        pool: range.pool,
    }
}
