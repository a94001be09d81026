ghost use Rattle.std.specs.Prelude.{◌≡◌, ◌≤◌, false, length, IfOk, Ok};
ghost use Rattle.jc_control.specs.ExactIndex.{IsExactIndex};
ghost use Rattle.cap_index.specs.Marking.{all_marked, flagged_from, mark, marked};
ghost use Rattle.jc_control.specs.Flags.{flag};
ghost use Rattle.jc_decode.specs.Decoding.{decoded};
ghost use Rattle.jc_decode.specs.Listing.{listing, targets};
ghost use Rattle.cap_index.specs.WorldIndexes.{IndexesAre};

use cap_bytes::View;
use jc_control::{Flags, Targets, instruction_places};
use jc_decode::{Instructions, Placed, instructions_are_listed};
use std::alloc::{AllocError, Global};

/// The exact target index of a method's code: the places of instructions to which its branches and switches lead, in
/// ascending order.
pub fn exact_index(alloc: Global, code: View<'_>) -> Result<Vec<u16>, AllocError>
    requires { length code.bytes.now ≤ 32767 }
    ensures exact { IfOk result (λ index. IsExactIndex code.entry.bytes.now index.items) }
    ensures few { IfOk result (λ index. length index.items ≤ length code.entry.bytes.now) }
{
    instructions_are_listed();
    let places = instruction_places(alloc, code)?;
    let mut flags = vec![in alloc; false; code.bytes.len()]?;
    mark_all(code, &places, &mut flags);
    let index = flagged(alloc, &flags)?;
    Ok(index)
}

/// Flags the targets of the code's instructions that are places of instructions.
fn mark_all(code: View<'_>, places: &Flags, flags: &mut Vec<bool>)
    requires { length code.bytes.now ≤ 32767 }
    ensures { flags.new.items ≡ all_marked code.entry.bytes.now (flag places.now) flags.old.items (listing code.entry.bytes.now) }
{
    instructions_are_listed();
    'walk: for placed in Instructions::of(code) {
        mark_targets(code, placed, places, flags);
    }
}

/// Flags those of one instruction.
fn mark_targets(code: View<'_>, placed: Placed, places: &Flags, flags: &mut Vec<bool>)
    requires short { length code.bytes.now ≤ 32767 }
    requires decoded { decoded code.bytes.now placed.place ≡ Ok placed.insn }
    ensures { flags.new.items ≡ marked (flag places.now) flags.old.items (targets code.entry.bytes.now placed) }
{
    'targets: for target in Targets::of(code, placed) {
        mark(target, places, flags);
    }
}

/// Flags a target where an instruction begins at it.
fn mark(target: i32, places: &Flags, flags: &mut Vec<bool>)
    ensures { flags.new.items ≡ mark (flag places.now) flags.old.items target }
{
    if let Ok(place) = u32::try_from(target) {
        if places.has(place) && (place as usize) < flags.len() {
            flags[place as usize] = true;
        }
    }
}

/// The places that are flagged, in ascending order.
fn flagged(alloc: Global, flags: &[bool]) -> Result<Vec<u16>, AllocError>
    requires { length flags.now ≤ 65535 }
    ensures places { IfOk result (λ places. places.items ≡ flagged_from 0 flags.now) }
    ensures few { IfOk result (λ places. length places.items ≤ length flags.now) }
{
    let mut places = Vec::new(alloc);
    let mut place: u16 = 0;
    'flags: for flag in flags {
        if *flag {
            places.push(place)?;
        }
        place += 1;
    }
    Ok(places)
}

/// What `indexes` makes of packages and methods, by number: a method with code has the list of its package's index that
/// stands at its position, and no index where the package has none that is well formed.
pub fn indexes_are()
    ensures { IndexesAre }
{}
