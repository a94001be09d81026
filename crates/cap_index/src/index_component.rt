ghost use Rattle.std.specs.Prelude.{◌≡◌, ◌++◌, is_some, count_by, IfOk, OnOk};
ghost use Rattle.std.specs.List.{flat_map};
ghost use Rattle.byteorder.specs.Endian.{big_bytes};
ghost use Rattle.cap_index.specs.TargetIndex.{AreShortCodes, HasEntries, IsIndexOf, IsListedIf, IsShortIf, vec_seen};

use crate::exact::exact_index;
use cap_bytes::View;
use jc_decode::Laid;
use std::alloc::{AllocError, Global};

/// The most entries that an info of 65,535 bytes has after its count.
const MOST_ENTRIES: usize = 32766;

/// The info of the target index of methods: how many of them have code, and then, for each that does, how many
/// places its exact index has and these places, each number in two bytes. There is none where it would have more than
/// 65,535 bytes.
pub fn index_info(alloc: Global, laid: &[Option<Laid>]) -> Result<Option<Vec<u8>>, AllocError>
    requires { AreShortCodes laid.now }
    ensures { IfOk result (λ info. IsIndexOf laid.now (vec_seen info)) }
{
    let entries = entries(alloc, laid)?;
    if entries.len() > MOST_ENTRIES {
        return Ok(None);
    }
    let count = count(laid) as u16;
    let mut info = Vec::with_capacity(alloc, 2 + 2 * entries.len())?;
    info.extend_from_slice(&count.to_be_bytes())?;
    put_numbers(&entries, &mut info)?;
    Ok(Some(info))
}

/// Of each method with code the number of the places of its exact index, and these places.
fn entries(alloc: Global, laid: &[Option<Laid>]) -> Result<Vec<u16>, AllocError>
    requires { AreShortCodes laid.now }
    ensures { IfOk result (λ entries. HasEntries laid.now entries.items) }
{
    let mut entries = Vec::new(alloc);
    'methods: for method in laid {
        put_method(alloc, method, &mut entries)?;
    }
    Ok(entries)
}

/// Appends the number of the places of a method's exact index, and these places, where it has code.
fn put_method(
    alloc: Global,
    method: &Option<Laid>,
    entries: &mut Vec<u16>,
) -> Result<(), AllocError>
    requires { IsShortIf method.now }
    ensures { OnOk result (IsListedIf method.now entries.old.items entries.new.items) }
{
    let Some(laid) = method else {
        return Ok(());
    };
    let index = exact_index(alloc, View::of(laid.code.as_slice()))?;
    entries.push(index.len() as u16)?;
    entries.extend_from_slice(&index)
}

/// How many methods have code.
fn count(laid: &[Option<Laid>]) -> usize
    ensures { result ≡ count_by is_some laid.now }
{
    let mut count = 0;
    'methods: for method in laid {
        if method.is_some() {
            count += 1;
        }
    }
    count
}

/// Appends numbers of two bytes. Where there is no memory some of them may be appended.
fn put_numbers(numbers: &[u16], out: &mut Vec<u8>) -> Result<(), AllocError>
    ensures { OnOk result (out.new.items ≡ out.old.items ++ flat_map (big_bytes 2) numbers.now) }
{
    'numbers: for number in numbers {
        out.extend_from_slice(&number.to_be_bytes())?;
    }
    Ok(())
}
