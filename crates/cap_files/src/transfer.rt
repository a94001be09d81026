ghost use Rattle.std.specs.Prelude.{◌≡◌, ◌≤◌, ◌<◌, ◌+◌, [], vec_len, IfOk, MatchBool, length, take, option_map};
ghost use Rattle.cap_files.specs.Counts.{CountsFault};
ghost use Rattle.cap_files.specs.Transfer.{TakesMore, TakesAll, GivesAll, CountsRead};
ghost use Rattle.cap_files.specs.Load.{IsHanded};

use crate::disk::Disk;
use crate::folder::{LoadEnd, StoreFailed};

// How much is read at once.
const CHUNK: usize = 4_096;

/// Reads the open file to its end, or until it is longer than a part can be. Every turn takes a byte, so
/// there are at most 65,539.
pub(crate) fn read_part<D: Disk>(disk: &mut D, to: &mut Vec<u8>) -> Result<(), LoadEnd>
    requires { to.old.items ≡ [] }
    ensures bytes { TakesAll (D.left disk.old) to.new.items result }
    ensures held { D.held disk.new ≡ D.held disk.old }
    ensures read_faults { CountsRead (D.read_faults disk.old) (D.read_faults disk.new) result }
    ensures write_faults { D.write_faults disk.new ≡ D.write_faults disk.old }
{
    'chunks: while to.len() <= LONGEST_PART {
        match read_more(disk, to) {
            Ok(true) => {}
            Ok(false) => return Ok(()),
            Err(end) => return Err(end),
        }
    }
    Err(LoadEnd::TooLong)
}

// Reads once, and answers whether anything was left.
fn read_more<D: Disk>(disk: &mut D, to: &mut Vec<u8>) -> Result<bool, LoadEnd>
    requires { vec_len to.old ≤ 65538 }
    ensures bytes { TakesMore (D.left disk.old) (D.left disk.new) to.old.items to.new.items result }
    ensures most { vec_len to.new ≤ 65539 }
    ensures held { D.held disk.new ≡ D.held disk.old }
    ensures read_faults { CountsRead (D.read_faults disk.old) (D.read_faults disk.new) result }
    ensures write_faults { D.write_faults disk.new ≡ D.write_faults disk.old }
    ensures more { IfOk result (λ more. MatchBool more (vec_len to.old < vec_len to.new) (to.new.items ≡ to.old.items)) }
{
    let mut chunk = [0u8; CHUNK];
    let room = CHUNK.min(LONGEST_PART + 1 - to.len());
    match disk.read(&mut chunk[..room]) {
        Ok(taken) => match to.extend_from_slice(&chunk[..taken]) {
            Ok(()) => Ok(taken > 0),
            Err(_) => Err(LoadEnd::Memory),
        },
        Err(_) => Err(LoadEnd::Failed),
    }
}

/// Writes all bytes to the open file.
pub(crate) fn write_part<D: Disk>(disk: &mut D, bytes: &[u8]) -> Result<(), StoreFailed>
    ensures bytes { GivesAll (D.written disk.old) (D.written disk.new) bytes.now result }
    ensures held { D.held disk.new ≡ D.held disk.old }
    ensures write_faults { CountsFault (D.write_faults disk.old) (D.write_faults disk.new) result }
    ensures read_faults { D.read_faults disk.new ≡ D.read_faults disk.old }
{
    let mut left = bytes;
    'pieces: while !left.is_empty() {
        match disk.write(left) {
            Ok(taken) => left = &left[taken..],
            Err(_) => return Err(StoreFailed),
        }
    }
    Ok(())
}

/// The most bytes of a component's file: its tag, its size of two bytes, and 65,535 bytes of info.
pub(crate) const LONGEST_PART: usize = 65_538;

/// Replaces the bytes of `to` by those of a part that is held, as a load does.
pub(crate) fn hand_over(held: Option<&[u8]>, to: &mut Vec<u8>) -> Result<bool, LoadEnd>
    ensures { IsHanded (option_map (λ b. b.now) held.entry) to.new.items result }
{
    to.clear();
    let Some(bytes) = held else {
        return Ok(false);
    };
    let long = bytes.len() > LONGEST_PART;
    let piece = if long {
        first(bytes, LONGEST_PART + 1)
    } else {
        bytes
    };
    match to.extend_from_slice(piece) {
        Ok(()) if long => Err(LoadEnd::TooLong),
        Ok(()) => Ok(true),
        Err(_) => Err(LoadEnd::Memory),
    }
}

// The first n bytes.
fn first(bytes: &[u8], n: usize) -> &[u8]
    requires { n ≤ length bytes.now }
    ensures len { length result.now ≡ n }
    ensures front { result.now ≡ take (length result.now) bytes.now }
{
    &bytes[..n]
}
