ghost use Rattle.std.specs.Prelude.{◌≡◌, ◌+◌, ◌≤◌, ◌↔◌, length, take, drop, IsSome, IfSome};
ghost use Rattle.cap_bytes.specs.Number.{number_at};
ghost use Rattle.cap_bytes.specs.Bytes.{AreBytes};
ghost use Rattle.cap_bytes.specs.Edit.{patched};
ghost use Rattle.cap_bytes.specs.EditedBytes.{PatchesRenew};

use byteorder::{BigEndian, ByteOrder};

/// A borrowed list of bytes, read at offsets from its first byte.
#[derive(Clone, Copy)]
pub struct View<'a> {
    pub bytes: &'a [u8],
}

impl<'a> View<'a> {
    /// These bytes, from their first one on.
    pub fn of(bytes: &'a [u8]) -> View<'a>
        ensures { result.bytes.now ≡ bytes.now }
    {
        View { bytes }
    }

    /// The byte at an offset, where the bytes reach.
    pub fn u1(self, at: u32) -> Option<u8>
        ensures { result ≡ number_at 1 at self.entry.bytes.now }
    {
        self.bytes.get(at as usize).copied()
    }

    /// The big-endian number of two bytes at an offset, where the bytes reach.
    pub fn u2(self, at: u32) -> Option<u16>
        ensures { result ≡ number_at 2 at self.entry.bytes.now }
    {
        let end = at as usize + 2;
        Some(BigEndian::read_u16(self.bytes.get(at as usize..end)?))
    }

    /// The big-endian number of four bytes at an offset, where the bytes reach.
    pub fn u4(self, at: u32) -> Option<u32>
        ensures { result ≡ number_at 4 at self.entry.bytes.now }
    {
        let end = at as usize + 4;
        Some(BigEndian::read_u32(self.bytes.get(at as usize..end)?))
    }

    /// The `len` bytes from an offset on, where the bytes reach.
    pub fn part(self, at: u32, len: u32) -> Option<View<'a>>
        ensures reach { IsSome result ↔ (at + len ≤ length self.entry.bytes.now) }
        ensures bytes { IfSome result (λ v. v.bytes.now ≡ take len (drop at self.entry.bytes.now)) }
    {
        let end = at as usize + len as usize;
        let bytes = self.bytes.get(at as usize..end)?;
        Some(View { bytes })
    }
}

/// The items of a list of bytes are bytes: a fact for proofs, and no work.
pub fn are_bytes(bytes: &[u8])
    ensures { AreBytes bytes.now }
{
    let _ = bytes;
}

/// Writes a number over the two bytes at a place. No other byte changes.
#[tactic(auto, unfolding(crate::specs::Edit::patched))]
pub fn patch(bytes: &mut [u8], at: usize, number: u16)
    requires { at + 2 ≤ length bytes.old }
    ensures value { bytes.new ≡ patched (record { at = at; number = number }) bytes.old }
    ensures long { length bytes.new ≡ length bytes.old }
{
    bytes[at..at + 2].copy_from_slice(&number.to_be_bytes());
}

/// Numbers that are written over at rising places stand there, and change nothing else.
pub fn patches_renew()
    ensures { PatchesRenew }
{}
