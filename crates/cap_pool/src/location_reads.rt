ghost use Rattle.std.specs.Prelude.{◌≡◌, length, slice_get};
ghost use Rattle.cap_pool.specs.Locations.{location_items};

use crate::location_record::Locations;
use cap_bytes::View;

impl<'a> Locations<'a> {
    /// The info that was read.
    pub fn info(&self) -> View<'a>
        ensures { result ≡ self.now.info }
    {
        self.info
    }

    /// How many bytes tell the places of the indices of one byte.
    pub fn byte_count(&self) -> u16
        ensures { result ≡ length (location_items self.now).byte }
    {
        self.byte_count
    }

    /// The n-th of these bytes, counted from 0.
    pub fn byte(&self, n: u16) -> Option<u8>
        ensures { result ≡ slice_get (location_items self.now).byte n }
    {
        self.byte.get(n as usize).copied()
    }

    /// How many bytes tell the places of the indices of two bytes.
    pub fn byte2_count(&self) -> u16
        ensures { result ≡ length (location_items self.now).byte2 }
    {
        self.byte2_count
    }

    /// The n-th of these bytes, counted from 0.
    pub fn byte2(&self, n: u16) -> Option<u8>
        ensures { result ≡ slice_get (location_items self.now).byte2 n }
    {
        self.byte2.get(n as usize).copied()
    }

    /// All bytes that tell the places of the indices of one byte.
    pub fn bytes(&self) -> &'a [u8]
        ensures { result.now ≡ (location_items self.now).byte }
    {
        self.byte
    }

    /// All bytes that tell the places of the indices of two bytes.
    pub fn bytes2(&self) -> &'a [u8]
        ensures { result.now ≡ (location_items self.now).byte2 }
    {
        self.byte2
    }
}
