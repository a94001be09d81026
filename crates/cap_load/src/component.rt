ghost use Rattle.std.specs.Prelude.{◌≡◌, None};
ghost use Rattle.cap_load.specs.declared.component.Next.TheVariants.{Tag};
ghost use Rattle.cap_load.specs.Reading.{tag_fault, shown, info_left, read_byte};

use crate::fault::StreamFault;
use crate::order::{comes_before, place};
use byteorder::{BigEndian, ByteOrder};

/// What the next byte of the contents is.
#[derive(Clone, Copy)]
pub enum Next {
    /// The tag of a component.
    Tag,
    /// The high byte of its size.
    High,
    /// The low byte of its size, after this high one.
    Low(u8),
    /// One of so many bytes of its info that are left.
    Info(u16),
}

/// How far the contents were read as components: the tag of the one that began last, and what the next byte is.
#[derive(Clone, Copy)]
pub struct Reading {
    pub last: Option<u8>,
    pub next: Next,
}

/// The fault that the first byte of a component shows, after the component of another tag.
#[tactic(auto, unfolding(crate::specs::Reading::tag_fault))]
fn tag_fault(last: Option<u8>, tag: u8) -> Option<StreamFault>
    ensures { result ≡ tag_fault last tag }
{
    if place(tag).is_none() {
        return Some(StreamFault::NoTag(tag));
    }
    match last {
        Some(first) if !comes_before(first, tag) => Some(StreamFault::Order(first, tag)),
        _ => None,
    }
}

/// What comes next where so many bytes of the info are left.
fn info_left(left: u16) -> Next
    ensures { result ≡ info_left left }
{
    if left == 0 {
        Next::Tag
    } else {
        Next::Info(left)
    }
}

impl Reading {
    /// Nothing was read.
    pub(crate) fn new() -> Reading
        ensures { result ≡ record { last = None; next = Tag } }
    {
        Reading {
            last: None,
            next: Next::Tag,
        }
    }

    /// The fault that the next byte shows as a part of a component.
    pub(crate) fn fault_of(self, byte: u8) -> Option<StreamFault>
        ensures { result ≡ shown self byte }
    {
        match self.next {
            Next::Tag => tag_fault(self.last, byte),
            _ => None,
        }
    }

    /// How far the contents were read with one byte more.
    pub(crate) fn after(self, byte: u8) -> Reading
        ensures { result ≡ read_byte self byte }
    {
        let (last, next) = match self.next {
            Next::Tag => (Some(byte), Next::High),
            Next::High => (self.last, Next::Low(byte)),
            Next::Low(high) => (self.last, info_left(BigEndian::read_u16(&[high, byte]))),
            Next::Info(left) => (self.last, info_left(left.saturating_sub(1))),
        };
        Reading { last, next }
    }
}
