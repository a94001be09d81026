ghost use Rattle.std.specs.Prelude.{◌≡◌, length, slice_get, option_map};
ghost use Rattle.cap_pool.specs.Pool.{entries, entries_left, entry_seen};
ghost use Rattle.cap_pool.specs.PoolReference.{class_in, referred, static_in, token_in};
ghost use Rattle.std.specs.Iterator.{YieldsFirstBy, item_count};
ghost use Rattle.cap_bytes.specs.Taking.{Takes};
ghost use Rattle.cap_pool.specs.PoolFormat.{entry_info};

use crate::lists::PoolEntries;
use byteorder::{BigEndian, ByteOrder};
use cap_bytes::{ClassReference, Cursor, FormFault, FormKind, View};

/// The static field or the method without dispatch that a StaticFieldref or a StaticMethodref names (section 6.7.3).
#[derive(Clone, Copy)]
pub enum StaticReference {
    /// One of the package itself: the offset of a field in the static field image, or of a method in the info of the
    /// Method component.
    Internal(u16),
    /// One of an imported package: the tokens of the package, of a class in it, and of the field or method of that class.
    External { package: u8, class: u8, token: u8 },
}

/// What an entry of the constant pool refers to (section 6.7).
#[derive(Clone, Copy)]
pub enum PoolReference {
    /// A Classref: a class or an interface.
    Class(ClassReference),
    /// An InstanceFieldref: the class that it is named by, and the token of the field.
    InstanceField { class: ClassReference, token: u8 },
    /// A VirtualMethodref: the class that it is named by, and the token of the method.
    VirtualMethod { class: ClassReference, token: u8 },
    /// A SuperMethodref: the class whose superclass has the method, and the token of the method.
    SuperMethod { class: ClassReference, token: u8 },
    /// A StaticFieldref.
    StaticField(StaticReference),
    /// A StaticMethodref.
    StaticMethod(StaticReference),
}

/// An entry of the constant pool.
#[derive(Clone, Copy)]
pub struct PoolEntry {
    /// 1 Classref, 2 InstanceFieldref, 3 VirtualMethodref, 4 SuperMethodref, 5 StaticFieldref,
    /// 6 StaticMethodref.
    pub tag: u8,
    pub bytes: [u8; 3],
}

/// The class reference in the first two bytes.
fn class_in(bytes: [u8; 3]) -> ClassReference
    ensures { result ≡ class_in bytes }
{
    ClassReference::of(BigEndian::read_u16(&bytes))
}

/// The static field or the method without dispatch that three bytes name.
fn static_in(bytes: [u8; 3]) -> StaticReference
    ensures { result ≡ static_in bytes }
{
    if bytes[0] < 128 {
        return StaticReference::Internal(BigEndian::read_u16(&bytes[1..]));
    }
    StaticReference::External {
        package: bytes[0] - 128,
        class: bytes[1],
        token: bytes[2],
    }
}

impl PoolEntry {
    /// The token in the last byte, where the entry names a member by its token.
    #[inline(always)]
    pub fn token(self) -> u8
        ensures { result ≡ token_in (entry_seen self).bytes }
    {
        self.bytes[2]
    }

    /// What the entry refers to.
    #[tactic(auto, unfolding(crate::specs::PoolReference::referred))]
    #[inline(always)]
    pub fn reference(self) -> PoolReference
        ensures { result ≡ referred (entry_seen self) }
    {
        let PoolEntry { tag, bytes } = self;
        let (class, token) = (class_in(bytes), self.token());
        match tag {
            1 => PoolReference::Class(class),
            2 => PoolReference::InstanceField { class, token },
            3 => PoolReference::VirtualMethod { class, token },
            4 => PoolReference::SuperMethod { class, token },
            5 => PoolReference::StaticField(static_in(bytes)),
            _ => PoolReference::StaticMethod(static_in(bytes)),
        }
    }
}

/// The constant pool (section 6.7).
#[derive(Clone, Copy)]
pub struct Pool<'a> {
    pub(crate) info: View<'a>,
    pub(crate) entries: PoolEntries<'a>,
}

impl<'a> Pool<'a> {
    /// The info that was read.
    pub fn info(&self) -> View<'a>
        ensures { result ≡ self.now.info }
    {
        self.info
    }

    /// How many entries there are.
    #[tactic(auto, using(cap_bytes::proofs::Loops::yielding))]
    pub fn count(&self) -> u16
        ensures { result ≡ length (entries self.now) }
    {
        self.entries.left
    }

    /// The n-th entry, counted from 0.
    #[tactic(auto, using(cap_bytes::proofs::Wide::numbered, crate::proofs::EntryWidth::entry_wide))]
    pub fn at(&self, n: u16) -> Option<PoolEntry>
        ensures { option_map entry_seen result ≡ slice_get (entries self.now) n }
    {
        if n >= self.entries.left {
            return None;
        }
        let mut there = self.entries.items.ahead(n as u32, 4);
        match entry(&mut there) {
            Ok(entry) => Some(entry),
            Err(_) => None,
        }
    }

    /// The entries in order.
    pub fn iter(&self) -> PoolEntries<'a>
        ensures { entries_left result ≡ entries self.now }
    {
        self.entries
    }
}

/// The next entry.
#[inline(always)]
pub(crate) fn entry(items: &mut Cursor<'_>) -> Result<PoolEntry, FormFault>
    ensures { Takes entry_seen entry_info items.old result items.new }
{
    let place = *items;
    let tag = items.u1()?;
    if tag < 1 || tag > 6 {
        return Err(place.fault(FormKind::BadValue));
    }
    let bytes = items.triple()?;
    Ok(PoolEntry { tag, bytes })
}

impl Iterator for PoolEntries<'_> {
    type Item = PoolEntry;

    ghost next_gives = { YieldsFirstBy entry_seen entries_left };

    ghost remaining = { item_count entries_left };

    #[tactic(auto, using(cap_bytes::proofs::Loops::yielding))]
    #[inline(always)]
    fn next(&mut self) -> Option<PoolEntry> {
        self.left = self.left.checked_sub(1)?;
        entry(&mut self.items).ok()
    }
}
