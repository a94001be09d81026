ghost use Rattle.std.specs.Prelude.{⊤, ◌≡◌, ◌==◌, ◌/◌, [], ◌∷◌, codes, ◌≤◌, length, IfOk, IfErr, IfSome, IfNone, slice_get};
ghost use Rattle.std.specs.Int.RustNames.{bit_and};
ghost use Rattle.std.specs.Iterator.{YieldsFirst, item_count};
ghost use Rattle.cap_bytes.specs.Exact.{IsExact};
ghost use Rattle.cap_bytes.specs.Spelling.{info_of, Stands, Breaks};
ghost use Rattle.cap_bytes.specs.Taking.{Takes, PassesOver, Reads, same};
ghost use Rattle.cap_bytes.specs.Grammar.{repeat};
ghost use Rattle.cap_method.specs.MethodFormat.{Header, handler_info, methods_info, method_header};
ghost use Rattle.cap_method.specs.MethodPart.{handlers, handlers_left, header_seen, HeaderAt};

use crate::method_part::{HandlerEntries, MethodPart};
use bitflags::{Flag, Flags};
use cap_bytes::{Cursor, FormFault, View};

/// A method's header (section 6.9.2 of the specification).
#[derive(Clone, Copy)]
pub struct MethodHeader {
    pub flags: MethodFlags,
    /// The number of the header's bytes, 2 or 4.
    pub size: u8,
    /// The most words on the operand stack.
    pub max_stack: u8,
    /// The words of the arguments, `this` among them.
    pub nargs: u8,
    /// The words of the local variables without the arguments.
    pub max_locals: u8,
}

/// The flags of a method's header (section 6.9.2 of the specification), as the nibble that they
/// stand in.
#[derive(Clone, Copy)]
pub struct MethodFlags(pub u8);

impl MethodFlags {
    /// The header has four bytes.
    pub const EXTENDED: MethodFlags = MethodFlags(8);
    /// The method has no code.
    pub const ABSTRACT: MethodFlags = MethodFlags(4);

    const FLAGS: &'static [Flag<MethodFlags>] = &[
        Flag {
            name: "EXTENDED",
            value: MethodFlags::EXTENDED,
        },
        Flag {
            name: "ABSTRACT",
            value: MethodFlags::ABSTRACT,
        },
    ];
}

impl Flags for MethodFlags {
    type Bits = u8;

    ghost exact = { ⊤ };

    ghost table = { (codes "EXTENDED", 8) ∷ (codes "ABSTRACT", 4) ∷ [] };

    ghost set_of = { λ flags. flags.0 };

    fn flags<'a>() -> &'a [Flag<MethodFlags>] {
        MethodFlags::FLAGS
    }

    fn bits(&self) -> u8 {
        self.0
    }

    fn from_bits_retain(bits: u8) -> MethodFlags {
        MethodFlags(bits)
    }
}

impl MethodFlags {
    /// The flags in the high nibble of a header's first byte.
    pub(crate) fn of(byte: u8) -> MethodFlags
        ensures { result.0 ≡ bit_and (byte / 16) 12 }
    {
        MethodFlags::from_bits_truncate(byte / 16)
    }

    /// Whether the header has four bytes.
    pub fn is_extended(self) -> bool
        ensures { result ≡ (bit_and self.0 8 == 8) }
    {
        self.contains(MethodFlags::EXTENDED)
    }

    /// Whether the method has no code.
    pub fn is_abstract(self) -> bool
        ensures { result ≡ (bit_and self.0 4 == 4) }
    {
        self.contains(MethodFlags::ABSTRACT)
    }
}

/// An entry of the table of exception handlers (section 6.9.1 of the specification). Offsets count
/// from the first byte of the component's info.
#[derive(Clone, Copy)]
pub struct HandlerInfo {
    /// The offset at which the range begins.
    pub start: u16,
    /// Whether no later entry of the method has a range that contains this one's.
    pub stop: bool,
    /// The number of the range's bytes, at most 32,767.
    pub length: u16,
    /// The offset of the handler's code.
    pub entry: u16,
    /// The pool number of the class that is caught, and 0 where every class is.
    pub index: u16,
}

/// The tag of the component.
const METHOD: u8 = 7;

/// The next handler.
fn handler(items: &mut Cursor<'_>) -> Result<HandlerInfo, FormFault>
    ensures { Takes same handler_info items.old result items.new }
{
    let start = items.u2()?;
    let active = items.u2()?;
    let entry = items.u2()?;
    let index = items.u2()?;
    Ok(HandlerInfo {
        start,
        stop: active >= 0x8000,
        length: active % 0x8000,
        entry,
        index,
    })
}

/// Passes over so many handlers.
#[tactic(auto, using(cap_bytes::proofs::Loops::passing))]
fn pass_handlers(items: &mut Cursor<'_>, count: u8) -> Result<(), FormFault>
    ensures { PassesOver (repeat count handler_info) items.old result items.new }
{
    'handlers: for _ in 0..count {
        handler(items)?;
    }
    Ok(())
}

/// The Method component that the info is, or the first item that breaks its format.
#[tactic(auto, using(cap_bytes::proofs::Laws::whole))]
pub fn methods(info: View<'_>) -> Result<MethodPart<'_>, FormFault>
    requires { length info.bytes.now ≤ 65535 }
    ensures found { IfOk result (λ x. Stands methods_info info.entry.bytes.now (handlers x)) }
    ensures fault { IfErr result (λ e. Breaks (info_of 7) methods_info info.entry.bytes.now 0 e) }
    ensures exact { IsExact (info_of 7) methods_info info.entry.bytes.now }
    ensures info { IfOk result (λ x. x.info ≡ info.entry) }
{
    read_methods(info)
}

/// The items of the Method component.
#[tactic(auto, using(cap_bytes::proofs::Loops::yielding), unfolding(cap_bytes::specs::Reading::reading))]
fn read_methods(info: View<'_>) -> Result<MethodPart<'_>, FormFault>
    requires { length info.bytes.now ≤ 65535 }
    ensures value { Reads handlers (info_of 7) methods_info info.entry.bytes.now result }
    ensures info { IfOk result (λ x. x.info ≡ info.entry) }
{
    let mut items = Cursor::of(info, METHOD);
    let left = items.u1()?;
    let handlers = HandlerEntries { items, left };
    pass_handlers(&mut items, left)?;
    let _methods = items.rest();
    Ok(MethodPart { info, handlers })
}

impl<'a> Iterator for HandlerEntries<'a> {
    type Item = HandlerInfo;

    ghost next_gives = { YieldsFirst handlers_left };

    ghost remaining = { item_count handlers_left };

    #[tactic(auto, using(cap_bytes::proofs::Loops::yielding))]
    fn next(&mut self) -> Option<HandlerInfo> {
        self.left = self.left.checked_sub(1)?;
        handler(&mut self.items).ok()
    }
}

/// The next header.
fn header(items: &mut Cursor<'_>) -> Result<MethodHeader, FormFault>
    ensures { Takes header_seen method_header items.old result items.new }
{
    let first = items.u1()?;
    let flags = MethodFlags::of(first);
    if first >= 0x80 {
        Ok(MethodHeader {
            flags,
            size: 4,
            max_stack: items.u1()?,
            nargs: items.u1()?,
            max_locals: items.u1()?,
        })
    } else {
        let second = items.u1()?;
        Ok(MethodHeader {
            flags,
            size: 2,
            max_stack: first % 16,
            nargs: second / 16,
            max_locals: second % 16,
        })
    }
}

impl<'a> MethodPart<'a> {
    /// The info that the component was read from.
    pub fn info(&self) -> View<'a>
        ensures { result ≡ self.now.info }
    {
        self.info
    }

    /// How many entries the handler table has.
    #[tactic(auto, using(cap_bytes::proofs::Loops::yielding))]
    pub fn handler_count(&self) -> u8
        ensures { result ≡ length (handlers self.now) }
    {
        self.handlers.left
    }

    /// The handler table, in order.
    pub fn handlers(&self) -> HandlerEntries<'a>
        ensures table { handlers_left result ≡ handlers self.now }
        ensures few { length (handlers self.now) ≤ 255 }
    {
        // Their number is one that `handler_count` can answer.
        let _count = self.handler_count();
        self.handlers
    }

    /// The n-th entry of the handler table, from 0.
    pub fn handler(&self, n: u8) -> Option<HandlerInfo>
        ensures { result ≡ slice_get (handlers self.now) n }
    {
        self.handlers().nth(n as usize)
    }

    /// The header that begins at an offset of the info, where its bytes reach.
    pub fn header(&self, offset: u16) -> Option<MethodHeader>
        ensures found { IfSome result (λ h. HeaderAt self.now.info.bytes.now offset (header_seen h)) }
        ensures none { IfNone result ((h : Header) → HeaderAt self.now.info.bytes.now offset h → ⊥) }
        ensures exact { (g h : Header) → HeaderAt self.now.info.bytes.now offset g → HeaderAt self.now.info.bytes.now offset h → g ≡ h }
    {
        let at = u32::from(offset);
        if at > self.info.bytes.len() as u32 {
            return None;
        }
        let mut items = Cursor {
            info: self.info,
            part: METHOD,
            at,
        };
        header(&mut items).ok()
    }
}
