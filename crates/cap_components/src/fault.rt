ghost use Rattle.cap_components.specs.Order.{pack_place};
ghost use Rattle.std.specs.Prelude.{◌≡◌};
ghost use Rattle.cap_components.specs.CountKind.{number_of_kind};

use cap_bytes::FormFault;
use first_fault::{Fault, Place};

/// Why a list of parts is no package: the first condition that is broken, at the least thing that
/// breaks it. Offsets count from the first byte of the component's info.
#[derive(Clone, Copy)]
pub enum PackFault {
    /// A part breaks its grammar.
    Form(FormFault),
    /// The part of this tag must be there and is absent.
    MissingPart(u8),
    /// The part's tag, its size in the Directory and its own.
    SizeDisagrees(u8, u16, u16),
    /// Two described methods share a byte: the offsets of both.
    MethodOverlaps(u16, u16),
    /// A described method reaches past the Method component, or begins in its handler table.
    MethodOutside(u16),
    /// Two numbers that count one thing differ: what they count, the number said and the one found.
    CountDisagrees(CountKind, u32, u32),
    /// A handler is not owned by exactly one method, or leaves that method's code: its number.
    HandlerOutside(u32),
    /// Two static fields share a byte of the image: the offsets of both.
    StaticOverlaps(u16, u16),
    /// An offset at which a method is named and none is described.
    NoMethodAt(u16),
    /// The offset of a class that is not described exactly once, or of no class at all.
    ClassUndescribed(u16),
    /// The method at this offset has so many registers, above 255.
    TooManyRegisters(u16, u16),
    /// The offset of a type descriptor that is ill-formed, or not of the shape that is wanted.
    BadType(u16),
    /// The static field at this offset does not fit the image.
    StaticOutside(u16),
    /// The method at this offset has so many bytes of code, 0 or above 32,767.
    MethodLength(u16, u16),
    /// An offset at which a static field is exported and none is described.
    NoStaticAt(u16),
    /// The file of the part of this tag has more bytes than a component can have.
    PartTooLong(u8),
}

impl From<FormFault> for PackFault {
    ghost use Rattle.std.specs.Prelude.{◌≡◌};
    ghost use Rattle.cap_components.specs.declared.fault.PackFault.TheVariants.{Form};

    ghost from_gives = { λ form fault. fault ≡ Form form };

    fn from(form: FormFault) -> PackFault {
        PackFault::Form(form)
    }
}

impl Fault for PackFault {
    ghost place_of = { pack_place };

    #[tactic(auto, unfolding(crate::specs::Order::pack_place))]
    fn place(self) -> Place {
        match self {
            PackFault::Form(form) => Place::one(form.part as u32),
            PackFault::MissingPart(part) => Place::one(part as u32),
            PackFault::SizeDisagrees(part, _, _) => Place::one(part as u32),
            PackFault::MethodOverlaps(first, second) => Place::two(first as u32, second as u32),
            PackFault::MethodOutside(offset) => Place::one(offset as u32),
            PackFault::CountDisagrees(what, _, _) => Place::one(what.number() as u32),
            PackFault::HandlerOutside(number) => Place::one(number),
            PackFault::StaticOverlaps(first, second) => Place::two(first as u32, second as u32),
            PackFault::NoMethodAt(offset) => Place::one(offset as u32),
            PackFault::ClassUndescribed(offset) => Place::one(offset as u32),
            PackFault::TooManyRegisters(offset, _) => Place::one(offset as u32),
            PackFault::BadType(offset) => Place::one(offset as u32),
            PackFault::StaticOutside(offset) => Place::one(offset as u32),
            PackFault::MethodLength(offset, _) => Place::one(offset as u32),
            PackFault::NoStaticAt(offset) => Place::one(offset as u32),
            PackFault::PartTooLong(part) => Place::one(part as u32),
        }
    }
}

/// What two components count (sections 6.4 to 6.13 of the specification), in the order in which the numbers are compared.
#[derive(Clone, Copy)]
pub enum CountKind {
    /// The imports: the Directory and the Import component.
    Imports,
    /// The applets: the Directory and the Applet component.
    Applets,
    /// The bytes of the static field image: the Directory and the StaticField component.
    ImageSize,
    /// The initial arrays: the Directory and the StaticField component.
    InitialArrays,
    /// The bytes of the values of the initial arrays: the Directory and the StaticField component.
    ArrayBytes,
    /// The types of pool entries in the Descriptor component, and the entries of the constant pool.
    PoolTypes,
    /// The words of a method's arguments: its header and its type.
    ArgumentWords,
    /// The cells of a class's own instance fields: the declared instance size and the types of the fields.
    InstanceCells,
    /// The bytes of the static field image: its size and the sum of its segments.
    ImageSegments,
    /// The bytes of an abstract method's code, of which there are none.
    AbstractCode,
}

impl CountKind {
    /// Its number from 1, by which the kinds are in order and are told.
    pub fn number(self) -> u8
        ensures { result ≡ number_of_kind self }
    {
        match self {
            CountKind::Imports => 1,
            CountKind::Applets => 2,
            CountKind::ImageSize => 3,
            CountKind::InitialArrays => 4,
            CountKind::ArrayBytes => 5,
            CountKind::PoolTypes => 6,
            CountKind::ArgumentWords => 7,
            CountKind::InstanceCells => 8,
            CountKind::ImageSegments => 9,
            CountKind::AbstractCode => 10,
        }
    }
}
