ghost use Rattle.std.specs.Prelude.{◌≡◌, ◌≤◌, ◌↔◌, IsTrue};
ghost use Rattle.jc_base.specs.Cell.{width};
ghost use Rattle.jc_base.specs.SameType.{same_type};

/// What a verifier knows of one cell: of a register, of the operand stack, or of a field
/// (JCVM 2.2, section 3.1; Leroy 2002, section 2). A class is named by its number in the world.
#[derive(Clone, Copy)]
pub enum Ty {
    /// No value.
    Bottom,
    Short,
    /// The cell of an int with its high 16 bits.
    IntHigh,
    /// The cell of an int with its low 16 bits.
    IntLow,
    Null,
    /// A reference to an object of the class, or null.
    Class(u16),
    ArrBool,
    ArrByte,
    ArrShort,
    ArrInt,
    /// An array of references of the class.
    ArrRef(u16),
    /// An object on which no constructor was called yet, made by the `new` at the place, which is the
    /// offset in the method's code.
    Fresh { place: u16, class: u16 },
    /// Any value.
    Top,
}

/// How a field keeps its value, and in which instructions it is named. Boolean is `Byte`.
#[derive(Clone, Copy)]
pub enum Kind {
    Ref,
    Byte,
    Short,
    Int,
}

impl Kind {
    /// How many cells a value of the kind takes, each of 16 bits.
    pub fn width(self) -> u16
        ensures value { result ≡ width self }
        ensures most { result ≤ 2 }
    {
        match self {
            Kind::Int => 2,
            _ => 1,
        }
    }
}

/// Whether two types are equal.
pub fn same_type(a: Ty, b: Ty) -> bool
    ensures is { IsTrue result ↔ (a ≡ b) }
    ensures computed { result ≡ same_type a b }
{
    is_same(a, b)
}

#[tactic(auto, unfolding(crate::specs::SameType::same_type))]
fn is_same(a: Ty, b: Ty) -> bool
    ensures { result ≡ same_type a b }
{
    match a {
        Ty::Bottom => matches!(b, Ty::Bottom),
        Ty::Short => matches!(b, Ty::Short),
        Ty::IntHigh => matches!(b, Ty::IntHigh),
        Ty::IntLow => matches!(b, Ty::IntLow),
        Ty::Null => matches!(b, Ty::Null),
        Ty::Class(c) => matches!(b, Ty::Class(d) if c == d),
        Ty::ArrBool => matches!(b, Ty::ArrBool),
        Ty::ArrByte => matches!(b, Ty::ArrByte),
        Ty::ArrShort => matches!(b, Ty::ArrShort),
        Ty::ArrInt => matches!(b, Ty::ArrInt),
        Ty::ArrRef(c) => matches!(b, Ty::ArrRef(d) if c == d),
        Ty::Fresh { place: p, class: c } =>
            matches!(b, Ty::Fresh { place: q, class: d } if p == q && c == d),
        Ty::Top => matches!(b, Ty::Top),
    }
}
