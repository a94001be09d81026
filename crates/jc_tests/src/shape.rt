ghost use Rattle.std.specs.Prelude.{◌≡◌};
ghost use Rattle.jc_tests.specs.OneMethod.{locals_of, result_of, words_of};

use jc_base::Ty;

/// What the method takes and gives, and how many locals it has.
#[derive(Clone, Copy)]
pub enum Shape {
    /// An object of each of the two classes that extend throwable; gives a throwable; one local.
    Thrown,
    /// Two shorts; gives a short; no local.
    Shorts,
    /// An object; gives a short; one local.
    Object,
    /// A short; gives a short; 254 locals.
    Wide,
    /// An int; gives an int; two locals.
    Ints,
}

impl Shape {
    pub(crate) fn result(self) -> Option<Ty>
        ensures { result ≡ result_of self }
    {
        match self {
            Shape::Thrown => Some(Ty::Class(1)),
            Shape::Shorts | Shape::Object | Shape::Wide => Some(Ty::Short),
            Shape::Ints => Some(Ty::IntHigh),
        }
    }

    /// The number of argument words.
    pub(crate) fn words(self) -> u8
        ensures { result ≡ words_of self }
    {
        match self {
            Shape::Thrown | Shape::Shorts | Shape::Ints => 2,
            Shape::Object | Shape::Wide => 1,
        }
    }

    pub(crate) fn locals(self) -> u8
        ensures { result ≡ locals_of self }
    {
        match self {
            Shape::Thrown | Shape::Object => 1,
            Shape::Shorts => 0,
            Shape::Wide => 254,
            Shape::Ints => 2,
        }
    }
}
