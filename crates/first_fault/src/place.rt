ghost use Rattle.std.specs.Prelude.{◌≡◌};
ghost use Rattle.first_fault.specs.Order.{comes_before, one, two};

/// By what the faults of one condition are in order: the first number decides, and where it is the
/// same the second.
#[derive(Clone, Copy)]
pub struct Place {
    pub first: u32,
    pub second: u32,
}

impl Place {
    /// The place of a fault that names one thing, by its number.
    pub fn one(number: u32) -> Place
        ensures { result ≡ one number }
    {
        Place {
            first: number,
            second: 0,
        }
    }

    /// The place of a fault that names two things.
    pub fn two(first: u32, second: u32) -> Place
        ensures { result ≡ two first second }
    {
        Place { first, second }
    }

    /// Whether this place comes before another.
    pub fn comes_before(self, other: Place) -> bool
        ensures { result ≡ comes_before self other }
    {
        self.first < other.first || self.first == other.first && self.second < other.second
    }
}

/// Faults that are in order.
pub trait Fault: Copy {
    ghost use Rattle.std.specs.Prelude.{◌≡◌};
    ghost use Rattle.first_fault.specs.declared.place.Place.{Place};

    /// By what the faults of one condition are in order.
    ghost place_of: { Self → Place };

    /// By what this fault is in order among those of its condition.
    fn place(self) -> Place
        ensures { result ≡ place_of self };
}
