ghost use Rattle.std.specs.Prelude.{◌≡◌};
ghost use Rattle.cap_bytes.specs.ClassReference.{reference_of};

/// The class that a class_ref names (section 6.7.1 of the specification).
#[derive(Clone, Copy)]
pub enum ClassReference {
    /// A class of the package itself: the offset of its record in the info of the Class component.
    Internal(u16),
    /// A class of an imported package: the token of the package, and the token of the class in it.
    External { package: u8, class: u8 },
}

impl ClassReference {
    /// What the two bytes of a class_ref name.
    pub fn of(item: u16) -> ClassReference
        ensures { result ≡ reference_of item }
    {
        if item < 0x8000 {
            ClassReference::Internal(item)
        } else {
            ClassReference::External {
                package: ((item - 0x8000) / 256) as u8,
                class: (item % 256) as u8,
            }
        }
    }
}
