/// How the first item that breaks a file's grammar breaks it.
#[derive(Clone, Copy)]
pub enum FormKind {
    /// The bytes end, inside the item or before it.
    Cut,
    /// The tag is not the one of this component.
    WrongTag,
    /// The magic number is not `DECAFFED`.
    BadMagic,
    /// The format's version is neither 2.1 nor 2.2.
    BadVersion,
    /// Bytes remain after the last item.
    Trailing,
    /// The item has a value that the format does not allow.
    BadValue,
    /// The class or interface is remote, which this profile leaves out.
    Remote,
}

/// Why a file is not the component that it should be: the first item, in the file's order, that
/// breaks the grammar.
#[derive(Clone, Copy)]
pub struct FormFault {
    /// The tag of the file's part.
    pub part: u8,
    /// The item's offset in the file, and for `Cut` the file's length.
    pub at: u32,
    pub kind: FormKind,
}

/// The format of a package's components, which its Header names: the version of the CAP file format
/// (section 6.3 of the specification).
#[derive(Clone, Copy)]
pub enum Format {
    /// The format 2.1: the Header has no name, the Directory no size for Debug, and the Class
    /// component no signature pool.
    V21,
    /// The format 2.2, that of the specification.
    V22,
}

/// A file of a package's folder, by the tag of the component that it holds (section 6.1 of the
/// specification): 0 is the file of roles, 1 to 12 are the components by tag, and from 128 on the
/// custom components.
#[derive(Clone, Copy)]
pub struct Part(pub u8);
