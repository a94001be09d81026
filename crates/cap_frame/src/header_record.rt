ghost use Rattle.std.specs.Prelude.{◌≡◌, ⊤, [], ◌∷◌, codes};
ghost use Rattle.cap_frame.specs.HeaderFormat.{header_flags};
ghost use Rattle.cap_frame.specs.Header.{header_items};
ghost use Rattle.cap_frame.specs.Packages.{package_seen};

use bitflags::{Flag, Flags};
use cap_bytes::{Format, View};

/// What a package has or needs, as set in its Header (section 6.3).
#[derive(Clone, Copy)]
pub struct HeaderFlags(pub u8);

impl HeaderFlags {
    /// The package uses the type int.
    pub const INT: HeaderFlags = HeaderFlags(1);
    /// The package has an Export component.
    pub const EXPORT: HeaderFlags = HeaderFlags(2);
    /// The package has an Applet component.
    pub const APPLET: HeaderFlags = HeaderFlags(4);

    const FLAGS: &'static [Flag<HeaderFlags>] = &[
        Flag {
            name: "ACC_INT",
            value: HeaderFlags::INT,
        },
        Flag {
            name: "ACC_EXPORT",
            value: HeaderFlags::EXPORT,
        },
        Flag {
            name: "ACC_APPLET",
            value: HeaderFlags::APPLET,
        },
    ];

    /// The flags that a byte names.
    #[tactic(auto, unfolding(bitflags::proofs::OnLiterals::bitflags_on_literals))]
    pub fn of(byte: u8) -> HeaderFlags
        ensures { result.0 ≡ header_flags byte }
    {
        HeaderFlags::from_bits_truncate(byte)
    }
}

impl Flags for HeaderFlags {
    type Bits = u8;

    ghost exact = { ⊤ };

    ghost table = { (codes "ACC_INT", 1) ∷ (codes "ACC_EXPORT", 2) ∷ (codes "ACC_APPLET", 4) ∷ [] };

    ghost set_of = { λ flags. flags.0 };

    fn flags<'a>() -> &'a [Flag<HeaderFlags>] {
        HeaderFlags::FLAGS
    }

    fn bits(&self) -> u8 {
        self.0
    }

    fn from_bits_retain(bits: u8) -> HeaderFlags {
        HeaderFlags(bits)
    }
}

/// A package's version and application identifier.
#[derive(Clone, Copy)]
pub struct PackageInfo<'a> {
    pub minor: u8,
    pub major: u8,
    /// 5 to 16 bytes.
    pub aid: &'a [u8],
}

/// What a package says of itself (section 6.3).
#[derive(Clone, Copy)]
pub struct Header<'a> {
    pub(crate) info: View<'a>,
    pub(crate) format: Format,
    pub(crate) flags: HeaderFlags,
    pub(crate) package: PackageInfo<'a>,
    pub(crate) name: &'a [u8],
}

impl<'a> Header<'a> {
    /// The info that was read.
    pub fn info(&self) -> View<'a>
        ensures { result ≡ self.now.info }
    {
        self.info
    }

    /// The format of the package's components.
    pub fn format(&self) -> Format
        ensures { result ≡ (header_items self.now).format }
    {
        self.format
    }

    /// What the package has or needs.
    pub fn flags(&self) -> HeaderFlags
        ensures { result.0 ≡ (header_items self.now).flags }
    {
        self.flags
    }

    /// Its version and application identifier.
    pub fn package(&self) -> PackageInfo<'a>
        ensures { package_seen result ≡ (header_items self.now).package_of }
    {
        self.package
    }

    /// The bytes of its name, none where it has no name, as in format 2.1.
    pub fn name(&self) -> &'a [u8]
        ensures { result.now ≡ (header_items self.now).name }
    {
        self.name
    }
}
