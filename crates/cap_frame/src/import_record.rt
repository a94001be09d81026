ghost use Rattle.std.specs.Prelude.{◌≡◌, length, slice_get, option_map};
ghost use Rattle.cap_frame.specs.Imports.{packages};
ghost use Rattle.cap_frame.specs.Packages.{package_seen, packages_left};
ghost use Rattle.std.specs.Iterator.{YieldsFirstBy, item_count};
ghost use Rattle.cap_bytes.specs.Taking.{Takes};
ghost use Rattle.cap_frame.specs.PackageFormat.{package_info};

use crate::header_record::PackageInfo;
use crate::lists::PackageInfos;
use cap_bytes::{Cursor, FormFault, View};

/// The imported packages, by their tokens (section 6.6).
#[derive(Clone, Copy)]
pub struct Imports<'a> {
    pub(crate) info: View<'a>,
    pub(crate) packages: PackageInfos<'a>,
}

impl<'a> Imports<'a> {
    /// The info that was read.
    pub fn info(&self) -> View<'a>
        ensures { result ≡ self.now.info }
    {
        self.info
    }

    /// How many packages are imported.
    #[tactic(auto, using(cap_bytes::proofs::Loops::yielding))]
    pub fn count(&self) -> u8
        ensures { result ≡ length (packages self.now) }
    {
        self.packages.left
    }

    /// The package with this token.
    pub fn at(&self, n: u8) -> Option<PackageInfo<'a>>
        ensures { option_map package_seen result ≡ slice_get (packages self.now) n }
    {
        self.iter().nth(n as usize)
    }

    /// The packages by rising token.
    pub fn iter(&self) -> PackageInfos<'a>
        ensures { packages_left result ≡ packages self.now }
    {
        self.packages
    }
}

/// The next package.
pub(crate) fn package_info<'a>(items: &mut Cursor<'a>) -> Result<PackageInfo<'a>, FormFault>
    ensures { Takes package_seen package_info items.old result items.new }
{
    let minor = items.u1()?;
    let major = items.u1()?;
    let aid = items.aid()?;
    Ok(PackageInfo { minor, major, aid })
}

impl<'a> Iterator for PackageInfos<'a> {
    type Item = PackageInfo<'a>;

    ghost next_gives = { YieldsFirstBy package_seen packages_left };

    ghost remaining = { item_count packages_left };

    #[tactic(auto, using(cap_bytes::proofs::Loops::yielding))]
    fn next(&mut self) -> Option<PackageInfo<'a>> {
        self.left = self.left.checked_sub(1)?;
        package_info(&mut self.items).ok()
    }
}
