ghost use Rattle.cap_bytes.specs.Grammar.{repeat};
ghost use Rattle.cap_bytes.specs.Taking.{Gives};
ghost use Rattle.cap_frame.specs.AppletFormat.{applet_info};
ghost use Rattle.cap_frame.specs.DirectoryFormat.{custom_info, none};
ghost use Rattle.cap_frame.specs.PackageFormat.{package_info};

use cap_bytes::Cursor;

/// Packages in the order of the file: those that are left.
#[derive(Clone, Copy, Drop)]
pub struct PackageInfos<'a> {
    pub(crate) items: Cursor<'a>,
    pub(crate) left: u8,
    ghost known: { Gives (repeat left package_info) items },
}

/// Applets in the order of the file: those that are left.
#[derive(Clone, Copy, Drop)]
pub struct AppletInfos<'a> {
    pub(crate) items: Cursor<'a>,
    pub(crate) left: u8,
    ghost known: { Gives (repeat left applet_info) items },
}

/// Custom components in the order of the Directory: those that are left.
#[derive(Clone, Copy, Drop)]
pub struct CustomEntries<'a> {
    pub(crate) items: Cursor<'a>,
    pub(crate) left: u8,
    ghost known: { Gives (repeat left (custom_info none)) items },
}
