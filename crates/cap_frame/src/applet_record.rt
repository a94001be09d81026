ghost use Rattle.std.specs.Prelude.{◌≡◌, length, slice_get, option_map};
ghost use Rattle.cap_frame.specs.Applets.{applet_seen, applets_left, applets_of};
ghost use Rattle.std.specs.Iterator.{YieldsFirstBy, item_count};

use crate::lists::AppletInfos;
use crate::readers::applet_info;
use cap_bytes::View;

/// An applet of the package.
#[derive(Clone, Copy)]
pub struct AppletInfo<'a> {
    /// 5 to 16 bytes.
    pub aid: &'a [u8],
    /// The offset of the install method in the info of the Method component.
    pub install: u16,
}

/// The applets of the package (section 6.5).
#[derive(Clone, Copy)]
pub struct Applets<'a> {
    pub(crate) info: View<'a>,
    pub(crate) applets: AppletInfos<'a>,
}

impl<'a> Applets<'a> {
    /// The info that was read.
    pub fn info(&self) -> View<'a>
        ensures { result ≡ self.now.info }
    {
        self.info
    }

    /// How many applets there are.
    #[tactic(auto, using(cap_bytes::proofs::Loops::yielding))]
    pub fn count(&self) -> u8
        ensures { result ≡ length (applets_of self.now) }
    {
        self.applets.left
    }

    /// The n-th applet, counted from 0.
    pub fn at(&self, n: u8) -> Option<AppletInfo<'a>>
        ensures { option_map applet_seen result ≡ slice_get (applets_of self.now) n }
    {
        self.iter().nth(n as usize)
    }

    /// The applets in the order of the file.
    pub fn iter(&self) -> AppletInfos<'a>
        ensures { applets_left result ≡ applets_of self.now }
    {
        self.applets
    }
}

impl<'a> Iterator for AppletInfos<'a> {
    type Item = AppletInfo<'a>;

    ghost next_gives = { YieldsFirstBy applet_seen applets_left };

    ghost remaining = { item_count applets_left };

    #[tactic(auto, using(cap_bytes::proofs::Loops::yielding))]
    fn next(&mut self) -> Option<AppletInfo<'a>> {
        self.left = self.left.checked_sub(1)?;
        applet_info(&mut self.items).ok()
    }
}
