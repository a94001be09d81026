ghost use Rattle.std.specs.Prelude.{◌≡◌, length, slice_get, option_map};
ghost use Rattle.cap_frame.specs.Directory.{custom_seen, customs_left, directory_items, custom_size_in, size_in};
ghost use Rattle.std.specs.Iterator.{YieldsFirstBy, item_count};

use crate::lists::CustomEntries;
use crate::readers::custom_info;
use cap_bytes::{Table, View};

/// A custom component that the Directory names.
#[derive(Clone, Copy)]
pub struct CustomEntry<'a> {
    /// From 128 on.
    pub tag: u8,
    /// The bytes of its info.
    pub size: u16,
    /// 5 to 16 bytes.
    pub aid: &'a [u8],
}

/// What the Directory says of the static image.
#[derive(Clone, Copy)]
pub(crate) struct ImageSizes {
    pub(crate) image_size: u16,
    pub(crate) array_init_count: u16,
    pub(crate) array_init_size: u16,
}

/// The sizes of the components and of the static image (section 6.4).
#[derive(Clone, Copy)]
pub struct Directory<'a> {
    pub(crate) info: View<'a>,
    pub(crate) sizes: Table<'a>,
    pub(crate) image: ImageSizes,
    pub(crate) import_count: u8,
    pub(crate) applet_count: u8,
    pub(crate) customs: CustomEntries<'a>,
}

impl<'a> Directory<'a> {
    /// The info that was read.
    pub fn info(&self) -> View<'a>
        ensures { result ≡ self.now.info }
    {
        self.info
    }

    /// The size of the component with this tag: from 1 to 12, with 0 for one that is absent or, as
    /// Debug in format 2.1, has no size, or that of a custom component.
    pub fn size(&self, tag: u8) -> Option<u16>
        ensures { result ≡ size_in (directory_items self.now) tag }
    {
        if tag >= 1 && tag <= 12 {
            Some(self.sizes.at(tag as u16 - 1).unwrap_or(0))
        } else {
            self.custom_size(tag)
        }
    }

    /// The size of the custom component with this tag.
    fn custom_size(&self, tag: u8) -> Option<u16>
        ensures { result ≡ custom_size_in (customs_left self.now.customs) tag }
    {
        'customs: for custom in self.customs() {
            if custom.tag == tag {
                return Some(custom.size);
            }
        }
        None
    }

    /// The bytes of the static image.
    pub fn image_size(&self) -> u16
        ensures { result ≡ (directory_items self.now).image_size }
    {
        self.image.image_size
    }

    /// How many static arrays are initialised.
    pub fn array_init_count(&self) -> u16
        ensures { result ≡ (directory_items self.now).array_init_count }
    {
        self.image.array_init_count
    }

    /// The bytes of their values.
    pub fn array_init_size(&self) -> u16
        ensures { result ≡ (directory_items self.now).array_init_size }
    {
        self.image.array_init_size
    }

    /// How many packages are imported.
    pub fn import_count(&self) -> u8
        ensures { result ≡ (directory_items self.now).import_count }
    {
        self.import_count
    }

    /// How many applets there are.
    pub fn applet_count(&self) -> u8
        ensures { result ≡ (directory_items self.now).applet_count }
    {
        self.applet_count
    }

    /// How many custom components there are.
    #[tactic(auto, using(cap_bytes::proofs::Loops::yielding))]
    pub fn custom_count(&self) -> u8
        ensures { result ≡ length (directory_items self.now).customs }
    {
        self.customs.left
    }

    /// The n-th custom component, counted from 0.
    pub fn custom(&self, n: u8) -> Option<CustomEntry<'a>>
        ensures { option_map custom_seen result ≡ slice_get (directory_items self.now).customs n }
    {
        self.customs().nth(n as usize)
    }

    /// The custom components in order.
    pub fn customs(&self) -> CustomEntries<'a>
        ensures { customs_left result ≡ (directory_items self.now).customs }
    {
        self.customs
    }
}

impl<'a> Iterator for CustomEntries<'a> {
    type Item = CustomEntry<'a>;

    ghost next_gives = { YieldsFirstBy custom_seen customs_left };

    ghost remaining = { item_count customs_left };

    #[tactic(auto, using(cap_bytes::proofs::Loops::yielding))]
    fn next(&mut self) -> Option<CustomEntry<'a>> {
        self.left = self.left.checked_sub(1)?;
        custom_info(&mut self.items).ok()
    }
}
