ghost use Rattle.std.specs.Prelude.{◌≡◌, All, Ok, IfSome, option_map};
ghost use Rattle.cap_frame.specs.Header.{header_items};
ghost use Rattle.cap_frame.specs.HeaderFormat.{header_info};
ghost use Rattle.cap_frame.specs.DirectoryFormat.{directory_info};
ghost use Rattle.cap_frame.specs.ImportFormat.{imports_info};
ghost use Rattle.cap_frame.specs.AppletFormat.{applets_info};
ghost use Rattle.cap_pool.specs.PoolFormat.{pool_info};
ghost use Rattle.cap_pool.specs.ExportFormat.{export_info};
ghost use Rattle.cap_pool.specs.LocationFormat.{locations_info};
ghost use Rattle.cap_class.specs.ClassFormat.{classes_info};
ghost use Rattle.cap_method.specs.StaticFormat.{statics_info};
ghost use Rattle.cap_frame.specs.Directory.{directory_items};
ghost use Rattle.cap_frame.specs.Imports.{packages};
ghost use Rattle.cap_frame.specs.Applets.{applets_of};
ghost use Rattle.cap_pool.specs.Pool.{entries};
ghost use Rattle.cap_pool.specs.Export.{export_seen as exported};
ghost use Rattle.cap_pool.specs.Locations.{location_items};
ghost use Rattle.cap_class.specs.ClassPart.{records};
ghost use Rattle.cap_method.specs.StaticPart.{statics_seen};
ghost use Rattle.cap_components.specs.Components.{info_in};
ghost use Rattle.cap_components.specs.ComponentsSeen.{components_seen};
ghost use Rattle.cap_components.specs.Saying.{HoldsComponent};
ghost use Rattle.cap_package.specs.Customs.{custom_in, info_or_none};
ghost use Rattle.cap_package.specs.CustomSeen.{custom_items};
ghost use Rattle.cap_components.specs.Descriptions.{description};
ghost use Rattle.cap_components.specs.MethodsSeen.{methods_seen};
ghost use Rattle.cap_package.specs.StandsFor.{StandsFor};
ghost use Rattle.cap_package.specs.Agreement.{package_from};
ghost use Rattle.cap_package.specs.StaticPlaces.{places_left, static_places, AreApart, IsStaticPlace};

use crate::packages::{Custom, Package};
use crate::statics::StaticPlaces;
use cap_bytes::View;
use cap_class::ClassPart;
use cap_components::{Components, Parts, info_in};
use cap_desc::DescPart;
use cap_frame::{Applets, Directory, Header, Imports};
use cap_method::{MethodPart, StaticPart};
use cap_pool::{Export, Locations, Pool};

impl<'p, 'a> Package<'p, 'a> {
    /// The parts that the package was made from, which stand for it: nothing of them disagrees.
    pub fn parts(&self) -> &'p Parts<'a>
        ensures is { result.now ≡ self.now.parts }
        ensures agree { StandsFor self.now.parts self.now }
        ensures only { package_from self.now.parts ≡ Ok self.now }
    {
        self.all.parts
    }

    /// The Header component.
    pub fn header(&self) -> Header<'a>
        ensures items { header_items result ≡ self.now.header }
        ensures info { HoldsComponent self.now.parts 1 header_info result.info.bytes.now self.now.header }
    {
        self.all.header
    }

    /// The Directory component.
    pub fn directory(&self) -> Directory<'a>
        ensures items { directory_items result ≡ self.now.directory }
        ensures info { HoldsComponent self.now.parts 2 (directory_info self.now.header.format) result.info.bytes.now self.now.directory }
    {
        self.all.directory
    }

    /// The Import component.
    pub fn imports(&self) -> Imports<'a>
        ensures items { packages result ≡ self.now.imports }
        ensures info { HoldsComponent self.now.parts 4 imports_info result.info.bytes.now self.now.imports }
    {
        self.all.imports
    }

    /// The ConstantPool component.
    pub fn pool(&self) -> Pool<'a>
        ensures items { entries result ≡ self.now.pool }
        ensures info { HoldsComponent self.now.parts 5 pool_info result.info.bytes.now self.now.pool }
    {
        self.all.pool
    }

    /// The Class component.
    pub fn classes(&self) -> ClassPart<'a>
        ensures items { records result ≡ self.now.classes }
        ensures info { HoldsComponent self.now.parts 6 (classes_info self.now.header.format) result.info.bytes.now self.now.classes }
    {
        self.all.classes
    }

    /// The Method component.
    pub fn methods(&self) -> MethodPart<'a>
        ensures { methods_seen result ≡ self.now.methods }
    {
        self.all.methods
    }

    /// The StaticField component.
    pub fn statics(&self) -> StaticPart<'a>
        ensures items { statics_seen result ≡ self.now.statics }
        ensures info { HoldsComponent self.now.parts 8 statics_info result.info.bytes.now self.now.statics }
    {
        self.all.statics
    }

    /// The places of the static fields in the image, in the order of the Descriptor.
    pub fn static_places(&self) -> StaticPlaces<'a>
        ensures places { places_left result ≡ static_places self.now }
        ensures known { All (IsStaticPlace self.now.statics) (static_places self.now) }
        ensures apart { AreApart (static_places self.now) }
    {
        StaticPlaces {
            descriptor: self.all.descriptor,
            fields: self.all.descriptor.fields(),
        }
    }

    /// The ReferenceLocation component.
    pub fn locations(&self) -> Locations<'a>
        ensures items { location_items result ≡ self.now.locations }
        ensures info { HoldsComponent self.now.parts 9 locations_info result.info.bytes.now self.now.locations }
    {
        self.all.locations
    }

    /// The Descriptor component.
    pub fn descriptor(&self) -> DescPart<'a>
        ensures { description result ≡ self.now.description }
    {
        self.all.descriptor
    }

    /// The Applet component, where it is there.
    pub fn applets(&self) -> Option<Applets<'a>>
        ensures items { option_map applets_of result ≡ self.now.applets }
        ensures info { IfSome result (λ x. HoldsComponent self.now.parts 3 applets_info x.info.bytes.now (applets_of x)) }
    {
        self.all.applets
    }

    /// The Export component, where it is there.
    pub fn export(&self) -> Option<Export<'a>>
        ensures items { option_map exported result ≡ self.now.export }
        ensures info { IfSome result (λ x. HoldsComponent self.now.parts 10 export_info x.info.bytes.now (exported x)) }
    {
        self.all.export
    }

    /// The custom component with a tag, where the Directory names one.
    pub fn custom(&self, tag: u8) -> Option<Custom<'a>>
        ensures { option_map custom_items result ≡ custom_in self.now tag }
    {
        custom_of(&self.all, tag)
    }
}

/// The custom component with a tag, where the Directory names one.
fn custom_of<'a>(all: &Components<'_, 'a>, tag: u8) -> Option<Custom<'a>>
    ensures { option_map custom_items result ≡ custom_in (components_seen all.now) tag }
{
    'customs: for custom in all.directory.customs() {
        if custom.tag == tag {
            return Some(Custom {
                aid: custom.aid,
                info: info_or_none(all.parts, tag),
            });
        }
    }
    None
}

/// The info of a component, and none where it is absent.
fn info_or_none<'a>(parts: &Parts<'a>, tag: u8) -> View<'a>
    ensures { result.bytes.now ≡ info_or_none (info_in parts.now tag) }
{
    info_in(parts, tag).unwrap_or(View::of(&[]))
}
