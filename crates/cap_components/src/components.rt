use crate::parts::Parts;
use cap_class::ClassPart;
use cap_desc::DescPart;
use cap_frame::{Applets, Directory, Header, Imports};
use cap_method::{MethodPart, StaticPart};
use cap_pool::{Export, Locations, Pool};

/// The components of a package and the parts that they were read from. Nothing says yet that they
/// agree.
#[derive(Clone, Copy)]
pub struct Components<'p, 'a> {
    pub parts: &'p Parts<'a>,
    pub header: Header<'a>,
    pub directory: Directory<'a>,
    pub applets: Option<Applets<'a>>,
    pub imports: Imports<'a>,
    pub pool: Pool<'a>,
    pub classes: ClassPart<'a>,
    pub methods: MethodPart<'a>,
    pub statics: StaticPart<'a>,
    pub locations: Locations<'a>,
    pub export: Option<Export<'a>>,
    pub descriptor: DescPart<'a>,
}

/// The Header and the Directory, with which the reading of a package begins.
#[derive(Clone, Copy)]
pub struct Opening<'a> {
    pub header: Header<'a>,
    pub directory: Directory<'a>,
}
