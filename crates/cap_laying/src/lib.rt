//! The components of a package that change their length when its methods are written anew (Java Card 2.2 VM
//! Specification, sections 6.4, 6.9 and 6.11): the Method component, the ReferenceLocation component, and the
//! Directory. The Method component has the headers, the code and the handlers of the methods in the order of their
//! former offsets. The Directory is written in both formats. It stands on `jc_decode`, whose `Laid` is a method's new
//! code, on `cap_renewal`, whose `NewMethods` tells the other components of the new places, and on `cap_frame`, whose
//! record the Directory is written from.
#![tactic(auto)]

mod blocks;
mod customs;
mod entries;
mod indices;
mod location_component;
mod member;
mod method_component;
mod places;
mod writing;

pub use entries::tell_catches;
pub use indices::tell_indices;
pub use location_component::{ToldPlaces, component_info};
pub use member::{Body, WrittenMember};
pub use method_component::{Written, write_methods};
pub use writing::{
    ComponentSizes, IndexChange, components_stand, directories_stand, directory_info,
    headers_read_back, infos_are_written, methods_stand, places_read_back,
};
