//! The types of Java Card bytecode verification with their order and join (Leroy 2002, section 2), the
//! records of classes, methods and static fields (JCVM 2.2, chapter 6), and the linked world of packages.
//! That is what verifiers and machines read. Of crates it stands on `byteorder` alone.
#![tactic(auto)]

mod class;
mod class_index;
mod laws;
mod list;
mod method_bounds;
mod order;
mod record;
mod target_index;
mod ty;
mod visible_bodies;
mod world;

pub use class::{Classes, Infos, Steps};
pub use class_index::{ClassIndex, Lookups};
pub use laws::{
    concrete_decides, interfaces_decide, public_methods_run, subclasses_extend, types_are_ordered,
};
pub use list::{
    Arrays, ClassRecs, Dispatch, Handlers, Ifaces, Indexes, Initial, Items, Members, Methods,
    Pools, Statics, Tokens, Tys,
};
pub use method_bounds::MethodBounds;
pub use order::{below, is_reference, join};
pub use record::{ArrayRec, ClassRec, Handler, Iface, Member, MethodRec, Sig, StaticRec};
pub use target_index::TargetIndex;
pub use ty::{Kind, Ty, same_type};
pub use visible_bodies::is_concrete;
pub use world::World;
