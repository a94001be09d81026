ghost use Rattle.std.specs.Prelude.{◌≡◌, ◌<◌, ◌≤◌, ◌↔◌, length, All, IsTrue, IfSome, Some, slice_get, slice_index, option_map};
ghost use Rattle.jc_base.specs.Class.{IsClass};
ghost use Rattle.jc_base.specs.Cell.{AreElementsOf};
ghost use Rattle.jc_base.specs.Dispatch.{IsConcrete, is_concrete, cells_of};
ghost use Rattle.jc_base.specs.ByClass.{AreBounds, IsIndexOf, listed};
ghost use Rattle.jc_base.specs.Linked.{AreDispatched, IsMember, IsLinkedClass, IsMethod, IsStatic, list_at};
ghost use Rattle.jc_base.specs.World.{IsWorld, IsThrown, member_at, code_of, index_of, has_numbers, method_numbered};

use crate::class::{Classes, Infos};
use crate::class_index::{ClassIndex, Lookups};
use crate::list::{Arrays, Indexes, Members, Methods, Pools, Statics};
use crate::method_bounds::MethodBounds;
use crate::record::{ArrayRec, ClassRec, Member, MethodRec, StaticRec};
use crate::target_index::TargetIndex;
use std::marker::Model;

/// Linked packages: what each constant pool names is found, and classes, methods and static fields are
/// numbered over all packages. The code stays in the packages' own bytes.
#[derive(Drop)]
pub struct World<'a> {
    infos: Infos<'a>,
    pools: Pools,
    classes: Classes,
    methods: Methods,
    statics: Statics,
    arrays: Arrays,
    indexes: Indexes<'a>,
    by_class: ClassIndex,
}

impl<'a> Model for World<'a> {
    ghost use Rattle.jc_base.specs.World.{Linked, IsWorld};
    ghost use Rattle.jc_base.specs.ByClass.{IsIndexOf};

    ghost Value = { Linked };

    ghost view = { λ a. record {
      infos = a.infos;
      pools = a.pools;
      classes = a.classes;
      methods = a.methods;
      statics = a.statics;
      arrays = a.arrays;
      indexes = a.indexes;
    } };

    ghost invariant = { λ a. IsWorld
        (record {
          infos = a.infos;
          pools = a.pools;
          classes = a.classes;
          methods = a.methods;
          statics = a.statics;
          arrays = a.arrays;
          indexes = a.indexes;
        })
        × IsIndexOf a.classes a.methods a.by_class };
}

impl<'a> World<'a> {
    /// The world of these lists: by package the Method info and what the pool entries name, and over all
    /// packages the classes, methods, static fields and initial arrays, with the target indexes of these methods
    /// and the index of these classes.
    pub fn of(
        infos: Infos<'a>,
        pools: Pools,
        classes: Classes,
        methods: Methods,
        statics: Statics,
        arrays: Arrays,
        lookups: Lookups<'a>,
    ) -> World<'a>
        requires world { IsWorld (listed infos pools classes methods statics arrays lookups.targets) }
        requires by_class { IsIndexOf classes methods lookups.by_class }
        ensures { result ≡ listed infos.entry pools classes methods statics arrays lookups.entry.targets }
    {
        World {
            infos,
            pools,
            classes,
            methods,
            statics,
            arrays,
            indexes: lookups.targets,
            by_class: lookups.by_class,
        }
    }

    /// The classes of all packages, with every fact on the world.
    pub fn classes(&self) -> &Classes
        ensures is { result.now ≡ self.now.classes }
        ensures links { IsWorld self.now }
        // What an object runs for a token has the signature that the named class gives it.
        ensures dispatch { AreDispatched self.now.classes self.now.methods }
    {
        &self.classes
    }

    /// The Method info of a package.
    fn info(&self, package: u16) -> &'a [u8]
        requires { «package» < length self.now.infos }
        ensures { result.now ≡ list_at self.now.infos «package» }
    {
        self.infos.at(package as usize)
    }

    /// What the entries of the constant pool of a package name.
    fn pool(&self, package: u16) -> &Members
        requires { «package» < length self.now.infos }
        ensures is { result.now ≡ list_at self.now.pools «package» }
        ensures links { All (IsMember self.now.classes self.now.methods self.now.statics) result.now }
        ensures most { length result.now ≤ 65535 }
    {
        self.pools.at(package as usize)
    }

    /// How many packages there are: 16 at most.
    pub fn package_count(&self) -> u16
        ensures is { result ≡ length self.now.infos }
        ensures most { result ≤ 16 }
    {
        self.infos.len() as u16
    }

    /// How many classes and interfaces all packages have: 4,096 at most.
    pub fn class_count(&self) -> u16
        ensures is { result ≡ length self.now.classes.records }
        ensures most { result ≤ 4096 }
    {
        self.classes.len() as u16
    }

    /// How many methods all packages have: 32,768 at most.
    pub fn method_count(&self) -> u16
        ensures is { result ≡ length self.now.methods }
        ensures most { result ≤ 32768 }
    {
        self.methods.len() as u16
    }

    /// How many static fields all packages have: 32,768 at most.
    pub fn static_count(&self) -> u16
        ensures is { result ≡ length self.now.statics }
        ensures most { result ≤ 32768 }
    {
        self.statics.len() as u16
    }

    /// How many initial arrays all packages have: 4,096 at most.
    pub fn array_count(&self) -> u16
        ensures is { result ≡ length self.now.arrays }
        ensures most { result ≤ 4096 }
    {
        self.arrays.len() as u16
    }

    /// The number of entries in the constant pool of a package.
    pub fn pool_count(&self, package: u16) -> u16
        requires { «package» < length self.now.infos }
        ensures { result ≡ length (list_at self.now.pools «package») }
    {
        self.pool(package).len() as u16
    }

    /// The class or interface of this number.
    pub fn class(&self, n: u16) -> &ClassRec
        requires { n < length self.now.classes.records }
        ensures is { slice_get self.now.classes.records n ≡ Some result.now }
        ensures links { IsLinkedClass (length self.now.infos) self.now.classes self.now.methods n result.now }
        ensures cells { length (cells_of self.now.classes n) ≡ result.now.cells }
    {
        self.classes.at(n)
    }

    /// Whether objects can be made of a class: it is no interface, and no entry of its dispatch lists is
    /// abstract.
    pub fn is_concrete(&self, class: u16) -> bool
        requires { class < length self.now.classes.records }
        ensures is { IsTrue result ↔ IsConcrete self.now.classes self.now.methods class }
        ensures computed { result ≡ is_concrete self.now.classes self.now.methods class }
    {
        self.by_class.is_concrete(class)
    }

    /// Where the numbers of the methods of a class or an interface lie.
    pub fn method_bounds(&self, class: u16) -> MethodBounds
        requires { class < length self.now.classes.records }
        ensures { AreBounds self.now.methods class result }
    {
        self.by_class.bounds(class)
    }

    /// The method of this number.
    pub fn method(&self, n: u16) -> &MethodRec
        requires { n < length self.now.methods }
        ensures is { slice_get self.now.methods n ≡ Some result.now }
        ensures links { IsMethod self.now.infos self.now.pools self.now.classes result.now }
    {
        self.methods.at(n as usize)
    }

    /// What an entry of the constant pool of a package names.
    pub fn member(&self, package: u16, pool: u16) -> Member
        requires known { «package» < length self.now.infos }
        requires entry { pool < length (list_at self.now.pools «package») }
        ensures is { member_at self.now «package» pool ≡ Some result }
        ensures links { IsMember self.now.classes self.now.methods self.now.statics result }
    {
        *self.pool(package).at(pool as usize)
    }

    /// The static field of this number.
    pub fn static_field(&self, n: u16) -> &StaticRec
        requires { n < length self.now.statics }
        ensures is { slice_get self.now.statics n ≡ Some result.now }
        ensures links { IsStatic (length self.now.infos) self.now.classes self.now.arrays result.now }
    {
        self.statics.at(n as usize)
    }

    /// The initial array of this number; its handle is one more.
    pub fn array(&self, n: u16) -> &ArrayRec
        requires { n < length self.now.arrays }
        ensures is { slice_get self.now.arrays n ≡ Some result.now }
        ensures links { AreElementsOf result.now.kind result.now.initial }
    {
        self.arrays.at(n as usize)
    }

    /// The class of a role: 0 object, 1 throwable, and from 2 to 7 the classes that the machine throws
    /// for null, arithmetic, array index, negative size, class cast and array store.
    pub fn role(&self, k: u8) -> u16
        requires { k < 8 }
        ensures is { result ≡ slice_index self.now.classes.roles k }
        ensures class { IsClass self.now.classes result }
        ensures thrown { 2 ≤ k → IsThrown self.now.classes self.now.methods result }
    {
        self.classes.role(k)
    }

    /// The bytes of a method's code, in its package's Method info.
    pub fn code(&self, method: u16) -> &'a [u8]
        requires { method < length self.now.methods }
        ensures is { option_map (code_of self.now.infos) (slice_get self.now.methods method) ≡ Some result.now }
        ensures len { IfSome (slice_get self.now.methods method) (λ m. length result.now ≡ m.code_len) }
    {
        let m = self.method(method);
        let from = m.code_at as usize;
        let end = from + m.code_len as usize;
        &self.info(m.package)[from..end]
    }

    /// The target index of a method, where its package has one that is well formed.
    pub fn index(&self, method: u16) -> Option<TargetIndex<'a>>
        requires { method < length self.now.methods }
        ensures { result ≡ index_of self.now method }
    {
        Some(self.indexes.at(method as usize).as_ref()?.again())
    }

    /// The number of the method that has these numbers in the Descriptor of a package.
    pub fn method_at(&self, package: u16, class_no: u16, method_no: u16) -> Option<u16>
        ensures { result ≡ method_numbered self.now.methods «package» class_no method_no }
    {
        Some(place(&self.methods, package, class_no, method_no)? as u16)
    }
}

fn is_numbered(m: &MethodRec, package: u16, class_no: u16, method_no: u16) -> bool
    ensures { result ≡ has_numbers «package» class_no method_no m.now }
{
    m.package == package && m.class_no == class_no && m.method_no == method_no
}

fn place(methods: &Methods, package: u16, class_no: u16, method_no: u16) -> Option<usize>
    ensures is { result ≡ method_numbered methods.now «package» class_no method_no }
    ensures below { IfSome result (λ n. n < length methods.now) }
{
    methods
        .as_slice()
        .iter()
        .position(|m| is_numbered(m, package, class_no, method_no))
}
