ghost use Rattle.std.specs.Prelude.{◌≡◌, ℕ, ◌<◌, ◌≤◌, ◌↔◌, length, slice_index, slice_get, Some, IfSome, All};
ghost use Rattle.cap_class.specs.ClassPart.{class_seen};
ghost use Rattle.jc_resolve.specs.Described.{IsDescribedOnce};
ghost use Rattle.jc_resolve.specs.Named.{IsAgreed};
ghost use Rattle.jc_resolve.specs.NamedClasses.{named_classes};
ghost use Rattle.jc_resolve.specs.NamedMethods.{named_methods};
ghost use Rattle.jc_resolve.specs.Numbering.{numbered_classes, numbered_methods, method_at};
ghost use Rattle.jc_resolve.specs.References.{met_by, class_referred, exported_field, exported_method, Refers};
ghost use Rattle.jc_resolve.specs.TypedFields.{static_field_types, own_fields_in};

use crate::class_index::Index;
use crate::fault::RecordPlace;
use crate::field_records::{OwnField, PackageFields, own_kept, types_kept};
use crate::naming::NamedClasses;
use cap_bytes::ClassReference;
use cap_class::ClassInfo;
use cap_package::Packages;
use jc_base::{Items, Methods, Ty};
use std::marker::Model;

/// Every class and method of packages by number, with all that their records name resolved.
#[derive(Drop)]
pub struct Names<'n, 'p, 'a> {
    pub(crate) index: Index<'n, 'p, 'a>,
    pub(crate) roles: [u8; 8],
    /// By package the fields, each with its type.
    pub(crate) fields: Items<PackageFields>,
    pub(crate) classes: NamedClasses,
    pub(crate) methods: Methods,
}

impl<'n, 'p, 'a> Model for Names<'n, 'p, 'a> {
    ghost use Rattle.jc_resolve.specs.Names.{NamesRecord};

    ghost Value = { NamesRecord };

    ghost use Rattle.jc_resolve.specs.Names.{HaveFields};

    ghost view = { λ x. record { packages = x.index; roles = x.roles; classes = x.classes; methods = x.methods } };

    ghost invariant = { λ x.
        HaveFields (record { packages = x.index; roles = x.roles; classes = x.classes; methods = x.methods }) x.fields };
}

impl<'n, 'p, 'a> Names<'n, 'p, 'a> {
    /// Does nothing: it says that the classes and the methods are those of the packages, and that there are no more of
    /// them than a world has.
    pub fn facts(&self)
        ensures classes { self.now.classes ≡ named_classes self.now.packages (slice_index self.now.roles 0) }
        ensures methods { self.now.methods ≡ named_methods self.now.packages self.now.roles }
        ensures few { length self.now.packages ≤ 16 }
        ensures few_classes { length self.now.classes ≤ 4096 }
        ensures few_methods { length self.now.methods ≤ 32768 }
        // The parts of each package stand for it.
        ensures agreed { All IsAgreed self.now.packages }
    {
        // What is indexed is few.
        let _ = self.index.packages();
    }

    /// The packages that were named.
    pub fn packages(&self) -> &'n Packages<'p, 'a>
        ensures is { result.now ≡ self.now.packages }
    {
        self.index.packages()
    }

    /// The classes and interfaces, by number.
    pub fn classes(&self) -> &NamedClasses
        ensures is { result.now ≡ self.now.classes }
    {
        &self.classes
    }

    /// The methods, by number.
    pub fn methods(&self) -> &Methods
        ensures is { result.now ≡ self.now.methods }
    {
        &self.methods
    }

    /// The methods, by number, where nothing else is asked.
    pub fn into_methods(self) -> Methods
        ensures { result ≡ self.entry.methods }
    {
        self.methods
    }

    /// The class to which a reference in a package leads.
    pub fn class_referred(&self, package: u16, reference: ClassReference) -> Option<u16>
        ensures is { result ≡ class_referred self.now.packages «package» reference }
        // The one class to which it refers, by its offset in the package itself or by the tokens of an import.
        ensures refers { (c : ℕ) → (result ≡ Some c) ↔ Refers self.now.packages «package» reference c }
        ensures below { IfSome result (λ c. c < length (numbered_classes self.now.packages)) }
    {
        self.index.class_referred(package, reference)
    }

    /// The method whose header stands at an offset of a package's Method component.
    pub fn method_at(&self, package: u16, offset: u16) -> Option<u16>
        ensures is { result ≡ method_at self.now.packages (record { «package» = «package»; offset = offset }) }
        ensures below { IfSome result (λ n. n < length (numbered_methods self.now.packages)) }
    {
        self.index.method_at(RecordPlace { package, offset })
    }

    /// The types of the static fields of a package, in the order of their places; a package that is not there has none.
    pub fn static_types(&self, package: u16) -> &[Ty]
        ensures { result.now ≡ static_field_types self.now.packages (slice_index self.now.roles 0) «package» }
    {
        types_kept(&self.fields, package)
    }

    /// The instance fields that a class of a package has of its own.
    pub fn own_fields(&self, package: u16, class: ClassInfo<'_>) -> &[OwnField]
        requires { IfSome (slice_get self.now.packages «package») (λ p. IsDescribedOnce p.description.items.classes (class_seen class)) }
        ensures { result.now ≡ own_fields_in self.now.packages (slice_index self.now.roles 0) «package» (class_seen class.entry) }
    {
        own_kept(&self.fields, package, class)
    }

    /// The package that meets the import of a package with a token.
    pub fn import_met(&self, package: u16, import: u8) -> Option<u16>
        ensures is { result ≡ met_by self.now.packages «package» import }
        ensures earlier { IfSome result (λ n. n < «package») }
    {
        self.index.import_met(package, import)
    }

    /// The offset of the static field that a package exports, by its class's token and its own.
    pub fn exported_field(&self, package: u16, class: u8, token: u8) -> Option<u16>
        ensures { result ≡ exported_field self.now.packages «package» class token }
    {
        self.index.exported_field(package, class, token)
    }

    /// The offset of the method that a package exports, by its class's token and its own.
    pub fn exported_method(&self, package: u16, class: u8, token: u8) -> Option<u16>
        ensures { result ≡ exported_method self.now.packages «package» class token }
    {
        self.index.exported_method(package, class, token)
    }
}
