ghost use Rattle.std.specs.Prelude.{◌≡◌, ◌+◌, ◌≤◌, ◌<◌, ◌++◌, length, map, option_map, IfOk, IfSome, OnOk};
ghost use Rattle.cap_class.specs.ClassFormat.{Class, is_interface};
ghost use Rattle.cap_class.specs.ClassPart.{classes_left};
ghost use Rattle.cap_pool.specs.Export.{exported_class_seen};
ghost use Rattle.jc_resolve.specs.Counts.{class_total, method_total};
ghost use Rattle.jc_resolve.specs.Numbering.{numbered_classes, numbered_methods, class_at, method_at, is_interface_number};
ghost use Rattle.jc_resolve.specs.Numbers.{spot_of_class, with_all, none_numbered, class_spots, interface_flags};
ghost use Rattle.jc_resolve.specs.References.{met_by, place_referred, class_referred, class_named, exported_class, exported_field};
ghost use Rattle.jc_resolve.specs.References.{exported_method};

use crate::counts::class_total;
use crate::exports::{Exports, exported_classes, exported_in};
use crate::fault::RecordPlace;
use crate::imports::{Met, imports_met, met_among};
use crate::method_index::number_methods;
use crate::numbers::Numbers;
use cap_bytes::ClassReference;
use cap_class::ClassInfos;
use cap_package::{Package, Packages};
use cap_pool::ExportedClass;
use jc_base::Items;
use std::alloc::{AllocError, Global};
use std::marker::Model;

/// Packages with their classes and methods numbered.
#[derive(Drop)]
pub(crate) struct Index<'n, 'p, 'a> {
    packages: &'n Packages<'p, 'a>,
    numbers: Numbers,
    /// By number whether it is an interface.
    interfaces: Vec<bool>,
    methods: Numbers,
    /// By package and token the exported classes.
    exports: Items<Exports<'a>>,
    /// By package and token the packages that meet the imports.
    met: Items<Met>,
}

impl<'n, 'p, 'a> Model for Index<'n, 'p, 'a> {
    ghost use Rattle.std.specs.Prelude.{List};
    ghost use Rattle.cap_package.specs.PackageRecord.{PackageRecord};

    ghost Value = { List PackageRecord };

    ghost use Rattle.std.specs.Prelude.{map};
    ghost use Rattle.cap_pool.specs.Export.{exported_class_seen};
    ghost use Rattle.jc_resolve.specs.Numbers.{AreIndexed};

    ghost view = { λ x. x.packages.now };

    ghost invariant = { λ x. AreIndexed x.packages.now x.numbers x.interfaces.items x.methods
        (map (map exported_class_seen) x.exports) x.met };
}

/// Numbers the classes of one package.
fn number_package(
    numbers: &mut Numbers,
    interfaces: &mut Vec<bool>,
    package: u16,
    classes: ClassInfos<'_>,
) -> Result<(), AllocError>
    requires { numbers.old.next + length (classes_left classes) < 65535 }
    ensures numbers { OnOk result (numbers.new ≡ with_all numbers.old (map (spot_of_class «package») (classes_left classes.entry))) }
    ensures flags { OnOk result
        (interfaces.new.items
        ≡ interfaces.old.items ++ map (λ (c : Class). is_interface c.flags) (classes_left classes.entry)) }
    ensures next { OnOk result (numbers.new.next ≡ numbers.old.next + length (classes_left classes.entry)) }
{
    'classes: for class in classes {
        numbers.push(Some(RecordPlace {
            package,
            offset: class.offset(),
        }))?;
        interfaces.push(class.flags().is_interface())?;
    }
    Ok(())
}

/// The numbers of classes, and by number whether it is an interface.
#[derive(Drop)]
struct ClassNumbers {
    numbers: Numbers,
    interfaces: Vec<bool>,
}

fn number_all(alloc: Global, packages: &Packages<'_, '_>) -> Result<ClassNumbers, AllocError>
    requires many { length packages.now ≤ 16 }
    requires few { class_total packages.now ≤ 4096 }
    ensures numbers { IfOk result (λ x. x.numbers ≡ with_all none_numbered (class_spots 0 packages.now)) }
    ensures flags { IfOk result (λ x. x.interfaces.items ≡ interface_flags packages.now) }
{
    let count = class_total(packages) as usize;
    let mut numbers = Numbers::with_room(alloc, count)?;
    let mut interfaces = Vec::with_capacity(alloc, count)?;
    'packages: for (k, package) in packages.iter().enumerate() {
        number_package(
            &mut numbers,
            &mut interfaces,
            k as u16,
            package.classes().iter(),
        )?;
    }
    Ok(ClassNumbers {
        numbers,
        interfaces,
    })
}

/// Packages with their classes and methods numbered.
pub(crate) fn index_packages<'n, 'p, 'a>(
    alloc: Global,
    packages: &'n Packages<'p, 'a>,
) -> Result<Index<'n, 'p, 'a>, AllocError>
    requires many { length packages.now ≤ 16 }
    requires few { class_total packages.now ≤ 4096 }
    requires few_methods { method_total packages.now ≤ 32768 }
    ensures { IfOk result (λ x. x ≡ packages.now) }
{
    let classes = number_all(alloc, packages)?;
    let methods = number_methods(alloc, packages)?;
    let exports = exported_classes(alloc, packages)?;
    let met = imports_met(alloc, packages)?;
    Ok(Index {
        packages,
        numbers: classes.numbers,
        interfaces: classes.interfaces,
        methods,
        exports,
        met,
    })
}

impl<'n, 'p, 'a> Index<'n, 'p, 'a> {
    pub(crate) fn packages(&self) -> &'n Packages<'p, 'a>
        ensures is { result.now ≡ self.now }
        ensures few { length self.now ≤ 16 }
        ensures few_classes { length (numbered_classes self.now) ≤ 4096 }
        ensures few_methods { length (numbered_methods self.now) ≤ 32768 }
    {
        self.packages
    }

    /// The number of the class at a place.
    #[tactic(auto, using(crate::proofs::NumberLaws::class_numbered))]
    fn class_at(&self, place: RecordPlace) -> Option<u16>
        ensures is { result ≡ class_at self.now place }
        ensures below { IfSome result (λ c. c < length (numbered_classes self.now)) }
    {
        self.numbers.at(place)
    }

    /// The class that a package exports with a token.
    fn exported_class(&self, package: u16, token: u8) -> Option<ExportedClass<'a>>
        ensures { option_map exported_class_seen result ≡ exported_class self.now «package» token }
    {
        exported_in(&self.exports, package, token)
    }

    /// The offset of the static field that a package exports, by its class's token and its own.
    #[tactic(auto, using(crate::proofs::ExportLaws::field_there))]
    pub(crate) fn exported_field(&self, package: u16, class: u8, token: u8) -> Option<u16>
        ensures { result ≡ exported_field self.now «package» class token }
    {
        let exported = self.exported_class(package, class)?;
        exported.fields.at(token as u16)
    }

    /// The offset of the method that a package exports, by its class's token and its own.
    #[tactic(auto, using(crate::proofs::ExportLaws::method_there))]
    pub(crate) fn exported_method(&self, package: u16, class: u8, token: u8) -> Option<u16>
        ensures { result ≡ exported_method self.now «package» class token }
    {
        let exported = self.exported_class(package, class)?;
        exported.methods.at(token as u16)
    }

    /// The package that meets the import of a package with a token.
    pub(crate) fn import_met(&self, package: u16, token: u8) -> Option<u16>
        ensures is { result ≡ met_by self.now «package» token }
        ensures earlier { IfSome result (λ n. n < «package») }
    {
        met_among(&self.met, package, token)
    }

    /// Where the class stands to which a reference of a package leads.
    fn place_referred(&self, package: u16, reference: ClassReference) -> Option<RecordPlace>
        ensures { result ≡ place_referred self.now «package» reference }
    {
        match reference {
            ClassReference::Internal(offset) => Some(RecordPlace { package, offset }),
            ClassReference::External {
                package: import,
                class,
            } => {
                let home = self.import_met(package, import)?;
                let exported = self.exported_class(home, class)?;
                Some(RecordPlace {
                    package: home,
                    offset: exported.class.class_offset,
                })
            }
        }
    }

    /// The class to which a reference of a package leads.
    #[tactic(auto, unfolding(crate::specs::References::class_referred))]
    pub(crate) fn class_referred(&self, package: u16, reference: ClassReference) -> Option<u16>
        ensures is { result ≡ class_referred self.now «package» reference }
        ensures below { IfSome result (λ c. c < length (numbered_classes self.now)) }
    {
        let place = self.place_referred(package, reference)?;
        self.class_at(place)
    }

    /// The class that a class_ref of a package names.
    #[tactic(auto, unfolding(crate::specs::References::class_named))]
    pub(crate) fn class_named(&self, package: u16, class_ref: u16) -> Option<u16>
        ensures is { result ≡ class_named self.now «package» class_ref }
        ensures below { IfSome result (λ c. c < length (numbered_classes self.now)) }
    {
        self.class_referred(package, ClassReference::of(class_ref))
    }

    /// The number of the method at a place.
    #[tactic(auto, using(crate::proofs::NumberLaws::method_numbered))]
    pub(crate) fn method_at(&self, place: RecordPlace) -> Option<u16>
        ensures is { result ≡ method_at self.now place }
        ensures below { IfSome result (λ n. n < length (numbered_methods self.now)) }
    {
        self.methods.at(place)
    }

    /// Whether a number is that of an interface.
    pub(crate) fn is_interface(&self, class: u16) -> bool
        requires { class < length (numbered_classes self.now) }
        ensures { result ≡ is_interface_number self.now class }
    {
        match self.interfaces.get(class as usize) {
            Some(interface) => *interface,
            None => false,
        }
    }
}

/// A package with its number, among those that are indexed, and the roles of classes.
#[derive(Clone, Copy)]
pub(crate) struct Home<'x, 'n, 'p, 'a> {
    pub(crate) index: &'x Index<'n, 'p, 'a>,
    pub(crate) roles: [u8; 8],
    pub(crate) number: u16,
    pub(crate) of_package: &'x Package<'p, 'a>,
}
