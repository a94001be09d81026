ghost use Rattle.law_relink.specs.WorldAgain.{LaidMethodsStand, LinkAgain};
ghost use Rattle.law_relink.specs.NamesAgain.{ClassesLink, NamesConditionsStay, NamesLink};

/// Packages that make a world make one again when the last of them is written with code that may be laid for its methods:
/// code of methods that have code, whose handlers catch all, or what handlers of the method do. Pools, classes, static
/// fields and initial arrays are the same, and methods are the same apart from code.
pub fn links_again()
    ensures { LinkAgain }
{}

/// In that world a method of an earlier package has its record and its code, by the same number; one of the last package
/// has what is laid for it, and no code where nothing is laid.
pub fn laid_methods_stand()
    ensures { LaidMethodsStand }
{}

/// Where the last of several packages is written with other code, each import is met by the same package, and each class
/// reference names the class of the same number.
pub fn names_link()
    ensures { NamesLink }
{}

/// The same things are at fault then with the numbers of packages, classes and methods, with imports and with class
/// references: none of these conditions asks for code.
pub fn name_conditions_stay()
    ensures { NamesConditionsStay }
{}

/// The classes are the same then, each with the classes, types and methods that it names by their numbers: what is asked
/// of superclasses, roles and interfaces asks for nothing else.
pub fn classes_link()
    ensures { ClassesLink }
{}
