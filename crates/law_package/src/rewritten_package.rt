ghost use Rattle.law_package.specs.RewrittenPackage.{RewrittenStands, WritingRewrites};
ghost use Rattle.law_package.specs.Naming.{NamesStay};

use cap_laying::{headers_read_back, methods_stand};

/// What is written, component by component, when code is laid for the methods of a package is that package with this
/// code, each method named by its position.
pub fn writing_rewrites()
    ensures { WritingRewrites }
{
    headers_read_back();
    methods_stand();
}

/// Parts that say, component by component, what a package says with other code stand for it: none of the conditions on
/// the agreement of components is broken.
pub fn rewritten_is_a_package()
    ensures { RewrittenStands }
{}

/// An offset that names a method in a package names, as it is renewed, the method at the same position of the package
/// with other code.
pub fn names_stay()
    ensures { NamesStay }
{}
