ghost use Rattle.std.specs.Prelude.{◌≡◌, map, option_and_then, slice_get, IfOk};
ghost use Rattle.cap_pool.specs.Export.{exported_class_seen};
ghost use Rattle.cap_package.specs.Agreement.{or_none};
ghost use Rattle.jc_resolve.specs.Numbers.{exported_classes};

use cap_package::{Package, Packages};
use cap_pool::ExportedClass;
use jc_base::Items;
use std::alloc::{AllocError, Global};

/// What a package exports, by the tokens of the classes.
pub(crate) type Exports<'a> = Items<ExportedClass<'a>>;

/// The classes that one package exports, by their tokens.
fn exports_of<'a>(alloc: Global, package: &Package<'_, 'a>) -> Result<Exports<'a>, AllocError>
    ensures { IfOk result (λ classes. map exported_class_seen classes ≡ or_none «package».now.export) }
{
    let mut classes = Vec::new(alloc);
    let Some(export) = package.export() else {
        return Ok(Items::of(classes));
    };
    'classes: for class in export.iter() {
        classes.push(class)?;
    }
    Ok(Items::of(classes))
}

/// The classes that packages export, by package and token.
pub(crate) fn exported_classes<'a>(
    alloc: Global,
    packages: &Packages<'_, 'a>,
) -> Result<Items<Exports<'a>>, AllocError>
    ensures { IfOk result (λ exports. map (map exported_class_seen) exports ≡ exported_classes packages.now) }
{
    let mut exports = Vec::new(alloc);
    'packages: for package in packages.iter() {
        exports.push(exports_of(alloc, package)?)?;
    }
    Ok(Items::of(exports))
}

/// The class that a package exports with a token.
pub(crate) fn exported_in<'a>(
    exports: &Items<Exports<'a>>,
    package: u16,
    token: u8,
) -> Option<ExportedClass<'a>>
    ensures { result ≡ option_and_then (λ classes. slice_get classes token) (slice_get exports.now «package») }
{
    let classes = exports.as_slice().get(package as usize)?;
    classes.as_slice().get(token as usize).copied()
}
