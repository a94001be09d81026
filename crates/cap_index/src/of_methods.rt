ghost use Rattle.std.specs.Prelude.{◌≡◌, ◌<◌, ◌≤◌, length, IfOk, All, count_by};
ghost use Rattle.cap_index.specs.Indexes.{has_code, is_coded, package_lists, indexes_of};
ghost use Rattle.cap_index.specs.Taking.{IsTakenFrom};

use crate::lists::{Lists, lists_in};
use cap_package::Packages;
use jc_base::{Indexes, MethodRec, Methods, TargetIndex};
use std::alloc::{AllocError, Global};

fn has_code(method: &MethodRec) -> bool
    ensures { result ≡ has_code method.now }
{
    method.code_len > 0
}

/// How many methods with code a package has.
fn count_coded(methods: &Methods, package: u16) -> u16
    requires { length methods.now ≤ 32768 }
    ensures { result ≡ count_by (is_coded «package») methods.now }
{
    let mut count = 0;
    'methods: for method in methods.as_slice() {
        if method.package == package && has_code(method) {
            count += 1;
        }
    }
    count
}

/// The lists of each package's index.
fn all_lists<'a>(
    alloc: Global,
    packages: &Packages<'_, 'a>,
    methods: &Methods,
) -> Result<Vec<Lists<'a>>, AllocError>
    requires packages { length packages.now ≤ 16 }
    requires methods { length methods.now ≤ 32768 }
    ensures { IfOk result (λ lists. lists.items ≡ package_lists packages.now methods.now) }
{
    let mut lists = Vec::with_capacity(alloc, packages.len())?;
    'packages: for k in 0..packages.len() {
        let count = count_coded(methods, k as u16);
        lists.push(lists_in(packages.at(k), count))?;
    }
    Ok(lists)
}

/// The index of the next method: the next list of its package, if it has code.
fn next_index<'a>(lists: &mut Vec<Lists<'a>>, method: &MethodRec) -> Option<TargetIndex<'a>>
    requires { method.now.package < length lists.old.items }
    ensures { IsTakenFrom lists.old.items method.now result lists.new.items }
{
    if has_code(method) {
        lists[method.package as usize].next()
    } else {
        None
    }
}

/// The target index of each method, by number, where its package has one that is well formed.
pub fn indexes<'a>(
    alloc: Global,
    packages: &Packages<'_, 'a>,
    methods: &Methods,
) -> Result<Indexes<'a>, AllocError>
    requires packages { length packages.now ≤ 16 }
    requires methods { length methods.now ≤ 32768 }
    requires homes { All (λ m. m.package < length packages.now) methods.now }
    ensures { IfOk result (λ indexes. indexes ≡ indexes_of packages.now methods.now) }
{
    let mut lists = all_lists(alloc, packages, methods)?;
    let mut indexes = Vec::with_capacity(alloc, methods.len())?;
    'methods: for method in methods.as_slice() {
        indexes.push(next_index(&mut lists, method))?;
    }
    Ok(Indexes::of(indexes))
}
