ghost use Rattle.std.specs.Prelude.{◌≡◌, ◌<◌, ◌++◌, ◌∷◌, [], All, IfOk, OnOk, length, replicate, slice_get, Some};
ghost use Rattle.jc_classes.specs.Groups.{AreGroups, IsMethodAdded};

use jc_base::{MethodRec, Methods};
use std::alloc::{AllocError, Global};
use std::marker::Model;

/// The methods of one class or interface, in the order of their numbers.
#[derive(Drop)]
pub(crate) struct Group<'a> {
    methods: Vec<&'a MethodRec>,
}

impl<'a> Model for Group<'a> {
    ghost use Rattle.std.specs.Prelude.{List, map};
    ghost use Rattle.jc_base.specs.declared.record.MethodRec.{MethodRec};

    ghost Value = { List MethodRec };

    ghost view = { λ a. map (λ m. m.now) a.methods.items };
}

impl<'a> Group<'a> {
    fn new(alloc: Global) -> Group<'a>
        ensures { result ≡ [] }
    {
        Group {
            methods: Vec::new(alloc),
        }
    }

    fn push(&mut self, method: &'a MethodRec) -> Result<(), AllocError>
        ensures ok { OnOk result (self.new ≡ self.old ++ method.now ∷ []) }
    {
        self.methods.push(method)?;
        Ok(())
    }

    pub(crate) fn len(&self) -> usize
        ensures { result ≡ length self.now }
    {
        self.methods.len()
    }

    pub(crate) fn at(&self, n: usize) -> &'a MethodRec
        requires { n < length self.now }
        ensures { slice_get self.now n ≡ Some result.now }
    {
        self.methods[n]
    }
}

fn empty_groups<'a>(alloc: Global, count: usize) -> Result<Vec<Group<'a>>, AllocError>
    ensures { IfOk result (λ groups. groups.items ≡ replicate count []) }
{
    let mut groups = Vec::with_capacity(alloc, count)?;
    'groups: for _ in 0..count {
        groups.push(Group::new(alloc))?;
    }
    Ok(groups)
}

#[tactic(auto, using(crate::proofs::Grouping::adding))]
fn add<'a>(groups: &mut Vec<Group<'a>>, method: &'a MethodRec) -> Result<(), AllocError>
    requires known { method.now.class < length groups.now.items }
    ensures { IfOk result (λ _. IsMethodAdded method.now groups.old.items groups.new.items) }
{
    groups[method.class as usize].push(method)
}

/// The methods of each class below a number.
#[tactic(auto, using(crate::proofs::Grouping::grouping))]
pub(crate) fn groups<'a>(
    alloc: Global,
    methods: &'a Methods,
    count: usize,
) -> Result<Vec<Group<'a>>, AllocError>
    requires known { All (λ m. m.class < count) methods.now }
    ensures { IfOk result (λ groups. AreGroups count methods.now groups.items) }
{
    let mut groups = empty_groups(alloc, count)?;
    'methods: for method in methods.as_slice() {
        add(&mut groups, method)?;
    }
    Ok(groups)
}
