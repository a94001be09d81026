ghost use Rattle.std.specs.Prelude.{◌≡◌, [], ◌∷◌, ◌++◌, Some, None, OnOk, OnErr};
ghost use Rattle.cap_desc.specs.MemberRecords.{method_seen};
ghost use Rattle.cap_renewal.specs.NewMethods.{AreSmall, at_offset, new_numbers, to};

use cap_desc::MethodInfo;
use std::alloc::{AllocError, Global};
use std::marker::Model;

/// Where a method stands in the info of the Method component after it is written anew, and what else
/// the Descriptor then tells of it (section 6.13 of the specification).
#[derive(Clone, Copy)]
pub struct NewMethod {
    pub offset: u16,
    /// How many bytes of code it has.
    pub bytecode_count: u16,
    /// How many entries of the handler table are its own.
    pub handler_count: u16,
    /// The number of the first of them, and 0 where it has none.
    pub handler_index: u16,
}

/// The methods of a package as they are written anew, each at the offset at which it stood before.
#[derive(Drop)]
pub struct NewMethods {
    items: Vec<Option<NewMethod>>,
}

impl Model for NewMethods {
    ghost use Rattle.std.specs.Prelude.{List, Option};
    ghost use Rattle.cap_renewal.specs.declared.new_methods.NewMethod.{NewMethod};

    ghost Value = { List (Option NewMethod) };

    ghost use Rattle.cap_renewal.specs.NewMethods.{AreSmall};

    ghost view = { λ n. n.items.items };

    ghost invariant = { λ n. AreSmall n.items.items };
}

impl NewMethods {
    /// No offset.
    #[tactic(auto, using(crate::proofs::News::none_small))]
    pub fn new(alloc: Global) -> NewMethods
        ensures { result ≡ [] }
    {
        NewMethods {
            items: Vec::new(alloc),
        }
    }

    /// A method stood at the next offset, from 0 on. After an error the list is as before.
    #[tactic(auto, using(crate::proofs::News::one_small))]
    pub fn push(&mut self, method: NewMethod) -> Result<(), AllocError>
        ensures ok { OnOk result (self.new ≡ self.old ++ Some method ∷ []) }
        ensures err { OnErr result (self.new ≡ self.old) }
    {
        self.items.push(Some(method))?;
        Ok(())
    }

    /// No method stood at the next offset. After an error the list is as before.
    #[tactic(auto, using(crate::proofs::News::no_more))]
    pub fn skip(&mut self) -> Result<(), AllocError>
        ensures ok { OnOk result (self.new ≡ self.old ++ None ∷ []) }
        ensures err { OnErr result (self.new ≡ self.old) }
    {
        self.items.push(None)?;
        Ok(())
    }

    /// The method that stood at an offset.
    pub fn at(&self, offset: u16) -> Option<NewMethod>
        ensures { result ≡ at_offset self.now offset }
    {
        *self.items.get(offset as usize)?
    }

    /// The new offset of the method that stood at an offset; where none did, the offset itself.
    #[tactic(auto, unfolding(crate::specs::NewMethods::to))]
    pub fn offset(&self, offset: u16) -> u16
        ensures { result ≡ to self.now offset }
    {
        self.at(offset).map_or(offset, |method| method.offset)
    }

    /// The new numbers of a method; those that it has where none stood at its offset.
    #[tactic(auto, unfolding(crate::specs::NewMethods::new_numbers))]
    pub fn numbers(&self, method: &MethodInfo) -> NewMethod
        ensures { result ≡ new_numbers self.now (method_seen method.now) }
    {
        match self.at(method.method_offset) {
            Some(numbers) => numbers,
            None => NewMethod {
                offset: method.method_offset,
                bytecode_count: method.bytecode_count,
                handler_count: method.handler_count,
                handler_index: method.handler_index,
            },
        }
    }
}

/// The numbers have two bytes: a fact for proofs, and no work.
pub(crate) fn are_small(news: &NewMethods)
    ensures { AreSmall news.now }
{
    let _len = news.items.len();
}
