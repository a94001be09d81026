ghost use Rattle.std.specs.Prelude.{◌≡◌, ◌<◌, ◌∷◌, ◌++◌, [], length, slice_get, Some, OnOk, OnErr, map};
ghost use Rattle.vm_step.specs.Arguments.{argument_of};

use std::alloc::{AllocError, Global};
use std::marker::Model;

/// What is handed to one parameter of the first method of a run.
#[derive(Clone, Copy)]
pub enum Arg<'a> {
    /// For a short or an int.
    Number(i32),
    /// For a reference.
    Null,
    /// For a reference to an array of bytes, which is made for the call with these as its elements.
    Bytes(&'a [u8]),
}

/// What is handed to the first method of a run, in the order of its parameters.
#[derive(Drop)]
pub struct Args<'a> {
    items: Vec<Arg<'a>>,
}

impl<'a> Model for Args<'a> {
    ghost use Rattle.std.specs.Prelude.{List, map};
    ghost use Rattle.vm_step.specs.Arguments.{Argument, argument_of};

    ghost Value = { List Argument };

    ghost view = { λ a. map argument_of a.items.items };
}

impl<'a> Args<'a> {
    /// No argument yet.
    pub fn new(alloc: Global) -> Args<'a>
        ensures { result ≡ [] }
    {
        Args {
            items: Vec::new(alloc),
        }
    }

    /// Appends an argument. Out of memory, the list is as before.
    pub fn push(&mut self, arg: Arg<'a>) -> Result<(), AllocError>
        ensures ok { OnOk result (self.new ≡ self.old ++ argument_of arg.entry ∷ []) }
        ensures err { OnErr result (self.new ≡ self.old) }
    {
        self.items.push(arg)?;
        Ok(())
    }

    /// How many arguments there are.
    pub fn len(&self) -> usize
        ensures { result ≡ length self.now }
    {
        self.items.len()
    }

    /// All arguments, to go over them.
    pub fn as_slice(&self) -> &[Arg<'a>]
        ensures { map argument_of result.now ≡ self.now }
    {
        self.items.as_slice()
    }

    /// The argument of a number, from 0.
    pub fn at(&self, n: usize) -> Arg<'a>
        requires { n < length self.now }
        ensures { slice_get self.now n ≡ Some (argument_of result) }
    {
        self.items[n]
    }
}
