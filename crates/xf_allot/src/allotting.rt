ghost use Rattle.std.specs.Prelude.{◌≡◌, ◌+◌, ◌≤◌, ◌++◌, drop, length, max, map, All, IfOk, MatchOption, OnOk};
ghost use Rattle.jc_control.specs.Subject.{method, world_of};
ghost use Rattle.law_share.specs.Sharing.{end_of};
ghost use Rattle.xf_allot.specs.Allotting.{AreAllottedBy, IsAllottedTo, LiesBefore, numbers_from};
ghost use Rattle.xf_allot.specs.Graph.{AreFound};
ghost use Rattle.xf_allot.specs.Variable.{HasNone, allotted_of};

use crate::fitting::{Allotted, least_fit, variable_at};
use jc_base::Ty;
use jc_control::Subject;
use std::alloc::{AllocError, Global};
use xf_live::Interference;

/// What the variables in the registers before one are given.
#[derive(Drop)]
pub(crate) struct Allotment {
    /// The variables, each with its registers.
    pub(crate) given: Vec<Allotted>,
    /// For each register before it the new number.
    pub(crate) numbers: Vec<u8>,
}

/// What the variables of a method are given, by the types of its registers; none where some register that is no argument is
/// of no value's type, or is one half of an int without the other.
pub(crate) fn allot(
    alloc: Global,
    subject: &Subject<'_>,
    found: &Interference,
    types: &[Ty],
) -> Result<Option<Allotment>, AllocError>
    requires found { AreFound (world_of subject.now) (method subject.now) found.now }
    requires arguments { subject.now.rec.now.nargs ≤ length types.now }
    requires few { length types.now ≤ 255 }
    ensures { IfOk result
        (λ s. MatchOption s
        (HasNone subject.now.rec.now.nargs (drop subject.now.rec.now.nargs types.now))
        (AreAllottedBy (world_of subject.now) (method subject.now) types.now)) }
{
    let mut allotment = Allotment::of(alloc, subject, types)?;
    'variables: while allotment.numbers.len() < types.len() {
        let Some(variable) = variable_at(types, allotment.numbers.len() as u8) else {
            return Ok(None);
        };
        let at = least_fit(subject, found, allotment.given.as_slice(), variable);
        allotment.given.push(Allotted { variable, at })?;
        number(&mut allotment.numbers, at, variable.width)?;
    }
    Ok(Some(allotment))
}

impl Allotment {
    // The arguments keep their numbers.
    fn of(alloc: Global, subject: &Subject<'_>, types: &[Ty]) -> Result<Allotment, AllocError>
        requires arguments { subject.now.rec.now.nargs ≤ length types.now }
        ensures { IfOk result (IsAllottedTo (world_of subject.now) (method subject.now) types.now) }
    {
        let _ = types;
        let mut numbers = Vec::new(alloc);
        'arguments: for register in 0..subject.rec.nargs {
            numbers.push(register)?;
        }
        Ok(Allotment {
            given: Vec::new(alloc),
            numbers,
        })
    }

    /// Where the registers that are given out end, those of the arguments among them.
    pub(crate) fn end(&self, arguments: u8) -> u8
        requires { All (LiesBefore 255) self.now.given.items }
        ensures { result ≡ end_of arguments (map allotted_of self.now.given.items) }
    {
        let mut end = arguments;
        let mut left = self.given.len();
        'given: while left > 0 {
            left -= 1;
            let allotted = self.given[left];
            end = end.max(allotted.at + allotted.variable.width);
        }
        end
    }
}

// Registers one after the other are the new numbers of the next.
fn number(numbers: &mut Vec<u8>, at: u8, width: u8) -> Result<(), AllocError>
    requires some { 1 ≤ width }
    requires most { width ≤ 2 }
    requires inside { at + width ≤ 255 }
    ensures { OnOk result (numbers.new.items ≡ numbers.old.items ++ numbers_from at width) }
{
    numbers.push(at)?;
    if width == 1 {
        return Ok(());
    }
    numbers.push(at + 1)?;
    Ok(())
}
