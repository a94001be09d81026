ghost use Rattle.std.specs.Prelude.{◌≤◌, ℕ, List, length, ◌≡◌, ◌↔◌, None, codes, IfOk, IfNone, IfSome, IsTrue, MatchBool};
ghost use Rattle.cap_listing.specs.declared.method.ListedMethod.{ListedMethod};
ghost use Rattle.cap_listing.specs.Text.{Lists};
ghost use Rattle.cap_listing.specs.Fault.{IsNotListing, IsReadLine, IsNoLine};
ghost use Rattle.cap_listing.specs.Assembling.{Assembles, AnswersMethods, AnswersLine};
ghost use Rattle.cap_listing.specs.Reading.{start};
ghost use Rattle.cap_listing.specs.Assembler.{inside, state_of, IsFew};

use crate::cut::cut;
use crate::fault::{AsmEnd, AsmFault};
use crate::method::{Listed, ListedMethod};
use crate::open_method::OpenMethod;
use crate::recognized::heading_of;
use jc_decode::Sequence;
use std::alloc::{AllocError, Global};

/// The methods whose listing a text is, of at most 65,538 bytes.
pub fn assemble(alloc: Global, text: &[u8]) -> Result<Listed, AsmEnd>
    requires { length text.now ≤ 65538 }
    ensures answered { Assembles text.now result }
    // A listing is assembled, and a text that is none refused, or there is no memory.
    ensures given { (ms : List ListedMethod) → Lists ms text.now → AnswersMethods ms result }
    ensures told { (line : ℕ) → IsNotListing text.now line → AnswersLine line result }
{
    let mut assembler = Assembler::new(alloc);
    match assembler.read_text(alloc, text) {
        Ok(None) => Ok(Sequence::of(assembler.methods)),
        Ok(Some(line)) => Err(AsmEnd::Fault(AsmFault::NotListing(line))),
        Err(_) => Err(AsmEnd::Memory),
    }
}

/// Reads a listing line by line.
#[derive(Drop)]
pub struct Assembler {
    /// The methods whose last line was read.
    pub(crate) methods: Vec<ListedMethod>,
    pub(crate) begun: Option<OpenMethod>,
}

/// Whether a line is the last of a method.
fn is_end(line: &[u8]) -> bool
    ensures { IsTrue result ↔ (line.now ≡ codes "end") }
{
    line == b"end".as_slice()
}

impl Assembler {
    pub(crate) fn new(alloc: Global) -> Assembler
        ensures start { state_of result ≡ start }
        ensures few { IsFew result }
    {
        Assembler {
            methods: Vec::new(alloc),
            begun: None,
        }
    }

    /// Whether a line, without its line feed, may come next; if so, it is read.
    fn read(&mut self, alloc: Global, line: &[u8]) -> Result<bool, AllocError>
        requires { IsFew self.old }
        ensures few { IsFew self.new }
        ensures cases { IfOk result (λ good. MatchBool good
            (IsReadLine (state_of self.old) line.now (state_of self.new)) (IsNoLine (state_of self.old) line.now)) }
    {
        match self.begun.take() {
            None => self.begin(alloc, line),
            Some(method) => self.go_on(alloc, method, line),
        }
    }

    /// The same where no method is begun.
    fn begin(&mut self, alloc: Global, line: &[u8]) -> Result<bool, AllocError>
        requires { self.old.begun ≡ None }
        ensures few { IsFew self.new }
        ensures cases { IfOk result (λ good. MatchBool good
            (IsReadLine (state_of self.old) line.now (state_of self.new)) (IsNoLine (state_of self.old) line.now)) }
    {
        let Some(heading) = heading_of(alloc, line)? else {
            return Ok(false);
        };
        self.begun = Some(OpenMethod::new(alloc, heading));
        Ok(true)
    }

    /// The same where a method is begun, which was taken out.
    fn go_on(
        &mut self,
        alloc: Global,
        mut method: OpenMethod,
        line: &[u8],
    ) -> Result<bool, AllocError>
        requires none { self.old.begun ≡ None }
        requires few { length method.code.items ≤ 65535 }
        ensures few { IsFew self.new }
        ensures cases { IfOk result (λ good. MatchBool good
            (IsReadLine (inside self.old.methods.items method) line.now (state_of self.new))
            (IsNoLine (inside self.old.methods.items method) line.now)) }
    {
        if is_end(line) {
            self.methods.push(method.end())?;
            return Ok(true);
        }
        let good = method.read(alloc, line)?;
        self.begun = Some(method);
        Ok(good)
    }

    /// Reads a text, and tells the first line that is none of a listing.
    pub(crate) fn read_text(
        &mut self,
        alloc: Global,
        text: &[u8],
    ) -> Result<Option<usize>, AllocError>
        requires start { state_of self.old ≡ start }
        requires few { IsFew self.old }
        requires short { length text.now ≤ 65538 }
        ensures whole { IfOk result (λ o. IfNone o (Lists self.new.methods.items text.now)) }
        ensures fault { IfOk result (λ o. IfSome o (IsNotListing text.now)) }
    {
        let mut rest = text;
        let mut number: usize = 1;
        'lines: while let Some((line, after)) = cut(b'\n', rest) {
            let good = self.read(alloc, line)?;
            if !good {
                return Ok(Some(number));
            }
            rest = after;
            number += 1;
        }
        Ok(self.end_text(rest, number))
    }

    /// The number of the next line, unless the rest of the text is empty and no method is begun.
    fn end_text(&self, rest: &[u8], number: usize) -> Option<usize>
        ensures whole { IfNone result ((length rest.now ≡ 0) × (self.now.begun ≡ None)) }
        ensures fault { IfSome result (λ n. (n ≡ number) × (length rest.now ≡ 0 → self.now.begun ≡ None → ⊥)) }
    {
        if !rest.is_empty() {
            return Some(number);
        }
        match &self.begun {
            None => None,
            Some(_) => Some(number),
        }
    }
}
