ghost use Rattle.std.specs.Prelude.{◌≡◌, ◌≢◌, ◌≤◌, ◌+◌, ℕ, false, List, length, codes, IfOk, MatchBool};
ghost use Rattle.jc_decode.specs.declared.symbols.LaidHandler.{LaidHandler};
ghost use Rattle.cap_listing.specs.declared.method.ListedMethod.{ListedMethod};
ghost use Rattle.cap_listing.specs.Words.{joined};
ghost use Rattle.cap_listing.specs.Text.{IsHandler, handler_words};
ghost use Rattle.cap_listing.specs.Fault.{IsReadLine, IsNoLine};
ghost use Rattle.cap_listing.specs.Lines.{IsInstructionLine};
ghost use Rattle.cap_listing.specs.Assembler.{inside, fresh, method_of};

use crate::method::{Heading, ListedMethod};
use crate::recognized::{bytes_of, handler_of, instruction_of};
use jc_decode::{Laid, LaidHandler, Sequence};
use std::alloc::{AllocError, Global};

/// A method of which some lines were read.
#[derive(Drop)]
pub struct OpenMethod {
    pub(crate) heading: Heading,
    pub(crate) code: Vec<u8>,
    pub(crate) handlers: Vec<LaidHandler>,
    /// Whether bytes that are no instruction or a handler were read: after these no instruction comes.
    pub(crate) closed: bool,
}

impl OpenMethod {
    /// A method of which the first line was read.
    pub(crate) fn new(alloc: Global, heading: Heading) -> OpenMethod
        ensures fresh { (done : List ListedMethod) → inside done result ≡ fresh done heading }
        ensures few { length result.code.items ≤ 65535 }
    {
        OpenMethod {
            heading,
            code: Vec::new(alloc),
            handlers: Vec::new(alloc),
            closed: false,
        }
    }

    /// The method, when its last line was read.
    pub(crate) fn end(self) -> ListedMethod
        ensures { result ≡ method_of self }
    {
        ListedMethod {
            class_no: self.heading.class_no,
            method_no: self.heading.method_no,
            laid: Laid {
                code: Sequence::of(self.code),
                handlers: Sequence::of(self.handlers),
                max_stack: self.heading.max_stack,
                nargs: self.heading.nargs,
                max_locals: self.heading.max_locals,
            },
        }
    }

    /// Whether a line that does not end the method may come next; if so, it is read.
    pub(crate) fn read(&mut self, alloc: Global, line: &[u8]) -> Result<bool, AllocError>
        requires few { length self.old.code.items ≤ 65535 }
        requires other { line.now ≢ codes "end" }
        ensures few { length self.new.code.items ≤ 65535 }
        ensures cases { IfOk result (λ good. MatchBool good
            ((done : List ListedMethod) → IsReadLine (inside done self.old) line.now (inside done self.new))
            ((done : List ListedMethod) → IsNoLine (inside done self.old) line.now)) }
    {
        let found = handler_of(alloc, line)?;
        match found {
            Some(handler) => {
                self.handlers.push(handler)?;
                self.closed = true;
                Ok(true)
            }
            None => self.read_code(alloc, line),
        }
    }

    /// The same where the line is no handler's.
    fn read_code(&mut self, alloc: Global, line: &[u8]) -> Result<bool, AllocError>
        requires few { length self.old.code.items ≤ 65535 }
        requires other { line.now ≢ codes "end" }
        requires handler { (h : LaidHandler) → IsHandler h → line.now ≢ joined (handler_words h) }
        ensures few { length self.new.code.items ≤ 65535 }
        ensures cases { IfOk result (λ good. MatchBool good
            ((done : List ListedMethod) → IsReadLine (inside done self.old) line.now (inside done self.new))
            ((done : List ListedMethod) → IsNoLine (inside done self.old) line.now)) }
    {
        if self.closed {
            return Ok(false);
        }
        let found = instruction_of(alloc, self.code.len() as u16, line)?;
        match found {
            Some(bytes) => {
                self.code.extend_from_slice(bytes.as_slice())?;
                Ok(true)
            }
            None => self.read_bytes(alloc, line),
        }
    }

    /// The same where the line is no instruction's either, and one might come.
    fn read_bytes(&mut self, alloc: Global, line: &[u8]) -> Result<bool, AllocError>
        requires few { length self.old.code.items ≤ 65535 }
        requires more { self.old.closed ≡ false }
        requires other { line.now ≢ codes "end" }
        requires handler { (h : LaidHandler) → IsHandler h → line.now ≢ joined (handler_words h) }
        requires instruction { (bytes : List ℕ) → IsInstructionLine (length self.old.code.items) bytes line.now
            → length self.old.code.items + length bytes ≤ 65535 → ⊥ }
        ensures few { length self.new.code.items ≤ 65535 }
        ensures cases { IfOk result (λ good. MatchBool good
            ((done : List ListedMethod) → IsReadLine (inside done self.old) line.now (inside done self.new))
            ((done : List ListedMethod) → IsNoLine (inside done self.old) line.now)) }
    {
        let found = bytes_of(alloc, self.code.len() as u16, line)?;
        match found {
            Some(bytes) => {
                self.code.extend_from_slice(bytes.as_slice())?;
                self.closed = true;
                Ok(true)
            }
            None => Ok(false),
        }
    }
}
