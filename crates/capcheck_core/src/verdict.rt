ghost use Rattle.std.specs.Prelude.{◌≡◌, MatchResult};
ghost use Rattle.capcheck_core.specs.Verdict.{status_of, text_of};
ghost use Rattle.capcheck_core.specs.Report.{IsReported, seen};

use cap_files::Sink;
use std::alloc::AllocError;

/// What a command decided: the status that it answers if its text can be put, with that text.
#[derive(Drop)]
pub enum Verdict {
    /// The command did its work.
    Done(String),
    /// A verifier that the command runs refused a method.
    Refused(String),
    /// A size limit of the transformer is passed.
    Limit(String),
    /// The parts are malformed or not linked, or the entry does not start.
    Malformed(String),
    /// The words are outside the grammar.
    Usage,
    /// A load failed.
    ReadFault,
    /// A store failed.
    StoreFault,
    /// There was no memory.
    Memory,
}

impl Verdict {
    /// The work is done, and the text made; or there was no memory for the text.
    pub fn done(text: Result<String, AllocError>) -> Verdict
        ensures { MatchResult text (λ t. result ≡ Verdict.Done t) (λ _. result ≡ Verdict.Memory) }
    {
        match text {
            Ok(text) => Verdict::Done(text),
            Err(_) => Verdict::Memory,
        }
    }

    /// A verifier refused, and the text is made; or there was no memory for the text.
    pub fn refused(text: Result<String, AllocError>) -> Verdict
        ensures { MatchResult text (λ t. result ≡ Verdict.Refused t) (λ _. result ≡ Verdict.Memory) }
    {
        match text {
            Ok(text) => Verdict::Refused(text),
            Err(_) => Verdict::Memory,
        }
    }

    /// A limit is passed, and the text is made; or there was no memory for the text.
    pub fn limit(text: Result<String, AllocError>) -> Verdict
        ensures { MatchResult text (λ t. result ≡ Verdict.Limit t) (λ _. result ≡ Verdict.Memory) }
    {
        match text {
            Ok(text) => Verdict::Limit(text),
            Err(_) => Verdict::Memory,
        }
    }

    /// What was given is no good, and the text is made; or there was no memory for the text.
    pub fn malformed(text: Result<String, AllocError>) -> Verdict
        ensures { MatchResult text (λ t. result ≡ Verdict.Malformed t) (λ _. result ≡ Verdict.Memory) }
    {
        match text {
            Ok(text) => Verdict::Malformed(text),
            Err(_) => Verdict::Memory,
        }
    }

    /// The number from 0 to 7 that the program ends with.
    pub fn status(&self) -> u8
        ensures { result ≡ status_of self.now }
    {
        match self {
            Verdict::Done(_) => 0,
            Verdict::Refused(_) => 1,
            Verdict::Usage => 2,
            Verdict::ReadFault => 3,
            Verdict::StoreFault => 4,
            Verdict::Limit(_) => 5,
            Verdict::Memory => 6,
            Verdict::Malformed(_) => 7,
        }
    }

    /// The lines that are printed.
    pub fn text(&self) -> &str
        ensures { result.now ≡ text_of self.now }
    {
        match self {
            Verdict::Done(text)
            | Verdict::Refused(text)
            | Verdict::Limit(text)
            | Verdict::Malformed(text) => text.as_str(),
            Verdict::Usage => "usage\n",
            Verdict::ReadFault => "read fault\n",
            Verdict::StoreFault => "store fault\n",
            Verdict::Memory => "memory\n",
        }
    }
}

/// The status of a command that could not put its text.
const PUT_FAULT: u8 = 8;

/// Puts the text of a verdict and answers the status: the verdict's, or 8 where the put failed.
pub fn report<K: Sink>(out: &mut K, verdict: &Verdict) -> u8
    ensures { IsReported verdict.now (seen (K.received out.old) (K.faults out.old)) (seen (K.received out.new) (K.faults out.new)) result }
{
    match out.put(verdict.text().as_bytes()) {
        Ok(()) => verdict.status(),
        Err(_) => PUT_FAULT,
    }
}
