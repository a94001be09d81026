ghost use Rattle.std.specs.Prelude.{ℕ, ◌≤◌, List, Option, OnErr, ◌≡◌, length, nat_lt, is_ok, IfOk, if◌then◌else◌};
ghost use Rattle.cap_files.specs.Counts.{Rose};
ghost use Rattle.cap_files.specs.Sink.{Puts};
ghost use Rattle.cap_files.specs.Calls.{no_calls};
ghost use Rattle.cap_files.specs.Tape.{empty_tape};
ghost use Rattle.cap_files.specs.Mem.{text_received, faults_of, put_listed, is_put, received};

use crate::disk::Calls;
use crate::output::{Output, StandardOutput};
use crate::pile::{Tape, kept};
use std::alloc::{AllocError, Global};
use std::io::Write;

/// The device failed, and the count of its faults rose.
#[derive(Clone, Copy)]
pub struct SinkFailed;

/// A device that text is written to.
pub trait Sink {
    /// The bytes that it received, from the first on, where the device tells them.
    ghost received: { Self → Option (List ℕ) };

    /// How often a put has failed.
    ghost faults: { Self → ℕ };

    /// Hands over a piece of text, with no memory taken. After a failure the first bytes of the
    /// piece, or none or all of them, have been received.
    fn put(&mut self, piece: &[u8]) -> Result<(), SinkFailed>
        ensures bytes { Puts (received self.old) piece.now (received self.new) result }
        ensures failed { OnErr result (Rose (faults self.old) (faults self.new)) }
        ensures faults { faults self.old ≤ faults self.new };
}

/// A sink in memory that fails at the puts that were listed, and at a put that its room does not
/// suffice for.
#[derive(Drop)]
pub struct MemSink {
    tape: Tape,
    puts: Calls,
}

impl MemSink {
    /// A sink that has received nothing, with room for so many bytes, and fails at no call. Its
    /// room is taken now.
    pub fn new(alloc: Global, bytes: u32) -> Result<MemSink, AllocError>
        ensures { IfOk result (λ s. s ≡ record { tape = empty_tape bytes; puts = no_calls }) }
    {
        Ok(MemSink {
            tape: Tape::new(alloc, bytes)?,
            puts: Calls::new(alloc)?,
        })
    }

    /// The bytes that the sink received.
    pub fn received(&self) -> &[u8]
        ensures { result.now ≡ self.now.tape.bytes }
    {
        self.tape.bytes()
    }

    /// Lets the n-th put fail, from 1, after `keep` bytes, unless 32 are listed. Every put counts,
    /// whatever it answers. Of two that are listed with one number the first counts.
    pub fn fail_put(&mut self, n: u32, keep: u32) -> bool
        ensures room { result ≡ nat_lt (length self.old.puts.failures) 32 }
        ensures after { self.new ≡ (if result then put_listed self.old n keep else self.old) }
    {
        self.puts.fail(n, keep)
    }
}

impl Sink for MemSink {
    ghost received = { text_received };

    ghost faults = { faults_of };

    /// Receives a piece. A put that is listed to fail receives the bytes that it is to keep, where
    /// the room suffices for them.
    fn put(&mut self, piece: &[u8]) -> Result<(), SinkFailed>
        ensures bytes { Puts (text_received self.old) piece.now (text_received self.new) result }
        ensures failed { OnErr result (Rose (faults_of self.old) (faults_of self.new)) }
        ensures faults { faults_of self.old ≤ faults_of self.new }
        ensures put { is_ok result ≡ is_put self.old piece.now }
        ensures after { self.new ≡ received self.old piece.now }
    {
        let keep = self.puts.next();
        let appended = self.tape.append(kept(piece, keep));
        if appended && keep.is_none() {
            return Ok(());
        }
        self.puts.fault();
        Err(SinkFailed)
    }
}

/// A sink that hands its text to an output. It tells what that tells, and fails where that does.
#[derive(Drop)]
pub struct OutSink<O: Output> {
    output: O,
}

impl<W: Write> OutSink<StandardOutput<W>> {
    /// The sink of a writer of the machine, as of its standard output.
    pub fn new(writer: W) -> OutSink<StandardOutput<W>>
        ensures writer { result.output.writer ≡ writer }
        ensures faults { result.output.faults ≡ 0 }
    {
        OutSink {
            output: StandardOutput::new(writer),
        }
    }
}

impl<O: Output> Sink for OutSink<O> {
    ghost received = { λ s. O.taken s.output };

    ghost faults = { λ s. O.faults s.output };

    fn put(&mut self, piece: &[u8]) -> Result<(), SinkFailed> {
        let mut left = piece;
        'pieces: while !left.is_empty() {
            match self.output.take(left) {
                Ok(taken) => left = &left[taken..],
                Err(end) => return Err(end),
            }
        }
        Ok(())
    }
}
