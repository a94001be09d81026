ghost use Rattle.std.specs.Prelude.{◌≡◌, ℕ, List, Option, None};
ghost use Rattle.std.specs.Io.KnownBytes.{WriteAppends};
ghost use Rattle.cap_files.specs.Counts.{CountsFault};
ghost use Rattle.cap_files.specs.Sink.{TakesSome};

use crate::sink::SinkFailed;
use std::io::Write;

/// What takes the bytes of a text, some at a time.
pub trait Output {
    /// The bytes that it took, from the first on, where it tells them.
    ghost taken: { Self → Option (List ℕ) };

    /// How often it has failed.
    ghost faults: { Self → ℕ };

    /// Takes the first of the bytes, and answers how many. It takes none only where there are none.
    fn take(&mut self, bytes: &[u8]) -> Result<usize, SinkFailed>
        ensures taken { TakesSome (taken self.old) bytes.now (taken self.new) result }
        ensures faults { CountsFault (faults self.old) (faults self.new) result };
}

/// An output of the machine, as its standard output. What it took is not told from the first byte
/// on; of each call is told what its writer tells.
#[derive(Drop)]
pub struct StandardOutput<W: Write> {
    writer: W,
    faults: u64,
}

impl<W: Write> StandardOutput<W> {
    pub(crate) fn new(writer: W) -> StandardOutput<W>
        ensures writer { result.writer ≡ writer }
        ensures faults { result.faults ≡ 0 }
    {
        StandardOutput { writer, faults: 0 }
    }
}

impl<W: Write> Output for StandardOutput<W> {
    ghost taken = { λ _. None };

    ghost faults = { λ s. s.faults };

    fn take(&mut self, bytes: &[u8]) -> Result<usize, SinkFailed>
        ensures taken { TakesSome None bytes.now None result }
        ensures faults { CountsFault self.old.faults self.new.faults result }
        ensures written { WriteAppends (W.contents self.old.writer) (W.contents self.new.writer) result bytes.now }
    {
        match self.writer.write(bytes) {
            Ok(0) if !bytes.is_empty() => {}
            Ok(count) => return Ok(count),
            Err(_) => {}
        }
        self.faults = self.faults.saturating_add(1);
        Err(SinkFailed)
    }
}
