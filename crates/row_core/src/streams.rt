//! What gives a trace: a stream of bytes, and what it can answer.
ghost use Rattle.std.specs.Prelude.{ℕ, List, Option, Result, ⊤};
ghost use Rattle.std.specs.Io.{ReadsAtMost};
ghost use Rattle.std.specs.Io.KnownBytes.{ReadConsumes};
ghost use Rattle.std.specs.declared.io.Error.{Error};

use std::io::{self, Read};

/// What gives the bytes of a trace. Every `Read` is one.
///
/// Its member `Answered` names the calls: which answer takes it from one state to another. A reading is proved for
/// every such relation, so for that of the calls which were made and no others. Hence what `read_trace` says of the
/// fault `Read`: without a call that was answered with an error there is none.
///
/// std's `Read` has no word for what it answers when, so of a reader as such each answer is allowed. An embedder whose
/// reader can tell more, a buffer that a device fills, say, with a flag for an overrun, implements this trait for it.
/// To be interrupted is no failure: the call is made again, up to `MAX_INTERRUPTIONS` times over one reading.
pub trait Source {
    /// The bytes that it gives from here on, where they are known.
    ghost remaining: { Self → Option (List ℕ) };

    /// A call of it was answered so, and took it from the first state to the second.
    ghost Answered: { Self → Result ℕ Error → Self → Type 0 };

    /// Fills the front of a buffer, and says how many bytes of it. It gives none at the end alone.
    fn fill(&mut self, buffer: &mut [u8]) -> io::Result<usize>
        ensures bound { ReadsAtMost result buffer.new }
        ensures bytes { ReadConsumes (remaining self.old) (remaining self.new) result buffer.new }
        ensures answered { Answered self.old result self.new };
}

impl<R: Read> Source for R {
    ghost remaining = { λ reader. R.remaining reader };

    ghost Answered = { λ _ _ _. ⊤ };

    fn fill(&mut self, buffer: &mut [u8]) -> io::Result<usize> {
        self.read(buffer)
    }
}
