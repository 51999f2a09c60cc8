//! What takes a report: a stream of bytes, and what it can answer.
ghost use Rattle.std.specs.Prelude.{◌<◌, ℕ, ◌++◌, [], List, Result, IfOk, OnErr, length, take, ⊤};
ghost use Rattle.std.specs.Io.{WritesAtMost};
ghost use Rattle.std.specs.Io.KnownBytes.{Appends};
ghost use Rattle.std.specs.declared.io.Error.{Error};

use std::io::{self, Write};

/// What takes the bytes of a report, or of a journal. Every `Write` is one.
///
/// Its member `Answered` names the calls: which answer takes it from one state to another. A writing is proved for
/// every such relation, so for that of the calls which were made and no others. Hence what `run` says of the fault
/// `Write`: it comes only after a call that was answered with an error, or with no byte.
///
/// std's `Write` has no word for what it answers when, so of a writer as such each answer is allowed. An embedder whose
/// writer can tell more, a fixed buffer that knows when it is full, say, implements this trait for it. To be interrupted
/// is no failure: the call is made again, up to `MAX_INTERRUPTIONS` times over one report. A call offers a byte or more,
/// so to take none is a failure.
pub trait Sink {
    /// These bytes, written one after another, make the second of the first.
    ghost Wrote: { Self → List ℕ → Self → Type 0 };

    /// A call of it was answered so, and took it from the first state to the second.
    ghost Answered: { Self → Result ℕ Error → Self → Type 0 };

    /// Takes the front of a text that isn't empty, and says how many bytes of it.
    fn put(&mut self, text: &[u8]) -> io::Result<usize>
        requires { 0 < length text.now }
        ensures bound { WritesAtMost result text.now }
        ensures bytes { IfOk result (λ count. Wrote self.old (take count text.now) self.new) }
        ensures nothing { OnErr result (Wrote self.old [] self.new) }
        ensures answered { Answered self.old result self.new };

    /// Nothing written changes nothing.
    ghost wrote_none: { (a : Self) → Wrote a [] a };

    /// What is written after what was written.
    ghost wrote_more: { (a b c : Self) (first second : List ℕ)
        → Wrote a first b → Wrote b second c → Wrote a (first ++ second) c };
}

impl<W: Write> Sink for W {
    ghost use Rattle.std.proofs.KnownBytes.{Appends-nil, Appends-trans};

    ghost Wrote = { λ a bytes b. Appends (W.contents a) (W.contents b) bytes };

    ghost Answered = { λ _ _ _. ⊤ };

    ghost wrote_none = { λ a. Appends-nil (W.contents a) };

    ghost wrote_more = { λ a b c first second one two.
        Appends-trans (W.contents a) (W.contents b) (W.contents c) first second one two };

    fn put(&mut self, text: &[u8]) -> io::Result<usize> {
        self.write(text)
    }
}
