//! What is published: a journal that grows, and its statistics.

ghost use Rattle.std.specs.Prelude.{◌≡◌, ◌<◌, ◌^◌, List, length};
ghost use Rattle.journal_core.specs.declared.event.Event.{Event};
ghost use Rattle.journal_core.specs.Statistics.{statistics};

use journal_core::Totals;

/// What has a journal and keeps its statistics. The events may be stored, or stand in proofs alone.
pub trait Journaled {
    /// The events so far, in order.
    ghost events: { Self → List Event };

    /// Their statistics.
    fn totals(&self) -> Totals
        ensures { result ≡ statistics (events self.now) };

    /// How many there are.
    fn number(&self) -> u64
        ensures { result ≡ length (events self.now) };
}
