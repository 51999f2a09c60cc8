//! The publisher: the part of a journal's owner that shows its statistics to monitors.

ghost use Rattle.std.specs.Prelude.{◌≡◌, ◌⊎◌, [], length, IfOk, MatchBool, OnErr, OnOk};
ghost use mathlib.Core.List.{IsPrefix};
ghost use Rattle.monitor_core.specs.Batches.{joined};

use crate::book::{Book, BookName, Front};
use crate::journaled::Journaled;
use crate::receipt::Receipt;
use crate::screen::{OnScreen, Screen};
use crate::shown::Shown;
use journal_core::Totals;
use std::marker::Model;

/// Why nothing was published.
#[derive(Clone, Copy, Debug, PartialEq, Eq)]
pub enum PublishFault {
    /// A growth was refused.
    Memory,
}

/// What publishes a journal, over a screen. Contracts see the events that the screen shows and those that stand in the
/// book. After a publish that was refused these may be more.
#[derive(Drop)]
pub struct Publisher<J: BookName, X: Screen<Shown<J>> + Drop> {
    screen: X,
    book: Book<J>,
    front: Front<J>,
    reached: u64,
    shown: OnScreen<Shown<J>>,
}

impl<J: BookName, X: Screen<Shown<J>> + Drop> Model for Publisher<J, X> {
    ghost use Rattle.std.specs.Prelude.{◌≡◌, length};
    ghost use Rattle.monitor_core.specs.Batches.{joined};
    ghost use Rattle.monitor_core.specs.Publishing.{Published};

    ghost Value = { Published };

    ghost view = { λ p. record {
      reached = joined p.front;
      shown = p.shown;
    } };

    ghost invariant = { λ p. p.reached ≡ length (joined p.front) };
}

impl<J: BookName, X: Screen<Shown<J>> + Drop> Publisher<J, X> {
    /// One that has published nothing, over a screen and what it shows.
    pub(crate) fn new(
        screen: X,
        book: Book<J>,
        front: Front<J>,
        shown: OnScreen<Shown<J>>,
    ) -> Publisher<J, X>
        requires { joined front ≡ [] }
        ensures { result ≡ record { reached = []; shown = shown } }
    {
        Publisher {
            screen,
            book,
            front,
            reached: 0,
            shown,
        }
    }

    /// Shows all events of the journal at once. Where memory is refused monitors are shown what they were shown before,
    /// and the events stay due for the next publish. It waits for monitors that are just reading. Its cost doesn't grow
    /// with the journal.
    pub fn publish<Q: Journaled>(&mut self, journal: &Q) -> Result<Receipt<J>, PublishFault>
        requires { IsPrefix self.old.reached (Q.events journal.now) }
        ensures shown { OnOk result (self.new.shown ≡ Q.events journal.now) }
        ensures receipt { IfOk result (λ r. r ≡ Q.events journal.now) }
        ensures refused { OnErr result (self.new.shown ≡ self.old.shown) }
        ensures reached { (self.new.reached ≡ self.old.reached) ⊎ (self.new.reached ≡ Q.events journal.now) }
    {
        if !self.reach(journal) {
            return Err(PublishFault::Memory);
        }
        let next = Shown::new(self.front.again(), journal.totals(), self.reached);
        if !self.screen.show(&mut self.shown, next) {
            return Err(PublishFault::Memory);
        }
        Ok(self.receipt())
    }

    /// Adds the events that the book doesn't have yet, as one batch.
    #[tactic(auto, using(crate::proofs::BatchLemmas::reaching))]
    fn reach<Q: Journaled>(&mut self, journal: &Q) -> bool
        requires { IsPrefix self.old.reached (Q.events journal.now) }
        ensures reached { MatchBool result
            (self.new.reached ≡ Q.events journal.now) (self.new.reached ≡ self.old.reached) }
        ensures rest { self.new ≡ record self.old { reached = self.new.reached } }
    {
        let mut front = self.front.again();
        if !front.add(&self.book, self.reached, journal) {
            return false;
        }
        self.advance(front, journal.number());
        true
    }

    /// Keeps a front of so many events.
    fn advance(&mut self, front: Front<J>, events: u64)
        requires { events ≡ length (joined front) }
        ensures { self.new ≡ record self.old { reached = joined front } }
    {
        self.front = front;
        self.reached = events;
    }

    /// The receipt of the last publish that wasn't refused. It stands for no event before the first.
    pub fn receipt(&self) -> Receipt<J>
        ensures { result ≡ self.now.shown }
    {
        Receipt::new(self.shown.value().again())
    }
}

/// The statistics of no event.
pub(crate) fn nothing_shown<J: BookName>(front: &Front<J>) -> Shown<J>
    requires { front.now ≡ [] }
    ensures { result ≡ [] }
{
    let none = Totals {
        accepted: 0,
        accepted_bytes: 0,
        sent: 0,
        sent_bytes: 0,
        dropped_codel: 0,
        dropped_overflow: 0,
        dropped_bytes: 0,
        marked: 0,
        threshold_marked: 0,
        queued: 0,
        queued_bytes: 0,
        closed: false,
    };
    Shown::new(front.again(), none, 0)
}
