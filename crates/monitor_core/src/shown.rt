//! What is shown of a journal.

ghost use Rattle.std.specs.Prelude.{◌≡◌, ◌⊎◌, length};
ghost use mathlib.Core.List.{IsPrefix};
ghost use Rattle.journal_core.specs.Statistics.{statistics};
ghost use Rattle.monitor_core.specs.Batches.{BeginOne, joined};

use crate::book::{BookName, Front};
use journal_core::{Event, Totals};
use left_right::Absorb;
use std::alloc::AllocError;
use std::marker::Model;

/// The statistics of the events that were published so far. Contracts see those events.
#[derive(Drop)]
pub struct Shown<J: BookName> {
    totals: Totals,
    events: u64,
    front: Front<J>,
}

impl<J: BookName> Model for Shown<J> {
    ghost use Rattle.std.specs.Prelude.{◌≡◌, List, length};
    ghost use Rattle.journal_core.specs.declared.event.Event.{Event};
    ghost use Rattle.journal_core.specs.Statistics.{statistics};
    ghost use Rattle.monitor_core.specs.Batches.{joined};

    ghost Value = { List Event };

    ghost view = { λ s. joined s.front };

    ghost invariant = { λ s. (s.totals ≡ statistics (joined s.front)) × (s.events ≡ length (joined s.front)) };
}

impl<J: BookName> Shown<J> {
    /// What a front shows.
    pub(crate) fn new(front: Front<J>, totals: Totals, events: u64) -> Shown<J>
        requires { (totals ≡ statistics (joined front)) × (events ≡ length (joined front)) }
        ensures { result ≡ joined front }
    {
        Shown {
            totals,
            events,
            front,
        }
    }

    /// How many events.
    pub fn events(&self) -> u64
        ensures { result ≡ length self.now }
    {
        self.events
    }

    /// Their statistics.
    pub fn totals(&self) -> Totals
        ensures { result ≡ statistics self.now }
    {
        self.totals
    }

    /// A copy.
    pub(crate) fn again(&self) -> Shown<J>
        ensures { result ≡ self.now }
    {
        Shown {
            totals: self.totals,
            events: self.events,
            front: self.front.again(),
        }
    }

    /// Does nothing at run time. Both begin one journal.
    #[tactic(auto, using(crate::proofs::BatchLemmas::begin_one_joined))]
    pub(crate) fn beside(&self, other: &Shown<J>)
        ensures { BeginOne self.now other.now }
    {
        self.front.beside(&other.front);
    }

    /// Becomes the longer of two.
    #[tactic(auto, using(crate::proofs::BatchLemmas::longer))]
    pub(crate) fn advance(&mut self, other: &Shown<J>)
        ensures this { IsPrefix self.old self.new }
        ensures that { IsPrefix other.now self.new }
        ensures one { (self.new ≡ self.old) ⊎ (self.new ≡ other.now) }
    {
        self.beside(other);
        if self.events() < other.events() {
            *self = other.again();
        }
    }
}

// What is published next takes the place of what is shown.
impl<J: BookName> Absorb<Shown<J>> for Shown<J> {
    type State = [Event; 0];

    ghost state = { λ s. s };

    ghost applied = { λ old new. new };

    ghost never_fails = { Unit {0} };

    fn absorb_first(&mut self, operation: &Shown<J>, _other: &Shown<J>) -> Result<(), AllocError> {
        *self = operation.again();
        Ok(())
    }
}
