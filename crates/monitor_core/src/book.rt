//! The book of what was published. It stands in proofs alone, but for the number of its entries.
//!
//! What a monitor reads tells a proof only what its type says. So whatever is shown carries a `Front`, a beginning of
//! one log that only grows. Two fronts of one book begin that log, so the shorter one begins the longer.

ghost use Rattle.std.specs.Prelude.{◌≡◌, ◌+◌, ◌≤◌, ◌<◌, ◌^◌, ◌++◌, ◌∷◌, ◌⊎◌, [], drop, false, length, IsTrue};
ghost use Rattle.monitor_core.specs.declared.book.TheConstants.{MAX_BATCHES};
ghost use mathlib.Core.List.{IsPrefix};
ghost use Rattle.monitor_core.specs.Batches.{BeginOne, batch, joined};
ghost use Rattle.monitor_core.specs.BookRules.{head_of};

use crate::journaled::Journaled;
use journal_core::Event;
use logbook::{Gain, Offer, Plain, Play, Rule, Seen, Start, Word};
use std::collections::LinkedList;
use std::marker::{Brand, Model, PhantomData};

/// A book has at most so many entries. A publish after so many is refused; at one each nanosecond that is in 146
/// years.
const MAX_BATCHES: u64 = 1 << 62;

/// Events that were published at once, an entry of the book. No value of it is made.
pub struct Batch {
    /// The events.
    pub events: LinkedList<Event>,
}

/// The rule of the book: its word is the number of its entries.
pub struct Counted;

impl Rule<Batch, u64> for Counted {
    ghost use Rattle.std.specs.Prelude.{[]};
    ghost use base.Fml.{ftrue};
    ghost use Rattle.monitor_core.specs.BookRules.{HasEntryCount};

    ghost holds = { λ cells log. HasEntryCount cells log };

    ghost first = { [] };

    ghost hinted = { λ n log. Unit {0} };

    ghost shows = { λ log. [] };

    ghost keeps = { λ names log. ftrue };

    ghost moves = { λ ask before after answer. Unit {0} };
}

/// A step by which nothing is traded.
pub struct Nothing;

impl Gain<Batch, u64> for Nothing {
    ghost use base.Fml.{ftrue};

    ghost after = { λ names about answer. ftrue };
}

/// The events of a journal from a place on.
#[derive(Clone, Copy)]
pub struct Due<'a, Q: Journaled> {
    from: u64,
    journal: &'a Q,
}

/// The step that adds a batch.
pub struct Add;

impl Play<Batch, u64> for Add {
    ghost use Rattle.monitor_core.specs.BookRules.{Adds};

    ghost then = { Adds };
}

impl<'a, Q: Journaled> Plain<Due<'a, Q>, Batch, u64> for Add {
    ghost use Rattle.std.specs.Prelude.{None, drop};
    ghost use Rattle.monitor_core.specs.Batches.{batch};

    ghost ask = { λ due. batch (drop due.from (Q.events due.journal.now)) };

    ghost state = { λ due. None };
}

/// Which book it is. What shows, is shown and reads has a type parameter of this kind, so that two books aren't mixed.
pub trait BookName {
    ghost use Rattle.logbook.specs.Pages.{Book};

    /// The book.
    ghost book: { Book };
}

impl BookName for Brand {
    ghost book = { record { number = 0; log_name = 0; cells_name = 0 } };
}

/// A book without entries and without a name. Contracts see which one it is.
#[derive(Drop)]
pub struct BookBlank {
    head: Word<Batch, u64, Counted>,
    seen: Seen<Batch, u64, Counted>,
}

impl Model for BookBlank {
    ghost use Rattle.std.specs.Prelude.{◌≡◌, []};
    ghost use Rattle.logbook.specs.Pages.{Book};
    ghost use Rattle.monitor_core.specs.BookRules.{head_of};

    ghost Value = { Book };

    ghost view = { λ b. b.seen.book };

    ghost invariant = { λ b. (b.seen.log ≡ []) × (b.head ≡ head_of b.seen.book) };
}

impl BookBlank {
    /// A new one.
    pub fn new() -> BookBlank {
        let (seen, mut first, _second) = Seen::open(Start::alone(), 0, 0);
        BookBlank {
            head: Word::tracked(0, &mut first),
            seen,
        }
    }

    /// The book under its name, and the front of none of its entries.
    pub(crate) fn named<J: BookName>(self) -> (Book<J>, Front<J>)
        requires { self ≡ J.book }
        ensures { result.1 ≡ [] }
    {
        let BookBlank { head, seen } = self;
        (
            Book {
                head,
                of: PhantomData,
            },
            Front {
                batches: 0,
                seen,
                of: PhantomData,
            },
        )
    }
}

/// A book: the number of its entries.
#[derive(Drop)]
pub(crate) struct Book<J: BookName> {
    head: Word<Batch, u64, Counted>,
    of: PhantomData<J>,
    ghost head_is: { head ≡ head_of J.book },
}

/// A beginning of a book. Contracts see it as its batches.
#[derive(Drop)]
pub(crate) struct Front<J: BookName> {
    batches: u64,
    seen: Seen<Batch, u64, Counted>,
    of: PhantomData<J>,
}

impl<J: BookName> Model for Front<J> {
    ghost use Rattle.std.specs.Prelude.{◌≡◌, List, length};
    ghost use Rattle.monitor_core.specs.declared.book.Batch.{Batch};

    ghost Value = { List Batch };

    ghost view = { λ f. f.seen.log };

    ghost invariant = { λ f. (f.batches ≡ length f.seen.log) × (f.seen.book ≡ J.book) };
}

impl<J: BookName> Front<J> {
    /// A copy.
    pub(crate) fn again(&self) -> Front<J>
        ensures { result ≡ self.now }
    {
        Front {
            batches: self.batches,
            seen: self.seen.again(),
            of: PhantomData,
        }
    }

    /// Does nothing at run time. Both begin one log.
    pub(crate) fn beside(&self, other: &Front<J>)
        ensures { BeginOne self.now other.now }
    {
        let mut both = self.seen.again();
        both.learn(&other.seen);
    }

    /// Adds a journal's events from a place on as one batch, and says whether it did. It doesn't where the book is full
    /// or has entries that this front is without.
    pub(crate) fn add<Q: Journaled>(&mut self, book: &Book<J>, from: u64, journal: &Q) -> bool
        ensures added { IsTrue result → self.new ≡ self.old ++ batch (drop from (Q.events journal.now)) ∷ [] }
        ensures not_added { result ≡ false
            → (MAX_BATCHES ≤ length self.old) ⊎ (length self.old < length self.new) }
        ensures prefix { IsPrefix self.old self.new }
    {
        if self.batches >= MAX_BATCHES {
            return false;
        }
        let due = Due { from, journal };
        let mut offer: Offer<Batch, u64, Counted, Nothing> = self
            .seen
            .plain::<Nothing, Due<Q>, Add>(&due);
        let mut pen = self.seen.no_pen();
        let batches = self.batches;
        let found = book
            .head
            .compare_exchange::<Add, Nothing>(
                batches,
                batches + 1,
                &mut self.seen,
                &mut offer,
                &mut pen,
            );
        self.batches = if found == batches { batches + 1 } else { found };
        found == batches
    }
}
