//! A monitor: it reads the statistics that were published, and waits for nobody.

ghost use Rattle.std.specs.Prelude.{◌≡◌, length};
ghost use mathlib.Core.List.{IsPrefix};
ghost use Rattle.journal_core.specs.Statistics.{statistics};

use crate::book::BookName;
use crate::receipt::Receipt;
use crate::shown::Shown;
use journal_core::Totals;
use left_right::ReadHandle;
use std::marker::Model;

/// What a monitor saw.
#[derive(Clone, Copy, Debug, PartialEq, Eq)]
pub struct Seen {
    /// Of how many first events of the journal.
    pub events: u64,
    /// Their statistics.
    pub totals: Totals,
}

/// What reads the statistics of a journal. Contracts see the longest list of events that it saw or learnt.
#[derive(Drop)]
pub struct Monitor<J: BookName> {
    reader: ReadHandle<Shown<J>>,
    longest: Shown<J>,
}

impl<J: BookName> Model for Monitor<J> {
    ghost use Rattle.std.specs.Prelude.{List};
    ghost use Rattle.journal_core.specs.declared.event.Event.{Event};

    ghost Value = { List Event };

    ghost view = { λ m. m.longest };
}

impl<J: BookName> Monitor<J> {
    /// A monitor that has seen what is shown at first.
    pub(crate) fn new(reader: ReadHandle<Shown<J>>, longest: Shown<J>) -> Monitor<J>
        ensures { result ≡ longest }
    {
        Monitor { reader, longest }
    }

    /// From here on it shows no less than the receipt stands for. It takes no memory and doesn't wait.
    pub fn learn(&mut self, receipt: &Receipt<J>)
        ensures kept { IsPrefix self.old self.new }
        ensures learnt { IsPrefix receipt.now self.new }
    {
        self.longest.advance(receipt.shown());
    }

    /// The statistics of as many first events of the journal as it says: of all that were published, and of no fewer
    /// than it saw or learnt before. Where `left_right` gives no entry, they are of what it saw or learnt. It takes no
    /// memory and doesn't wait.
    pub fn totals(&mut self) -> Seen
        ensures kept { IsPrefix self.old self.new }
        ensures totals { result.totals ≡ statistics self.new }
        ensures events { result.events ≡ length self.new }
    {
        if let Some(shown) = self.reader.enter() {
            self.longest.advance(&shown);
        }
        Seen {
            events: self.longest.events(),
            totals: self.longest.totals(),
        }
    }
}
