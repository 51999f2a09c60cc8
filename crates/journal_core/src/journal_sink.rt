//! A journal as the sink of packets that are dropped.

use crate::event::{Cause, Event};
use crate::journal::Journal;
use crate::recorder::Recorder;
use codel_core::DropSink;
use packet_core::Waiting;

/// The journal, borrowed: a packet that is taken is dropped at that moment, in microseconds, for that cause.
#[derive(Drop)]
pub struct JournalSink<'a, K: Recorder> {
    /// The journal.
    pub journal: &'a mut Journal<K>,
    /// The moment of the drops, in microseconds.
    pub moment: u64,
    /// Why the packets are dropped.
    pub cause: Cause,
}

impl<K: Recorder> DropSink for JournalSink<'_, K> {
    ghost use Rattle.journal_core.specs.JournalDrops.{RecordsDrops, records_none, records_more};

    ghost room = { λ f. f.journal.now.room };

    ghost taken = { λ a ws b. RecordsDrops a.moment a.cause a.journal ws b.moment b.cause b.journal };

    ghost taken_none = { λ a. records_none a.moment a.cause a.journal };

    ghost taken_more = { λ a b c ws w first next.
        records_more a.moment a.cause a.journal b.moment b.cause b.journal c.moment c.cause c.journal ws w first next };

    fn take(&mut self, dropped: Waiting) {
        self.journal.drop(&dropped, self.moment, self.cause);
    }
}
