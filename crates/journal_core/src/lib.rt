//! What a packet scheduler is asked, what it answers, and the journal of what became of every packet: with its laws,
//! its statistics and its rows by five-tuple. They hold of every scheduler that drops from the heads of queues, and
//! nothing here knows of flows that take turns or of CoDel's state.
#![tactic(auto)]

mod event;
mod ghost_list;
mod journal;
mod journal_sink;
mod latest;
mod note;
mod noted;
mod outcome;
mod recorder;
mod step;
mod tally;
mod totals;
mod tuple_rows;

pub use codel_core::Mark;
pub use event::{Cause, Event};
pub use ghost_list::GhostList;
pub use journal::{Counts, Journal, MAX_EVENTS};
pub use journal_sink::JournalSink;
pub use latest::{LatestPlaces, PACKETS_FOR_PLACES};
pub use note::Note;
pub use noted::Noted;
pub use outcome::{Answer, Outcome};
pub use recorder::{EventList, NullRecorder, Recorder, StepList, StepRecorder};
pub use step::{Admitted, CloseFault, MAX_MOMENT, Memory, MomentFault, Refusal, Sent, Step};
pub use tally::Tally;
pub use totals::Totals;
pub use tuple_rows::{TupleRow, gather_rows, gather_rows_with_seed};
