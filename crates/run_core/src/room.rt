//! The lists of a run, with memory for all of it where so many packets are known to come.

ghost use Rattle.std.specs.Prelude.{◌≡◌, []};
ghost use Rattle.journal_core.specs.Recorders.{listed_events, listed_losses, listed_sent, listed_steps};

use sched_core::{EventList, Recorder, StepList, StepRecorder};
use sender_core::Expected;
use std::alloc::Global;

/// At each dequeue of the trace at most so many packets are taken from each lane. An engine takes memory for all of them
/// before the first, and a scheduler takes memory for as many ahead. So memory is asked for once in many packets, and
/// the dequeue after them comes soon.
pub(crate) const BURST: u64 = 64;

/// What stores the events and the steps of the run, with memory for all of them where packets are expected. Where memory
/// is refused, a list grows as it is filled.
pub(crate) fn stores(alloc: Global, expected: Expected) -> (EventList, StepList)
    ensures events { listed_events result.0 ≡ [] }
    ensures none_sent { listed_sent result.0 ≡ [] }
    ensures no_loss { listed_losses result.0 ≡ [] }
    ensures steps { listed_steps result.1 ≡ [] }
{
    let (mut events, mut steps) = (EventList::new(alloc), StepList::new(alloc));
    let room = expected.room(BURST as usize);
    let _ = events.reserve(room.events);
    let _ = steps.reserve(room.steps);
    (events, steps)
}
