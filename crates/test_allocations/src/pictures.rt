//! Pictures of all that can be read, which take no memory.

use sched_core::{Engine, Event, Sched, Step, Totals};

/// So many events and steps stand in a picture. No sequence has more.
const SHOWN: usize = 24;

/// All that can be read of a scheduler or of an engine with one flow. A scheduler stores no steps.
#[derive(PartialEq, Drop)]
pub(crate) struct Picture {
    totals: Totals,
    turns: u64,
    comparisons: u64,
    queued: u64,
    last_moment: u64,
    ids_left: u64,
    is_closed: bool,
    events: [Option<Event>; SHOWN],
    steps: [Option<Step>; SHOWN],
}

/// The picture of a scheduler.
pub(crate) fn of_sched(sched: &mut Sched) -> Picture {
    Picture {
        totals: sched.totals(),
        turns: sched.turns(),
        comparisons: sched.comparisons(),
        queued: sched.queued(),
        last_moment: sched.last_moment(),
        ids_left: sched.ids_left(),
        is_closed: sched.is_closed(),
        events: first_of(sched.events()),
        steps: [None; SHOWN],
    }
}

/// The picture of an engine.
pub(crate) fn of_engine(engine: &Engine) -> Picture {
    Picture {
        totals: engine.totals(),
        turns: engine.turns(),
        comparisons: engine.comparisons(),
        queued: engine.queued(),
        last_moment: engine.last_moment(),
        ids_left: engine.ids_left(),
        is_closed: engine.is_closed(),
        events: first_of(engine.events()),
        steps: first_of(engine.steps()),
    }
}

/// The first items of a slice.
pub(crate) fn first_of<T: Copy>(items: &[T]) -> [Option<T>; SHOWN] {
    let mut first = [None; SHOWN];
    for place in 0..SHOWN {
        first[place] = items.get(place).copied();
    }
    first
}
