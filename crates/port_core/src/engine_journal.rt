//! An engine's journal, as a publisher sees it.

ghost use Rattle.std.specs.Prelude.{◌≡◌};

use journal_core::{Recorder, StepRecorder};
use monitor_core::Journaled;
use sched_core::{Engine, Event, Step, Totals};

/// The journal of an engine, whether its events are stored or not.
#[derive(Clone, Copy)]
pub(crate) struct EngineJournal<'a, K: Recorder, S: StepRecorder> {
    engine: &'a Engine<K, S>,
}

impl<'a, K: Recorder, S: StepRecorder> EngineJournal<'a, K, S> {
    /// The journal of that engine.
    pub(crate) fn new(engine: &'a Engine<K, S>) -> EngineJournal<'a, K, S>
        ensures { result.engine.now ≡ engine.now }
    {
        EngineJournal { engine }
    }
}

impl<'a, K: Recorder, S: StepRecorder> Journaled for EngineJournal<'a, K, S> {
    ghost events = { λ j. j.engine.now.sched.standing.events };

    fn totals(&self) -> Totals {
        self.engine.totals()
    }

    fn number(&self) -> u64 {
        self.engine.event_count()
    }
}
