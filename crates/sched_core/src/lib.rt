//! The scheduler FQ-CoDel (RFC 8290): steps, the journal of what became of every packet, running totals and rows by
//! five-tuple. An engine keeps the steps that it made too, and a run makes a list of steps, with an answer to each.
#![tactic(auto)]

mod classifier;
mod engine;
mod enqueue_room;
mod flow_numbers;
mod given_up;
pub mod laws;
mod run;
mod sched;

pub use classifier::FlowChooser;
pub use codel_core::Mark;
pub use engine::Engine;
pub use fair_core::FlowView;
pub use given_up::{GivenUp, Remains};
pub use journal_core::{
    Admitted, Answer, Cause, CloseFault, Event, EventList, GhostList, MAX_EVENTS, MAX_MOMENT,
    Memory, MomentFault, NullRecorder, Outcome, Recorder, Refusal, Sent, Step, StepList,
    StepRecorder, Totals, TupleRow,
};
pub use run::{Ran, run_steps};
pub use sched::{MAX_ACCEPTED, Sched};
