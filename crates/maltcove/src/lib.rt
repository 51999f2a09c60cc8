//! The scheduler FQ-CoDel (RFC 8290) as one library: the names that a program over it needs, from one place.
//!
//! Its definitions are here too, by the names in `specs/Lib.antt`, so that a contract over packets, steps and the
//! journal names this crate alone. Threads stand above it, in `port_core`; C has the same scheduler by `maltcove_c`.
#![tactic(auto)]

pub use codel_core::Served;
pub use packet_core::{
    Classify, Ecn, EcnUse, FiveTuple, Ip, LengthOutOfRange, MAX_LENGTH, Packet, ParamFault,
    ParamFields, ParamName, Params, Seed, Waiting, read_params,
};
pub use queue_disc_core::{
    Dequeued, Dropped, EnqueueFault, Enqueued, Flushed, QueueDisc, QueueDiscTotals, RENEW_AFTER,
};
pub use sched_core::{
    Admitted, Answer, Cause, CloseFault, Engine, Event, EventList, FlowChooser, FlowView,
    GhostList, GivenUp, MAX_ACCEPTED, MAX_EVENTS, MAX_MOMENT, Mark, Memory, MomentFault,
    NullRecorder, Outcome, Ran, Recorder, Refusal, Remains, Sched, Sent, Step, StepList,
    StepRecorder, Totals, TupleRow, run_steps,
};

const _: () = prove!(MAX_MOMENT == 1 << 60);

const _: () = prove!(MAX_ACCEPTED == 1 << 40);

const _: () = prove!(MAX_EVENTS == 1 << 43);
